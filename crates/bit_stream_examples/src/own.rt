//! A type of a user's own that is written as bits, with no proof of its own.
ghost use Rattle.std.specs.Prelude.{◌<◌, ◌^◌, ◌++◌};
ghost use Rattle.bit_addressing.specs.Row.{binary};

use crate::{check, ok};
use bit_addressing::{BitOrder, BitStore, GrowError, Msb0};
use bit_streams::{BitReader, BitWriter, Fields};
use std::process::Abort;

/// A kind of three bits and a port of thirteen.
#[derive(Clone, Copy, Drop, PartialEq, Eq)]
pub struct Endpoint {
    /// Below 8.
    pub kind: u64,
    /// Below 8192.
    pub port: u64,
}

impl Fields for Endpoint {
    ghost fits = { λ it. (it.kind < 2 ^ 3) × (it.port < 2 ^ 13) };

    ghost bits_of = { λ it. binary 3 it.kind ++ binary 13 it.port };

    #[tactic(auto, using(bit_streams::proofs::Steps::number_refused, bit_streams::proofs::Steps::number_refused_after), unfolding(bit_addressing::specs::Row::binary))]
    fn write<T: BitStore, O: BitOrder>(
        &self,
        writer: &mut BitWriter<T, O>,
    ) -> Result<(), GrowError> {
        let before = writer.len();
        match writer.write(3, self.kind) {
            Ok(()) => {}
            Err(why) => return Err(why),
        }
        match writer.write(13, self.port) {
            Ok(()) => Ok(()),
            Err(why) => {
                writer.truncate(before);
                Err(why)
            }
        }
    }

    fn read<T: BitStore, O: BitOrder>(reader: &mut BitReader<'_, T, O>) -> Option<Endpoint> {
        let before = reader.copied();
        match reader.read(3) {
            None => None,
            Some(kind) => match reader.read(13) {
                None => {
                    *reader = before;
                    None
                }
                Some(port) => Some(Endpoint { kind, port }),
            },
        }
    }
}

#[test]
fn an_endpoint_there_and_back(rt: HostRuntime) {
    let endpoint = Endpoint {
        kind: 5,
        port: 8080,
    };
    let mut writer = BitWriter::<u8, Msb0>::new(rt.alloc());
    ok(&rt, endpoint.write(&mut writer));
    let bits = ok(&rt, writer.finish());
    check(&rt, bits.as_raw_slice() == [0xbf_u8, 0x90].as_slice());
    let mut reader = BitReader::new(bits.as_bitslice());
    check(&rt, Endpoint::read(&mut reader) == Some(endpoint));
}
