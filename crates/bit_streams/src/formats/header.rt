//! The header of an IPv4 packet that has no options, by fields.
ghost use Rattle.std.specs.Prelude.{◌≡◌, ◌≢◌, ◌^◌, ◌<◌, ◌≤◌, ◌++◌, ◌↔◌, Bool, List, Err, IfOk, IfSome, None, OnErr, Ok, Some, length};
ghost use Rattle.bit_streams.specs.Header.{HasFields, IsPlain, header_bits, header_from, header_parts};
ghost use Rattle.bit_streams.specs.declared.formats.header.Header.{Header as HeaderRecord};
ghost use Rattle.bit_streams.specs.declared.formats.header.HeaderFault.TheVariants as faults;

use crate::fields::{Fields, Number};
use crate::reader::BitReader;
use crate::writer::BitWriter;
use bit_addressing::{BitOrder, BitStore, GrowError};

/// Why bits are not the header of an IPv4 packet without options: the reader stays where it was.
#[derive(Clone, Copy, PartialEq, Eq, Debug)]
pub enum HeaderFault {
    /// There are fewer than 160.
    Ended,
    /// The version is not 4.
    Version,
    /// The header has not 5 words, so it has options or is too short.
    Options,
    /// The flag that is reserved is true.
    ReservedFlag,
}

/// The header of an IPv4 packet that has no options. Its fields come in this order, the most significant bit of each
/// first.
#[derive(Clone, Copy, Drop, PartialEq, Eq, Debug)]
pub struct Header {
    /// 4 bits: 4.
    pub version: u64,
    /// 4 bits: how many words of 32 bits the header has, 5 where there are no options.
    pub header_words: u64,
    /// 6 bits: the class of service.
    pub service: u64,
    /// 2 bits: the notice of congestion.
    pub congestion: u64,
    /// 16 bits: the bytes of the whole packet.
    pub total_length: u64,
    /// 16 bits: what the fragments of one packet share.
    pub identification: u64,
    /// 3 bits: reserved, don't fragment, more fragments.
    pub flags: u64,
    /// 13 bits: where the fragment begins, in units of 8 bytes.
    pub fragment_offset: u64,
    /// 8 bits: how many routers may still pass it on.
    pub time_to_live: u64,
    /// 8 bits: what the packet carries.
    pub protocol: u64,
    /// 16 bits: the checksum of the header.
    pub checksum: u64,
    /// 32 bits: the sender.
    pub source: u64,
    /// 32 bits: the receiver.
    pub destination: u64,
}

// The fields in three groups.
type First = (Number<4>, (Number<4>, (Number<6>, (Number<2>, Number<16>))));

type Second = (
    Number<16>,
    (Number<3>, (Number<13>, (Number<8>, Number<8>))),
);

type Third = (Number<16>, (Number<32>, Number<32>));

type Parts = (First, (Second, Third));

// The fields of a header.
fn parts_of(h: &Header) -> Parts
    ensures { result ≡ header_parts h.now }
{
    let first = (
        Number { value: h.version },
        (
            Number {
                value: h.header_words,
            },
            (
                Number { value: h.service },
                (
                    Number {
                        value: h.congestion,
                    },
                    Number {
                        value: h.total_length,
                    },
                ),
            ),
        ),
    );
    let second = (
        Number {
            value: h.identification,
        },
        (
            Number { value: h.flags },
            (
                Number {
                    value: h.fragment_offset,
                },
                (
                    Number {
                        value: h.time_to_live,
                    },
                    Number { value: h.protocol },
                ),
            ),
        ),
    );
    let third = (
        Number { value: h.checksum },
        (
            Number { value: h.source },
            Number {
                value: h.destination,
            },
        ),
    );
    (first, (second, third))
}

// The header that has these fields.
fn header_of(parts: Parts) -> Header
    ensures { result ≡ header_from parts }
{
    let (first, (second, third)) = parts;
    Header {
        version: first.0.value,
        header_words: first.1.0.value,
        service: first.1.1.0.value,
        congestion: first.1.1.1.0.value,
        total_length: first.1.1.1.1.value,
        identification: second.0.value,
        flags: second.1.0.value,
        fragment_offset: second.1.1.0.value,
        time_to_live: second.1.1.1.0.value,
        protocol: second.1.1.1.1.value,
        checksum: third.0.value,
        source: third.1.0.value,
        destination: third.1.1.value,
    }
}

// What a header has that no packet without options has.
fn fault_of(h: &Header) -> Option<HeaderFault>
    ensures version { (result ≡ Some faults.Version) ↔ (h.now.version ≢ 4) }
    ensures options { result ≡ Some faults.Options → (h.now.version ≡ 4) × (h.now.header_words ≢ 5) }
    ensures reserved { result ≡ Some faults.ReservedFlag
        → (h.now.version ≡ 4) × ((h.now.header_words ≡ 5) × (4 ≤ h.now.flags)) }
    ensures other { result ≢ Some faults.Ended }
    ensures none { result ≡ None → (h.now.version ≡ 4) × ((h.now.header_words ≡ 5) × (h.now.flags < 4)) }
    ensures plain { h.now.version ≡ 4 → h.now.header_words ≡ 5 → h.now.flags < 4 → result ≡ None }
{
    if h.version != 4 {
        return Some(HeaderFault::Version);
    }
    if h.header_words != 5 {
        return Some(HeaderFault::Options);
    }
    if h.flags >= 4 {
        return Some(HeaderFault::ReservedFlag);
    }
    None
}

// Reads the fields of a header, whatever they are.
fn read_fields<T: BitStore, O: BitOrder>(reader: &mut BitReader<'_, T, O>) -> Option<Header>
    ensures none { (result ≡ None) ↔ (length reader.old.rest < 160) }
    ensures found { IfSome result (λ h. reader.old.rest ≡ header_bits h ++ reader.new.rest) }
    ensures fitting { IfSome result HasFields }
    ensures kept { result ≡ None → reader.new ≡ reader.old }
    ensures back { (h : HeaderRecord) → (more : List Bool) → HasFields h → reader.old.rest ≡ header_bits h ++ more
        → (result ≡ Some h) × (reader.new.rest ≡ more) }
{
    match Parts::read(reader) {
        None => None,
        Some(parts) => Some(header_of(parts)),
    }
}

impl Header {
    /// Reads a header, and checks what is fixed in a packet without options, in this order: the version is 4, the header
    /// has 5 words, and the reserved flag is false. The first that differs is the error, and then the reader stays where it
    /// is.
    ///
    /// ```text
    /// Header::read_checked(&mut reader)     // Err(HeaderFault::Version) for a packet of version 6
    /// ```
    pub fn read_checked<T: BitStore, O: BitOrder>(
        reader: &mut BitReader<'_, T, O>,
    ) -> Result<Header, HeaderFault>
        ensures found { IfOk result (λ h. reader.old.rest ≡ header_bits h ++ reader.new.rest) }
        ensures plain { IfOk result IsPlain }
        ensures kept { OnErr result (reader.new ≡ reader.old) }
        ensures back { (h : HeaderRecord) → (more : List Bool) → IsPlain h → reader.old.rest ≡ header_bits h ++ more
            → (result ≡ Ok h) × (reader.new.rest ≡ more) }
        ensures ended { (result ≡ Err faults.Ended) ↔ (length reader.old.rest < 160) }
        ensures version { result ≡ Err faults.Version → (h : HeaderRecord) × (more : List Bool)
            × (reader.old.rest ≡ header_bits h ++ more) × HasFields h × (h.version ≢ 4) }
        ensures options { result ≡ Err faults.Options → (h : HeaderRecord) × (more : List Bool)
            × (reader.old.rest ≡ header_bits h ++ more) × HasFields h × (h.version ≡ 4) × (h.header_words ≢ 5) }
        ensures reserved { result ≡ Err faults.ReservedFlag → (h : HeaderRecord) × (more : List Bool)
            × (reader.old.rest ≡ header_bits h ++ more) × HasFields h × (h.version ≡ 4) × (h.header_words ≡ 5)
            × (4 ≤ h.flags) }
    {
        let before = reader.copied();
        match read_fields(reader) {
            None => Err(HeaderFault::Ended),
            Some(h) => match fault_of(&h) {
                None => Ok(h),
                Some(why) => {
                    *reader = before;
                    Err(why)
                }
            },
        }
    }
}

/// Its 160 bits; a header that isn't that of a packet without options can't be written, and is not read.
impl Fields for Header {
    ghost use Rattle.bit_streams.specs.Header.{IsPlain, header_bits};

    ghost fits = { IsPlain };

    ghost bits_of = { header_bits };

    fn write<T: BitStore, O: BitOrder>(
        &self,
        writer: &mut BitWriter<T, O>,
    ) -> Result<(), GrowError> {
        match parts_of(self).write(writer) {
            Ok(()) => Ok(()),
            Err(why) => Err(why),
        }
    }

    fn read<T: BitStore, O: BitOrder>(reader: &mut BitReader<'_, T, O>) -> Option<Self> {
        match Self::read_checked(reader) {
            Ok(h) => Some(h),
            Err(_) => None,
        }
    }
}
