//! Formats as bytes: the header of a packet, and a list with its length. Callers in `formats/callers.rt`.
mod callers;

use super::{check, ok};
use bit_addressing::{Lsb0, Msb0};
use bit_containers::{BitList, BitListMut, BitVec};
use bit_streams::HeaderFault;
use callers::{bytes_of, header_of, list_in, listed};
use std::process::Abort;

// A header of a packet with a payload of 95 bytes, sent by UDP from 192.168.0.1 to 192.168.0.199.
const BYTES: [u8; 20] = [
    0x45, 0x00, 0x00, 0x73, 0x00, 0x00, 0x40, 0x00, 0x40, 0x11, 0xb8, 0x61, 0xc0, 0xa8, 0x00, 0x01,
    0xc0, 0xa8, 0x00, 0xc7,
];

#[test]
fn a_header_is_read(rt: HostRuntime) {
    let header = ok(&rt, header_of(BYTES.as_slice()));
    check(&rt, header.version == 4);
    check(&rt, header.header_words == 5);
    check(&rt, header.service == 0);
    check(&rt, header.congestion == 0);
    check(&rt, header.total_length == 115);
    check(&rt, header.identification == 0);
    check(&rt, header.flags == 2);
    check(&rt, header.fragment_offset == 0);
    check(&rt, header.time_to_live == 64);
    check(&rt, header.protocol == 17);
    check(&rt, header.checksum == 0xb861);
    check(&rt, header.source == 0xc0a80001);
    check(&rt, header.destination == 0xc0a800c7);
}

#[test]
fn reserved_values_of_a_header(rt: HostRuntime) {
    let mut bytes = BYTES;
    check(&rt, header_of(bytes.as_slice()).is_ok());
    check(&rt, header_of(&bytes[..19]) == Err(HeaderFault::Ended));
    bytes[6] = 0xc0;
    check(
        &rt,
        header_of(bytes.as_slice()) == Err(HeaderFault::ReservedFlag),
    );
    bytes[0] = 0x46;
    check(
        &rt,
        header_of(bytes.as_slice()) == Err(HeaderFault::Options),
    );
    bytes[0] = 0x66;
    check(
        &rt,
        header_of(bytes.as_slice()) == Err(HeaderFault::Version),
    );
}

// The bytes of the header that is written in these.
fn again(rt: &(impl Abort + AllocGlobal), packet: &[u8; 20]) -> Vec<u8> {
    match header_of(packet) {
        Ok(header) => ok(rt, bytes_of(rt.alloc(), &header)),
        Err(_) => panic!(rt; "no header"),
    }
}

#[test]
fn a_header_is_written(rt: HostRuntime) {
    let bytes = again(&rt, &BYTES);
    check(&rt, bytes.as_slice() == BYTES.as_slice());
}

#[test]
fn the_bits_of_a_header(rt: HostRuntime) {
    check(&rt, again(&rt, &BYTES).len() == 20);
}

#[test]
fn lists_as_bytes(rt: HostRuntime) {
    let mut bits = ok(&rt, BitVec::<u16, Lsb0>::repeat(rt.alloc(), true, 10));
    assert!(rt; bits.len() == 10);
    bits.set(1, false);
    let bytes = ok(&rt, listed(rt.alloc(), &bits)).into_vec();
    check(
        &rt,
        bytes.as_slice() == [0, 0, 0, 0, 0, 0, 0, 10, 0xbf, 0xc0].as_slice(),
    );
    assert!(rt; bytes.len() == 10);
    match list_in(bytes.as_slice()) {
        Some(read) => check(
            &rt,
            read.len() == 10 && read.starts_with(bits.as_bitslice()),
        ),
        None => check(&rt, false),
    }
}

#[test]
fn bytes_of_one_list(rt: HostRuntime) {
    let bits = ok(&rt, BitVec::<u16, Lsb0>::repeat(rt.alloc(), true, 10));
    let bytes = ok(&rt, listed(rt.alloc(), &bits)).into_vec();
    let again = ok(&rt, listed(rt.alloc(), &bits)).into_vec();
    check(&rt, bytes.as_slice() == again.as_slice());
    let none = BitVec::<u8, Msb0>::new(rt.alloc());
    let empty = ok(&rt, listed(rt.alloc(), &none)).into_vec();
    check(&rt, bytes.as_slice() != empty.as_slice());
    check(&rt, empty.as_slice() == [0; 8].as_slice());
}

#[test]
fn bytes_of_no_list(rt: HostRuntime) {
    let few = [0u8, 0, 0, 0, 0, 0, 10];
    let short = [0u8, 0, 0, 0, 0, 0, 0, 10, 0xbf];
    let long = [0u8, 0, 0, 0, 0, 0, 0, 10, 0xbf, 0xc0, 0];
    let stray = [0u8, 0, 0, 0, 0, 0, 0, 10, 0xbf, 0xc1];
    let most = [0xffu8; 9];
    check(&rt, list_in(few.as_slice()).is_none());
    check(&rt, list_in(short.as_slice()).is_none());
    check(&rt, list_in(long.as_slice()).is_none());
    check(&rt, list_in(stray.as_slice()).is_none());
    check(&rt, list_in(most.as_slice()).is_none());
}
