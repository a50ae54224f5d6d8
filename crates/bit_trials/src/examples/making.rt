//! Boxes made of bytes, of indices and of text.
use crate::common::{check, ok};
use bit_containers::boxed::BitBox;
use bit_containers::{BitSlice, FromBits, Lsb0, Msb0, ParseBitsError, ToBytes};

#[test]
fn texts_of_errors(rt: HostRuntime) {
    let text = ok(&rt, format!(in rt.alloc(); "{}", ParseBitsError::Wrong(2)));
    check(&rt, text.as_str() == "no text of bits");
}

// A box is made as a vector is, and its bytes are those of its list.
#[test]
fn boxes_made_of_bytes(rt: HostRuntime) {
    let bytes = [0xa0, 0x01];
    let b = ok(
        &rt,
        BitBox::<u16, Lsb0>::from_bytes::<Msb0>(rt.alloc(), &bytes),
    );
    check(&rt, b.as_raw_slice() == [0x8005].as_slice());
    let back = ok(&rt, b.to_bytes::<Msb0>(rt.alloc()));
    check(&rt, back.as_slice() == bytes.as_slice());
}

#[test]
fn bytes_of_a_part(rt: HostRuntime) {
    let words = [0x8005_u16];
    let part = BitSlice::<u16, Lsb0>::from_slice(&words).get_range(0..3);
    let bytes = ok(&rt, part.to_bytes::<Lsb0>(rt.alloc()));
    check(&rt, bytes.as_slice() == [0x05].as_slice());
}

#[test]
fn boxes_made_of_indices(rt: HostRuntime) {
    let b = ok(
        &rt,
        BitBox::<u8, Msb0>::from_indices(rt.alloc(), 5, &[3, 0]),
    );
    check(&rt, b.as_raw_slice() == [0x90].as_slice());
}

#[test]
fn boxes_read_from_text(rt: HostRuntime) {
    let b = ok(&rt, BitBox::<u8, Msb0>::from_text(rt.alloc(), "[0, 1, 1]"));
    check(&rt, b.as_raw_slice() == [0x60].as_slice());
}
