//! Codes written and read, and cut off.
use super::{check, ok};
use bit_addressing::{Lsb0, Msb0};
use bit_slice::{BitList, BitSlice};
use bit_streams::{BitReader, BitWriter, CodeError, unzigzag, zigzag};
use std::process::Abort;

// Three codes of numbers made of `x`, read back.
fn unary_gamma_and_delta(rt: &(impl Abort + AllocGlobal), x: u64) {
    let mut writer = BitWriter::<u8, Msb0>::new(rt.alloc());
    ok(rt, writer.write_unary((x % 200) as usize));
    ok(rt, writer.write_gamma(x / 2 + 1));
    ok(rt, writer.write_delta(x / 2 + 1));
    let bits = ok(rt, writer.finish());
    let mut reader = BitReader::new(bits.as_bitslice());
    check(rt, reader.read_unary() == Some((x % 200) as usize));
    check(rt, reader.read_gamma() == Ok(x / 2 + 1));
    check(rt, reader.read_delta() == Ok(x / 2 + 1));
    check(rt, reader.remaining() == 0);
}

// The other three.
fn rice_golomb_and_leb128(rt: &(impl Abort + AllocGlobal), x: u64) {
    let mut writer = BitWriter::<u8, Msb0>::new(rt.alloc());
    ok(rt, writer.write_rice(5, x % 10_000));
    ok(rt, writer.write_golomb(11, x % 10_000));
    ok(rt, writer.write_leb128(x));
    let bits = ok(rt, writer.finish());
    let mut reader = BitReader::new(bits.as_bitslice());
    check(rt, reader.read_rice(5) == Ok(x % 10_000));
    check(rt, reader.read_golomb(11) == Ok(x % 10_000));
    check(rt, reader.read_leb128() == Ok(x));
    check(rt, reader.remaining() == 0);
}

#[test]
fn codes_there_and_back(rt: HostRuntime) {
    let mut x = 1u64;
    for _ in 0..64 {
        unary_gamma_and_delta(&rt, x);
        rice_golomb_and_leb128(&rt, x);
        x = x.wrapping_mul(3);
    }
}

#[test]
fn codes_bit_by_bit(rt: HostRuntime) {
    let mut writer = BitWriter::<u8, Msb0>::new(rt.alloc());
    ok(&rt, writer.write_unary(3));
    ok(&rt, writer.write_gamma(6));
    ok(&rt, writer.write_delta(6));
    let bits = ok(&rt, writer.finish());
    let mut reader = BitReader::new(bits.as_bitslice());
    check(&rt, reader.read(4) == Some(0b0001));
    check(&rt, reader.read(5) == Some(0b00110));
    check(&rt, reader.read(5) == Some(0b01110));
}

#[test]
fn quotients_bit_by_bit(rt: HostRuntime) {
    let mut writer = BitWriter::<u8, Msb0>::new(rt.alloc());
    ok(&rt, writer.write_rice(2, 6));
    ok(&rt, writer.write_golomb(3, 5));
    ok(&rt, writer.write_leb128(300));
    let bits = ok(&rt, writer.finish());
    let mut reader = BitReader::new(bits.as_bitslice());
    check(&rt, reader.read(4) == Some(0b0110));
    check(&rt, reader.read(4) == Some(0b0111));
    check(&rt, reader.read(8) == Some(172));
    check(&rt, reader.read(8) == Some(2));
}

#[test]
fn codes_of_too_long_numbers(rt: HostRuntime) {
    let mut writer = BitWriter::<u64, Lsb0>::new(rt.alloc());
    ok(&rt, writer.write(64, 0));
    ok(&rt, writer.write(5, 1));
    let bits = ok(&rt, writer.finish());
    let mut reader = BitReader::new(bits.as_bitslice());
    check(&rt, reader.read_gamma() == Err(CodeError::TooLong));
    check(&rt, reader.read_rice(60) == Err(CodeError::TooLong));
    check(&rt, reader.read_delta() == Err(CodeError::TooLong));
    check(&rt, reader.position() == 0);
    check(&rt, reader.read_unary() == Some(68));
    check(&rt, reader.read_unary().is_none());
}

// The code of a number is `many` bytes of `byte` and a last one, by the definition of LEB128.
fn leb128_is(rt: &(impl Abort + AllocGlobal), x: u64, many: usize, byte: u8, last: u8) {
    let mut writer = BitWriter::<u8, Msb0>::new(rt.alloc());
    ok(rt, writer.write_leb128(x));
    let bits = ok(rt, writer.finish());
    check(rt, bits.len() == many.saturating_mul(8).saturating_add(8));
    let mut reader = BitReader::new(bits.as_bitslice());
    for _ in 0..many {
        check(rt, reader.read(8) == Some(u64::from(byte)));
    }
    check(rt, reader.read(8) == Some(u64::from(last)));
    check(
        rt,
        BitReader::new(bits.as_bitslice()).read_leb128() == Ok(x),
    );
}

#[test]
fn leb128_at_each_length(rt: HostRuntime) {
    for many in 1..10 {
        let first = 1u64 << (7 * many);
        leb128_is(&rt, first, many, 0x80, 1);
        leb128_is(&rt, first - 1, many - 1, 0xff, 0x7f);
    }
    leb128_is(&rt, u64::MAX, 9, 0xff, 1);
}

#[test]
fn leb128_with_a_byte_too_many(rt: HostRuntime) {
    let mut reader = BitReader::new(BitSlice::<u8, Msb0>::from_slice(&[0x80, 0x80, 0x00]));
    check(&rt, reader.read_leb128() == Err(CodeError::NotShortest));
}

#[test]
fn leb128_of_too_long_a_number(rt: HostRuntime) {
    let bytes = [0xff, 0xff, 0xff, 0xff, 0xff, 0xff, 0xff, 0xff, 0xff, 2];
    let mut reader = BitReader::new(BitSlice::<u8, Msb0>::from_slice(&bytes));
    check(&rt, reader.read_leb128() == Err(CodeError::TooLong));
    check(&rt, reader.position() == 0);
}

#[test]
fn leb128_that_ends_too_soon(rt: HostRuntime) {
    let bytes = BitSlice::<u8, Msb0>::from_slice(&[0x80, 0x80, 0x00]);
    let mut reader = BitReader::new(bytes.get_range(..23));
    check(&rt, reader.read_leb128() == Err(CodeError::Ended));
}

#[test]
fn cut_at_every_bit(rt: HostRuntime) {
    let mut writer = BitWriter::<u8, Msb0>::new(rt.alloc());
    ok(&rt, writer.write_gamma(1000));
    ok(&rt, writer.write_delta(77));
    ok(&rt, writer.write_leb128(1 << 40));
    ok(&rt, writer.write_golomb(7, 23));
    let bits = ok(&rt, writer.finish());
    let all = bits.len();
    for cut in 0..all {
        let mut reader = BitReader::new(bits.as_bitslice().get_range(..cut));
        let Ok(gamma) = reader.read_gamma() else {
            check(&rt, reader.position() == 0);
            continue;
        };
        check(&rt, gamma == 1000);
        let after = reader.position();
        let Ok(delta) = reader.read_delta() else {
            check(&rt, reader.position() == after);
            continue;
        };
        check(&rt, delta == 77);
        let after = reader.position();
        let Ok(bytes) = reader.read_leb128() else {
            check(&rt, reader.position() == after);
            continue;
        };
        check(&rt, bytes == 1 << 40);
        check(&rt, reader.read_golomb(7) == Err(CodeError::Ended));
    }
}

// A gamma code of 65, which is too many digits for a number, and then of 64, of which 63 would follow.
#[test]
fn delta_codes_with_faults(rt: HostRuntime) {
    let mut writer = BitWriter::<u8, Msb0>::new(rt.alloc());
    ok(&rt, writer.write_gamma(65));
    ok(&rt, writer.write_gamma(64));
    ok(&rt, writer.write(62, 0));
    let bits = ok(&rt, writer.finish());
    let mut reader = BitReader::new(bits.as_bitslice());
    check(&rt, reader.read_delta() == Err(CodeError::TooLong));
    check(&rt, reader.read_gamma() == Ok(65));
    check(&rt, reader.read_delta() == Err(CodeError::Ended));
    check(&rt, reader.position() == 13);
}

// The quotient 1 by 2 to the power 63 and the rest 2 to the power 62, and the quotient 2.
#[test]
fn golomb_codes_by_large_divisors(rt: HostRuntime) {
    let mut writer = BitWriter::<u64, Lsb0>::new(rt.alloc());
    ok(&rt, writer.write_golomb(1 << 63, (1 << 63) + (1 << 62)));
    ok(&rt, writer.write_unary(2));
    ok(&rt, writer.write(62, 0));
    let bits = ok(&rt, writer.finish());
    let mut reader = BitReader::new(bits.as_bitslice());
    check(
        &rt,
        reader.read_golomb(1 << 63) == Ok((1 << 63) + (1 << 62)),
    );
    check(&rt, reader.read_golomb(1 << 63) == Err(CodeError::Ended));
    check(&rt, reader.read_golomb(1 << 62) == Ok(1 << 63));
    check(&rt, reader.remaining() == 0);
}

#[test]
fn signed_numbers_as_unsigned(rt: HostRuntime) {
    check(&rt, zigzag(0) == 0);
    check(&rt, zigzag(-1) == 1);
    check(&rt, zigzag(1) == 2);
    check(&rt, zigzag(i64::MIN) == u64::MAX);
    check(&rt, unzigzag(u64::MAX) == i64::MIN);
    check(&rt, unzigzag(zigzag(-12345)) == -12345);
}
