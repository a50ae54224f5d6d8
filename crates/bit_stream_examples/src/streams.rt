//! Bits written and read, at every width and index, and cut off.
ghost use Rattle.std.specs.Prelude.{◌<◌};

use super::{check, ok};
use bit_addressing::{BitOrder, BitStore, GrowError, Lsb0, Msb0};
use bit_containers::{BitList, BitSlice, BitVec};
use bit_streams::{BitReader, BitWriter};
use std::process::Abort;

// The next of a run of numbers without a pattern.
fn next_random(seed: u64) -> u64 {
    seed.wrapping_mul(6364136223846793005)
        .wrapping_add(1442695040888963407)
}

// The `n` lowest digits of a number.
fn low(x: u64, n: u8) -> u64 {
    if n == 0 || n > 64 {
        0
    } else {
        (x << (64 - n)) >> (64 - n)
    }
}

// Numbers by both directions, of 3, 13, 1, 7 and 7 digits, the last two signed, filled up to 32 bits.
fn numbers(rt: &(impl Abort + AllocGlobal)) -> BitVec<u8, Msb0> {
    let mut writer = BitWriter::<u8, Msb0>::new(rt.alloc());
    ok(rt, writer.write(3, 5));
    ok(rt, writer.write_le(13, 4097));
    ok(rt, writer.write_bit(true));
    ok(rt, writer.write_signed(7, -3));
    ok(rt, writer.write_signed_le(7, -64));
    ok(rt, writer.align(8, false));
    check(rt, writer.len() == 32);
    ok(rt, writer.finish())
}

#[test]
fn numbers_there_and_back(rt: HostRuntime) {
    let bits = numbers(&rt);
    let mut reader = BitReader::new(bits.as_bitslice());
    check(&rt, reader.peek(3) == Some(5));
    check(&rt, reader.read(3) == Some(5));
    check(&rt, reader.peek_le(13) == Some(4097));
    check(&rt, reader.read_le(13) == Some(4097));
    check(&rt, reader.read_bit() == Some(true));
    check(&rt, reader.position() == 17);
}

#[test]
fn signed_numbers_there_and_back(rt: HostRuntime) {
    let bits = numbers(&rt);
    let mut reader = BitReader::new(bits.as_bitslice());
    check(&rt, reader.skip(17) == Some(()));
    check(&rt, reader.read_signed(7) == Some(-3));
    check(&rt, reader.read_signed_le(7) == Some(-64));
    check(&rt, reader.align(8) == Some(()));
    check(&rt, reader.remaining() == 0);
    check(&rt, reader.read_bit().is_none());
}

#[test]
fn the_first_bit_is_the_highest_digit(rt: HostRuntime) {
    let mut writer = BitWriter::<u8, Msb0>::with_capacity(rt.alloc(), 16);
    match &mut writer {
        Ok(writer) => {
            ok(&rt, writer.write(3, 6));
            ok(&rt, writer.write_le(3, 6));
            ok(&rt, writer.align(8, true));
            ok(&rt, writer.write(8, 0x5a));
        }
        Err(_) => check(&rt, false),
    }
    let bits = ok(&rt, ok(&rt, writer).finish());
    let bytes = bits.into_vec();
    check(&rt, bytes.as_slice() == [0b1100_1111, 0x5a].as_slice());
}

#[test]
fn bits_of_a_view_are_copied(rt: HostRuntime) {
    let words = [0x1234_u16, 0xabcd];
    let view = BitSlice::<u16, Lsb0>::from_slice(&words);
    let mut writer = BitWriter::<u64, Msb0>::new(rt.alloc());
    ok(&rt, writer.write_bits(view));
    let copied = ok(&rt, writer.finish());
    check(&rt, copied.eq_bits(view));
}

#[test]
fn parts_are_views(rt: HostRuntime) {
    let words = [0x1234_5678_9abc_def0_u64, 0x55aa_aa55_5500_0000];
    let bits = BitSlice::<u64, Msb0>::from_slice(&words).get_range(..104);
    let mut reader = BitReader::new(bits);
    check(&rt, reader.skip(12) == Some(()));
    match reader.read_part(20) {
        Some(part) => check(&rt, part.load_be() == 0x45678),
        None => check(&rt, false),
    }
    check(&rt, reader.rest().len() == 72);
    check(&rt, reader.read_part(73).is_none());
    check(&rt, reader.remaining() == 72);
}

// 64 ones and 20 digits more.
fn begun(rt: &(impl Abort + AllocGlobal)) -> BitVec<u32, Msb0> {
    let mut writer = BitWriter::<u32, Msb0>::new(rt.alloc());
    ok(rt, writer.write(64, u64::MAX));
    ok(rt, writer.write(20, 0x12345));
    ok(rt, writer.finish())
}

#[test]
fn a_writer_goes_on_after_a_vector(rt: HostRuntime) {
    let mut writer = BitWriter::over(begun(&rt));
    check(&rt, writer.len() == 84);
    ok(&rt, writer.write(12, 0xabc));
    ok(&rt, writer.reserve(4));
    let all = ok(&rt, writer.finish());
    let mut reader = BitReader::new(all.as_bitslice());
    check(&rt, reader.read(64) == Some(u64::MAX));
    check(&rt, reader.read(32) == Some(0x12345abc));
}

#[test]
fn a_writer_cut_off(rt: HostRuntime) {
    let mut writer = BitWriter::over(begun(&rt));
    writer.truncate(70);
    writer.truncate(99);
    check(&rt, writer.len() == 70);
    let all = ok(&rt, writer.finish());
    let mut reader = BitReader::new(all.as_bitslice());
    check(&rt, reader.read(64) == Some(u64::MAX));
    check(&rt, reader.read(6) == Some(0x12345 >> 14));
}

#[test]
fn a_writer_aligned_where_it_stands(rt: HostRuntime) {
    let mut writer = BitWriter::<u8, Lsb0>::new(rt.alloc());
    ok(&rt, writer.align(8, true));
    check(&rt, writer.len() == 0);
    ok(&rt, writer.write(16, 0x1234));
    ok(&rt, writer.align(16, true));
    check(&rt, writer.len() == 16);
}

#[test]
fn a_reader_aligned_where_it_stands(rt: HostRuntime) {
    let bytes = [0x48_u8, 0x2c];
    let mut reader = BitReader::new(BitSlice::<u8, Lsb0>::from_slice(&bytes));
    check(&rt, reader.align(8) == Some(()));
    check(&rt, reader.position() == 0);
    check(&rt, reader.read(5) == Some(2));
    check(&rt, reader.align(24).is_none());
    check(&rt, reader.position() == 5);
    check(&rt, reader.align(16) == Some(()));
    check(&rt, reader.align(16) == Some(()));
    check(&rt, reader.position() == 16);
}

// The number that the bits from `at` on write, one by one: the first the highest digit, and the first the lowest.
fn looked_up<T: BitStore, O: BitOrder>(bits: &BitVec<T, O>, at: usize, n: u8) -> (u64, u64) {
    let (mut first_high, mut first_low) = (0u64, 0u64);
    for i in 0..n {
        let bit = bits.as_bitslice().get(at.wrapping_add(i as usize)) == Some(true);
        first_high = (first_high << 1) | if bit { 1 } else { 0 };
        if i < 64 && bit {
            first_low |= 1 << i;
        }
    }
    (first_high, first_low)
}

// Each width at each index of two bytes, read beside a loop over bits.
fn each_width_at_each_index<T: BitStore, O: BitOrder>(rt: &impl Abort, bits: &BitVec<T, O>) {
    for at in 0..17usize {
        for n in 0..65u8 {
            let mut reader = BitReader::new(bits.as_bitslice());
            check(rt, reader.skip(at) == Some(()));
            let (high, low) = looked_up(bits, at, n);
            check(rt, reader.peek(n) == Some(high));
            check(rt, reader.peek_le(n) == Some(low));
            let mut other = reader.copied();
            check(rt, reader.read(n) == Some(high));
            check(rt, other.read_le(n) == Some(low));
            check(rt, other.position() == reader.position());
        }
    }
}

#[test]
fn widths_of_bytes(rt: HostRuntime) {
    let mut writer = BitWriter::<u8, Msb0>::new(rt.alloc());
    let mut seed = 7;
    for _ in 0..3 {
        seed = next_random(seed);
        ok(&rt, writer.write(64, seed));
    }
    let bits = ok(&rt, writer.finish());
    each_width_at_each_index(&rt, &bits);
}

#[test]
fn widths_of_bytes_lowest_first(rt: HostRuntime) {
    let mut writer = BitWriter::<u8, Lsb0>::new(rt.alloc());
    let mut seed = 11;
    for _ in 0..3 {
        seed = next_random(seed);
        ok(&rt, writer.write(64, seed));
    }
    let bits = ok(&rt, writer.finish());
    each_width_at_each_index(&rt, &bits);
}

// Twenty numbers without a pattern, written by widths without one.
fn sequence<T: BitStore, O: BitOrder>(rt: &(impl Abort + AllocGlobal), start: u64) -> BitVec<T, O> {
    let mut writer = BitWriter::<T, O>::new(rt.alloc());
    let mut seed = start;
    for _ in 0..20 {
        seed = next_random(seed);
        let n = ((seed >> 33) % 65) as u8;
        if seed >> 63 == 0 {
            ok(rt, writer.write(n, seed));
        } else {
            ok(rt, writer.write_le(n, seed));
        }
    }
    ok(rt, writer.finish())
}

// The same numbers read back.
fn reads_sequence<T: BitStore, O: BitOrder>(rt: &impl Abort, bits: &BitVec<T, O>, start: u64) {
    let mut reader = BitReader::new(bits.as_bitslice());
    let mut seed = start;
    for _ in 0..20 {
        seed = next_random(seed);
        let n = ((seed >> 33) % 65) as u8;
        let read = if seed >> 63 == 0 {
            reader.read(n)
        } else {
            reader.read_le(n)
        };
        check(rt, read == Some(low(seed, n)));
    }
    check(rt, reader.remaining() == 0);
}

#[test]
fn sequences_read_back(rt: HostRuntime) {
    let mut seed = 1;
    for _ in 0..100_000 {
        seed = next_random(seed);
        let bits = sequence::<u8, Msb0>(&rt, seed);
        reads_sequence(&rt, &bits, seed);
    }
}

// In words of 64 bits by `Lsb0`, whose words are turned when the writer ends or the direction changes.
#[test]
fn sequences_read_back_from_wide_words(rt: HostRuntime) {
    let mut seed = 2;
    for _ in 0..10_000 {
        seed = next_random(seed);
        let bits = sequence::<u64, Lsb0>(&rt, seed);
        reads_sequence(&rt, &bits, seed);
    }
}

// A record of 3, 13, 1, 20 and 27 bits.
fn write_record(writer: &mut BitWriter<u8, Msb0>, x: u64) -> Result<(), GrowError> {
    writer.write(3, x)?;
    writer.write(13, x >> 3)?;
    writer.write_bit((x >> 16) & 1 == 1)?;
    writer.write(20, x >> 17)?;
    writer.write(27, x >> 37)
}

// The record as one number: what `write_record` was given.
fn read_record<T: BitStore, O: BitOrder>(reader: &mut BitReader<'_, T, O>) -> Option<u64> {
    let kind = reader.read(3)?;
    let port = reader.read(13)?;
    let last = if reader.read_bit()? { 1u64 } else { 0 };
    let size = reader.read(20)?;
    let sum = reader.read(27)?;
    Some(kind | (port << 3) | (last << 16) | (size << 17) | (sum << 37))
}

// The number of bits before the records.
fn bits_before(before: u8) -> usize
    ensures { result < 32 }
{
    (before & 31) as usize
}

// Forty records after some bits.
fn records(rt: &(impl Abort + AllocGlobal), before: u8) -> BitVec<u8, Msb0> {
    let mut writer = BitWriter::<u8, Msb0>::new(rt.alloc());
    ok(rt, writer.write(before & 31, u64::MAX));
    let mut seed = 3;
    for _ in 0..40 {
        seed = next_random(seed);
        ok(rt, write_record(&mut writer, seed));
    }
    ok(rt, writer.finish())
}

// That the forty records come next, and nothing after them.
fn reads_records<T: BitStore, O: BitOrder>(rt: &impl Abort, reader: &mut BitReader<'_, T, O>) {
    let mut seed = 3;
    for _ in 0..40 {
        seed = next_random(seed);
        check(rt, read_record(reader) == Some(seed));
    }
    check(rt, reader.remaining() == 0);
    check(rt, read_record(reader).is_none());
}

// Read from a part of the vector, that begins within a word.
#[test]
fn records_read_back_after_each_number_of_bits(rt: HostRuntime) {
    for before in 0..32u8 {
        let bits = records(&rt, before);
        let all = bits.as_bitslice();
        let part = all.get_range(bits_before(before).min(all.len())..);
        let mut reader = BitReader::new(part);
        reads_records(&rt, &mut reader);
    }
}

// Read from a copy in words of 64 bits.
#[test]
fn records_read_back_from_wide_words(rt: HostRuntime) {
    for before in 0..32u8 {
        let bits = records(&rt, before);
        let mut wide = BitWriter::<u64, Lsb0>::new(rt.alloc());
        ok(&rt, wide.write_bits(bits.as_bitslice()));
        let wide = ok(&rt, wide.finish());
        let mut reader = BitReader::new(wide.as_bitslice());
        check(&rt, reader.skip(bits_before(before)) == Some(()));
        reads_records(&rt, &mut reader);
    }
}

// Every request for memory may be refused: what was written stays, and can be written on.
#[test]
fn a_refusal_keeps_what_was_written(rt: HostRuntime) {
    let mut writer = BitWriter::<u8, Msb0>::new(rt.alloc());
    let mut seed = 5;
    for _ in 0..40 {
        seed = next_random(seed);
        let before = writer.len();
        let mut done = write_record(&mut writer, seed);
        if done.is_err() {
            check(&rt, done == Err(GrowError::OutOfMemory));
            writer.truncate(before);
            check(&rt, writer.len() == before);
            done = write_record(&mut writer, seed);
        }
        ok(&rt, done);
    }
    if writer.reserve(0).is_err() {
        ok(&rt, writer.reserve(0));
    }
    let bits = ok(&rt, writer.finish());
    let mut reader = BitReader::new(bits.as_bitslice());
    let mut seed = 5;
    for _ in 0..40 {
        seed = next_random(seed);
        check(&rt, read_record(&mut reader) == Some(seed));
    }
    check(&rt, reader.remaining() == 0);
}
