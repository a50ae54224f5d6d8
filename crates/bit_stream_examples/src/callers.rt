//! Callers that need no proof of their own: each has one fact that a user of streams relies on.
ghost use Rattle.std.specs.Prelude.{◌≡◌, ◌≢◌, ℕ, All, Bool, List, ◌+◌, ◌*◌, ◌/◌, ◌<◌, ◌≤◌, ◌^◌, ◌++◌, [], ◌∷◌, IfOk, IfSome, IsOk, None, Ok, Some, OnOk, false, is_some, length, true};
ghost use Rattle.bit_addressing.specs.Row.{binary};
ghost use Rattle.bit_addressing.specs.declared.length.TheConstants.{MAX_BITS};
ghost use Rattle.bit_streams.specs.Codes.{gamma};
ghost use Rattle.bit_streams.specs.Refusals.{DeltaEnds, DeltaPasses, GolombEnds, GolombPasses, LebEnds, LebPadded, LebPasses};
ghost use Rattle.bit_streams.specs.declared.codes.CodeError.TheVariants as errors;

use bit_addressing::{BitOrder, BitStore, GrowError, Msb0};
use bit_containers::BitVec;
use bit_streams::{
    BitReader, BitSink, BitSource, BitWriter, CodeError, Fields, Number, SourceError,
};
use std::alloc::Global;
use std::io;
use std::io::{Read, Write};

/// A number that is written is read.
pub fn number_back(alloc: Global, x: u64) -> Result<Option<u64>, GrowError>
    requires { x < 2 ^ 13 }
    ensures { IfOk result (λ read. read ≡ Some x) }
{
    let mut writer = BitWriter::<u8, Msb0>::new(alloc);
    writer.write(13, x)?;
    let bits = writer.finish()?;
    let mut reader = BitReader::new(bits.as_bitslice());
    Ok(reader.read(13))
}

/// A code that there is room for is written.
pub fn code_in_room<T: BitStore, O: BitOrder>(writer: &mut BitWriter<T, O>) -> bool
    requires room { length writer.old.list + 4 ≤ writer.old.capacity }
    requires few { length writer.old.list + 4 ≤ MAX_BITS }
    ensures { result ≡ true }
{
    match writer.write_unary(3) {
        Ok(()) => true,
        Err(GrowError::TooLong) => false,
        Err(GrowError::OutOfMemory) => false,
    }
}

/// A kind of three bits and a port of thirteen: written into two bytes, and read from them.
pub fn there_and_back(
    alloc: Global,
    kind: u64,
    port: u64,
) -> Result<(Option<u64>, Option<u64>), GrowError>
    requires kind { kind < 2 ^ 3 }
    requires port { port < 2 ^ 13 }
    ensures { IfOk result (λ read. (read.0 ≡ Some kind) × (read.1 ≡ Some port)) }
{
    let mut writer = BitWriter::<u8, Msb0>::new(alloc);
    writer.write(3, kind)?;
    writer.write(13, port)?;
    let bits = writer.finish()?;
    let mut reader = BitReader::new(bits.as_bitslice());
    let kind = reader.read(3);
    let port = reader.read(13);
    Ok((kind, port))
}

/// The fields of a record.
#[derive(Clone, Copy, Drop, PartialEq, Eq)]
pub struct Sighting {
    /// 3 bits.
    pub kind: u64,
    /// 13 bits.
    pub port: u64,
    /// 1 bit.
    pub last: bool,
}

/// Writes a record field by field.
pub fn write_sighting<T: BitStore, O: BitOrder>(
    writer: &mut BitWriter<T, O>,
    it: Sighting,
) -> Result<(), GrowError>
    ensures { OnOk result (writer.new.list
        ≡ ((writer.old.list ++ binary 3 it.kind) ++ binary 13 it.port) ++ it.last ∷ []) }
{
    writer.write(3, it.kind)?;
    writer.write(13, it.port)?;
    writer.write_bit(it.last)
}

/// Reads a record field by field.
pub fn read_sighting<T: BitStore, O: BitOrder>(reader: &mut BitReader<'_, T, O>) -> Option<Sighting>
    ensures { (kind port : ℕ) → (last : Bool) → (more : List Bool)
        → reader.old.rest ≡ ((binary 3 kind ++ binary 13 port) ++ last ∷ []) ++ more → kind < 2 ^ 3 → port < 2 ^ 13
        → (result ≡ Some (record { kind = kind; port = port; last = last })) × (reader.new.rest ≡ more) }
{
    let kind = reader.read(3)?;
    let port = reader.read(13)?;
    let last = reader.read_bit()?;
    Some(Sighting { kind, port, last })
}

/// A record that is written is read.
pub fn sighting_back(alloc: Global, it: Sighting) -> Result<Option<Sighting>, GrowError>
    requires kind { it.kind < 2 ^ 3 }
    requires port { it.port < 2 ^ 13 }
    ensures { IfOk result (λ read. read ≡ Some it) }
{
    let mut writer = BitWriter::<u8, Msb0>::new(alloc);
    write_sighting(&mut writer, it)?;
    writer.align(8, false)?;
    let bits = writer.finish()?;
    let mut reader = BitReader::new(bits.as_bitslice());
    Ok(read_sighting(&mut reader))
}

/// A value of any fields is read back.
pub fn value_back<F: Fields + Drop>(alloc: Global, x: &F) -> Result<Option<F>, GrowError>
    requires { F.fits x.now }
    ensures { IfOk result (λ read. read ≡ Some x.now) }
{
    let mut writer = BitWriter::<u8, Msb0>::new(alloc);
    x.write(&mut writer)?;
    let bits = writer.finish()?;
    let mut reader = BitReader::new(bits.as_bitslice());
    Ok(F::read(&mut reader))
}

/// Two values, one after the other, are read back.
pub fn two_back<F: Fields + Drop>(
    alloc: Global,
    x: &F,
    y: &F,
) -> Result<(Option<F>, Option<F>), GrowError>
    requires x { F.fits x.now }
    requires y { F.fits y.now }
    ensures { IfOk result (λ read. (read.0 ≡ Some x.now) × (read.1 ≡ Some y.now)) }
{
    let mut writer = BitWriter::<u8, Msb0>::new(alloc);
    x.write(&mut writer)?;
    y.write(&mut writer)?;
    let bits = writer.finish()?;
    let mut reader = BitReader::new(bits.as_bitslice());
    let first = F::read(&mut reader);
    let second = F::read(&mut reader);
    Ok((first, second))
}

/// A tuple of fields stands for a record.
pub fn tuple_back(
    alloc: Global,
    kind: u64,
    last: bool,
) -> Result<Option<(Number<3>, bool)>, GrowError>
    requires { kind < 2 ^ 3 }
    ensures { IfOk result (λ read. IfSome read (λ pair. (pair.0.value ≡ kind) × (pair.1 ≡ last))) }
{
    let pair = (Number::<3> { value: kind }, last);
    value_back(alloc, &pair)
}

/// An array of fields is read back.
pub fn array_back(
    alloc: Global,
    numbers: [Number<5>; 3],
) -> Result<Option<[Number<5>; 3]>, GrowError>
    requires { All (λ x. x.value < 2 ^ 5) numbers }
    ensures { IfOk result (λ read. read ≡ Some numbers) }
{
    value_back(alloc, &numbers)
}

/// Five bits, zeros up to a whole byte, and a number of two bytes.
pub fn padded(alloc: Global, kind: u64, size: u64) -> Result<BitVec<u8, Msb0>, GrowError>
    ensures { IfOk result (λ v. v.list ≡ (binary 5 kind ++ false ∷ false ∷ false ∷ []) ++ binary 16 size) }
{
    let mut writer = BitWriter::<u8, Msb0>::new(alloc);
    writer.write(5, kind)?;
    writer.align(8, false)?;
    writer.write(16, size)?;
    writer.finish()
}

/// A code that is written is read.
pub fn gamma_back(alloc: Global, x: u64) -> Result<Result<u64, CodeError>, GrowError>
    requires { 0 < x }
    ensures { IfOk result (λ read. read ≡ Ok x) }
{
    let mut writer = BitWriter::<u64, Msb0>::new(alloc);
    writer.write_gamma(x)?;
    writer.write_bit(true)?;
    let bits = writer.finish()?;
    let mut reader = BitReader::new(bits.as_bitslice());
    Ok(reader.read_gamma())
}

/// How many codes come one after another before the bits end, or begin no code.
pub fn count_codes<T: BitStore, O: BitOrder>(reader: &mut BitReader<'_, T, O>) -> u64 {
    for count in 0..u64::MAX {
        match reader.read_gamma() {
            Err(_) => return count,
            Ok(_) => {}
        }
    }
    u64::MAX
}

/// A look does not move: what is seen is what is read next.
pub fn seen_and_read<T: BitStore, O: BitOrder>(reader: &mut BitReader<'_, T, O>) -> bool
    ensures { result ≡ true }
{
    let seen = reader.peek(5);
    let read = reader.read(5);
    seen == read
}

/// A read that found too few bits takes none of them.
pub fn shorter<T: BitStore, O: BitOrder>(reader: &mut BitReader<'_, T, O>) -> Option<u64>
    requires { 16 ≤ length reader.old.rest }
    ensures below { IfSome result (λ x. x < 2 ^ 32) }
    ensures some { is_some result ≡ true }
{
    match reader.read(32) {
        Some(x) => Some(x),
        None => reader.read(16),
    }
}

/// The position after two reads.
pub fn passed<T: BitStore, O: BitOrder>(reader: &mut BitReader<'_, T, O>) -> Option<u64>
    ensures { IfSome result (λ _. reader.new.position ≡ reader.old.position + 12) }
{
    let a = reader.read(5)?;
    let b = reader.read(7)?;
    Some(a ^ b)
}

/// A number in LEB128 is written and read, with a bit after it.
pub fn leb128_back(alloc: Global, x: u64) -> Result<Result<u64, CodeError>, GrowError>
    ensures { IfOk result (λ read. read ≡ Ok x) }
{
    let mut writer = BitWriter::<u8, Msb0>::new(alloc);
    writer.write_leb128(x)?;
    writer.write_bit(true)?;
    let bits = writer.finish()?;
    let mut reader = BitReader::new(bits.as_bitslice());
    Ok(reader.read_leb128())
}

/// Why no number in LEB128 is read, and then none of its bits is passed.
pub fn leb128_fault<T: BitStore, O: BitOrder>(reader: &mut BitReader<'_, T, O>) -> Option<CodeError>
    ensures ended { result ≡ Some errors.Ended → LebEnds 9 reader.old.rest }
    ensures padded { result ≡ Some errors.NotShortest → LebPadded 9 reader.old.rest }
    ensures too_long { result ≡ Some errors.TooLong → LebPasses 9 reader.old.rest }
    ensures kept { result ≢ None → reader.new ≡ reader.old }
{
    match reader.read_leb128() {
        Ok(_x) => None,
        Err(why) => Some(why),
    }
}

/// A delta code that is not read ended, or is too long.
pub fn delta_or_end<T: BitStore, O: BitOrder>(reader: &mut BitReader<'_, T, O>) -> Option<bool>
    ensures ended { result ≡ Some true → DeltaEnds reader.old.rest }
    ensures too_long { result ≡ Some false → DeltaPasses reader.old.rest }
{
    match reader.read_delta() {
        Ok(_x) => None,
        Err(CodeError::Ended) => Some(true),
        Err(CodeError::TooLong) => Some(false),
        Err(CodeError::NotShortest) => None,
    }
}

/// A Golomb code that is not read ended, or is too long.
pub fn golomb_or_end<T: BitStore, O: BitOrder>(
    reader: &mut BitReader<'_, T, O>,
    m: u64,
) -> Option<bool>
    requires { 0 < m }
    ensures ended { result ≡ Some true → GolombEnds m reader.old.rest }
    ensures too_long { result ≡ Some false → GolombPasses m reader.old.rest }
{
    match reader.read_golomb(m) {
        Ok(_x) => None,
        Err(CodeError::Ended) => Some(true),
        Err(CodeError::TooLong) => Some(false),
        Err(CodeError::NotShortest) => None,
    }
}

/// Seven bits are held back, so the writer isn't called and nothing fails.
pub fn seven_bits<W: Write + Drop, O: BitOrder>(inner: W) -> io::Result<BitSink<W, O>>
    ensures { IsOk result }
{
    let mut sink = BitSink::new(inner);
    sink.write(3, 5)?;
    sink.write(4, 9)?;
    Ok(sink)
}

/// The last five bits of a byte are read without the reader, so this cannot fail.
pub fn rest_of_a_byte<R: Read + Drop, O: BitOrder>(inner: R) -> Result<(u64, bool), SourceError>
    ensures { IfOk result (λ read. read.1 ≡ true) }
{
    let mut source = BitSource::<R, O>::new(inner);
    let kind = source.read(3)?;
    Ok((kind, source.read(5).is_ok()))
}
