//! Callers that need no proof of their own: formats as bytes, there and back.
ghost use Rattle.std.specs.Prelude.{◌≡◌, ◌*◌, ◌<◌, ◌≤◌, ◌++◌, ◌↔◌, Bool, Err, IfOk, IfSome, IsSome, IsTrue, List, None, Ok, length};
ghost use Rattle.bit_addressing.specs.Typed.{row, words_for_list};
ghost use Rattle.bit_addressing.specs.declared.length.TheConstants.{MAX_BITS};
ghost use Rattle.bit_slice.specs.BitSlice.{list_of};
ghost use Rattle.bit_streams.specs.Formats.{listed_bits};
ghost use Rattle.bit_streams.specs.Header.{IsPlain, header_bits};
ghost use Rattle.bit_streams.specs.declared.formats.header.HeaderFault.TheVariants as faults;

use bit_addressing::{BitOrder, BitStore, GrowError, Msb0};
use bit_containers::{BitList, BitSlice, BitVec};
use bit_streams::{BitReader, BitWriter, Fields, Header, HeaderFault, ListFault};
use std::alloc::Global;

/// The header that a packet's first 20 bytes have.
#[tactic(auto, using(bit_addressing::proofs::Typed::length_row))]
pub fn header_of(packet: &[u8]) -> Result<Header, HeaderFault>
    requires { 8 * length packet.now ≤ MAX_BITS }
    ensures header { IfOk result (λ h. (more : List Bool)
        × (row ⟦<u8 as BitStore>⟧ ⟦<Msb0 as BitOrder>⟧ packet.now ≡ header_bits h ++ more)) }
    ensures checked { IfOk result IsPlain }
    ensures too_short { (result ≡ Err faults.Ended) ↔ (length packet.now < 20) }
{
    let bits = BitSlice::<u8, Msb0>::from_slice(packet);
    Header::read_checked(&mut BitReader::new(bits))
}

/// A header as its 20 bytes.
pub fn bytes_of(alloc: Global, header: &Header) -> Result<Vec<u8>, GrowError>
    requires { IsPlain header.now }
    ensures { IfOk result (λ bytes. bytes.items
        ≡ words_for_list ⟦<u8 as BitStore>⟧ ⟦<Msb0 as BitOrder>⟧ (header_bits header.now)) }
{
    let mut writer = BitWriter::<u8, Msb0>::new(alloc);
    header.write(&mut writer)?;
    Ok(writer.finish()?.into_vec())
}

/// A header that was written is read back.
pub fn header_back(alloc: Global, header: Header) -> Result<Result<Header, HeaderFault>, GrowError>
    requires { IsPlain header }
    ensures { IfOk result (λ read. read ≡ Ok header) }
{
    let mut writer = BitWriter::<u8, Msb0>::new(alloc);
    header.write(&mut writer)?;
    writer.write_bit(true)?;
    let bits = writer.finish()?;
    Ok(Header::read_checked(&mut BitReader::new(bits.as_bitslice())))
}

/// A list with its length, in whole bytes.
pub fn listed<T: BitStore, O: BitOrder>(
    alloc: Global,
    bits: &BitVec<T, O>,
) -> Result<BitVec<u8, Msb0>, GrowError>
    ensures { IfOk result (λ made. made.list ≡ listed_bits bits.now.list) }
{
    let mut writer = BitWriter::<u8, Msb0>::new(alloc);
    writer.write_list(bits.as_bitslice())?;
    writer.finish()
}

/// The list whose bytes these are, without a copy. None exactly where they are those of no list.
pub fn list_in(bytes: &[u8]) -> Option<BitSlice<'_, u8, Msb0>>
    requires { 8 * length bytes.now ≤ MAX_BITS }
    ensures found { IfSome result (λ bits.
        row ⟦<u8 as BitStore>⟧ ⟦<Msb0 as BitOrder>⟧ bytes.now ≡ listed_bits (list_of bits)) }
    ensures none { result ≡ None → (bits : List Bool) → length bits ≤ MAX_BITS
        → row ⟦<u8 as BitStore>⟧ ⟦<Msb0 as BitOrder>⟧ bytes.now ≡ listed_bits bits → ⊥ }
{
    let mut reader = BitReader::new(BitSlice::<u8, Msb0>::from_slice(bytes));
    match reader.read_list() {
        Err(_) => None,
        Ok(bits) => {
            if reader.remaining() > 0 {
                return None;
            }
            Some(bits)
        }
    }
}

/// A list that was written is read back.
pub fn list_back<T: BitStore, O: BitOrder>(
    alloc: Global,
    bits: &BitVec<T, O>,
) -> Result<Option<BitVec<u8, Msb0>>, GrowError>
    ensures { IfOk result (λ read. IsSome read × IfSome read (λ back. back.list ≡ bits.now.list)) }
{
    let written = listed(alloc, bits)?;
    let mut reader = BitReader::new(written.as_bitslice());
    match reader.read_list() {
        Err(_) => Ok(None),
        Ok(read) => Ok(Some(BitVec::from_bitslice(alloc, read)?)),
    }
}

/// Lists are equal exactly where what is written of them is: so it can stand for a list as a key.
#[tactic(auto, using(bit_streams::proofs::Parted::listed_once))]
pub fn have_equal_bytes<T: BitStore, O: BitOrder, U: BitStore, P: BitOrder>(
    alloc: Global,
    bits: &BitVec<T, O>,
    others: &BitVec<U, P>,
) -> Result<bool, GrowError>
    ensures { IfOk result (λ same. IsTrue same ↔ (bits.now.list ≡ others.now.list)) }
{
    let written = listed(alloc, bits)?;
    let other = listed(alloc, others)?;
    Ok(written.eq_bits(other.as_bitslice()))
}
