//! Callers that write parts of a container, or all of it, and know its list after.
ghost use Rattle.std.specs.Prelude.{[], false, true, ◌∷◌, ◌≡◌};
ghost use Rattle.bit_slice.specs.BitSlice.{len_of, list_of};

use bit_containers::array::BitArray;
use bit_containers::boxed::BitBox;
use bit_containers::{BitListMut, BitOrder, BitStore, BitVec, Lsb0};
use bit_slice::BitSlice;

/// The two bits in the middle are flipped.
#[tactic(auto, unfolding(bit_addressing::specs::Row::put))]
pub fn flipped_part<T: BitStore, O: BitOrder>(v: &mut BitVec<T, O>)
    requires bits { v.old.list ≡ true ∷ false ∷ true ∷ true ∷ [] }
    ensures { v.new.list ≡ true ∷ true ∷ false ∷ true ∷ [] }
{
    v.flip_range(1..3);
}

/// The two bits in the middle and those of a view.
#[tactic(auto, unfolding(bit_addressing::specs::Row::put))]
pub fn anded_part<T: BitStore, O: BitOrder, U: BitStore, P: BitOrder>(
    v: &mut BitVec<T, O>,
    other: BitSlice<'_, U, P>,
)
    requires bits { v.old.list ≡ true ∷ false ∷ true ∷ true ∷ [] }
    requires other { list_of other ≡ true ∷ false ∷ [] }
    requires len { len_of other ≡ 2 }
    ensures { v.new.list ≡ true ∷ false ∷ false ∷ true ∷ [] }
{
    v.and_range(1..3, other);
}

/// The two bits in the middle or those of a view.
#[tactic(auto, unfolding(bit_addressing::specs::Row::put))]
pub fn ored_part<T: BitStore, O: BitOrder, U: BitStore, P: BitOrder>(
    v: &mut BitVec<T, O>,
    other: BitSlice<'_, U, P>,
)
    requires bits { v.old.list ≡ true ∷ false ∷ true ∷ true ∷ [] }
    requires other { list_of other ≡ true ∷ false ∷ [] }
    requires len { len_of other ≡ 2 }
    ensures { v.new.list ≡ true ∷ true ∷ true ∷ true ∷ [] }
{
    v.or_range(1..3, other);
}

/// The first two bits, flipped where a view has true.
#[tactic(auto, unfolding(bit_addressing::specs::Row::put))]
pub fn xored_part<T: BitStore, O: BitOrder, U: BitStore, P: BitOrder>(
    v: &mut BitVec<T, O>,
    other: BitSlice<'_, U, P>,
)
    requires bits { v.old.list ≡ true ∷ false ∷ true ∷ true ∷ [] }
    requires other { list_of other ≡ true ∷ true ∷ [] }
    requires len { len_of other ≡ 2 }
    ensures { v.new.list ≡ false ∷ true ∷ true ∷ true ∷ [] }
{
    v.xor_range(0..2, other);
}

/// The first bit comes last.
pub fn rotated_left<T: BitStore, O: BitOrder>(v: &mut BitVec<T, O>)
    requires bits { v.old.list ≡ true ∷ false ∷ true ∷ true ∷ [] }
    ensures { v.new.list ≡ false ∷ true ∷ true ∷ true ∷ [] }
{
    v.rotate_left(1);
}

/// The last three bits come first.
pub fn rotated_right<T: BitStore, O: BitOrder>(v: &mut BitVec<T, O>)
    requires bits { v.old.list ≡ true ∷ false ∷ true ∷ true ∷ [] }
    ensures { v.new.list ≡ false ∷ true ∷ true ∷ true ∷ [] }
{
    v.rotate_right(3);
}

/// The last bit goes, and false comes first.
pub fn shifted_right<T: BitStore, O: BitOrder>(v: &mut BitVec<T, O>)
    requires bits { v.old.list ≡ true ∷ false ∷ true ∷ true ∷ [] }
    ensures { v.new.list ≡ false ∷ true ∷ false ∷ true ∷ [] }
{
    v.shift_right(1);
}

/// The last two bits and the first two.
#[tactic(auto, unfolding(bit_addressing::specs::Row::put))]
pub fn anded_within<T: BitStore, O: BitOrder>(v: &mut BitVec<T, O>)
    requires bits { v.old.list ≡ true ∷ false ∷ true ∷ true ∷ [] }
    ensures { v.new.list ≡ true ∷ false ∷ true ∷ false ∷ [] }
{
    v.and_within(0..2, 2);
}

/// Two bits are flipped where their neighbours before them were true.
#[tactic(auto, unfolding(bit_addressing::specs::Row::put))]
pub fn xored_within<T: BitStore, O: BitOrder>(v: &mut BitVec<T, O>)
    requires bits { v.old.list ≡ true ∷ false ∷ true ∷ true ∷ [] }
    ensures { v.new.list ≡ true ∷ true ∷ true ∷ true ∷ [] }
{
    v.xor_within(0..2, 1);
}

/// A number, the least significant bit first.
#[tactic(auto, unfolding(bit_addressing::specs::Row::number_bits))]
pub fn stored_le<T: BitStore, O: BitOrder>(v: &mut BitVec<T, O>)
    requires bits { v.old.list ≡ true ∷ false ∷ true ∷ true ∷ [] }
    ensures { v.new.list ≡ true ∷ false ∷ true ∷ false ∷ [] }
{
    v.store_le(5);
}

/// The last three bits are cleared.
#[tactic(auto, unfolding(bit_addressing::specs::Row::put))]
pub fn box_filled<T: BitStore, O: BitOrder>(b: &mut BitBox<T, O>)
    requires bits { b.old.list ≡ true ∷ false ∷ true ∷ true ∷ [] }
    ensures { b.new.list ≡ true ∷ false ∷ false ∷ false ∷ [] }
{
    b.fill_range(1..4, false);
}

/// The first four bits are flipped.
#[tactic(auto, unfolding(bit_containers::proofs::OnLiterals::words_on_literals))]
pub fn byte_flip_range() -> u8
    ensures { result ≡ 0x3e }
{
    let mut a = BitArray::<u8, Lsb0>::new(0x31);
    a.flip_range(0..4);
    a.into_inner()
}

/// The bits the other way round.
#[tactic(auto, unfolding(bit_containers::proofs::OnLiterals::words_on_literals))]
pub fn byte_reverse() -> u8
    ensures { result ≡ 0x8c }
{
    let mut a = BitArray::<u8, Lsb0>::new(0x31);
    a.reverse();
    a.into_inner()
}

/// The last four bits are flipped where the first four are true.
#[tactic(auto, unfolding(bit_containers::proofs::OnLiterals::words_on_literals))]
pub fn byte_xor_within() -> u8
    ensures { result ≡ 0x21 }
{
    let mut a = BitArray::<u8, Lsb0>::new(0x31);
    a.xor_within(0..4, 4);
    a.into_inner()
}

/// A number is its own byte.
#[tactic(auto, unfolding(bit_containers::proofs::OnLiterals::words_on_literals, bit_addressing::specs::Row::number_bits))]
pub fn byte_store_le() -> u8
    ensures { result ≡ 0x57 }
{
    let mut a = BitArray::<u8, Lsb0>::new(0x31);
    a.store_le(0x57);
    a.into_inner()
}

/// Bits that are false stay so.
#[tactic(auto, unfolding(bit_containers::proofs::OnLiterals::words_on_literals))]
pub fn byte_fill_range() -> u8
    ensures { result ≡ 0x31 }
{
    let mut a = BitArray::<u8, Lsb0>::new(0x31);
    a.fill_range(2..4, false);
    a.into_inner()
}

/// The second bit is flipped.
#[tactic(auto, unfolding(bit_containers::proofs::OnLiterals::words_on_literals))]
pub fn byte_flip() -> u8
    ensures { result ≡ 0x33 }
{
    let mut a = BitArray::<u8, Lsb0>::new(0x31);
    a.flip(1);
    a.into_inner()
}

/// The first three bits come last.
#[tactic(auto, unfolding(bit_containers::proofs::OnLiterals::words_on_literals))]
pub fn byte_rotate_left() -> u8
    ensures { result ≡ 0x26 }
{
    let mut a = BitArray::<u8, Lsb0>::new(0x31);
    a.rotate_left(3);
    a.into_inner()
}

/// The first two bits go.
#[tactic(auto, unfolding(bit_containers::proofs::OnLiterals::words_on_literals))]
pub fn byte_shift_left() -> u8
    ensures { result ≡ 0x0c }
{
    let mut a = BitArray::<u8, Lsb0>::new(0x31);
    a.shift_left(2);
    a.into_inner()
}

/// The last three bits go.
#[tactic(auto, unfolding(bit_containers::proofs::OnLiterals::words_on_literals))]
pub fn byte_shift_right() -> u8
    ensures { result ≡ 0x88 }
{
    let mut a = BitArray::<u8, Lsb0>::new(0x31);
    a.shift_right(3);
    a.into_inner()
}
