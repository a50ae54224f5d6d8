//! Callers that grow a vector.
ghost use Rattle.std.specs.Prelude.{◌≡◌, ◌+◌, ◌-◌, ◌%◌, ◌≤◌, ◌<◌, ◌++◌, map, not, true, false, [], ◌∷◌, take, replicate, length, IfOk, OnOk, OnErr, Ok, IsOk, eqb};
ghost use Rattle.std.specs.List.{items_where_true, range_with_len};
ghost use Rattle.bit_addressing.specs.declared.length.TheConstants.{MAX_BITS};

use bit_containers::{BitOrder, BitRun, BitStore, BitVec, GrowError, Lsb0, Msb0};
use std::alloc::Global;

/// Within the capacity no push is refused.
pub fn pushed_into_room<T: BitStore, O: BitOrder>(
    v: &mut BitVec<T, O>,
    bit: bool,
) -> Result<(), GrowError>
    requires room { length v.old.list + 1 ≤ v.old.capacity }
    requires few { length v.old.list < MAX_BITS }
    ensures { result ≡ Ok tt }
{
    v.push(bit)
}

pub fn filled_up(v: &mut BitVec<u8, Lsb0>) -> Result<(), GrowError>
    requires { v.old.list ≡ true ∷ false ∷ [] }
    ensures { OnOk result (v.new.list ≡ true ∷ false ∷ true ∷ true ∷ []) }
{
    v.resize(4, true)
}

pub fn both_joined(a: &mut BitVec<u8, Msb0>, b: &mut BitVec<u64, Lsb0>) -> Result<(), GrowError>
    ensures joined { OnOk result (a.new.list ≡ a.old.list ++ b.old.list) }
    ensures emptied { OnOk result (b.new.list ≡ []) }
    ensures first_kept { OnErr result (a.new.list ≡ a.old.list) }
    ensures second_kept { OnErr result (b.new.list ≡ b.old.list) }
{
    a.append(b)
}

pub fn room_from_the_start(alloc: Global) -> Result<usize, GrowError>
    ensures { IfOk result (λ room. 100 ≤ room) }
{
    let v = BitVec::<u32, Lsb0>::with_capacity(alloc, 100)?;
    Ok(v.capacity())
}

/// After a reservation that many pushes find room, wherever the head is.
pub fn pushed_after_reserving<T: BitStore, O: BitOrder>(
    v: &mut BitVec<T, O>,
    k: usize,
    bit: bool,
) -> Result<bool, GrowError>
    ensures { IfOk result (λ all. all ≡ true) }
{
    v.reserve(k)?;
    Ok(push_all(v, k, bit))
}

// Pushes a bit `k` times, and says whether each push found room.
fn push_all<T: BitStore, O: BitOrder>(v: &mut BitVec<T, O>, k: usize, bit: bool) -> bool
    requires room { length v.old.list + k ≤ v.old.capacity }
    requires fits { length v.old.list + k ≤ MAX_BITS }
    ensures { result ≡ true }
{
    if k == 0 {
        return true;
    }
    v.push(bit).is_ok() && push_all(v, k - 1, bit)
}

pub fn joined_from_a_vector<T: BitStore, O: BitOrder>(
    v: &mut BitVec<T, O>,
    bits: Vec<bool>,
) -> Result<(), GrowError>
    ensures joined { OnOk result (v.new.list ≡ v.old.list ++ bits.items) }
    ensures kept { OnErr result (v.new.list ≡ v.old.list) }
{
    v.extend(bits)
}

pub fn made_of_a_vector(alloc: Global, bits: Vec<bool>) -> Result<BitVec<u8, Msb0>, GrowError>
    ensures { IfOk result (λ v. v.list ≡ bits.items) }
{
    BitVec::from_bits(alloc, bits)
}

pub fn opposites_joined<T: BitStore, O: BitOrder>(
    v: &mut BitVec<T, O>,
    other: &BitVec<u8, Lsb0>,
) -> Result<(), GrowError>
    ensures { OnOk result (v.new.list ≡ v.old.list ++ map not other.now.list) }
{
    v.extend(other.iter().map(|bit| !bit))
}

pub fn once_more<T: BitStore, O: BitOrder>(v: &mut BitVec<T, O>) -> Result<(), GrowError>
    ensures { OnOk result (v.new.list ≡ v.old.list ++ v.old.list) }
{
    v.extend_from_within(..)
}

pub fn five_times(alloc: Global, bit: bool) -> Result<BitVec<u16, Lsb0>, GrowError>
    ensures { IfOk result (λ v. v.list ≡ replicate 5 bit) }
{
    BitVec::repeat(alloc, bit, 5)
}

/// Bits that are known to fit are appended, and no call is refused.
pub fn bits_that_fit<O: BitOrder>(v: &mut BitVec<u8, O>, bits: Vec<bool>) -> Result<(), GrowError>
    requires room { length v.old.list + length bits.items ≤ v.old.capacity }
    requires few { length v.old.list + length bits.items ≤ MAX_BITS }
    ensures succeeds { IsOk result }
    ensures list { OnOk result (v.new.list ≡ v.old.list ++ bits.items) }
{
    v.extend(bits)
}

/// A vector that is cut is never refused.
pub fn cut<O: BitOrder>(v: &mut BitVec<u8, O>) -> Result<(), GrowError>
    requires { 8 ≤ length v.old.list }
    ensures { IsOk result }
{
    v.resize(8, false)
}

/// Each appended bit is that of a function of its index.
#[tactic(auto, using(bit_slice::proofs::Called::filled_with))]
pub fn striped<T: BitStore, O: BitOrder>(alloc: Global, n: usize) -> Result<BitVec<T, O>, GrowError>
    ensures { IfOk result (λ v. v.list ≡ map (λ i. eqb (i % 2) 0) (range_with_len 0 n)) }
{
    let mut v = BitVec::new(alloc);
    v.resize_with(n, |i| i % 2 == 0)?;
    Ok(v)
}

/// What a mask takes out is as long as the mask says, and after what was there.
pub fn taken_out<T: BitStore, O: BitOrder>(
    v: &mut BitVec<T, O>,
    source: &BitVec<u8, Msb0>,
    mask: &BitVec<u64, Lsb0>,
) -> Result<(), GrowError>
    ensures taken { OnOk result (v.new.list ≡ v.old.list ++ items_where_true mask.now.list source.now.list) }
    ensures kept { OnErr result (v.new.list ≡ v.old.list) }
{
    v.extend_where(source.as_bitslice(), mask.as_bitslice())
}

pub fn thrice(v: &mut BitVec<u8, Msb0>, pattern: &BitVec<u8, Lsb0>) -> Result<(), GrowError>
    requires v { v.old.list ≡ true ∷ [] }
    requires pattern { pattern.now.list ≡ false ∷ true ∷ [] }
    ensures { OnOk result (v.new.list ≡ true ∷ false ∷ true ∷ false ∷ true ∷ false ∷ true ∷ []) }
{
    v.extend_repeated(pattern.as_bitslice(), 3)
}

/// Two runs, one after the other.
pub fn two_runs(v: &mut BitVec<u8, Msb0>, first: BitRun, second: BitRun) -> Result<(), GrowError>
    ensures { OnOk result (v.new.list ≡ v.old.list ++ replicate (first.end - first.start) first.bit
        ++ replicate (second.end - second.start) second.bit ++ []) }
{
    v.extend_from_runs(&[first, second])
}
