//! Bits that can be written, in which ones and zeros are counted before any index and found by number.
ghost use Rattle.std.specs.Prelude.{◌≡◌, ℕ, ◌+◌, ◌-◌, ◌*◌, ◌/◌, ◌^◌, ◌<◌, ◌≤◌, ◌↔◌, IfErr, IfNone, IfOk, IfSome, IsTrue, None, OnErr, Some, count_by, false, length, not, option_map, set, slice_get, slice_index_or, take, true, vec_capacity, min};
ghost use Rattle.bit_addressing.specs.declared.length.TheConstants.{MAX_BITS};
ghost use Rattle.bit_addressing.specs.Row.{words_for};
ghost use Rattle.bit_slice.specs.BitSlice.{head_of, len_of, list_of, words_of};
ghost use Rattle.bit_slice.specs.Held.{IsClean, Stayed};
ghost use Rattle.bit_slice.specs.Numbered.{IsNumbered, count_before, is_bit, ones_before, zeros_before};
ghost use Rattle.bit_slice.specs.Places.{ones_of, zeros_of};
ghost use Rattle.bit_ranks.specs.Sums.{IsTree, IsSummed, before_block};

mod sums;
mod traits;

use crate::counts::ones_between;
use crate::ranked::sums::{levels_for, of_kind, recount, summed, width};
use crate::ranks::BLOCK;
use bit_boxed::BitBox;
use bit_containers::{BitListMut, BitOrder, BitStore, BitVec, Lsb0};
use bit_slice::BitSlice;
use bit_slice::inner::nth_from;
use std::alloc::{AllocError, Global};
use std::marker::Model;

/// A boxed list of bits that can be written, with its ones counted: like `Ranks`, but a bit may change, and a rank, a
/// selection and a change each take a number of steps that grows with the logarithm of the length.
///
/// Beside the box it keeps one sum for each whole block of 512 bits, at most an eighth of the bits' memory, in a tree:
/// a change of a bit changes one sum of each level at most.
///
/// In contracts ranked bits `r` are the box: all its words `r.words`, their row `r.row`, the head `r.head` and the
/// list `r.list`.
///
/// ```rust
/// use bit_containers::{BitVec, Lsb0};
/// use bit_ranks::RankedBits;
///
/// let bits = BitVec::<u64, Lsb0>::from_text(rt.alloc(), "0110100")?;
/// let mut ranked = RankedBits::from_vec(rt.alloc(), bits)?;
/// println!(&rt; "{} ones before index 4", ranked.rank1(4))?;
/// if ranked.len() > 0 {
///     ranked.set(0, true);
/// }
/// println!(&rt; "{} now, one 3 at {:?}", ranked.rank1(4), ranked.select1(3))?;
/// ```
///
/// ```text
/// 2 ones before index 4
/// 3 now, one 3 at Some(4)
/// ```
#[derive(Drop)]
pub struct RankedBits<T: BitStore = usize, O: BitOrder = Lsb0> {
    bits: BitBox<T, O>,
    sums: Vec<usize>,
    levels: u32,
}

impl<T: BitStore, O: BitOrder> Model for RankedBits<T, O> {
    ghost use Rattle.bit_slice.specs.Held.{Held, held_code};
    ghost use Rattle.bit_ranks.specs.Sums.{IsTree};

    ghost Value = { Held T };

    ghost coded = { held_code T.code };

    ghost view = { λ r. r.bits };

    ghost invariant = { λ r. IsTree r.bits.list r.sums.items r.levels };
}

impl<T: BitStore, O: BitOrder> RankedBits<T, O> {
    /// Counts the ones of a box. Takes memory for the sums where there are at least 512 bits; where it is refused,
    /// the error is the box.
    pub fn new(alloc: Global, bits: BitBox<T, O>) -> Result<Self, BitBox<T, O>>
        ensures bits { IfOk result (λ r. r ≡ bits) }
        ensures back { IfErr result (λ back. back ≡ bits) }
        ensures memory { OnErr result (512 ≤ length bits.list) }
    {
        let levels = levels_for(bits.len() / BLOCK);
        match summed(alloc, bits.as_bitslice(), levels) {
            Ok(sums) => Ok(RankedBits { bits, sums, levels }),
            Err(_) => Err(bits),
        }
    }

    /// Like `new`, of a vector, which becomes a box as by `into_boxed_bitslice`; where memory is refused, the error is
    /// the vector, as it was.
    pub fn from_vec(alloc: Global, bits: BitVec<T, O>) -> Result<Self, BitVec<T, O>>
        ensures words { IfOk result (λ r. r.words ≡ bits.words) }
        ensures row { IfOk result (λ r. r.row ≡ bits.row) }
        ensures head { IfOk result (λ r. r.head ≡ bits.head) }
        ensures list { IfOk result (λ r. r.list ≡ bits.list) }
        ensures back { IfErr result (λ back. back ≡ bits) }
        ensures memory { OnErr result (512 ≤ length bits.list) }
    {
        let levels = levels_for(bits.len() / BLOCK);
        match summed(alloc, bits.as_bitslice(), levels) {
            Ok(sums) => {
                let bits = bits.into_boxed_bitslice().unwrap();
                Ok(RankedBits { bits, sums, levels })
            }
            Err(_) => Err(bits),
        }
    }

    /// The box of bits. The sums are dropped.
    pub fn into_bits(self) -> BitBox<T, O>
        ensures { result ≡ self }
    {
        self.bits
    }

    /// A view of the bits.
    pub fn as_bitslice(&self) -> BitSlice<'_, T, O>
        ensures words { words_of result
            ≡ take (words_for T.BITS (self.now.head + length self.now.list)) self.now.words }
        ensures head { head_of result ≡ self.now.head }
        ensures len { len_of result ≡ length self.now.list }
        ensures list { list_of result ≡ self.now.list }
    {
        self.bits.as_bitslice()
    }

    /// The number of bits.
    pub fn len(&self) -> usize
        ensures value { result ≡ length self.now.list }
        ensures bound { result ≤ MAX_BITS }
    {
        self.bits.len()
    }

    /// Whether there is no bit.
    pub fn is_empty(&self) -> bool
        ensures { IsTrue result ↔ (length self.now.list ≡ 0) }
    {
        self.len() == 0
    }

    /// The bit at `i`. None exactly where `i` is the length or more.
    pub fn get(&self, i: usize) -> Option<bool>
        ensures { result ≡ slice_get self.now.list i }
    {
        self.bits.get(i)
    }

    /// Writes the bit at `i`, and no other bit; the sums that count it follow. Takes no memory. Requires that `i` is
    /// below the length.
    ///
    /// ```text
    /// of 0110100: ranked.set(0, true) leaves 1110100
    /// ```
    pub fn set(&mut self, i: usize, bit: bool)
        requires { i < length self.old.list }
        ensures list { self.new.list ≡ set self.old.list i bit }
        ensures row { self.new.row ≡ set self.old.row (self.old.head + i) bit }
        ensures clean { IsClean T.BITS self.old → IsClean T.BITS self.new }
        ensures stayed { Stayed self.old self.new }
    {
        self.replace(i, bit);
    }

    /// Like `set`, and returns the bit that was there.
    ///
    /// ```text
    /// of 0110100: ranked.replace(0, true) == false
    /// ```
    pub fn replace(&mut self, i: usize, bit: bool) -> bool
        requires { i < length self.old.list }
        ensures old { slice_get self.old.list i ≡ Some result }
        ensures list { self.new.list ≡ set self.old.list i bit }
        ensures row { self.new.row ≡ set self.old.row (self.old.head + i) bit }
        ensures clean { IsClean T.BITS self.old → IsClean T.BITS self.new }
        ensures stayed { Stayed self.old self.new }
    {
        let old = BitListMut::replace(&mut self.bits, i, bit);
        if old != bit {
            recount(&mut self.sums, self.levels, self.bits.as_bitslice(), i);
        }
        old
    }

    /// Flips the bit at `i`, and no other bit; the sums that count it follow. Takes no memory. Requires that `i` is
    /// below the length.
    ///
    /// ```text
    /// of 0110100: ranked.flip(1) leaves 0010100
    /// ```
    pub fn flip(&mut self, i: usize)
        requires { i < length self.old.list }
        ensures list { self.new.list ≡ set self.old.list i (not (slice_index_or self.old.list i false)) }
        ensures row { self.new.row
            ≡ set self.old.row (self.old.head + i) (not (slice_index_or self.old.list i false)) }
        ensures item { slice_get self.new.list i ≡ option_map not (slice_get self.old.list i) }
        ensures clean { IsClean T.BITS self.old → IsClean T.BITS self.new }
        ensures stayed { Stayed self.old self.new }
    {
        BitListMut::flip(&mut self.bits, i);
        recount(&mut self.sums, self.levels, self.bits.as_bitslice(), i);
    }

    /// The number of ones.
    pub fn count_ones(&self) -> usize
        ensures value { result ≡ count_by (λ bit. bit) self.now.list }
        ensures few { result ≤ length self.now.list }
    {
        self.rank1(self.len())
    }

    /// The number of zeros.
    pub fn count_zeros(&self) -> usize
        ensures value { result ≡ count_by not self.now.list }
        ensures few { result ≤ length self.now.list }
    {
        self.rank0(self.len())
    }

    /// The number of ones before index `i`: one sum of each level is added at most, and fewer than 512 bits are counted.
    /// Requires that `i` is at most the length.
    pub fn rank1(&self, i: usize) -> usize
        requires { i ≤ length self.now.list }
        ensures value { result ≡ ones_before self.now.list i }
        ensures few { result ≤ i }
    {
        let block = i / BLOCK;
        self.ones_to(block) + ones_between(self.bits.as_bitslice(), block * BLOCK, i)
    }

    /// The number of zeros before index `i`. Otherwise like `rank1`.
    pub fn rank0(&self, i: usize) -> usize
        requires { i ≤ length self.now.list }
        ensures value { result ≡ zeros_before self.now.list i }
        ensures few { result ≤ i }
    {
        i - self.rank1(i)
    }

    /// The index of the `k`-th one, counted from 0. None exactly where there are at most `k` ones. One sum of each level
    /// is read at most; then at most eight words of 64 bits are searched, and one of them in six steps.
    pub fn select1(&self, k: usize) -> Option<usize>
        ensures value { result ≡ slice_get (ones_of self.now.list) k }
        ensures found { IfSome result (λ i. slice_get self.now.list i ≡ Some true) }
        ensures before { IfSome result (λ i. ones_before self.now.list i ≡ k) }
        ensures only { (i : ℕ) → slice_get self.now.list i ≡ Some true → ones_before self.now.list i ≡ k
            → result ≡ Some i }
        ensures inside { IfSome result (λ i. i < length self.now.list) }
        ensures few { IfSome result (λ i. i < MAX_BITS) }
        ensures none { (result ≡ None) ↔ (count_by (λ bit. bit) self.now.list ≤ k) }
    {
        self.select(true, k)
    }

    /// The index of the `k`-th zero, counted from 0. None exactly where there are at most `k` zeros. Otherwise
    /// like `select1`.
    pub fn select0(&self, k: usize) -> Option<usize>
        ensures value { result ≡ slice_get (zeros_of self.now.list) k }
        ensures found { IfSome result (λ i. slice_get self.now.list i ≡ Some false) }
        ensures before { IfSome result (λ i. zeros_before self.now.list i ≡ k) }
        ensures only { (i : ℕ) → slice_get self.now.list i ≡ Some false → zeros_before self.now.list i ≡ k
            → result ≡ Some i }
        ensures inside { IfSome result (λ i. i < length self.now.list) }
        ensures few { IfSome result (λ i. i < MAX_BITS) }
        ensures none { (result ≡ None) ↔ (count_by not self.now.list ≤ k) }
    {
        self.select(false, k)
    }

    // The index of the `k`-th bit, counted from 0, of those that are `bit`.
    #[inline(always)]
    fn select(&self, bit: bool, k: usize) -> Option<usize>
        ensures some { IfSome result (λ i. IsNumbered bit self.now.list k i) }
        ensures none { IfNone result (count_by (is_bit bit) self.now.list ≤ k) }
        ensures few { IfSome result (λ i. i < MAX_BITS) }
    {
        // Proof only: there are at most `MAX_BITS` bits.
        let _len = self.bits.len();
        let (block, left) = self.block_of(bit, k);
        nth_from::<T, O>(self.bits.as_bitslice(), block * BLOCK, left, bit)
    }

    // The last block before which at most `k` bits are `bit`, and by how many fewer.
    fn block_of(&self, bit: bool, k: usize) -> (usize, usize)
        ensures within { result.0 * 512 ≤ length self.now.list }
        ensures before { count_before bit self.now.list (result.0 * 512) + result.1 ≡ k }
        ensures last { (result.0 + 1) * 512 ≤ length self.now.list
            → k < count_before bit self.now.list ((result.0 + 1) * 512) }
    {
        let sums = self.sums.as_slice();
        let mut block = 0;
        let mut left = k;
        let mut level = self.levels;
        'halves: while level > 0 {
            level -= 1;
            let half = width(level);
            let middle = block + half;
            if middle <= sums.len() {
                let ones = sums[middle - 1];
                let count = of_kind(bit, ones, half);
                if count <= left {
                    left -= count;
                    block = middle;
                }
            }
        }
        (block, left)
    }

    // The number of ones before a block.
    fn ones_to(&self, block: usize) -> usize
        requires { block * 512 ≤ length self.now.list }
        ensures value { result ≡ ones_before self.now.list (block * 512) }
        ensures few { result ≤ block * 512 }
    {
        let sums = self.sums.as_slice();
        let mut total = 0;
        let mut first = 0;
        let mut level = self.levels;
        'halves: while level > 0 {
            level -= 1;
            let middle = first + width(level);
            if middle <= block {
                total += sums[middle - 1];
                first = middle;
            }
        }
        total
    }
}
