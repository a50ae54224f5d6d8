//! A boxed list of bits with counts of its ones.
ghost use Rattle.std.specs.Prelude.{◌≡◌, ℕ, ◌+◌, ◌*◌, ◌/◌, ◌<◌, ◌≤◌, ◌↔◌, IfErr, IfNone, IfOk, IfSome, IsTrue, None, OnErr, Some, count_by, false, length, not, slice_get, take, true};
ghost use Rattle.bit_addressing.specs.declared.length.TheConstants.{MAX_BITS};
ghost use Rattle.bit_slice.specs.BitSlice.{head_of, len_of, list_of, words_of};
ghost use Rattle.bit_addressing.specs.Row.{words_for};
ghost use Rattle.bit_slice.specs.Places.{ones_of, zeros_of};
ghost use Rattle.bit_slice.specs.Numbered.{IsNumbered, count_before, is_bit, ones_before, zeros_before};
ghost use Rattle.bit_ranks.specs.Ranks.{IsIndex};

mod traits;

use crate::counts::ones_between;
use bit_boxed::BitBox;
use bit_containers::{BitOrder, BitStore, BitVec, Lsb0};
use bit_slice::BitSlice;
use bit_slice::inner::nth_from;
use std::alloc::{AllocError, Global};
use std::marker::Model;

// How many bits one count is for.
pub(crate) const BLOCK: usize = 512;

/// A boxed list of bits with counts of its ones: it tells how many ones or zeros are before an index, and at which
/// index the `k`-th one or zero is.
///
/// Beside the box it keeps one count for each whole block of 512 bits, at most an eighth of the bits' memory. The
/// bits can't be written meanwhile: `into_bits` gives the box back.
///
/// In contracts ranks `r` are the box: all its words `r.words`, their row `r.row`, the head `r.head` and the
/// list `r.list`.
///
/// ```rust
/// use bit_containers::{BitVec, Lsb0};
/// use bit_ranks::Ranks;
///
/// let bits = BitVec::<u64, Lsb0>::from_text(rt.alloc(), "0110100")?;
/// let ranks = Ranks::from_vec(rt.alloc(), bits)?;
/// println!(&rt; "{} ones before index 4", ranks.rank1(4))?;
/// println!(&rt; "one 2 at {:?}, zero 1 at {:?}", ranks.select1(2), ranks.select0(1))?;
/// ```
///
/// ```text
/// 2 ones before index 4
/// one 2 at Some(4), zero 1 at Some(3)
/// ```
#[derive(Drop)]
pub struct Ranks<T: BitStore = usize, O: BitOrder = Lsb0> {
    bits: BitBox<T, O>,
    counts: Vec<usize>,
}

impl<T: BitStore, O: BitOrder> Model for Ranks<T, O> {
    ghost use Rattle.bit_slice.specs.Held.{Held, held_code};
    ghost use Rattle.bit_ranks.specs.Ranks.{IsIndex};

    ghost Value = { Held T };

    ghost coded = { held_code T.code };

    ghost view = { λ r. r.bits };

    ghost invariant = { λ r. IsIndex r.bits.list r.counts.items };
}

impl<T: BitStore, O: BitOrder> Clone for Ranks<T, O> {
    ghost use Rattle.bit_slice.specs.Held.{IsCopy};

    ghost is_clone = { IsCopy T.BITS };

    /// A copy: that of the box, whose ones are counted. Takes memory where there is a bit.
    fn clone(&self) -> Result<Self, AllocError> {
        let bits = self.bits.clone()?;
        let counts = counted(self.bits.allocator(), bits.as_bitslice())?;
        Ok(Ranks { bits, counts })
    }
}

impl<T: BitStore, O: BitOrder> Ranks<T, O> {
    /// Counts the ones of a box. Takes memory for the counts where there are at least 512 bits; where it is refused,
    /// the error is the box.
    pub fn new(alloc: Global, bits: BitBox<T, O>) -> Result<Self, BitBox<T, O>>
        ensures bits { IfOk result (λ r. r ≡ bits) }
        ensures back { IfErr result (λ back. back ≡ bits) }
        ensures memory { OnErr result (512 ≤ length bits.list) }
    {
        match counted(alloc, bits.as_bitslice()) {
            Ok(counts) => Ok(Ranks { bits, counts }),
            Err(_) => Err(bits),
        }
    }

    /// Like `new`, of a vector, which becomes a box as by `into_boxed_bitslice`; where memory is refused, the error is
    /// the vector, as it was.
    ///
    /// ```text
    /// let ranks = Ranks::from_vec(alloc, v)?;    // of the vector 0110100 the same as above
    /// ```
    pub fn from_vec(alloc: Global, bits: BitVec<T, O>) -> Result<Self, BitVec<T, O>>
        ensures words { IfOk result (λ r. r.words ≡ bits.words) }
        ensures row { IfOk result (λ r. r.row ≡ bits.row) }
        ensures head { IfOk result (λ r. r.head ≡ bits.head) }
        ensures list { IfOk result (λ r. r.list ≡ bits.list) }
        ensures back { IfErr result (λ back. back ≡ bits) }
        ensures memory { OnErr result (512 ≤ length bits.list) }
    {
        match counted(alloc, bits.as_bitslice()) {
            Ok(counts) => {
                let bits = bits.into_boxed_bitslice().unwrap();
                Ok(Ranks { bits, counts })
            }
            Err(_) => Err(bits),
        }
    }

    /// The box of bits. The counts are dropped.
    pub fn into_bits(self) -> BitBox<T, O>
        ensures { result ≡ self }
    {
        self.bits
    }

    /// A view of the bits.
    pub fn as_bitslice(&self) -> BitSlice<'_, T, O>
        ensures words { words_of result
            ≡ take (words_for T.BITS (self.now.head + length self.now.list)) self.now.words }
        ensures head { head_of result ≡ self.now.head }
        ensures len { len_of result ≡ length self.now.list }
        ensures list { list_of result ≡ self.now.list }
    {
        self.bits.as_bitslice()
    }

    /// The number of bits.
    pub fn len(&self) -> usize
        ensures value { result ≡ length self.now.list }
        ensures bound { result ≤ MAX_BITS }
    {
        self.bits.len()
    }

    /// Whether there is no bit.
    pub fn is_empty(&self) -> bool
        ensures { IsTrue result ↔ (length self.now.list ≡ 0) }
    {
        self.len() == 0
    }

    /// How many counts of 64 bits each are kept beside the bits: one for each whole block of 512
    /// bits.
    pub fn index_len(&self) -> usize
        ensures value { result ≡ length self.now.list / 512 }
        ensures bound { 8 * (64 * result) ≤ length self.now.list }
    {
        self.counts.len()
    }

    /// The bit at `i`. None exactly where `i` is the length or more.
    pub fn get(&self, i: usize) -> Option<bool>
        ensures { result ≡ slice_get self.now.list i }
    {
        self.bits.get(i)
    }

    /// The number of ones, in constant time.
    pub fn count_ones(&self) -> usize
        ensures value { result ≡ count_by (λ bit. bit) self.now.list }
        ensures few { result ≤ length self.now.list }
    {
        self.rank1(self.len())
    }

    /// The number of zeros, in constant time.
    pub fn count_zeros(&self) -> usize
        ensures value { result ≡ count_by not self.now.list }
        ensures few { result ≤ length self.now.list }
    {
        self.rank0(self.len())
    }

    /// The number of ones before index `i`: one count is read, and fewer than 512 bits are counted. Requires that `i`
    /// is at most the length.
    pub fn rank1(&self, i: usize) -> usize
        requires { i ≤ length self.now.list }
        ensures value { result ≡ ones_before self.now.list i }
        ensures few { result ≤ i }
    {
        let block = i / BLOCK;
        self.ones_to(block) + ones_between(self.bits.as_bitslice(), block * BLOCK, i)
    }

    /// The number of zeros before index `i`. Otherwise like `rank1`.
    pub fn rank0(&self, i: usize) -> usize
        requires { i ≤ length self.now.list }
        ensures value { result ≡ zeros_before self.now.list i }
        ensures few { result ≤ i }
    {
        i - self.rank1(i)
    }

    /// The index of the `k`-th one, counted from 0. None exactly where there are at most `k` ones. It is a binary
    /// search over the counts, then a search of at most eight words of 64 bits, then six steps in one of them.
    pub fn select1(&self, k: usize) -> Option<usize>
        ensures value { result ≡ slice_get (ones_of self.now.list) k }
        ensures found { IfSome result (λ i. slice_get self.now.list i ≡ Some true) }
        ensures before { IfSome result (λ i. ones_before self.now.list i ≡ k) }
        ensures only { (i : ℕ) → slice_get self.now.list i ≡ Some true → ones_before self.now.list i ≡ k
            → result ≡ Some i }
        ensures inside { IfSome result (λ i. i < length self.now.list) }
        ensures few { IfSome result (λ i. i < MAX_BITS) }
        ensures none { (result ≡ None) ↔ (count_by (λ bit. bit) self.now.list ≤ k) }
    {
        self.select(true, k)
    }

    /// The index of the `k`-th zero, counted from 0. None exactly where there are at most `k` zeros. Otherwise
    /// like `select1`.
    pub fn select0(&self, k: usize) -> Option<usize>
        ensures value { result ≡ slice_get (zeros_of self.now.list) k }
        ensures found { IfSome result (λ i. slice_get self.now.list i ≡ Some false) }
        ensures before { IfSome result (λ i. zeros_before self.now.list i ≡ k) }
        ensures only { (i : ℕ) → slice_get self.now.list i ≡ Some false → zeros_before self.now.list i ≡ k
            → result ≡ Some i }
        ensures inside { IfSome result (λ i. i < length self.now.list) }
        ensures few { IfSome result (λ i. i < MAX_BITS) }
        ensures none { (result ≡ None) ↔ (count_by not self.now.list ≤ k) }
    {
        self.select(false, k)
    }

    // The index of the `k`-th bit, counted from 0, of those that are `bit`.
    #[inline(always)]
    fn select(&self, bit: bool, k: usize) -> Option<usize>
        ensures some { IfSome result (λ i. IsNumbered bit self.now.list k i) }
        ensures none { IfNone result (count_by (is_bit bit) self.now.list ≤ k) }
        ensures few { IfSome result (λ i. i < MAX_BITS) }
    {
        // Proof only: there are at most `MAX_BITS` bits.
        let _len = self.bits.len();
        let block = self.block_of(bit, k);
        let left = k - self.before_block(bit, block);
        nth_from::<T, O>(self.bits.as_bitslice(), block * BLOCK, left, bit)
    }

    // The last block before which at most `k` bits are `bit`.
    fn block_of(&self, bit: bool, k: usize) -> usize
        ensures within { result * 512 ≤ length self.now.list }
        ensures before { count_before bit self.now.list (result * 512) ≤ k }
        ensures last { (result + 1) * 512 ≤ length self.now.list
            → k < count_before bit self.now.list ((result + 1) * 512) }
    {
        let mut low = 0;
        let mut high = self.counts.len();
        'narrow: while low < high {
            let middle = high - (high - low) / 2;
            if self.before_block(bit, middle) <= k {
                low = middle;
            } else {
                high = middle - 1;
            }
        }
        low
    }

    // How many bits before a block are `bit`.
    #[inline(always)]
    fn before_block(&self, bit: bool, block: usize) -> usize
        requires { block * 512 ≤ length self.now.list }
        ensures { result ≡ count_before bit self.now.list (block * 512) }
    {
        let ones = self.ones_to(block);
        if bit { ones } else { block * BLOCK - ones }
    }

    // The number of ones before a block.
    #[inline(always)]
    fn ones_to(&self, block: usize) -> usize
        requires { block * 512 ≤ length self.now.list }
        ensures value { result ≡ ones_before self.now.list (block * 512) }
        ensures few { result ≤ block * 512 }
        ensures held { block * 512 ≤ MAX_BITS }
    {
        if block == 0 {
            return 0;
        }
        self.counts[block - 1]
    }
}

// The number of ones before the end of each whole block, counted in one pass.
fn counted<T: BitStore, O: BitOrder>(
    alloc: Global,
    view: BitSlice<'_, T, O>,
) -> Result<Vec<usize>, AllocError>
    ensures index { IfOk result (λ counts. IsIndex (list_of view.entry) counts.items) }
    ensures memory { OnErr result (512 ≤ len_of view.entry) }
{
    let blocks = view.len() / BLOCK;
    let mut counts = Vec::with_capacity(alloc, blocks)?;
    let mut total = 0;
    for block in 0..blocks {
        total += view
            .get_range(block * BLOCK..(block + 1) * BLOCK)
            .count_ones();
        counts.push_reserved(total);
    }
    Ok(counts)
}
