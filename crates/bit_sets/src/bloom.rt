//! A filter over a list of bits that tells of hashes whether they may have been put in.
ghost use Rattle.std.specs.Prelude.{◌≡◌, ◌+◌, ◌*◌, ◌/◌, ◌%◌, ◌^◌, ◌<◌, ◌≤◌, ◌⊎◌, ◌↔◌, ℕ, Err, IfOk, IsOk, IsTrue, OnErr, OnOk, Some, count_by, false, length, replicate, slice_get, true};
ghost use Rattle.bit_addressing.specs.declared.errors.GrowError.TheVariants as errors;
ghost use Rattle.bit_addressing.specs.declared.length.TheConstants.{MAX_BITS};
ghost use Rattle.bit_slice.specs.Operators.{or_of};
ghost use Rattle.bit_sets.specs.Bloom.{IsFound, IsMarked, hash_of, place};

use bit_addressing::{GrowError, Lsb0, MAX_BITS};
use bit_containers::{BitList, BitListMut, BitVec};
use std::alloc::Global;
use std::hash::{BuildHasher, Hash};
use std::marker::Model;

/// A Bloom filter: it tells of hashes whether they may have been put in. What was put in is always found; what was not
/// may be found too, the less often the more bits there are for each hash.
///
/// A hash is put in by `k` functions: each gives a place in the list of bits, which becomes true. Function `i` gives
/// the low half of the hash, and `i` times one more than its high half, modulo the number of bits. Of an item,
/// `insert_hashed` takes the hash that `hash_one` of a `BuildHasher` returns.
///
/// In contracts a filter `f` is its bits `f.bits` and how many functions it has, `f.functions`.
///
/// ```rust
/// use bit_sets::BloomFilter;
///
/// // Of items that were not put in, one in 128 is found.
/// let mut seen = BloomFilter::with_rate(rt.alloc(), 1000, 7)?;
/// seen.insert(0x9e3779b97f4a7c15);
/// println!(&rt; "{} by {} functions", seen.contains(0x9e3779b97f4a7c15), seen.functions())?;
/// ```
///
/// ```text
/// true by 7 functions
/// ```
#[derive(Drop)]
pub struct BloomFilter {
    bits: BitVec<usize, Lsb0>,
    functions: usize,
}

/// Two filters differ in the number of their bits or of their functions.
#[derive(Clone, Copy, PartialEq, Eq, Debug)]
pub struct OtherShape;

impl Model for BloomFilter {
    ghost use Rattle.std.specs.Prelude.{◌<◌, length};
    ghost use Rattle.bit_sets.specs.Filter.{Filter, filter_code};

    ghost Value = { Filter };

    ghost coded = { filter_code };

    ghost view = { λ f. record { bits = f.bits.list; functions = f.functions } };

    ghost invariant = { λ f. 0 < length f.bits.list };
}

impl BloomFilter {
    /// A filter of `bits` bits and this many functions, in which nothing was put. Returns `TooLong` exactly where
    /// `bits` passes `MAX_BITS`. Takes memory. Requires at least one bit.
    pub fn new(alloc: Global, bits: usize, functions: usize) -> Result<Self, GrowError>
        requires { 0 < bits }
        ensures bits { IfOk result (λ f. f.bits ≡ replicate bits false) }
        ensures functions { IfOk result (λ f. f.functions ≡ functions) }
        ensures too_long { (result ≡ Err errors.TooLong) ↔ (MAX_BITS < bits) }
    {
        let bits = BitVec::repeat(alloc, false, bits)?;
        Ok(BloomFilter { bits, functions })
    }

    /// A filter for this many hashes, with which about one in 2 to the power `functions` of other hashes is found
    /// wrongly: it has 13 bits for each nine pairs of a hash and a function, which is the best number for that many
    /// functions. Returns `TooLong` where there are more than `MAX_BITS` bits. Takes memory.
    ///
    /// ```text
    /// BloomFilter::with_rate(alloc, 1000, 7)?     // 10112 bits: one in 128 is found wrongly
    /// ```
    pub fn with_rate(alloc: Global, items: usize, functions: u8) -> Result<Self, GrowError>
        ensures bits { IfOk result (λ f. f.bits ≡ replicate (items * functions * 13 / 9 + 1) false) }
        ensures functions { IfOk result (λ f. f.functions ≡ functions) }
        ensures too_long { (result ≡ Err errors.TooLong) ↔ (MAX_BITS < items * functions * 13 / 9 + 1) }
    {
        let bits = items as u128 * functions as u128 * 13 / 9 + 1;
        if bits > MAX_BITS as u128 {
            return Err(GrowError::TooLong);
        }
        Self::new(alloc, bits as usize, functions as usize)
    }

    /// The number of bits of the filter.
    pub fn bits(&self) -> usize
        ensures value { result ≡ length self.now.bits }
        ensures some { 0 < result }
    {
        self.bits.len()
    }

    /// By how many functions a hash is put in.
    pub fn functions(&self) -> usize
        ensures { result ≡ self.now.functions }
    {
        self.functions
    }

    /// The number of true bits.
    pub fn count_ones(&self) -> usize
        ensures { result ≡ count_by (λ bit. bit) self.now.bits }
    {
        self.bits.count_ones()
    }

    /// Puts a hash in: its places become true, and no other bit changes. Takes no memory.
    pub fn insert(&mut self, hash: u64)
        ensures found { IsFound self.new hash }
        ensures stays { (other : ℕ) → IsFound self.old other → IsFound self.new other }
        ensures exact { IsMarked self.old.bits self.new.bits hash self.old.functions }
        ensures functions { self.new.functions ≡ self.old.functions }
    {
        let len = self.bits.len();
        let mut place = first_place(hash, len);
        let step = step_of(hash, len);
        for _number in 0..self.functions {
            self.bits.set(place, true);
            place = (place + step) % len;
        }
    }

    /// Whether a hash may have been put in: whether its places are true.
    pub fn contains(&self, hash: u64) -> bool
        ensures { IsTrue result ↔ IsFound self.now hash }
    {
        let len = self.bits.len();
        let mut place = first_place(hash, len);
        let step = step_of(hash, len);
        for _number in 0..self.functions {
            if !self.bits.get(place).unwrap_or(false) {
                return false;
            }
            place = (place + step) % len;
        }
        true
    }

    /// Puts an item in, by the hash that `hash_one` of a builder of hashers returns of it. Items that are equal have one
    /// hash. Otherwise like `insert`.
    ///
    /// ```text
    /// let hashes = BuildHasherDefault::<FoldHasher>::new();
    /// seen.insert_hashed(&hashes, name);
    /// seen.contains_hashed(&hashes, name)                          // true
    /// ```
    pub fn insert_hashed<S: BuildHasher, T: Hash + Drop>(&mut self, hashes: &S, item: T)
        ensures found { IsFound self.new
            (hash_of S.Hasher.finish S.Hasher.write (S.build_hasher hashes.now) (T.hash_input item)) }
        ensures stays { (other : ℕ) → IsFound self.old other → IsFound self.new other }
        ensures exact { IsMarked self.old.bits self.new.bits
            (hash_of S.Hasher.finish S.Hasher.write (S.build_hasher hashes.now) (T.hash_input item))
            self.old.functions }
        ensures functions { self.new.functions ≡ self.old.functions }
    {
        self.insert(hashes.hash_one(item));
    }

    /// Whether an item may have been put in by `insert_hashed` with the same builder of hashers.
    pub fn contains_hashed<S: BuildHasher, T: Hash + Drop>(&self, hashes: &S, item: T) -> bool
        ensures { IsTrue result
            ↔ IsFound self.now
            (hash_of S.Hasher.finish S.Hasher.write (S.build_hasher hashes.now) (T.hash_input item)) }
    {
        self.contains(hashes.hash_one(item))
    }

    /// Takes all out: every bit becomes false.
    pub fn clear(&mut self)
        ensures bits { self.new.bits ≡ replicate (length self.old.bits) false }
        ensures functions { self.new.functions ≡ self.old.functions }
    {
        self.bits.fill(false);
    }

    /// Puts in what was put into another filter of the same shape: as many bits and functions. Takes no memory. Returns
    /// the error exactly where the shapes differ; the filter stays as it was then.
    pub fn union_with(&mut self, other: &Self) -> Result<(), OtherShape>
        ensures bits { OnOk result (self.new.bits ≡ or_of self.old.bits other.now.bits) }
        ensures functions { self.new.functions ≡ self.old.functions }
        ensures stays { OnOk result ((hash : ℕ) → (IsFound self.old hash ⊎ IsFound other.now hash)
            → IsFound self.new hash) }
        ensures same { IsOk result
            ↔ ((length self.old.bits ≡ length other.now.bits) × (self.old.functions ≡ other.now.functions)) }
        ensures refused { OnErr result (self.new ≡ self.old) }
    {
        if self.bits.len() != other.bits.len() || self.functions != other.functions {
            return Err(OtherShape);
        }
        self.bits.or_bits(other.bits.as_bitslice());
        Ok(())
    }
}

// The place that the first function gives.
fn first_place(hash: u64, len: usize) -> usize
    requires { 0 < len }
    ensures { result ≡ place len hash 0 }
{
    (hash % (1 << 32)) as usize % len
}

// How far the place of each function is after the place of the one before it.
fn step_of(hash: u64, len: usize) -> usize
    requires { 0 < len }
    ensures { result ≡ (hash / 2 ^ 32 + 1) % len }
{
    ((hash >> 32) + 1) as usize % len
}
