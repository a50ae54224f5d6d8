//! Callers that prove the exact words of an array, and lengths.
ghost use Rattle.std.specs.Prelude.{◌≡◌, ◌↔◌, ◌*◌, IsTrue, IsSome, true, false, [], ◌∷◌, length, if◌then◌else◌};

use bit_containers::array::{BitArray, BitViewSized, BitWords};
use bit_containers::{BitListMut, BitOrder, BitStore, BitVec, Lsb0, Msb0, equal_words};

/// Two bits set in two bytes.
pub fn two_flags() -> [u8; 2]
    ensures { result ≡ 0x40 ∷ 0x01 ∷ [] }
{
    let mut a = BitArray::<[u8; 2], Msb0>::zero();
    a.set(1, true);
    a.set(15, true);
    a.into_inner()
}

/// One bit set in a word.
pub fn one_flag(write: bool) -> u8
    ensures { result ≡ (if write then 0x04 else 0x00) }
{
    let mut a = BitArray::<u8, Lsb0>::zero();
    a.set(2, write);
    a.into_inner()
}

/// The last bit of an array.
pub fn last_of_sixteen(a: &BitArray<[u8; 2], Lsb0>) -> Option<bool>
    ensures { IsSome result }
{
    a.get(15)
}

/// The array has one bit for each of its words' bits, after a write too.
pub fn written<A: BitViewSized, O: BitOrder>(a: &mut BitArray<A, O>, i: usize) -> usize
    ensures { result ≡ A.Store.BITS * A.count }
{
    if i < a.len() {
        a.set(i, true);
    }
    a.iter().count()
}

/// Whether two vectors have the same words.
pub fn same_words<T: BitStore, O: BitOrder>(a: &BitVec<T, O>, b: &BitVec<T, O>) -> bool
    ensures { IsTrue result ↔ (a.now.words ≡ b.now.words) }
{
    equal_words(a.as_raw_slice(), b.as_raw_slice())
}

/// Whether two arrays have the same words.
pub fn same_arrays<A: BitWords, O: BitOrder>(a: &BitArray<A, O>, b: &BitArray<A, O>) -> bool
    ensures { IsTrue result ↔ (A.words a.now ≡ A.words b.now) }
{
    equal_words(a.as_raw_slice(), b.as_raw_slice())
}

/// A vector cut to its half.
pub fn halved<T: BitStore, O: BitOrder>(v: &mut BitVec<T, O>) -> usize
    ensures value { result ≡ length v.new.list }
{
    let half = v.len() / 2;
    v.set_len(half);
    half
}
