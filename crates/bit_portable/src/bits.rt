//! The numbers of a block as words of bits.
ghost use Rattle.std.specs.Prelude.{◌≡◌, ◌<◌, ◌^◌, ℕ, length, slice_index};
ghost use Rattle.bit_slice.specs.BitSlice.{head_of, len_of, list_of};
ghost use Rattle.bit_slice.specs.Places.{ones_of};
ghost use Rattle.bit_blocks.specs.Numbers.{those};
ghost use Rattle.bit_portable.specs.Portable.{word_bit};

use bit_addressing::Lsb0;
use bit_containers::{BitSlice, BitVec};

// The words of 65536 bits.
pub(crate) fn words_of(bits: BitVec<u64, Lsb0>) -> Vec<u64>
    requires len { length bits.list ≡ 65536 }
    requires head { bits.head ≡ 0 }
    ensures len { length result.items ≡ 1024 }
    ensures numbers { those (word_bit result.items) 0 65536 ≡ ones_of bits.list }
{
    bits.into_vec()
}

// The words of 65536 bits that a block lends.
pub(crate) fn words_lent(bits: BitSlice<'_, u64, Lsb0>) -> &[u64]
    requires len { len_of bits ≡ 65536 }
    requires size { length (list_of bits) ≡ 65536 }
    requires head { head_of bits ≡ 0 }
    ensures len { length result.now ≡ 1024 }
    ensures numbers { those (word_bit result.now) 0 65536 ≡ ones_of (list_of bits.entry) }
{
    bits.as_raw_slice()
}

// Each word is below 2 ^ 64. Does nothing: a proof that has the words in a vector alone calls it.
pub(crate) fn prove_words(words: &[u64])
    ensures { (k : ℕ) → slice_index words.now k < 2 ^ 64 }
{}

// The bits of 1024 words.
pub(crate) fn bits_of(words: Vec<u64>) -> BitVec<u64, Lsb0>
    requires { length words.items ≡ 1024 }
    ensures len { length result.list ≡ 65536 }
    ensures numbers { ones_of result.list ≡ those (word_bit words.items) 0 65536 }
{
    BitVec::from_vec(words)
}
