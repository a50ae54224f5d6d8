//! Bits of words in a row: read, written, filled, flipped, copied, combined, counted and compared, and
//! words grown or cut to a number of bits.
//!
//! Every container stands on these functions. Each says what becomes of the row, the list of all bits
//! of its words, and each takes a place in the row as a number of bits from its beginning. Those that
//! end in `_in_vec` work on the words of a vector.
#![tactic(auto)]

mod chunks;
mod combined;
mod copies;
mod equal;
mod growth;
mod narrow;
mod pairs;
mod pushes;
mod searches;
mod single;
mod vectors;

pub use chunks::{read_binary, read_block, read_chunk, write_binary, write_chunk};
pub use combined::{And, BitOperator, Or, Xor, combine_bits};
pub use copies::copy_bits;
pub use equal::equal_words;
pub use growth::{
    append_run_in_vec, cut_words_in_vec, make_room_in_vec, push_bit_in_vec, resize_words_in_vec,
};
pub use pairs::{count_blocks, false_blocks, read_pair};
pub use pushes::{append_block_in_vec, push_binary_in_vec, push_chunk_in_vec};
pub use searches::{count_bits, differ_at, find_bit};
pub use single::{fill_bits, flip_words, prove_exact_words, read_bit, swap_bits, write_bit};
pub use vectors::{
    copy_bits_in_vec, fill_outside_in_vec, insert_bit_in_vec, move_bits_in_vec, remove_bit_in_vec,
    write_bit_in_vec, write_chunk_in_vec,
};
