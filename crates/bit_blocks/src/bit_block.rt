//! A block that is kept as bits, changed without memory.
ghost use Rattle.std.specs.Prelude.{◌≡◌, ◌<◌, ◌+◌, ◌↔◌, Bool, IsTrue, false, length, true};
ghost use Rattle.bit_blocks.specs.Numbers.{Ascends, Combines};
ghost use Rattle.bit_blocks.specs.Operation.{made_by};

use crate::listed::LISTED;
use crate::mapped;
use crate::mapped::Bits;
use crate::operation::Operation;
use std::marker::Model;

/// A set of more than 4096 numbers below 65536 that is kept as bits: what [`Block::into_bits`] makes of a block. Changing
/// it takes no memory, so a caller can first turn all blocks that change into these, and then change every one of them.
///
/// In contracts it is the ascending list of its numbers.
///
/// ```rust
/// use bit_blocks::{Block, Operation};
///
/// let mut evens = Block::new(rt.alloc());
/// for half in 0..5000u16 {
///     evens.insert(2 * half)?;
/// }
/// if let Ok(mut bits) = evens.into_bits() {
///     bits.change(&[1, 2, 3], Operation::Union);
///     println!(&rt; "{} numbers", Block::from_bit_block(bits).len())?;
/// }
/// ```
///
/// ```text
/// 5002 numbers
/// ```
///
/// [`Block::into_bits`]: crate::Block::into_bits
#[derive(Drop)]
pub struct BitBlock {
    pub(crate) bits: Box<Bits>,
    // How many numbers there are.
    pub(crate) count: usize,
}

impl Model for BitBlock {
    ghost use Rattle.std.specs.Prelude.{◌≡◌, ℕ, List, length};
    ghost use Rattle.std.specs.Coded.{coded_list, coded_ℕ};
    ghost use Rattle.bit_slice.specs.Places.{ones_of};
    ghost use Rattle.bit_blocks.specs.Form.{AreMapped};

    ghost Value = { List ℕ };

    ghost coded = { coded_list coded_ℕ };

    ghost view = { λ b. ones_of b.bits.value.list };

    ghost invariant = { λ b. AreMapped b.bits.value.list × (b.count ≡ length (ones_of b.bits.value.list)) };
}

impl BitBlock {
    /// Whether more than 4096 numbers stay, even where all of a list are taken out.
    pub fn can_change(&self, numbers: &[u16]) -> bool
        ensures { IsTrue result ↔ (4096 + length numbers.now < length self.now) }
    {
        LISTED + numbers.len() < self.count
    }

    /// Puts numbers in, takes them out or flips them, as an operation says of those of the right set. Takes no memory.
    /// Requires that the numbers ascend, that the operation leaves each other number as it is, and `can_change`.
    pub fn change(&mut self, numbers: &[u16], operation: Operation)
        requires numbers { Ascends numbers.now }
        requires keeps { made_by operation true false ≡ true }
        requires many { 4096 + length numbers.now < length self.old }
        ensures members { Combines (made_by operation) self.old numbers.now self.new }
        ensures ascends { Ascends self.new }
        ensures many { 4096 < length self.new }
    {
        self.count = mapped::change_list(&mut self.bits, self.count, numbers, operation);
    }
}
