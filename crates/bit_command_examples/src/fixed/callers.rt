//! Callers that know what they get from the contracts alone: none of them has a proof file.
ghost use Rattle.std.specs.Prelude.{◌≡◌, ◌<◌, true, [], ◌∷◌, OnOk, length, map, not, set};
ghost use Rattle.bit_addressing.specs.Typed.{row};

use bit_addressing::{BitOrder, BitStore};
use bit_array::{BitArray, BitViewSized};
use bit_boxed::BitBox;
use bit_containers::BitVec;
use bit_fixed::{Bits, FixedCommand, Reply, Stop, run_fixed};

/// From one list the same commands have the same replies and leave one list, whatever the words, orders and
/// heads, where neither run stops.
pub fn alike<A: Bits, B: Bits>(
    a: &mut A,
    b: &mut B,
    commands: &[FixedCommand],
    first: &mut Vec<Reply>,
    second: &mut Vec<Reply>,
) -> Result<(), Stop>
    requires list { A.list a.old ≡ B.list b.old }
    requires replies { first.old.items ≡ second.old.items }
    ensures replies { OnOk result (first.new.items ≡ second.new.items) }
    ensures list { OnOk result (A.list a.new ≡ B.list b.new) }
{
    run_fixed(a, commands, first)?;
    run_fixed(b, commands, second)
}

/// What a run of no command at all leaves.
pub fn idle<B: Bits>(bits: &mut B, replies: &mut Vec<Reply>) -> bool
    ensures done { result ≡ true }
    ensures list { B.list bits.new ≡ B.list bits.old }
    ensures replies { replies.new.items ≡ replies.old.items }
{
    run_fixed(bits, &[], replies).is_ok()
}

/// Every bit of a container flipped, by its one call.
pub fn flipped<B: Bits>(bits: &mut B)
    ensures { B.list bits.new ≡ map not (B.list bits.old) }
{
    bits.flip_all();
}

/// What is written is read back, in one run.
pub fn read_back<B: Bits>(bits: &mut B, replies: &mut Vec<Reply>) -> Result<(), Stop>
    requires some { 3 < length (B.list bits.old) }
    requires none { replies.old.items ≡ [] }
    ensures replies { OnOk result (replies.new.items ≡ Reply.Done ∷ Reply.Bit true ∷ []) }
    ensures list { OnOk result (B.list bits.new ≡ set (B.list bits.old) 3 true) }
{
    run_fixed(
        bits,
        &[FixedCommand::Set(3, true), FixedCommand::Get(3)],
        replies,
    )
}

/// An array of eight bits and a box of any words reply alike, where their lists are equal.
pub fn array_and_box<O: BitOrder, T: BitStore, P: BitOrder>(
    a: &mut BitArray<u8, O>,
    b: &mut BitBox<T, P>,
    commands: &[FixedCommand],
    first: &mut Vec<Reply>,
    second: &mut Vec<Reply>,
) -> Result<(), Stop>
    requires list { row ⟦<u8 as BitStore>⟧ O.BitOrder (a.old ∷ []) ≡ b.old.list }
    requires replies { first.old.items ≡ second.old.items }
    ensures replies { OnOk result (first.new.items ≡ second.new.items) }
    ensures list { OnOk result (row ⟦<u8 as BitStore>⟧ O.BitOrder (a.new ∷ []) ≡ b.new.list) }
{
    run_fixed(a, commands, first)?;
    run_fixed(b, commands, second)
}

/// A run over a vector leaves its capacity.
pub fn with_the_same_room<T: BitStore, O: BitOrder>(
    bits: &mut BitVec<T, O>,
    commands: &[FixedCommand],
    replies: &mut Vec<Reply>,
) -> Result<(), Stop>
    ensures { bits.new.capacity ≡ bits.old.capacity }
{
    run_fixed(bits, commands, replies)
}
