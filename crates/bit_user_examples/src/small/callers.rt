//! Callers that need no proof of their own: each has one fact that a user of short lists relies on.
ghost use Rattle.std.specs.Prelude.{◌≡◌, ◌+◌, ◌*◌, ◌<◌, ◌≤◌, ◌++◌, ◌∷◌, [], OnOk, IsOk, true};
ghost use Rattle.std.specs.List.{insert};
ghost use Rattle.bit_addressing.specs.Typed.{row};
ghost use Rattle.bit_small.specs.SmallBits.{front};

use bit_addressing::BitOrder;
use bit_array::BitViewSized;
use bit_small::{Full, SmallBits};

/// Two bits are appended in turn.
pub fn two_more<A: BitViewSized, O: BitOrder>(
    bits: &mut SmallBits<A, O>,
    first: bool,
    second: bool,
) -> Result<(), Full>
    ensures { OnOk result (front (row A.Store.BitStore O.BitOrder (A.words bits.new.array)) bits.new.len
        ≡ (front (row A.Store.BitStore O.BitOrder (A.words bits.old.array)) bits.old.len ++ first ∷ []) ++ second ∷ []) }
{
    bits.push(first)?;
    bits.push(second)
}

/// Where there is room, a bit is appended.
pub fn appended_into_room<A: BitViewSized, O: BitOrder>(
    bits: &mut SmallBits<A, O>,
    bit: bool,
) -> Result<(), Full>
    requires { bits.old.len < A.Store.BITS * A.count }
    ensures { IsOk result }
{
    bits.push(bit)
}

/// A bit is inserted before all others.
pub fn put_first<A: BitViewSized, O: BitOrder>(
    bits: &mut SmallBits<A, O>,
    bit: bool,
) -> Result<(), Full>
    ensures { OnOk result (front (row A.Store.BitStore O.BitOrder (A.words bits.new.array)) bits.new.len
        ≡ insert (front (row A.Store.BitStore O.BitOrder (A.words bits.old.array)) bits.old.len) 0 bit) }
{
    bits.insert(0, bit)
}

/// A list is cut or filled up to four bits, which any word has.
pub fn four<O: BitOrder>(bits: &mut SmallBits<u8, O>) -> Result<(), Full>
    ensures fits { IsOk result }
    ensures len { OnOk result (bits.new.len ≡ 4) }
{
    bits.resize(4, false)
}
