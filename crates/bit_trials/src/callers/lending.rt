//! Callers that write through what is lent, and know the lender after.
ghost use Rattle.std.specs.Prelude.{◌≡◌, ◌<◌, length};

use bit_boxed::{BitBox, IntoIter};
use bit_containers::{BitListMut, BitOrder, BitStore};

/// Whatever is written through the view of a box, its head and its lengths stay.
pub fn through_the_box<T: BitStore, O: BitOrder>(b: &mut BitBox<T, O>)
    ensures head { b.new.head ≡ b.old.head }
    ensures len { length b.new.list ≡ length b.old.list }
    ensures size { length b.new.words ≡ length b.old.words }
{
    b.as_mut_bitslice().fill(true);
}

/// Whatever is written through the view of what an iterator has left, as many bits are left.
pub fn through_the_iterator<T: BitStore, O: BitOrder>(bits: &mut IntoIter<T, O>)
    ensures head { bits.new.head ≡ bits.old.head }
    ensures len { length bits.new.list ≡ length bits.old.list }
    ensures size { length bits.new.words ≡ length bits.old.words }
{
    bits.as_mut_bitslice().fill(true);
}
