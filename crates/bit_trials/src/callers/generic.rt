//! Functions over a list of bits of any kind, and what callers at each kind know of them.
ghost use Rattle.std.specs.Prelude.{◌≡◌, ◌*◌, ◌↔◌, IfSome, IsTrue, count_by, false, length, replicate};
ghost use Rattle.bit_addressing.specs.Typed.{row as row_in};
ghost use Rattle.bit_slice.specs.BitSlice.{list_of};
ghost use Rattle.bit_slice.specs.BitSliceMut.{list_of as lent_list};
ghost use Rattle.bit_slice.specs.Operators.{or_of};
ghost use Rattle.bit_slice.specs.Pieces.{part};

use crate::common::{check, of, ok};
use bit_containers::array::{BitArray, BitViewSized, BitWords};
use bit_containers::boxed::BitBox;
use bit_containers::{
    BitList, BitListMut, BitOrder, BitSlice, BitSliceMut, BitStore, BitVec, Lsb0, Msb0,
};

// The number of true bits.
pub(crate) fn count<B: BitList>(bits: &B) -> usize
    ensures { result ≡ count_by (λ b. b) (B.list bits.now) }
{
    bits.count_ones()
}

// Where a pattern of bits begins.
pub(crate) fn find<B: BitList, C: BitList>(bits: &B, pattern: &C) -> Option<usize>
    ensures { IfSome result (λ i. part (C.len pattern.now) (B.list bits.now) i ≡ C.list pattern.now) }
{
    bits.find(pattern.as_bitslice())
}

// Whether two lists of bits, of one kind or of two, are equal.
pub(crate) fn equal<B: BitList, C: BitList>(left: &B, right: &C) -> bool
    ensures { IsTrue result ↔ (B.list left.now ≡ C.list right.now) }
{
    left.eq_bits(right.as_bitslice())
}

// Makes every bit false.
pub(crate) fn clear<B: BitListMut>(bits: &mut B)
    ensures list { B.list bits.new ≡ replicate (B.len bits.old) false }
    ensures len { B.len bits.new ≡ B.len bits.old }
{
    bits.fill(false);
}

// Sets each bit that is true in another list.
pub(crate) fn add<B: BitListMut, C: BitList>(bits: &mut B, other: &C)
    ensures { B.list bits.new ≡ or_of (B.list bits.old) (C.list other.now) }
{
    bits.or_bits(other.as_bitslice());
}

pub fn counted_in_a_view<T: BitStore, O: BitOrder>(view: BitSlice<'_, T, O>) -> usize
    ensures { result ≡ count_by (λ b. b) (list_of view.entry) }
{
    count(&view)
}

pub fn counted_in_an_array<A: BitWords, O: BitOrder>(a: &BitArray<A, O>) -> usize
    ensures { result ≡ count_by (λ b. b) (row_in A.Store.BitStore O.BitOrder (A.words a.now)) }
{
    count(a)
}

pub fn equal_of_two_kinds<T: BitStore, O: BitOrder, U: BitStore, P: BitOrder>(
    v: &BitVec<T, O>,
    b: &BitBox<U, P>,
) -> bool
    ensures { IsTrue result ↔ (v.now.list ≡ b.now.list) }
{
    equal(v, b)
}

pub fn cleared_vector<T: BitStore, O: BitOrder>(v: &mut BitVec<T, O>)
    ensures { v.new.list ≡ replicate (length v.old.list) false }
{
    clear(v);
}

pub fn cleared_box<T: BitStore, O: BitOrder>(b: &mut BitBox<T, O>)
    ensures { b.new.list ≡ replicate (length b.old.list) false }
{
    clear(b);
}

pub fn cleared_array<A: BitViewSized, O: BitOrder>(a: &mut BitArray<A, O>)
    ensures { row_in A.Store.BitStore O.BitOrder (A.words a.new) ≡ replicate (A.Store.BITS * A.count) false }
{
    clear(a);
}

pub fn added_to_a_view<T: BitStore, O: BitOrder, U: BitStore, P: BitOrder>(
    view: &mut BitSliceMut<'_, T, O>,
    v: &BitVec<U, P>,
)
    ensures { lent_list view.new ≡ or_of (lent_list view.old) v.now.list }
{
    add(view, v);
}

#[test]
fn lists_of_each_kind(rt: HostRuntime) {
    let v = of::<u8, Lsb0>(&rt, b"0110");
    let b: BitBox<u16, Msb0> = ok(&rt, BitBox::from_bits(rt.alloc(), v.iter()));
    let mut a = BitArray::<u8, Lsb0>::new(0x66);
    check(&rt, count(&v) == 2);
    check(&rt, counted_in_a_view(v.as_bitslice()) == 2);
    check(&rt, counted_in_an_array(&a) == 4);
    check(&rt, equal_of_two_kinds(&v, &b));
    check(&rt, find(&a, &v) == Some(0));
    added_to_a_view(&mut a.as_mut_bitslice(), &v);
    check(&rt, count(&a) == 4);
    cleared_array(&mut a);
    check(&rt, a.into_inner() == 0);
}

#[test]
fn cleared(rt: HostRuntime) {
    let mut v = of::<u8, Lsb0>(&rt, b"0110");
    let mut b: BitBox<u16, Msb0> = ok(&rt, BitBox::from_bits(rt.alloc(), v.iter()));
    cleared_vector(&mut v);
    cleared_box(&mut b);
    check(&rt, v.not_any());
    check(&rt, b.not_any());
}
