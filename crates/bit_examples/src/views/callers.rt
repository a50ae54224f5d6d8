//! Callers of the searches, indices, parts and changes of views.
ghost use Rattle.std.specs.Prelude.{◌≡◌, ℕ, ◌+◌, ◌-◌, ◌*◌, ◌/◌, ◌%◌, ◌<◌, ◌≤◌, ◌↔◌, ◌++◌, eqb, EachIndex, slice_range, IfOk, IfSome, IsTrue, Some, count_by, drop, false, length, map, not, replicate, reverse, set, slice_get, sum, take, true};
ghost use Rattle.std.specs.List.{range_with_len};
ghost use Rattle.std.specs.Option.{option_map};
ghost use Rattle.std.specs.String.{string_bytes};
ghost use Rattle.bit_addressing.specs.Binary.{value};
ghost use Rattle.bit_addressing.specs.Row.{binary, put};
ghost use Rattle.bit_addressing.specs.Text.{digit_of};
ghost use Rattle.bit_addressing.specs.Typed.{row};
ghost use Rattle.bit_addressing.specs.declared.length.TheConstants.{MAX_BITS};
ghost use Rattle.bit_slice.specs.Operators.{and_of, or_of};
ghost use Rattle.bit_slice.specs.BitRuns.{ranges_of, runs_of};
ghost use Rattle.bit_slice.specs.BitSlice.{head_of, len_of, list_of, words_of, IsPlaced};
ghost use Rattle.bit_slice.specs.BitSliceMut.{len_of as len_there, list_of as list_there};
ghost use Rattle.bit_slice.specs.Mapped.{chunk_number, from_chunk_numbers};
ghost use Rattle.bit_slice.specs.Patterns.{places_of_pattern};
ghost use Rattle.bit_slice.specs.Places.{ones_of, zeros_of};
ghost use Rattle.bit_slice.specs.Pieces.{chunk_count, chunks_of, part};

use bit_addressing::{BitOrder, BitStore};
use bit_slice::{BitList, BitListMut, BitRun, BitSlice, BitSliceMut};
use std::alloc::{AllocError, Global};
use std::ops::Range;

pub fn bit_at_first<T: BitStore, O: BitOrder>(view: BitSlice<'_, T, O>) -> Option<bool>
    ensures { IfSome result (λ b. b ≡ true) }
{
    match view.first_one() {
        Some(i) => view.get(i),
        None => None,
    }
}

pub fn before_first<T: BitStore, O: BitOrder>(view: BitSlice<'_, T, O>, j: usize) -> Option<bool>
    ensures { IfSome result (λ b. b ≡ false) }
{
    match view.first_one() {
        Some(i) => if j < i { view.get(j) } else { None },
        None => view.get(j),
    }
}

pub fn none_where_none<T: BitStore, O: BitOrder>(view: BitSlice<'_, T, O>) -> bool
    ensures { IsTrue result ↔ EachIndex (list_of view.entry) (λ i. slice_get (list_of view.entry) i ≡ Some false) }
{
    view.first_one().is_none()
}

pub fn bit_at_next<T: BitStore, O: BitOrder>(view: BitSlice<'_, T, O>, from: usize) -> bool
    ensures { IsTrue result }
{
    match view.next_zero(from) {
        Some(i) => i >= from && !view[i],
        None => true,
    }
}

pub fn bit_at_prev<T: BitStore, O: BitOrder>(view: BitSlice<'_, T, O>, before: usize) -> bool
    ensures { IsTrue result }
{
    match view.prev_one(before) {
        Some(i) => i < before && view[i],
        None => true,
    }
}

pub fn after_prev<T: BitStore, O: BitOrder>(
    view: BitSlice<'_, T, O>,
    before: usize,
    j: usize,
) -> Option<bool>
    requires { j < before }
    ensures { IfSome result (λ b. b ≡ true) }
{
    match view.prev_zero(before) {
        Some(i) => if i < j { view.get(j) } else { None },
        None => view.get(j),
    }
}

pub fn ones_before_nth<T: BitStore, O: BitOrder>(
    view: BitSlice<'_, T, O>,
    k: usize,
) -> Option<usize>
    ensures { IfSome result (λ count. count ≡ k) }
{
    match view.nth_one(k) {
        Some(i) => Some(view.count_ones_in(..i)),
        None => None,
    }
}

pub fn more_than<T: BitStore, O: BitOrder>(view: BitSlice<'_, T, O>, k: usize) -> bool
    ensures { IsTrue result }
{
    view.nth_zero(k).is_some() == (k < view.count_zeros())
}

pub fn some_in_half<T: BitStore, O: BitOrder>(view: BitSlice<'_, T, O>) -> bool
    ensures { IsTrue result }
{
    let half = view.len() / 2;
    view.any_in(half..) == view.get_range(half..).any() && view.all_in(..0)
}

pub fn listed_runs<T: BitStore, O: BitOrder>(
    alloc: Global,
    view: BitSlice<'_, T, O>,
) -> Result<Vec<BitRun>, AllocError>
    ensures { IfOk result (λ all. all.items ≡ runs_of (list_of view.entry)) }
{
    view.iter_runs().collect::<Vec<BitRun>>(alloc)
}

pub fn runs_by_loop<T: BitStore, O: BitOrder>(view: BitSlice<'_, T, O>) -> usize
    ensures { result ≡ length (runs_of (list_of view.entry)) }
{
    view.iter_runs().count()
}

pub fn in_next_run<T: BitStore, O: BitOrder>(
    view: BitSlice<'_, T, O>,
    n: usize,
    from: usize,
) -> Option<bool>
    requires { 0 < n }
    ensures { IfSome result (λ b. b ≡ false) }
{
    match view.next_run(n, false, from) {
        Some(i) => view.get(i + (n - 1)),
        None => None,
    }
}

pub fn after_last<T: BitStore, O: BitOrder>(view: BitSlice<'_, T, O>, j: usize) -> Option<bool>
    ensures { IfSome result (λ b. b ≡ false) }
{
    match view.last_one() {
        Some(i) => if i < j { view.get(j) } else { None },
        None => view.get(j),
    }
}

pub fn in_the_leading_run<T: BitStore, O: BitOrder>(
    view: BitSlice<'_, T, O>,
    j: usize,
) -> Option<bool>
    ensures { IfSome result (λ b. b ≡ true) }
{
    if j < view.leading_ones() {
        view.get(j)
    } else {
        None
    }
}

pub fn same_count<T: BitStore, O: BitOrder>(view: BitSlice<'_, T, O>) -> bool
    ensures { IsTrue result }
{
    view.iter_ones().count() == view.count_ones()
}

pub fn same_count_of_zeros<T: BitStore, O: BitOrder>(view: BitSlice<'_, T, O>) -> bool
    ensures { IsTrue result }
{
    view.iter_zeros().len() == view.count_zeros()
}

pub fn listed<T: BitStore, O: BitOrder>(
    alloc: Global,
    view: BitSlice<'_, T, O>,
) -> Result<Vec<usize>, AllocError>
    ensures { IfOk result (λ all. all.items ≡ ones_of (list_of view.entry)) }
{
    view.iter_ones().collect::<Vec<usize>>(alloc)
}

pub fn listed_backward<T: BitStore, O: BitOrder>(
    alloc: Global,
    view: BitSlice<'_, T, O>,
) -> Result<Vec<usize>, AllocError>
    ensures { IfOk result (λ all. all.items ≡ reverse (zeros_of (list_of view.entry))) }
{
    view.iter_zeros().rev().collect::<Vec<usize>>(alloc)
}

pub fn each_is_set<T: BitStore, O: BitOrder>(view: BitSlice<'_, T, O>) -> bool
    ensures { IsTrue result }
{
    view.iter_ones().all(|i| view.get(i) == Some(true))
}

pub fn count_by_loop<T: BitStore, O: BitOrder>(view: BitSlice<'_, T, O>) -> usize
    ensures { result ≡ count_by (λ b. b) (list_of view.entry) }
{
    let mut count = 0usize;
    for _ in view.iter_ones() {
        count += 1;
    }
    count
}

pub fn filled_within<T: BitStore, O: BitOrder>(
    view: &mut BitSliceMut<'_, T, O>,
    from: usize,
    upto: usize,
    j: usize,
) -> Option<bool>
    requires begins { from ≤ j }
    requires ends { j < upto }
    requires inside { upto ≤ len_there view.old }
    ensures { result ≡ Some true }
{
    view.fill_range(from..upto, true);
    view.get(j)
}

pub fn kept_before<T: BitStore, O: BitOrder>(
    view: &mut BitSliceMut<'_, T, O>,
    from: usize,
    j: usize,
) -> Option<bool>
    requires inside { from ≤ len_there view.old }
    requires outside { j < from }
    ensures { result ≡ slice_get (list_there view.old) j }
{
    view.flip_range(from..);
    view.get(j)
}

pub fn flipped_there<T: BitStore, O: BitOrder>(
    view: &mut BitSliceMut<'_, T, O>,
    n: usize,
    j: usize,
) -> Option<bool>
    requires inside { n ≤ len_there view.old }
    requires here { j < n }
    requires set { slice_get (list_there view.old) j ≡ Some true }
    ensures { result ≡ Some false }
{
    view.flip_range(..n);
    view.get(j)
}

pub fn copied_there<T: BitStore, O: BitOrder, U: BitStore, P: BitOrder>(
    view: &mut BitSliceMut<'_, T, O>,
    from: usize,
    source: BitSlice<'_, U, P>,
)
    requires { from + len_of source ≤ len_there view.old }
    ensures { list_there view.new ≡ put (list_there view.old) from (list_of source.entry) }
{
    let end = from + source.len();
    view.copy_into(from..end, source);
}

pub fn cleared<T: BitStore, O: BitOrder, U: BitStore, P: BitOrder>(
    view: &mut BitSliceMut<'_, T, O>,
    other: BitSlice<'_, U, P>,
    j: usize,
) -> Option<bool>
    requires inside { j < len_there view.old }
    requires set { slice_get (list_of other) j ≡ Some true }
    ensures { result ≡ Some false }
{
    view.and_not_bits(other);
    view.get(j)
}

pub fn reversed_twice<T: BitStore, O: BitOrder>(view: &mut BitSliceMut<'_, T, O>)
    ensures { list_there view.new ≡ list_there view.old }
{
    view.reverse();
    view.reverse();
}

pub fn flipped_twice<T: BitStore, O: BitOrder>(view: &mut BitSliceMut<'_, T, O>)
    ensures { list_there view.new ≡ map not (map not (list_there view.old)) }
{
    view.flip_all();
    view.flip_all();
}

pub fn exchanged<T: BitStore, O: BitOrder, U: BitStore, P: BitOrder>(
    left: &mut BitSliceMut<'_, T, O>,
    right: &mut BitSliceMut<'_, U, P>,
)
    requires { len_there left.old ≡ len_there right.old }
    ensures left { list_there left.new ≡ map not (list_there right.old) }
    ensures right { list_there right.new ≡ list_there left.old }
{
    left.swap_with(right);
    left.flip_all();
}

pub fn shifted<T: BitStore, O: BitOrder>(view: &mut BitSliceMut<'_, T, O>, by: usize)
    requires { by ≤ len_there view.old }
    ensures { list_there view.new ≡ map not (drop by (list_there view.old) ++ replicate by false) }
{
    view.shift_left(by);
    view.flip_all();
}

pub fn halves<T: BitStore, O: BitOrder>(view: BitSlice<'_, T, O>, mid: usize) -> bool
    requires { mid ≤ len_of view }
    ensures { IsTrue result }
{
    let (front, back) = view.split_at(mid);
    front.len() + back.len() == view.len() && front.eq_bits(view.get_range(0..mid))
}

pub fn first_is_split_off<T: BitStore, O: BitOrder>(view: BitSlice<'_, T, O>) -> bool
    ensures { IsTrue result }
{
    match view.split_first() {
        Some((bit, _)) => view.get(0) == Some(bit),
        None => view.is_empty(),
    }
}

pub fn starts_with_itself<T: BitStore, O: BitOrder>(view: BitSlice<'_, T, O>) -> bool
    ensures { IsTrue result }
{
    view.starts_with(view) && view.ends_with(view)
}

pub fn how_many_chunks<T: BitStore, O: BitOrder>(view: BitSlice<'_, T, O>, n: usize) -> usize
    requires { 0 < n }
    ensures { result ≡ chunk_count (len_of view.entry) n }
{
    view.chunks(n).count()
}

pub fn counts_of_chunks<T: BitStore, O: BitOrder>(
    alloc: Global,
    view: BitSlice<'_, T, O>,
    n: usize,
) -> Result<Vec<usize>, AllocError>
    requires { 0 < n }
    ensures { IfOk result (λ all. all.items ≡ map (λ c. count_by (λ b. b) c) (chunks_of n (list_of view.entry))) }
{
    view.chunks(n)
        .map(|c| c.count_ones())
        .collect::<Vec<usize>>(alloc)
}

pub fn how_many_windows<T: BitStore, O: BitOrder>(view: BitSlice<'_, T, O>, n: usize) -> usize
    requires { 0 < n }
    ensures { result ≡ len_of view.entry + 1 - n }
{
    view.windows(n).len()
}

pub fn second_chunk<'a, T: BitStore, O: BitOrder>(view: BitSlice<'a, T, O>) -> BitSlice<'a, T, O>
    requires { 8 < len_of view }
    ensures { list_of result ≡ take 8 (drop 8 (list_of view.entry)) }
{
    view.chunk(8, 1)
}

pub fn set_in_both<T: BitStore, O: BitOrder, U: BitStore, P: BitOrder>(
    view: BitSlice<'_, T, O>,
    other: BitSlice<'_, U, P>,
    j: usize,
) -> Option<bool>
    requires { slice_get (list_of view) j ≡ Some true }
    ensures { IfSome result (λ b. b ≡ true) }
{
    if view.is_subset(other) {
        other.get(j)
    } else {
        None
    }
}

pub fn subset_is_kept<T: BitStore, O: BitOrder, U: BitStore, P: BitOrder>(
    view: &mut BitSliceMut<'_, T, O>,
    other: BitSlice<'_, U, P>,
)
    ensures { list_there view.new ≡ list_there view.old }
{
    if view.as_bitslice().is_subset(other) {
        view.and_bits(other);
    }
}

pub fn counted_without_a_copy<T: BitStore, O: BitOrder, U: BitStore, P: BitOrder>(
    view: &mut BitSliceMut<'_, T, O>,
    other: BitSlice<'_, U, P>,
) -> bool
    ensures { IsTrue result }
{
    let count = view.as_bitslice().count_and(other);
    view.and_bits(other);
    view.count_ones() == count
}

pub fn differing<T: BitStore, O: BitOrder, U: BitStore, P: BitOrder>(
    view: BitSlice<'_, T, O>,
    other: BitSlice<'_, U, P>,
) -> bool
    ensures { IsTrue result }
{
    view.count_xor(other) + view.count_and(other) == view.count_or(other)
}

pub fn disjoint_or_not<T: BitStore, O: BitOrder, U: BitStore, P: BitOrder>(
    view: BitSlice<'_, T, O>,
    other: BitSlice<'_, U, P>,
) -> bool
    ensures { IsTrue result }
{
    view.is_disjoint(other) != view.intersects(other)
}

pub fn equal_where_equal<T: BitStore, O: BitOrder>(
    left: BitSlice<'_, T, O>,
    right: BitSlice<'_, T, O>,
) -> bool
    ensures { IsTrue result ↔ (list_of left.entry ≡ list_of right.entry) }
{
    left == right
}

pub fn counted_by_for<T: BitStore, O: BitOrder>(view: BitSlice<'_, T, O>) -> usize
    ensures { result ≡ length (list_of view.entry) }
{
    let mut count = 0usize;
    for _ in view {
        count += 1;
    }
    count
}

pub fn found_part<T: BitStore, O: BitOrder, U: BitStore, P: BitOrder>(
    view: BitSlice<'_, T, O>,
    other: BitSlice<'_, U, P>,
) -> bool
    ensures { IsTrue result }
{
    match view.find(other) {
        Some(i) => view.get_range(i..i + other.len()).eq_bits(other),
        None => true,
    }
}

pub fn found_later<T: BitStore, O: BitOrder, U: BitStore, P: BitOrder>(
    view: BitSlice<'_, T, O>,
    from: usize,
    other: BitSlice<'_, U, P>,
) -> bool
    ensures { IsTrue result }
{
    match view.find_from(from, other) {
        Some(i) => from <= i && view.get_range(i..i + other.len()).eq_bits(other),
        None => true,
    }
}

pub fn without_front<T: BitStore, O: BitOrder, U: BitStore, P: BitOrder>(
    view: BitSlice<'_, T, O>,
    other: BitSlice<'_, U, P>,
) -> usize
    ensures { result ≤ len_of view.entry }
{
    match view.strip_prefix(other) {
        Some(rest) => rest.len(),
        None => view.len(),
    }
}

pub fn stripped_where_it_ends<T: BitStore, O: BitOrder, U: BitStore, P: BitOrder>(
    view: BitSlice<'_, T, O>,
    other: BitSlice<'_, U, P>,
) -> bool
    ensures { IsTrue result }
{
    view.strip_suffix(other).is_some() == view.ends_with(other)
}

pub fn number_of_field<T: BitStore, O: BitOrder>(view: BitSlice<'_, T, O>) -> u64
    requires { 12 ≤ len_of view }
    ensures { result ≡ value (slice_range (list_of view.entry) 4 12) }
{
    view.get_range(4..12).load_be()
}

pub fn stored_then_loaded<T: BitStore, O: BitOrder>(view: &mut BitSliceMut<'_, T, O>, n: u64) -> u64
    requires { len_there view.old ≡ 16 }
    ensures list { list_there view.new ≡ binary 16 n }
    ensures same { binary 16 result ≡ binary 16 n }
{
    view.store_be(n);
    view.as_bitslice().load_be()
}

pub fn front_joined_to_back<T: BitStore, O: BitOrder>(view: &mut BitSliceMut<'_, T, O>, n: usize)
    requires { n + n ≤ len_there view.old }
    ensures { list_there view.new
        ≡ put (list_there view.old) n
        (or_of (slice_range (list_there view.old) n (n + n)) (slice_range (list_there view.old) 0 n)) }
{
    view.or_within(0..n, n);
}

pub fn rotated_by_none<T: BitStore, O: BitOrder>(view: &mut BitSliceMut<'_, T, O>)
    ensures { list_there view.new ≡ list_there view.old }
{
    view.rotate_left(0);
}

pub fn exact_chunks<T: BitStore, O: BitOrder>(view: BitSlice<'_, T, O>, n: usize) -> usize
    requires { 0 < n }
    ensures { result ≡ len_of view.entry / n }
{
    view.chunks_exact(n).len()
}

/// The number of bits left after all whole chunks, however many of them were given.
pub fn rest_after_two<T: BitStore, O: BitOrder>(view: BitSlice<'_, T, O>, n: usize) -> usize
    requires { 0 < n }
    ensures { result ≡ length (drop (len_of view.entry / n * n) (list_of view.entry)) }
{
    let mut chunks = view.chunks_exact(n);
    let _first = chunks.next();
    let _last = chunks.next_back();
    chunks.remainder().len()
}

/// The bits that are left when all whole chunks were given, one after another.
pub fn rest_after_all<'a, T: BitStore, O: BitOrder>(
    view: BitSlice<'a, T, O>,
    n: usize,
) -> BitSlice<'a, T, O>
    requires { 0 < n }
    ensures { list_of result ≡ drop (len_of view.entry / n * n) (list_of view.entry) }
{
    let mut chunks = view.chunks_exact(n);
    while chunks.next().is_some() {}
    chunks.remainder()
}

/// The second chunk begins one chunk after the view's head, in the view's own words.
pub fn second_given<'a, T: BitStore, O: BitOrder>(
    view: BitSlice<'a, T, O>,
    n: usize,
) -> Option<BitSlice<'a, T, O>>
    requires { 0 < n }
    ensures { IfSome result (IsPlaced (words_of view.entry) (head_of view.entry) (1 * n)) }
{
    let mut chunks = view.chunks(n);
    if chunks.next().is_none() {
        return None;
    }
    chunks.next()
}

/// Each bit is that of a function of its index.
#[tactic(auto, using(bit_slice::proofs::Called::filled_with, bit_slice::proofs::Parts::shown_length))]
pub fn striped<T: BitStore, O: BitOrder>(view: &mut BitSliceMut<'_, T, O>)
    ensures { list_there view.new ≡ map (λ i. eqb (i % 2) 0) (range_with_len 0 (length (list_there view.new))) }
{
    view.fill_with(|i| i % 2 == 0);
}

pub fn chosen<T: BitStore, O: BitOrder, U: BitStore, P: BitOrder>(
    view: &mut BitSliceMut<'_, T, O>,
    mask: BitSlice<'_, U, P>,
    source: BitSlice<'_, T, O>,
    i: usize,
)
    requires inside { i < len_there view.old }
    requires there { i < len_of source }
    requires one { slice_get (list_of mask) i ≡ Some true }
    ensures { slice_get (list_there view.new) i ≡ slice_get (list_of source.entry) i }
{
    view.copy_where(mask, source);
}

/// A one of both views is a one of what is written.
pub fn in_both<T: BitStore, O: BitOrder, U: BitStore, P: BitOrder>(
    view: &mut BitSliceMut<'_, T, O>,
    left: BitSlice<'_, U, P>,
    right: BitSlice<'_, T, O>,
    i: usize,
)
    requires left { len_of left ≡ len_there view.old }
    requires right { len_of right ≡ len_there view.old }
    requires here { slice_get (list_of left) i ≡ Some true }
    requires there { slice_get (list_of right) i ≡ Some true }
    ensures { slice_get (list_there view.new) i ≡ Some true }
{
    view.assign_and(left, right);
}

/// Which bits are true together with the one after them.
pub fn true_twice<T: BitStore, O: BitOrder>(
    view: &mut BitSliceMut<'_, T, O>,
    bits: BitSlice<'_, T, O>,
)
    requires { len_of bits ≡ len_there view.old + 1 }
    ensures { list_there view.new ≡ and_of (slice_range (list_of bits.entry) 0 (len_there view.old))
        (slice_range (list_of bits.entry) 1 (len_of bits.entry)) }
{
    let n = view.len();
    view.assign_and(bits.get_range(..n), bits.get_range(1..));
}

/// What a mask leaves out is as before.
pub fn left_out<T: BitStore, O: BitOrder, U: BitStore, P: BitOrder>(
    view: &mut BitSliceMut<'_, T, O>,
    mask: BitSlice<'_, U, P>,
    source: BitSlice<'_, T, O>,
    i: usize,
)
    requires { slice_get (list_of mask) i ≡ Some false }
    ensures { slice_get (list_there view.new) i ≡ slice_get (list_there view.old) i }
{
    view.deposit(mask, source);
}

/// Before the first common one, no index is in both.
pub fn first_common<T: BitStore, O: BitOrder, U: BitStore, P: BitOrder>(
    left: BitSlice<'_, T, O>,
    right: BitSlice<'_, U, P>,
) -> Option<usize>
    ensures found { IfSome result (λ i. slice_get (and_of (list_of left.entry) (list_of right.entry)) i ≡ Some true) }
    ensures before { IfSome result
        (λ i. (j : ℕ) → j < i → slice_get (and_of (list_of left.entry) (list_of right.entry)) j ≡ Some false) }
{
    left.next_and(right, 0)
}

/// A run at a multiple has all its bits.
pub fn free_at_multiple<T: BitStore, O: BitOrder>(
    view: BitSlice<'_, T, O>,
    n: usize,
) -> Option<bool>
    requires { 0 < n }
    ensures { IfSome result (λ b. b ≡ false) }
{
    match view.next_aligned_run(n, 8, false, 0) {
        Some(i) => view.get(i),
        None => None,
    }
}

pub fn masked_in_place<T: BitStore, O: BitOrder>(
    view: &mut BitSliceMut<'_, T, O>,
    mask: BitSlice<'_, u8, O>,
)
    ensures list { list_there view.new ≡ and_of (list_there view.old) (list_of mask.entry) }
    ensures len { len_there view.new ≡ len_there view.old }
{
    *view &= mask;
}

/// Where a pattern begins last, it stands.
pub fn last_part<T: BitStore, O: BitOrder, U: BitStore, P: BitOrder>(
    view: BitSlice<'_, T, O>,
    pattern: BitSlice<'_, U, P>,
) -> Option<usize>
    ensures there { IfSome result (λ i. part (len_of pattern.entry) (list_of view.entry) i ≡ list_of pattern.entry) }
    ensures last { IfSome result (λ i. part (len_of pattern.entry) (list_of view.entry) (i + 1) ≡ list_of pattern.entry
        → len_of view.entry < i + 1 + len_of pattern.entry) }
{
    view.rfind(pattern)
}

pub fn places_collected<B: BitList, U: BitStore, P: BitOrder>(
    bits: &B,
    pattern: BitSlice<'_, U, P>,
    alloc: Global,
) -> Result<Vec<usize>, AllocError>
    ensures { IfOk result (λ places. places.items ≡ places_of_pattern (list_of pattern.entry) (B.list bits.now)) }
{
    bits.find_all(pattern).collect(alloc)
}

/// Each nibble becomes half of what it was.
#[tactic(auto, using(bit_slice::proofs::Called::filled_with))]
pub fn halved<T: BitStore, O: BitOrder>(view: &mut BitSliceMut<'_, T, O>)
    ensures { list_there view.new ≡ from_chunk_numbers 4 (len_there view.old)
        (map (λ k. chunk_number 4 (list_there view.old) k / 2) (range_with_len 0 (chunk_count (len_there view.old) 4))) }
{
    view.map_chunks(4, |n| n / 2);
}

pub fn digits_written<B: BitList>(bits: &B, alloc: Global) -> Result<String, AllocError>
    ensures { IfOk result (λ text. string_bytes text ≡ map digit_of (B.list bits.now)) }
{
    bits.to_text(alloc)
}

pub fn ranges_collected<B: BitList>(
    bits: &B,
    alloc: Global,
) -> Result<Vec<Range<usize>>, AllocError>
    ensures { IfOk result (λ ranges. ranges.items ≡ ranges_of true (B.list bits.now)) }
{
    bits.iter_ranges(true).collect(alloc)
}

/// The first part begins at the front, and the next one after the bit that was taken out.
pub fn first_part<T: BitStore, O: BitOrder>(view: BitSlice<'_, T, O>) -> Option<BitSlice<'_, T, O>>
    ensures { IfSome result (λ part. list_of part ≡ slice_range (list_of view.entry) 0 (0 + len_of part)) }
{
    view.split(|_, bit| bit).next()
}

// Sets bit 4, clears bit 5, and returns what bit 4 was.
pub fn set_two<T: BitStore, O: BitOrder>(words: &mut [T]) -> bool
    requires some { 5 < T.BITS * length words.old }
    requires fits { T.BITS * length words.old ≤ MAX_BITS }
    ensures read { slice_get (row T.BitStore O.BitOrder words.old) 4 ≡ Some result }
    ensures words { row T.BitStore O.BitOrder words.new
        ≡ set (set (row T.BitStore O.BitOrder words.old) 4 true) 5 false }
{
    let mut view = BitSliceMut::<T, O>::from_slice_mut(words);
    let old = view.replace(4, true);
    view.set(5, false);
    old
}
