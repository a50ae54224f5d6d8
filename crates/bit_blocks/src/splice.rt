//! Parts of a vector replaced where they stand.
ghost use Rattle.std.specs.Prelude.{◌≡◌, ◌≤◌, ◌<◌, ◌++◌, ◌∷◌, OnErr, OnOk, drop, length, take};

use std::alloc::AllocError;

// How many items are taken out one by one at most: each moves all items after it, by one call for blocks of memory.
const FEW: usize = 12;

// Takes out the items from place `from` to `upto`.
pub(crate) fn with_none<T: Copy>(items: &mut Vec<T>, from: usize, upto: usize)
    requires ordered { from ≤ upto }
    requires within { upto ≤ length items.old.items }
    ensures { items.new.items ≡ take from items.old.items ++ drop upto items.old.items }
{
    if upto - from <= FEW {
        remove_few(items, from, upto);
    } else {
        close_gap(items, from, upto);
    }
}

// Like `with_none`, one item after another.
#[tactic(auto, using(crate::proofs::Spliced::one_more_out))]
fn remove_few<T: Copy>(items: &mut Vec<T>, from: usize, upto: usize)
    requires ordered { from ≤ upto }
    requires within { upto ≤ length items.old.items }
    ensures { items.new.items ≡ take from items.old.items ++ drop upto items.old.items }
{
    for _ in from..upto {
        items.remove(from);
    }
}

// Like `with_none`: each item after the gap is moved once.
fn close_gap<T: Copy>(items: &mut Vec<T>, from: usize, upto: usize)
    requires ordered { from ≤ upto }
    requires within { upto ≤ length items.old.items }
    ensures { items.new.items ≡ take from items.old.items ++ drop upto items.old.items }
{
    let gap = upto - from;
    let count = items.len();
    for i in upto..count {
        items[i - gap] = items[i];
    }
    items.truncate(count - gap);
}

// Puts an item in the place of those from place `from` to `upto`. Takes memory only where these are none. Where it is
// refused, the items are as they were.
#[tactic(auto, using(crate::proofs::Spliced::put_between, crate::proofs::Spliced::one_for_some))]
pub(crate) fn with_one<T: Copy>(
    items: &mut Vec<T>,
    from: usize,
    upto: usize,
    item: T,
) -> Result<(), AllocError>
    requires ordered { from ≤ upto }
    requires within { upto ≤ length items.old.items }
    ensures made { OnOk result (items.new.items ≡ take from items.old.items ++ item ∷ drop upto items.old.items) }
    ensures refused { OnErr result (items.new.items ≡ items.old.items) }
{
    if from == upto {
        items.insert(from, item)?;
        return Ok(());
    }
    items[from] = item;
    with_none(items, from + 1, upto);
    Ok(())
}

// Puts two items in the place of those from place `from` to `upto`, which are some. Takes memory only where they are one.
// Where it is refused, the items are as they were.
#[tactic(auto, using(crate::proofs::Spliced::two_for_some))]
pub(crate) fn with_two<T: Copy>(
    items: &mut Vec<T>,
    from: usize,
    upto: usize,
    item: T,
    next: T,
) -> Result<(), AllocError>
    requires some { from < upto }
    requires within { upto ≤ length items.old.items }
    ensures made { OnOk result (items.new.items ≡ take from items.old.items ++ item ∷ next ∷ drop upto items.old.items) }
    ensures refused { OnErr result (items.new.items ≡ items.old.items) }
{
    with_one(items, from + 1, upto, next)?;
    items[from] = item;
    Ok(())
}
