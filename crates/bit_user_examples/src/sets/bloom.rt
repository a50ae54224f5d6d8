//! A Bloom filter: each call once, the rate at which hashes are found wrongly, and callers.
ghost use Rattle.std.specs.Prelude.{IfOk, IsTrue};
ghost use Rattle.bit_sets.specs.Bloom.{IsFound};

use crate::{check, ok};
use bit_sets::{BloomFilter, OtherShape};
use std::hash::{BuildHasher, BuildHasherDefault, FoldHasher, Hash};
use std::process::Abort;

// The next of numbers that look random.
fn mixed(number: u64) -> u64 {
    let first = (number ^ (number >> 30)).wrapping_mul(0xbf58_476d_1ce4_e5b9);
    let second = (first ^ (first >> 27)).wrapping_mul(0x94d0_49bb_1331_11eb);
    second ^ (second >> 31)
}

#[test]
fn a_filter(rt: HostRuntime) {
    let mut filter = ok(&rt, BloomFilter::new(rt.alloc(), 1000, 3));
    check(&rt, filter.bits() == 1000);
    check(&rt, filter.functions() == 3);
    filter.insert(mixed(1));
    check(&rt, filter.contains(mixed(1)));
    check(&rt, !filter.contains(mixed(2)));
    check(&rt, filter.count_ones() == 3);
    filter.clear();
    check(&rt, !filter.contains(mixed(1)));
}

#[test]
fn filters_united(rt: HostRuntime) {
    let mut filter = ok(&rt, BloomFilter::new(rt.alloc(), 1000, 3));
    let mut other = ok(&rt, BloomFilter::new(rt.alloc(), 1000, 3));
    filter.insert(mixed(1));
    other.insert(mixed(2));
    check(&rt, filter.union_with(&other).is_ok());
    check(&rt, filter.contains(mixed(1)));
    check(&rt, filter.contains(mixed(2)));
    let longer = ok(&rt, BloomFilter::new(rt.alloc(), 1001, 3));
    check(&rt, filter.union_with(&longer) == Err(OtherShape));
}

#[test]
fn the_rate(rt: HostRuntime) {
    let mut filter = ok(&rt, BloomFilter::with_rate(rt.alloc(), 1000, 7));
    check(&rt, filter.bits() == 10112);
    for number in 0..1000 {
        filter.insert(mixed(number));
    }
    let mut wrong = 0_usize;
    for number in 0..1000 {
        check(&rt, filter.contains(mixed(number)));
    }
    for number in 1000..21000 {
        if filter.contains(mixed(number)) {
            wrong = wrong.saturating_add(1);
        }
    }
    // One in 128 of 20000 is 156.
    check(&rt, wrong > 100);
    check(&rt, wrong < 220);
}

#[test]
fn items_by_their_hashes(rt: HostRuntime) {
    let hashes = BuildHasherDefault::<FoldHasher>::new();
    let mut filter = ok(&rt, BloomFilter::new(rt.alloc(), 1000, 3));
    filter.insert_hashed(&hashes, "seven");
    filter.insert_hashed(&hashes, 7_u64);
    check(&rt, filter.contains_hashed(&hashes, "seven"));
    check(&rt, filter.contains_hashed(&hashes, 7_u64));
    check(&rt, !filter.contains_hashed(&hashes, "eight"));
    check(&rt, filter.contains(hashes.hash_one(7_u64)));
}

/// What was inserted is found, whatever was inserted later.
pub fn found_later(filter: &mut BloomFilter, hash: u64, later: u64) -> bool
    ensures { IsTrue result }
{
    filter.insert(hash);
    filter.insert(later);
    filter.contains(hash)
}

/// What was inserted into one of two filters is found in their union.
pub fn found_in_union(
    filter: &mut BloomFilter,
    other: &BloomFilter,
    hash: u64,
) -> Result<bool, OtherShape>
    requires { IsFound other.now hash }
    ensures { IfOk result (λ found. IsTrue found) }
{
    filter.union_with(other)?;
    Ok(filter.contains(hash))
}

/// An item that was inserted is found by its hash, whatever was inserted later.
pub fn item_found_later<S: BuildHasher, T: Hash + Copy + Drop>(
    filter: &mut BloomFilter,
    hashes: &S,
    item: T,
    later: T,
) -> bool
    ensures { IsTrue result }
{
    filter.insert_hashed(hashes, item);
    filter.insert_hashed(hashes, later);
    filter.contains_hashed(hashes, item)
}
