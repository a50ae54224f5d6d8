//! Bits taken out, and put in place of others.
use crate::common::{check, holds, of, ok, shows};
use bit_containers::{BitList, BitOrder, BitSlice, BitStore, BitVec, Items, Lsb0, Msb0};
use std::process::Abort;

#[test]
fn drained(rt: HostRuntime) {
    let mut v = of::<u8, Lsb0>(&rt, b"01110");
    {
        let mut drain = v.drain(1..4);
        check(&rt, drain.next() == Some(true));
        check(&rt, drain.next_back() == Some(true));
        check(&rt, drain.size_hint() == (1, Some(1)));
    }
    holds(&rt, &v, b"00");
}

#[test]
fn drained_past_the_end(rt: HostRuntime) {
    let mut v = of::<u8, Msb0>(&rt, b"01110");
    {
        let mut drain = v.drain(1..4);
        check(&rt, drain.nth(5).is_none());
        check(&rt, drain.len() == 0);
    }
    holds(&rt, &v, b"00");
}

// What a drain has yet to give, as a view and as text.
#[test]
fn drain_seen(rt: HostRuntime) {
    let mut v = of::<u8, Msb0>(&rt, b"01110");
    let drain = v.drain(1..4);
    check(&rt, drain.as_bitslice().len() == 3);
    check(&rt, drain.as_slice().all());
    let text = ok(&rt, format!(in rt.alloc(); "{drain:?}"));
    check(&rt, text.as_str() == "Drain([1, 1, 1])");
}

#[test]
fn retained(rt: HostRuntime) {
    let mut v = of::<u8, Lsb0>(&rt, b"01001");
    v.retain(|i, _| i % 2 == 0);
    holds(&rt, &v, b"001");
}

#[test]
fn retained_by_bits(rt: HostRuntime) {
    let mut v = of::<u8, Lsb0>(&rt, b"001101010001010001010");
    check(&rt, v.pop() == Some(false));
    v.retain(|i, bit| *bit && i % 2 == 1);
    holds(&rt, &v, b"1111111");
}

// What is asked of each bit may count the bits.
#[test]
fn retained_by_a_count(rt: HostRuntime) {
    let mut v = of::<u8, Msb0>(&rt, b"1101");
    let mut count = 0u8;
    v.retain(|_, _| {
        count = count.saturating_add(1);
        count % 2 == 0
    });
    holds(&rt, &v, b"11");
    check(&rt, count == 4);
}

#[test]
fn split(rt: HostRuntime) {
    let mut v = of::<u8, Lsb0>(&rt, b"01001");
    let rest = ok(&rt, v.split_off(2));
    holds(&rt, &v, b"01");
    holds(&rt, &rest, b"001");
    shows(&rt, &v, &[0x12]);
    shows(&rt, &rest, &[0x04]);
    check(&rt, rest.head() == 0);
}

#[test]
fn spliced(rt: HostRuntime) {
    let mut v = ok(&rt, BitVec::<u8, Lsb0>::repeat(rt.alloc(), true, 24));
    ok(&rt, v.splice(4..8, [false; 8]).finish());
    holds(&rt, &v, b"1111000000001111111111111111");
    v.set_uninitialized(false);
    shows(&rt, &v, &[0x0f, 0xf0, 0xff, 0x0f]);
}

#[test]
fn spliced_to_the_end(rt: HostRuntime) {
    let mut v = of::<u8, Msb0>(&rt, b"01001");
    ok(&rt, v.splice(2.., None).finish());
    holds(&rt, &v, b"01");
}

#[test]
fn replaced_by_a_view(rt: HostRuntime) {
    let words = [0b1010_0000_u8];
    let view = BitSlice::<u8, Msb0>::from_slice(&words).get_range(0..3);
    let mut v = of::<u16, Lsb0>(&rt, b"0110");
    ok(&rt, v.replace_range(1..2, view));
    holds(&rt, &v, b"010110");
}

// What is replaced, taken from both ends first.
#[test]
fn spliced_from_both_ends(rt: HostRuntime) {
    let mut v = of::<u8, Lsb0>(&rt, b"01110");
    let mut splice = v.splice(1..4, ok(&rt, vec![in rt.alloc(); false, true, true, false]));
    check(&rt, splice.next() == Some(true));
    check(&rt, splice.next_back() == Some(true));
    check(&rt, splice.len() == 1);
    ok(&rt, splice.finish());
    holds(&rt, &v, b"001100");
}

// That the bits read so.
fn reads<T: BitStore, O: BitOrder>(
    rt: &(impl Abort + AllocGlobal),
    items: Items<'_, T, O>,
    want: &str,
) {
    let text = ok(rt, format!(in rt.alloc(); "{items:?}"));
    check(rt, text.as_str() == want);
}

// What is replaced, as text.
#[test]
fn replaced_bits_shown(rt: HostRuntime) {
    let mut v = of::<u8, Lsb0>(&rt, b"01101");
    let mut splice = v.splice(1..4, None);
    reads(&rt, splice.items(), "Items([1, 1, 0])");
    ok(&rt, splice.finish());
}

// A copy gives all of them, and the splice has none left.
#[test]
fn replaced_bits_copied(rt: HostRuntime) {
    let mut v = of::<u8, Msb0>(&rt, b"01101");
    let mut splice = v.splice(1..4, None);
    check(&rt, ok(&rt, splice.items().clone()).count() == 3);
    check(&rt, splice.next().is_none());
    ok(&rt, splice.finish());
}

// All that is replaced, taken first.
#[test]
fn spliced_after_all_was_taken(rt: HostRuntime) {
    let mut v = of::<u8, Msb0>(&rt, b"111111111110100100001");
    let mut splice = v.splice(2..10, Some(false));
    check(&rt, splice.items().filter(|bit| *bit).count() == 8);
    ok(&rt, splice.finish());
    holds(&rt, &v, b"11010100100001");
}

// Shrinking keeps the capacity.
#[test]
fn capacity_is_kept(rt: HostRuntime) {
    let mut v = ok(&rt, BitVec::<u8, Lsb0>::with_capacity(rt.alloc(), 80));
    for _ in 0..80 {
        ok(&rt, v.push(true));
    }
    check(&rt, v.capacity() >= 80);
    v.truncate(3);
    check(&rt, v.capacity() >= 80);
    v.clear();
    check(&rt, v.capacity() >= 80);
    check(&rt, v.is_empty());
}

/// Nothing is asked where there is no bit.
#[test]
fn retained_of_nothing(rt: HostRuntime) {
    let mut v = of::<u8, Msb0>(&rt, b"");
    let mut count = 0u8;
    v.retain(|_, _| {
        count = count.saturating_add(1);
        true
    });
    check(&rt, count == 0);
    check(&rt, v.is_empty());
}
