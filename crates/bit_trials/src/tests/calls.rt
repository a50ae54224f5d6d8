//! Calls that the examples leave out, once each.
use crate::common::{check, holds, of, ok, shows};
use bit_containers::{BitList, BitListMut, BitOrder, BitSlice, BitStore, BitVec, Lsb0, Msb0};
use std::process::Abort;

// That a vector of these bits begins at head 0 and has these words.
fn pushed<T: BitStore, O: BitOrder>(rt: &(impl Abort + AllocGlobal), digits: &[u8], words: &[T]) {
    let v = of::<T, O>(rt, digits);
    check(rt, v.head() == 0);
    shows(rt, &v, words);
}

#[test]
fn each_word(rt: HostRuntime) {
    pushed::<u8, Msb0>(&rt, b"01", &[0x40]);
    pushed::<u16, Lsb0>(&rt, b"01000000000000001", &[0x0002, 0x0001]);
    pushed::<u32, Msb0>(&rt, b"1", &[0x8000_0000]);
    pushed::<u64, Lsb0>(&rt, b"001", &[4]);
    pushed::<usize, Msb0>(&rt, b"01", &[1 << 62]);
}

#[test]
fn calls_of_a_view(rt: HostRuntime) {
    let v = of::<u16, Msb0>(&rt, b"0110");
    check(&rt, [v.first(), v.last()] == [Some(false); 2]);
    check(&rt, v.count_ones() == 2);
    check(&rt, v.iter().next() == Some(false));
    check(&rt, v.as_bitslice().len() == 4);
    check(&rt, v.as_slice().len() == 4);
}

#[test]
fn views_that_write(rt: HostRuntime) {
    let mut v = of::<u16, Msb0>(&rt, b"0110");
    v.as_mut_bitslice().fill(true);
    shows(&rt, &v, &[0xf000]);
    v.as_mut_slice().fill(false);
    shows(&rt, &v, &[0x0000]);
    v.fill(true);
    shows(&rt, &v, &[0xf000]);
}

#[test]
fn given_by_reference(rt: HostRuntime) {
    let v = of::<u8, Lsb0>(&rt, b"1010100100");
    let mut ones = 0u8;
    for bit in &v {
        ones = ones.saturating_add(bit as u8);
    }
    check(&rt, ones == 4);
}

#[test]
fn handed_over(rt: HostRuntime) {
    let mut v = of::<u8, Lsb0>(&rt, b"0110010");
    let mut splice = v.splice(1..6, None);
    check(&rt, splice.next() == Some(true));
    let mut items = splice.items();
    check(&rt, [items.next(), items.next_back()] == [Some(true); 2]);
    check(
        &rt,
        [items.nth(1), items.next(), items.next_back(), splice.next()]
            == [Some(false), None, None, None],
    );
    ok(&rt, splice.finish());
    holds(&rt, &v, b"00");
}

#[test]
fn over_another(rt: HostRuntime) {
    let mut v = of::<u8, Lsb0>(&rt, b"10110");
    ok(&rt, v.clone_from(&BitVec::<u8, Lsb0>::new(rt.alloc())));
    holds(&rt, &v, b"");
}

#[test]
fn numbers_of_five_digits(rt: HostRuntime) {
    let mut v = BitVec::<u8, Msb0>::new(rt.alloc());
    ok(&rt, v.push_be(5, 1));
    ok(&rt, v.push_be(5, 31));
    ok(&rt, v.push_be(5, 0));
    shows(&rt, &v, &[0x0f, 0xc0]);
    check(&rt, v.load_be_at(5, 5) == 31);
    v.store_be_at(5, 5, 0);
    shows(&rt, &v, &[0x08, 0x00]);
}

// Words that become a vector, and are taken out of it, by the traits of conversions.
#[test]
fn words_converted(rt: HostRuntime) {
    let words = ok(&rt, Vec::from_slice(rt.alloc(), &[0x41_u8, 0x80]));
    let v = BitVec::<u8, Lsb0>::try_from(words);
    check(&rt, v.is_ok());
    let v = v.unwrap_or(BitVec::new(rt.alloc()));
    holds(&rt, &v, b"1000001000000001");
    let words: Vec<u8> = v.into();
    check(&rt, words.as_slice() == [0x41, 0x80].as_slice());
}

#[test]
fn told_apart(rt: HostRuntime) {
    let v = BitVec::<u8, Lsb0>::new(rt.alloc());
    let text = ok(&rt, format!(in rt.alloc(); "{v:?}"));
    check(
        &rt,
        text.as_str() == "BitVec { head: 0, bits: 0, capacity: 0 } []",
    );
}

#[test]
fn told_apart_at_a_head(rt: HostRuntime) {
    let words = [0x0b];
    let view = BitSlice::<u8, Lsb0>::from_slice(&words).get_range(1..4);
    let v = ok(&rt, BitVec::from_bitslice_headed(rt.alloc(), view));
    let room = v.capacity();
    let want = format!(in rt.alloc(); "BitVec {{ head: 1, bits: 3, capacity: {room} }} [1, 0, 1]");
    let text = ok(&rt, format!(in rt.alloc(); "{v:?}"));
    check(&rt, text.as_str() == ok(&rt, want).as_str());
}

#[test]
fn numbers_of_four_digits(rt: HostRuntime) {
    let mut v = of::<u8, Msb0>(&rt, b"01101001");
    let numbers = [v.load_be_at(1, 4), v.load_le_at(1, 4), v.load_be_at(8, 0)];
    check(&rt, numbers == [13, 11, 0]);
    let signed = [v.load_signed_be_at(1, 4), v.load_signed_le_at(1, 4)];
    check(&rt, signed == [-3, -5]);
    ok(&rt, v.push_le(3, 6));
    holds(&rt, &v, b"01101001011");
}

#[test]
fn numbers_of_four_digits_written(rt: HostRuntime) {
    let mut v = of::<u8, Msb0>(&rt, b"01101001");
    v.store_le_at(0, 4, 1);
    v.store_signed_be_at(4, 3, -2);
    holds(&rt, &v, b"10001101");
    v.store_signed_le_at(4, 3, -2);
    holds(&rt, &v, b"10000111");
}

#[test]
fn two_bits(rt: HostRuntime) {
    let mut v = of::<u8, Msb0>(&rt, b"01");
    check(&rt, v.capacity() >= 2);
    check(&rt, v.get(5) == None);
    v.set(0, true);
    holds(&rt, &v, b"11");
}

#[test]
fn numbers_of_three_digits(rt: HostRuntime) {
    let mut v = BitVec::<u8, Lsb0>::new(rt.alloc());
    ok(&rt, v.push_be(3, 5));
    ok(&rt, v.push_be(3, 3));
    ok(&rt, v.push_be(3, 6));
    shows(&rt, &v, &[0xf5, 0x00]);
    v.store_be_at(3, 3, 0);
    shows(&rt, &v, &[0xc5, 0x00]);
}

// Bits that are mapped.
#[test]
fn a_hundred_bits(rt: HostRuntime) {
    let v = ok(
        &rt,
        BitVec::<u16, Msb0>::from_bits(rt.alloc(), (0..100).map(|i| i % 3 == 0)),
    );
    check(&rt, v.count_ones() == 34);
    check(&rt, v.get(66) == Some(true));
    check(&rt, v.get(65) == Some(false));
}
