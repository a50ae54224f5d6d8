//! Moves inside a vector.
use crate::common::{of_words, shows};
use bit_containers::{BitListMut, Lsb0};

#[test]
fn copying_and_aligning(rt: HostRuntime) {
    let mut v = of_words::<Lsb0>(&rt, &[0xb1, 0x6d]);
    assert!(rt; v.len() == 16);
    v.copy_within(1..12, 3);
    shows(&rt, &v, &[0xc1, 0x76]);
    let mut v = of_words::<Lsb0>(&rt, &[0xb1, 0x6d]);
    assert!(rt; v.len() == 16);
    v.copy_within(3..14, 1);
    shows(&rt, &v, &[0x6d, 0x6b]);
}
