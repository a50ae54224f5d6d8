//! Bits put in and taken out.
use crate::common::{check, holds, of, ok};
use bit_containers::Lsb0;

#[test]
fn inserting_and_removing(rt: HostRuntime) {
    let mut v = of::<u8, Lsb0>(&rt, b"01001");
    check(&rt, !v.swap_remove(2));
    holds(&rt, &v, b"0110");
    ok(&rt, v.insert(2, false));
    holds(&rt, &v, b"01010");
    check(&rt, v.remove(3));
    holds(&rt, &v, b"0100");
}
