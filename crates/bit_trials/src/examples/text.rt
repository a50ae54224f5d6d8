//! The text of a vector.
use crate::common::{check, of, ok};
use crate::radix::{In, Radix};
use bit_containers::Lsb0;

#[test]
fn text(rt: HostRuntime) {
    let v = of::<u8, Lsb0>(&rt, b"11010");
    let text = ok(&rt, format!(in rt.alloc(); "{v}"));
    check(&rt, text.as_str() == "[1, 1, 0, 1, 0]");
}

#[test]
fn digits(rt: HostRuntime) {
    let v = of::<u8, Lsb0>(&rt, b"11010");
    let (y, o, x, u) = (
        In(&v, Radix::Binary),
        In(&v, Radix::Octal),
        In(&v, Radix::LowerHex),
        In(&v, Radix::UpperHex),
    );
    let text = ok(&rt, format!(in rt.alloc(); "{y} {o} {x} {u}"));
    check(&rt, text.as_str() == "[11010] [62] [d0] [D0]");
}
