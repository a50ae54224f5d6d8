//! Lists of bits written down: of a vector, a box or an array.

/// A truth value from a digit: `0` and `1`, or an expression of a truth value.
#[macro_export]
macro_rules! bit {
    (0) => { false };
    (1) => { true };
    ($bit:expr) => { $bit };
}

/// A vector of the bits that are written, or of one bit, `n` times: `bits![alloc; u8, Msb0; 1; n]?`. A bit is a digit,
/// `true`, `false`, a variable, or an expression in parentheses. Refused like `from_bits`, and with `; n` like `repeat`.
///
/// ```text
/// bits![alloc; u8, Msb0; 0, 1, 1, 0]? holds 0110
/// ```
#[macro_export]
macro_rules! bits {
    ($alloc:expr; $store:ty, $order:ty; $bit:tt; $n:expr) => {
        $crate::BitVec::<$store, $order>::repeat($alloc, $crate::bit!($bit), $n)
    };
    ($alloc:expr; $store:ty, $order:ty; $($bit:tt),* $(,)?) => {
        $crate::BitVec::<$store, $order>::from_bits($alloc, [$($crate::bit!($bit)),*])
    };
}

/// A vector of the bits that a text says, as `BitVec::from_text` reads it and is refused.
///
/// ```text
/// text_bits![alloc; u8, Msb0; "0110"]? holds 0110
/// ```
#[macro_export]
macro_rules! text_bits {
    ($alloc:expr; $store:ty, $order:ty; $text:expr) => {
        $crate::BitVec::<$store, $order>::from_text($alloc, $text)
    };
}

/// Like `bits!`, a box.
///
/// ```text
/// boxed_bits![alloc; u8, Msb0; 0, 1, 1, 0]? holds 0110
/// ```
#[macro_export]
macro_rules! boxed_bits {
    ($alloc:expr; $store:ty, $order:ty; $bit:tt; $n:expr) => {
        $crate::BitVec::<$store, $order>::repeat($alloc, $crate::bit!($bit), $n)
            .and_then(|v| Ok(v.into_boxed_bitslice()?))
    };
    ($alloc:expr; $store:ty, $order:ty; $($bit:tt),* $(,)?) => {
        $crate::boxed::BitBox::<$store, $order>::from_bits($alloc, [$($crate::bit!($bit)),*])
    };
}

/// Like `bits!`, an array of these words, whose bits after those that are written are false. Takes no memory.
/// Requires that the words have room for the bits. With `; n` the number is a constant.
///
/// ```text
/// array_bits![[u8; 1], Msb0; 0, 1, 1] holds 01100000
/// ```
#[macro_export]
macro_rules! array_bits {
    ($words:ty, $order:ty; $bit:tt; $n:expr) => {
        $crate::array::BitArray::<$words, $order>::from_bools(&[$crate::bit!($bit); $n])
    };
    ($words:ty, $order:ty; $($bit:tt),* $(,)?) => {
        $crate::array::BitArray::<$words, $order>::from_bools(&[$($crate::bit!($bit)),*])
    };
}
