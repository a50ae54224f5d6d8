//! One loop for each number of bits that a byte is shifted by.

/// A call for each index of a byte, with the index bound to a name. A processor shifts bytes side by side by a number
/// that the compiler knows, so each index gets a loop of its own (docs/TUNING.md, "A move within bytes").
#[macro_export]
macro_rules! each_shift {
    ($at:expr, $by:ident => $call:expr) => {
        match $at {
            1 => { let $by = 1u8; $call }
            2 => { let $by = 2u8; $call }
            3 => { let $by = 3u8; $call }
            4 => { let $by = 4u8; $call }
            5 => { let $by = 5u8; $call }
            6 => { let $by = 6u8; $call }
            7 => { let $by = 7u8; $call }
            _ => { let $by = 0u8; $call }
        }
    };
}
