//! The program's arguments.
use crate::serving::serve;
use bit_containers::{Lsb0, Msb0};
use std::alloc::Global;
use std::io::{Read, Write};

/// Runs the program with these arguments, and returns its status.
///
/// They are the type of the words, `u8`, `u16`, `u32`, `u64` or `usize`, and the order, `lsb0` or `msb0`. With
/// others it writes how the program is called, and the status is 2.
pub fn start<R: Read + Drop, W: Write + Drop>(
    alloc: Global,
    words: &[String],
    input: R,
    output: W,
) -> u8 {
    if let [word, order] = words {
        match (word.as_str(), order.as_str()) {
            ("u8", "lsb0") => return serve::<u8, Lsb0, R, W>(alloc, input, output),
            ("u8", "msb0") => return serve::<u8, Msb0, R, W>(alloc, input, output),
            ("u16", "lsb0") => return serve::<u16, Lsb0, R, W>(alloc, input, output),
            ("u16", "msb0") => return serve::<u16, Msb0, R, W>(alloc, input, output),
            ("u32", "lsb0") => return serve::<u32, Lsb0, R, W>(alloc, input, output),
            ("u32", "msb0") => return serve::<u32, Msb0, R, W>(alloc, input, output),
            ("u64", "lsb0") => return serve::<u64, Lsb0, R, W>(alloc, input, output),
            ("u64", "msb0") => return serve::<u64, Msb0, R, W>(alloc, input, output),
            ("usize", "lsb0") => return serve::<usize, Lsb0, R, W>(alloc, input, output),
            ("usize", "msb0") => return serve::<usize, Msb0, R, W>(alloc, input, output),
            _ => {}
        }
    }
    write_usage(output)
}

// Writes how the program is called, and returns the status.
fn write_usage<W: Write + Drop>(output: W) -> u8 {
    let mut output = output;
    match output.write_all(b"usage: bitrun WORD ORDER\n") {
        Ok(()) => 2,
        Err(_) => 1,
    }
}
