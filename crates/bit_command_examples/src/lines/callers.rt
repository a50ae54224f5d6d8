//! A caller of command lines that needs no proof of its own.
ghost use Rattle.std.specs.Prelude.{◌≡◌, ◌≢◌, Ok, Some};
ghost use Rattle.bit_lines.specs.Served.{IsShort};

use bit_containers::{BitOrder, BitStore};
use bit_lines::{Ending, Sink, serve_lines};
use std::alloc::Global;
use std::io;

/// A script in memory is read to its end.
pub fn read_from_memory<T: BitStore, O: BitOrder, K: Sink>(
    alloc: Global,
    script: &[u8],
    output: &mut K,
) -> io::Result<Ending>
    requires { IsShort (Some script.now) }
    ensures { result ≢ Ok Ending.ReadFailed }
{
    let mut input = script;
    serve_lines::<T, O, &[u8], K>(alloc, &mut input, output)
}
