//! Values of one kind, one after another.
ghost use Rattle.std.specs.Prelude.{◌≡◌, ◌≢◌, ◌<◌, ◌≤◌, ◌++◌, All, Bool, List, Err, IfOk, OnErr, OnOk, length};
ghost use Rattle.bit_streams.specs.Fields.{items_bits};
ghost use Rattle.bit_streams.specs.Streams.{MayRefuse};
ghost use Rattle.bit_streams.specs.declared.items.ItemsError.TheVariants as errors;

use crate::fields::Fields;
use crate::reader::BitReader;
use crate::writer::BitWriter;
use bit_addressing::{BitOrder, BitStore, GrowError};
use std::alloc::Global;

/// Why values were not read: the reader stays where it was.
#[derive(Clone, Copy, PartialEq, Eq, Debug)]
pub enum ItemsError {
    /// The bits of a value are missing.
    Ended,
    /// Memory was refused.
    OutOfMemory,
}

/// Appends the bits of values, one after another. A refusal keeps what was written before. Requires that each value can be
/// written.
pub fn write_items<F: Fields, T: BitStore, O: BitOrder>(
    items: &[F],
    writer: &mut BitWriter<T, O>,
) -> Result<(), GrowError>
    requires { All F.fits items.now }
    ensures list { OnOk result (writer.new.list ≡ writer.old.list ++ items_bits F.bits_of items.now) }
    ensures refusal { MayRefuse result (items_bits F.bits_of items.now) writer.old writer.new }
    ensures capacity { writer.old.capacity ≤ writer.new.capacity }
{
    let before = writer.len();
    for item in items {
        match item.write(writer) {
            Ok(()) => {}
            Err(why) => {
                writer.truncate(before);
                return Err(why);
            }
        }
    }
    Ok(())
}

/// Reads `count` values, one after another. Takes memory for them as they come, so a wrong count asks for no more than the
/// bits have.
pub fn read_items<F: Fields + Drop, T: BitStore, O: BitOrder>(
    alloc: Global,
    reader: &mut BitReader<'_, T, O>,
    count: usize,
) -> Result<Vec<F>, ItemsError>
    ensures found { IfOk result (λ v. reader.old.rest ≡ items_bits F.bits_of v.items ++ reader.new.rest) }
    ensures count { IfOk result (λ v. length v.items ≡ count) }
    ensures fitting { IfOk result (λ v. All F.fits v.items) }
    ensures memory { result ≡ Err errors.OutOfMemory → 0 < count }
    ensures kept { OnErr result (reader.new ≡ reader.old) }
    ensures back { (xs : List F) → (more : List Bool) → length xs ≡ count → All F.fits xs
        → reader.old.rest ≡ items_bits F.bits_of xs ++ more
        → (result ≢ Err errors.Ended) × IfOk result (λ v. (v.items ≡ xs) × (reader.new.rest ≡ more)) }
{
    let before = reader.copied();
    let mut items = Vec::new(alloc);
    for _ in 0..count {
        match F::read(reader) {
            None => {
                *reader = before;
                return Err(ItemsError::Ended);
            }
            Some(item) => match items.push(item) {
                Ok(()) => {}
                Err(_) => {
                    *reader = before;
                    return Err(ItemsError::OutOfMemory);
                }
            },
        }
    }
    Ok(items)
}
