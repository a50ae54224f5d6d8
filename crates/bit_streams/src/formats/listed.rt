//! Lists of bits with their length.
ghost use Rattle.std.specs.Prelude.{◌≡◌, ℕ, ◌-◌, ◌≤◌, ◌%◌, ◌++◌, [], Bool, List, Err, IfOk, IsOk, OnErr, OnOk, length};
ghost use Rattle.bit_addressing.specs.declared.length.TheConstants.{MAX_BITS};
ghost use Rattle.bit_slice.specs.BitSlice.{list_of};
ghost use Rattle.bit_streams.specs.Formats.{listed_bits};
ghost use Rattle.bit_streams.specs.Refusals.{ListEnds, ListFilled};
ghost use Rattle.bit_streams.specs.Streams.{MayRefuse};
ghost use Rattle.bit_streams.specs.declared.formats.listed.ListFault.TheVariants as faults;

use crate::reader::BitReader;
use crate::writer::BitWriter;
use bit_addressing::{BitOrder, BitStore, GrowError};
use bit_slice::BitSlice;

/// Why no list was read: the reader stays where it was.
#[derive(Clone, Copy, PartialEq, Eq, Debug)]
pub enum ListFault {
    /// The bits end inside the list.
    Ended,
    /// A bit after the list that fills up its last byte is a one.
    FilledWithOnes,
}

impl<T: BitStore, O: BitOrder> BitWriter<T, O> {
    /// Appends a list with its length: 64 binary digits with how many bits there are, the bits, and zeros up to whole bytes.
    /// Refused like the codes.
    pub fn write_list<U: BitStore, P: BitOrder>(
        &mut self,
        bits: BitSlice<'_, U, P>,
    ) -> Result<(), GrowError>
        ensures list { OnOk result (self.new.list ≡ self.old.list ++ listed_bits (list_of bits.entry)) }
        ensures refusal { MayRefuse result (listed_bits (list_of bits.entry)) self.old self.new }
        ensures capacity { self.old.capacity ≤ self.new.capacity }
    {
        let before = self.len();
        let len = bits.len();
        match self.write(64, len as u64) {
            Ok(()) => {}
            Err(why) => return Err(why),
        }
        match self.write_bits(bits) {
            Ok(()) => {}
            Err(why) => {
                self.truncate(before);
                return Err(why);
            }
        }
        match self.write(((8 - len % 8) % 8) as u8, 0) {
            Ok(()) => Ok(()),
            Err(why) => {
                self.truncate(before);
                Err(why)
            }
        }
    }
}

impl<'a, T: BitStore, O: BitOrder> BitReader<'a, T, O> {
    /// Reads a list with its length, without a copy of it: a wrong length asks for no memory.
    pub fn read_list(&mut self) -> Result<BitSlice<'a, T, O>, ListFault>
        ensures found { IfOk result (λ bits. self.old.rest ≡ listed_bits (list_of bits) ++ self.new.rest) }
        ensures ended { result ≡ Err faults.Ended → ListEnds self.old.rest }
        ensures filled { result ≡ Err faults.FilledWithOnes → ListFilled self.old.rest }
        ensures kept { OnErr result (self.new ≡ self.old) }
        ensures back { (bits more : List Bool) → length bits ≤ MAX_BITS → self.old.rest ≡ listed_bits bits ++ more
            → IsOk result × IfOk result (λ read. list_of read ≡ bits) × (self.new.rest ≡ more) }
        ensures whole { (bits : List Bool) → length bits ≤ MAX_BITS → self.old.rest ≡ listed_bits bits
            → IsOk result × IfOk result (λ read. list_of read ≡ bits) × (self.new.rest ≡ []) }
    {
        let before = self.copied();
        match self.list_parts() {
            Ok(bits) => Ok(bits),
            Err(why) => {
                *self = before;
                Err(why)
            }
        }
    }

    // What `read_list` returns; after an error the reader may be anywhere.
    fn list_parts(&mut self) -> Result<BitSlice<'a, T, O>, ListFault>
        ensures found { IfOk result (λ bits. self.old.rest ≡ listed_bits (list_of bits) ++ self.new.rest) }
        ensures ended { result ≡ Err faults.Ended → ListEnds self.old.rest }
        ensures filled { result ≡ Err faults.FilledWithOnes → ListFilled self.old.rest }
        ensures back { (bits more : List Bool) → length bits ≤ MAX_BITS → self.old.rest ≡ listed_bits bits ++ more
            → IsOk result × IfOk result (λ read. list_of read ≡ bits) × (self.new.rest ≡ more) }
    {
        match self.read(64) {
            None => Err(ListFault::Ended),
            Some(len) => match self.read_part(len as usize) {
                None => Err(ListFault::Ended),
                Some(bits) => match self.read(((8 - len % 8) % 8) as u8) {
                    None => Err(ListFault::Ended),
                    Some(fill) => {
                        if fill != 0 {
                            return Err(ListFault::FilledWithOnes);
                        }
                        Ok(bits)
                    }
                },
            },
        }
    }
}
