//! Tagged values: a tag, a length, and as many bytes.
ghost use Rattle.std.specs.Prelude.{◌≡◌, ℕ, ◌+◌, ◌*◌, ◌%◌, ◌^◌, ◌<◌, ◌≤◌, ◌++◌, Bool, List, Err, IfOk, IsOk, OnErr, OnOk, length};
ghost use Rattle.bit_addressing.specs.Row.{binary};
ghost use Rattle.bit_slice.specs.BitSlice.{len_of, list_of};
ghost use Rattle.bit_streams.specs.Formats.{tagged_bits};
ghost use Rattle.bit_streams.specs.Refusals.{TagEnds};
ghost use Rattle.bit_streams.specs.Streams.{MayRefuse, Refuses};
ghost use Rattle.bit_streams.specs.declared.formats.tagged.TaggedFault.TheVariants as faults;

use crate::reader::BitReader;
use crate::register::joined;
use crate::writer::BitWriter;
use bit_addressing::{BitOrder, BitStore, GrowError};
use bit_slice::{BitList, BitSlice};

/// Why no tagged value was read: the reader stays where it was.
#[derive(Clone, Copy, PartialEq, Eq, Debug)]
pub enum TaggedFault {
    /// The bits end inside the value.
    Ended,
    /// The tag is 0, which is reserved.
    ReservedTag,
}

/// A value with a tag that says what it is: 8 bits of tag, 16 bits with how many bytes there are, and these bytes.
#[derive(Drop)]
pub struct Tagged<'a, T: BitStore, O: BitOrder> {
    /// What the value is; not 0.
    pub tag: u8,
    /// The value, a multiple of 8 bits.
    pub value: BitSlice<'a, T, O>,
}

impl<T: BitStore, O: BitOrder> BitWriter<T, O> {
    /// Appends a tagged value. Refused like the codes. Requires that the tag is not 0, and that the value is whole bytes,
    /// fewer than 65536.
    #[inline(always)]
    pub fn write_tagged<U: BitStore, P: BitOrder>(
        &mut self,
        tag: u8,
        value: BitSlice<'_, U, P>,
    ) -> Result<(), GrowError>
        requires tag { 0 < tag }
        requires whole { len_of value % 8 ≡ 0 }
        requires few { len_of value < 8 * 2 ^ 16 }
        ensures list { OnOk result (self.new.list ≡ self.old.list ++ tagged_bits tag (list_of value.entry)) }
        ensures refusal { MayRefuse result (tagged_bits tag (list_of value.entry)) self.old self.new }
        ensures capacity { self.old.capacity ≤ self.new.capacity }
    {
        let len = value.len();
        // A short value and what comes before it are one number, which is refused as a whole.
        if len <= 40 {
            let front = joined(tag as u64, 8, 16, (len / 8) as u64);
            let number = joined(front, 24, len as u8, value.load_be());
            return self.write(24 + len as u8, number);
        }
        let before = self.len();
        match self.write_front(tag, len / 8) {
            Ok(()) => {}
            Err(why) => return Err(why),
        }
        match self.write_bits(value) {
            Ok(()) => Ok(()),
            Err(why) => {
                self.truncate(before);
                Err(why)
            }
        }
    }

    // Appends a tag and how many bytes there are, as one number.
    #[inline(always)]
    fn write_front(&mut self, tag: u8, bytes: usize) -> Result<(), GrowError>
        requires { bytes < 2 ^ 16 }
        ensures list { OnOk result (self.new.list ≡ self.old.list ++ (binary 8 tag ++ binary 16 bytes)) }
        ensures refusal { Refuses result (length self.old.list + 24) self.old self.new }
        ensures capacity { self.old.capacity ≤ self.new.capacity }
    {
        match self.write(24, joined(tag as u64, 8, 16, bytes as u64)) {
            Ok(()) => Ok(()),
            Err(why) => Err(why),
        }
    }
}

impl<'a, T: BitStore, O: BitOrder> BitReader<'a, T, O> {
    /// Reads a tagged value, without a copy of it.
    #[inline(always)]
    pub fn read_tagged(&mut self) -> Result<Tagged<'a, T, O>, TaggedFault>
        ensures found { IfOk result (λ it. self.old.rest ≡ tagged_bits it.tag (list_of it.value) ++ self.new.rest) }
        ensures tag { IfOk result (λ it. 0 < it.tag) }
        ensures reserved { result ≡ Err faults.ReservedTag → (more : List Bool) × (self.old.rest ≡ binary 8 0 ++ more) }
        ensures ended { result ≡ Err faults.Ended → TagEnds self.old.rest }
        ensures kept { OnErr result (self.new ≡ self.old) }
        ensures back { (tag : ℕ) → (value more : List Bool) → 0 < tag → tag < 2 ^ 8 → length value % 8 ≡ 0
            → length value < 8 * 2 ^ 16 → self.old.rest ≡ tagged_bits tag value ++ more
            → IsOk result × IfOk result (λ it. (it.tag ≡ tag) × (list_of it.value ≡ value)) × (self.new.rest ≡ more) }
    {
        let before = self.copied();
        match self.tagged_parts() {
            Ok(it) => Ok(it),
            Err(why) => {
                *self = before;
                Err(why)
            }
        }
    }

    // What `read_tagged` returns; after an error the reader may be anywhere.
    #[inline(always)]
    fn tagged_parts(&mut self) -> Result<Tagged<'a, T, O>, TaggedFault>
        ensures found { IfOk result (λ it. self.old.rest ≡ tagged_bits it.tag (list_of it.value) ++ self.new.rest) }
        ensures tag { IfOk result (λ it. 0 < it.tag) }
        ensures reserved { result ≡ Err faults.ReservedTag → (more : List Bool) × (self.old.rest ≡ binary 8 0 ++ more) }
        ensures ended { result ≡ Err faults.Ended → TagEnds self.old.rest }
        ensures back { (tag : ℕ) → (value more : List Bool) → 0 < tag → tag < 2 ^ 8 → length value % 8 ≡ 0
            → length value < 8 * 2 ^ 16 → self.old.rest ≡ tagged_bits tag value ++ more
            → IsOk result × IfOk result (λ it. (it.tag ≡ tag) × (list_of it.value ≡ value)) × (self.new.rest ≡ more) }
    {
        match self.read(8) {
            None => Err(TaggedFault::Ended),
            Some(tag) => {
                if tag == 0 {
                    return Err(TaggedFault::ReservedTag);
                }
                match self.read(16) {
                    None => Err(TaggedFault::Ended),
                    Some(bytes) => match self.read_part(8 * bytes as usize) {
                        None => Err(TaggedFault::Ended),
                        Some(value) => Ok(Tagged {
                            tag: tag as u8,
                            value,
                        }),
                    },
                }
            }
        }
    }
}
