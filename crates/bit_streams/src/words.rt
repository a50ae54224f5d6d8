//! The words of a writer, to which blocks of 64 bits are appended.
ghost use Rattle.std.specs.Prelude.{◌≡◌, ◌+◌, ◌*◌, ◌≤◌, ◌<◌, ◌++◌, [], OnErr, OnOk, length, take, true, false, vec_capacity, ◌%◌, ◌^◌};
ghost use Rattle.bit_addressing.specs.Row.{binary, number_bits};
ghost use Rattle.bit_addressing.specs.Typed.{row};
ghost use Rattle.bit_addressing.specs.declared.length.TheConstants.{MAX_BITS};
ghost use Rattle.bit_containers.specs.BitVec.{bits_in};
ghost use Rattle.bit_streams.specs.Streams.{written_row};

use crate::register::{block_of, block_of_le, cut_at, lowest_first, push_block};
use bit_addressing::{BitOrder, BitStore, MAX_BITS, elts};
use bit_rows::make_room_in_vec;
use std::alloc::{AllocError, Global};
use std::marker::{Model, PhantomData};

// Words that blocks of 64 bits are appended to. In contracts `w` is `w.list`, the bits of the words, and `w.capacity`, the
// number of bits that there is room for.
#[derive(Drop)]
pub(crate) struct Words<T: BitStore, O: BitOrder> {
    words: Vec<T>,
    // The number of words at the end that are stored by `Msb0`. They are turned when the writer ends, two at a time, which
    // is faster than to turn each as it comes.
    late: usize,
    order: PhantomData<O>,
}

impl<T: BitStore, O: BitOrder> Model for Words<T, O> {
    ghost use Rattle.std.specs.Prelude.{◌≤◌, length, vec_capacity};
    ghost use Rattle.bit_containers.specs.BitVec.{bits_in};
    ghost use Rattle.bit_streams.specs.Streams.{Writing, writing_code, written_row};

    ghost Value = { Writing };

    ghost coded = { writing_code };

    ghost view = { λ w. record {
      list = written_row T.BitStore O.BitOrder w.late w.words.items;
      capacity = bits_in T.BITS (vec_capacity w.words) 0;
    } };

    ghost invariant = { λ w. w.late ≤ length w.words.items };
}

// Whether blocks are stored by `Msb0` and turned later: where a block is one word, and its order begins at the lowest
// place. It is a hint for speed alone.
#[inline(always)]
fn is_turned_later<T: BitStore, O: BitOrder>() -> bool
    ensures { result ≡ true → T.BITS ≡ 64 }
{
    T::BITS == 64 && lowest_first::<O>()
}

// Whether 64 bits after those of `words` words pass `MAX_BITS`.
#[inline(always)]
fn is_full<T: BitStore>(words: usize) -> bool
    ensures full { result ≡ true → MAX_BITS < T.BITS * words + 64 }
    ensures room { result ≡ false → T.BITS * words + 64 ≤ MAX_BITS }
{
    words > (MAX_BITS - 64) / T::BITS as usize
}

// Turns the last `late` words, which are by `Msb0`.
#[inline(never)]
fn turn_last<T: BitStore, O: BitOrder>(words: &mut [T], late: usize)
    requires { late ≤ length words.old }
    ensures bits { row T.BitStore O.BitOrder words.new ≡ written_row T.BitStore O.BitOrder late words.old }
    ensures size { length words.new ≡ length words.old }
{
    let from = words.len() - late;
    for t in 0..late / 2 {
        let i = from + 2 * t;
        let (first, second) = words[i + 1].reverse_pair(words[i]);
        words[i] = O::from_lsb0(first);
        words[i + 1] = O::from_lsb0(second);
    }
    if late % 2 == 1 {
        let last = words.len() - 1;
        words[last] = O::from_lsb0(words[last].reverse());
    }
}

// Like `turn_last`, of the words of a vector.
#[inline(always)]
fn turn_in_vec<T: BitStore, O: BitOrder>(words: &mut Vec<T>, late: usize)
    requires { late ≤ length words.old.items }
    ensures bits { row T.BitStore O.BitOrder words.new.items
        ≡ written_row T.BitStore O.BitOrder late words.old.items }
    ensures size { length words.new.items ≡ length words.old.items }
    ensures capacity { vec_capacity words.new ≡ vec_capacity words.old }
{
    if late > 0 {
        turn_last::<T, O>(words.as_mut_slice(), late);
    }
}

impl<T: BitStore, O: BitOrder> Words<T, O> {
    // No words. Takes no memory.
    pub(crate) fn new(alloc: Global) -> Self
        ensures list { result.list ≡ [] }
        ensures capacity { result.capacity ≡ 0 }
    {
        Words {
            words: Vec::new(alloc),
            late: 0,
            order: PhantomData,
        }
    }

    // The words of a vector, each by the order.
    pub(crate) fn of(words: Vec<T>) -> Self
        ensures list { result.list ≡ row T.BitStore O.BitOrder words.items }
        ensures capacity { result.capacity ≡ bits_in T.BITS (vec_capacity words) 0 }
    {
        Words {
            words,
            late: 0,
            order: PhantomData,
        }
    }

    // The allocator of the words.
    #[inline(always)]
    pub(crate) fn allocator(&self) -> Global {
        *self.words.allocator()
    }

    // The number of their bits. Requires that it is at most `MAX_BITS`.
    #[inline(always)]
    pub(crate) fn len(&self) -> usize
        requires { length self.now.list ≤ MAX_BITS }
        ensures { result ≡ length self.now.list }
    {
        self.words.len() * T::BITS as usize
    }

    // Whether 64 bits after them pass `MAX_BITS`.
    #[inline(always)]
    pub(crate) fn is_full(&self) -> bool
        ensures full { result ≡ true → MAX_BITS < length self.now.list + 64 }
        ensures room { result ≡ false → length self.now.list + 64 ≤ MAX_BITS }
    {
        is_full::<T>(self.words.len())
    }

    // Makes room for `n` more bits. Refused only where they don't fit into the capacity. Requires that they don't pass
    // `MAX_BITS`.
    pub(crate) fn make_room(&mut self, n: usize) -> Result<(), AllocError>
        requires { length self.old.list + n ≤ MAX_BITS }
        ensures list { self.new.list ≡ self.old.list }
        ensures room { OnOk result (length self.old.list + n ≤ self.new.capacity) }
        ensures capacity { self.old.capacity ≤ self.new.capacity }
        ensures full { OnErr result (self.old.capacity < length self.old.list + n) }
    {
        match make_room_in_vec(&mut self.words, elts::<T>(n)) {
            Ok(()) => {}
            Err(why) => return Err(why),
        }
        Ok(())
    }

    // Appends the 64 digits of a number, the most significant first.
    #[inline(always)]
    pub(crate) fn push(&mut self, number: u64) -> Result<(), AllocError>
        ensures list { OnOk result (self.new.list ≡ self.old.list ++ binary 64 number) }
        ensures len { OnOk result (length self.new.list ≡ length self.old.list + 64) }
        ensures capacity { self.old.capacity ≤ self.new.capacity }
        ensures full { OnErr result (self.old.capacity < length self.old.list + 64) }
        ensures unchanged { OnErr result (self.new.list ≡ self.old.list) }
    {
        if is_turned_later::<T, O>() {
            match make_room_in_vec(&mut self.words, 1) {
                Ok(()) => {}
                Err(why) => return Err(why),
            }
            self.words.push_reserved(T::from_u64(number));
            self.late += 1;
            return Ok(());
        }
        turn_in_vec::<T, O>(&mut self.words, self.late);
        self.late = 0;
        match push_block::<T, O>(&mut self.words, block_of::<O>(number)) {
            Ok(()) => {}
            Err(why) => return Err(why),
        }
        Ok(())
    }

    // Appends the 64 digits of a number, the least significant first.
    #[inline(always)]
    pub(crate) fn push_le(&mut self, number: u64) -> Result<(), AllocError>
        ensures list { OnOk result (self.new.list ≡ self.old.list ++ number_bits number 64) }
        ensures len { OnOk result (length self.new.list ≡ length self.old.list + 64) }
        ensures capacity { self.old.capacity ≤ self.new.capacity }
        ensures full { OnErr result (self.old.capacity < length self.old.list + 64) }
        ensures unchanged { OnErr result (self.new.list ≡ self.old.list) }
    {
        turn_in_vec::<T, O>(&mut self.words, self.late);
        self.late = 0;
        match push_block::<T, O>(&mut self.words, block_of_le::<O>(number)) {
            Ok(()) => {}
            Err(why) => return Err(why),
        }
        Ok(())
    }

    // Cuts the words to blocks of 64 bits below `n`, and returns the bits between these blocks and `n`: a number, and how
    // many digits it has.
    pub(crate) fn cut(&mut self, n: usize) -> (u64, u8)
        requires { n ≤ length self.old.list }
        ensures list { self.new.list ++ binary result.1 result.0 ≡ take n self.old.list }
        ensures few { result.1 < 64 }
        ensures below { result.0 < 2 ^ result.1 }
        ensures shorter { length self.new.list + result.1 ≡ n }
        ensures blocks { length self.new.list % 64 ≡ 0 }
        ensures capacity { self.new.capacity ≡ self.old.capacity }
    {
        turn_in_vec::<T, O>(&mut self.words, self.late);
        self.late = 0;
        cut_at::<T, O>(&mut self.words, n)
    }

    // The vector of the words, each by the order.
    pub(crate) fn into_vec(self) -> Vec<T>
        ensures bits { row T.BitStore O.BitOrder result.items ≡ self.list }
        ensures len { T.BITS * length result.items ≡ length self.list }
        ensures capacity { bits_in T.BITS (vec_capacity result) 0 ≡ self.capacity }
    {
        let mut words = self.words;
        turn_in_vec::<T, O>(&mut words, self.late);
        words
    }
}
