//! Words that are lent, and can be reached one at a time alone.
ghost use Rattle.std.specs.Prelude.{◌≡◌, ◌+◌, ◌*◌, ◌<◌, ◌≤◌, Some, length, map, slice_get, slice_index, slice_set};
ghost use Rattle.bit_addressing.specs.declared.length.TheConstants.{MAX_BITS};

use crate::meter::Meter;
use crate::store::BitStore;

/// Words that are lent, with a meter of its own that counts each word read and written.
///
/// Nothing else reaches the words while it lasts, and nothing else reaches the meter: so what a
/// contract says of the counts holds of every access. In contracts a row has its words in `words`,
/// and the counts `meter.reads` and `meter.writes`.
#[derive(Drop)]
pub struct WordRow<'a, T: BitStore> {
    words: &'a mut [T],
    meter: Meter,
    ghost room: { T.BITS * length words.now ≤ MAX_BITS + 2 * T.BITS },
}

impl<'a, T: BitStore> WordRow<'a, T> {
    /// These words, with the meter at 0. Requires that they have at most `MAX_BITS + 2 * T::BITS` bits.
    pub fn new(words: &'a mut [T]) -> WordRow<'a, T>
        requires { T.BITS * length words.old ≤ MAX_BITS + 2 * T.BITS }
        ensures same_words { result.words.ghost_name ≡ words.entry.ghost_name }
        ensures words { result.words.now ≡ words.old }
        ensures reads { result.meter.reads ≡ 0 }
        ensures writes { result.meter.writes ≡ 0 }
    {
        WordRow {
            words,
            meter: Meter::new(),
        }
    }

    /// The number of bits of the words.
    pub fn row_len(&self) -> usize
        ensures { result ≡ T.BITS * length self.now.words.now }
    {
        T::BITS as usize * self.words.len()
    }

    /// Word `k`, and one read more. Requires that `k` is below the number of words.
    pub fn load(&mut self, k: usize) -> T
        requires { k < length self.old.words.now }
        ensures word { slice_get self.old.words.now k ≡ Some result }
        ensures value { T.value result ≡ slice_index (map T.value self.old.words.now) k }
        ensures same_words { self.new.words.ghost_name ≡ self.old.words.ghost_name }
        ensures words { self.new.words.now ≡ self.old.words.now }
        ensures reads { self.new.meter.reads ≡ self.old.meter.reads + 1 }
        ensures writes { self.new.meter.writes ≡ self.old.meter.writes }
    {
        self.meter.count_read();
        self.words[k]
    }

    /// Makes word `k` this one, and one write more. Requires that `k` is below the number of words.
    pub fn store(&mut self, k: usize, word: T)
        requires { k < length self.old.words.now }
        ensures same_words { self.new.words.ghost_name ≡ self.old.words.ghost_name }
        ensures words { self.new.words.now ≡ slice_set self.old.words.now k word }
        ensures reads { self.new.meter.reads ≡ self.old.meter.reads }
        ensures writes { self.new.meter.writes ≡ self.old.meter.writes + 1 }
    {
        self.meter.count_write();
        self.words[k] = word;
    }

    /// Ends the row, and returns its meter. The words stay as they are.
    pub fn into_meter(self) -> Meter
        ensures words { self.exit.0.now ≡ self.entry.words.now }
        ensures reads { result.reads ≡ self.entry.meter.reads }
        ensures writes { result.writes ≡ self.entry.meter.writes }
    {
        self.meter
    }
}
