//! Words that are lent for reading, and can be reached one at a time alone.
ghost use Rattle.std.specs.Prelude.{◌≡◌, ◌+◌, ◌<◌, Some, length, map, slice_get, slice_index};

use crate::meter::Meter;
use crate::store::BitStore;

/// Words that are lent for reading, with a meter of its own that counts each word read.
///
/// It is as a `WordRow` that cannot write. It is not `Clone`: a second one would have a meter of its
/// own, and what it reads would not be counted on the first. In contracts it has its words in
/// `words`, and the count `meter.reads`.
#[derive(Drop)]
pub struct WordRead<'a, T: BitStore> {
    words: &'a [T],
    meter: Meter,
}

impl<'a, T: BitStore> WordRead<'a, T> {
    /// These words, with the meter at 0.
    pub fn new(words: &'a [T]) -> WordRead<'a, T>
        ensures words { result.words.now ≡ words.now }
        ensures reads { result.meter.reads ≡ 0 }
    {
        WordRead {
            words,
            meter: Meter::new(),
        }
    }

    /// Word `k`, and one read more. Requires that `k` is below the number of words.
    pub fn load(&mut self, k: usize) -> T
        requires { k < length self.old.words.now }
        ensures word { slice_get self.old.words.now k ≡ Some result }
        ensures value { T.value result ≡ slice_index (map T.value self.old.words.now) k }
        ensures words { self.new.words ≡ self.old.words }
        ensures reads { self.new.meter.reads ≡ self.old.meter.reads + 1 }
    {
        self.meter.count_read();
        self.words[k]
    }
}
