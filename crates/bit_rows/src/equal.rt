//! Words compared with words.
ghost use Rattle.std.specs.Prelude.{◌≡◌, ◌^◌, ◌<◌, ◌↔◌, IsTrue};

use bit_addressing::BitStore;

/// Whether both slices have the same words: the `==` of slices, for words of any type. Takes no memory.
///
/// ```text
/// equal_words(a.as_raw_slice(), b.as_raw_slice())
/// ```
pub fn equal_words<T: BitStore>(left: &[T], right: &[T]) -> bool
    ensures { IsTrue result ↔ (left.now ≡ right.now) }
{
    let len = left.len();
    if len != right.len() {
        return false;
    }
    T::are_words(left);
    T::are_words(right);
    for i in 0..len {
        if !equal_word(left[i], right[i]) {
            return false;
        }
    }
    true
}

// Whether two words are the same. Requires that they are numbers of `BITS` bits, as `are_words` says.
fn equal_word<T: BitStore>(left: T, right: T) -> bool
    requires left { T.value left < 2 ^ T.BITS }
    requires right { T.value right < 2 ^ T.BITS }
    ensures { IsTrue result ↔ (left ≡ right) }
{
    left.to_u64() == right.to_u64()
}
