//! A list of bits of a caller's own: what it has by implementing the two traits.
ghost use Rattle.std.specs.Prelude.{◌≡◌, ◌<◌, IfSome, Some, false, length, not, set, slice_get, slice_index_or, true};

use crate::common::{check, of, ok};
use bit_containers::boxed::BitBox;
use bit_containers::{BitList, BitListMut, BitOrder, BitSlice, BitStore, Lsb0};

/// Which fields of a record are there.
#[derive(Drop)]
pub(crate) struct Presence<T: BitStore, O: BitOrder> {
    fields: BitBox<T, O>,
}

impl<T: BitStore, O: BitOrder> BitList for Presence<T, O> {
    type Store = T;

    type Order = O;

    ghost head = { λ p. p.fields.head };

    ghost len = { λ p. length p.fields.list };

    ghost list = { λ p. p.fields.list };

    ghost words = { λ p. p.fields.words };

    ghost bits = { λ p. p.fields.row };

    fn as_bitslice(&self) -> BitSlice<'_, T, O> {
        // Proof only: the row is that of the words.
        let _words = self.fields.as_raw_slice();
        self.fields.as_bitslice()
    }
}

impl<T: BitStore, O: BitOrder> BitListMut for Presence<T, O> {
    ghost use Rattle.std.specs.Prelude.{refl};
    ghost use Rattle.bit_slice.specs.Held.{with_words};
    ghost use Rattle.bit_slice.proofs.Kept.{kept_words, kept_row, kept_list, kept_len, kept_count};

    ghost count = { λ p. length p.fields.words };

    ghost capacity = { λ p. p.fields.capacity };

    ghost loan = { λ _. 0 };

    ghost rewritten = { λ p ws. record { fields = with_words T.BitStore O.BitOrder p.fields ws } };

    fn as_raw_mut_slice(&mut self) -> &mut [T] {
        self.fields.as_raw_mut_slice()
    }

    ghost words_rewritten = { λ p ws e. kept_words T.value O.place T.BITS p.fields.words p.fields.head p.fields.list ws e };

    ghost bits_rewritten = { λ p ws e. kept_row T.value O.place T.BITS p.fields.words p.fields.head p.fields.list ws e };

    ghost list_rewritten = { λ p ws e f. kept_list T.value O.place T.BITS p.fields.words p.fields.head p.fields.list ws e f };

    ghost stays_rewritten = { λ p ws. record {
      head = refl;
      len = kept_len T.value O.place T.BITS p.fields.words p.fields.head p.fields.list ws;
      size = kept_count T.value O.place T.BITS p.fields.words p.fields.head p.fields.list ws;
      capacity = refl;
      same_words = refl;
    } };
}

/// The first field that is there.
pub(crate) fn first_field<T: BitStore, O: BitOrder>(presence: &Presence<T, O>) -> Option<usize>
    ensures { IfSome result (λ i. slice_get presence.now.fields.list i ≡ Some true) }
{
    presence.first_one()
}

/// Makes a field there that was not, or the other way round.
pub(crate) fn turn<T: BitStore, O: BitOrder>(presence: &mut Presence<T, O>, i: usize)
    requires { i < length presence.old.fields.list }
    ensures { presence.new.fields.list
        ≡ set presence.old.fields.list i (not (slice_index_or presence.old.fields.list i false)) }
{
    presence.flip(i);
}

#[test]
fn fields_of_a_record(rt: HostRuntime) {
    let bits = of::<u8, Lsb0>(&rt, b"0010000001");
    let mut presence = Presence {
        fields: ok(&rt, bits.into_boxed_bitslice()),
    };
    check(&rt, first_field(&presence) == Some(2));
    check(&rt, presence.len() == 10);
    turn(&mut presence, 1);
    check(&rt, first_field(&presence) == Some(1));
    check(&rt, presence.count_ones() == 3);
}
