//! What one thread needs for atomic steps on the words: the seat's number, and a seat at the atomic
//! table. The rights of the seat's stripes are kept elsewhere, so that a caller that takes a single
//! stripe needs no list. Invariant: the number is below 64. The slots that are with the seat are
//! those of the stripes that it holds. These slots are empty.
ghost use Rattle.std.specs.Prelude.{◌≡◌, ℕ, ◌<◌, []};
ghost use Rattle.key_words.specs.Rule.{Holds};
ghost use Rattle.key_words.specs.Steps.{emptied};

use crate::rule::Slot;
use crate::view::View;
use atomic_table::Seat;

/// A seat through which one thread at a time acts on the words. The slots that are with the seat
/// are exactly those of the stripes that it holds. These slots are empty.
#[derive(Drop)]
pub struct KeySeat {
    pub(crate) number: u64,
    pub(crate) seat: Seat<Slot, View>,
    ghost low: { number < 64 },
    ghost numbered: { seat.me.0.number ≡ number },
    ghost inside: { (stripe : ℕ) → Holds seat.me.0 stripe → stripe < seat.table_id.words },
    ghost empty: { seat.me.1 ≡ emptied seat.me.0.held },
}

impl KeySeat {
    /// A seat that holds nothing.
    pub(crate) fn fresh(number: usize, seat: Seat<Slot, View>) -> KeySeat
        requires low { number < 64 }
        requires numbered { seat.me.0.number ≡ number }
        requires held { seat.me.0.held ≡ [] }
        requires slots { seat.me.1 ≡ [] }
        ensures { result.seat ≡ seat }
    {
        KeySeat {
            number: number as u64,
            seat,
        }
    }
}
