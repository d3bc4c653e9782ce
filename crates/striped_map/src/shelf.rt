//! A shelf for the seats of callers that have ended, with their records. Each number that the map
//! gives out has a place of its own. So a caller that is dropped can put its seat there without
//! waiting and without memory, in any thread. The map's host takes the seats from the shelf and
//! merges them, so no entry of theirs is lost.
//!
//! A place is a word and a slot. The word is `EMPTY`, `FULL`, or `IN_USE` while a thread has the
//! slot. Only the thread that ends a caller looks at an empty place, and only the host at a full
//! one.
//!
//! Invariant between any two atomic steps (`IsOrderly`): a slot that no thread has is in the table.
//! A seat in it belongs to the map, is in no transaction, holds no stripe, and has the number of
//! its place.
ghost use Rattle.std.specs.Prelude.{◌≡◌, ◌≢◌, IfOk, IfErr, IfSome, replicate};
ghost use Rattle.striped_map.specs.Shelves.{Grabs, IsOrderly, IsOver, MayLie, Releases, Sits};

use crate::rule::Slot;
use crate::seat::MapSeat;
use crate::view::View;
use atomic_table::{Play, Seat, Table, TableRule};
use std::alloc::{AllocError, Global};

/// The word of a place that has no seat yet, or no longer has one.
const EMPTY: u64 = 0;

/// The word of a place whose slot a thread has.
const IN_USE: u64 = 1;

/// The word of a place that has a seat.
const FULL: u64 = 2;

/// The slot of a place.
pub(crate) type Place = Option<MapSeat>;

/// A seat that belongs to the map.
pub(crate) type Like = Seat<Slot, View>;

/// The rule of the shelf. No value of this type is made.
pub(crate) struct Order;

impl TableRule<Place, Like, Like> for Order {
    ghost holds = { IsOrderly };

    ghost first = { λ like. like };
}

/// A load that lets a thread step on the shelf.
pub(crate) struct Sit;

impl Play<Place, Like> for Sit {
    ghost then = { Sits };
}

/// A compare-exchange of a place's word. If the word was the expected one, the thread has the slot.
pub(crate) struct Grab;

impl Play<Place, Like> for Grab {
    ghost then = { Grabs };
}

/// A store of a place's word, which gives the slot back.
pub(crate) struct Release;

impl Play<Place, Like> for Release {
    ghost then = { Releases };
}

/// Places for the seats of callers that have ended.
#[derive(Drop)]
pub struct Shelf {
    pub(crate) table: Table<Place, Like, Like, Order, Global>,
    ghost sized: { table.shared.table_id.words ≡ table.shared.table_id.slots },
}

/// `count` words of empty places.
fn empty_words(alloc: Global, count: usize) -> Result<Vec<u64>, AllocError>
    ensures { IfOk result (λ words. words.items ≡ replicate count 0) }
{
    vec![in alloc; EMPTY; count]
}

impl Shelf {
    ghost use Rattle.striped_map.specs.Shelved.{like_of};

    /// A shelf with empty places for seats of the map to which `like` belongs.
    pub(crate) fn new(alloc: Global, places: usize, like: &Like) -> Result<Shelf, AllocError>
        ensures { IfOk result (λ shelf. like_of shelf ≡ like.now) }
    {
        let words = empty_words(alloc, places)?;
        let (table, _first) = Table::vacant(alloc, &words, places, like)?;
        Ok(Shelf { table })
    }

    /// How many places there are.
    fn places(&self) -> usize
        ensures { result ≡ self.now.table.shared.table_id.slots }
    {
        self.table.slot_count()
    }

    /// If the place has the word `from`, exchanges what lies there, and leaves the word `to`.
    ///
    /// # Errors
    ///
    /// If the place does not exist or has another word, nothing changes, and the seat is returned.
    fn exchange(&self, place: usize, from: u64, to: u64, seat: Place) -> Result<Place, Place>
        requires from { from ≢ 1 }
        requires seat { MayLie (like_of self.now) place seat }
        ensures ok { IfOk result (MayLie (like_of self.now) place) }
        ensures err { IfErr result (λ same. same ≡ seat) }
    {
        if place >= self.places() {
            return Err(seat);
        }
        let shared = &self.table.shared;
        let (word, mut thread) = shared.load_new_seat::<Sit>(place);
        if word != from {
            return Err(seat);
        }
        let found = shared.compare_exchange::<Grab>(&mut thread, place, from, IN_USE);
        if found != from {
            return Err(seat);
        }
        let lay = shared.exchange(&mut thread, place, seat);
        shared.store::<Release>(&mut thread, place, to);
        Ok(lay)
    }

    /// Puts the seat of a caller that has ended on its place. If it has no place, it is dropped.
    pub(crate) fn put(&self, seat: MapSeat)
        requires { IsOver (like_of self.now).table_id (like_of self.now).me.0.keep seat }
    {
        let place = seat.number as usize;
        let _left = self.exchange(place, EMPTY, FULL, Some(seat));
    }

    /// Takes the seat with this number from its place, if it lies there.
    pub(crate) fn take(&self, number: usize) -> Option<MapSeat>
        ensures { IfSome result (λ seat. (seat.number ≡ number)
            × IsOver (like_of self.now).table_id (like_of self.now).me.0.keep seat) }
    {
        match self.exchange(number, FULL, EMPTY, None) {
            Ok(slot) => slot,
            Err(_) => None,
        }
    }
}
