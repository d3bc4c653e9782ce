// PROMISES stripes-as-atomic-words: KeyWords::take, give, new
//! The words of the stripes, and a slot for each stripe's right. Invariant, between any two atomic
//! steps: a stripe's word is 0 exactly if no seat has the stripe's slot and the slot has the
//! stripe's right. Any other word names the one seat that holds the stripe.
ghost use Rattle.std.specs.Prelude.{◌≡◌, ◌<◌, ◌≤◌, [], replicate, IfErr, IfOk, vec_capacity, vec_len};
ghost use Rattle.key_locks.specs.Rights.{AreAll};
ghost use Rattle.key_words.specs.Rule.{Holds, view};
ghost use Rattle.key_words.specs.Steps.{lost};

use crate::rule::{AddSeat, Bring, Free, Order, Slot, Take};
use crate::seat::KeySeat;
use crate::slots::{empty_slots, lay, lift};
use crate::taken::Taken;
use crate::view::View;
use atomic_table::{Refused, Seat, Table};
use key_locks::StripeRight;
use std::alloc::{AllocError, Global};
use txn_words::Refusal;

/// A word for each stripe, and the rights of the stripes that no seat holds.
#[derive(Drop)]
pub struct KeyWords {
    pub(crate) table: Table<Slot, View, (), Order, Global>,
    ghost sized: { table.shared.table_id.slots ≡ table.shared.table_id.words },
}

/// A list of `count` words, each 0.
fn zeros(alloc: Global, count: usize) -> Result<Vec<u64>, AllocError>
    ensures { IfOk result (λ words. words.items ≡ replicate count 0) }
{
    vec![in alloc; 0; count]
}

impl KeyWords {
    ghost use Rattle.key_words.specs.Seats.{AreSeats, IsOf, Takes, known, stripes_of};

    /// Makes a word for the stripe of each right in `rights`, and the given number of seats. The
    /// seats are returned in the order of their numbers, from 0. All stripes are free.
    ///
    /// # Errors
    ///
    /// `Refusal::NoMemory` if memory is refused. The error then also has the rights that were
    /// passed in.
    ///
    /// # Cost
    ///
    /// Time and memory in proportion to the number of stripes and seats.
    pub fn new(
        alloc: Global,
        mut rights: Vec<StripeRight>,
        seats: usize,
    ) -> Result<(KeyWords, Vec<KeySeat>), (Refusal, Vec<StripeRight>)>
        requires stripes { 0 < vec_len rights }
        requires rights { AreAll (vec_len rights) rights.items }
        requires any_seat { 0 < seats }
        requires few_seats { seats ≤ 64 }
        ensures stripes { IfOk result (λ made. stripes_of made.0 ≡ vec_len rights) }
        ensures seats { IfOk result (λ made. AreSeats made.0 seats made.1.items) }
        ensures refusal { IfErr result (λ refused. refused.0 ≡ Refusal.NoMemory) }
        ensures handed_back { IfErr result (λ refused. AreAll (vec_len rights) refused.1.items) }
    {
        let stripes = rights.len();
        let Ok(words) = zeros(alloc, stripes) else {
            return Err((Refusal::NoMemory, rights));
        };
        let Ok(mut slots) = empty_slots(alloc, stripes) else {
            return Err((Refusal::NoMemory, rights));
        };
        let Ok(room) = Vec::with_capacity(alloc, seats) else {
            return Err((Refusal::NoMemory, rights));
        };
        lay(&mut rights, &mut slots);
        match Table::new(alloc, &words, slots, &()) {
            Ok((table, first)) => {
                let words = KeyWords { table };
                let all = words.make_seats(first, room, seats);
                Ok((words, all))
            }
            Err(Refused { mut slots }) => {
                lift(&mut slots, &mut rights);
                Err((Refusal::NoMemory, rights))
            }
        }
    }

    /// Makes the other seats by splitting them off the first seat. Returns all seats, including the
    /// first, in the order of their numbers.
    fn make_seats(
        &self,
        mut first: Seat<Slot, View>,
        mut all: Vec<KeySeat>,
        seats: usize,
    ) -> Vec<KeySeat>
        requires first { (first.table_id ≡ self.now.table.shared.table_id)
            × (first.me ≡ (view 0 1 [] [], [])) }
        requires words { 0 < stripes_of self.now }
        requires seats { (0 < seats) × (seats ≤ 64) }
        requires room { (all.items ≡ []) × (vec_capacity all ≡ seats) }
        ensures { AreSeats self.now seats result.items }
    {
        for number in 1..seats {
            let seat = self.table.shared.split_seat::<AddSeat>(&mut first);
            all.push_reserved(KeySeat::fresh(number, seat));
        }
        let Ok(()) = all.insert(0, KeySeat::fresh(0, first)) else {
            unreachable!()
        };
        all
    }

    /// Tries once to take a stripe, and never waits: the try is one compare-exchange of the
    /// stripe's word. The seat notes the word that the try saw.
    ///
    /// Returns `Granted`, with the stripe's right, exactly if that word was 0. Otherwise, returns
    /// `Held`, with that word.
    pub fn take(&self, seat: &mut KeySeat, stripe: usize) -> Taken
        requires seat { IsOf seat.old self.now }
        requires stripe { stripe < stripes_of self.now }
        ensures seat { IsOf seat.new self.now }
        ensures taken { Takes stripe (known seat.old) result (known seat.new) }
    {
        let shared = &self.table.shared;
        let own = seat.number + 1;
        let found = shared.compare_exchange::<Take>(&mut seat.seat, stripe, 0, own);
        if found != 0 {
            return Taken::Held(found);
        }
        match shared.exchange(&mut seat.seat, stripe, None) {
            Some(right) => Taken::Granted(right),
            None => unreachable!(),
        }
    }

    /// Gives back the stripe of a right, and leaves the seat's other stripes unchanged. There are
    /// three steps:
    /// - A load makes the stripe's slot the first in the seat's order of its slots. It changes
    ///   neither the word nor the slot.
    /// - An exchange puts the right into the slot.
    /// - A store sets the word to 0, so the stripe is free.
    pub fn give(&self, seat: &mut KeySeat, right: StripeRight)
        requires seat { IsOf seat.old self.now }
        requires held { Holds (known seat.old) right }
        ensures seat { IsOf seat.new self.now }
        ensures given { known seat.new ≡ lost (known seat.old) right }
    {
        let shared = &self.table.shared;
        let stripe = right.stripe();
        shared.load::<Bring>(&mut seat.seat, stripe);
        drop(shared.exchange(&mut seat.seat, stripe, Some(right)));
        shared.store::<Free>(&mut seat.seat, stripe, 0);
    }
}
