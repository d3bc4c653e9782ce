//! A caller's hand: its seat, and the stripes, changes and levels of its transaction.
//!
//! The shards of the stripes that the hand holds stay in their slots. A method may be called only in
//! the right phase of a transaction, which the hand does not test.
ghost use Rattle.std.specs.Prelude.{◌≡◌, ◌≢◌, ℕ, ◌+◌, ◌-◌, ◌/◌, ◌<◌, ◌≤◌, ◌%◌, ◌^◌, [], ◌∷◌, IfOk, IfErr, IfSome, OnOk, OnErr, None, Some, true, slice_get, slice_index, length, take, drop};
ghost use mathlib.Core.List.{IsPrefix};
ghost use Rattle.txn_words.specs.declared.entry.Entry.TheVariants.{Began, Asked, Did, Saved, Leave, Returned, Committed};
ghost use Rattle.txn_words.specs.declared.stance.Phase.TheVariants.{Closed, Opened};
ghost use Rattle.txn_trace.specs.Locks.{stripe_of};
ghost use Rattle.txn_words.specs.Map.{count_of, key_of};
ghost use Rattle.txn_words.specs.declared.op.Op.TheVariants.{Get};
ghost use Rattle.txn_trace.specs.Log.{rolled_back};
ghost use Rattle.striped_map.specs.Contents.{rows_with};
ghost use Rattle.txn_words.specs.declared.refusal.Refusal.TheVariants.{NoMemory};
ghost use Rattle.txn_trace.specs.Now.{now};
ghost use Rattle.txn_words.specs.declared.holder.Holder.TheVariants.{Begun};
ghost use Rattle.txn_words.specs.Shape.{own};
ghost use Rattle.txn_trace.specs.Legal.{IsLegal};
ghost use Rattle.txn_words.specs.Owed.{may_change};
ghost use Rattle.stripe_shard.specs.Calls.{IsRefused};
ghost use Rattle.striped_map.specs.Additions.{above, due, entries_of};
ghost use Rattle.striped_map.specs.Handling.{GainsAtMost, HoldsAllOf, IsEnd, IsMiss, KeepsHeld, idle};
ghost use Rattle.striped_map.specs.Lone.{RunsAlone};
ghost use Rattle.striped_map.specs.declared.keep.Keep.TheVariants.{Entries};
ghost use Rattle.striped_map.specs.Rule.{Holds, most};
ghost use Rattle.striped_map.specs.Seats.{HasRoom, IsNext, IsOf, keep_of, known, shard_in, stripes_of};
ghost use Rattle.striped_map.specs.Sound.{AreHeld, AreLogged, IsIndexed, IsSound, held_shards};
ghost use Rattle.striped_map.specs.Steps.{AreMade, Gathers, IsAt, SeesIn, counting, renumbered, stance_of, taken_in, told_of, undoing};

use crate::addition::Addition;
use crate::apart::Apart;
use crate::contents;
use crate::keep::Keep;
use crate::map::{StripedMap, Taken};
use crate::record::{Records, Told, told_of};
use crate::seat::MapSeat;
use std::alloc::{AllocError, Global};
use std::hint;
use txn_trace::{Op, Refusal, Reply};
use txn_words::Stop;

/// How often a call that takes every stripe tries to take a stripe that another caller holds. Such
/// a caller mostly gives the stripe back within a microsecond, but later if its thread was
/// interrupted. All tries together take some 50 milliseconds.
const TRIES: usize = 1_000_000;

/// A change that can be taken back: the place of its stripe in the list of held stripes, its
/// sub-key, and the value before the change.
type Change = (usize, u64, Option<u64>);

/// A list of stripes, or of numbers of changes. A number takes 8 bytes.
pub(crate) type Numbers = Apart<usize, 16>;

/// For each stripe, a place. It takes 2 bytes.
type Index = Apart<u16, 64>;

/// The changes, the newest last. Each takes 32 bytes.
type Order = Apart<Change, 4>;

/// A seat, the stripes that it holds, and the changes that can be taken back. A hand may be dropped
/// only if it holds no stripe.
pub(crate) struct Hand {
    pub(crate) seat: MapSeat,
    held: Numbers,
    index: Index,
    order: Order,
    levels: Numbers,
    ghost sound: { IsSound seat.seat.table_id.slots (known seat) (held_shards seat held.items)
        order.items levels.items },
    ghost indexed: { IsIndexed held.items index.items },
}

/// The place of a stripe in the list of held stripes, if the stripe is held. The index may have any
/// place for a stripe that is not held, so the function also tests that the list has the stripe at
/// this place.
#[inline(always)]
fn place_of(held: &Numbers, index: &Index, stripe: usize) -> Option<usize>
    requires indexed { IsIndexed held.now.items index.now.items }
    requires small { stripe < 2 ^ 63 }
    ensures some { IfSome result (λ place. slice_get held.now.items place ≡ Some stripe) }
    ensures none { result ≡ None → (place : ℕ)
        → slice_get held.now.items place ≢ Some stripe }
{
    let found = index.get(stripe)?;
    let place = usize::from(found);
    if held.get(place)? == stripe {
        Some(place)
    } else {
        None
    }
}

/// How many changes the transaction had when the savepoint of this level was set. For level 0 this
/// is 0.
fn mark_of(levels: &Numbers, level: usize) -> usize
    requires { level ≤ length levels.now.items }
    ensures { result ≡ slice_index (0 ∷ levels.now.items) level }
{
    if level == 0 { 0 } else { levels.at(level - 1) }
}

/// The same operation on another key.
#[inline(always)]
fn under(op: Op, key: u64) -> Op
    ensures { result ≡ Rattle.striped_map.specs.Handling.under op key }
{
    match op {
        Op::Put(_, value) => Op::Put(key, value),
        Op::Take(_) => Op::Take(key),
        Op::Get(_) => Op::Get(key),
        Op::PutIf(_, expected, value) => Op::PutIf(key, expected, value),
    }
}

/// Takes changes back in the shards of the held stripes, the newest change first, until `mark`
/// changes remain. Takes no memory.
fn take_back(map: &StripedMap, seat: &mut MapSeat, held: &Numbers, order: &mut Order, mark: usize)
    requires map { IsOf seat.old map.now }
    requires mark { mark ≤ length order.old.items }
    requires shards { AreHeld (stripes_of map.now) (known seat.old)
        (held_shards seat.old held.now.items) (now (known seat.old).seen) }
    requires logged { AreLogged (stripes_of map.now) (held_shards seat.old held.now.items)
        order.old.items (due (known seat.old)) }
    ensures map { IsOf seat.new map.now }
    ensures known { known seat.new ≡ known seat.old }
    ensures shards { AreHeld (stripes_of map.now) (known seat.old)
        (held_shards seat.new held.now.items) (rolled_back (now (known seat.old).seen)
        (take (length order.old.items - mark) (due (known seat.old)))) }
    ensures logged { AreLogged (stripes_of map.now) (held_shards seat.new held.now.items)
        order.new.items (drop (length order.old.items - mark) (due (known seat.old))) }
    ensures len { length order.new.items ≡ mark }
    ensures room { HasRoom seat.old → HasRoom seat.new }
{
    while mark < order.len() {
        let Some((place, key, before)) = order.pop() else {
            unreachable!()
        };
        map.take_back(seat, held.at(place), key, before);
    }
}

/// Gives all stripes back. The transaction must be over.
fn give_all(map: &StripedMap, seat: &mut MapSeat, held: &mut Numbers)
    requires map { IsOf seat.old map.now }
    requires over { IsAt Closed (known seat.old) }
    requires shards { AreHeld (stripes_of map.now) (known seat.old)
        (held_shards seat.old held.old.items) (now (known seat.old).seen) }
    ensures map { IsOf seat.new map.now }
    ensures idle { known seat.new ≡ idle (known seat.old) }
    ensures none { held.new.items ≡ [] }
{
    while let Some(stripe) = held.pop() {
        map.give(seat, stripe);
    }
}

impl Hand {
    ghost use Rattle.striped_map.specs.Hands.{GoesOn, ReadsPairs, IsCut, IsStopped, IsUnread, MovesHand};

    /// A hand that holds no stripe. Its seat has seen a legal history without entries of its own.
    pub(crate) fn new(alloc: Global, seat: MapSeat) -> Hand
        requires legal { IsLegal Begun seat.seat.table_id.slots (known seat).seen }
        requires unused { own (known seat).number (known seat).seen ≡ [] }
        requires held { (known seat).held ≡ [] }
        ensures { result.seat ≡ seat }
    {
        Hand {
            seat,
            held: Apart::new(alloc),
            index: Apart::new(alloc),
            order: Apart::new(alloc),
            levels: Apart::new(alloc),
        }
    }

    /// Begins a transaction. May need memory if the map keeps its entries.
    #[tactic(auto, using(crate::proofs::Ends::held_added, crate::proofs::Ends::nothing_due))]
    pub(crate) fn begin(&mut self, map: &StripedMap) -> Result<(), AllocError>
        requires map { IsOf self.old.seat map.now }
        requires closed { IsAt Closed (known self.old.seat) }
        requires idle { (known self.old.seat).held ≡ [] }
        ensures map { IsOf self.new.seat map.now }
        ensures open { OnOk result (IsAt Opened (known self.new.seat)) }
        ensures levels { OnOk result (self.new.levels.items ≡ []) }
        ensures fresh { OnOk result (due (known self.new.seat) ≡ []) }
        ensures still { (known self.new.seat).held ≡ (known self.old.seat).held }
        ensures begun { OnOk result ((t : ℕ) × MovesHand map.now self.old
            (Began (known self.old.seat).number t ∷ []) self.new) }
        ensures err { OnErr result ((known self.old.seat).keep ≡ Entries) }
        ensures unchanged { OnErr result (self.new.seat.seat ≡ self.old.seat.seat) }
    {
        self.seat.make_room()?;
        self.order.clear();
        self.levels.clear();
        map.begin(&mut self.seat);
        Ok(())
    }

    /// Takes a stripe, unless the hand holds it already. Returns the place of the stripe in the
    /// list of held stripes.
    #[inline(always)]
    #[tactic(auto, using(crate::proofs::Ends::holds_found, crate::proofs::Ends::gained_found))]
    fn hold(&mut self, map: &StripedMap, stripe: usize) -> Result<usize, Stop>
        requires map { IsOf self.old.seat map.now }
        requires open { IsAt Opened (known self.old.seat) }
        requires stripe { stripe < stripes_of map.now }
        ensures map { IsOf self.new.seat map.now }
        ensures open { IsAt Opened (known self.new.seat) }
        ensures goes_on { GoesOn map.now self.old self.new }
        ensures held { IfOk result (λ place. slice_get self.new.held.items place ≡ Some stripe) }
        ensures gained { GainsAtMost stripe (known self.old.seat).held (known self.new.seat).held }
        ensures order { self.new.order ≡ self.old.order }
        ensures levels { self.new.levels ≡ self.old.levels }
        ensures miss { IfErr result (IsMiss (known self.new.seat)) }
    {
        if let Some(place) = place_of(&self.held, &self.index, stripe) {
            return Ok(place);
        }
        if self.held.has_room() && self.index.has(stripe) {
            return self.take(map, stripe);
        }
        self.take_with_room(map, stripe)
    }

    /// Takes a stripe that the hand does not hold, after it has made room for it in the lists.
    #[cold]
    #[inline(never)]
    fn take_with_room(&mut self, map: &StripedMap, stripe: usize) -> Result<usize, Stop>
        requires map { IsOf self.old.seat map.now }
        requires open { IsAt Opened (known self.old.seat) }
        requires stripe { stripe < stripes_of map.now }
        requires away { (place : ℕ) → slice_get self.old.held.items place ≢ Some stripe }
        ensures map { IsOf self.new.seat map.now }
        ensures open { IsAt Opened (known self.new.seat) }
        ensures goes_on { GoesOn map.now self.old self.new }
        ensures held { IfOk result (λ place. slice_get self.new.held.items place ≡ Some stripe) }
        ensures gained { GainsAtMost stripe (known self.old.seat).held (known self.new.seat).held }
        ensures order { self.new.order ≡ self.old.order }
        ensures levels { self.new.levels ≡ self.old.levels }
        ensures miss { IfErr result (IsMiss (known self.new.seat)) }
    {
        if self.held.reserve(1).is_err() {
            return Err(Stop::Refused(Refusal::NoMemory));
        }
        let Ok(()) = self.index.fill(map.stripes(), 0) else {
            return Err(Stop::Refused(Refusal::NoMemory));
        };
        self.take(map, stripe)
    }

    /// Takes a stripe that the hand does not hold. The lists must have room for it.
    #[inline(always)]
    #[tactic(auto, using(crate::proofs::Ends::holds_taken, crate::proofs::Ends::gained_taken))]
    fn take(&mut self, map: &StripedMap, stripe: usize) -> Result<usize, Stop>
        requires map { IsOf self.old.seat map.now }
        requires open { IsAt Opened (known self.old.seat) }
        requires stripe { stripe < stripes_of map.now }
        requires away { (place : ℕ) → slice_get self.old.held.items place ≢ Some stripe }
        requires room { 0 < self.old.held.room }
        requires index { stripe < length self.old.index.items }
        ensures map { IsOf self.new.seat map.now }
        ensures open { IsAt Opened (known self.new.seat) }
        ensures goes_on { GoesOn map.now self.old self.new }
        ensures held { IfOk result (λ place. slice_get self.new.held.items place ≡ Some stripe) }
        ensures gained { GainsAtMost stripe (known self.old.seat).held (known self.new.seat).held }
        ensures order { self.new.order ≡ self.old.order }
        ensures levels { self.new.levels ≡ self.old.levels }
        ensures miss { IfErr result (IsMiss (known self.new.seat)) }
    {
        match map.take(&mut self.seat, stripe) {
            Taken::Granted => {
                let place = self.held.push_reserved(stripe);
                // A map has at most 4,096 stripes, so a place is below 4,096.
                self.index.set(stripe, place as u16);
                Ok(place)
            }
            Taken::Denied(holder) => Err(Stop::Busy { holder }),
        }
    }

    /// Takes a stripe, unless the hand holds it already. While another caller holds the stripe, tries
    /// again, `TRIES` times in all. The hand waits for no one: it gives up after its tries, with the
    /// stripes that it holds.
    #[tactic(auto, using(crate::proofs::Ends::went_on))]
    fn hold_patiently(&mut self, map: &StripedMap, stripe: usize) -> Result<usize, Stop>
        requires map { IsOf self.old.seat map.now }
        requires open { IsAt Opened (known self.old.seat) }
        requires stripe { stripe < stripes_of map.now }
        ensures map { IsOf self.new.seat map.now }
        ensures open { IsAt Opened (known self.new.seat) }
        ensures goes_on { GoesOn map.now self.old self.new }
        ensures held { IfOk result (λ place. slice_get self.new.held.items place ≡ Some stripe) }
        ensures levels { self.new.levels ≡ self.old.levels }
        ensures miss { IfErr result (IsMiss (known self.new.seat)) }
    {
        for _ in 1..TRIES {
            match self.hold(map, stripe) {
                Err(Stop::Busy { holder: _ }) => hint::spin_loop(),
                done => return done,
            }
        }
        self.hold(map, stripe)
    }

    /// Takes all stripes that the hand does not hold yet. If a stripe stays busy, the transaction is
    /// aborted, and the history gets a Busy entry for a get of a key of this stripe.
    #[tactic(auto, using(crate::proofs::Ends::moved_still, crate::proofs::Ends::moved_on, crate::proofs::Ends::moved_busy))]
    fn hold_all(&mut self, map: &StripedMap) -> Result<(), Stop>
        requires map { IsOf self.old.seat map.now }
        requires open { IsAt Opened (known self.old.seat) }
        ensures map { IsOf self.new.seat map.now }
        ensures levels { OnOk result (self.new.levels ≡ self.old.levels) }
        ensures ok { OnOk result (IsAt Opened (known self.new.seat)
            × MovesHand map.now self.old [] self.new) }
        ensures all { OnOk result (HoldsAllOf (stripes_of map.now) (known self.new.seat)) }
        ensures keeps { IsAt Opened (known self.new.seat)
            → KeepsHeld (known self.old.seat) (known self.new.seat) }
        ensures err { IfErr result (IsCut map.now self.old self.new) }
    {
        for stripe in 0..map.stripes() {
            match self.hold_patiently(map, stripe) {
                Ok(_) => {}
                Err(Stop::Busy { holder }) => {
                    self.leave(map, Addition::Yield(Op::Get(stripe as u64), holder));
                    return Err(Stop::Busy { holder });
                }
                Err(Stop::Refused(refusal)) => return Err(Stop::Refused(refusal)),
            }
        }
        Ok(())
    }

    /// Takes all stripes, and returns how many pairs the map has.
    pub(crate) fn len(&mut self, map: &StripedMap) -> Result<u64, Stop>
        requires map { IsOf self.old.seat map.now }
        requires open { IsAt Opened (known self.old.seat) }
        ensures map { IsOf self.new.seat map.now }
        ensures levels { OnOk result (self.new.levels ≡ self.old.levels) }
        ensures ok { IfOk result (λ count. IsAt Opened (known self.new.seat)
            × MovesHand map.now self.old [] self.new
            × (count ≡ count_of (now (known self.new.seat).seen))) }
        ensures all { OnOk result (HoldsAllOf (stripes_of map.now) (known self.new.seat)) }
        ensures keeps { IsAt Opened (known self.new.seat)
            → KeepsHeld (known self.old.seat) (known self.new.seat) }
        ensures err { IfErr result (IsCut map.now self.old self.new) }
    {
        self.hold_all(map)?;
        let Some(count) = contents::count_of(map, &mut self.seat, &self.held) else {
            return Err(Stop::Refused(Refusal::NoMemory));
        };
        Ok(count)
    }

    /// Takes all stripes, and returns the pairs of the map by rising keys.
    pub(crate) fn pairs(&mut self, map: &StripedMap, alloc: Global) -> Result<Vec<(u64, u64)>, Stop>
        requires map { IsOf self.old.seat map.now }
        requires open { IsAt Opened (known self.old.seat) }
        ensures map { IsOf self.new.seat map.now }
        ensures levels { OnOk result (self.new.levels ≡ self.old.levels) }
        ensures ok { IfOk result (λ pairs. IsAt Opened (known self.new.seat)
            × MovesHand map.now self.old [] self.new
            × (pairs.items ≡ (now (known self.new.seat).seen).rows)) }
        ensures all { OnOk result (HoldsAllOf (stripes_of map.now) (known self.new.seat)) }
        ensures keeps { IsAt Opened (known self.new.seat)
            → KeepsHeld (known self.old.seat) (known self.new.seat) }
        ensures err { IfErr result (IsCut map.now self.old self.new) }
    {
        self.hold_all(map)?;
        let Ok(mut pairs) = contents::pairs_of(alloc, map, &mut self.seat, &self.held) else {
            return Err(Stop::Refused(Refusal::NoMemory));
        };
        let Ok(()) = pairs.sort() else {
            return Err(Stop::Refused(Refusal::NoMemory));
        };
        Ok(pairs)
    }

    /// Takes the stripe of a key, and returns the pairs of this stripe by rising keys.
    #[tactic(auto, using(crate::proofs::Ends::moved_busy))]
    pub(crate) fn pairs_with(
        &mut self,
        map: &StripedMap,
        alloc: Global,
        key: u64,
    ) -> Result<Vec<(u64, u64)>, Stop>
        requires map { IsOf self.old.seat map.now }
        requires open { IsAt Opened (known self.old.seat) }
        ensures map { IsOf self.new.seat map.now }
        ensures levels { OnOk result (self.new.levels ≡ self.old.levels) }
        ensures ok { IfOk result (λ pairs. IsAt Opened (known self.new.seat)
            × MovesHand map.now self.old [] self.new × (pairs.items
            ≡ rows_with (stripes_of map.now) key (now (known self.new.seat).seen))) }
        ensures holds { OnOk result
            (Holds (known self.new.seat) (stripe_of (stripes_of map.now) key)) }
        ensures gained { IsAt Opened (known self.new.seat)
            → GainsAtMost (stripe_of (stripes_of map.now) key) (known self.old.seat).held
            (known self.new.seat).held }
        ensures err { IfErr result (IsStopped map.now self.old (Get key) self.new) }
    {
        let stripe = (key % map.stripes() as u64) as usize;
        match self.hold(map, stripe) {
            Ok(_) => {
                let mut pairs = Vec::new(alloc);
                match contents::add_pairs(alloc, map, &mut self.seat, stripe, &mut pairs) {
                    Ok(()) => Ok(pairs),
                    Err(_) => Err(Stop::Refused(Refusal::NoMemory)),
                }
            }
            Err(Stop::Busy { holder }) => {
                self.leave(map, Addition::Yield(Op::Get(key), holder));
                Err(Stop::Busy { holder })
            }
            Err(Stop::Refused(refusal)) => Err(Stop::Refused(refusal)),
        }
    }

    /// Looks at the history, which has all entries of the seats that were merged into this hand's
    /// seat. Returns how many numbers were given out.
    pub(crate) fn gather(&mut self, map: &StripedMap) -> u64
        requires map { IsOf self.old.seat map.now }
        ensures map { IsOf self.new.seat map.now }
        ensures gathers { Gathers (stripes_of map.now) (known self.old.seat) result
            (known self.new.seat) }
    {
        map.gather(&mut self.seat)
    }

    /// Makes a new seat, which has seen what this hand has seen. Returns `None` if all numbers were
    /// given out.
    pub(crate) fn another(&mut self, map: &StripedMap, alloc: Global) -> Option<MapSeat>
        requires map { IsOf self.old.seat map.now }
        requires keep { (known self.old.seat).keep ≡ keep_of map.now }
        ensures map { IsOf self.new.seat map.now }
        ensures levels { self.new.levels ≡ self.old.levels }
        ensures legal { IsLegal Begun (stripes_of map.now) (known self.old.seat).seen }
        ensures same { known self.new.seat ≡ renumbered (known self.old.seat) (known self.new.seat) }
        ensures some { IfSome result (IsNext map.now (known self.old.seat) (known self.new.seat)) }
        ensures none { result ≡ None
            → known self.new.seat ≡ counting (known self.old.seat) (most (keep_of map.now)) }
    {
        map.another(alloc, &mut self.seat)
    }

    /// Looks at the history. The history that this hand has seen then begins with the history that
    /// the other hand has seen.
    pub(crate) fn catch_up(&mut self, map: &StripedMap, other: &mut Hand)
        requires map { IsOf self.old.seat map.now }
        requires other { IsOf other.old.seat map.now }
        ensures map { IsOf self.new.seat map.now }
        ensures sees { SeesIn (stripes_of map.now) (known self.old.seat) (known self.new.seat) }
        ensures met { IsPrefix (known other.old.seat).seen (known self.new.seat).seen }
        ensures levels { self.new.levels ≡ self.old.levels }
        ensures same { other.new ≡ other.old }
    {
        map.catch_up(&mut self.seat, &mut other.seat);
    }

    /// Merges another seat, which holds no stripe, into this hand's seat. The other seat then acts
    /// no more. Returns its records.
    pub(crate) fn take_in(&mut self, map: &StripedMap, other: MapSeat) -> Records
        requires map { IsOf self.old.seat map.now }
        requires other { IsOf other map.now }
        requires first { (known self.old.seat).number ≡ 0 }
        requires idle { (known other).held ≡ [] }
        requires plain { (known other).retired ≡ [] }
        ensures map { IsOf self.new.seat map.now }
        ensures taken { known self.new.seat ≡ taken_in (known self.old.seat) (known other) }
        ensures made { AreMade (known self.new.seat) }
        ensures own { self.new.seat.records ≡ self.old.seat.records }
        ensures records { result ≡ other.records }
    {
        map.take_in(&mut self.seat, other)
    }

    /// Returns the pairs of the map. The hand reads them in a separate transaction, which it then
    /// aborts.
    pub(crate) fn read(&mut self, map: &StripedMap, alloc: Global) -> Result<Vec<(u64, u64)>, Stop>
        requires map { IsOf self.old.seat map.now }
        requires closed { IsAt Closed (known self.old.seat) }
        requires idle { (known self.old.seat).held ≡ [] }
        requires first { (known self.old.seat).number ≡ 0 }
        ensures map { IsOf self.new.seat map.now }
        ensures closed { IsAt Closed (known self.new.seat) }
        ensures idle { (known self.new.seat).held ≡ [] }
        ensures number { (known self.new.seat).number ≡ (known self.old.seat).number }
        ensures retired { (known self.new.seat).retired ≡ (known self.old.seat).retired }
        ensures made { (known self.old.seat).made ≤ (known self.new.seat).made }
        ensures parent { (known self.new.seat).parent ≡ (known self.old.seat).parent }
        ensures ok { IfOk result (λ pairs. ReadsPairs map.now self.old self.new pairs.items) }
        ensures err { IfErr result (IsUnread map.now self.old self.new) }
    {
        let Ok(()) = self.begin(map) else {
            return Err(Stop::Refused(Refusal::NoMemory));
        };
        match self.pairs(map, alloc) {
            Ok(pairs) => {
                self.gather(map);
                self.leave(map, Addition::Abort);
                Ok(pairs)
            }
            Err(Stop::Busy { holder }) => Err(Stop::Busy { holder }),
            Err(Stop::Refused(refusal)) => {
                self.leave(map, Addition::Abort);
                Err(Stop::Refused(refusal))
            }
        }
    }

    /// Does an operation on the shard of the stripe at this place, with the sub-key in place of the
    /// operation's key. Adds the operation and its reply to the history. If the operation changes
    /// the shard, notes the change, so that it can be taken back.
    #[inline(always)]
    #[tactic(auto, using(crate::proofs::Ends::held_added))]
    fn apply(
        &mut self,
        keep: Keep,
        map: &StripedMap,
        place: usize,
        op: Op,
        sub_key: u64,
    ) -> Result<Reply, Refusal>
        requires keep { keep ≡ self.old.seat.keep }
        requires map { IsOf self.old.seat map.now }
        requires open { IsAt Opened (known self.old.seat) }
        requires place { slice_get self.old.held.items place
            ≡ Some (stripe_of (stripes_of map.now) (key_of op)) }
        requires sub_key { sub_key ≡ key_of op / stripes_of map.now }
        requires room { may_change op ≡ true → 0 < self.old.order.room }
        requires records { HasRoom self.old.seat }
        ensures map { IsOf self.new.seat map.now }
        ensures open { IsAt Opened (known self.new.seat) }
        ensures levels { self.new.levels ≡ self.old.levels }
        ensures done { IfOk result (λ reply. MovesHand map.now self.old
            (Asked (known self.old.seat).number op ∷ Did (known self.old.seat).number reply ∷ [])
            self.new) }
        ensures refused { IfErr result (IsRefused op) }
        ensures unmoved { OnErr result (MovesHand map.now self.old [] self.new) }
        ensures still { (known self.new.seat).held ≡ (known self.old.seat).held }
    {
        let stripe = self.held.at(place);
        let reply = map.apply(&mut self.seat, stripe, under(op, sub_key))?;
        map.add(
            &mut self.seat,
            keep,
            map.quiet(),
            Addition::Note(op, reply),
            Told::TellNote(op, reply),
        );
        if op.changes(reply) {
            self.order.push_reserved((place, sub_key, reply));
        }
        Ok(reply)
    }

    /// Makes room for a record, and does an operation on the shard of the stripe at this place.
    #[inline(always)]
    fn work(
        &mut self,
        map: &StripedMap,
        place: usize,
        op: Op,
        sub_key: u64,
    ) -> Result<Reply, Refusal>
        requires map { IsOf self.old.seat map.now }
        requires open { IsAt Opened (known self.old.seat) }
        requires place { slice_get self.old.held.items place
            ≡ Some (stripe_of (stripes_of map.now) (key_of op)) }
        requires sub_key { sub_key ≡ key_of op / stripes_of map.now }
        requires room { may_change op ≡ true → 0 < self.old.order.room }
        ensures map { IsOf self.new.seat map.now }
        ensures open { IsAt Opened (known self.new.seat) }
        ensures levels { self.new.levels ≡ self.old.levels }
        ensures done { IfOk result (λ reply. MovesHand map.now self.old
            (Asked (known self.old.seat).number op ∷ Did (known self.old.seat).number reply ∷ [])
            self.new) }
        ensures refused { IfErr result (λ refusal. refusal ≡ NoMemory) }
        ensures unmoved { OnErr result (MovesHand map.now self.old [] self.new) }
        ensures still { (known self.new.seat).held ≡ (known self.old.seat).held }
    {
        match self.seat.keep {
            Keep::Entries => {
                if self.make_room().is_err() {
                    return Err(Refusal::NoMemory);
                }
                match self.apply(Keep::Entries, map, place, op, sub_key) {
                    Ok(reply) => Ok(reply),
                    Err(refusal) => Err(refusal),
                }
            }
            keep => self.apply(keep, map, place, op, sub_key),
        }
    }

    /// Does an operation.
    #[tactic(auto, using(crate::proofs::Ends::moved_on, crate::proofs::Ends::moved_did, crate::proofs::Ends::moved_busy))]
    #[inline(always)]
    pub(crate) fn operate(&mut self, map: &StripedMap, op: Op) -> Result<Reply, Stop>
        requires map { IsOf self.old.seat map.now }
        requires open { IsAt Opened (known self.old.seat) }
        ensures map { IsOf self.new.seat map.now }
        ensures levels { OnOk result (self.new.levels ≡ self.old.levels) }
        ensures ok { IfOk result (λ reply. IsAt Opened (known self.new.seat)
            × MovesHand map.now self.old (Asked (known self.old.seat).number op
            ∷ Did (known self.old.seat).number reply ∷ []) self.new) }
        ensures gained { IsAt Opened (known self.new.seat)
            → GainsAtMost (stripe_of (stripes_of map.now) (key_of op)) (known self.old.seat).held
            (known self.new.seat).held }
        ensures err { IfErr result (IsStopped map.now self.old op self.new) }
    {
        if op.may_change() && self.order.reserve(1).is_err() {
            return Err(Stop::Refused(Refusal::NoMemory));
        }
        let stripes = map.stripes() as u64;
        let stripe = (op.key() % stripes) as usize;
        let sub_key = op.key() / stripes;
        match self.hold(map, stripe) {
            Ok(place) => match self.work(map, place, op, sub_key) {
                Ok(reply) => Ok(reply),
                Err(refusal) => Err(Stop::Refused(refusal)),
            },
            Err(Stop::Busy { holder }) => {
                self.leave(map, Addition::Yield(op, holder));
                Err(Stop::Busy { holder })
            }
            Err(Stop::Refused(refusal)) => Err(Stop::Refused(refusal)),
        }
    }

    /// Sets a savepoint, and returns its level.
    #[tactic(auto, using(crate::proofs::Ends::held_added))]
    pub(crate) fn save(&mut self, map: &StripedMap) -> Result<u64, Refusal>
        requires map { IsOf self.old.seat map.now }
        requires open { IsAt Opened (known self.old.seat) }
        ensures map { IsOf self.new.seat map.now }
        ensures open { IsAt Opened (known self.new.seat) }
        ensures levels { OnOk result (length self.new.levels.items
            ≡ length self.old.levels.items + 1) }
        ensures ok { IfOk result (λ level. (level + 1 ≡ length (stance_of (known self.new.seat)).kept)
            × MovesHand map.now self.old (Saved (known self.old.seat).number ∷ []) self.new) }
        ensures refused { IfErr result (λ refusal. refusal ≡ NoMemory) }
        ensures still { (known self.new.seat).held ≡ (known self.old.seat).held }
        ensures unchanged { OnErr result (self.new.seat.seat ≡ self.old.seat.seat) }
    {
        self.make_room()?;
        self.set_level(map)
    }

    /// Sets a savepoint, and returns its level. There must be room for the record.
    #[tactic(auto, using(crate::proofs::Ends::held_added))]
    fn set_level(&mut self, map: &StripedMap) -> Result<u64, Refusal>
        requires map { IsOf self.old.seat map.now }
        requires open { IsAt Opened (known self.old.seat) }
        requires records { HasRoom self.old.seat }
        ensures map { IsOf self.new.seat map.now }
        ensures open { IsAt Opened (known self.new.seat) }
        ensures levels { OnOk result (length self.new.levels.items
            ≡ length self.old.levels.items + 1) }
        ensures ok { IfOk result (λ level. (level + 1 ≡ length (stance_of (known self.new.seat)).kept)
            × MovesHand map.now self.old (Saved (known self.old.seat).number ∷ []) self.new) }
        ensures refused { IfErr result (λ refusal. refusal ≡ NoMemory) }
        ensures still { (known self.new.seat).held ≡ (known self.old.seat).held }
        ensures unchanged { OnErr result (self.new.seat ≡ self.old.seat) }
    {
        self.levels.reserve(1)?;
        let keep = self.seat.keep;
        map.add(
            &mut self.seat,
            keep,
            map.quiet(),
            Addition::Save,
            Told::TellSave,
        );
        self.levels.push_reserved(self.order.len());
        Ok(self.levels.len() as u64)
    }

    /// How many savepoints there are.
    pub(crate) fn levels(&self) -> u64
        ensures { result + 1 ≡ length (stance_of (known self.now.seat)).kept }
    {
        self.levels.len() as u64
    }

    /// Takes back the changes since a level's savepoint. Level 0 is the beginning of the
    /// transaction. May need memory if the map keeps its entries.
    pub(crate) fn back(&mut self, map: &StripedMap, level: usize) -> Result<(), AllocError>
        requires map { IsOf self.old.seat map.now }
        requires open { IsAt Opened (known self.old.seat) }
        requires level { level < length (stance_of (known self.old.seat)).kept }
        ensures map { IsOf self.new.seat map.now }
        ensures open { IsAt Opened (known self.new.seat) }
        ensures levels { OnOk result (length self.new.levels.items ≡ level) }
        ensures still { (known self.new.seat).held ≡ (known self.old.seat).held }
        ensures moves { OnOk result (MovesHand map.now self.old
            (Leave (known self.old.seat).number (Some level) ∷ undoing (known self.old.seat).number
            (above level (known self.old.seat)) (Returned (known self.old.seat).number level))
            self.new) }
        ensures err { OnErr result ((known self.old.seat).keep ≡ Entries) }
        ensures unchanged { OnErr result (self.new.seat.seat ≡ self.old.seat.seat) }
    {
        self.make_room()?;
        self.return_to(map, level);
        Ok(())
    }

    /// Takes back the changes since a level's savepoint. There must be room for the record.
    #[tactic(auto, using(crate::proofs::Ends::held_added))]
    fn return_to(&mut self, map: &StripedMap, level: usize)
        requires map { IsOf self.old.seat map.now }
        requires open { IsAt Opened (known self.old.seat) }
        requires level { level < length (stance_of (known self.old.seat)).kept }
        requires records { HasRoom self.old.seat }
        ensures map { IsOf self.new.seat map.now }
        ensures open { IsAt Opened (known self.new.seat) }
        ensures levels { length self.new.levels.items ≡ level }
        ensures still { (known self.new.seat).held ≡ (known self.old.seat).held }
        ensures moves { MovesHand map.now self.old
            (Leave (known self.old.seat).number (Some level) ∷ undoing (known self.old.seat).number
            (above level (known self.old.seat)) (Returned (known self.old.seat).number level))
            self.new }
    {
        let mark = mark_of(&self.levels, level);
        let count = self.order.len() - mark;
        take_back(map, &mut self.seat, &self.held, &mut self.order, mark);
        let keep = self.seat.keep;
        map.add(
            &mut self.seat,
            keep,
            map.quiet(),
            Addition::Back(level as u64, count),
            Told::TellBack(level as u64, count),
        );
        self.levels.truncate(level);
    }

    /// If the map keeps its entries, makes room for two more records.
    fn make_room(&mut self) -> Result<(), AllocError>
        ensures seat { self.new.seat.seat ≡ self.old.seat.seat }
        ensures held { self.new.held ≡ self.old.held }
        ensures order { self.new.order ≡ self.old.order }
        ensures levels { self.new.levels ≡ self.old.levels }
        ensures keep { self.new.seat.keep ≡ self.old.seat.keep }
        ensures ok { OnOk result (HasRoom self.new.seat) }
        ensures err { OnErr result ((known self.old.seat).keep ≡ Entries) }
    {
        self.seat.make_room()
    }

    /// Commits the transaction and gives the stripes back. If the map keeps the number of commits,
    /// returns the place of the commit, modulo 2^64.
    pub(crate) fn commit(&mut self, map: &StripedMap) -> Option<u64>
        requires map { IsOf self.old.seat map.now }
        requires open { IsAt Opened (known self.old.seat) }
        ensures map { IsOf self.new.seat map.now }
        ensures closed { IsAt Closed (known self.new.seat) }
        ensures idle { (known self.new.seat).held ≡ [] }
        ensures committed { (place : ℕ) × (result ≡ told_of (known self.old.seat).keep place)
            × MovesHand map.now self.old (Committed (known self.old.seat).number place ∷ [])
            self.new × RunsAlone (known self.old.seat).number place (known self.new.seat).seen }
    {
        let place = map.commit(&mut self.seat);
        self.order.clear();
        self.levels.clear();
        give_all(map, &mut self.seat, &mut self.held);
        place
    }

    /// Takes all changes of the transaction back, adds `what` to the history, which ends the
    /// transaction, and gives the stripes back.
    pub(crate) fn leave(&mut self, map: &StripedMap, what: Addition)
        requires map { IsOf self.old.seat map.now }
        requires open { IsAt Opened (known self.old.seat) }
        requires may { IsEnd (known self.old.seat) what }
        ensures map { IsOf self.new.seat map.now }
        ensures closed { IsAt Closed (known self.new.seat) }
        ensures idle { (known self.new.seat).held ≡ [] }
        ensures moves { MovesHand map.now self.old
            (entries_of (known self.old.seat) what) self.new }
    {
        let told = told_of(what, self.order.len());
        take_back(map, &mut self.seat, &self.held, &mut self.order, 0);
        let keep = self.seat.keep;
        map.add(&mut self.seat, keep, map.quiet(), what, told);
        self.order.clear();
        self.levels.clear();
        give_all(map, &mut self.seat, &mut self.held);
    }
}

impl Hand {
    /// The seat of a hand that holds no stripe.
    pub(crate) fn into_seat(self) -> MapSeat
        requires idle { (known self.seat).held ≡ [] }
        ensures { result ≡ self.seat }
    {
        let Hand {
            seat,
            held: _,
            index: _,
            order: _,
            levels: _,
        } = self;
        seat
    }
}

impl Drop for Hand {
    fn drop(self)
        requires idle { (known self.seat).held ≡ [] }
    {
        let Hand {
            seat: _,
            held: _,
            index: _,
            order: _,
            levels: _,
        } = self;
    }
}
