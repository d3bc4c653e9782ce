//! Draws histories from a seed, and spoils a history at one place. The modules `histories` and
//! `orders` judge them, and this module has no tests. The module `plain`, and not `history_check`,
//! says which entries a caller may add, so `history_check` is never compared with itself.
use super::plain::{self, Place};
use std::alloc::{AllocError, Global};
use txn_words::{Entry, Holder, Op, Reply};

/// The numbers of callers. A history has one to four callers, which have the first numbers of this
/// list.
const CALLERS: [u64; 4] = [0, 1, 7, 63];

/// Numbers that a seed determines, by Knuth's linear congruential generator (MMIX).
#[derive(Drop)]
pub(super) struct Draws(pub(super) u64);

impl Draws {
    /// A number below the bound, or 0 if the bound is 0.
    pub(super) fn below(&mut self, bound: u64) -> u64 {
        self.0 = self
            .0
            .wrapping_mul(6_364_136_223_846_793_005)
            .wrapping_add(1_442_695_040_888_963_407);
        (self.0 >> 33).checked_rem(bound).unwrap_or(0)
    }

    /// One of the first `callers` numbers of `CALLERS`.
    fn caller(&mut self, callers: u64) -> u64 {
        let place = self.below(callers);
        CALLERS.get(place as usize).copied().unwrap_or(0)
    }

    /// An operation on one of few keys.
    fn op(&mut self) -> Op {
        let key = match self.below(20) {
            0 => u64::MAX,
            1 => (1 << 63) | self.below(6),
            _ => self.below(6),
        };
        match self.below(6) {
            0 | 1 => Op::Put(key, self.below(4)),
            2 => Op::Take(key),
            3 => Op::PutIf(key, None, self.below(4)),
            4 => Op::PutIf(key, Some(self.below(4)), self.below(4)),
            _ => Op::Get(key),
        }
    }
}

/// The store whose history is drawn.
#[derive(Clone, Copy)]
pub(super) enum Way {
    /// It has so many stripes. A Busy entry names a caller that the rule allows.
    Locked(u64, Holder),
    /// It has no locks: a transaction reads what is committed when it asks. One of so many replies
    /// is a lie; if the number is 0, none is.
    Unlocked(u64),
}

/// A history of this number of entries. It has the right shape, and is legal if there are locks.
pub(super) fn history(
    alloc: Global,
    draws: &mut Draws,
    way: Way,
    length: u64,
) -> Result<Vec<Entry>, AllocError> {
    let callers = draws.below(4).wrapping_add(1);
    let mut history = Vec::new(alloc);
    for _ in 0..length {
        add_entry(alloc, draws, &mut history, callers, way)?;
    }
    Ok(history)
}

/// Draws one of the first `callers` callers, and adds an entry that this caller may add.
fn add_entry(
    alloc: Global,
    draws: &mut Draws,
    history: &mut Vec<Entry>,
    callers: u64,
    way: Way,
) -> Result<(), AllocError> {
    let caller = draws.caller(callers);
    let entry = next_entry(alloc, draws, history, caller, way)?;
    history.push(entry)?;
    Ok(())
}

/// An entry that the caller may add.
fn next_entry(
    alloc: Global,
    draws: &mut Draws,
    history: &[Entry],
    caller: u64,
    way: Way,
) -> Result<Entry, AllocError> {
    let entries = plain::last_of(alloc, caller, history)?;
    let kept = plain::standing_at_levels(alloc, &entries)?;
    let standing = plain::count_standing(&entries);
    Ok(match plain::place_after(&entries) {
        Place::Closed => {
            let began = plain::counts_of(history).began;
            Entry::Began(caller, began.saturating_add(1))
        }
        Place::Asked if draws.below(10) == 0 => Entry::Leave(caller, None),
        Place::Asked => Entry::Did(caller, next_reply(alloc, draws, history, caller, way)?),
        Place::LeavingTo(level) => match kept.get(level as usize) {
            Some(kept) if standing <= *kept => Entry::Returned(caller, level),
            _ => Entry::Undone(caller),
        },
        Place::LeavingToEnd if standing == 0 => Entry::Aborted(caller),
        Place::LeavingToEnd => Entry::Undone(caller),
        Place::Open => next_in_open(draws, history, caller, way, kept.len() as u64),
    })
}

/// The reply to the operation that the caller has asked for, or a lie.
fn next_reply(
    alloc: Global,
    draws: &mut Draws,
    history: &[Entry],
    caller: u64,
    way: Way,
) -> Result<Reply, AllocError> {
    match way {
        Way::Unlocked(lies) if 0 < lies && draws.below(lies) == 0 => Ok(Some(draws.below(6))),
        _ => plain::reply_alone(alloc, history, caller),
    }
}

/// An entry that the caller may add in an open transaction with this number of levels.
fn next_in_open(draws: &mut Draws, history: &[Entry], caller: u64, way: Way, levels: u64) -> Entry {
    match draws.below(12) {
        0 | 1 => Entry::Saved(caller),
        2 => Entry::Leave(caller, None),
        3 => Entry::Leave(caller, Some(draws.below(levels))),
        4 => {
            let committed = plain::counts_of(history).committed;
            Entry::Committed(caller, committed.saturating_add(1))
        }
        _ => match way {
            Way::Unlocked(_) => Entry::Asked(caller, draws.op()),
            Way::Locked(stripes, holder) => {
                let is_early = holder == Holder::Begun && draws.below(4) == 0;
                next_operation(history, caller, draws.op(), stripes, is_early)
            }
        },
    }
}

/// The entry for an operation in an open transaction: a Busy entry if another caller holds the
/// stripe, and otherwise an Asked entry. If `is_early` is true, the stripe was tested some time
/// before the entry is recorded. The holder may have given the stripe back since then, so any other
/// caller that has begun counts as a holder.
fn next_operation(history: &[Entry], caller: u64, op: Op, stripes: u64, is_early: bool) -> Entry {
    let stripe = plain::stripe_of(op, stripes);
    for other in CALLERS {
        let was_held = is_early && plain::has_begun(history, other);
        if other != caller && (was_held || plain::holds(history, other, stripe, stripes)) {
            return Entry::Busy(caller, op, other);
        }
    }
    Entry::Asked(caller, op)
}

/// Spoils a history at one place: an entry is dropped, doubled, moved or changed. The history may
/// still be legal.
pub(super) fn spoil(draws: &mut Draws, history: &mut Vec<Entry>) -> Result<(), AllocError> {
    if history.is_empty() {
        return Ok(());
    }
    let place = draws.below(history.len() as u64) as usize;
    if history.len() <= place {
        return Ok(());
    }
    match draws.below(16) {
        0 => {
            history.remove(place);
        }
        1 => history.insert(place, history[place])?,
        2 => history.swap(place / 2, place),
        3 if 0 < place => history.swap(place - 1, place),
        4..8 => history[place] = change_entry(draws, history[place]),
        _ => change_operation(draws, history, place),
    }
    Ok(())
}

/// Changes the first Asked, Did or Busy entry at or after a place.
fn change_operation(draws: &mut Draws, history: &mut [Entry], place: usize) {
    for entry in history.iter_mut().skip(place) {
        if let Entry::Asked(..) | Entry::Did(..) | Entry::Busy(..) = *entry {
            *entry = change_entry(draws, *entry);
            return;
        }
    }
}

/// The entry, with its number, reply, operation or caller replaced by a drawn one. The result may
/// be the same entry.
fn change_entry(draws: &mut Draws, entry: Entry) -> Entry {
    let caller = entry.caller();
    let other = draws.caller(4);
    let number = draws.below(6);
    match entry {
        Entry::Began(..) => Entry::Began(caller, number),
        Entry::Asked(..) => Entry::Asked(caller, draws.op()),
        Entry::Did(..) => Entry::Did(caller, (number < 4).then_some(number)),
        Entry::Saved(_) => Entry::Saved(other),
        Entry::Leave(..) => Entry::Leave(caller, (number < 4).then_some(number)),
        Entry::Undone(_) => Entry::Undone(other),
        Entry::Returned(..) => Entry::Returned(caller, number),
        Entry::Committed(..) => Entry::Committed(caller, number),
        Entry::Busy(_, op, _) if number == 0 => Entry::Asked(caller, op),
        Entry::Busy(_, op, _) => Entry::Busy(caller, op, other),
        Entry::Aborted(_) => Entry::Aborted(other),
    }
}
