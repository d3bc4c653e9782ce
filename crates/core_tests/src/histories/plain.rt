//! The slow program with which the checker is compared. It applies the rules of a legal history
//! word for word, on whole maps.
//!
//! The program judges each prefix of a history from the beginning. It counts by reading the list of
//! entries again, while the checker keeps numbers. It runs each transaction again on copies of
//! maps, while the checker keeps one map.

use history_check::{Rule, Verdict};
use std::alloc::{AllocError, Global};
use std::collections::BTreeMap;
use txn_words::{Entry, Holder, Op, Reply};

pub(super) type Values = BTreeMap<u64, u64>;

/// The phase of a caller, as the rule of shape defines it.
#[derive(Clone, Copy, PartialEq, Eq)]
pub(super) enum Place {
    Closed,
    Open,
    Asked,
    LeavingTo(u64),
    LeavingToEnd,
}

/// The entries of a caller, beginning with its last Began entry.
pub(super) fn last_of(
    alloc: Global,
    caller: u64,
    history: &[Entry],
) -> Result<Vec<Entry>, AllocError> {
    let mut entries = Vec::new(alloc);
    for entry in history {
        if entry.caller() == caller {
            if let Entry::Began(..) = *entry {
                entries.clear();
            }
            entries.push(*entry)?;
        }
    }
    Ok(entries)
}

/// The phase of a caller after these entries of its transaction. The last entry that is not an
/// Undone entry determines the phase.
pub(super) fn place_after(entries: &[Entry]) -> Place {
    for entry in entries.iter().rev() {
        return match *entry {
            Entry::Undone(_) => continue,
            Entry::Began(..) | Entry::Did(..) | Entry::Saved(_) | Entry::Returned(..) => {
                Place::Open
            }
            Entry::Asked(..) => Place::Asked,
            Entry::Leave(_, Some(level)) => Place::LeavingTo(level),
            Entry::Leave(_, None) | Entry::Busy(..) => Place::LeavingToEnd,
            Entry::Committed(..) | Entry::Aborted(_) => Place::Closed,
        };
    }
    Place::Closed
}

/// The number of changes that stand after a transaction's entries. This is the number of changes
/// done minus the number of changes taken back.
pub(super) fn count_standing(entries: &[Entry]) -> usize {
    let mut asked = None;
    let mut done: usize = 0;
    let mut taken_back: usize = 0;
    for entry in entries {
        match *entry {
            Entry::Asked(_, op) => asked = Some(op),
            Entry::Did(_, reply) if is_change_done(asked, reply) => done = done.saturating_add(1),
            Entry::Undone(_) => taken_back = taken_back.saturating_add(1),
            _ => {}
        }
    }
    done.saturating_sub(taken_back)
}

/// Returns true if the operation that was asked for last is a change. `reply` is the reply to this
/// operation.
fn is_change_done(asked: Option<Op>, reply: Reply) -> bool {
    match asked {
        Some(Op::Put(..)) => true,
        Some(Op::Take(_)) => reply.is_some(),
        Some(Op::PutIf(_, expected, _)) => reply == expected,
        Some(Op::Get(_)) | None => false,
    }
}

/// The number of standing changes at each level. At level 0 it is 0. For each savepoint that still
/// exists, it is the number when the savepoint was set.
pub(super) fn standing_at_levels(
    alloc: Global,
    entries: &[Entry],
) -> Result<Vec<usize>, AllocError> {
    let mut kept = vec![in alloc; 0usize]?;
    for (i, entry) in entries.iter().enumerate() {
        match *entry {
            Entry::Saved(_) => kept.push(count_standing(&entries[..i]))?,
            Entry::Returned(_, level) => kept.truncate((level as usize).saturating_add(1)),
            _ => {}
        }
    }
    Ok(kept)
}

/// The numbers of transactions that began, committed and aborted.
#[derive(Clone, Copy)]
pub(super) struct Counts {
    pub(super) began: u64,
    pub(super) committed: u64,
    pub(super) aborted: u64,
}

pub(super) fn counts_of(history: &[Entry]) -> Counts {
    let mut counts = Counts {
        began: 0,
        committed: 0,
        aborted: 0,
    };
    for entry in history {
        match *entry {
            Entry::Began(..) => counts.began = counts.began.saturating_add(1),
            Entry::Committed(..) => counts.committed = counts.committed.saturating_add(1),
            Entry::Aborted(_) => counts.aborted = counts.aborted.saturating_add(1),
            _ => {}
        }
    }
    counts
}

/// Returns true if the rule of shape allows this entry after the history, and if the number in the
/// entry is right.
fn has_shape(alloc: Global, history: &[Entry], entry: &Entry) -> Result<bool, AllocError> {
    let entries = last_of(alloc, entry.caller(), history)?;
    let kept = standing_at_levels(alloc, &entries)?;
    Ok(may_come(entry, counts_of(history), &entries, &kept))
}

/// Returns true if an entry may follow the entries of its caller's transaction. The list `kept` has
/// the number of standing changes at each level.
fn may_come(entry: &Entry, counts: Counts, entries: &[Entry], kept: &[usize]) -> bool {
    let standing = count_standing(entries);
    match place_after(entries) {
        Place::Closed => match *entry {
            Entry::Began(_, txn) => txn.checked_sub(1) == Some(counts.began),
            _ => false,
        },
        Place::Open => may_come_in_open(entry, kept, counts.committed),
        Place::Asked => matches!(*entry, Entry::Did(..) | Entry::Leave(_, None)),
        Place::LeavingTo(level) => match kept.get(level as usize) {
            Some(kept) => may_come_on_the_way(entry, level, *kept, standing),
            None => false,
        },
        Place::LeavingToEnd => match *entry {
            Entry::Undone(_) => 0 < standing,
            Entry::Aborted(_) => standing == 0,
            _ => false,
        },
    }
}

/// Returns true if an entry may follow while its caller is in the phase `Open`.
fn may_come_in_open(entry: &Entry, kept: &[usize], committed: u64) -> bool {
    match *entry {
        Entry::Asked(..) | Entry::Busy(..) | Entry::Saved(_) | Entry::Leave(_, None) => true,
        Entry::Leave(_, Some(level)) => kept.get(level as usize).is_some(),
        Entry::Committed(_, place) => place.checked_sub(1) == Some(committed),
        _ => false,
    }
}

/// Returns true if an entry may follow while its caller returns to a level. `kept` is the number of
/// changes that stood when the level was set.
fn may_come_on_the_way(entry: &Entry, level: u64, kept: usize, standing: usize) -> bool {
    match *entry {
        Entry::Undone(_) => kept < standing,
        Entry::Returned(_, to) => to == level && kept == standing,
        _ => false,
    }
}

/// The stripe of an operation's key.
pub(super) fn stripe_of(op: Op, stripes: u64) -> u64 {
    op.key().checked_rem(stripes).unwrap_or(0)
}

/// Whether a caller has an open transaction that has asked for a key of the stripe.
pub(super) fn holds(history: &[Entry], caller: u64, stripe: u64, stripes: u64) -> bool {
    let mut holds = false;
    for entry in history {
        match *entry {
            _ if entry.caller() != caller => {}
            Entry::Asked(_, op) => holds = holds || stripe_of(op, stripes) == stripe,
            Entry::Committed(..) | Entry::Aborted(_) => holds = false,
            _ => {}
        }
    }
    holds
}

/// Whether a caller has begun a transaction.
pub(super) fn has_begun(history: &[Entry], caller: u64) -> bool {
    for entry in history {
        if let Entry::Began(beginner, _) = *entry {
            if beginner == caller {
                return true;
            }
        }
    }
    false
}

/// Whether a caller other than this one holds the stripe.
fn another_holds(history: &[Entry], caller: u64, stripe: u64, stripes: u64) -> bool {
    for entry in history {
        let other = entry.caller();
        if other != caller && holds(history, other, stripe, stripes) {
            return true;
        }
    }
    false
}

/// Returns true if this entry, added to the history, keeps the rule of locks.
fn is_locked(history: &[Entry], entry: &Entry, stripes: u64, holder: Holder) -> bool {
    match *entry {
        Entry::Asked(caller, op) => {
            !another_holds(history, caller, stripe_of(op, stripes), stripes)
        }
        Entry::Busy(caller, _, other) if other == caller => false,
        Entry::Busy(_, op, other) => match holder {
            Holder::Now => holds(history, other, stripe_of(op, stripes), stripes),
            Holder::Begun => has_begun(history, other),
        },
        _ => true,
    }
}

/// The map after an operation.
fn map_after(values: &Values, op: Op) -> Result<Values, AllocError> {
    let mut left = values.clone()?;
    match op {
        Op::Put(key, value) => {
            left.insert(key, value)?;
        }
        Op::Take(key) => {
            left.remove(&key);
        }
        Op::Get(_) => {}
        Op::PutIf(key, expected, value) => {
            if left.get(&key).copied() == expected {
                left.insert(key, value)?;
            }
        }
    }
    Ok(left)
}

/// The reply to an operation on these values.
fn reply_of(values: &Values, op: Op) -> Reply {
    values.get(&op.key()).copied()
}

/// Returns true if an operation is a change of these values.
fn is_change(values: &Values, op: Op) -> bool {
    match op {
        Op::Put(..) => true,
        Op::Take(key) => values.contains_key(&key),
        Op::Get(_) => false,
        Op::PutIf(key, expected, _) => values.get(&key).copied() == expected,
    }
}

/// A transaction that runs alone.
#[derive(Drop)]
struct Running {
    /// The map at the transaction's beginning, and the map after each standing change.
    maps: Vec<Values>,
    pending: Option<Op>,
    /// For each level, the number of maps when the level was set. For level 0 it is 1.
    notes: Vec<usize>,
}

impl Running {
    fn new(alloc: Global, start: &Values) -> Result<Running, AllocError> {
        Ok(Running {
            maps: vec![in alloc; start.clone()?]?,
            pending: None,
            notes: vec![in alloc; 1usize]?,
        })
    }

    /// Applies the entries in turn. Returns the last map, or `None` if an entry does not fit this
    /// run.
    fn act_all(&mut self, entries: &[Entry]) -> Result<Option<Values>, AllocError> {
        for entry in entries {
            if !self.act(entry)? {
                return Ok(None);
            }
        }
        Ok(self.maps.pop())
    }

    /// Applies an entry. Returns true if the entry fits this run.
    fn act(&mut self, entry: &Entry) -> Result<bool, AllocError> {
        match *entry {
            Entry::Asked(_, op) => self.pending = Some(op),
            Entry::Did(_, reply) => return self.reply(reply),
            Entry::Undone(_) => {
                self.maps.pop();
                return Ok(!self.maps.is_empty());
            }
            Entry::Saved(_) => self.notes.push(self.maps.len())?,
            Entry::Returned(_, level) => {
                let noted = self.notes.get(level as usize).copied();
                self.notes.truncate((level as usize).saturating_add(1));
                return Ok(noted == Some(self.maps.len()));
            }
            _ => {}
        }
        Ok(true)
    }

    /// Finishes the pending operation with this reply. Returns true if the last map gives the same
    /// reply.
    fn reply(&mut self, reply: Reply) -> Result<bool, AllocError> {
        let (Some(op), Some(last)) = (self.pending.take(), self.maps.last()) else {
            return Ok(false);
        };
        if reply != reply_of(last, op) {
            return Ok(false);
        }
        if is_change(last, op) {
            let next = map_after(last, op)?;
            self.maps.push(next)?;
        }
        Ok(true)
    }
}

/// Runs a transaction alone on these values. Returns its last map, or `None` if an entry does not
/// fit this run.
pub(super) fn run_alone(
    start: &Values,
    entries: &[Entry],
    alloc: Global,
) -> Result<Option<Values>, AllocError> {
    let mut run = Running::new(alloc, start)?;
    run.act_all(entries)
}

/// The reply that a caller's pending operation has if the caller's transaction runs alone after the
/// committed transactions.
pub(super) fn reply_alone(
    alloc: Global,
    history: &[Entry],
    caller: u64,
) -> Result<Reply, AllocError> {
    let entries = last_of(alloc, caller, history)?;
    let values = run_alone(&serial_map(alloc, history)?, &entries, alloc)?;
    Ok(match (entries.last(), values) {
        (Some(Entry::Asked(_, op)), Some(values)) => reply_of(&values, *op),
        _ => None,
    })
}

/// Runs a caller's last transaction in a history, alone on these values.
fn run_last(
    alloc: Global,
    caller: u64,
    history: &[Entry],
    values: &mut Values,
) -> Result<(), AllocError> {
    let entries = last_of(alloc, caller, history)?;
    if let Some(left) = run_alone(values, &entries, alloc)? {
        *values = left;
    }
    Ok(())
}

/// Runs the committed transactions on these values, one after another in commit order.
fn run_committed(alloc: Global, history: &[Entry], values: &mut Values) -> Result<(), AllocError> {
    for (i, entry) in history.iter().enumerate() {
        if let Entry::Committed(caller, _) = *entry {
            run_last(alloc, caller, &history[..i], values)?;
        }
    }
    Ok(())
}

/// The map after all committed transactions.
fn serial_map(alloc: Global, history: &[Entry]) -> Result<Values, AllocError> {
    let mut values = BTreeMap::new(alloc);
    run_committed(alloc, history, &mut values)?;
    Ok(values)
}

/// Returns true if the open transaction that begins with this entry has the same replies as if it
/// ran alone on these values. If no open transaction begins with this entry, also returns true. The
/// entries of an open transaction are those of its caller, beginning with the last Began entry.
fn reply_holds(
    alloc: Global,
    history: &[Entry],
    settled: &Values,
    entry: &Entry,
) -> Result<bool, AllocError> {
    let entries = last_of(alloc, entry.caller(), history)?;
    if entries.first() != Some(entry) || place_after(&entries) == Place::Closed {
        return Ok(true);
    }
    Ok(run_alone(settled, &entries, alloc)?.is_some())
}

/// Whether each open transaction has the same replies as if it ran alone on these values.
fn replies_hold_on(alloc: Global, history: &[Entry], settled: &Values) -> Result<bool, AllocError> {
    for entry in history {
        if !reply_holds(alloc, history, settled, entry)? {
            return Ok(false);
        }
    }
    Ok(true)
}

/// Returns true if each open transaction has the same replies as if it ran alone on the map after
/// all committed transactions.
fn replies_hold(alloc: Global, history: &[Entry]) -> Result<bool, AllocError> {
    let settled = serial_map(alloc, history)?;
    replies_hold_on(alloc, history, &settled)
}

/// The rule that the last entry of `beginning` breaks, if it breaks one.
fn broken_rule(
    alloc: Global,
    beginning: &[Entry],
    stripes: u64,
    holder: Holder,
) -> Result<Option<Rule>, AllocError> {
    let Some((entry, before)) = beginning.split_last() else {
        return Ok(None);
    };
    if !has_shape(alloc, before, entry)? {
        return Ok(Some(Rule::Shape));
    }
    if !replies_hold(alloc, beginning)? {
        return Ok(Some(Rule::Replies));
    }
    Ok((!is_locked(before, entry, stripes, holder)).then_some(Rule::Locks))
}

/// The index of the first entry that breaks a rule, and the rule. If no entry breaks a rule,
/// `None`.
pub(super) fn first_bad(
    alloc: Global,
    history: &[Entry],
    stripes: u64,
    holder: Holder,
) -> Result<Option<(usize, Rule)>, AllocError> {
    for i in 0..history.len() {
        if let Some(rule) = broken_rule(alloc, &history[..i + 1], stripes, holder)? {
            return Ok(Some((i, rule)));
        }
    }
    Ok(None)
}

/// The verdict on a history. `bad` is its first bad entry, if it has one. A transaction counts as
/// running from its Began entry until its end.
pub(super) fn verdict(history: &[Entry], bad: Option<(usize, Rule)>) -> Verdict {
    if let Some((entry, rule)) = bad {
        let entry = entry as u64;
        return Verdict::Illegal { entry, rule };
    }
    let counts = counts_of(history);
    let ended = counts.committed.saturating_add(counts.aborted);
    let running = counts.began.saturating_sub(ended);
    Verdict::Legal {
        commits: counts.committed,
        running,
    }
}
