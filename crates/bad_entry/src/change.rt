// PROMISES what-leads-to-a-bad-entry: last_change, fate_of
//! Finds the last change of a key, and the fate of this change: open, committed or taken back. No
//! checker is needed, so the results are right for any entries, legal or not. Each function takes
//! one pass over the entries. The pass for the fate begins after the change and takes no memory.
ghost use Rattle.std.specs.Prelude.{◌≡◌, ◌+◌, ◌<◌, ◌≤◌, ◌^◌, List, Option, None, IfOk};
ghost use Rattle.std.specs.List.{All};
ghost use Rattle.txn_words.specs.Kinds.{caller_of};
ghost use Rattle.txn_words.specs.declared.entry.Entry.{Entry};
ghost use Rattle.bad_entry.specs.Desks.{HaveNoted};
ghost use Rattle.bad_entry.specs.Changes.{above_after, change_at, decided, fate_from, fate_of};
ghost use Rattle.bad_entry.specs.Changes.{is_change, last_change, last_with_fate, waiting_after};

use crate::desks::Desks;
use std::alloc::{AllocError, Global};
use txn_trace::{Entry, Op, Reply, SmallEntry};

/// A change of a key.
#[derive(Clone, Copy, Debug, PartialEq, Eq)]
pub struct Change {
    /// The index (from 0) of the Did entry that made the change.
    pub did: u64,
    /// The caller that made the change.
    pub caller: u64,
    /// The transaction that the change belongs to, or `None` if its caller had begun none.
    pub txn: Option<u64>,
}

/// The fate of a change at the end of a history.
#[derive(Clone, Copy, Debug, PartialEq, Eq)]
pub enum Fate {
    /// The change is not taken back, and its transaction is open.
    Open,
    /// The change's transaction committed, and the change was not taken back before that.
    Committed,
    /// The change was taken back.
    Undone,
}

/// Returns the change that this entry makes to the key, or `None` if the entry makes no such
/// change.
fn change_at(desks: &Desks, key: u64, index: u64, entry: Entry) -> Option<Change>
    requires { caller_of entry < 64 }
    ensures { (h : List Entry) → HaveNoted h desks.now → result ≡ change_at key index h entry }
{
    let Entry::Did(caller, reply) = entry else {
        return None;
    };
    let desk = desks.at(caller);
    match desk.waiting {
        Some(op) if op.key() == key && op.changes(reply) => Some(Change {
            did: index,
            caller,
            txn: desk.txn,
        }),
        _ => None,
    }
}

/// Returns the last change of a key in a history, even if it was taken back. The callers of the
/// history must be below 64.
///
/// # Errors
///
/// `AllocError` if memory is refused.
///
/// # Cost
///
/// Constant time for each entry, and memory for 64 callers.
pub fn last_change(
    alloc: Global,
    entries: &[SmallEntry],
    key: u64,
) -> Result<Option<Change>, AllocError>
    requires { All (λ entry. caller_of entry < 64) entries.now }
    ensures { IfOk result (λ found. found ≡ last_change key entries.now) }
{
    let mut desks = Desks::new(alloc)?;
    let mut last = None;
    for (index, packed) in entries.iter().enumerate() {
        let entry = packed.entry();
        last = change_at(&desks, key, index as u64, entry).or(last);
        desks.enter(entry);
    }
    Ok(last)
}

/// Returns true if an operation waits, and is a change if it gets this reply.
fn is_change(waiting: Option<Op>, reply: Reply) -> bool
    ensures { result ≡ is_change waiting reply }
{
    match waiting {
        Some(op) => op.changes(reply),
        None => false,
    }
}

/// Returns the fate that an entry gives to a change of this caller, or `None` if the entry does not
/// decide it. `above` is the number of the caller's newer changes that are not taken back.
fn decided(caller: u64, above: u64, entry: Entry) -> Option<Fate>
    ensures { result ≡ decided caller above entry }
{
    if entry.caller() != caller {
        return None;
    }
    match entry {
        Entry::Committed(..) => Some(Fate::Committed),
        Entry::Aborted(_) => Some(Fate::Undone),
        Entry::Undone(_) if above == 0 => Some(Fate::Undone),
        _ => None,
    }
}

/// The operation that this caller waits for after an entry.
fn waiting_after(caller: u64, waiting: Option<Op>, entry: Entry) -> Option<Op>
    ensures { result ≡ waiting_after caller waiting entry }
{
    if entry.caller() != caller {
        return waiting;
    }
    match entry {
        Entry::Asked(_, op) => Some(op),
        Entry::Did(..) => None,
        _ => waiting,
    }
}

/// Returns the number of this caller's newer changes that have not been taken back, counted after
/// one more entry. `above` is this number before the entry.
fn above_after(caller: u64, waiting: Option<Op>, above: u64, entry: Entry) -> u64
    requires { above < 2 ^ 63 }
    ensures above { result ≡ above_after caller waiting above entry }
    ensures few { result ≤ above + 1 }
{
    if entry.caller() != caller {
        return above;
    }
    match entry {
        Entry::Did(_, reply) if is_change(waiting, reply) => above + 1,
        Entry::Undone(_) => above.saturating_sub(1),
        _ => above,
    }
}

/// Returns the fate of a change of this caller, given the entries after the change's Did entry.
fn fate_in(after: &[SmallEntry], caller: u64) -> Fate
    ensures { result ≡ fate_from caller None 0 after.now }
{
    let mut waiting = None;
    let mut above: u64 = 0;
    for packed in after {
        let entry = packed.entry();
        if let Some(fate) = decided(caller, above, entry) {
            return fate;
        }
        above = above_after(caller, waiting, above, entry);
        waiting = waiting_after(caller, waiting, entry);
    }
    Fate::Open
}

/// The fate of a change at the end of its history.
///
/// # Cost
///
/// A step for each entry after the change; takes no memory.
pub fn fate_of(entries: &[SmallEntry], change: Change) -> Fate
    ensures { result ≡ fate_of entries.now change }
{
    let did = change.did as usize;
    if did >= entries.len() {
        return Fate::Open;
    }
    fate_in(&entries[did + 1..], change.caller)
}

/// Returns the last change of a key in a history, with the fate of this change. The callers of the
/// history must be below 64.
///
/// # Errors
///
/// `AllocError` if memory is refused.
///
/// # Cost
///
/// The cost of `last_change` plus the cost of `fate_of`.
pub fn last_with_fate(
    alloc: Global,
    entries: &[SmallEntry],
    key: u64,
) -> Result<Option<(Change, Fate)>, AllocError>
    requires { All (λ entry. caller_of entry < 64) entries.now }
    ensures { IfOk result (λ last. last ≡ last_with_fate key entries.now) }
{
    match last_change(alloc, entries, key)? {
        Some(change) => Ok(Some((change, fate_of(entries, change)))),
        None => Ok(None),
    }
}
