// PROMISES what-leads-to-a-bad-entry: held_by
//! Finds the caller that holds a stripe, this caller's transaction, and the entry since which the
//! caller holds the stripe. A checker does not keep that entry, so this module searches the history
//! for it, in constant time for each entry. The contract of `held_by` is about legal histories
//! only.
ghost use Rattle.std.specs.Prelude.{◌≡◌, ℕ, ◌<◌, List, Option, None, IfOk};
ghost use Rattle.std.specs.List.{All, fold};
ghost use Rattle.txn_trace.specs.History.{txn_after};
ghost use Rattle.txn_words.specs.Kinds.{caller_of};
ghost use Rattle.txn_trace.specs.Legal.{IsLegal};
ghost use Rattle.txn_words.specs.declared.holder.Holder.{Holder};
ghost use Rattle.bad_entry.specs.Desks.{txn_in};
ghost use Rattle.bad_entry.specs.Holding.{IsHeldSince, asked_at, held_since, next_holder};

use crate::desks::Desks;
use std::alloc::{AllocError, Global};
use txn_trace::{Entry, SmallEntry};

/// The caller that holds a stripe, and since when.
#[derive(Clone, Copy, Debug, PartialEq, Eq)]
pub struct Held {
    /// The caller that holds the stripe.
    pub caller: u64,
    /// The transaction that the caller is in.
    pub txn: Option<u64>,
    /// The index of the Asked entry by which that transaction took the stripe.
    pub since: Option<u64>,
}

/// The holder of a stripe after one more entry.
fn next_holder(held: Option<u64>, stripes: u64, stripe: u64, entry: Entry) -> Option<u64>
    requires { 0 < stripes }
    ensures { result ≡ next_holder stripes stripe held entry }
{
    match entry {
        Entry::Asked(caller, op) if op.key() % stripes == stripe => Some(caller),
        Entry::Committed(caller, _) if held == Some(caller) => None,
        Entry::Aborted(caller) if held == Some(caller) => None,
        _ => held,
    }
}

/// The holder of a stripe after a legal history.
fn holder_in(entries: &[SmallEntry], stripes: u64, stripe: u64) -> Option<u64>
    requires { 0 < stripes }
    ensures { result ≡ fold (next_holder stripes stripe) None entries.now }
{
    let mut held = None;
    for packed in entries {
        held = next_holder(held, stripes, stripe, packed.entry());
    }
    held
}

/// Returns the index of an entry if the entry asks for a key of the stripe, and its transaction
/// (`txn`) is `wanted`.
fn asked_in(
    txn: Option<u64>,
    wanted: Option<u64>,
    stripes: u64,
    stripe: u64,
    index: u64,
    entry: Entry,
) -> Option<u64>
    requires { 0 < stripes }
    ensures { result ≡ asked_at txn wanted stripes stripe index entry }
{
    match entry {
        Entry::Asked(_, op) if op.key() % stripes == stripe && txn == wanted => Some(index),
        _ => None,
    }
}

/// Returns the transaction of a caller after one more entry. `txn` is the caller's transaction
/// before the entry.
///
/// # Cost
///
/// Constant time; takes no memory.
pub fn next_txn(txn: Option<u64>, caller: u64, entry: Entry) -> Option<u64>
    ensures { (before : ℕ → Option ℕ) → txn ≡ before caller →
        result ≡ txn_after before entry caller }
{
    match entry {
        Entry::Began(beginner, number) if beginner == caller => Some(number),
        _ => txn,
    }
}

/// Returns the transaction that a caller began last in a history.
///
/// # Cost
///
/// Constant time for each entry. Takes no memory.
pub fn txn_of(entries: &[SmallEntry], caller: u64) -> Option<u64>
    ensures { result ≡ txn_in entries.now caller }
{
    let mut txn = None;
    for packed in entries {
        txn = next_txn(txn, caller, packed.entry());
    }
    txn
}

/// Returns the index of the first entry with which a transaction asked for a key of a stripe.
fn held_since(
    alloc: Global,
    entries: &[SmallEntry],
    txn: Option<u64>,
    stripes: u64,
    stripe: u64,
) -> Result<Option<u64>, AllocError>
    requires stripes { 0 < stripes }
    requires callers { All (λ entry. caller_of entry < 64) entries.now }
    ensures { IfOk result (λ found. found ≡ held_since txn stripes stripe entries.now) }
{
    let mut desks = Desks::new(alloc)?;
    for (index, packed) in entries.iter().enumerate() {
        let entry = packed.entry();
        let txn_now = desks.at(entry.caller()).txn;
        let found = asked_in(txn_now, txn, stripes, stripe, index as u64, entry);
        if found.is_some() {
            return Ok(found);
        }
        desks.enter(entry);
    }
    Ok(None)
}

/// Returns the holder of a stripe after a legal history, and the entry since which it holds the
/// stripe.
///
/// # Errors
///
/// `AllocError` if memory is refused.
///
/// # Cost
///
/// Constant time for each entry, and memory for 64 callers.
pub fn held_by(
    alloc: Global,
    entries: &[SmallEntry],
    stripes: u64,
    stripe: u64,
) -> Result<Option<Held>, AllocError>
    requires stripes { 0 < stripes }
    requires callers { All (λ entry. caller_of entry < 64) entries.now }
    ensures { IfOk result (λ found. (holder : Holder) → IsLegal holder stripes entries.now →
        IsHeldSince stripes stripe entries.now found) }
{
    let Some(caller) = holder_in(entries, stripes, stripe) else {
        return Ok(None);
    };
    let txn = txn_of(entries, caller);
    let since = held_since(alloc, entries, txn, stripes, stripe)?;
    Ok(Some(Held { caller, txn, since }))
}
