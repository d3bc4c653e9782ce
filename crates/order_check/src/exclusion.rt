//! Excludes sources, where several transactions write what an access needs. In an order, the source
//! is the last transaction before the access that changes the key. What is known of all orders
//! excludes some of those that write the value. If one is left, more is known. If none is left,
//! there is no order.
ghost use Rattle.std.specs.Prelude.{◌≡◌, ◌≢◌, ◌++◌, [], ◌∷◌, ◌⊎◌, ℕ, List};
ghost use Rattle.std.specs.Prelude.{IfOk, OnOk, IfSome, true, false, None, Some};
ghost use Rattle.order_check.specs.declared.access.Access.{Access};
ghost use Rattle.order_check.specs.Exclusions.{AreChanges, ComesFirst, HasOnly, IsCertain};
ghost use Rattle.order_check.specs.Exclusions.{IsExcluded, IsLeft, IsNarrowed, StaysBeside};
ghost use Rattle.order_check.specs.Exclusions.{changes_key, is_between, is_late};
ghost use Rattle.order_check.specs.Known.{AreKnown};
ghost use Rattle.order_check.specs.Orders.{HasNoOrder};
ghost use Rattle.order_check.specs.Outcomes.{ArePlain, IsImpossible, IsTxn, footprints_of};
ghost use Rattle.order_check.specs.Tables.{IsAmong};
ghost use Rattle.order_check.specs.Timing.{since_in};

use crate::access::Access;
use crate::known::Known;
use std::alloc::{AllocError, Global};

/// The number of transactions up to which sources are excluded. A round takes time in proportion to
/// its cube.
const MOST_TRANSACTIONS: usize = 500;

/// The number of accesses up to which sources are excluded.
const MOST_ACCESSES: usize = 2_000;

/// How often all accesses are looked at.
const ROUNDS: usize = 8;

/// The sources of an access that are not excluded.
#[derive(Clone, Copy)]
pub(crate) enum Sources {
    Nobody,
    /// This transaction, or the beginning.
    Only(Option<usize>),
    Several,
}

/// Finds an access that gets what it needs in no order. `since` says of each transaction how many had
/// committed when it began.
pub(crate) fn find_impossible(
    alloc: Global,
    count: usize,
    since: &[usize],
    accesses: &[Access],
) -> Result<Option<Access>, AllocError>
    requires { ArePlain count accesses.now }
    ensures { IfOk result (λ found. IfSome found
        (IsImpossible count (since_in since.now) accesses.now)) }
{
    if count > MOST_TRANSACTIONS || accesses.len() > MOST_ACCESSES {
        return Ok(None);
    }
    let mut known = Known::new(alloc, count)?;
    known.learn_times(since);
    for _ in 0..ROUNDS {
        known.has_grown = false;
        let found = narrow_all(alloc, &mut known, accesses)?;
        if found.is_some() {
            return Ok(found);
        }
        if !known.has_grown {
            return Ok(None);
        }
        known.close();
    }
    Ok(None)
}

/// Excludes sources of each access. Returns an access of which all are excluded.
fn narrow_all(
    alloc: Global,
    known: &mut Known,
    accesses: &[Access],
) -> Result<Option<Access>, AllocError>
    ensures known { OnOk result ((n : ℕ) (since : ℕ → ℕ) → ArePlain n accesses.now
        → AreKnown n since accesses.now known.old → AreKnown n since accesses.now known.new) }
    ensures found { IfOk result (λ found. IfSome found (λ access. (n : ℕ) (since : ℕ → ℕ)
        → ArePlain n accesses.now → AreKnown n since accesses.now known.old → IsImpossible n since accesses.now access)) }
{
    for access in accesses {
        let changes = changes_of(alloc, accesses, access.key)?;
        if !narrow(known, &changes, access) {
            return Ok(Some(*access));
        }
    }
    Ok(None)
}

/// The accesses that change the key.
fn changes_of(alloc: Global, accesses: &[Access], key: u64) -> Result<Vec<Access>, AllocError>
    ensures { IfOk result (λ changes. AreChanges accesses.now key changes.items) }
{
    let mut changes = Vec::new(alloc);
    for access in accesses {
        if is_change(access, key) {
            changes.push(*access)?;
        }
    }
    Ok(changes)
}

/// Whether the access changes the key.
fn is_change(access: &Access, key: u64) -> bool
    ensures { result ≡ changes_key key access.now }
{
    access.key == key && access.need != access.left
}

/// Excludes sources of an access, and notes what follows if one is left. Returns false if none is.
/// `changes` are the accesses that change its key.
fn narrow(known: &mut Known, changes: &[Access], access: &Access) -> bool
    ensures known { (n : ℕ) (since : ℕ → ℕ) (accesses : List Access) → ArePlain n accesses
        → AreKnown n since accesses known.old → AreChanges accesses access.now.key changes.now
        → IsAmong access.now accesses
        → AreKnown n since accesses known.new }
    ensures none { result ≡ false → (n : ℕ) (since : ℕ → ℕ) (accesses : List Access)
        → ArePlain n accesses → AreKnown n since accesses known.old → AreChanges accesses access.now.key changes.now
        → IsAmong access.now accesses → HasNoOrder (IsTxn n) (footprints_of accesses) since }
{
    match sources_left(known, changes, access) {
        Sources::Nobody => false,
        Sources::Only(source) => {
            learn_by(known, changes, access, source);
            true
        }
        Sources::Several => true,
    }
}

/// The sources of an access that are not excluded.
fn sources_left(known: &Known, changes: &[Access], access: &Access) -> Sources
    ensures { (n : ℕ) (since : ℕ → ℕ) (accesses : List Access)
        → AreKnown n since accesses known.now
        → AreChanges accesses access.now.key changes.now
        → HasOnly n since accesses access.now result }
{
    let mut left = first_source(known, changes, access);
    for change in changes {
        left = narrow_by(left, known, changes, access, change);
    }
    left
}

/// The beginning as a source, if it is not excluded.
fn first_source(known: &Known, changes: &[Access], access: &Access) -> Sources
    ensures { (n : ℕ) (since : ℕ → ℕ) (accesses : List Access)
        → AreKnown n since accesses known.now
        → AreChanges accesses access.now.key changes.now
        → IsExcluded n since accesses access.now None ⊎ IsLeft result None }
{
    if access.need.is_some() {
        return Sources::Nobody;
    }
    if is_excluded(known, changes, access, None) {
        return Sources::Nobody;
    }
    Sources::Only(None)
}

/// The sources that are left after one more change.
fn narrow_by(
    left: Sources,
    known: &Known,
    changes: &[Access],
    access: &Access,
    change: &Access,
) -> Sources
    ensures { (n : ℕ) (since : ℕ → ℕ) (accesses : List Access)
        → AreKnown n since accesses known.now
        → AreChanges accesses access.now.key changes.now
        → (seen : List Access) → IsNarrowed n since accesses access.now seen left
        → IsNarrowed n since accesses access.now (seen ++ change.now ∷ []) result }
{
    if change.left != access.need {
        return left;
    }
    if is_excluded(known, changes, access, Some(change.txn)) {
        return left;
    }
    match left {
        Sources::Nobody => Sources::Only(Some(change.txn)),
        Sources::Only(_) => Sources::Several,
        Sources::Several => Sources::Several,
    }
}

/// Whether the source is excluded: it comes after the access, or a change comes between them.
fn is_excluded(known: &Known, changes: &[Access], access: &Access, source: Option<usize>) -> bool
    ensures { result ≡ true → (n : ℕ) (since : ℕ → ℕ) (accesses : List Access)
        → AreKnown n since accesses known.now → AreChanges accesses access.now.key changes.now
        → IsExcluded n since accesses access.now source }
{
    if is_late(known, source, access.txn) {
        return true;
    }
    for change in changes {
        if is_between(known, source, change.txn, access.txn) {
            return true;
        }
    }
    false
}

/// Whether the source is known to come after the reader.
fn is_late(known: &Known, source: Option<usize>, reader: usize) -> bool
    ensures { result ≡ is_late known.now.rows.items source reader }
{
    match source {
        Some(source) => known.is_before(reader, source),
        None => false,
    }
}

/// Whether the transaction is known to come after the source and before the reader.
fn is_between(known: &Known, source: Option<usize>, txn: usize, reader: usize) -> bool
    ensures { result ≡ is_between known.now.rows.items source txn reader }
{
    match source {
        Some(source) => known.is_before(source, txn) && known.is_before(txn, reader),
        None => known.is_before(txn, reader),
    }
}

/// Notes what follows if this is the source of the access.
fn learn_by(known: &mut Known, changes: &[Access], access: &Access, source: Option<usize>)
    ensures { (n : ℕ) (since : ℕ → ℕ) (accesses : List Access)
        → AreKnown n since accesses known.old
        → AreChanges accesses access.now.key changes.now
        → IsCertain n since accesses access.now source
        → AreKnown n since accesses known.new }
{
    learn_source(known, source, access.txn);
    for change in changes {
        learn_of(known, source, change.txn, access.txn);
    }
}

/// Notes that the source comes before the reader.
fn learn_source(known: &mut Known, source: Option<usize>, reader: usize)
    ensures { (n : ℕ) (since : ℕ → ℕ) (accesses : List Access)
        → AreKnown n since accesses known.old
        → ComesFirst n since accesses source reader → AreKnown n since accesses known.new }
{
    if let Some(source) = source {
        known.learn(source, reader);
    }
}

/// Notes what follows for a transaction that changes the key, if this is the source of the reader.
fn learn_of(known: &mut Known, source: Option<usize>, txn: usize, reader: usize)
    ensures { (n : ℕ) (since : ℕ → ℕ) (accesses : List Access)
        → AreKnown n since accesses known.old
        → StaysBeside n since accesses source txn reader → AreKnown n since accesses known.new }
{
    if txn == reader {
        return;
    }
    match source {
        Some(source) => learn_beside(known, source, txn, reader),
        None => known.learn(reader, txn),
    }
}

/// The same where the source is a transaction.
fn learn_beside(known: &mut Known, source: usize, txn: usize, reader: usize)
    requires { txn ≢ reader }
    ensures { (n : ℕ) (since : ℕ → ℕ) (accesses : List Access)
        → AreKnown n since accesses known.old
        → StaysBeside n since accesses (Some source) txn reader
        → AreKnown n since accesses known.new }
{
    if txn == source {
        return;
    }
    if known.is_before(source, txn) {
        known.learn(reader, txn);
        return;
    }
    if known.is_before(txn, reader) {
        known.learn(txn, source);
    }
}
