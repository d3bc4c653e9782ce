// PROMISES what-leads-to-a-bad-entry: torn_since
//! Answers questions that need a checker: the value of a key, the last commit that changed this
//! value, and the first reply of a transaction that contradicts earlier ones. Each call feeds all
//! entries to a new checker, so it costs as much as a verdict, or more. The contracts say something
//! about the results only if no entry is bad.
ghost use Rattle.std.specs.Prelude.{◌≡◌, ℕ, ◌<◌, List, Some, None, if◌then◌else◌, IfOk};
ghost use Rattle.std.specs.List.{All};
ghost use Rattle.std.specs.Option.{option_or};
ghost use Rattle.txn_words.specs.Kinds.{caller_of};
ghost use Rattle.txn_trace.specs.Legal.{IsLegal};
ghost use Rattle.txn_words.specs.Map.{get};
ghost use Rattle.txn_trace.specs.Now.{now};
ghost use Rattle.txn_words.specs.declared.holder.Holder.{Holder};
ghost use Rattle.history_check.specs.Fed as locks;
ghost use Rattle.serial_check.specs.Fed as commits;
ghost use Rattle.serial_check.specs.Serializable.{IsSerializableByCommits};
ghost use Rattle.bad_entry.specs.Commits.{IsTornSince, last_commit, settling_commit};

use std::alloc::{AllocError, Global};
use txn_trace::{Entry, Holder, Reply, SmallEntry};

/// Returns a checker that judges by locks and was fed these entries.
pub(crate) fn fed_by_locks(
    alloc: Global,
    entries: &[SmallEntry],
    stripes: u64,
    holder: Holder,
) -> Result<history_check::Checker, AllocError>
    requires stripes { 0 < stripes }
    requires callers { All (λ entry. caller_of entry < 64) entries.now }
    ensures { IfOk result (locks.IsFed holder stripes entries.now) }
{
    let mut checker = history_check::Checker::new(alloc, stripes, holder)?;
    for entry in entries {
        checker.feed(&entry.entry())?;
    }
    Ok(checker)
}

/// Returns a checker that judges by the order of commits and was fed these entries.
pub(crate) fn fed_by_commits(
    alloc: Global,
    entries: &[SmallEntry],
) -> Result<serial_check::Checker, AllocError>
    requires { All (λ entry. caller_of entry < 64) entries.now }
    ensures { IfOk result (commits.IsFed entries.now) }
{
    let mut checker = serial_check::Checker::new(alloc)?;
    for entry in entries {
        checker.feed(&entry.entry())?;
    }
    Ok(checker)
}

/// Returns the value of a key after a legal history, including the changes of open transactions.
/// This is the reply that the next operation on the key must get.
///
/// # Errors
///
/// `AllocError` if memory is refused.
///
/// # Cost
///
/// The cost of making `history_check`'s checker and of feeding it each entry.
pub fn value_now(
    alloc: Global,
    entries: &[SmallEntry],
    stripes: u64,
    holder: Holder,
    key: u64,
) -> Result<Reply, AllocError>
    requires stripes { 0 < stripes }
    requires callers { All (λ entry. caller_of entry < 64) entries.now }
    ensures { IfOk result (λ value. IsLegal holder stripes entries.now →
        value ≡ get (now entries.now) key) }
{
    let checker = fed_by_locks(alloc, entries, stripes, holder)?;
    Ok(checker.value(key))
}

/// Finds the last commit, in a serializable history, that changed a key's value in the map of the
/// committed transactions. Returns the index of the Committed entry, and the commit's caller.
///
/// # Errors
///
/// `AllocError` if memory is refused.
///
/// # Cost
///
/// For each entry, the cost of `serial_check`'s checker and of two look-ups of the key.
pub fn last_commit(
    alloc: Global,
    entries: &[SmallEntry],
    key: u64,
) -> Result<Option<(u64, u64)>, AllocError>
    requires { All (λ entry. caller_of entry < 64) entries.now }
    ensures { IfOk result (λ found. IsSerializableByCommits entries.now →
        found ≡ last_commit key entries.now) }
{
    let mut checker = serial_check::Checker::new(alloc)?;
    let mut last = None;
    for (index, packed) in entries.iter().enumerate() {
        let entry = packed.entry();
        let before = checker.value(key);
        checker.feed(&entry)?;
        last = settled(index as u64, entry, before, checker.value(key)).or(last);
    }
    Ok(last)
}

/// Returns the index of the first reply of a caller's open transaction that contradicts the replies
/// before it. From that entry on, no map gives the transaction all of its replies. Returns `None`
/// if some map gives the transaction all of its replies.
///
/// # Errors
///
/// `AllocError` if memory is refused.
///
/// # Cost
///
/// For each entry, the cost of `serial_check`'s checker.
pub fn torn_since(
    alloc: Global,
    entries: &[SmallEntry],
    caller: u64,
) -> Result<Option<u64>, AllocError>
    requires caller { caller < 64 }
    requires callers { All (λ entry. caller_of entry < 64) entries.now }
    ensures { IfOk result (λ found. IsSerializableByCommits entries.now →
        IsTornSince entries.now caller found) }
{
    let mut checker = serial_check::Checker::new(alloc)?;
    let mut since = None;
    for (index, packed) in entries.iter().enumerate() {
        let entry = packed.entry();
        checker.feed(&entry)?;
        since = since_after(checker.is_torn(caller), index as u64, since);
    }
    Ok(since)
}

/// Returns the index of the entry with which the replies begin to contradict one another, given the
/// entries up to `index`. `since` is the result for the entries before `index`. Returns `None` if
/// the replies up to `index` do not contradict one another (`is_torn` is false).
fn since_after(is_torn: bool, index: u64, since: Option<u64>) -> Option<u64>
    ensures { result ≡ (if is_torn then option_or since (Some index) else None) }
{
    if is_torn { since.or(Some(index)) } else { None }
}

/// Returns the index and the caller of an entry if the entry is a commit and it changes the key's
/// value (`before` and `after` differ). Otherwise returns `None`.
fn settled(index: u64, entry: Entry, before: Reply, after: Reply) -> Option<(u64, u64)>
    ensures { result ≡ settling_commit index entry before after }
{
    match entry {
        Entry::Committed(caller, _) if before != after => Some((index, caller)),
        _ => None,
    }
}
