// PROMISES the-judge-of-histories: check, check_packed
//! The check of a whole history in memory: a checker is fed every entry. Only this module takes
//! lists of entries. Packed entries are unpacked one at a time, so a check takes only the memory of
//! its checker. After a bad entry the check still reads the remaining entries, in constant time for
//! each.
ghost use Rattle.std.specs.Prelude.{◌<◌, IfOk};
ghost use Rattle.std.specs.List.{All};
ghost use Rattle.txn_words.specs.Kinds.{caller_of};
ghost use Rattle.history_check.specs.Verdicts.{IsVerdictOn};

use crate::checker::Checker;
use crate::verdict::Verdict;
use std::alloc::{AllocError, Global};
use txn_trace::{Entry, Holder, SmallEntry};

/// Judges a whole history of a map with `stripes` stripes. All callers must be below 64. `holder`
/// says which callers a Busy entry may name.
///
/// If the history is legal, the verdict is `Legal`, with the number of commits and the number of
/// callers that are in a transaction at the end. If it is not legal, the verdict is `Illegal`, with
/// the index (from 0) of the first entry that breaks a rule. The verdict also names the first rule
/// that this entry breaks, in the order shape, replies, locks.
///
/// # Errors
///
/// `AllocError` if memory is refused.
///
/// # Cost
///
/// Each entry takes time in proportion to the logarithm of the number of keys. A Committed or
/// Aborted entry also takes time in proportion to the stripes that it gives back and to the
/// transaction's standing changes. Memory is in proportion to the stripes, and to the greatest
/// numbers of keys, of changes that can be taken back and of savepoints at one time.
pub fn check(
    alloc: Global,
    entries: &[Entry],
    stripes: u64,
    holder: Holder,
) -> Result<Verdict, AllocError>
    requires stripes { 0 < stripes }
    requires callers { All (λ entry. caller_of entry < 64) entries.now }
    ensures { IfOk result (IsVerdictOn holder stripes entries.now) }
{
    let mut checker = Checker::new(alloc, stripes, holder)?;
    for entry in entries {
        checker.feed(entry)?;
    }
    Ok(checker.verdict())
}

/// Judges a whole history like `check`, but takes packed entries.
///
/// # Errors
///
/// `AllocError` if memory is refused.
///
/// # Cost
///
/// The cost of `check`.
pub fn check_packed(
    alloc: Global,
    entries: &[SmallEntry],
    stripes: u64,
    holder: Holder,
) -> Result<Verdict, AllocError>
    requires stripes { 0 < stripes }
    requires callers { All (λ entry. caller_of entry < 64) entries.now }
    ensures { IfOk result (IsVerdictOn holder stripes entries.now) }
{
    let mut checker = Checker::new(alloc, stripes, holder)?;
    for entry in entries {
        checker.feed(&entry.entry())?;
    }
    Ok(checker.verdict())
}
