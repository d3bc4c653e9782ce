// PROMISES a-verdict-by-the-order-of-commits-is-right: check, check_packed
//! Checks a whole history that is in memory, by the order of its commits: a `Checker` is fed all
//! its entries. Only this module takes lists of entries, since a `Checker` needs none. Unlike the
//! check of `history_check`, this check takes no stripes and no `Holder`, since it has no rule of
//! locks.
ghost use Rattle.std.specs.Prelude.{◌<◌, IfOk};
ghost use Rattle.std.specs.List.{All};
ghost use Rattle.txn_words.specs.Kinds.{caller_of};
ghost use Rattle.serial_check.specs.Verdicts.{IsVerdictOn};

use crate::checker::Checker;
use history_check::Verdict;
use std::alloc::{AllocError, Global};
use txn_trace::{Entry, SmallEntry};

/// Judges a whole history by the order of its commits. Every caller in the history must be below
/// 64.
///
/// The verdict is `Legal` exactly if the history is serializable in that order. It then has the
/// number of commits, and the number of callers that are in a transaction at the end. Otherwise the
/// verdict is `Illegal`. It then has the index (from 0) of the first entry that breaks a rule, and
/// the rule. The rule is `Replies` if the entry has the right shape and is the Committed of a
/// transaction with a wrong reply, else `Shape`.
///
/// # Errors
///
/// `AllocError` if memory is refused.
///
/// # Cost
///
/// The time of a `Checker` that is fed the entries. Memory is in proportion to the committed map
/// plus what the transactions that are open at one time have: their different keys, their
/// savepoints, and their changes that are not taken back.
pub fn check(alloc: Global, entries: &[Entry]) -> Result<Verdict, AllocError>
    requires { All (λ entry. caller_of entry < 64) entries.now }
    ensures { IfOk result (IsVerdictOn entries.now) }
{
    let mut checker = Checker::new(alloc)?;
    for entry in entries {
        checker.feed(entry)?;
    }
    Ok(checker.verdict())
}

/// Does what `check` does, for packed entries.
///
/// # Errors
///
/// `AllocError` if memory is refused.
///
/// # Cost
///
/// The cost of `check`.
pub fn check_packed(alloc: Global, entries: &[SmallEntry]) -> Result<Verdict, AllocError>
    requires { All (λ entry. caller_of entry < 64) entries.now }
    ensures { IfOk result (IsVerdictOn entries.now) }
{
    let mut checker = Checker::new(alloc)?;
    for entry in entries {
        checker.feed(&entry.entry())?;
    }
    Ok(checker.verdict())
}
