// PROMISES a-verdict-by-any-order-is-right: check, check_packed
//! Checks a whole history that is in memory: a `Checker` is fed all its entries.
ghost use Rattle.std.specs.Prelude.{◌<◌, IfOk};
ghost use Rattle.std.specs.List.{All};
ghost use Rattle.txn_words.specs.Kinds.{caller_of};
ghost use Rattle.serial_check.specs.Serializable.{IsSerializableByCommits};
ghost use Rattle.order_check.specs.Verdicts.{IsVerdictIf, IsOfCommits};

use crate::checker::Checker;
use crate::options::Options;
use crate::verdict::Verdict;
use std::alloc::{AllocError, Global};
use txn_trace::{Entry, SmallEntry};

/// Judges a whole history by any order of its transactions. Every caller in the history must be
/// below 64. If the order of the commits is a serial order, the verdict is `Serializable` with this
/// order.
///
/// # Errors
///
/// `AllocError` if memory is refused.
///
/// # Cost
///
/// The time and memory of a `Checker` that is fed the entries, and of its verdict.
pub fn check(alloc: Global, options: Options, entries: &[Entry]) -> Result<Verdict, AllocError>
    requires { All (λ entry. caller_of entry < 64) entries.now }
    ensures verdict { IfOk result (IsVerdictIf options.real_time entries.now) }
    ensures commits { IsSerializableByCommits entries.now → IfOk result (IsOfCommits entries.now) }
{
    let mut checker = Checker::new(alloc, options)?;
    for entry in entries {
        checker.feed(entry)?;
    }
    checker.verdict(alloc)
}

/// Does what `check` does, for packed entries.
///
/// # Errors
///
/// `AllocError` if memory is refused.
///
/// # Cost
///
/// The cost of `check`.
pub fn check_packed(
    alloc: Global,
    options: Options,
    entries: &[SmallEntry],
) -> Result<Verdict, AllocError>
    requires { All (λ entry. caller_of entry < 64) entries.now }
    ensures verdict { IfOk result (IsVerdictIf options.real_time entries.now) }
    ensures commits { IsSerializableByCommits entries.now → IfOk result (IsOfCommits entries.now) }
{
    let mut checker = Checker::new(alloc, options)?;
    for entry in entries {
        checker.feed(&entry.entry())?;
    }
    checker.verdict(alloc)
}
