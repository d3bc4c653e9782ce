//! What a caller keeps of its additions to the history, if the map keeps its entries: one record
//! for each atomic step, with the position of the first entry that the step added.
ghost use Rattle.std.specs.Prelude.{IfSome, ◌≡◌, length, ◌<◌, ◌^◌};
ghost use Rattle.striped_map.specs.Records.{told_by, told_for};

use crate::addition::Addition;
use crate::apart::Apart;
use txn_trace::{Op, Reply};

/// What one atomic step of a caller added to the history.
#[derive(Clone, Copy, Drop)]
pub(crate) enum Told {
    /// The beginning of a transaction.
    TellBegin,
    /// An operation and its reply.
    TellNote(Op, Reply),
    /// A savepoint.
    TellSave,
    /// The return to a level, with the number of changes that were taken back for it.
    TellBack(u64, usize),
    /// An abort, with the number of changes that were taken back for it.
    TellAbort(usize),
    /// The end of a transaction because the caller with this number held the operation's stripe,
    /// with the number of changes that were taken back for it.
    TellYield(Op, u64, usize),
    /// A commit.
    TellCommit,
}

/// The record of the end of a transaction that takes all changes back (`IsEnd`), with the number of
/// these changes.
pub(crate) fn told_of(what: Addition, undone: usize) -> Told
    ensures { result ≡ told_for what undone }
{
    match what {
        Addition::Yield(op, holder) => Told::TellYield(op, holder, undone),
        _ => Told::TellAbort(undone),
    }
}

impl Told {
    /// How many entries the step added, or `None` if 64 bits cannot count them.
    pub(crate) fn checked_count(self) -> Option<usize>
        ensures { IfSome result (λ count. count ≡ length (told_by 0 self)) }
    {
        match self {
            Told::TellNote(_, _) => Some(2),
            Told::TellBack(_, undone) => {
                let count = undone.checked_add(2)?;
                Some(count)
            }
            Told::TellAbort(undone) => {
                let count = undone.checked_add(2)?;
                Some(count)
            }
            Told::TellYield(_, _, undone) => {
                let count = undone.checked_add(2)?;
                Some(count)
            }
            _ => Some(1),
        }
    }

    /// How many entries the step added.
    pub(crate) fn count(self) -> u64
        requires few { length (told_by 0 self) < 2 ^ 64 }
        ensures { result ≡ length (told_by 0 self) }
    {
        match self {
            Told::TellNote(_, _) => 2,
            Told::TellBack(_, undone) => undone as u64 + 2,
            Told::TellAbort(undone) => undone as u64 + 2,
            Told::TellYield(_, _, undone) => undone as u64 + 2,
            _ => 1,
        }
    }
}

/// What a step added, and the position of the first of its entries, modulo 2^64.
#[derive(Clone, Copy, Drop)]
pub(crate) struct Record {
    pub(crate) at: u64,
    pub(crate) what: Told,
}

impl Default for Record {
    /// A record for places without one.
    fn default() -> Record {
        Record {
            at: 0,
            what: Told::TellBegin,
        }
    }
}

/// The records of a caller, the newest last. Each takes 64 bytes or more.
pub(crate) type Records = Apart<Record, 2>;
