//! The steps that callers, helpers and the table take, and the entries that steps add to a history.
//! A step and its answer determine which entry, if any, is added. The step alone determines for how
//! many entries the history must have room before the step is taken. These rules need no core.
ghost use Rattle.std.specs.Prelude.{◌≡◌, option_to_list};
ghost use Rattle.txn_words.specs.Entries.{entries_of};
ghost use Rattle.txn_words.specs.Owed.{reserved};

use crate::answer::Answer;
use crate::entry::Entry;
use crate::op::Op;

/// A step of a caller, of a helper or of the table. A step names its caller or helper by number.
///
/// Each variant lists the `Refusal`s with which a core may answer the step. The core tests for them
/// in this order and answers with the first that applies.
#[derive(Clone, Copy, Debug, PartialEq, Eq)]
pub enum Step {
    /// Begins a transaction.
    ///
    /// Refused, in this order: `NoSuchCaller`, `Leaving`, `AlreadyOpen`, `NoMemory`.
    Begin(u64),
    /// Asks for an operation: locks the stripe of its key, and reserves everything that the
    /// operation and its undoing need.
    ///
    /// Refused, in this order: `NoSuchCaller`, `NotOpen`, `Leaving`, `OperationUnfinished`,
    /// `BadKey`, then `NoMemory` or `StampsUsedUp`, then `StaleWord`. `StampsUsedUp` is possible
    /// only if the operation takes a node, and `StaleWord` only if stripes are words.
    Ask(u64, Op),
    /// Seeks the position of the operation that was asked for, or of the newest change to take
    /// back.
    ///
    /// Refused, in this order: `NoSuchCaller`, `NotOpen`, `NothingToSeek`.
    Seek(u64),
    /// Does the operation, or takes back the newest change, at the position that was sought. If no
    /// change is left to take back, ends the undoing.
    ///
    /// Refused, in this order: `NoSuchCaller`, `NotOpen`, `NothingToSeek`, `Unplaced`.
    Act(u64),
    /// Sets a savepoint.
    ///
    /// Refused, in this order: `NoSuchCaller`, `NotOpen`, `Leaving`, `OperationUnfinished`,
    /// `NoMemory`.
    Save(u64),
    /// Goes back to a level, which is 0 or the number of a savepoint. From now on the caller takes
    /// back the changes made since that level.
    ///
    /// Refused, in this order: `NoSuchCaller`, `NotOpen`, `Leaving`, `OperationUnfinished`,
    /// `NoSuchLevel`, `NoMemory`.
    Back(u64, u64),
    /// Commits the transaction.
    ///
    /// Refused, in this order: `NoSuchCaller`, `NotOpen`, `Leaving`, `OperationUnfinished`.
    Commit(u64),
    /// Aborts the transaction. From now on the caller takes all its changes back.
    ///
    /// Refused, in this order: `NoSuchCaller`, `NotOpen`, `Leaving`.
    Abort(u64),
    /// Unlinks the first marked node.
    ///
    /// Never refused.
    Sweep,
    /// A helper seeks the position of a bucket's dummy. The fields are the helper and the bucket.
    ///
    /// Refused, in this order: `NoSuchHelper`, `NoSuchBucket`, `ParentMissing`.
    InitSeek(u64, u64),
    /// A helper links the dummy at the position that it sought.
    ///
    /// Refused, in this order: `NoSuchHelper`, `HelperOutOfOrder`, `StampsUsedUp`, `NoMemory`. The
    /// last two are possible only if the dummy is not linked yet.
    InitLink(u64),
    /// A helper stores its dummy, which initialises the bucket.
    ///
    /// Refused, in this order: `NoSuchHelper`, `HelperOutOfOrder`, `NoMemory`. `NoMemory` is
    /// possible only if no bucket in the same segment of 64 buckets is stored yet; the helper then
    /// keeps its dummy.
    InitStore(u64),
    /// Doubles the table's size if three conditions hold: the size is still the one that the step
    /// names, it is below the largest size allowed, and there are more than twice as many keys as
    /// buckets.
    ///
    /// Never refused.
    Double(u64),
}

impl Step {
    /// The number of entries for which a core reserves room in its history before it takes the
    /// step.
    #[inline(always)]
    pub fn entry_room(self) -> u64
        ensures { result ≡ reserved self }
    {
        match self {
            Step::Begin(_) => 3,
            Step::Ask(_, op) => 1 + op.owed(),
            Step::Save(_) => 1,
            Step::Back(..) => 2,
            _ => 0,
        }
    }
}

/// The entry that a step with this answer adds to the history, or `None` if it adds no entry.
#[inline(always)]
pub fn entry_of(step: Step, answer: Answer) -> Option<Entry>
    ensures { option_to_list result ≡ entries_of step answer }
{
    match step {
        Step::Begin(caller) => match answer {
            Answer::Began(txn) => Some(Entry::Began(caller, txn)),
            _ => None,
        },
        Step::Ask(caller, op) => match answer {
            Answer::Asked => Some(Entry::Asked(caller, op)),
            Answer::Busy(holder) => Some(Entry::Busy(caller, op, holder)),
            _ => None,
        },
        Step::Act(caller) => match answer {
            Answer::Done(reply) => Some(Entry::Did(caller, reply)),
            Answer::Undone => Some(Entry::Undone(caller)),
            Answer::Returned(level) => Some(Entry::Returned(caller, level)),
            Answer::Aborted => Some(Entry::Aborted(caller)),
            _ => None,
        },
        Step::Save(caller) => match answer {
            Answer::Saved(_) => Some(Entry::Saved(caller)),
            _ => None,
        },
        Step::Back(caller, level) => match answer {
            Answer::Leaving => Some(Entry::Leave(caller, Some(level))),
            _ => None,
        },
        Step::Commit(caller) => match answer {
            Answer::Committed(number) => Some(Entry::Committed(caller, number)),
            _ => None,
        },
        Step::Abort(caller) => match answer {
            Answer::Leaving => Some(Entry::Leave(caller, None)),
            _ => None,
        },
        _ => None,
    }
}
