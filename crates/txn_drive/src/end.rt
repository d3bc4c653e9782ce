//! How calls end: answered, busy, helped or refused. Callers, workers and the shared map use the
//! end of a call but none of the call's phases, so an end has a type of its own. If a call does not
//! end with `OutOfStep`, the call and the end determine which entries the call has added
//! (`IsMade`). They do not determine how many changes it has taken back.
use txn_words::{Answer, Refusal};

/// The end of a call.
#[derive(Clone, Copy, Debug, PartialEq, Eq)]
pub enum End {
    /// The call is done, and this is the answer to its last step: `Began` for a begin, `Done` for
    /// an operation, `Saved` for a save, `Returned` for a return to a level, `Committed` for a
    /// commit, `Aborted` for an abort.
    Answered(Answer),
    /// The step that may double the table was taken, and the bucket is initialised.
    Helped,
    /// The caller with this number was found to hold the key's stripe. The transaction is aborted.
    Busy(u64),
    /// The call was refused. `OutOfStep` means that a step got an answer that no rule foresees, or
    /// that `told` got an answer after the end. After any other refusal the call has added no entry
    /// to the history.
    Refused(Refusal),
}
