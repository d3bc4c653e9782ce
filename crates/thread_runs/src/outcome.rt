//! The outcomes of scripts. Both the account of a worker and the contract of a run use them, so
//! they have a module of their own. Only the outcome of a commit takes memory, for the replies. The
//! list in which the script's calls collected the replies is moved into the outcome, and the
//! outcome is moved from the worker to the run's result.
use txn_trace::{Refusal, Reply};

/// The outcome of a script.
#[derive(Debug, PartialEq, Eq, Drop)]
pub enum Outcome {
    /// A transaction that plays the script is committed.
    Committed {
        /// The number of the transaction.
        txn: u64,
        /// The transaction's number in the commit order, from 1.
        place: u64,
        /// The replies of the transaction's operations, in order.
        replies: Vec<Reply>,
    },
    /// The script has aborted its transaction itself.
    Aborted,
    /// Each attempt at the script found a stripe held by another caller, and is aborted.
    Busy,
    /// A call was refused for this reason. Unless the reason is `OutOfStep`, the call's transaction
    /// is aborted or did not begin.
    Refused(Refusal),
}
