//! What a caller adds to the history by one load of a word. All additions have one type, so that
//! the step `Add` of `rule` covers them all. Only the beginning and the commit of a transaction
//! have steps of their own. No code reads an addition. It only names, for the proof, the entries
//! that the load adds.
use txn_trace::{Op, Reply};

/// What a caller in a transaction adds to the history by one load.
#[derive(Clone, Copy)]
pub(crate) enum Addition {
    /// An operation and its reply.
    Note(Op, Reply),
    /// A savepoint.
    Save,
    /// The return to a level, with the number of changes that were taken back for it.
    Back(u64, usize),
    /// The abort of the transaction, after all its changes were taken back.
    Abort,
    /// The end of the transaction because the caller with this number held the operation's stripe.
    /// All changes of the transaction were taken back before.
    Yield(Op, u64),
}
