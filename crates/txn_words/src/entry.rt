//! The entries of a history, which record what happened to each transaction. `Entry` is a type of
//! its own, apart from `Step` and `Answer`, since many steps add no entry, and a judge of a history
//! sees only entries. `txn_trace` defines what a list of entries means. A long list keeps its
//! entries packed, as `SmallEntry`.
ghost use Rattle.std.specs.Prelude.{◌≡◌};
ghost use Rattle.txn_words.specs.Kinds.{caller_of};

use crate::op::{Op, Reply};

/// A record of one thing that a caller did. The first field is the caller's number. The entry
/// belongs to the transaction that this caller began last.
#[derive(Clone, Copy, Debug, PartialEq, Eq)]
pub enum Entry {
    /// A transaction began. The second field is the transaction's number. The transactions of all
    /// callers are numbered together, from 1.
    Began(u64, u64),
    /// The caller asked for an operation. From now on the stripe of the operation's key belongs to
    /// the caller.
    Asked(u64, Op),
    /// The operation that was asked for got this reply.
    Did(u64, Reply),
    /// A savepoint was set.
    Saved(u64),
    /// The caller starts to go back to this level. If the second field is `None`, the caller starts
    /// to abort its transaction.
    Leave(u64, Option<u64>),
    /// The newest of the transaction's remaining changes was taken back.
    Undone(u64),
    /// The caller is back at the level in the second field, and its transaction is open again.
    Returned(u64, u64),
    /// The transaction committed. The second field is its commit number; commits are numbered from
    /// 1.
    Committed(u64, u64),
    /// An operation found its stripe held by another caller, so the operation's transaction aborts.
    /// The last field is the other caller's number.
    Busy(u64, Op, u64),
    /// All changes are taken back, and the transaction is over.
    Aborted(u64),
}

impl Entry {
    /// The number of the entry's caller.
    pub fn caller(&self) -> u64
        ensures { result ≡ caller_of self.now }
    {
        match *self {
            Entry::Began(caller, _)
            | Entry::Asked(caller, _)
            | Entry::Did(caller, _)
            | Entry::Saved(caller)
            | Entry::Leave(caller, _)
            | Entry::Undone(caller)
            | Entry::Returned(caller, _)
            | Entry::Committed(caller, _)
            | Entry::Busy(caller, _, _)
            | Entry::Aborted(caller) => caller,
        }
    }
}
