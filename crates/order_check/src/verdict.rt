//! The verdict of the judge.

use crate::edge::Edge;

/// The verdict on a history.
#[derive(Debug, PartialEq, Eq, Drop)]
pub enum Verdict {
    /// The history is serializable. This is a serial order: each committed transaction once, by its
    /// number.
    Serializable(Vec<u64>),
    /// The history is not serializable, for this reason.
    NotSerializable(Reason),
    /// The judge does not know. It found edges in a circle, but one of them rests on a value that
    /// comes more than once. The fields are the key, the value, and the committed transactions that
    /// write the value there, in the order of their commits.
    Undecided(u64, Option<u64>, Vec<u64>),
}

/// Why a history is not serializable.
#[derive(Debug, PartialEq, Eq, Drop)]
pub enum Reason {
    /// The entry with this index (from 0) has the wrong shape.
    Shape(u64),
    /// The replies of this committed transaction contradict one another.
    Torn(u64),
    /// This committed transaction needs a value at a key, and no committed transaction writes it.
    /// The fields are the transaction, the key and the value.
    Unwritten(u64, u64, Option<u64>),
    /// This committed transaction needs a value at a key, and gets it in no order. The fields are
    /// the transaction, the key and the value.
    Impossible(u64, u64, Option<u64>),
    /// Each of these edges would go forward in every order, and they form a circle. Each edge leads
    /// to the transaction from which the next one comes. The last edge leads to the transaction
    /// from which the first one comes.
    Cycle(Vec<Edge>),
}
