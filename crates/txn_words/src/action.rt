//! The actions of scripts. An action is a whole call, which may take many steps, so an action has a
//! type of its own, apart from `Step`. No action begins or commits a transaction: a worker begins
//! the transaction before the first action of a script and commits it after the last.

use crate::op::Op;

/// One thing that a script asks of the worker that runs it, inside a transaction.
#[derive(Clone, Copy, Debug, PartialEq, Eq)]
pub enum Action {
    /// Runs an operation to its reply.
    Op(Op),
    /// Sets a savepoint.
    Save,
    /// Goes back to the savepoint with this number; 0 is the start of the transaction.
    Back(u64),
    /// Helps the table to grow. Doubles the table if it has more than twice as many keys as buckets
    /// and is below its largest size. Then initialises the bucket of this key.
    Help(u64),
    /// Aborts the transaction and ends the script.
    Abort,
}
