//! The receipt of a commit: two numbers with names, so that nobody confuses them. `txn` is the
//! number of the transaction, and `place` is the number of the commit. A receipt refers to no map
//! and no caller, so it can be copied and can outlive both. The clauses of `commit` tie both
//! numbers to the caller's entries.
/// What a successful commit returns.
#[derive(Clone, Copy, Debug, PartialEq, Eq)]
pub struct Receipt {
    /// The number of the transaction, as `begin` returned it.
    pub txn: u64,
    /// The commit number. Commits are numbered from 1.
    pub place: u64,
}
