//! The core of a transactional map for 1 to 64 callers, which takes one step at a time. It runs
//! boosted transactions (`undo_log`, `key_locks`) over a split-ordered hash table (`map_ops`).
//!
//! An operation takes its key's stripe. A seek and an act do it on the table; others may act in
//! between. A change leaves an inverse. A commit drops the inverses; an abort or a return to a
//! savepoint runs them newest first. Stripes are kept to the transaction's end.
//!
//! The model is a machine of thirteen steps, and mainly its history. The theorem is five claims
//! (`specs/`):
//!
//! - `Shape`: the history has the shape of transactions.
//! - `Locks`: no stripe has two holders at a time.
//! - `Replies`: each transaction has the replies that it has alone after the commits before its
//!   end.
//! - `Content`: the map and the regular list are what the history gives now.
//! - `Machine`: every step makes a move of the machine.
//!
//! `Nodes` says what a step does to the nodes, and which cursors then fit. An ask reserves all that
//! its operation and the operation's undoing need. Calls take constant time and no memory unless
//! they say otherwise.
//!
//! Only tested (`cores::limits` of `core_tests`): with enough memory no call fails at any limit,
//! nor with 1,000 savepoints, logs of 100,000 jobs, or 100,001 steps.
#![tactic(auto)]

mod adding;
mod begun;
mod buckets;
mod claim;
mod counts;
mod into_trace;
mod machine;
mod operations;
mod owner;
mod plain;
mod session;
mod sessions;
mod steps;
mod transactions;
mod words;

pub use machine::Core;
pub use owner::Owner;
pub use txn_drive::{Call, Drive, End, Turn};
