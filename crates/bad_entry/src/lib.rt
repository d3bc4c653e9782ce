//! Finds the events that led to a bad entry of a recorded history.
//!
//! `history_check` and `serial_check` say which entry of a history is the first that breaks a rule.
//! This crate answers what a person asks next: Which reply would have been right? Who last changed
//! the key, and what is the fate of that change? Who holds a lock, and since which entry? Which
//! entries are allowed in place of the bad one?
//!
//! Each question is answered by separate passes over the entries before the bad one. A pass takes
//! constant time for each entry, unless it feeds a checker. Nothing is kept between two questions.
//!
//! Proved, if the bad entry is the first one that is bad: each answer is what the definitions give
//! (`specs/`).
#![tactic(auto)]

mod change;
mod desks;
mod due;
mod held;
mod reason;

pub use change::{Change, Fate, fate_of, last_change, last_with_fate};
pub use desks::{Desk, Desks};
pub use due::{last_commit, torn_since, value_now};
pub use held::{Held, held_by, next_txn, txn_of};
pub use reason::{Reason, by_commits, by_locks};
