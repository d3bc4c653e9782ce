//! A checker of recorded histories of a transactional map.
//!
//! A legal history (`IsLegal` of `txn_trace`) is serializable in the order of commits, open
//! transactions too, and keeps strict two-phase locking. The checker names the first entry that
//! breaks a rule. Which callers a Busy may name is a parameter (`Holder`).
//!
//! The checker runs no transaction again. While a history is legal, open transactions hold
//! different stripes, so the map as it is now gives the right reply to each of them. So the checker
//! keeps that map, the holder of each stripe, and for each caller its phase, its standing changes
//! with the values before them, and its savepoints.
//!
//! An entry costs the logarithm of the number of keys; one that ends a transaction also costs a
//! step for each of its stripes and changes. Memory is in proportion to the stripes, and to the
//! greatest numbers of keys, standing changes and savepoints at one time.
//!
//! The other judges use `Callers`, which judges the shape, and `FirstBad`.
//!
//! Proved: `check`, `check_packed` and `Checker` give the `verdict` of `txn_trace`, which is
//! `Legal` exactly if `IsLegal` holds. If memory for an entry is refused, the entry was not fed.
#![tactic(auto)]

mod caller;
mod callers;
mod checker;
mod history;
mod live_map;
mod state;
mod values;
mod verdict;

pub use callers::Callers;
pub use checker::Checker;
pub use history::{check, check_packed};
pub use verdict::{Rule, Verdict};
