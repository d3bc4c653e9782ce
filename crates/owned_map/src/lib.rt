//! A transactional map with one owner: transactions as values, and work that is run in a
//! transaction.
//!
//! `OwnedMap` holds a core of `boost_core`. The owner makes every call, one after another, on
//! behalf of a caller that is named by a number. `transact` leaves no transaction of its caller
//! open; `begin` does, for an owner that keeps transactions of several callers open.
//!
//! ```text
//! let kept: Result<u64, Stop> = map.transact(0, |t: &mut Transaction<'_>| {
//!     let before = t.get(7)?.unwrap_or(0);
//!     t.put(7, before.saturating_add(1))?;
//!     Ok(before)
//! });
//! ```
//!
//! Contracts see the state of the core, mostly `now history`, the map that results from the
//! history. Invariants: the history is legal; the core keeps its stripes itself; no operation has
//! asked for a key that the limits refuse.
//!
//! Proved: an operation does as on a plain map (`HasDone`), or is stopped and leaves the map
//! unchanged. `transact` commits one run of the work (`IsRun`), or changes nothing (`IsSameMap`). A
//! transaction that is dropped is aborted (`IsTakenBack`). Growth and `trim` keep the map
//! (`IsGrown`, `IsTrimmed`). By `Keeps`, a work's proof joins its calls (`proofs/Calls.antt`).
//!
//! Cost: that of the core. After an operation on an absent key the table grows by at most one
//! bucket, in at most four steps. If their memory is refused, no bucket is initialised.
//!
//! Only tested (`core_tests`, `striped_tests`): with enough memory no call fails, with the least
//! and greatest keys and values, 64 callers, 4,096 stripes, 65,536 buckets and 1,000 savepoints;
//! and the table grows as far as it should. No contract says when.
#![tactic(auto)]

mod owned_map;
mod transaction;
mod trim;

pub use owned_map::OwnedMap;
pub use transaction::Transaction;
pub use txn_words::{Stop, Swapped};
