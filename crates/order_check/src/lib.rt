//! A judge of histories by any order of their transactions.
//!
//! A history is a list of `txn_trace`'s entries. It is serializable (`IsSerializable`) if it has
//! the right shape and a serial order. A serial order has each committed transaction once. Each has
//! the same replies as if it ran alone after those before it, from the empty map (Papadimitriou,
//! "The Serializability of Concurrent Database Updates", 1979). Transactions that abort or stay
//! open may have read anything.
//!
//! Until a transaction commits, the checker keeps its footprint (`serial_check`). From then on it
//! keeps an access for each key: the value that the transaction needs, and the one that it leaves.
//! Each value that is needed gets a source. A transaction comes after its sources, and before those
//! that replace what it needs. These are the dependencies of Adya, "Weak Consistency" (1999). An
//! order that keeps them is serial. Where values repeat, a search proposes other sources, or the
//! edges that every order keeps exclude all of them.
//!
//! A checker may judge whether the history is strictly serializable (`IsStrictlySerializable`): a
//! transaction comes after all that had committed when it began. These are edges too.
//!
//! Proved: each verdict is right (`IsVerdictIf`), and names the order of the commits if that is a
//! serial order.
//!
//! By the law `by_commits`, a history that is legal by locks is serializable.
//!
//! The cycle that is reported is the shortest one that walks find.
//!
//! Only tested: that few verdicts are undecided, and that the cycle reported is a shortest one.
#![tactic(auto)]

mod access;
mod checker;
mod choice;
mod edge;
mod edges;
mod exclusion;
mod forward;
mod gather;
mod graph;
mod history;
mod in_turn;
mod known;
mod laws;
mod link;
mod naming;
mod options;
mod outcome;
mod placing;
mod replacers;
mod search;
mod shortest;
mod table;
mod timing;
mod transactions;
mod verdict;
mod writers;

pub use checker::Checker;
pub use edge::{Edge, Kind};
pub use history::{check, check_packed};
pub use laws::{by_commits, edges_forced, in_time, no_order, sources_suffice};
pub use options::Options;
pub use verdict::{Reason, Verdict};
