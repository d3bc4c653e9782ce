//! Workers: each runs its scripts one after the other, each script as a transaction.
//!
//! A script is a list of actions. An attempt at a script begins a transaction, does the actions in
//! order, and commits. If another caller holds a key's stripe, the transaction is aborted and the
//! script attempted again, up to an allowed number of times. If an action is refused, the
//! transaction is aborted and the script is over; after another refusal, or `OutOfStep`, it ends at
//! once. An action may also abort the transaction.
//!
//! Like a `Drive` of `txn_drive`, a worker names its next step and is given the answer. It takes no
//! step and no memory, so its owner decides how the steps of several workers mix. `take_turn` takes
//! a turn by a closure.
//!
//! A contract sees a worker as its number, the map's limits, and the script that it is at, with the
//! attempt and the call's drive. `specs/Attempts.antt` and `specs/Workers.antt` define how it
//! reacts to each answer. Proved: the code does so, and the worker keeps to its scripts
//! (`specs/Keeps.antt`). That is, its entries are the accounts of its finished scripts
//! (`specs/Accounts.antt`), one after the other, and then those of the present one. The account of
//! a committed script ends with a transaction that plays it; any other commits nothing.
//! `boostmap_engine` and `thread_runs` conclude that outcomes are true.
//!
//! `outcomes` reads a history that such workers made, and finds each script's outcome: committed,
//! aborted by the script's own action, or given up (`specs/Outcomes.antt`). Proved, of any history,
//! legal or not:
//!
//! - If a script has the outcome committed, its worker has a Committed entry with the outcome's
//!   index and `place`, whose transaction plays the script. In a history of the right shape this is
//!   a committed transaction by the definitions of `txn_trace` (`laws::committed_plays`).
//! - If a script has the outcome aborted, its worker has an Aborted entry with the outcome's index,
//!   whose transaction did exactly the script's actions up to its own abort.
//! - Commits are counted as `laws::commits_are_counted` says.
//!
//! Only tested: each script that aborts itself in a run has the outcome aborted.
//!
//! Invariant: a worker with a script left has a step to take. Calls take constant time and no
//! memory unless they say otherwise.
#![tactic(auto)]

mod assigning;
mod attempt;
pub mod laws;
mod matching;
mod outcome;
mod task;
mod way;
mod worker;

pub use assigning::outcomes;
pub use attempt::{Attempt, Finish, Progress, Stage};
pub use outcome::Outcome;
pub use task::Task;
pub use worker::Worker;
