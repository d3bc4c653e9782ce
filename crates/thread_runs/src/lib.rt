//! Scripts on threads. Each worker has its own thread and is a caller of one shared map.
//!
//! Worker `w` is caller `w`, and script `i` belongs to worker `i mod workers`. A worker runs its
//! scripts in their order, by the rules of `script_worker`. After some new keys without a help, a
//! worker helps the table to grow by itself.
//!
//! A contract sees the result of a run: the history, and an outcome for each script. Proved
//! (`run_scripts`, by `IsRunOf` of `specs/Runs.antt`): the history is legal by the rule that a Busy
//! may name any other worker that has begun a transaction; each entry belongs to one of the
//! workers; and the outcome of each script is true of the history. It is not proved that a run
//! ends, or that a script ever commits.
//!
//! Only tested: a `Gate` is called once for each action, outcome and release, in order, with the
//! numbers of worker and script (`gate_tests` of `thread_tests`; by its contract the private
//! `run_script` could pass another number); two workers run at once; with enough memory no call
//! fails with 64 workers and 10,000 scripts (`tests/limits.sh`).
#![tactic(auto)]

mod gate;
mod growth;
mod merging;
mod outcome;
mod ran;
mod run_script;
mod runs;
mod terms;
mod threads;
mod worker;

pub use gate::{Gate, Open};
pub use outcome::Outcome;
pub use ran::Ran;
pub use runs::run_scripts;
