//! The undo log of a transaction by boosting (Herlihy and Koskinen, "Transactional Boosting",
//! 2008): one inverse for each change. To take changes back, their inverses are run, newest first.
//!
//! - `UndoJob`: an inverse. A job names the state of its world, such as a table, after the change
//!   and before it. `run` takes a world in the first state, and returns one in the second.
//! - `UndoLog`: contracts see its jobs, oldest first, and how many of them each savepoint keeps.
//!   Savepoints are numbered 1, 2, ..; level 0, the beginning, keeps no job. A call that takes out
//!   a job names a level, and never takes out one that this level keeps. The log itself has places
//!   for eight jobs; more take an allocation.
//! - `Side` and `SideValue`: a value that belongs to the caller. Contracts see its words at each
//!   level. A return to a level restores exactly these words, for every side type and every list of
//!   changes.
//!
//! Room is reserved before a change is made, so that no memory is needed when it is taken back.
//! Apart from a side type's code, only `reserve_one`, `save`, `save_room` and `change` take memory.
//! Calls take constant time and no memory unless they say otherwise.
//!
//! Both logs are a `JobLog` (`log.rt`). A side value's jobs are all in a `Vec`, since the caller
//! chooses their size.
//!
//! Not proved, only read in the code: `back` runs each side job, newest first, also between two
//! levels whose words are equal.
#![tactic(auto)]

mod inline_jobs;
mod job;
mod log;
mod side;
mod side_value;
mod store;

pub use job::UndoJob;
pub use log::UndoLog;
pub use side::{Side, SideJob};
pub use side_value::SideValue;
