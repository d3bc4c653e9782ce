//! The engines of the program `boostmap`, for any reader and any writer. An engine reads a file
//! and, as is proved, writes exactly the outcome:
//!
//! - `replay`: the report of a run of the file's steps on a new core, that is each step's answer,
//!   the size and the count, and the pairs of the map in list order (`specs/Report.antt`);
//! - `check`: the line of the verdict on the file's history (`specs/Judgement.antt`);
//! - `mix`: a legal history of the file's scripts, mixed as a seed determines, in which the
//!   workers' committed transactions play them (`specs/Mixture.antt`). For each turn a generator
//!   draws one of the workers that still have a step (`mix_scripts`, `specs/Turns.antt`).
//!
//! The engine of `run` is in `boostmap_program`, since it starts threads. At the faults `Input`,
//! `Read` and `NoMemory` nothing is written; at `Write`, a proper prefix of the text
//! (`specs/Written.antt`).
//!
//! The bytes of the file and the values read from them are in memory at the same time. A report is
//! made as a whole before its first byte is written; a history is written in blocks, in memory that
//! is taken before.
//!
//! Only tested: with enough memory no call fails with 1,000,000 steps or entries, nor with a report
//! of 100,002 keys (`tests/limits.sh`); after a failed read or write nothing is tried again
//! (`engines` of `program_tests`); `Read` is never returned if each read succeeds
//! (`tests/program.sh`).
#![tactic(auto)]

mod crew;
mod drawing;
mod engine;
mod fault;
mod judgement;
mod mixing;
mod mixture;
mod ordinary;
mod output;
mod report;
mod turn;

pub use drawing::draw;
pub use engine::{check, mix, replay};
pub use fault::{Fault, Message};
pub use mixing::mix_scripts;
pub use output::write_history;
