//! The flaw of a history file that is refused: the first place at fault, the value there, and the
//! values that are allowed instead.
//!
//! `txn_files` names the first element of `entries` that is not an entry. Of any other fault it
//! only says its kind. This crate answers the writer's next question: which element of the entry is
//! wrong, which words and numbers are allowed there, or which member is missing.
//!
//! `txn_files` defines the format. The element at fault is the first with which no entry goes on;
//! exactly those that continue some entry are allowed in its place (`IsFault`).
//!
//! Proved: `flaw_in` finds no flaw exactly if `read_history` accepts the file. If it finds a flaw,
//! this flaw is the cause of the refusal. `flaw_in` keeps the JSON value of the whole file, which
//! takes much more memory than `read_history`. Programs call it only for files that are refused.
//!
//! Only tested: line and column of a fault in JSON (`tests/judge_program.sh`).
#![tactic(auto)]

mod elements;
mod expected;
mod file;
mod flaw;
mod found;
mod place;
mod values;

pub use expected::Expected;
pub use file::flaw_in;
pub use flaw::Flaw;
pub use found::Found;
pub use place::Place;
