//! The system that a program runs on.
//!
//! `System` has the services that a program needs: the words of its command line, and
//! files. It is a trait, so a program can also be tried on a system in memory. `Process` is the
//! system that a process runs on. `specs/Words.antt` has three definitions for a command line
//! that `clap` reads: when a command of `clap` is built as an application defines it, which rule a
//! word must meet that names a file, and which words are numerals. `command_line` and
//! `judge_program` use them, with the lemmas of `proofs/`. Each program ends with an `Ending`.
//!
//! Only tested: `Process` passes on each word, and opens exactly the file that a word names
//! (`tests/program.sh`).
#![tactic(auto)]

mod ending;
mod system;

pub use ending::Ending;
pub use system::{Process, System};
