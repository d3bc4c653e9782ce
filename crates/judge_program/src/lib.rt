//! The program `judge` as a library, from the words of the command line to the exit status.
//!
//! `run` does all that the program does, over any `System` of `program_system` and any two writers.
//! It reads the words by the rules of `clap`, opens the input, calls an engine of `judge_engine`,
//! and writes the line of a failure. `Process` is the system of a process.
//!
//! Proved (`specs/Words.antt`, `specs/Runs.antt`):
//! - The request is the one that the words ask for.
//! - Standard output has what the engine of that request promises, or the usage or the version. If
//!   the words make no request, standard output is unchanged.
//! - Standard error has the line of a failure and nothing else, unless a write of this line fails.
//! - The exit status is that of the outcome.
//!
//! No contract says what `Process` reads, since the toolchain promises nothing about a process's
//! words and files.
//!
//! Only tested: `Process` passes on each word, and opens exactly the file that a word names, or
//! standard input for `-` (`tests/judge_program.sh`).
#![tactic(auto)]

mod failure;
mod program;
mod system;
mod words;

pub use failure::Failure;
pub use program::run;
pub use system::{Process, ProcessInput};
pub use words::Request;
