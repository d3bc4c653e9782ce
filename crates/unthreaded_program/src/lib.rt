//! The program `boostmap` without an engine for the command `run`: from the words of a command line
//! to its exit status.
//!
//! A program opens the file that the words name (`open`), runs the command on the file
//! (`run_command`), and ends with an exit status and, after a fault, with the line of the fault
//! (`end`). `boostmap_program` does so with an engine that runs the command `run` in threads. The
//! function `run` of this crate has no such engine. It is the whole program `unthreaded`, in which
//! the command `run` fails since no thread can be started.
//!
//! Proved (`specs/Runs.antt`): after a run, one of two things has happened.
//!
//! - The engine of the command that the words ask for ran on the file that they name. Standard
//!   output has exactly what this engine wrote.
//! - No engine ran, and standard output is unchanged: the words make no request, their file was not
//!   opened, or memory was refused.
//!
//! Unless writing to standard error failed, it has exactly the line of the fault, or nothing if
//! there is no fault. The status is that of the outcome.
#![tactic(auto)]

mod ending;
mod opening;
mod program;

pub use ending::end;
pub use opening::{Opened, open};
pub use program::{run, run_command};
