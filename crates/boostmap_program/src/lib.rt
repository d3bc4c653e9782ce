//! The program `boostmap` as a library: from the words of a command line to the exit status.
//!
//! `run` does all that the program does, over any system that has words and opens files, and any
//! two writers. `command_line` lists the commands. Proved: `Runs` of `unthreaded_program`, with
//! `threaded::run` as the engine of the command `run` (`specs/Threaded.antt`). It writes a legal
//! history of a run of the scripts, each worker in its own thread (`HasRunScripts`). The status is
//! 1 if `check` finds an illegal history.
//!
//! Only tested, of this crate and of `unthreaded_program`: if standard error fails at any byte of
//! its line, the status does not change (`commands::writers_that_fail` of `program_tests`);
//! `NoThread` and `OutOfStep` do not occur with 1 and 64 workers, nor with 10,000 scripts or
//! actions (`tests/limits.sh`).
#![tactic(auto)]

mod program;
pub mod threaded;

pub use program::run;
