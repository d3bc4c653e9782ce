//! The program `judge`. It gives the memory, the files and the outputs of the process to
//! `judge_program::run`, which does the work and returns the exit status. `run` is in another
//! crate, so that tests can call it without a process.
#![tactic(auto)]

use judge_program::{Process, run};
use std::io;
use std::process::ExitCode;

fn main(rt: HostRuntime) -> ExitCode {
    let mut output = io::writer(&rt);
    let mut errors = rt.stderr();
    let ending = run(rt.alloc(), &Process::new(&rt), &mut output, &mut errors);
    ExitCode::from(ending.status)
}
