//! The program `boostmap`. `boostmap_program::run` decides what the program does with its
//! command-line words, its file and its outputs, and with which status it exits. Nothing is decided
//! here. This crate is separate from `boostmap_program`, since it needs a process: the process's
//! runtime, memory and outputs.
#![tactic(auto)]

use boostmap_program::run;
use program_system::Process;
use std::io;
use std::process::ExitCode;

fn main(rt: HostRuntime) -> ExitCode {
    let mut output = io::writer(&rt);
    let mut errors = rt.stderr();
    let ending = run(
        &rt,
        rt.alloc(),
        &Process::new(&rt),
        &mut output,
        &mut errors,
    );
    ExitCode::from(ending.status)
}
