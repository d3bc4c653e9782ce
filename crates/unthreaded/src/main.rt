//! The program `boostmap` without threads: its command `run` reports that no thread could be
//! started. The script `boostmap` builds this program first, since it needs none of the proofs
//! about threads. `unthreaded_program::run` decides everything, as `boostmap_program::run` does for
//! `boostmap`.
#![tactic(auto)]

use program_system::Process;
use std::io;
use std::process::ExitCode;
use unthreaded_program::run;

fn main(rt: HostRuntime) -> ExitCode {
    let mut output = io::writer(&rt);
    let mut errors = rt.stderr();
    let ending = run(rt.alloc(), &Process::new(&rt), &mut output, &mut errors);
    ExitCode::from(ending.status)
}
