//! Calls `bank`, `audit` and `visits` of `samples`. Lets threads move sums between the accounts of
//! one map and take jobs from another map. Runs the files of the folder `examples`. The output of
//! each example begins with a line: the example's name, or its command and its file.
//!
//! `.ci/run` compares the output with the file `stdout`, which was written by hand. This program
//! itself has no contract.
#![tactic(auto)]

mod call_audit;
mod call_bank;
mod call_visits;
mod files;
mod job_queue;
mod transfers;

use anyhow::Result;

fn main(rt: HostRuntime) -> Result<()> {
    println!(rt; "bank")?;
    call_bank::show(&rt)?;
    println!(rt; "audit")?;
    call_audit::show(&rt)?;
    println!(rt; "visits")?;
    call_visits::show(&rt)?;
    println!(rt; "transfers")?;
    transfers::show(&rt)?;
    println!(rt; "job queue")?;
    job_queue::show(&rt)?;
    files::show(&rt)
}
