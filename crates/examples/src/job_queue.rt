//! A queue of jobs in one striped map, from which four threads take jobs. A key is a job, and its
//! value is the job's state. The only other key is `DONE`, whose value counts the jobs that were
//! done. Each job is done once. If a caller stops in the middle of a transaction, the transaction's
//! changes are taken back.
ghost use Rattle.striped_map.specs.Keeps.{Keeps};

use std::alloc::Global;
use std::io::Print;
use std::thread;
use std::thread::Threads;
use striped_map::{Caller, Opening, Stop, Transaction};

/// The number of workers. Each has its own thread and its own caller.
const WORKERS: usize = 4;
/// The number of jobs. The key of a job is a number below this one.
const JOBS: u64 = 12;
/// The key whose value counts the jobs that were done.
const DONE: u64 = 100;
/// The state of a job that waits for a worker.
const WAITING: u64 = 1;
/// The state of a job that a worker has claimed.
const CLAIMED: u64 = 2;
/// The state of a job that is finished.
const FINISHED: u64 = 3;

/// Puts all jobs into the queue.
#[tactic(auto, using(striped_map::proofs::CallSpans::keeps_stay, striped_map::proofs::CallSpans::keeps_on))]
fn fill(t: &mut Transaction<'_>) -> Result<(), Stop>
    ensures { Keeps t.old t.new }
{
    for job in 0..JOBS {
        t.put(job, WAITING)?;
    }
    Ok(())
}

/// Claims a job if it waits. Returns true if the job was claimed.
fn claim(t: &mut Transaction<'_>, job: u64) -> Result<bool, Stop>
    ensures { Keeps t.old t.new }
{
    Ok(t.swap(job, Some(WAITING), CLAIMED)?.0)
}

/// Finishes a job that was claimed, and counts it.
#[tactic(auto, using(striped_map::proofs::CallSpans::keeps_on, striped_map::proofs::CallSpans::keeps_three))]
fn finish(t: &mut Transaction<'_>, job: u64) -> Result<(), Stop>
    ensures { Keeps t.old t.new }
{
    t.put(job, FINISHED)?;
    let count = t.get(DONE)?.unwrap_or(0);
    t.put(DONE, count.saturating_add(1))?;
    Ok(())
}

/// Begins a transaction that puts every job in the state `FINISHED`, and drops it before it is
/// committed, so its changes are taken back.
fn begin_to_finish(caller: &mut Caller) -> Result<(), Stop> {
    let mut t = Transaction::begin(caller)?;
    for job in 0..JOBS {
        t.put(job, FINISHED)?;
    }
    Ok(())
}

/// If a job waits, claims the job and finishes it, in two transactions.
fn work_on(caller: &mut Caller, job: u64) -> Result<(), Stop> {
    let (is_claimed, _) = caller.transact(u64::MAX, |t: &mut Transaction<'_>| claim(t, job))?;
    if is_claimed {
        caller.transact(u64::MAX, |t: &mut Transaction<'_>| finish(t, job))?;
    }
    Ok(())
}

/// Claims each job that waits and finishes it.
fn work(caller: &mut Caller) {
    for job in 0..JOBS {
        let _ = work_on(caller, job);
    }
}

/// The first caller fills the queue, and then the workers do all jobs. Returns the map.
fn do_all<R: Threads + Sync>(rt: &R, alloc: Global) -> Result<Vec<(u64, u64)>, Stop> {
    let (mut host, mut callers) = Opening::new(8, WORKERS).open(alloc)?;
    if let Some(first) = callers.first_mut() {
        first.transact(0, |t: &mut Transaction<'_>| fill(t))?;
        begin_to_finish(first)?;
    }
    thread::for_each_mut(
        rt,
        callers.as_mut_slice(),
        WORKERS,
        &|_, caller| work(caller),
    );
    host.pairs()
}

/// The number of jobs in the state `FINISHED`, and the value of the key `DONE`.
fn finished(pairs: &[(u64, u64)]) -> (u64, u64) {
    let mut jobs = 0u64;
    let mut count = 0u64;
    for &(key, value) in pairs {
        if key == DONE {
            count = value;
        } else if value == FINISHED {
            jobs = jobs.saturating_add(1);
        }
    }
    (jobs, count)
}

/// Does all jobs, and prints how many are finished and whether the count of done jobs is the same
/// number.
pub(crate) fn show<R: Threads + Sync + Print + AllocGlobal>(rt: &R) -> anyhow::Result<()> {
    let pairs = do_all(rt, rt.alloc())?;
    let (jobs, count) = finished(pairs.as_slice());
    println!(rt;
        "jobs {JOBS}, finished {jobs}, each once: {}",
        count == jobs
    )?;
    Ok(())
}
