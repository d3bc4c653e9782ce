//! Starts the workers' threads, each with its pass, and joins them in the order of the workers.
//! Only this module starts and joins threads; `worker.rt` says what a thread does. If a thread
//! cannot be started, the threads that were started finish before the run returns. Each thread has
//! a stack of 256 KiB.
ghost use Rattle.std.specs.Prelude.{◌≡◌, IfOk, IfErr, length, map};
ghost use Rattle.locked_map.specs.Tokens.{AreTickets};
ghost use Rattle.thread_runs.specs.Runs.{Each};
ghost use Rattle.thread_runs.specs.Runs.{HasReported, IsRunRefusal};

use crate::gate::Gate;
use crate::terms::Terms;
use crate::worker::{Orders, WorkerReport};
use core::thread::Stack;
use locked_map::Pass;
use std::alloc::{AllocError, Global};
use std::marker::PhantomData;
use std::snapshot::Snapshot;
use std::sync::Wait;
use std::sync::ledger::Ledger;
use std::thread;
use std::thread::{Promise, PromisedHandle, Threads};
use txn_trace::{Limits, Refusal};

/// The size of a worker's stack in bytes. No function of a worker calls itself, and all its frames
/// together take a few thousand bytes. A limited address space has no room for many stacks of the
/// system's default size, often 8 MiB.
const STACK: usize = 256 * 1024;

/// The promise of a thread that gets a pass. Unless memory is refused, the thread returns the
/// caller that the pass is for, and this caller has run its scripts.
#[derive(Drop)]
struct Runs<L: Ledger, T: Terms> {
    pass: Snapshot<Pass<L>>,
    terms: PhantomData<T>,
}

impl<L: Ledger, T: Terms> Promise<Result<WorkerReport<L>, AllocError>> for Runs<L, T> {
    ghost kept_by = { λ p r. IfOk r (HasReported p.pass.value.limits.half T.workers T.tries
        T.scripts p.pass.value.number) };
}

/// Runs each worker in its own thread, and returns the workers' reports in the order of the
/// workers.
pub(crate) fn in_threads<
    L: Ledger + Send + Sync,
    T: Terms + Send + Sync,
    G: Gate,
    R: Threads + Wait + Sync,
>(
    rt: &R,
    alloc: Global,
    limits: Limits,
    orders: &Orders<L, G, T>,
    passes: Vec<Pass<L>>,
) -> Result<Vec<WorkerReport<L>>, Refusal>
    requires { AreTickets limits passes.items }
    ensures len { IfOk result (λ reports. length reports.items ≡ limits.callers) }
    ensures each { IfOk result (λ reports.
        Each (HasReported limits.half T.workers T.tries T.scripts) reports.items) }
    ensures err { IfErr result IsRunRefusal }
{
    thread::scope(
        thread::scope_env(),
        rt,
        |scope| -> Result<Vec<WorkerReport<L>>, Refusal>
            requires { AreTickets limits passes.items }
            ensures len { IfOk result (λ reports. length reports.items ≡ limits.callers) }
            ensures each { IfOk result (λ reports.
                Each (HasReported limits.half T.workers T.tries T.scripts) reports.items) }
            ensures err { IfErr result IsRunRefusal }
        {
            let mut threads = Vec::new(alloc);
            for pass in passes {
                let promise = Runs::<L, T> {
                    pass: Snapshot::of(&pass),
                    terms: PhantomData,
                };
                let stack = Stack::new().stack_size(STACK);
                let started = stack.spawn_scoped_with(
                    scope,
                    promise,
                    move || orders.work(rt, alloc, pass),
                );
                let Ok(thread) = started else {
                    return Err(Refusal::NoThread);
                };
                let Ok(()) = threads.push(thread) else {
                    return Err(Refusal::NoMemory);
                };
            }
            match join_all(rt, alloc, limits, threads) {
                Ok(reports) => Ok(reports),
                Err(AllocError) => Err(Refusal::NoMemory),
            }
        },
    )
}

/// Waits for the thread of each worker, and returns the workers' reports in the order of the
/// threads.
fn join_all<L: Ledger, T: Terms, R: Threads>(
    rt: &R,
    alloc: Global,
    limits: Limits,
    threads: Vec<PromisedHandle<Result<WorkerReport<L>, AllocError>, Runs<L, T>>>,
) -> Result<Vec<WorkerReport<L>>, AllocError>
    requires { AreTickets limits (map (λ thread. thread.promise.pass.value) threads.items) }
    ensures len { IfOk result (λ reports. length reports.items ≡ limits.callers) }
    ensures each { IfOk result (λ reports.
        Each (HasReported limits.half T.workers T.tries T.scripts) reports.items) }
{
    let mut reports = Vec::new(alloc);
    for thread in threads {
        let report = thread.join(rt)?;
        reports.push(report)?;
    }
    Ok(reports)
}
