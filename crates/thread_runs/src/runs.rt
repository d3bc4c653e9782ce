// PROMISES scripts-on-threads: run_scripts
//! A run of scripts, from a new map to the outcomes in the scripts' order. The parts of a run are
//! in the other modules. A run chooses the types of its ledger and of its terms, so callers of
//! `run_scripts` name neither. Before a thread starts, room is made for the entries of one attempt
//! at each script. If this room is refused or used up, the history grows as it is used.
ghost use Rattle.std.specs.Prelude.{◌≡◌, ◌<◌, ◌≤◌, IfOk, IfErr, map, reverse};
ghost use Rattle.thread_runs.specs.Runs.{IsRunOf, IsRunRefusal};

use crate::gate::Gate;
use crate::merging::in_order;
use crate::outcome::Outcome;
use crate::ran::Ran;
use crate::terms::Terms;
use crate::threads::in_threads;
use crate::worker::{Orders, WorkerReport};
use locked_map::{Caller, NoSide, SharedMap};
use std::alloc::{AllocError, Global};
use std::marker::{Brand, PhantomData};
use std::sync::Wait;
use std::sync::ledger::{Blank, Ledger};
use std::thread::Threads;
use txn_trace::{Limits, Refusal, Script};

/// Runs each script in the thread of its worker, on a new map. There are as many workers as the
/// limits have callers. Script `i` belongs to worker `i` modulo the number of workers, and worker
/// `w` is caller `w`. A script that found a stripe held is tried again at most `tries` times, after
/// other threads had a chance to run. After seven puts or put-ifs at absent keys without a help
/// between them, a worker helps the table to grow, even if its script does not ask for it. This
/// adds no entry.
///
/// If the result is `Ok`, the history is legal by the rule that a Busy may name any other worker
/// that has begun a transaction. Each entry of the history belongs to one of these workers. Each
/// script has one outcome, and the outcomes are true of the history, so each worker's committed
/// transactions play its scripts:
///
/// - `Committed` stands for the transaction `txn` of the script's worker. This transaction plays
///   the script, is number `place` in the commit order, and has exactly these `replies`. Each
///   Committed entry of the history belongs to exactly one outcome.
/// - A worker with `b` outcomes `Busy` has at least `b * (tries + 1)` Busy entries.
/// - Only a script with an abort is `Aborted`.
/// - A script is `Refused` with `BadKey` only if it has a bad key, with `NoSuchLevel` only if it
///   goes back to a level, and with `StaleWord` only if it has an operation. The other possible
///   refusals are `NoMemory`, `StampsUsedUp` and `OutOfStep`.
///
/// # Errors
///
/// - `NoMemory` if memory is refused for the map, for the list of threads or for their results.
/// - `NoThread` if a thread could not be started. The workers that were started finish first.
/// - `OutOfStep` if what the workers saw is not the history.
///
/// # Cost
///
/// The cost of `SharedMap::new` and of the calls, and a thread for each worker. In addition, time
/// in proportion to the scripts, time for each worker in proportion to the history, and memory in
/// proportion to the scripts and the history.
pub fn run_scripts<G: Gate, R: Threads + Wait + Sync>(
    rt: &R,
    alloc: Global,
    limits: Limits,
    scripts: &[Script],
    workers: usize,
    tries: u64,
    gate: &G,
) -> Result<Ran, Refusal>
    requires workers { workers ≡ limits.callers }
    requires tries { tries ≤ 1000 }
    ensures ran { IfOk result (IsRunOf limits workers tries scripts.now) }
    ensures err { IfErr result IsRunRefusal }
{
    let blank = Blank::new(u64::from(limits.callers()));
    run_under::<Brand, Brand, G, R>(rt, alloc, blank, limits, scripts, workers, tries, gate)
}

/// `run_scripts` with its ledger and its terms as type parameters.
fn run_under<L: Ledger + Send + Sync, T: Terms + Send + Sync, G: Gate, R: Threads + Wait + Sync>(
    rt: &R,
    alloc: Global,
    blank: Blank,
    limits: Limits,
    scripts: &[Script],
    workers: usize,
    tries: u64,
    gate: &G,
) -> Result<Ran, Refusal>
    requires name { blank.name ≡ L.name }
    requires parts { blank.parts ≡ L.parts }
    requires one_each { blank.parts ≡ limits.callers }
    requires workers { T.workers ≡ workers }
    requires callers { T.workers ≡ limits.callers }
    requires tries { T.tries ≡ tries }
    requires scripts { T.scripts ≡ scripts.now }
    ensures ran { IfOk result (IsRunOf limits workers tries scripts.now) }
    ensures err { IfErr result IsRunRefusal }
{
    let entries = entries_of(scripts);
    let (mut map, passes) = SharedMap::<L>::new(alloc, blank, limits)?;
    let _room = map.reserve(entries);
    let orders = Orders::<L, G, T> {
        map: &map,
        scripts,
        workers,
        entries: entries / workers,
        tries,
        gate,
        terms: PhantomData,
    };
    let reports = in_threads(rt, alloc, limits, &orders, passes)?;
    let (callers, rows) = unzip(alloc, reports)?;
    let Ok(closed) = map.close(callers) else {
        return Err(Refusal::OutOfStep);
    };
    // Dropping the callers here, before the merge, frees the entries that they saw.
    drop(closed.callers);
    let trace = closed.core.into_trace();
    let outcomes = in_order(alloc, rows, scripts)?;
    Ok(Ran { outcomes, trace })
}

/// The number of entries for which a run makes room: enough for one attempt at each script. An
/// action adds at most two entries, and a third if it is taken back. Beside these, an attempt adds at
/// most three entries. Room that is never used costs only address space.
fn entries_of(scripts: &[Script]) -> usize {
    scripts.iter().fold(0usize, |sum, script| {
        let own = script.actions().len().saturating_add(1);
        sum.saturating_add(own.saturating_mul(3))
    })
}

/// The callers of the reports, and for each caller a row of its outcomes in reverse: the last one
/// comes first.
fn unzip<L: Ledger>(
    alloc: Global,
    reports: Vec<WorkerReport<L>>,
) -> Result<(Vec<Caller<L, NoSide>>, Vec<Vec<Outcome>>), AllocError>
    ensures callers { IfOk result (λ r. r.0.items ≡ map (λ report. report.caller) reports.items) }
    ensures rows { IfOk result (λ r. map (λ row. row.items) r.1.items
        ≡ map (λ report. reverse report.outcomes.items) reports.items) }
{
    let mut callers = Vec::new(alloc);
    let mut rows = Vec::new(alloc);
    for report in reports {
        let WorkerReport {
            caller,
            mut outcomes,
        } = report;
        outcomes.reverse();
        callers.push(caller)?;
        rows.push(outcomes)?;
    }
    Ok((callers, rows))
}
