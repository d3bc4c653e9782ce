// PROMISES what-became-of-each-script: outcomes
//! The pass over a history. Each entry is given to the `Way` of its caller's worker, and the `Way`
//! writes the outcomes. Entries of callers without a worker are skipped. Only this module handles
//! all workers together: it holds one `Way` for each worker and one outcome for each script.
ghost use Rattle.std.specs.Prelude.{◌≡◌, ℕ, ◌<◌, List, IfOk, length};
ghost use Rattle.script_worker.specs.Outcomes.{AreOutcomes};
ghost use Rattle.script_worker.specs.Ways.{AreFresh, AreNone};

use crate::outcome::Outcome;
use crate::way::{Way, Work};
use std::alloc::{AllocError, Global};
use txn_trace::{Scripts, SmallEntry};

/// One `Way` for each of `workers` workers, before the first entry.
fn new_ways(alloc: Global, workers: usize) -> Result<Vec<Way>, AllocError>
    ensures { IfOk result (λ ways. AreFresh workers ways.items) }
{
    let mut ways = Vec::new(alloc);
    for worker in 0..workers {
        ways.push(Way::new(alloc, worker))?;
    }
    Ok(ways)
}

/// One outcome for each of `scripts` scripts. Before the first entry is read, each outcome is
/// `GivenUp`.
fn none_yet(alloc: Global, scripts: usize) -> Result<Vec<Outcome>, AllocError>
    ensures { IfOk result (λ outcomes. AreNone scripts outcomes.items) }
{
    let mut outcomes = Vec::new(alloc);
    for _index in 0..scripts {
        outcomes.push(Outcome::GivenUp)?;
    }
    Ok(outcomes)
}

/// The outcome of each script in a history, in the order of the scripts. The number of workers is
/// the number of callers in the limits of `scripts`. Script `i` belongs to worker `i` modulo that
/// number. Worker `w` is caller `w` of the history.
///
/// For a commit, the caller's scripts are tried in order, beginning after the last script for which
/// a commit was counted. The commit is counted for the first script that its transaction plays. If
/// the transaction plays none of the scripts that are tried, neither this commit nor a later one of
/// the caller is counted.
///
/// An abort is counted for one script or for none. If it is counted, its transaction did exactly
/// the script's actions up to the script's own abort. If this is true of several scripts, the
/// caller's earlier entries decide for which of them the abort is counted.
///
/// So each transaction is counted for at most one script. A caller's counted commits are in the
/// order of its scripts, and so are its counted aborts. If the caller's commits play its scripts in
/// order, every commit of the caller is counted.
///
/// The function does not test whether the history is legal.
///
/// # Errors
///
/// `AllocError` if memory is refused.
///
/// # Cost
///
/// Time in proportion to the number of entries plus the number of actions of all scripts. Memory
/// for one outcome of each script, and for the entries of each caller's longest transaction.
pub fn outcomes(
    alloc: Global,
    scripts: &Scripts,
    entries: &[SmallEntry],
) -> Result<Vec<Outcome>, AllocError>
    ensures { IfOk result (λ outcomes. AreOutcomes scripts.now.sizes.callers scripts.now.scripts
        entries.now outcomes.items) }
{
    let workers = scripts.limits().callers() as usize;
    let work = Work {
        scripts: scripts.scripts(),
        workers,
        tries: scripts.tries(),
    };
    let mut ways = new_ways(alloc, workers)?;
    let mut outcomes = none_yet(alloc, work.scripts.len())?;
    for (index, packed) in entries.iter().enumerate() {
        let entry = packed.entry();
        let caller = entry.caller() as usize;
        if ways.len() <= caller {
            continue;
        }
        ways[caller].take_in(&work, entry, index as u64, &mut outcomes)?;
    }
    Ok(outcomes)
}
