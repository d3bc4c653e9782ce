// PROMISES scripts-on-threads: run
//! The engine of `run`: each worker of a script file runs its scripts in its own thread, and the
//! history is printed. Only this engine starts threads and waits for them. The other engines are in
//! `unthreaded_program`, so they do not depend on the proofs about the map that threads share.
ghost use Rattle.std.specs.Prelude.{◌≡◌, OnOk, IfOk, IfErr};
ghost use Rattle.txn_files.specs.HistoryText.{text_of_history};
ghost use Rattle.boostmap_engine.specs.Report.{line};
ghost use Rattle.boostmap_engine.specs.Written.{WritesTextOf};
ghost use Rattle.boostmap_program.specs.Threaded.{HasNoneThreaded, IsThreadedOf, LeavesThreaded, of_run};

use boostmap_engine::{Fault, write_history};
use std::alloc::Global;
use std::io::{Read, Write};
use std::sync::Wait;
use std::thread::Threads;
use thread_runs::{Open, run_scripts};
use txn_files::{into_scripts, read_bytes};
use txn_words::{Refusal, SmallEntry};

/// The version of a history file of a run.
const VERSION: u64 = 3;

/// The entries of a history, and its number of stripes. The text of a history has both.
#[derive(Drop)]
struct ThreadedHistory {
    stripes: u32,
    entries: Vec<SmallEntry>,
}

/// Runs the scripts in the bytes of a script file, each worker in its own thread, and returns the
/// history. The history has version 3, whatever version the script file has. A Busy entry of this
/// history names a caller that has begun a transaction and may have ended it. Only version 3 allows
/// such an entry.
///
/// # Errors
///
/// - `Input` if the bytes are no script file.
/// - `NoMemory` if memory is refused outside a script's call.
/// - `NoThread` if a thread could not be started.
/// - `OutOfStep` if the history is not what the workers saw.
///
/// Before a thread starts, the map takes room for what the scripts add. If memory for this room is
/// refused, the run continues.
///
/// # Cost
///
/// The cost of `run_scripts`, and time and memory in proportion to the bytes.
fn run_in_threads<R: Threads + Wait + Sync>(
    rt: &R,
    alloc: Global,
    bytes: Vec<u8>,
) -> Result<ThreadedHistory, Fault>
    ensures ok { IfOk result (λ history. IsThreadedOf bytes.items
        (line (text_of_history VERSION history.stripes history.entries.items))) }
    ensures err { IfErr result (HasNoneThreaded bytes.items) }
{
    let work = into_scripts(alloc, bytes)?;
    let limits = work.limits();
    let workers = limits.callers() as usize;
    let ran = match run_scripts(
        rt,
        alloc,
        limits,
        work.scripts(),
        workers,
        work.tries(),
        &Open,
    ) {
        Ok(ran) => ran,
        Err(refusal) => return Err(fault_of(refusal)),
    };
    drop(work);
    drop(ran.outcomes);
    Ok(ThreadedHistory {
        stripes: limits.stripes(),
        entries: ran.trace,
    })
}

/// The fault that reports the refusal of a whole run.
fn fault_of(refusal: Refusal) -> Fault
    ensures { result ≡ of_run refusal }
{
    match refusal {
        Refusal::NoMemory => Fault::NoMemory,
        Refusal::NoThread => Fault::NoThread,
        _ => Fault::OutOfStep,
    }
}

/// Reads a script file to its end, and runs its scripts on one map, each worker in its own thread.
/// Writes the history as one line of compact JSON, which ends with a line feed. Nothing else is
/// written. The order of the workers' steps is not fixed, so two runs of a file may write different
/// histories; each is legal.
///
/// At most 16,777,217 bytes are read. If a call of the reader or the writer fails, it is not
/// repeated.
///
/// # Errors
///
/// Nothing is written, unless the error is `Write`.
///
/// - `Read` if a read fails.
/// - `Input` if the file is refused.
/// - `NoMemory` if memory is refused outside a script's call. Before a thread starts, the map takes
///   room for what the scripts add. If memory for this room is refused, the run continues. If
///   memory is refused in a script's call, the script ends as refused.
/// - `NoThread` if a thread could not be started. The workers that were started finish first.
/// - `OutOfStep` if the history is not what the workers saw.
/// - `Write` if a write fails or takes no byte. Then only the first bytes of the line are written,
///   or none.
///
/// # Cost
///
/// The cost of `thread_runs::run_scripts`, and time and memory in proportion to the file and the
/// history.
pub fn run<T: Threads + Wait + Sync, R: Read, W: Write>(
    rt: &T,
    alloc: Global,
    input: &mut R,
    output: &mut W,
) -> Result<(), Fault>
    ensures runs { OnOk result (WritesTextOf IsThreadedOf (R.remaining input.old)
        (W.contents output.old) (W.contents output.new)) }
    ensures fault { IfErr result (LeavesThreaded (R.remaining input.old)
        (W.contents output.old) (W.contents output.new)) }
{
    let bytes = read_bytes(alloc, input)?;
    let history = run_in_threads(rt, alloc, bytes)?;
    write_history(alloc, output, VERSION, history.stripes, &history.entries)
}
