// PROMISES scripts-that-take-turns: mix
// PROMISES from-words-and-bytes-to-bytes: replay, check, mix
//! The engines of three commands. Each engine reads its whole input from a reader, takes all of its
//! memory, and only then writes to a writer. So a fault before the first write leaves the output
//! unchanged.
ghost use Rattle.std.specs.Prelude.{OnOk, IfOk, IfErr};
ghost use Rattle.boostmap_engine.specs.Written.{WritesTextOf, LeavesOutput};
ghost use Rattle.boostmap_engine.specs.Report.{IsReportOf, IsNoStepFile};
ghost use Rattle.boostmap_engine.specs.Judgement.{IsJudgement, IsJudgementOf, IsNoHistoryFile};
ghost use Rattle.boostmap_engine.specs.Mixture.{IsMixtureOf, IsNoScriptFile};

use crate::fault::Fault;
use crate::judgement::judge;
use crate::mixture::mixture;
use crate::output::write_history;
use crate::report::report;
use std::alloc::Global;
use std::io::{Read, Write};
use txn_files::{read_bytes, write_text};

/// Reads a step file to its end, runs its steps one after the other on a new core, and writes the
/// report. First come the answers, one on each line. Then comes `size S count C`, where `S` is the
/// number of buckets and `C` the number of keys. Then comes a line `key value` for each pair of the
/// map, in list order. Every line ends with a line feed.
///
/// At most 16,777,217 bytes are read. No call of the reader or the writer is repeated after it
/// failed.
///
/// # Errors
///
/// Nothing is written, unless the error is `Write`.
///
/// - `Read` if a read fails.
/// - `Input` if the file is refused.
/// - `NoMemory` if memory is refused outside a step. Room in the history is made before the first
///   step; if only that room is refused, the run continues. If a step lacks memory, it is answered
///   `refused 14` and changes nothing.
/// - `Write` if a write fails or takes no bytes. Then a proper prefix of the report is written.
///
/// # Cost
///
/// The cost of `Core::new` and of the steps, and time and memory in proportion to the file and the
/// report.
pub fn replay<R: Read, W: Write>(alloc: Global, input: &mut R, output: &mut W) -> Result<(), Fault>
    ensures reports { OnOk result (WritesTextOf IsReportOf (R.remaining input.old)
        (W.contents output.old) (W.contents output.new)) }
    ensures fault { IfErr result (LeavesOutput IsReportOf IsNoStepFile (R.remaining input.old)
        (W.contents output.old) (W.contents output.new)) }
{
    let bytes = read_bytes(alloc, input)?;
    let text = report(alloc, bytes)?;
    write_text(output, text.as_bytes())?;
    Ok(())
}

/// Reads a history file to its end, judges the history, and writes the verdict as one line that
/// ends with a line feed. Returns true if the history is legal. The line is `legal C commits O
/// open` or `illegal entry I rule R`. `C` is the number of commits, and `O` the number of callers
/// that are in a transaction at the end. `I` is the index, from 0, of the first entry that breaks a
/// rule, and `R` is that rule: 1 for replies, 2 for locks, 3 for shape.
///
/// At most 16,777,217 bytes are read. No call of the reader or the writer is repeated after it
/// failed.
///
/// # Errors
///
/// Nothing is written, unless the error is `Write`.
///
/// - `Read` if a read fails.
/// - `Input` if the file is refused.
/// - `NoMemory` if memory is refused.
/// - `Write` if a write fails or takes no bytes. Then a proper prefix of the line is written.
///
/// # Cost
///
/// The cost of `history_check::check`, and time and memory in proportion to the file.
pub fn check<R: Read, W: Write>(alloc: Global, input: &mut R, output: &mut W) -> Result<bool, Fault>
    ensures judges { IfOk result (λ legal. WritesTextOf (IsJudgement legal) (R.remaining input.old)
        (W.contents output.old) (W.contents output.new)) }
    ensures fault { IfErr result (LeavesOutput IsJudgementOf IsNoHistoryFile (R.remaining input.old)
        (W.contents output.old) (W.contents output.new)) }
{
    let bytes = read_bytes(alloc, input)?;
    let verdict = judge(alloc, bytes)?;
    let line = verdict.line(alloc)?;
    write_text(output, line.as_bytes())?;
    Ok(verdict.is_legal())
}

/// Reads a script file to its end, and runs its scripts on a new core. The seed determines how the
/// workers' turns are mixed. Writes the history as one line of compact JSON, which ends with a line
/// feed.
///
/// Before each turn the generator `Pcg32` of this seed draws its next word, even if only one worker
/// still has a step to take. The workers that still have a step to take get places from 0, in
/// rising order of their numbers. The turn goes to the worker whose place is the word modulo the
/// number of these workers. So, if no step lacks memory, the same file and seed give the same
/// bytes.
///
/// At most 16,777,217 bytes are read. No call of the reader or the writer is repeated after it
/// failed.
///
/// # Errors
///
/// Nothing is written, unless the error is `Write`.
///
/// - `Read` if a read fails.
/// - `Input` if the file is refused.
/// - `NoMemory` if memory is refused outside a step. If a step lacks memory, its script ends as
///   refused.
/// - `Write` if a write fails or takes no bytes. Then a proper prefix of the line is written.
///
/// # Cost
///
/// The cost of `mix_scripts`, and time and memory in proportion to the file and the
/// history.
pub fn mix<R: Read, W: Write>(
    alloc: Global,
    seed: u64,
    input: &mut R,
    output: &mut W,
) -> Result<(), Fault>
    ensures mixes { OnOk result (WritesTextOf (IsMixtureOf seed) (R.remaining input.old)
        (W.contents output.old) (W.contents output.new)) }
    ensures fault { IfErr result (LeavesOutput (IsMixtureOf seed) IsNoScriptFile
        (R.remaining input.old) (W.contents output.old) (W.contents output.new)) }
{
    let bytes = read_bytes(alloc, input)?;
    let history = mixture(alloc, seed, bytes)?;
    write_history(
        alloc,
        output,
        history.version,
        history.stripes,
        &history.entries,
    )
}
