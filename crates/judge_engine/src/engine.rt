// PROMISES a-verdict-by-any-order-is-right: check_serializable
// PROMISES entries-as-lines: watch, check
// PROMISES what-leads-to-a-bad-entry: why
// PROMISES what-is-wrong-with-a-refused-file: why
//! The commands of `judge` that give a verdict. Each takes a reader and a writer, and leaves the
//! reading, judging and writing to other modules. Each command makes the whole text of a verdict
//! before it writes. So a fault before the first write leaves the output unchanged, except that
//! `why` writes the flaw of a refused file. `watch` keeps a checker and a part of the input in
//! memory; the others keep a whole file.
ghost use Rattle.std.specs.Prelude.{IfOk, IfErr};
ghost use Rattle.judge_engine.specs.Bases.{HasStripes};
ghost use Rattle.judge_engine.specs.DotLines.{text_or_graph};
ghost use Rattle.judge_engine.specs.Files.{Checks, FailsToCheck};
ghost use Rattle.judge_engine.specs.OrderLines.{order_text};
ghost use Rattle.judge_engine.specs.Ordered.{IsAnswerText, IsTextFor, WritesAnswer};
ghost use Rattle.judge_engine.specs.Outputs.{LeavesOutput, LeavesText, WritesLine};
ghost use Rattle.judge_engine.specs.Watching.{FailsToWatch, Watches};
ghost use Rattle.judge_engine.specs.Whys.{IsExplained, LeavesExplanation, WritesExplanation};

use crate::answer::Answer;
use crate::basis::Basis;
use crate::fault::Fault;
use crate::file::{explain_file, judge_file};
use crate::order::{explain_order, order_file};
use crate::output::{tell, write_answer, write_explained, write_verdict};
use crate::reading::watch_lines;
use std::alloc::Global;
use std::io::{Read, Write};
use txn_files::read_bytes;

/// Reads entries, one per line, judges each as it is read, and writes the verdict: `legal C commits
/// O open` at the end of the input, or `illegal entry I rule R` at the first bad entry. The verdict
/// is one line, ended by a line feed, and nothing else is written. Returns whether the history is
/// legal.
///
/// Each line is an entry, written as in a history file of the newest version: as an array. Blank
/// lines are skipped, and a last line without its line feed is read as a line. There may be any
/// number of lines. Nothing is read after the bytes with the first bad entry. No call of the reader
/// or the writer is repeated after it failed.
///
/// # Errors
///
/// If the error is not `Write`, nothing was written.
///
/// - `Line` for the first line that is refused, if no entry before it is bad. A line is refused if
///   it has more than 1,000 bytes, is no entry, or names a caller above 63.
/// - `Read` if a read fails.
/// - `NoMemory` if memory is refused.
/// - `Write` if a write fails or takes nothing. Then the beginning of the verdict's line may be
///   written, but not the whole line.
///
/// # Cost
///
/// The cost of the checker for each entry, and time in proportion to the number of bytes. Memory
/// for the checker, and 64 KB.
pub fn watch<R: Read, W: Write>(
    alloc: Global,
    basis: Basis,
    input: &mut R,
    output: &mut W,
) -> Result<bool, Fault>
    requires { HasStripes basis }
    ensures judges { IfOk result (λ legal. WritesLine (Watches basis (R.remaining input.old)) legal
        (W.contents output.old) (W.contents output.new)) }
    ensures fault { IfErr result (LeavesOutput (Watches basis (R.remaining input.old))
        (FailsToWatch basis (R.remaining input.old))
        (W.contents output.old) (W.contents output.new)) }
{
    let verdict = watch_lines(alloc, basis, input)?;
    write_verdict(alloc, verdict, output)
}

/// Reads a history file to its end, judges the history by the order of commits or by the locks of
/// the file's stripes, and writes the verdict in the same form as `watch`. Returns whether the
/// history is legal.
///
/// At most 16,777,217 bytes are read. No call of the reader or the writer is
/// repeated after it failed.
///
/// # Errors
///
/// If the error is not `Write`, nothing was written.
///
/// - `Read` if a read fails.
/// - `Input` if the file is refused.
/// - `NoMemory` if memory is refused.
/// - `Write` if a write fails or takes nothing. Then the beginning of the verdict's line may be
///   written, but not the whole line.
///
/// # Cost
///
/// The cost of the checker for each entry, and time and memory in proportion to the size of the
/// file.
pub fn check<R: Read + Drop, W: Write>(
    alloc: Global,
    by_commits: bool,
    mut input: R,
    output: &mut W,
) -> Result<bool, Fault>
    ensures judges { IfOk result (λ legal. WritesLine (Checks by_commits (R.remaining input)) legal
        (W.contents output.old) (W.contents output.new)) }
    ensures fault { IfErr result (LeavesOutput (Checks by_commits (R.remaining input))
        (FailsToCheck (R.remaining input))
        (W.contents output.old) (W.contents output.new)) }
{
    let bytes = read_bytes(alloc, &mut input)?;
    let verdict = judge_file(alloc, by_commits, bytes)?;
    write_verdict(alloc, verdict, output)
}

/// Reads a history file to its end, judges the history by any order of its transactions, and writes
/// the verdict as one line. The line is `serializable C commits O open`, or `not serializable: `
/// and the reason, or `undecided key K value V: transactions` and their numbers. If the history is serializable and `shows_order`
/// is true, the transactions of a serial order follow, one in a line. Nothing else is written.
/// Returns the answer that the verdict gives.
///
/// If `real_time` is true, a transaction must also come after all that had committed when it began.
/// The lines then begin with `serializable in real time` or `not serializable in real time`.
///
/// If the order of the commits is a serial order, the verdict is `serializable`. If it is
/// `undecided`, the value named comes more than once at its key, and the transactions named are those
/// that write it. A search for an order takes at most `most_branches` branches (`order_check`).
///
/// At most 16,777,217 bytes are read. No call of the reader or the writer is
/// repeated after it failed.
///
/// # Errors
///
/// If the error is not `Write`, nothing was written.
///
/// - `Read` if a read fails.
/// - `Input` if the file is refused.
/// - `NoMemory` if memory is refused.
/// - `Write` if a write fails or takes nothing. Then the beginning of the text may be written, but
///   not the whole text.
///
/// # Cost
///
/// The cost of the checker for each entry and of its verdict, and time and memory in proportion to
/// the size of the file.
pub fn check_serializable<R: Read + Drop, W: Write>(
    alloc: Global,
    real_time: bool,
    most_branches: u64,
    shows_order: bool,
    mut input: R,
    output: &mut W,
) -> Result<Answer, Fault>
    ensures answers { IfOk result (λ answer. WritesAnswer real_time
        (order_text real_time shows_order)
        (R.remaining input) answer (W.contents output.old) (W.contents output.new)) }
    ensures fault { IfErr result (LeavesText
        (IsAnswerText real_time (order_text real_time shows_order) (R.remaining input))
        (FailsToCheck (R.remaining input))
        (W.contents output.old) (W.contents output.new)) }
{
    let bytes = read_bytes(alloc, &mut input)?;
    let (answer, text) = order_file(alloc, real_time, most_branches, shows_order, bytes)?;
    write_answer(answer, text.as_str(), output)
}

/// Judges a history file and writes the verdict's line, like `check`. If the history is illegal,
/// lines that explain the bad entry follow. Returns whether the history is legal.
///
/// If the file is refused, one line is written instead: the flaw that `bad_file` finds. The line
/// may say that the file is too long or is not JSON. Otherwise the line has the JSON path of the
/// first place that is wrong, the value there, and the values that are allowed instead, with their
/// range. If no value is allowed there, the line has the path and the words "an element too many".
///
/// # Errors
///
/// - `Read` if a read fails. Nothing was written.
/// - `Input` if the file is refused. The line of the flaw was written.
/// - `NoMemory` if memory is refused. Nothing was written.
/// - `Write` if a write fails or takes nothing. Then the beginning of the lines may be written, but
///   not all of them.
///
/// # Cost
///
/// A few times the cost of the checker for each entry, and time and memory in proportion to the
/// size of the file. For a file that is refused, the cost of `bad_file`.
pub fn why<R: Read + Drop, W: Write>(
    alloc: Global,
    by_commits: bool,
    mut input: R,
    output: &mut W,
) -> Result<bool, Fault>
    ensures judges { IfOk result (λ legal. WritesExplanation by_commits (R.remaining input) legal
        (W.contents output.old) (W.contents output.new)) }
    ensures fault { IfErr result (LeavesExplanation (IsExplained by_commits) (R.remaining input)
        (W.contents output.old) (W.contents output.new)) }
{
    let bytes = read_bytes(alloc, &mut input)?;
    match explain_file(alloc, by_commits, &bytes) {
        Ok((verdict, lines)) => write_explained(alloc, verdict, lines.as_str(), output),
        Err(fault) => Err(tell(alloc, fault, &bytes, output)),
    }
}

/// Judges a history file and writes the verdict's line, like `check_serializable`. If the history
/// is not serializable, lines that explain the reason follow. For a cycle, each edge has a line
/// with the two transactions, their callers and the key, and then the requests of both at this key
/// with their replies. An edge of real time has the `committed` of the first transaction and the
/// `began` of the second one. Returns the answer that the verdict gives.
///
/// If `as_graph` is true, a graph in the language of Graphviz' `dot` is written instead, with the
/// verdict's line as a comment. For a cycle it has the class, a node for each transaction, and its
/// edges, else nothing.
///
/// If the file is refused, the line of its flaw is written instead, as by `why`.
///
/// # Errors
///
/// - `Read` if a read fails. Nothing was written.
/// - `Input` if the file is refused. The line of the flaw was written.
/// - `NoMemory` if memory is refused. Nothing was written.
/// - `Write` if a write fails or takes nothing. Then the beginning of the lines may be written, but
///   not all of them.
///
/// # Cost
///
/// The cost of `check_serializable`, and four passes over the entries for each edge. For a file
/// that is refused, the cost of `bad_file`.
pub fn why_serializable<R: Read + Drop, W: Write>(
    alloc: Global,
    real_time: bool,
    most_branches: u64,
    as_graph: bool,
    mut input: R,
    output: &mut W,
) -> Result<Answer, Fault>
    ensures answers { IfOk result (λ answer. WritesAnswer real_time
        (text_or_graph real_time as_graph)
        (R.remaining input) answer (W.contents output.old) (W.contents output.new)) }
    ensures fault { IfErr result (LeavesExplanation
        (IsTextFor real_time (text_or_graph real_time as_graph))
        (R.remaining input) (W.contents output.old) (W.contents output.new)) }
{
    let bytes = read_bytes(alloc, &mut input)?;
    match explain_order(alloc, real_time, most_branches, as_graph, &bytes) {
        Ok((answer, text)) => write_answer(answer, text.as_str(), output),
        Err(fault) => Err(tell(alloc, fault, &bytes, output)),
    }
}
