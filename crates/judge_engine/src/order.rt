//! The answer to whether the history of a file is serializable, in any order of its transactions.
//! `order_check` judges the entries, `order_lines.rt` makes the text of its verdict, `order_why.rt`
//! the lines that explain it, and `order_dot.rt` the graph.
ghost use Rattle.std.specs.Prelude.{◌≡◌, ◌<◌, Bool, List, IfOk, IfErr, string_bytes};
ghost use Rattle.std.specs.List.{All};
ghost use Rattle.txn_words.specs.Kinds.{caller_of};
ghost use Rattle.txn_words.specs.declared.entry.Entry.{Entry};
ghost use Rattle.order_check.specs.Fed.{IsFed};
ghost use Rattle.judge_engine.specs.Answers.{answer_of};
ghost use Rattle.judge_engine.specs.DotLines.{dot_text, text_or_graph};
ghost use Rattle.judge_engine.specs.Files.{IsUnjudgedFile};
ghost use Rattle.judge_engine.specs.OrderLines.{order_text};
ghost use Rattle.judge_engine.specs.Ordered.{IsAnswered, IsOrdered};
ghost use Rattle.judge_engine.specs.WhyLines.{why_text};

use crate::answer::Answer;
use crate::fault::Fault;
use crate::order_dot::put_graph;
use crate::order_lines::text_by;
use crate::order_why::put_why;
use order_check::{Checker, Options, Verdict};
use std::alloc::{AllocError, Global};
use txn_files::{into_packed_history, read_packed_history};
use txn_trace::SmallEntry;

/// What the judge by any order found of a history.
#[derive(Drop)]
pub(crate) struct Ordered {
    pub(crate) verdict: Verdict,
    /// How many transactions are committed, if the history has the right shape.
    pub(crate) commits: u64,
    /// How many callers are in a transaction at the end, if the history has the right shape.
    pub(crate) running: u64,
}

/// A checker that was fed these entries.
fn fed_checker(
    alloc: Global,
    real_time: bool,
    most_branches: u64,
    entries: &[SmallEntry],
) -> Result<Checker, AllocError>
    requires { All (λ entry. caller_of entry < 64) entries.now }
    ensures { IfOk result (IsFed real_time entries.now) }
{
    let options = Options {
        real_time,
        most_branches,
    };
    let mut checker = Checker::new(alloc, options)?;
    for entry in entries {
        checker.feed(&entry.entry())?;
    }
    Ok(checker)
}

/// What the checker finds of the entries that it was fed.
fn found_by(alloc: Global, checker: &Checker) -> Result<Ordered, AllocError>
    ensures { (b : Bool) (h : List Entry) → IsFed b h checker.now → IfOk result (IsOrdered b h) }
{
    let verdict = checker.verdict(alloc)?;
    Ok(Ordered {
        verdict,
        commits: checker.callers().committed(),
        running: checker.callers().running(),
    })
}

/// Judges entries by any order of their transactions, with or without real time.
fn judge_entries(
    alloc: Global,
    real_time: bool,
    most_branches: u64,
    entries: &[SmallEntry],
) -> Result<Ordered, AllocError>
    requires { All (λ entry. caller_of entry < 64) entries.now }
    ensures { IfOk result (IsOrdered real_time entries.now) }
{
    let checker = fed_checker(alloc, real_time, most_branches, entries)?;
    found_by(alloc, &checker)
}

/// Judges entries that are not needed afterwards. They are dropped before the verdict, which needs
/// most memory.
fn judge_packed(
    alloc: Global,
    real_time: bool,
    most_branches: u64,
    packed: Vec<SmallEntry>,
) -> Result<Ordered, AllocError>
    requires { All (λ entry. caller_of entry < 64) packed.items }
    ensures { IfOk result (IsOrdered real_time packed.items) }
{
    let checker = fed_checker(alloc, real_time, most_branches, packed.as_slice())?;
    drop(packed);
    found_by(alloc, &checker)
}

/// The text of the verdict on a history.
fn text_of(
    alloc: Global,
    real_time: bool,
    shows: bool,
    ordered: &Ordered,
) -> Result<String, AllocError>
    ensures { (h : List Entry) → IsOrdered real_time h ordered.now →
        IfOk result (λ text. string_bytes text ≡ order_text real_time shows h ordered.now.verdict) }
{
    text_by(
        alloc,
        real_time,
        shows,
        ordered.commits,
        ordered.running,
        &ordered.verdict,
    )
}

/// The answer that a verdict gives. Constant time.
fn answer_of(verdict: &Verdict) -> Answer
    ensures { result ≡ answer_of verdict.now }
{
    match verdict {
        Verdict::Serializable(_) => Answer::Yes,
        Verdict::NotSerializable(_) => Answer::No,
        Verdict::Undecided(..) => Answer::Undecided,
    }
}

/// The answer and the text for the history file with these bytes, with or without real time. The
/// text has the order of a serializable history if `shows` is true.
///
/// # Errors
///
/// `Input` if the bytes are no history file; `NoMemory` if memory is refused.
///
/// # Cost
///
/// The cost of the checker for each entry and of its verdict, and time and memory in proportion to
/// the number of bytes.
pub(crate) fn order_file(
    alloc: Global,
    real_time: bool,
    most_branches: u64,
    shows: bool,
    bytes: Vec<u8>,
) -> Result<(Answer, String), Fault>
    ensures ok { IfOk result (λ found. IsAnswered real_time (order_text real_time shows) bytes.items
        found.0 (string_bytes found.1)) }
    ensures err { IfErr result (IsUnjudgedFile bytes.items) }
{
    let (_, packed, _) = into_packed_history(alloc, bytes)?;
    let ordered = judge_packed(alloc, real_time, most_branches, packed)?;
    let text = text_of(alloc, real_time, shows, &ordered)?;
    Ok((answer_of(&ordered.verdict), text))
}

/// The text that explains the verdict on a history.
fn why_text_of(
    alloc: Global,
    real_time: bool,
    entries: &[SmallEntry],
    ordered: &Ordered,
) -> Result<String, AllocError>
    requires { All (λ entry. caller_of entry < 64) entries.now }
    ensures { IsOrdered real_time entries.now ordered.now → IfOk result (λ text.
        string_bytes text ≡ why_text real_time entries.now ordered.now.verdict) }
{
    let mut text = text_of(alloc, real_time, false, ordered)?;
    put_why(alloc, &mut text, entries, &ordered.verdict)?;
    Ok(text)
}

/// The graph of the verdict on a history.
fn graph_of(
    alloc: Global,
    real_time: bool,
    entries: &[SmallEntry],
    ordered: &Ordered,
) -> Result<String, AllocError>
    ensures { IsOrdered real_time entries.now ordered.now → IfOk result (λ text.
        string_bytes text ≡ dot_text real_time entries.now ordered.now.verdict) }
{
    let line = text_of(alloc, real_time, false, ordered)?;
    let mut text = String::new(alloc);
    write!(text, "digraph {{\n  // {line}")?;
    put_graph(&mut text, entries, &ordered.verdict)?;
    writeln!(text, "}}")?;
    Ok(text)
}

/// The text that explains the verdict on a history, or its graph if this is asked for.
fn text_or_graph(
    alloc: Global,
    real_time: bool,
    as_graph: bool,
    entries: &[SmallEntry],
    ordered: &Ordered,
) -> Result<String, AllocError>
    requires { All (λ entry. caller_of entry < 64) entries.now }
    ensures { IsOrdered real_time entries.now ordered.now → IfOk result (λ text.
        string_bytes text ≡ text_or_graph real_time as_graph entries.now ordered.now.verdict) }
{
    if as_graph {
        graph_of(alloc, real_time, entries, ordered)
    } else {
        why_text_of(alloc, real_time, entries, ordered)
    }
}

/// The answer for the history file with these bytes, with or without real time, and the text or the
/// graph that explains it.
///
/// # Errors
///
/// `Input` if the bytes are no history file; `NoMemory` if memory is refused.
///
/// # Cost
///
/// The cost of `order_file`, and a few passes over the entries for each transaction that the text
/// names.
pub(crate) fn explain_order(
    alloc: Global,
    real_time: bool,
    most_branches: u64,
    as_graph: bool,
    bytes: &[u8],
) -> Result<(Answer, String), Fault>
    ensures ok { IfOk result (λ found. IsAnswered real_time (text_or_graph real_time as_graph)
        bytes.now found.0 (string_bytes found.1)) }
    ensures err { IfErr result (IsUnjudgedFile bytes.now) }
{
    let (_, packed, _) = read_packed_history(alloc, bytes)?;
    let entries = packed.as_slice();
    let ordered = judge_entries(alloc, real_time, most_branches, entries)?;
    let text = text_or_graph(alloc, real_time, as_graph, entries, &ordered)?;
    Ok((answer_of(&ordered.verdict), text))
}
