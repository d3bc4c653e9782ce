//! The text of a verdict by any order: one line, and the transactions of a serial order if they are
//! asked for. `specs/OrderLines.antt` defines the text.
ghost use Rattle.std.specs.Prelude.{◌≡◌, ◌++◌, IfOk, OnOk, slice_get, string_bytes};
ghost use Rattle.judge_engine.specs.OrderLines.{after_semicolon, after_space, cycle_words, each_edge};
ghost use Rattle.judge_engine.specs.OrderLines.{each_txn, from_or, undecided_line};
ghost use Rattle.judge_engine.specs.OrderLines.{order_lines, order_lines_if, reason_line};
ghost use Rattle.judge_engine.specs.OrderLines.{reason_words, serializable_text, text_by};

use crate::class::{TimeSuffix, class_of, has_time};
use crate::lines::OrNone;
use order_check::{Edge, Kind, Reason, Verdict};
use std::alloc::{AllocError, Global};
use std::fmt;

/// Says that real time counts, if it does.
#[derive(Clone, Copy)]
struct InTime(bool);

impl fmt::Display for InTime {
    ghost use Rattle.std.specs.Prelude.{Some};
    ghost use Rattle.judge_engine.specs.OrderLines.{in_time_if};

    ghost output = { λ counts. Some (in_time_if counts.0) };

    fn fmt<W: fmt::Write>(&self, f: &mut fmt::Formatter<W>) -> fmt::Result {
        if self.0 {
            f.write_str(" in real time")
        } else {
            Ok(())
        }
    }
}

/// What the first transaction of an edge did.
#[derive(Clone, Copy)]
pub(crate) struct FirstDid(pub(crate) Edge);

impl fmt::Display for FirstDid {
    ghost use Rattle.std.specs.Prelude.{Some};
    ghost use Rattle.judge_engine.specs.OrderLines.{first_did};

    ghost output = { λ edge. Some (first_did edge.0) };

    fn fmt<W: fmt::Write>(&self, f: &mut fmt::Formatter<W>) -> fmt::Result {
        let value = OrNone(self.0.value);
        let key = self.0.key;
        match self.0.kind {
            Kind::Read => write!(f, " left {value} at key {key},"),
            Kind::Replaced => write!(f, " read {value} at key {key},"),
            Kind::Began => f.write_str(" committed before"),
        }
    }
}

/// What stands between the transactions of an edge of this kind.
#[derive(Clone, Copy)]
pub(crate) struct Which(pub(crate) Kind);

impl fmt::Display for Which {
    ghost use Rattle.std.specs.Prelude.{Some};
    ghost use Rattle.judge_engine.specs.OrderLines.{which_words};

    ghost output = { λ kind. Some (which_words kind.0) };

    fn fmt<W: fmt::Write>(&self, f: &mut fmt::Formatter<W>) -> fmt::Result {
        match self.0 {
            Kind::Read => f.write_str("which "),
            Kind::Replaced => f.write_str("which "),
            Kind::Began => Ok(()),
        }
    }
}

/// What the second transaction of an edge did.
#[derive(Clone, Copy)]
pub(crate) struct SecondDid(pub(crate) Kind);

impl fmt::Display for SecondDid {
    ghost use Rattle.std.specs.Prelude.{Some};
    ghost use Rattle.judge_engine.specs.OrderLines.{second_did};

    ghost output = { λ kind. Some (second_did kind.0) };

    fn fmt<W: fmt::Write>(&self, f: &mut fmt::Formatter<W>) -> fmt::Result {
        match self.0 {
            Kind::Read => f.write_str(" read"),
            Kind::Replaced => f.write_str(" replaced"),
            Kind::Began => f.write_str(" began"),
        }
    }
}

/// An edge, and the transaction to which it leads, printed as what the two transactions did.
#[derive(Clone, Copy)]
struct Link(Edge, u64);

impl fmt::Display for Link {
    ghost use Rattle.std.specs.Prelude.{Some};
    ghost use Rattle.judge_engine.specs.OrderLines.{edge_words};

    ghost output = { λ link. Some (edge_words link.0 link.1) };

    fn fmt<W: fmt::Write>(&self, f: &mut fmt::Formatter<W>) -> fmt::Result {
        write!(
            f,
            "transaction {}{} {}transaction {}{}",
            self.0.from,
            FirstDid(self.0),
            Which(self.0.kind),
            self.1,
            SecondDid(self.0.kind),
        )
    }
}

/// The transaction from which the edge at this index comes, or `end` if there is no such edge.
pub(crate) fn from_at(edges: &[Edge], index: usize, end: u64) -> u64
    ensures { result ≡ from_or (slice_get edges.now index) end }
{
    match edges.get(index) {
        Some(edge) => edge.from,
        None => end,
    }
}

/// Adds what each edge says. Each edge leads to the transaction from which the next one comes, and
/// the last one leads to `end`.
fn put_edges(text: &mut String, edges: &[Edge], end: u64) -> Result<(), AllocError>
    ensures { OnOk result (string_bytes text.new
        ≡ string_bytes text.old ++ each_edge after_semicolon edges.now end) }
{
    for (index, edge) in edges.iter().enumerate() {
        let to = from_at(edges, index + 1, end);
        write!(text, "; {}", Link(*edge, to))?;
    }
    Ok(())
}

/// Adds the class of a cycle, and what its edges say.
fn put_cycle(text: &mut String, edges: &[Edge]) -> Result<(), AllocError>
    ensures { OnOk result (string_bytes text.new
        ≡ string_bytes text.old ++ cycle_words edges.now) }
{
    let suffix = TimeSuffix(has_time(edges));
    write!(
        text,
        "{}{suffix}, cycle of {}",
        class_of(edges),
        edges.len()
    )?;
    put_edges(text, edges, from_at(edges, 0, 0))
}

/// Adds the words that say why a history is not serializable.
fn put_reason_words(text: &mut String, real_time: bool, reason: &Reason) -> Result<(), AllocError>
    ensures { OnOk result (string_bytes text.new
        ≡ string_bytes text.old ++ reason_words real_time reason.now) }
{
    match reason {
        Reason::Shape(entry) => write!(text, "entry {} has the wrong shape", *entry),
        Reason::Torn(txn) => write!(
            text,
            "the replies of transaction {} contradict one another",
            *txn
        ),
        Reason::Unwritten(txn, key, value) => write!(
            text,
            "transaction {} read {} at key {}, which no committed transaction left",
            *txn,
            OrNone(*value),
            *key,
        ),
        Reason::Impossible(txn, key, value) => write!(
            text,
            "transaction {} read {} at key {}, which no serial order{} gives",
            *txn,
            OrNone(*value),
            *key,
            InTime(real_time),
        ),
        Reason::Cycle(edges) => put_cycle(text, edges),
    }
}

/// Adds the line that says why a history is not serializable.
fn put_reason(text: &mut String, real_time: bool, reason: &Reason) -> Result<(), AllocError>
    ensures { OnOk result (string_bytes text.new
        ≡ string_bytes text.old ++ reason_line real_time reason.now) }
{
    write!(text, "not serializable{}: ", InTime(real_time))?;
    put_reason_words(text, real_time, reason)?;
    writeln!(text)
}

/// Adds a line for each transaction of an order.
fn put_order(text: &mut String, order: &[u64]) -> Result<(), AllocError>
    ensures { OnOk result (string_bytes text.new
        ≡ string_bytes text.old ++ order_lines order.now) }
{
    for txn in order {
        writeln!(text, "transaction {}", *txn)?;
    }
    Ok(())
}

/// Adds the lines of an order if they are asked for.
fn put_order_if(text: &mut String, shows: bool, order: &[u64]) -> Result<(), AllocError>
    ensures { OnOk result (string_bytes text.new
        ≡ string_bytes text.old ++ order_lines_if shows order.now) }
{
    if shows {
        put_order(text, order)
    } else {
        Ok(())
    }
}

/// Adds the line of a serializable history, and the lines of its order if they are asked for.
fn put_serializable(
    text: &mut String,
    real_time: bool,
    shows: bool,
    commits: u64,
    running: u64,
    order: &[u64],
) -> Result<(), AllocError>
    ensures { OnOk result (string_bytes text.new
        ≡ string_bytes text.old ++ serializable_text real_time shows commits running order.now) }
{
    let in_time = InTime(real_time);
    writeln!(
        text,
        "serializable{in_time} {commits} commits {running} open"
    )?;
    put_order_if(text, shows, order)
}

/// Adds the transactions, each after a space.
fn put_spaced(text: &mut String, txns: &[u64]) -> Result<(), AllocError>
    ensures { OnOk result (string_bytes text.new
        ≡ string_bytes text.old ++ each_txn after_space txns.now) }
{
    for txn in txns {
        write!(text, " {}", *txn)?;
    }
    Ok(())
}

/// Adds the line of an undecided history, with the transactions that write the value.
fn put_undecided(
    text: &mut String,
    key: u64,
    value: Option<u64>,
    writers: &[u64],
) -> Result<(), AllocError>
    ensures { OnOk result (string_bytes text.new
        ≡ string_bytes text.old ++ undecided_line key value writers.now) }
{
    let had = OrNone(value);
    write!(text, "undecided key {key} value {had}: transactions")?;
    put_spaced(text, writers)?;
    writeln!(text)
}

/// The text of a verdict, with or without real time, on a history with so many commits and callers
/// in a transaction.
pub(crate) fn text_by(
    alloc: Global,
    real_time: bool,
    shows: bool,
    commits: u64,
    running: u64,
    verdict: &Verdict,
) -> Result<String, AllocError>
    ensures { IfOk result (λ text. string_bytes text
        ≡ text_by real_time shows commits running verdict.now) }
{
    let mut text = String::new(alloc);
    match verdict {
        Verdict::Serializable(order) => {
            put_serializable(&mut text, real_time, shows, commits, running, order)?;
        }
        Verdict::NotSerializable(reason) => put_reason(&mut text, real_time, reason)?,
        Verdict::Undecided(key, value, writers) => {
            put_undecided(&mut text, *key, *value, writers)?;
        }
    }
    Ok(text)
}
