//! The lines that explain a verdict by any order: the entries that give its reason.
//! `specs/WhyLines.antt` defines the lines. Each transaction that is named takes two passes over
//! the history.
ghost use Rattle.std.specs.Prelude.{◌≡◌, ◌<◌, ◌++◌, List, None, Some, IfOk, OnOk, length, slice_get, string_bytes};
ghost use Rattle.std.specs.List.{All, fold};
ghost use Rattle.txn_words.specs.Kinds.{caller_of, is_began, is_commit};
ghost use Rattle.txn_words.specs.declared.entry.Entry.{Entry};
ghost use Rattle.bad_entry.specs.Desks.{HaveNoted, IsDeskOf, waiting_in};
ghost use Rattle.judge_engine.specs.OrderLines.{each_edge, from_or};
ghost use Rattle.judge_engine.specs.WhyLines.{beginner_after, beginner_in, belongs, edge_heading};
ghost use Rattle.judge_engine.specs.WhyLines.{edge_lines, first_extent, is_at, is_in_extent, misshapen_lines};
ghost use Rattle.judge_engine.specs.WhyLines.{of_txn_lines, extent_at, second_extent, txn_lines};
ghost use Rattle.judge_engine.specs.WhyLines.{waits_for, why_reason_lines};
ghost use Rattle.judge_engine.specs.WhyLines.{why_verdict_lines};

use crate::lines::{put_entry, put_if, put_transaction};
use crate::order_lines::{FirstDid, SecondDid, Which, from_at};
use bad_entry::{Desk, Desks, next_txn};
use order_check::{Edge, Kind, Reason, Verdict};
use std::alloc::{AllocError, Global};
use std::fmt;
use txn_trace::{Entry, Op, SmallEntry};

/// A transaction and its caller, if it is known.
#[derive(Clone, Copy)]
pub(crate) struct Named(pub(crate) u64, pub(crate) Option<u64>);

impl fmt::Display for Named {
    ghost use Rattle.std.specs.Prelude.{Some};
    ghost use Rattle.judge_engine.specs.WhyLines.{named_words};

    ghost output = { λ name. Some (named_words name.0 name.1) };

    fn fmt<W: fmt::Write>(&self, f: &mut fmt::Formatter<W>) -> fmt::Result {
        match self.1 {
            Some(caller) => write!(f, "transaction {} of caller {caller}", self.0),
            None => write!(f, "transaction {}", self.0),
        }
    }
}

/// Which entries of a transaction.
#[derive(Clone, Copy)]
pub(crate) enum Extent {
    /// All entries.
    Whole,
    /// The requests at this key, with their replies.
    At(u64),
    /// Its Began.
    First,
    /// Its Committed.
    Last,
}

/// A key if there is one, and the end of a line of words.
#[derive(Clone, Copy)]
struct OnKey(Option<u64>);

impl fmt::Display for OnKey {
    ghost use Rattle.std.specs.Prelude.{Some};
    ghost use Rattle.judge_engine.specs.WhyLines.{key_words};

    ghost output = { λ key. Some (key_words key.0) };

    fn fmt<W: fmt::Write>(&self, f: &mut fmt::Formatter<W>) -> fmt::Result {
        match self.0 {
            Some(key) => writeln!(f, " on key {key}:"),
            None => writeln!(f, ":"),
        }
    }
}

/// The caller of a transaction after one more entry, if it is known.
fn beginner_after(txn: u64, caller: Option<u64>, entry: Entry) -> Option<u64>
    ensures { result ≡ beginner_after txn caller entry }
{
    match entry {
        Entry::Began(beginner, begun) if begun == txn => Some(beginner),
        _ => caller,
    }
}

/// The caller that began a transaction.
pub(crate) fn beginner_in(entries: &[SmallEntry], txn: u64) -> Option<u64>
    ensures { result ≡ beginner_in txn entries.now }
{
    let mut caller = None;
    for packed in entries {
        caller = beginner_after(txn, caller, packed.entry());
    }
    caller
}

/// Whether this is an operation on the key.
fn waits_for(key: u64, waiting: Option<Op>) -> bool
    ensures { result ≡ waits_for key waiting }
{
    match waiting {
        Some(op) => op.key() == key,
        None => false,
    }
}

/// Whether an entry asks for an operation on the key, or has the reply to one. `desk` is the state
/// of its caller before the entry.
fn is_at(key: u64, desk: Desk, entry: Entry) -> bool
    ensures { (h : List Entry) → desk.waiting ≡ waiting_in h (caller_of entry) →
        result ≡ is_at key h entry }
{
    match entry {
        Entry::Asked(_, op) => op.key() == key,
        Entry::Did(..) => waits_for(key, desk.waiting),
        _ => false,
    }
}

/// Whether an entry is within this extent of its transaction. `desk` is the state of its caller before the
/// entry.
fn is_in_extent(extent: Extent, desk: Desk, entry: Entry) -> bool
    ensures { (h : List Entry) → desk.waiting ≡ waiting_in h (caller_of entry) →
        result ≡ is_in_extent extent h entry }
{
    match extent {
        Extent::Whole => true,
        Extent::At(key) => is_at(key, desk, entry),
        Extent::First => is_began(entry),
        Extent::Last => is_committed(entry),
    }
}

/// Whether an entry begins a transaction.
fn is_began(entry: Entry) -> bool
    ensures { result ≡ is_began entry }
{
    match entry {
        Entry::Began(..) => true,
        _ => false,
    }
}

/// Whether an entry commits a transaction.
fn is_committed(entry: Entry) -> bool
    ensures { result ≡ is_commit entry }
{
    match entry {
        Entry::Committed(..) => true,
        _ => false,
    }
}

/// Whether an entry is of a transaction, and within this extent. `desk` is the state of its caller
/// before the entry.
fn belongs(txn: u64, extent: Extent, desk: Desk, entry: Entry) -> bool
    ensures { (h : List Entry) → IsDeskOf h (caller_of entry) desk →
        result ≡ belongs txn extent h entry }
{
    next_txn(desk.txn, entry.caller(), entry) == Some(txn) && is_in_extent(extent, desk, entry)
}

/// Adds the entries of a transaction that are within this extent.
fn put_entries(
    alloc: Global,
    text: &mut String,
    entries: &[SmallEntry],
    txn: u64,
    extent: Extent,
) -> Result<(), AllocError>
    requires { All (λ entry. caller_of entry < 64) entries.now }
    ensures { OnOk result (string_bytes text.new
        ≡ string_bytes text.old ++ txn_lines txn extent entries.now) }
{
    let mut desks = Desks::new(alloc)?;
    for (index, packed) in entries.iter().enumerate() {
        let entry = packed.entry();
        let is_chosen = belongs(txn, extent, desks.at(entry.caller()), entry);
        put_if(alloc, text, is_chosen, index as u64, entry)?;
        desks.enter(entry);
    }
    Ok(())
}

/// The entries on the key if one is given, else all.
fn extent_at(key: Option<u64>) -> Extent
    ensures { result ≡ extent_at key }
{
    match key {
        Some(key) => Extent::At(key),
        None => Extent::Whole,
    }
}

/// Adds the entries of a transaction, on the key if one is given, below a line that names it.
fn put_txn(
    alloc: Global,
    text: &mut String,
    entries: &[SmallEntry],
    txn: u64,
    key: Option<u64>,
) -> Result<(), AllocError>
    requires { All (λ entry. caller_of entry < 64) entries.now }
    ensures { OnOk result (string_bytes text.new
        ≡ string_bytes text.old ++ of_txn_lines entries.now txn key) }
{
    let name = Named(txn, beginner_in(entries, txn));
    write!(text, "entries of {name}{}", OnKey(key))?;
    put_entries(alloc, text, entries, txn, extent_at(key))
}

/// Adds the line that says why the first transaction of an edge comes before another one.
fn put_heading(
    text: &mut String,
    entries: &[SmallEntry],
    edge: Edge,
    to: u64,
) -> Result<(), AllocError>
    ensures { OnOk result (string_bytes text.new
        ≡ string_bytes text.old ++ edge_heading entries.now edge to) }
{
    let first = Named(edge.from, beginner_in(entries, edge.from));
    let second = Named(to, beginner_in(entries, to));
    writeln!(
        text,
        "{first}{} {}{second}{}:",
        FirstDid(edge),
        Which(edge.kind),
        SecondDid(edge.kind),
    )
}

/// The extent of the first transaction that an edge of this kind is about.
fn first_extent(kind: Kind, key: u64) -> Extent
    ensures { result ≡ first_extent kind key }
{
    match kind {
        Kind::Read => Extent::At(key),
        Kind::Replaced => Extent::At(key),
        Kind::Began => Extent::Last,
    }
}

/// The extent of the second transaction that an edge of this kind is about.
fn second_extent(kind: Kind, key: u64) -> Extent
    ensures { result ≡ second_extent kind key }
{
    match kind {
        Kind::Read => Extent::At(key),
        Kind::Replaced => Extent::At(key),
        Kind::Began => Extent::First,
    }
}

/// Adds the lines of an edge that leads to the transaction `to`.
fn put_edge(
    alloc: Global,
    text: &mut String,
    entries: &[SmallEntry],
    edge: Edge,
    to: u64,
) -> Result<(), AllocError>
    requires { All (λ entry. caller_of entry < 64) entries.now }
    ensures { OnOk result (string_bytes text.new
        ≡ string_bytes text.old ++ edge_lines entries.now edge to) }
{
    put_heading(text, entries, edge, to)?;
    let first = first_extent(edge.kind, edge.key);
    let second = second_extent(edge.kind, edge.key);
    put_entries(alloc, text, entries, edge.from, first)?;
    put_entries(alloc, text, entries, to, second)
}

/// Adds the lines of edges. Each edge leads to the transaction from which the next one comes, and
/// the last one leads to `end`.
fn put_cycle(
    alloc: Global,
    text: &mut String,
    entries: &[SmallEntry],
    edges: &[Edge],
    end: u64,
) -> Result<(), AllocError>
    requires { All (λ entry. caller_of entry < 64) entries.now }
    ensures { OnOk result (string_bytes text.new
        ≡ string_bytes text.old ++ each_edge (edge_lines entries.now) edges.now end) }
{
    for (index, edge) in edges.iter().enumerate() {
        let to = from_at(edges, index + 1, end);
        put_edge(alloc, text, entries, *edge, to)?;
    }
    Ok(())
}

/// Adds the entry at this index, and the entries before it of its caller's transaction.
fn put_misshapen(
    alloc: Global,
    text: &mut String,
    entries: &[SmallEntry],
    index: u64,
) -> Result<(), AllocError>
    ensures { OnOk result (string_bytes text.new ≡ string_bytes text.old
        ++ misshapen_lines entries.now index (slice_get entries.now index)) }
{
    let Some(packed) = entries.get(index as usize) else {
        return Ok(());
    };
    let entry = packed.entry();
    writeln!(text, "the entry:")?;
    put_entry(alloc, text, index, entry)?;
    put_transaction(alloc, text, &entries[..index as usize], entry.caller())
}

/// Adds the lines of a reason.
fn put_reason(
    alloc: Global,
    text: &mut String,
    entries: &[SmallEntry],
    reason: &Reason,
) -> Result<(), AllocError>
    requires { All (λ entry. caller_of entry < 64) entries.now }
    ensures { OnOk result (string_bytes text.new
        ≡ string_bytes text.old ++ why_reason_lines entries.now reason.now) }
{
    match reason {
        Reason::Shape(index) => put_misshapen(alloc, text, entries, *index),
        Reason::Torn(txn) => put_txn(alloc, text, entries, *txn, None),
        Reason::Unwritten(txn, key, _) => put_txn(alloc, text, entries, *txn, Some(*key)),
        Reason::Impossible(txn, key, _) => put_txn(alloc, text, entries, *txn, Some(*key)),
        Reason::Cycle(edges) => put_cycle(alloc, text, entries, edges, from_at(edges, 0, 0)),
    }
}

/// Adds the lines that explain a verdict on a history.
pub(crate) fn put_why(
    alloc: Global,
    text: &mut String,
    entries: &[SmallEntry],
    verdict: &Verdict,
) -> Result<(), AllocError>
    requires { All (λ entry. caller_of entry < 64) entries.now }
    ensures { OnOk result (string_bytes text.new
        ≡ string_bytes text.old ++ why_verdict_lines entries.now verdict.now) }
{
    match verdict {
        Verdict::NotSerializable(reason) => put_reason(alloc, text, entries, reason),
        Verdict::Serializable(_) | Verdict::Undecided(..) => Ok(()),
    }
}
