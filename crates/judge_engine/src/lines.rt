// PROMISES what-leads-to-a-bad-entry: lines_of
//! The lines that explain a bad entry: each part of the reason that `bad_entry` gives, in words.
//! `specs/ReasonLines.antt` defines the lines. A reason that lists entries takes a few more passes
//! over the history.
ghost use Rattle.std.specs.Prelude.{◌≡◌, ◌<◌, ◌++◌, ◌==◌, ◌&&◌, List, length, nat_eq, nat_le};
ghost use Rattle.std.specs.Prelude.{IfOk, OnOk, Some, slice_get, string_bytes, take};
ghost use Rattle.std.specs.Option.{option_eq};
ghost use Rattle.std.specs.List.{All};
ghost use Rattle.txn_words.specs.Kinds.{caller_of};
ghost use Rattle.txn_words.specs.Shape.{IsShaped};
ghost use Rattle.txn_words.specs.declared.entry.Entry.{Entry};
ghost use Rattle.history_check.specs.Callers.{HaveEntered};
ghost use Rattle.serial_check.specs.Serializable.{IsSerializableByCommits};
ghost use Rattle.judge_engine.specs.Bases.{HasStripes, IsLegalBy, IsReasonBy, IsVerdictBy};
ghost use Rattle.judge_engine.specs.Explained.{Explains, ExplainsAt, ExplainsEntry};
ghost use Rattle.judge_engine.specs.ReasonLines.{contradiction_lines, entry_line, since_torn};
ghost use Rattle.judge_engine.specs.ReasonLines.{first_since, holder_line, is_of, is_of_key, is_on};
ghost use Rattle.judge_engine.specs.ReasonLines.{is_waiting_on, last_line, line_if, lines_on};
ghost use Rattle.judge_engine.specs.ReasonLines.{lines_where, misnamed_line, misread_lines};
ghost use Rattle.judge_engine.specs.ReasonLines.{named_line, reason_lines, reply_lines};
ghost use Rattle.judge_engine.specs.ReasonLines.{since_line, since_lines, torn_lines};
ghost use Rattle.judge_engine.specs.ReasonLines.{transaction_lines};

use crate::basis::Basis;
use bad_entry::{Change, Fate, Held, Reason, last_commit, last_with_fate, next_txn, txn_of};
use history_check::{Callers, Rule, Verdict};
use std::alloc::{AllocError, Global};
use std::fmt;
use txn_files::history_lines;
use txn_trace::{Entry, Holder, Phase, Reply, SmallEntry};

/// A value, printed as `none` if there is no value.
#[derive(Clone, Copy)]
pub(crate) struct OrNone(pub(crate) Reply);

impl fmt::Display for OrNone {
    ghost use Rattle.std.specs.Prelude.{Some};
    ghost use Rattle.judge_engine.specs.ReasonLines.{value_words};

    ghost output = { λ value. Some (value_words value.0) };

    fn fmt<W: fmt::Write>(&self, f: &mut fmt::Formatter<W>) -> fmt::Result {
        match self.0 {
            Some(value) => write!(f, "{value}"),
            None => f.write_str("none"),
        }
    }
}

/// A transaction and its caller, printed as the caller alone if there is no transaction.
#[derive(Clone, Copy)]
struct TxnOf(Option<u64>, u64);

impl fmt::Display for TxnOf {
    ghost use Rattle.std.specs.Prelude.{Some};
    ghost use Rattle.judge_engine.specs.ReasonLines.{transaction_words};

    ghost output = { λ txn. Some (transaction_words txn.0 txn.1) };

    fn fmt<W: fmt::Write>(&self, f: &mut fmt::Formatter<W>) -> fmt::Result {
        match self.0 {
            Some(txn) => write!(f, "transaction {txn} of caller {}", self.1),
            None => write!(f, "caller {}", self.1),
        }
    }
}

/// The fate of a change, printed as one word.
#[derive(Clone, Copy)]
struct FateWord(Fate);

impl fmt::Display for FateWord {
    ghost use Rattle.std.specs.Prelude.{Some};
    ghost use Rattle.judge_engine.specs.ReasonLines.{fate_words};

    ghost output = { λ fate. Some (fate_words fate.0) };

    fn fmt<W: fmt::Write>(&self, f: &mut fmt::Formatter<W>) -> fmt::Result {
        match self.0 {
            Fate::Open => f.write_str("open"),
            Fate::Committed => f.write_str("committed"),
            Fate::Undone => f.write_str("undone"),
        }
    }
}

/// The entries that a caller may add in a phase, with the numbers that they need.
#[derive(Clone, Copy)]
struct Allowed {
    caller: u64,
    phase: Phase,
    /// The caller's newest change that is not taken back.
    newest: Option<(u64, Reply)>,
    /// How many transactions began.
    began: u64,
    /// How many transactions committed.
    committed: u64,
}

impl fmt::Display for Allowed {
    ghost use Rattle.std.specs.Prelude.{Some};
    ghost use Rattle.judge_engine.specs.ReasonLines.{allowed_words};

    ghost output = { λ a. Some (allowed_words a.caller a.phase a.newest a.began a.committed) };

    fn fmt<W: fmt::Write>(&self, f: &mut fmt::Formatter<W>) -> fmt::Result {
        let caller = self.caller;
        match self.phase {
            Phase::Closed => {
                let number = u128::from(self.began) + 1;
                write!(f, "[\"began\",{caller},{number}]")
            }
            Phase::Opened => {
                let place = u128::from(self.committed) + 1;
                write!(
                    f,
                    "asked, busy, saved, leave or [\"committed\",{caller},{place}]"
                )
            }
            Phase::Waiting(_) => write!(f, "did or [\"leave\",{caller},null]"),
            Phase::LeavingTo(level) => write!(
                f,
                "undone for each change above level {level}, then [\"returned\",{caller},{level}]"
            ),
            Phase::LeavingToEnd => match self.newest {
                Some(_) => write!(f, "[\"undone\",{caller}]"),
                None => write!(f, "[\"aborted\",{caller}]"),
            },
        }
    }
}

/// Adds the line of an entry, with the entry's index in front.
pub(crate) fn put_entry(
    alloc: Global,
    text: &mut String,
    index: u64,
    entry: Entry,
) -> Result<(), AllocError>
    ensures { OnOk result (string_bytes text.new
        ≡ string_bytes text.old ++ entry_line index entry) }
{
    let line = history_lines(alloc, &[entry])?;
    write!(text, "  {index} {line}")
}

/// Adds the line of an entry if it is chosen.
pub(crate) fn put_if(
    alloc: Global,
    text: &mut String,
    is_chosen: bool,
    index: u64,
    entry: Entry,
) -> Result<(), AllocError>
    ensures { OnOk result (string_bytes text.new
        ≡ string_bytes text.old ++ line_if is_chosen index entry) }
{
    if is_chosen {
        put_entry(alloc, text, index, entry)
    } else {
        Ok(())
    }
}

/// Whether a caller in this phase waits for an operation on the key.
fn is_waiting_on(key: u64, phase: Phase) -> bool
    ensures { result ≡ is_waiting_on key phase }
{
    match phase {
        Phase::Waiting(op) => op.key() == key,
        _ => false,
    }
}

/// Whether a change is a change of the key.
fn is_of_key(key: u64, change: Option<(u64, Reply)>) -> bool
    ensures { result ≡ is_of_key key change }
{
    match change {
        Some((changed, _)) => changed == key,
        None => false,
    }
}

/// Whether an entry asks for an operation on a key, answers such a request, or takes back a change
/// of the key.
fn is_on(callers: &Callers, entry: Entry, key: u64) -> bool
    requires { caller_of entry < 64 }
    ensures { (h : List Entry) → HaveEntered h callers.now → result ≡ is_on key h entry }
{
    match entry {
        Entry::Asked(_, op) | Entry::Busy(_, op, _) => op.key() == key,
        Entry::Did(caller, _) => is_waiting_on(key, callers.phase(caller)),
        Entry::Undone(caller) => is_of_key(key, callers.newest_change(caller)),
        _ => false,
    }
}

/// Whether the entry with this index is on a key, and not before the entry at the index `first`.
fn is_on_since(callers: &Callers, entry: Entry, key: u64, first: u64, index: u64) -> bool
    requires { caller_of entry < 64 }
    ensures { (h : List Entry) → HaveEntered h callers.now → index ≡ length h →
        result ≡ (nat_le first (length h) && is_on key h entry) }
{
    first <= index && is_on(callers, entry, key)
}

/// Adds the entries on a key, beginning with the entry at the index `first`.
fn put_entries_on(
    alloc: Global,
    text: &mut String,
    entries: &[SmallEntry],
    key: u64,
    first: u64,
) -> Result<(), AllocError>
    requires shape { IsShaped entries.now }
    requires callers { All (λ entry. caller_of entry < 64) entries.now }
    ensures { OnOk result (string_bytes text.new
        ≡ string_bytes text.old ++ lines_on key first entries.now) }
{
    let mut callers = Callers::new(alloc)?;
    for (index, packed) in entries.iter().enumerate() {
        let entry = packed.entry();
        let is_chosen = is_on_since(&callers, entry, key, first, index as u64);
        put_if(alloc, text, is_chosen, index as u64, entry)?;
        callers.reserve(&entry)?;
        callers.enter(entry);
    }
    Ok(())
}

/// Adds the line that says since when the entries on a key follow.
fn put_since(text: &mut String, key: u64, commit: Option<(u64, u64)>) -> Result<(), AllocError>
    ensures { OnOk result (string_bytes text.new
        ≡ string_bytes text.old ++ since_line key commit) }
{
    match commit {
        Some((index, caller)) => writeln!(
            text,
            "entries on key {key} since entry {index}, where caller {caller} committed its value:",
        ),
        None => writeln!(
            text,
            "entries on key {key}, whose value no commit has changed:",
        ),
    }
}

/// The index of the commit, or 0.
fn first_since(commit: Option<(u64, u64)>) -> u64
    ensures { result ≡ first_since commit }
{
    match commit {
        Some((index, _)) => index,
        None => 0,
    }
}

/// Adds the entries on a key since the last commit that changed the key's value, or all entries on
/// the key if no commit has changed it.
fn put_since_commit(
    alloc: Global,
    text: &mut String,
    entries: &[SmallEntry],
    key: u64,
    commit: Option<(u64, u64)>,
) -> Result<(), AllocError>
    requires shape { IsShaped entries.now }
    requires callers { All (λ entry. caller_of entry < 64) entries.now }
    ensures { OnOk result (string_bytes text.new
        ≡ string_bytes text.old ++ since_lines key commit entries.now) }
{
    put_since(text, key, commit)?;
    put_entries_on(alloc, text, entries, key, first_since(commit))
}

/// Whether an entry is of a caller and in the transaction `txn`. The caller's transaction after the
/// entry is `now`.
fn is_of(caller: u64, txn: Option<u64>, now: Option<u64>, entry: Entry) -> bool
    ensures { result ≡ ((caller_of entry == caller) && option_eq nat_eq now txn) }
{
    entry.caller() == caller && now == txn
}

/// Adds the entries of a caller that are in the transaction `txn`.
fn put_entries_of(
    alloc: Global,
    text: &mut String,
    entries: &[SmallEntry],
    caller: u64,
    txn: Option<u64>,
) -> Result<(), AllocError>
    ensures { OnOk result (string_bytes text.new
        ≡ string_bytes text.old ++ lines_where (is_of caller txn) entries.now) }
{
    let mut now = None;
    for (index, packed) in entries.iter().enumerate() {
        let entry = packed.entry();
        now = next_txn(now, caller, entry);
        let is_chosen = is_of(caller, txn, now, entry);
        put_if(alloc, text, is_chosen, index as u64, entry)?;
    }
    Ok(())
}

/// Adds the entries of a caller's transaction.
pub(crate) fn put_transaction(
    alloc: Global,
    text: &mut String,
    entries: &[SmallEntry],
    caller: u64,
) -> Result<(), AllocError>
    ensures { OnOk result (string_bytes text.new
        ≡ string_bytes text.old ++ transaction_lines caller entries.now) }
{
    let txn = txn_of(entries, caller);
    writeln!(text, "entries of {}:", TxnOf(txn, caller))?;
    put_entries_of(alloc, text, entries, caller, txn)
}

/// Adds the line that says who changed a key last.
fn put_last(text: &mut String, key: u64, last: Option<(Change, Fate)>) -> Result<(), AllocError>
    ensures { OnOk result (string_bytes text.new ≡ string_bytes text.old ++ last_line key last) }
{
    match last {
        Some((change, fate)) => writeln!(
            text,
            "key {key} was last changed at entry {} by {}: {}",
            change.did,
            TxnOf(change.txn, change.caller),
            FateWord(fate),
        ),
        None => writeln!(text, "key {key} was never changed"),
    }
}

/// Adds the lines of a wrong reply to the caller `caller`.
fn put_reply(
    alloc: Global,
    text: &mut String,
    entries: &[SmallEntry],
    caller: u64,
    key: u64,
    due: Reply,
    last: Option<(Change, Fate)>,
) -> Result<(), AllocError>
    requires serial { IsSerializableByCommits entries.now }
    requires callers { All (λ entry. caller_of entry < 64) entries.now }
    ensures { OnOk result (string_bytes text.new
        ≡ string_bytes text.old ++ reply_lines entries.now caller key due last) }
{
    writeln!(text, "the reply that was due: {}", OrNone(due))?;
    put_last(text, key, last)?;
    let commit = last_commit(alloc, entries, key)?;
    put_since_commit(alloc, text, entries, key, commit)?;
    put_transaction(alloc, text, entries, caller)
}

/// Adds the lines of a value that the committing transaction of `caller` misread.
fn put_misread(
    alloc: Global,
    text: &mut String,
    entries: &[SmallEntry],
    caller: u64,
    key: u64,
    read: Reply,
    due: Reply,
    commit: Option<(u64, u64)>,
) -> Result<(), AllocError>
    requires serial { IsSerializableByCommits entries.now }
    requires callers { All (λ entry. caller_of entry < 64) entries.now }
    ensures { OnOk result (string_bytes text.new
        ≡ string_bytes text.old ++ misread_lines entries.now caller key read due commit) }
{
    let (read, due) = (OrNone(read), OrNone(due));
    writeln!(
        text,
        "the first reply at key {key} was {read}; the reply that was due: {due}"
    )?;
    let last = last_with_fate(alloc, entries, key)?;
    put_last(text, key, last)?;
    put_since_commit(alloc, text, entries, key, commit)?;
    put_transaction(alloc, text, entries, caller)
}

/// The entry at an index, if there is one.
fn entry_at(entries: &[SmallEntry], index: u64) -> Option<Entry>
    ensures { result ≡ slice_get entries.now index }
{
    let index = index as usize;
    if index < entries.len() {
        Some(entries[index].entry())
    } else {
        None
    }
}

/// Adds an entry as the first reply that contradicts those before it, if there is such an entry.
fn put_contradiction(
    alloc: Global,
    text: &mut String,
    index: u64,
    entry: Option<Entry>,
) -> Result<(), AllocError>
    ensures { OnOk result (string_bytes text.new
        ≡ string_bytes text.old ++ contradiction_lines index entry) }
{
    let Some(entry) = entry else {
        return Ok(());
    };
    writeln!(text, "the first reply that contradicts those before it:")?;
    put_entry(alloc, text, index, entry)
}

/// Adds the entry at the index `since` as the first reply that contradicts those before it, if
/// there is one.
fn put_since_torn(
    alloc: Global,
    text: &mut String,
    entries: &[SmallEntry],
    since: Option<u64>,
) -> Result<(), AllocError>
    ensures { OnOk result (string_bytes text.new
        ≡ string_bytes text.old ++ since_torn entries.now since) }
{
    match since {
        Some(index) => put_contradiction(alloc, text, index, entry_at(entries, index)),
        None => Ok(()),
    }
}

/// Adds the lines of a transaction of `caller` whose replies contradict one another.
fn put_torn(
    alloc: Global,
    text: &mut String,
    entries: &[SmallEntry],
    caller: u64,
    since: Option<u64>,
) -> Result<(), AllocError>
    ensures { OnOk result (string_bytes text.new
        ≡ string_bytes text.old ++ torn_lines entries.now caller since) }
{
    writeln!(text, "no map gives the transaction all of its replies")?;
    put_since_torn(alloc, text, entries, since)?;
    put_transaction(alloc, text, entries, caller)
}

/// Adds the line that says who holds a lock.
fn put_holder(text: &mut String, stripe: u64, holder: Option<Held>) -> Result<(), AllocError>
    ensures { OnOk result (string_bytes text.new
        ≡ string_bytes text.old ++ holder_line stripe holder) }
{
    match holder {
        Some(held) => writeln!(
            text,
            "lock {stripe} is held by {} since entry {}",
            TxnOf(held.txn, held.caller),
            OrNone(held.since),
        ),
        None => writeln!(text, "lock {stripe} is free"),
    }
}

/// Adds what is wrong with the caller `named` that a Busy of `caller` names.
fn put_misnamed(
    text: &mut String,
    holder: Holder,
    caller: u64,
    named: u64,
) -> Result<(), AllocError>
    ensures { OnOk result (string_bytes text.new
        ≡ string_bytes text.old ++ misnamed_line holder caller named) }
{
    if named == caller {
        return writeln!(text, "busy must name another caller");
    }
    match holder {
        Holder::Now => writeln!(text, "busy must name the holder, and not caller {named}"),
        Holder::Begun => writeln!(text, "caller {named} has begun no transaction"),
    }
}

/// If the bad entry is a Busy, adds what is wrong with the caller that it names. Adds nothing for
/// an entry of another kind.
fn put_named(text: &mut String, basis: Basis, bad: Entry) -> Result<(), AllocError>
    ensures { OnOk result (string_bytes text.new ≡ string_bytes text.old ++ named_line basis bad) }
{
    match (basis, bad) {
        (Basis::Locks { holder, .. }, Entry::Busy(caller, _, named)) => {
            put_misnamed(text, holder, caller, named)
        }
        _ => Ok(()),
    }
}

/// Adds the lines of a reason.
fn put_reason(
    alloc: Global,
    text: &mut String,
    basis: Basis,
    entries: &[SmallEntry],
    bad: Entry,
    reason: Reason,
) -> Result<(), AllocError>
    requires serial { IsSerializableByCommits entries.now }
    requires callers { All (λ entry. caller_of entry < 64) entries.now }
    ensures { OnOk result (string_bytes text.new
        ≡ string_bytes text.old ++ reason_lines basis entries.now bad reason) }
{
    let caller = bad.caller();
    match reason {
        Reason::Reply { op, due, last } => {
            put_reply(alloc, text, entries, caller, op.key(), due, last)
        }
        Reason::Misread {
            key,
            read,
            due,
            commit,
        } => put_misread(alloc, text, entries, caller, key, read, due, commit),
        Reason::Torn { since } => put_torn(alloc, text, entries, caller, since),
        Reason::Lock { stripe, holder } => {
            put_holder(text, stripe, holder)?;
            put_named(text, basis, bad)
        }
        Reason::Shape {
            phase,
            newest,
            began,
            committed,
        } => {
            let allowed = Allowed {
                caller,
                phase,
                newest,
                began,
                committed,
            };
            writeln!(text, "what may stand there: {allowed}")?;
            put_transaction(alloc, text, entries, caller)
        }
        Reason::Nothing => Ok(()),
    }
}

/// The reason why an entry breaks a rule after the history `entries`, by the rules of `basis`.
fn reason_by(
    alloc: Global,
    basis: Basis,
    entries: &[SmallEntry],
    bad: Entry,
    rule: Rule,
) -> Result<Reason, AllocError>
    requires stripes { HasStripes basis }
    requires caller { caller_of bad < 64 }
    requires callers { All (λ entry. caller_of entry < 64) entries.now }
    requires legal { IsLegalBy basis entries.now }
    ensures { IfOk result (IsReasonBy basis rule entries.now bad) }
{
    match basis {
        Basis::Locks { stripes, holder } => {
            bad_entry::by_locks(alloc, entries, &bad, rule, stripes, holder)
        }
        Basis::Commits => bad_entry::by_commits(alloc, entries, &bad, rule),
    }
}

/// The lines that explain why an entry breaks a rule after the history `entries`.
fn lines_of_bad(
    alloc: Global,
    basis: Basis,
    entries: &[SmallEntry],
    bad: Entry,
    rule: Rule,
) -> Result<String, AllocError>
    requires stripes { HasStripes basis }
    requires caller { caller_of bad < 64 }
    requires callers { All (λ entry. caller_of entry < 64) entries.now }
    requires legal { IsLegalBy basis entries.now }
    ensures { IfOk result (λ text. ExplainsEntry basis rule entries.now bad (string_bytes text)) }
{
    let reason = reason_by(alloc, basis, entries, bad, rule)?;
    let mut text = String::new(alloc);
    writeln!(text, "the entry:")?;
    put_entry(alloc, &mut text, entries.len() as u64, bad)?;
    put_reason(alloc, &mut text, basis, entries, bad, reason)?;
    Ok(text)
}

/// The entry at an index.
fn entry_within(entries: &[SmallEntry], index: usize) -> Entry
    requires { index < length entries.now }
    ensures { slice_get entries.now index ≡ Some result }
{
    entries[index].entry()
}

/// The lines that explain why the entry at this index breaks a rule.
fn lines_at(
    alloc: Global,
    basis: Basis,
    entries: &[SmallEntry],
    index: usize,
    rule: Rule,
) -> Result<String, AllocError>
    requires stripes { HasStripes basis }
    requires callers { All (λ entry. caller_of entry < 64) entries.now }
    requires within { index < length entries.now }
    requires legal { IsLegalBy basis (take index entries.now) }
    ensures { IfOk result (λ text. ExplainsAt basis entries.now index rule (string_bytes text)) }
{
    let bad = entry_within(entries, index);
    lines_of_bad(alloc, basis, &entries[..index], bad, rule)
}

/// The lines that explain a verdict on a history. There are no lines if the history is legal.
pub(crate) fn lines_of(
    alloc: Global,
    basis: Basis,
    entries: &[SmallEntry],
    verdict: Verdict,
) -> Result<String, AllocError>
    requires stripes { HasStripes basis }
    requires callers { All (λ entry. caller_of entry < 64) entries.now }
    requires verdict { IsVerdictBy basis entries.now verdict }
    ensures { IfOk result (λ text. Explains basis entries.now verdict (string_bytes text)) }
{
    match verdict {
        Verdict::Legal { .. } => Ok(String::new(alloc)),
        Verdict::Illegal { entry, rule } => lines_at(alloc, basis, entries, entry as usize, rule),
    }
}
