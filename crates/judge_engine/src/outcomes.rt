// PROMISES what-became-of-each-script: tell_outcomes
//! The outcomes of a script file's scripts in a history file. This module is apart from the judges,
//! since it checks no rule of histories: the history need not be legal. All lines are made before
//! the first is written, so memory is taken for both files and for the text.
ghost use Rattle.std.specs.Prelude.{◌≡◌, ◌↔◌, ◌++◌, ◌<◌, true, Ok, IfOk, IfErr, OnOk, length, string_bytes};
ghost use Rattle.txn_files.specs.HistoryFile.{history_of};
ghost use Rattle.txn_files.specs.ScriptFile.{scripts_of};
ghost use Rattle.judge_engine.specs.Files.{OfFile};
ghost use Rattle.judge_engine.specs.Outcomes.{FailsForHistory, FailsForScripts, HistoryOf, IsWell, LeavesOutcomes, WritesOutcomes, has_abort, how_many, is_kind, outcome_lines, of_history, of_scripts, outcome_line, outcomes_message, outcomes_status, outcomes_text};

use script_worker::{Outcome, outcomes};
use std::alloc::{AllocError, Global};
use std::fmt;
use std::io::{Read, Write};
use txn_files::{FileFault, Unread, read_bytes, read_packed_history, read_scripts, write_text};
use txn_trace::{Action, PackedAction, Script, Scripts, SmallEntry};

/// Why there are no outcomes, and which file is at fault. A fault is printed as one line, without a
/// line feed.
#[derive(Clone, Copy, Debug, PartialEq, Eq)]
pub enum OutcomesFault {
    /// The script file was refused.
    Scripts(FileFault),
    /// The history file was refused.
    History(FileFault),
    /// The script file could not be opened, or a read of it failed.
    ScriptsRead,
    /// The history file could not be opened, or a read of it failed.
    HistoryRead,
    /// Memory was refused.
    NoMemory,
    /// A write failed, or took none of the bytes.
    Write,
}

impl fmt::Display for OutcomesFault {
    ghost use Rattle.std.specs.Prelude.{Some};

    ghost output = { λ fault. Some (outcomes_message fault) };

    fn fmt<W: fmt::Write>(&self, f: &mut fmt::Formatter<W>) -> fmt::Result {
        match *self {
            OutcomesFault::Scripts(fault) => write!(f, "scripts refused {fault}"),
            OutcomesFault::History(fault) => write!(f, "history refused {fault}"),
            OutcomesFault::ScriptsRead => f.write_str("scripts read failed"),
            OutcomesFault::HistoryRead => f.write_str("history read failed"),
            OutcomesFault::NoMemory => f.write_str("no memory"),
            OutcomesFault::Write => f.write_str("write failed"),
        }
    }
}

impl std::error::Error for OutcomesFault {}

impl OutcomesFault {
    /// The exit status of the program: 3 if a file is refused, 4 for every other fault.
    ///
    /// # Cost
    ///
    /// Constant time; takes no memory.
    pub fn status(self) -> u8
        ensures { result ≡ outcomes_status self }
    {
        match self {
            OutcomesFault::Scripts(_) | OutcomesFault::History(_) => 3,
            OutcomesFault::ScriptsRead
            | OutcomesFault::HistoryRead
            | OutcomesFault::NoMemory
            | OutcomesFault::Write => 4,
        }
    }
}

/// A kind of outcome. Outcomes are counted by kind.
#[derive(Clone, Copy, Debug, PartialEq, Eq)]
enum Kind {
    Committed,
    Aborted,
    GivenUp,
}

/// Whether an outcome is of a kind. Constant time.
fn is_kind(kind: Kind, outcome: Outcome) -> bool
    ensures { result ≡ is_kind kind outcome }
{
    match outcome {
        Outcome::Committed { .. } => kind == Kind::Committed,
        Outcome::Aborted { .. } => kind == Kind::Aborted,
        Outcome::GivenUp => kind == Kind::GivenUp,
    }
}

/// How many outcomes are of a kind.
#[tactic(auto, using(crate::proofs::Telling::count_more))]
fn how_many(kind: Kind, outcomes: &[Outcome]) -> usize
    ensures { result ≡ how_many kind outcomes.now }
{
    let mut number = 0;
    for outcome in outcomes {
        if is_kind(kind, *outcome) {
            number += 1;
        }
    }
    number
}

/// Whether a script has an abort.
fn has_abort(script: &[PackedAction]) -> bool
    ensures { result ≡ has_abort script.now }
{
    for action in script {
        if matches!(action.action(), Action::Abort) {
            return true;
        }
    }
    false
}

/// Whether each script that is given up has an abort.
fn is_well(scripts: &[Script], outcomes: &[Outcome]) -> bool
    requires { length outcomes.now ≡ length scripts.now }
    ensures { (result ≡ true) ↔ IsWell scripts.now outcomes.now }
{
    for number in 0..scripts.len() {
        let is_lost = matches!(outcomes[number], Outcome::GivenUp);
        if is_lost && !has_abort(scripts[number].actions()) {
            return false;
        }
    }
    true
}

/// Adds the line of a script's outcome.
fn put_line(
    text: &mut String,
    workers: usize,
    number: usize,
    outcome: Outcome,
) -> Result<(), AllocError>
    requires { 0 < workers }
    ensures { OnOk result (string_bytes text.new
        ≡ string_bytes text.old ++ outcome_line workers number outcome) }
{
    let worker = number % workers;
    writeln!(text, "script {number} worker {worker} {outcome}")
}

/// Adds the lines of all outcomes.
fn put_lines(text: &mut String, workers: usize, outcomes: &[Outcome]) -> Result<(), AllocError>
    requires { 0 < workers }
    ensures { OnOk result (string_bytes text.new
        ≡ string_bytes text.old ++ outcome_lines workers 0 outcomes.now) }
{
    for (number, outcome) in outcomes.iter().enumerate() {
        put_line(text, workers, number, *outcome)?;
    }
    Ok(())
}

/// The whole text: the lines of all outcomes, and the line of the counts.
fn text_of(alloc: Global, workers: usize, outcomes: &[Outcome]) -> Result<String, AllocError>
    requires { 0 < workers }
    ensures { IfOk result (λ text. string_bytes text ≡ outcomes_text workers outcomes.now) }
{
    let mut text = String::new(alloc);
    put_lines(&mut text, workers, outcomes)?;
    let committed = how_many(Kind::Committed, outcomes);
    let aborted = how_many(Kind::Aborted, outcomes);
    let given_up = how_many(Kind::GivenUp, outcomes);
    writeln!(
        text,
        "{committed} committed {aborted} aborted {given_up} given up"
    )?;
    Ok(text)
}

/// `NoMemory` if memory was refused, else the fault of the script file. Constant time.
fn of_scripts(fault: FileFault) -> OutcomesFault
    ensures { result ≡ of_scripts fault }
{
    match fault {
        FileFault::NoMemory => OutcomesFault::NoMemory,
        FileFault::NotJson | FileFault::Member | FileFault::Piece(..) | FileFault::Limit => {
            OutcomesFault::Scripts(fault)
        }
    }
}

/// `NoMemory` if memory was refused, else the fault of the history file. Constant time.
fn of_history(fault: FileFault) -> OutcomesFault
    ensures { result ≡ of_history fault }
{
    match fault {
        FileFault::NoMemory => OutcomesFault::NoMemory,
        FileFault::NotJson | FileFault::Member | FileFault::Piece(..) | FileFault::Limit => {
            OutcomesFault::History(fault)
        }
    }
}

/// Reads a script file from a reader, and returns its scripts.
fn scripts_in<R: Read + Drop>(alloc: Global, mut input: R) -> Result<Scripts, OutcomesFault>
    ensures ok { IfOk result (λ work. OfFile (R.remaining input)
        (λ bytes. scripts_of bytes ≡ Ok work)) }
    ensures err { IfErr result (FailsForScripts (R.remaining input)) }
{
    let bytes = match read_bytes(alloc, &mut input) {
        Ok(bytes) => bytes,
        Err(Unread::NoMemory) => return Err(OutcomesFault::NoMemory),
        Err(Unread::Failed) => return Err(OutcomesFault::ScriptsRead),
    };
    match read_scripts(alloc, &bytes) {
        Ok(work) => Ok(work),
        Err(fault) => Err(of_scripts(fault)),
    }
}

/// Reads a history file from a reader, and returns its entries.
fn entries_in<R: Read + Drop>(alloc: Global, mut input: R) -> Result<Vec<SmallEntry>, OutcomesFault>
    ensures ok { IfOk result (λ entries. OfFile (R.remaining input)
        (HistoryOf entries.items)) }
    ensures err { IfErr result (FailsForHistory (R.remaining input)) }
{
    let bytes = match read_bytes(alloc, &mut input) {
        Ok(bytes) => bytes,
        Err(Unread::NoMemory) => return Err(OutcomesFault::NoMemory),
        Err(Unread::Failed) => return Err(OutcomesFault::HistoryRead),
    };
    match read_packed_history(alloc, &bytes) {
        Ok((_, entries, _)) => Ok(entries),
        Err(fault) => Err(of_history(fault)),
    }
}

/// Reads a script file and a history file to their ends. Writes a line for each script, which says
/// what became of the script in the history, such as `script 0 worker 0 committed 3 entry 17`,
/// `script 1 worker 1 aborted entry 20` or `script 2 worker 0 given up`. Then writes a line with
/// the counts, such as `1 committed 1 aborted 1 given up`, and nothing else. Returns whether each
/// script that is given up has an abort.
///
/// The function does not test whether the history is legal. The script file is read first. At most
/// 16,777,217 bytes of each file are read. No call of a reader or the writer is repeated after it
/// failed.
///
/// # Errors
///
/// If the error is not `Write`, nothing was written.
///
/// - `ScriptsRead` if a read of the script file fails; `Scripts` if that file is refused.
/// - `HistoryRead` if a read of the history file fails; `History` if that file is refused.
/// - `NoMemory` if memory is refused.
/// - `Write` if a write fails or takes nothing. Then the beginning of the lines may be written, but
///   not all of them.
///
/// # Cost
///
/// Time and memory in proportion to the size of the two files.
pub fn tell_outcomes<S: Read + Drop, H: Read + Drop, W: Write>(
    alloc: Global,
    scripts: S,
    history: H,
    output: &mut W,
) -> Result<bool, OutcomesFault>
    ensures tells { IfOk result (WritesOutcomes (S.remaining scripts) (H.remaining history)
        (W.contents output.old) (W.contents output.new)) }
    ensures fault { IfErr result (LeavesOutcomes (S.remaining scripts) (H.remaining history)
        (W.contents output.old) (W.contents output.new)) }
{
    let work = scripts_in(alloc, scripts)?;
    let entries = entries_in(alloc, history)?;
    let Ok(found) = outcomes(alloc, &work, &entries) else {
        return Err(OutcomesFault::NoMemory);
    };
    let workers = work.limits().callers() as usize;
    let Ok(text) = text_of(alloc, workers, &found) else {
        return Err(OutcomesFault::NoMemory);
    };
    let well = is_well(work.scripts(), &found);
    match write_text(output, text.as_bytes()) {
        Ok(()) => Ok(well),
        Err(_) => Err(OutcomesFault::Write),
    }
}
