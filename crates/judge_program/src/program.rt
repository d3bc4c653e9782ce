// PROMISES entries-as-lines: run
//! All of `judge`: words, files, the engine, the line of a failure, the exit status. The
//! engines take readers, so the files that a request names are opened here. The system and both
//! outputs are type parameters, so that tests can run it on words and files in memory.
ghost use Rattle.std.specs.Prelude.{◌≡◌, ◌⊎◌, Result, Some, IfOk, IfErr, IfSome};
ghost use Rattle.std.specs.IoError.{error_kind};
ghost use Rattle.judge_engine.specs.declared.answer.Answer.{Answer};
ghost use Rattle.judge_engine.specs.declared.fault.Fault.TheVariants as faults;
ghost use Rattle.judge_engine.specs.Bases.{HasStripes};
ghost use Rattle.judge_program.specs.declared.failure.Failure.{Failure};
ghost use Rattle.judge_program.specs.declared.failure.Failure.TheVariants as failures;
ghost use Rattle.judge_program.specs.Runs.{Fulfils, EndsWith, Runs, Prints, TellsError, memory_or, status_after};
ghost use Rattle.judge_program.specs.Words as asked;
ghost use Rattle.judge_program.specs.Words.{HasStripesIf, asked_of};

use crate::failure::{Failure, USAGE};
use crate::words::{Order, Request, STANDARD, request_in};
use judge_engine::{
    Answer, Basis, Fault, OutcomesFault, check, check_serializable, tell_outcomes, watch, why,
    why_serializable,
};
use program_system::{Ending, System};
use std::alloc::Global;
use std::io;
use std::io::{Read, Write};

/// The text that is printed if the words ask for the version.
const VERSION: &str = "judge 1.0.0";

/// Writes a line. Returns `Yes` (all is well) if the write succeeds.
fn show<W: Write>(output: &mut W, text: &str) -> Result<Answer, Failure>
    ensures { EndsWith (Prints text.now (W.contents output.old) (W.contents output.new))
        (λ fault. fault ≡ faults.Write) result }
{
    match output.writeln(text) {
        Ok(()) => Ok(Answer::Yes),
        Err(_) => Err(Failure::Fault(Fault::Write)),
    }
}

/// `NoMemory` if the error is that memory was refused, else the other failure.
fn memory_or(error: &io::Error, other: Failure) -> Failure
    ensures { result ≡ memory_or (error_kind error.now) other }
{
    match error.kind() {
        io::ErrorKind::OutOfMemory => Failure::Fault(Fault::NoMemory),
        _ => other,
    }
}

/// Opens the source with this name. On an error, returns `NoMemory` if memory was refused, else the
/// given failure.
fn open<S: System>(system: &S, name: &str, failure: Failure) -> Result<S::Input, Failure>
    ensures ok { IfOk result (λ source. IfSome (S.bytes system.now name.now)
        (λ known. S.Input.remaining source ≡ Some known)) }
    ensures err { IfErr result (λ found.
        (found ≡ failures.Fault faults.NoMemory) ⊎ (found ≡ failure)) }
{
    match system.open(name) {
        Ok(source) => Ok(source),
        Err(error) => Err(memory_or(&error, failure)),
    }
}

/// Judges the history file with this name by an order.
fn check_file<S: System, W: Write>(
    alloc: Global,
    system: &S,
    order: Order,
    shows_order: bool,
    name: &str,
    output: &mut W,
) -> Result<Answer, Failure>
    ensures { Fulfils (asked.Check order shows_order name.now) (S.bytes system.now)
        (W.contents output.old) (W.contents output.new) result }
{
    let source = open(system, name, Failure::Fault(Fault::Read))?;
    match order {
        Order::Given { by_commits } => Ok(Answer::from(check(alloc, by_commits, source, output)?)),
        Order::Any {
            real_time,
            most_branches,
        } => Ok(check_serializable(alloc, real_time, most_branches, shows_order, source, output)?),
    }
}

/// Judges the history file with this name by an order, and writes what leads to its bad entry or to
/// the reason.
fn explain_file<S: System, W: Write>(
    alloc: Global,
    system: &S,
    order: Order,
    as_graph: bool,
    name: &str,
    output: &mut W,
) -> Result<Answer, Failure>
    ensures { Fulfils (asked.Why order as_graph name.now) (S.bytes system.now)
        (W.contents output.old) (W.contents output.new) result }
{
    let source = open(system, name, Failure::Fault(Fault::Read))?;
    match order {
        Order::Given { by_commits } => Ok(Answer::from(why(alloc, by_commits, source, output)?)),
        Order::Any {
            real_time,
            most_branches,
        } => Ok(why_serializable(alloc, real_time, most_branches, as_graph, source, output)?),
    }
}

/// Judges the entries on standard input.
fn watch_standard<S: System, W: Write>(
    alloc: Global,
    system: &S,
    basis: Basis,
    output: &mut W,
) -> Result<Answer, Failure>
    requires { HasStripes basis }
    ensures { Fulfils (asked.Watch basis) (S.bytes system.now)
        (W.contents output.old) (W.contents output.new) result }
{
    let mut source = open(system, STANDARD, Failure::Fault(Fault::Read))?;
    Ok(Answer::from(watch(alloc, basis, &mut source, output)?))
}

/// Writes what became of the scripts of one file in the history of another file.
fn outcomes_in<S: System, W: Write>(
    alloc: Global,
    system: &S,
    scripts: &str,
    history: &str,
    output: &mut W,
) -> Result<Answer, Failure>
    ensures { Fulfils (asked.Outcomes scripts.now history.now) (S.bytes system.now)
        (W.contents output.old) (W.contents output.new) result }
{
    let no_scripts = Failure::Outcomes(OutcomesFault::ScriptsRead);
    let no_history = Failure::Outcomes(OutcomesFault::HistoryRead);
    let scripts = open(system, scripts, no_scripts)?;
    let history = open(system, history, no_history)?;
    Ok(Answer::from(tell_outcomes(alloc, scripts, history, output)?))
}

/// Does a request, and returns the answer.
fn answer<S: System, W: Write>(
    alloc: Global,
    system: &S,
    request: Request<'_>,
    output: &mut W,
) -> Result<Answer, Failure>
    requires { HasStripesIf (asked_of request) }
    ensures { Fulfils (asked_of request.entry) (S.bytes system.now)
        (W.contents output.old) (W.contents output.new) result }
{
    match request {
        Request::Help => show(output, USAGE),
        Request::Version => show(output, VERSION),
        Request::Check {
            order,
            shows_order,
            file,
        } => check_file(alloc, system, order, shows_order, file, output),
        Request::Outcomes { scripts, history } => {
            outcomes_in(alloc, system, scripts, history, output)
        }
        Request::Watch { basis } => watch_standard(alloc, system, basis, output),
        Request::Why {
            order,
            as_graph,
            file,
        } => explain_file(alloc, system, order, as_graph, file, output),
    }
}

/// Reads the words, and does what they ask for.
fn run_words<S: System, W: Write>(
    alloc: Global,
    system: &S,
    output: &mut W,
) -> Result<Answer, Failure>
    ensures { Runs (S.spoken system.now) (S.bytes system.now)
        (W.contents output.old) (W.contents output.new) result }
{
    let words = match system.words(alloc) {
        Ok(words) => words,
        Err(error) => return Err(memory_or(&error, Failure::Usage)),
    };
    let request = request_in(alloc, &words)?;
    answer(alloc, system, request, output)
}

/// The exit status after a run with this outcome. It is that of the answer: 0 if all is well; 1 if
/// a history is illegal or not serializable, or a script that has no `abort` was given up; 5 if it
/// is undecided whether a history is serializable. After a failure it is the failure's status.
fn status_of(outcome: &Result<Answer, Failure>) -> u8
    ensures { result ≡ status_after outcome.now }
{
    match outcome {
        Ok(answer) => answer.status(),
        Err(failure) => failure.status(),
    }
}

/// Does all that the program does: reads its words, and does what they ask for. The result is
/// written to `output`. After a failure, its line is written to `errors`; for words that ask for no
/// request, this is the usage. If this write fails, `is_told` is `false`, and the exit status stays
/// the same.
///
/// # Cost
///
/// The cost of the engine, plus time and memory in proportion to the length of the words.
pub fn run<S: System, W: Write, E: Write>(
    alloc: Global,
    system: &S,
    output: &mut W,
    errors: &mut E,
) -> Ending
    ensures { (outcome : Result Answer Failure)
        × Runs (S.spoken system.now) (S.bytes system.now)
        (W.contents output.old) (W.contents output.new) outcome
        × (result.status ≡ status_after outcome)
        × TellsError (E.contents errors.old) (E.contents errors.new) result.is_told outcome }
{
    let outcome = run_words(alloc, system, output);
    let is_told = match &outcome {
        Ok(_) => true,
        Err(failure) => errors.writeln(failure).is_ok(),
    };
    Ending {
        status: status_of(&outcome),
        is_told,
    }
}
