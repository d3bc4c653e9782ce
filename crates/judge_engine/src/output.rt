//! Writing is the last step of each command. A text is made as a whole before its first byte is
//! written, so the output is unchanged if memory is refused.
ghost use Rattle.std.specs.Prelude.{◌≡◌, ◌++◌, IfErr, IfOk, OnOk, string_bytes};
ghost use Rattle.std.specs.Io.KnownBytes.{Appends};
ghost use Rattle.history_check.specs.Verdicts.{says_legal, verdict_line};
ghost use Rattle.judge_engine.specs.Files.{IsUnjudgedFile};
ghost use Rattle.judge_engine.specs.Outputs.{FailsToWrite};
ghost use Rattle.judge_engine.specs.Whys.{FailsToTell, IsFlawLine, IsRefused, Tells, WritesFlaw};

use crate::answer::Answer;
use crate::fault::Fault;
use bad_file::flaw_in;
use history_check::Verdict;
use std::alloc::{AllocError, Global};
use std::io::Write;
use txn_files::write_text;

/// The line of a verdict, and the lines after it.
fn text_of(alloc: Global, verdict: Verdict, lines: &str) -> Result<String, AllocError>
    ensures { IfOk result (λ text. string_bytes text ≡ verdict_line verdict ++ lines.now) }
{
    let mut text = verdict.line(alloc)?;
    text.push_str(lines)?;
    Ok(text)
}

/// Writes the line of a verdict. Returns whether the verdict says that the history is legal.
///
/// # Errors
///
/// `NoMemory` if memory is refused: nothing is written. `Write` if the writer fails or takes
/// nothing: a proper prefix of the line is written.
///
/// # Cost
///
/// As many calls of the writer as it takes to write the line, and memory for the line.
pub(crate) fn write_verdict<W: Write>(
    alloc: Global,
    verdict: Verdict,
    output: &mut W,
) -> Result<bool, Fault>
    ensures ok { IfOk result (λ legal. (legal ≡ says_legal verdict)
        × Appends (W.contents output.old) (W.contents output.new) (verdict_line verdict)) }
    ensures err { IfErr result (FailsToWrite (W.contents output.old) (W.contents output.new)
        (verdict_line verdict)) }
{
    let line = verdict.line(alloc)?;
    write_text(output, line.as_bytes())?;
    Ok(verdict.is_legal())
}

/// Writes the line of a verdict and the lines after it. Returns whether the verdict says that the
/// history is legal.
///
/// # Errors
///
/// `NoMemory` if memory is refused: nothing is written. `Write` if the writer fails or takes
/// nothing: a proper prefix of the lines is written.
///
/// # Cost
///
/// As many calls of the writer as it takes to write the lines, and memory for the lines.
pub(crate) fn write_explained<W: Write>(
    alloc: Global,
    verdict: Verdict,
    lines: &str,
    output: &mut W,
) -> Result<bool, Fault>
    ensures ok { IfOk result (λ legal. (legal ≡ says_legal verdict)
        × Appends (W.contents output.old) (W.contents output.new)
        (verdict_line verdict ++ lines.now)) }
    ensures err { IfErr result (FailsToWrite (W.contents output.old) (W.contents output.new)
        (verdict_line verdict ++ lines.now)) }
{
    let text = text_of(alloc, verdict, lines)?;
    write_text(output, text.as_bytes())?;
    Ok(verdict.is_legal())
}

/// Writes the text of an answer, and returns the answer.
///
/// # Errors
///
/// `Write` if the writer fails or takes nothing: a proper prefix of the text is written.
///
/// # Cost
///
/// As many calls of the writer as it takes to write the text. Takes no memory.
pub(crate) fn write_answer<W: Write>(
    answer: Answer,
    text: &str,
    output: &mut W,
) -> Result<Answer, Fault>
    ensures ok { IfOk result (λ written. (written ≡ answer)
        × Appends (W.contents output.old) (W.contents output.new) text.now) }
    ensures err { IfErr result (FailsToWrite (W.contents output.old) (W.contents output.new)
        text.now) }
{
    write_text(output, text.as_bytes())?;
    Ok(answer)
}

/// The line of the flaw of a file that is refused.
fn flaw_line(alloc: Global, bytes: &[u8]) -> Result<String, AllocError>
    requires { IsRefused bytes.now }
    ensures { IfOk result (λ line. IsFlawLine bytes.now (string_bytes line)) }
{
    let mut line = String::new(alloc);
    match flaw_in(alloc, bytes)? {
        Some(flaw) => {
            writeln!(line, "{flaw}")?;
            Ok(line)
        }
        None => Ok(line),
    }
}

/// Writes the line of the flaw of a file that is refused.
fn write_flaw<W: Write>(alloc: Global, bytes: &[u8], output: &mut W) -> Result<(), Fault>
    requires { IsRefused bytes.now }
    ensures ok { OnOk result (WritesFlaw bytes.now (W.contents output.old)
        (W.contents output.new)) }
    ensures err { IfErr result (FailsToTell bytes.now (W.contents output.old)
        (W.contents output.new)) }
{
    let line = flaw_line(alloc, bytes)?;
    write_text(output, line.as_bytes())?;
    Ok(())
}

/// If the fault is that a history file is refused, writes the flaw of the file with these bytes, in
/// one line. Returns `fault`. If memory is refused, returns `NoMemory` instead. If the writer fails
/// or takes nothing, returns `Write` instead.
pub(crate) fn tell<W: Write>(alloc: Global, fault: Fault, bytes: &[u8], output: &mut W) -> Fault
    requires { IsUnjudgedFile bytes.now fault }
    ensures { Tells bytes.now (W.contents output.old) (W.contents output.new) result }
{
    match fault {
        Fault::Input(_) => match write_flaw(alloc, bytes, output) {
            Ok(()) => fault,
            Err(failure) => failure,
        },
        _ => fault,
    }
}
