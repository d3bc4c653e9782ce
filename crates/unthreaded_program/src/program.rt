// PROMISES from-words-and-bytes-to-bytes: `run` without threads
//! A command on an open file (`run_command`), and the whole program without threads (`run`), from
//! the words of a command line to the exit status. The system and both outputs are type parameters,
//! so that contracts and tests reach the whole program. `boostmap_program` calls `run_command` for
//! every command except `run`.
ghost use Rattle.std.specs.Prelude.{◌≡◌};
ghost use Rattle.unthreaded_program.specs.Runs.{RunsCommand, HasExited, Runs, StartsNone, TellsError};

use crate::ending::end;
use crate::opening::open;
use boostmap_engine::{Fault, check, mix, replay};
use command_line::Command;
use program_system::{Ending, System};
use std::alloc::Global;
use std::io::{Read, Write};

/// Runs the engine of a command on its open file. Returns `false` if the command judges a history
/// and the history is illegal, otherwise `true`.
///
/// # Errors
///
/// The errors of the engine. The command `run` is refused with `NoThread`: nothing is read or
/// written.
///
/// # Cost
///
/// The cost of the engine.
pub fn run_command<R: Read, W: Write>(
    alloc: Global,
    command: Command,
    input: &mut R,
    output: &mut W,
) -> Result<bool, Fault>
    ensures { RunsCommand StartsNone command (R.remaining input.old) (W.contents output.old)
        (W.contents output.new) result }
{
    match command {
        Command::Replay => {
            replay(alloc, input, output)?;
            Ok(true)
        }
        Command::Run => Err(Fault::NoThread),
        Command::Mix { seed } => {
            mix(alloc, seed, input, output)?;
            Ok(true)
        }
        Command::Check => check(alloc, input, output),
    }
}

/// Reads the words, opens the file that they name, and runs the engine that they ask for.
fn run_words<S: System, W: Write>(alloc: Global, system: &S, output: &mut W) -> Result<bool, Fault>
    ensures { Runs StartsNone (S.spoken system.now) (S.bytes system.now) (W.contents output.old)
        (W.contents output.new) result }
{
    let mut opened = open(alloc, system)?;
    run_command(alloc, opened.command, &mut opened.input, output)
}

/// Does all that the program without threads does: reads its words, opens the file that they
/// name, and runs the engine of the command on this file. The engine writes to `output`; the
/// line of a fault is written to `errors`. The command `run` ends with `NoThread`.
///
/// # Cost
///
/// The cost of the engine, and time and memory in proportion to the length of the words.
pub fn run<S: System, W: Write, E: Write>(
    alloc: Global,
    system: &S,
    output: &mut W,
    errors: &mut E,
) -> Ending
    ensures { HasExited (Runs StartsNone (S.spoken system.now) (S.bytes system.now)
        (W.contents output.old) (W.contents output.new))
        (TellsError (E.contents errors.old) (E.contents errors.new)) result }
{
    let outcome = run_words(alloc, system, output);
    end(&outcome, errors)
}
