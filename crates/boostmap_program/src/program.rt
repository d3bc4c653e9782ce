// PROMISES from-words-and-bytes-to-bytes: run
//! A whole run of the program, with the engine of `run` in threads. The other engines, and what
//! happens before and after an engine, are in `unthreaded_program`. The system and both outputs are
//! type parameters, so that contracts and tests cover the whole run.
ghost use Rattle.std.specs.Prelude.{◌≡◌};
ghost use Rattle.boostmap_program.specs.Threaded.{RunsThreads};
ghost use Rattle.unthreaded_program.specs.Runs.{RunsCommand, HasExited, Runs, TellsError};

use crate::threaded;
use boostmap_engine::Fault;
use command_line::Command;
use program_system::{Ending, System};
use std::alloc::Global;
use std::io::{Read, Write};
use std::sync::Wait;
use std::thread::Threads;
use unthreaded_program::{end, open};

/// Runs the engine of a command on its open file. Returns false only if `check` finds that the
/// history of the file is illegal.
fn run_command<T: Threads + Wait + Sync, R: Read, W: Write>(
    rt: &T,
    alloc: Global,
    command: Command,
    input: &mut R,
    output: &mut W,
) -> Result<bool, Fault>
    ensures { RunsCommand RunsThreads command (R.remaining input.old) (W.contents output.old)
        (W.contents output.new) result }
{
    match command {
        Command::Run => {
            threaded::run(rt, alloc, input, output)?;
            Ok(true)
        }
        other => unthreaded_program::run_command(alloc, other, input, output),
    }
}

/// Reads the words, opens the file that it names, and runs the engine that they ask for.
fn run_words<T: Threads + Wait + Sync, S: System, W: Write>(
    rt: &T,
    alloc: Global,
    system: &S,
    output: &mut W,
) -> Result<bool, Fault>
    ensures { Runs RunsThreads (S.spoken system.now) (S.bytes system.now) (W.contents output.old)
        (W.contents output.new) result }
{
    let mut opened = open(alloc, system)?;
    run_command(rt, alloc, opened.command, &mut opened.input, output)
}

/// Does all that the program does: reads the command line, opens the file that it names, and
/// runs the engine of the command on this file. The engine writes to `output`. The line of a fault
/// is written to `errors`. If this write fails, nothing else changes. Only the command `run` starts
/// threads, with `rt`.
///
/// # Cost
///
/// The cost of the engine, and time and memory in proportion to the words.
pub fn run<T: Threads + Wait + Sync, S: System, W: Write, E: Write>(
    rt: &T,
    alloc: Global,
    system: &S,
    output: &mut W,
    errors: &mut E,
) -> Ending
    ensures { HasExited (Runs RunsThreads (S.spoken system.now) (S.bytes system.now)
        (W.contents output.old) (W.contents output.new))
        (TellsError (E.contents errors.old) (E.contents errors.new)) result }
{
    let outcome = run_words(rt, alloc, system, output);
    end(&outcome, errors)
}
