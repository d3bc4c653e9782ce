//! Tests of the engines of the four commands. This file has the parts that the tests share:
//! `run_on` runs a command as the program does, and `Files` stands for similar files with the same
//! output. The one test in this file goes through the rows of `replays`, `checks`, `mixes` and
//! `runs`.

mod checks;
mod failing;
mod long;
mod mixes;
mod refused;
mod replays;
mod runs;

use crate::devices::{Ended, Narrow, compare_ended, filled};
use boostmap_engine::{Fault, check, mix, replay};
use boostmap_program::threaded::run;
use std::alloc::Global;
use std::io::{Read, Write};
use std::process::Abort;
use std::sync::Wait;
use std::test::Fail;
use std::thread::Threads;

/// A command of the program.
#[derive(Clone, Copy)]
enum Command {
    Replay,
    Check,
    /// The command `mix` with this seed.
    Mix(u64),
    Run,
}

/// Similar files for one command: a frame, pieces, fillings, and the output and the status that the
/// command must have for each of them. There is one file for each line of the pieces and each word
/// of the fillings. Blanks separate the words. The file is made from the frame in two steps: first
/// the line replaces each gap `#`, then the word replaces each gap `@`. If the status is that of a
/// fault, the fault's line stands for the output.
type Files = (&'static str, &'static str, &'static str, (&'static str, u8));

/// Runs the engine of a command. Without a fault, returns `false` if `check` finds the history
/// illegal, and `true` otherwise.
fn run_engine<T: Threads + Wait + Sync, R: Read>(
    rt: &T,
    alloc: Global,
    command: Command,
    input: &mut R,
    output: &mut Narrow,
) -> Result<bool, Fault> {
    match command {
        Command::Replay => replay(alloc, input, output)?,
        Command::Check => return check(alloc, input, output),
        Command::Mix(seed) => mix(alloc, seed, input, output)?,
        Command::Run => run(rt, alloc, input, output)?,
    }
    Ok(true)
}

/// Runs a command on an input and an output, as the program does.
fn run_on<T: Threads + Wait + Sync, R: Read>(
    rt: &T,
    alloc: Global,
    command: Command,
    input: &mut R,
    writer: Narrow,
) -> Ended {
    let mut output = writer;
    let mut errors = Narrow::whole();
    let result = run_engine(rt, alloc, command, input, &mut output);
    let (status, is_told) = match &result {
        Ok(is_well) => (u8::from(!*is_well), true),
        Err(fault) => (fault.status(), errors.writeln(fault.message()).is_ok()),
    };
    Ended {
        output,
        errors,
        status,
        is_told,
    }
}

/// Runs a command on a file, and compares the output and the status with `wanted`. If the command
/// ends with a fault, standard error must have the fault's line, and nothing may be written to
/// standard output.
fn compare_file<T: Abort + Threads + Wait + Sync>(
    rt: &T,
    alloc: Global,
    command: Command,
    text: &str,
    wanted: (&str, u8),
) {
    let (printed, status) = wanted;
    let ended = run_on(rt, alloc, command, &mut text.as_bytes(), Narrow::whole());
    if status < 2 {
        compare_ended(rt, &ended, (printed, "", status), text);
    } else {
        compare_ended(rt, &ended, ("", printed, status), text);
        assert!(rt; ended.output.calls == 0, "{text}");
    }
}

/// Does `compare_file` for each of these files.
fn compare_files<T: Abort + Threads + Wait + Sync>(
    rt: &T,
    alloc: Global,
    command: Command,
    files: Files,
) -> Result<(), Fail> {
    let (frame, pieces, fillings, wanted) = files;
    for piece in pieces.split('\n') {
        for filling in fillings.split(' ') {
            let text = filled(alloc, frame, piece, filling)?;
            compare_file(rt, alloc, command, &text, wanted);
        }
    }
    Ok(())
}

#[test]
fn prints_of_files(rt: HostRuntime) -> Result<(), Fail> {
    let tables = [
        (Command::Replay, replays::FILES),
        (Command::Check, checks::FILES),
        (Command::Mix(7), mixes::FILES),
        (Command::Run, runs::FILES),
    ];
    for (command, table) in tables {
        for files in table {
            compare_files(&rt, rt.alloc(), command, *files)?;
        }
    }
    Ok(())
}
