//! Runs the files of the folder `examples`, each by the engine of its command: `replay`, `mix` or
//! `check`. The command `run` is left out: what it prints may depend on its threads, but `.ci/run`
//! compares this program's output with a fixed text.
use anyhow::anyhow;
use boostmap_engine::{Fault, check, mix, replay};
use std::alloc::Global;
use std::io::{Read, Write};
use std::rt::Runtime;
use std::{fmt, fs, io};

/// The commands, with the file that each runs.
const CALLS: [(Command, &str); 7] = [
    (Command::Replay, "first_commit.json"),
    (Command::Replay, "many_callers.json"),
    (Command::Replay, "doubling.json"),
    (Command::Replay, "keys_of_64_bits.json"),
    (Command::Mix(7), "first_scripts.json"),
    (Command::Mix(7), "scripts.json"),
    (Command::Check, "checked.json"),
];

/// A command of the program `boostmap`. Only `mix` has a seed. A command is printed as the words
/// that a user types.
#[derive(Clone, Copy, Debug)]
enum Command {
    /// Runs the steps of a file.
    Replay,
    /// Runs the scripts of a file, with the workers' turns mixed as this seed says.
    Mix(u64),
    /// Judges the history of a file.
    Check,
}

impl fmt::Display for Command {
    fn fmt<W: fmt::Write>(&self, f: &mut fmt::Formatter<W>) -> fmt::Result {
        match *self {
            Command::Replay => write!(f, "replay"),
            Command::Mix(seed) => write!(f, "mix --seed {seed}"),
            Command::Check => write!(f, "check"),
        }
    }
}

/// Runs a command on the text of a file.
fn run_on<I: Read, O: Write>(
    alloc: Global,
    command: Command,
    input: &mut I,
    output: &mut O,
) -> Result<(), Fault> {
    match command {
        Command::Replay => replay(alloc, input, output),
        Command::Mix(seed) => mix(alloc, seed, input, output),
        Command::Check => {
            check(alloc, input, output)?;
            Ok(())
        }
    }
}

/// Runs a command on a file.
fn run<R: Runtime + AllocGlobal>(rt: &R, command: Command, file: &str) -> Result<(), Fault> {
    match fs::open(rt, file) {
        Ok(mut input) => run_on(rt.alloc(), command, &mut input, &mut io::writer(rt)),
        Err(_) => Err(Fault::Read),
    }
}

/// Prints for each file the words of the call, and then the engine's output.
pub(crate) fn show<R: Runtime + AllocGlobal>(rt: &R) -> anyhow::Result<()> {
    for (command, file) in CALLS {
        println!(rt; "{command} {file}")?;
        run(rt, command, file).map_err(|fault| anyhow!("{fault}"))?;
    }
    Ok(())
}
