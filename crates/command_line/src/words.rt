// PROMISES from-words-and-bytes-to-bytes: request_in
//! Reads the command line by the rules of `clap`: finds the command and the file that the words
//! name. No file is opened here; a request borrows the name of its file from the words. Each
//! command is made and added separately, which keeps the proof of `all_commands` cheap.
ghost use Rattle.std.specs.Prelude.{◌≡◌, ◌⊎◌, Some, None, false, IfOk, IfErr, codes, map, option_map};
ghost use Rattle.std.specs.String.{string_bytes};
ghost use Rattle.clap.specs.Words.{found_of, rows_of, rule_of};
ghost use Rattle.program_system.specs.Words.{IsApp, file_word};
ghost use Rattle.command_line.specs.Words.{asked, asked_in, asked_of, seed_of};
ghost use Rattle.command_line.specs.Words.{command_line, over_file, seed_word, seeded};
ghost use Rattle.command_line.specs.declared.no_request.NoRequest.TheVariants as reasons;

use crate::no_request::NoRequest;
use clap::error::ErrorKind;
use clap::{Arg, ArgAction, ArgMatches};
use std::alloc::{AllocError, Global};

/// A command of the program.
#[derive(Clone, Copy, Debug, PartialEq, Eq)]
pub enum Command {
    /// Runs the steps of a file.
    Replay,
    /// Runs the scripts of a file, each worker in its own thread.
    Run,
    /// Runs the scripts of a file in one thread. The workers take turns in an order that a seed
    /// decides.
    Mix {
        /// The seed of the generator that draws the turns.
        seed: u64,
    },
    /// Judges the history of a file.
    Check,
}

/// A request of the program: a command, and the file that it runs on.
#[derive(Clone, Copy, Debug, PartialEq, Eq)]
pub struct Request<'a> {
    /// The command.
    pub command: Command,
    /// The name of the file that the command runs on.
    pub file: &'a str,
}

/// The argument for the name of a file. It is required.
fn file_name<'a>(alloc: Global) -> Arg<'a>
    ensures rule { rule_of result ≡ file_word (codes "FILE") }
    ensures local { result.global ≡ false }
{
    Arg::new(alloc, "FILE")
        .required(true)
        .action(ArgAction::Set)
}

/// The option for a seed. It is required.
fn seed_option<'a>(alloc: Global) -> Arg<'a>
    ensures rule { rule_of result ≡ seed_word }
    ensures local { result.global ≡ false }
{
    Arg::new(alloc, "seed")
        .long("seed")
        .required(true)
        .action(ArgAction::Set)
}

/// The command with this name, which takes one file.
fn command_on_file<'a>(alloc: Global, name: &'a str) -> Result<clap::Command<'a>, AllocError>
    ensures { IfOk result (λ command. IsApp command (over_file name.entry.now)) }
{
    clap::Command::new(alloc, name).arg(file_name(alloc))
}

/// The command `mix`, which also takes a seed.
fn mix_command<'a>(alloc: Global) -> Result<clap::Command<'a>, AllocError>
    ensures { IfOk result (λ command. IsApp command seeded) }
{
    command_on_file(alloc, "mix")?.arg(seed_option(alloc))
}

/// The command line of the program. Each command is added as soon as it is made, so that little has
/// to be freed if memory is refused.
fn all_commands<'a>(alloc: Global) -> Result<clap::Command<'a>, AllocError>
    ensures { IfOk result (λ command. IsApp command command_line) }
{
    clap::Command::new(alloc, "boostmap")
        .subcommand_required(true)
        .subcommand(command_on_file(alloc, "replay")?)?
        .subcommand(command_on_file(alloc, "run")?)?
        .subcommand(mix_command(alloc)?)?
        .subcommand(command_on_file(alloc, "check")?)
}

/// The number that a word spells in one or more decimal digits, if the number is below 2^64.
fn seed_in(word: &str) -> Option<u64>
    ensures { result ≡ seed_of word.now }
{
    match word.as_bytes().first().copied() {
        Some(b'+') => None,
        _ => word.parse::<u64>().ok(),
    }
}

/// The request of the command with this name. `found` has the values of its arguments.
fn request_named<'a>(name: &str, found: &ArgMatches<'a>) -> Option<Request<'a>>
    ensures { option_map asked_of result ≡ asked_in name.now (rows_of (found_of found.now)) }
{
    let file = found.get_str("FILE")?;
    match name {
        "replay" => Some(Request {
            command: Command::Replay,
            file,
        }),
        "run" => Some(Request {
            command: Command::Run,
            file,
        }),
        "mix" => {
            let seed = seed_in(found.get_str("seed")?)?;
            Some(Request {
                command: Command::Mix { seed },
                file,
            })
        }
        "check" => Some(Request {
            command: Command::Check,
            file,
        }),
        _ => None,
    }
}

/// Reads the words of a command line by the rules of `clap`, and returns the request that they
/// make. The first word is the program's name.
///
/// # Errors
///
/// - `NoMemory` if memory is refused.
/// - Otherwise `Usage`, exactly if the words make no request. A request for help is none.
///
/// # Cost
///
/// Time and memory in proportion to the words.
pub fn request_in<'a>(alloc: Global, words: &'a [String]) -> Result<Request<'a>, NoRequest>
    ensures request { IfOk result (λ request.
        asked (map string_bytes words.entry.now) ≡ Some (asked_of request)) }
    ensures err { IfErr result (λ reason. (reason ≡ reasons.NoMemory)
        ⊎ ((reason ≡ reasons.Usage) × (asked (map string_bytes words.entry.now) ≡ None))) }
{
    let command = all_commands(alloc)?;
    let matches = match command.try_get_matches_from(words) {
        Ok(matches) => matches,
        Err(error) => {
            return Err(match error.kind() {
                ErrorKind::OutOfMemory => NoRequest::NoMemory,
                _ => NoRequest::Usage,
            });
        }
    };
    let Some((name, found)) = matches.subcommand() else {
        return Err(NoRequest::Usage);
    };
    request_named(name, found).ok_or(NoRequest::Usage)
}
