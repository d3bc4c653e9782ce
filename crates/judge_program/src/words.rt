// PROMISES entries-as-lines: request_in
//! Reads the command line of `judge`, by the rules of `clap`, and finds the request that the words
//! make. Numbers are tested here, so an engine can run every request that is found
//! (`HasStripesIf`): `watch` has 1 to 4,096 locks. Each command is made and added separately, which
//! keeps the proof of `command` short.
ghost use Rattle.std.specs.Prelude.{◌≡◌, ◌⊎◌, false, Some, None, IfOk, IfErr, IfSome, codes, map, option_map};
ghost use Rattle.std.specs.String.{string_bytes};
ghost use Rattle.clap.specs.Words.{first_of, found_of, rows_of, rule_of};
ghost use Rattle.judge_engine.specs.declared.fault.Fault.TheVariants as faults;
ghost use Rattle.judge_engine.specs.Bases.{HasStripes};
ghost use Rattle.judge_program.specs.declared.failure.Failure.TheVariants as failures;
ghost use Rattle.program_system.specs.Words.{IsApp, file_word};
ghost use Rattle.judge_program.specs.Words.{Spells, IsRequestOf, HasStripesIf, asked_in, asked_of, basis_for};
ghost use Rattle.judge_program.specs.Words.{branches_for, checking, command_line, explaining, flag_word, flagged};
ghost use Rattle.judge_program.specs.Words.{is_set, number_word, outcomes_for, order_for, over_both, ruled};
ghost use Rattle.judge_program.specs.Words.{stripes_in_word, watching};

use crate::failure::Failure;
use clap::error::ErrorKind;
use clap::{Arg, ArgAction, ArgMatches, Command};
use judge_engine::{Basis, Fault};
use std::alloc::{AllocError, Global};
use txn_words::Holder;

/// The order of transactions by which a history file is judged.
#[derive(Clone, Copy, Debug, PartialEq, Eq)]
pub enum Order {
    /// The order that the history gives.
    Given {
        /// True for the order of commits, false for locks.
        by_commits: bool,
    },
    /// Any order.
    Any {
        /// True if real time counts.
        real_time: bool,
        /// The number of branches that the search for an order may take.
        most_branches: u64,
    },
}

/// A request of the program: the work that its words ask for.
#[derive(Clone, Copy, Debug, PartialEq, Eq)]
pub enum Request<'a> {
    /// Judge a history file.
    Check {
        /// The order to judge by.
        order: Order,
        /// True to show the order, if one was looked for.
        shows_order: bool,
        /// The file's name.
        file: &'a str,
    },
    /// Show the usage.
    Help,
    /// Say what became of each script of a script file in a history file.
    Outcomes {
        /// The script file's name.
        scripts: &'a str,
        /// The history file's name.
        history: &'a str,
    },
    /// Show the version.
    Version,
    /// Judge the entries on standard input.
    Watch {
        /// The rules to judge by.
        basis: Basis,
    },
    /// Judge a history file, and say what leads to its bad entry, or to the reason why it is not
    /// serializable.
    Why {
        /// The order to judge by.
        order: Order,
        /// True for the graph of a cycle, false for lines.
        as_graph: bool,
        /// The file's name.
        file: &'a str,
    },
}

/// The file name that stands for standard input.
pub(crate) const STANDARD: &str = "-";

/// The greatest number of locks, which is also the default.
const MAX_STRIPES: u64 = 4096;

/// The number of branches that a search may take by default.
const MOST_BRANCHES: u64 = 10_000;

/// A flag with this name.
fn flag<'a>(alloc: Global, name: &'a str) -> Arg<'a>
    ensures rule { rule_of result ≡ flag_word name.entry.now }
    ensures local { result.global ≡ false }
{
    Arg::new(alloc, name).long(name).action(ArgAction::SetTrue)
}

/// An option for a number, which may be left out.
fn number_option<'a>(alloc: Global, name: &'a str) -> Arg<'a>
    ensures rule { rule_of result ≡ number_word name.entry.now }
    ensures local { result.global ≡ false }
{
    Arg::new(alloc, name).long(name).action(ArgAction::Set)
}

/// The argument for the name of a file, which may not be left out.
fn file_name<'a>(alloc: Global, name: &'a str) -> Arg<'a>
    ensures rule { rule_of result ≡ file_word name.entry.now }
    ensures local { result.global ≡ false }
{
    Arg::new(alloc, name).required(true).action(ArgAction::Set)
}

/// Makes a command with this name that has the flag to judge by the order of commits.
fn flagged_command<'a>(alloc: Global, name: &'a str) -> Result<Command<'a>, AllocError>
    ensures { IfOk result (λ command. IsApp command (flagged name.entry.now)) }
{
    Command::new(alloc, name).arg(flag(alloc, "commit-order"))
}

/// Makes a command with this name that has the flags to judge by the order of commits, by any
/// order, and with real time, and the option for the number of branches.
fn ruled_command<'a>(alloc: Global, name: &'a str) -> Result<Command<'a>, AllocError>
    ensures { IfOk result (λ command. IsApp command (ruled name.entry.now)) }
{
    let command = flagged_command(alloc, name)?.arg(flag(alloc, "serializable"))?;
    let command = command.arg(flag(alloc, "real-time"))?;
    command.arg(number_option(alloc, "most-branches"))
}

/// The command `check`.
fn check_command<'a>(alloc: Global) -> Result<Command<'a>, AllocError>
    ensures { IfOk result (λ command. IsApp command checking) }
{
    let command = ruled_command(alloc, "check")?.arg(flag(alloc, "show-order"))?;
    command.arg(file_name(alloc, "FILE"))
}

/// The command `why`.
fn why_command<'a>(alloc: Global) -> Result<Command<'a>, AllocError>
    ensures { IfOk result (λ command. IsApp command explaining) }
{
    let command = ruled_command(alloc, "why")?.arg(flag(alloc, "dot"))?;
    command.arg(file_name(alloc, "FILE"))
}

/// The command `outcomes`.
fn outcomes_command<'a>(alloc: Global) -> Result<Command<'a>, AllocError>
    ensures { IfOk result (λ command. IsApp command over_both) }
{
    let command = Command::new(alloc, "outcomes").arg(file_name(alloc, "SCRIPTS"))?;
    command.arg(file_name(alloc, "HISTORY"))
}

/// The command `watch`.
fn watch_command<'a>(alloc: Global) -> Result<Command<'a>, AllocError>
    ensures { IfOk result (λ command. IsApp command watching) }
{
    flagged_command(alloc, "watch")?.arg(number_option(alloc, "stripes"))
}

/// The command line of the program. Each command is added as soon as it is made, so that little
/// must be freed if memory is refused.
fn command<'a>(alloc: Global) -> Result<Command<'a>, AllocError>
    ensures { IfOk result (λ command. IsApp command command_line) }
{
    Command::new(alloc, "judge")
        .version("1.0.0")
        .subcommand_required(true)
        .subcommand(check_command(alloc)?)?
        .subcommand(outcomes_command(alloc)?)?
        .subcommand(watch_command(alloc)?)?
        .subcommand(why_command(alloc)?)
}

/// Returns true if the words have the flag with this name.
fn has_flag(found: &ArgMatches<'_>, name: &str) -> bool
    ensures { result ≡ is_set (first_of name.now (rows_of (found_of found.now))) }
{
    match found.get_str(name) {
        Some(word) => word == "true",
        None => false,
    }
}

/// Returns the number of locks that a word asks for, if the number is from 1 to 4,096.
fn stripes_in(word: &str) -> Option<u64>
    ensures { result ≡ stripes_in_word word.now }
{
    let stripes = word.parse::<u64>().ok()?;
    if 1 <= stripes && stripes <= MAX_STRIPES {
        Some(stripes)
    } else {
        None
    }
}

/// Returns the number of branches, given its word if there is one. Returns `None` if the word is no
/// number.
fn branches_in(word: Option<&str>) -> Option<u64>
    ensures { result ≡ branches_for (option_map (λ text. text.now) word.entry) }
{
    match word {
        Some(word) => word.parse::<u64>().ok(),
        None => Some(MOST_BRANCHES),
    }
}

/// Returns the rules to judge by, given the flag and the word for the number of locks. Returns
/// `None` if both are given, or if the word is no number from 1 to 4,096.
fn basis_in(by_commits: bool, word: Option<&str>) -> Option<Basis>
    ensures basis { result ≡ basis_for by_commits (option_map (λ text. text.now) word.entry) }
    ensures stripes { IfSome result HasStripes }
{
    let holder = Holder::Begun;
    match (by_commits, word) {
        (true, None) => Some(Basis::Commits),
        (true, Some(_)) => None,
        (false, None) => Some(Basis::Locks {
            stripes: MAX_STRIPES,
            holder,
        }),
        (false, Some(word)) => {
            let stripes = stripes_in(word)?;
            Some(Basis::Locks { stripes, holder })
        }
    }
}

/// Returns the order to judge a file by, given the flags and the word for the number of branches.
/// `extra` is the flag to show the order or the graph. Returns `None` if two rules are asked for, if
/// real time is to count, branches are counted or there is an extra, and no order is looked for, or
/// if the word is no number.
fn order_of(
    by_commits: bool,
    is_serializable: bool,
    real_time: bool,
    extra: bool,
    branches: Option<&str>,
) -> Option<Order>
    ensures { result ≡ order_for by_commits is_serializable real_time extra
        (option_map (λ text. text.now) branches.entry) }
{
    match (by_commits, is_serializable, real_time, extra) {
        (_, false, false, false) if branches.is_none() => Some(Order::Given { by_commits }),
        (false, true, _, _) => Some(Order::Any {
            real_time,
            most_branches: branches_in(branches)?,
        }),
        (true, true, _, _) | (_, false, _, _) => None,
    }
}

/// Returns the request for the outcomes of these files, or `None` if both are standard input.
fn outcomes_of<'a>(scripts: &'a str, history: &'a str) -> Option<Request<'a>>
    ensures request { option_map asked_of result ≡ outcomes_for scripts.entry.now history.entry.now }
    ensures stripes { IfSome result (λ request. HasStripesIf (asked_of request)) }
{
    if scripts == STANDARD && history == STANDARD {
        None
    } else {
        Some(Request::Outcomes { scripts, history })
    }
}

/// The request of the command with this name, given the arguments that were found.
fn request_named<'a>(name: &str, found: &ArgMatches<'a>) -> Option<Request<'a>>
    ensures request { option_map asked_of result ≡ asked_in name.now (rows_of (found_of found.now)) }
    ensures stripes { IfSome result (λ request. HasStripesIf (asked_of request)) }
{
    let by_commits = has_flag(found, "commit-order");
    let is_serializable = has_flag(found, "serializable");
    let real_time = has_flag(found, "real-time");
    let branches = found.get_str("most-branches");
    let shows_order = has_flag(found, "show-order");
    let as_graph = has_flag(found, "dot");
    match name {
        "check" => {
            let file = found.get_str("FILE")?;
            let order = order_of(
                by_commits,
                is_serializable,
                real_time,
                shows_order,
                branches,
            )?;
            Some(Request::Check {
                order,
                shows_order,
                file,
            })
        }
        "outcomes" => {
            let scripts = found.get_str("SCRIPTS")?;
            let history = found.get_str("HISTORY")?;
            outcomes_of(scripts, history)
        }
        "watch" => {
            let basis = basis_in(by_commits, found.get_str("stripes"))?;
            Some(Request::Watch { basis })
        }
        "why" => {
            let file = found.get_str("FILE")?;
            let order = order_of(by_commits, is_serializable, real_time, as_graph, branches)?;
            Some(Request::Why {
                order,
                as_graph,
                file,
            })
        }
        _ => None,
    }
}

/// Returns the request that words make, given the error that `clap` returns for these words. For
/// `clap`, words that ask for help or for the version are errors; here they are requests. Other
/// errors are failures here too.
fn request_for<'a>(kind: ErrorKind) -> Result<Request<'a>, Failure>
    ensures request { IfOk result (λ request. IsRequestOf kind (Some (asked_of request))) }
    ensures stripes { IfOk result (λ request. HasStripesIf (asked_of request)) }
    ensures err { IfErr result (λ failure. (failure ≡ failures.Fault faults.NoMemory)
        ⊎ ((failure ≡ failures.Usage) × IsRequestOf kind None)) }
{
    match kind {
        ErrorKind::OutOfMemory => Err(Failure::Fault(Fault::NoMemory)),
        ErrorKind::DisplayHelp => Ok(Request::Help),
        ErrorKind::DisplayVersion => Ok(Request::Version),
        _ => Err(Failure::Usage),
    }
}

/// Returns the request that the words make, by the rules of `clap`. The first word is the program's
/// name.
///
/// # Errors
///
/// - `NoMemory` if memory is refused.
/// - Otherwise `Usage`, exactly if the words make no request.
///
/// # Cost
///
/// Time and memory in proportion to the length of the words.
pub fn request_in<'a>(alloc: Global, words: &'a [String]) -> Result<Request<'a>, Failure>
    ensures request { IfOk result (λ request.
        Spells (map string_bytes words.entry.now) (Some (asked_of request))) }
    ensures stripes { IfOk result (λ request. HasStripesIf (asked_of request)) }
    ensures err { IfErr result (λ failure. (failure ≡ failures.Fault faults.NoMemory)
        ⊎ ((failure ≡ failures.Usage) × Spells (map string_bytes words.entry.now) None)) }
{
    let command = command(alloc)?;
    let matches = match command.try_get_matches_from(words) {
        Ok(matches) => matches,
        Err(error) => return request_for(error.kind()),
    };
    let Some((name, found)) = matches.subcommand() else {
        return Err(Failure::Usage);
    };
    request_named(name, found).ok_or(Failure::Usage)
}
