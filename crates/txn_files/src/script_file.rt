// PROMISES from-words-and-bytes-to-bytes: read_scripts
//! Script files. This module says which shapes and ranges actions and scripts have; `piece_files`
//! has the loops over tokens. All actions of a script are kept, packed, before the module tests how
//! many there are.
ghost use Rattle.std.specs.Prelude.{◌≡◌, ◌<◌, ◌^◌, List, Result, map, true, false};
ghost use Rattle.std.specs.List.{list_all};
ghost use Rattle.std.specs.Result.{result_ok};
ghost use Rattle.piece_files.specs.declared.file_fault.FileFault.{FileFault};
ghost use Rattle.piece_files.specs.declared.part.Part.TheVariants as parts;
ghost use Rattle.piece_files.specs.Plain.{data_of};
ghost use Rattle.piece_files.specs.Tokens.{FindsBoth};
ghost use Rattle.txn_words.specs.declared.action.Action.{Action};
ghost use Rattle.piece_files.specs.Faults.{Gives};
ghost use Rattle.txn_files.specs.Actions.{action_of, is_old_action, is_old_script, script_of};
ghost use Rattle.txn_files.specs.ScriptFile.{max_scripts, is_short, are_scripts, work_from, scripts_of};

use crate::operation::{is_old_op, op_in};
use crate::step_file::limits_in;
use json::Reader;
use piece_files::{
    FileFault, Flat, FlatKind, Part, PieceKind, Pieces, Plain, Stop, end_in, one_in, pieces_at,
    pieces_in, read_file, word_in,
};
use std::alloc::{AllocError, Global};
use txn_words::{Action, PackedAction, Script, Scripts};

/// The largest number of times that a script may be tried again.
const MAX_TRIES: u64 = 1000;

/// The most scripts that a file may have.
const MAX_SCRIPTS: usize = 10_000;

/// The most actions that a script may have.
const MAX_ACTIONS: usize = 10_000;

#[inline(always)]
#[tactic(auto, unfolding(crate::specs::Actions::action_of))]
fn action_in(values: &[Plain<'_>]) -> Option<Action>
    ensures { result ≡ action_of (map data_of values.now) }
{
    let (name, rest) = word_in(values)?;
    if name == "save" {
        end_in(rest)?;
        Some(Action::Save)
    } else if name == "back" {
        Some(Action::Back(one_in(rest)?))
    } else if name == "help" {
        Some(Action::Help(one_in(rest)?))
    } else if name == "abort" {
        end_in(rest)?;
        Some(Action::Abort)
    } else {
        Some(Action::Op(op_in(values)?))
    }
}

/// Whether version 1 has this action too.
fn is_old_action(action: &PackedAction) -> bool
    ensures { result ≡ is_old_action action.now }
{
    match action.action() {
        Action::Op(op) => is_old_op(op),
        _ => true,
    }
}

/// The kind of pieces that are actions of a script. All actions are kept, packed.
struct ActionKind;

impl FlatKind for ActionKind {
    ghost use Rattle.piece_files.specs.declared.part.Part.TheVariants as parts;

    type Piece = PackedAction;

    ghost of = { action_of };

    ghost is_old = { is_old_action };

    ghost part = { parts.Script };

    ghost most = { 18446744073709551615 };

    fn part() -> Part {
        Part::Script
    }

    fn is_old(action: &PackedAction) -> bool {
        is_old_action(action)
    }

    fn most() -> usize {
        usize::MAX
    }

    #[inline(always)]
    fn of(elements: &[Plain<'_>]) -> Option<PackedAction> {
        Some(PackedAction::new(action_in(elements)?))
    }

    #[tactic(auto, using(crate::proofs::PlainPieces::no_action))]
    fn others_make_none() {}
}

/// The script that an array holds. `found` has the actions at the start of the array. If an element
/// of the array is not an action, the function returns `None`.
fn script_in(found: Pieces<PackedAction>) -> Option<Script>
    requires { found.count < 2 ^ 64 }
    ensures { (old all : Result (List Action) FileFault)
        → FindsBoth parts.Script 18446744073709551615 found old all → result ≡ result_ok all }
{
    if !found.are_all {
        return None;
    }
    let mut actions = found.pieces;
    actions.shrink_to_fit();
    Some(Script::new(actions))
}

/// The kind of pieces that are scripts of a script file.
struct ScriptKind;

impl PieceKind for ScriptKind {
    ghost use Rattle.piece_files.specs.declared.part.Part.TheVariants as parts;

    type Piece = Script;

    ghost of = { script_of };

    ghost is_old = { is_old_script };

    ghost part = { parts.Script };

    ghost most = { max_scripts };

    ghost takes_memory = { true };

    fn part() -> Part {
        Part::Script
    }

    fn is_old(script: &Script) -> bool {
        script.actions().iter().all(|action| is_old_action(action))
    }

    fn most() -> usize {
        MAX_SCRIPTS
    }

    #[tactic(auto, unfolding(crate::specs::Actions::script_of))]
    fn read(alloc: Global, reader: &mut Reader<'_>, depth: usize) -> Result<Option<Script>, Stop> {
        let found = pieces_in::<Flat<ActionKind>>(alloc, reader, depth)?;
        Ok(script_in(found))
    }

    #[tactic(auto, unfolding(crate::specs::Actions::script_of))]
    fn read_plain(
        alloc: Global,
        text: &str,
        at: &mut usize,
        depth: usize,
    ) -> Result<Option<Script>, AllocError> {
        let Some(found) = pieces_at::<Flat<ActionKind>>(alloc, text, at, depth)? else {
            return Ok(None);
        };
        Ok(script_in(found))
    }
}

/// Returns true if no script has more actions than a script may have.
fn are_short(scripts: &[Script]) -> bool
    ensures { result ≡ list_all is_short scripts.now }
{
    scripts
        .iter()
        .all(|script| script.actions().len() <= MAX_ACTIONS)
}

/// Returns true if the number of tries and the lengths of the scripts are in range.
fn are_scripts(tries: u64, scripts: &[Script]) -> bool
    ensures { result ≡ are_scripts tries scripts.now }
{
    tries <= MAX_TRIES && are_short(scripts)
}

/// Makes the work of a script file from the file's version, numbers and scripts.
#[tactic(auto, unfolding(crate::specs::ScriptFile::work_from))]
fn work_in(version: u64, numbers: [u64; 4], scripts: Vec<Script>) -> Result<Scripts, FileFault>
    ensures { Gives (λ work. work) result (work_from version numbers scripts.items) }
{
    let [workers, stripes, buckets, tries] = numbers;
    let limits = limits_in(version, workers, stripes, buckets)?;
    if are_scripts(tries, &scripts) {
        Ok(Scripts::new(version, limits, tries, scripts))
    } else {
        Err(FileFault::Limit)
    }
}

/// Reads a script file, and returns its scripts, together with the file's version, its limits and
/// its number of tries. The file has the form
/// `{"version":V,"workers":W,"stripes":S,"buckets":B,"tries":T,"scripts":[[..],..]}`. Each script
/// is an array of actions. Each action is an array, such as `["put",1,10]` or `["save"]`. Version 1
/// has no `put_if`, and its limits allow only half keys, which are the keys below 2^63.
///
/// Other members of the object are skipped. If several members have the same name, the last one
/// counts. A number is written without a sign, a fraction or an exponent, and is below 2^64.
///
/// # Errors
///
/// The first of these that applies, in this order:
///
/// - `Limit` if there are more than 16,777,216 bytes.
/// - `NotJson` if `piece_files::read_file` does not accept the bytes as JSON.
/// - `Member` if the value is not an object, or if one of the six members is missing or of the
///   wrong kind. The members are tested in the order above.
/// - `Piece`, with the index of the first wrong piece. A piece is wrong if it is not a script. In
///   version 1 it is also wrong if it has a `put_if`.
/// - `Limit` if the version is not 1 or 2, or if `Limits::new` refuses the numbers (the workers are
///   the callers). Also if there are more than 1,000 tries, more than 10,000 scripts, or more than
///   10,000 actions in one script.
///
/// If memory is refused, the function may return `NoMemory` in place of any of these.
///
/// # Cost
///
/// Time and memory in proportion to the bytes.
pub fn read_scripts(alloc: Global, bytes: &[u8]) -> Result<Scripts, FileFault>
    ensures { Gives (λ work. work) result (scripts_of bytes.now) }
{
    let names = ["workers", "stripes", "buckets", "tries"];
    let (version, numbers, scripts) = read_file::<ScriptKind, 4>(alloc, bytes, &names, "scripts")?;
    work_in(version, numbers, scripts)
}

/// Reads a script file, and drops its bytes, so their memory is free before the caller uses the
/// scripts.
///
/// # Errors
///
/// The errors of `read_scripts`, in the same order.
///
/// # Cost
///
/// The cost of `read_scripts`.
pub fn into_scripts(alloc: Global, bytes: Vec<u8>) -> Result<Scripts, FileFault>
    ensures { Gives (λ work. work) result (scripts_of bytes.items) }
{
    read_scripts(alloc, &bytes)
}
