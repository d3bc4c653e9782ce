// PROMISES from-words-and-bytes-to-bytes: read_steps
//! Step files. This module says which shapes and ranges the thirteen kinds of steps have, and has
//! the limits that script files share; `piece_files` has the loops over tokens. Steps are kept
//! packed, which takes five sevenths of the memory that unpacked steps take. Only `read_steps`
//! returns them unpacked.
ghost use Rattle.std.specs.Prelude.{◌≡◌, IfOk, map, true, false};
ghost use Rattle.piece_files.specs.Plain.{data_of};
ghost use Rattle.piece_files.specs.Faults.{Gives};
ghost use Rattle.txn_files.specs.Steps.{ask_of, is_old_step, numbered_of, step_of};
ghost use Rattle.txn_files.specs.StepFile.{max_steps, sizes_at, steps_from, file_of};

use crate::operation::{is_old_op, op_in};
use piece_files::{
    FileFault, Flat, FlatKind, Part, Plain, number_in, one_in, read_file, two_in, word_in,
};
use std::alloc::{AllocError, Global};
use txn_words::{Limits, PackedStep, Step};

/// The most steps that a file may have.
const MAX_STEPS: usize = 1_000_000;

#[tactic(auto, unfolding(crate::specs::Steps::ask_of))]
fn ask_in(values: &[Plain<'_>]) -> Option<Step>
    ensures { result ≡ ask_of (map data_of values.now) }
{
    let (caller, rest) = number_in(values)?;
    let op = op_in(rest)?;
    Some(Step::Ask(caller, op))
}

#[tactic(auto, unfolding(crate::specs::Steps::numbered_of))]
fn numbered_step(name: &str, number: u64) -> Option<Step>
    ensures { result ≡ numbered_of name.now number }
{
    if name == "begin" {
        Some(Step::Begin(number))
    } else if name == "seek" {
        Some(Step::Seek(number))
    } else if name == "act" {
        Some(Step::Act(number))
    } else if name == "save" {
        Some(Step::Save(number))
    } else if name == "commit" {
        Some(Step::Commit(number))
    } else if name == "abort" {
        Some(Step::Abort(number))
    } else if name == "init_link" {
        Some(Step::InitLink(number))
    } else if name == "init_store" {
        Some(Step::InitStore(number))
    } else if name == "double" {
        Some(Step::Double(number))
    } else {
        None
    }
}

#[tactic(auto, unfolding(crate::specs::Steps::step_of))]
fn step_in(values: &[Plain<'_>]) -> Option<Step>
    ensures { result ≡ step_of (map data_of values.now) }
{
    let (name, rest) = word_in(values)?;
    if name == "ask" {
        ask_in(rest)
    } else if name == "back" {
        let (caller, level) = two_in(rest)?;
        Some(Step::Back(caller, level))
    } else if name == "init_seek" {
        let (helper, bucket) = two_in(rest)?;
        Some(Step::InitSeek(helper, bucket))
    } else if name == "sweep" {
        if rest.is_empty() {
            Some(Step::Sweep)
        } else {
            None
        }
    } else {
        let number = one_in(rest)?;
        numbered_step(name, number)
    }
}

/// The kind of pieces that are steps of a step file. The steps are kept packed.
struct StepKind;

impl FlatKind for StepKind {
    ghost use Rattle.piece_files.specs.declared.part.Part.TheVariants as parts;

    type Piece = PackedStep;

    ghost of = { step_of };

    ghost is_old = { is_old_step };

    ghost part = { parts.Step };

    ghost most = { max_steps };

    fn part() -> Part {
        Part::Step
    }

    fn is_old(step: &PackedStep) -> bool {
        match step.step() {
            Step::Ask(_, op) => is_old_op(op),
            _ => true,
        }
    }

    fn most() -> usize {
        MAX_STEPS
    }

    fn of(elements: &[Plain<'_>]) -> Option<PackedStep> {
        Some(PackedStep::new(step_in(elements)?))
    }

    #[tactic(auto, using(crate::proofs::PlainPieces::no_step))]
    fn others_make_none() {}
}

/// The last version of step files and script files.
const MAX_RUN_VERSION: u64 = 2;

/// Makes limits of these numbers, for a step file or script file of this version. In version 1 the
/// limits allow only half keys, which are the keys below 2^63.
///
/// # Errors
///
/// `Limit` if the version is above 2, or if `Limits::new` refuses the numbers.
///
/// # Cost
///
/// Constant time; takes no memory.
pub fn limits_in(
    version: u64,
    callers: u64,
    stripes: u64,
    buckets: u64,
) -> Result<Limits, FileFault>
    ensures { Gives (λ limits. limits) result (sizes_at version callers stripes buckets) }
{
    if version > MAX_RUN_VERSION {
        return Err(FileFault::Limit);
    }
    let Ok(limits) = Limits::new(callers, stripes, buckets) else {
        return Err(FileFault::Limit);
    };
    if version == 1 {
        Ok(limits.half_keys())
    } else {
        Ok(limits)
    }
}

/// Makes the limits of a step file from the file's version and numbers, and returns them with the
/// steps.
#[tactic(auto, unfolding(crate::specs::StepFile::steps_from))]
fn steps_in(
    version: u64,
    numbers: [u64; 3],
    steps: Vec<PackedStep>,
) -> Result<(Limits, Vec<PackedStep>), FileFault>
    ensures { Gives (λ file. (file.0, file.1.items)) result
        (steps_from version numbers steps.items) }
{
    let [callers, stripes, buckets] = numbers;
    let limits = limits_in(version, callers, stripes, buckets)?;
    Ok((limits, steps))
}

/// Reads a step file, and returns its limits and its steps. The file has the form
/// `{"version":V,"callers":C,"stripes":S,"buckets":B,"steps":[..]}`. Each step is an array, such as
/// `["ask",0,"put",1,10]`. Version 1 has no `put_if`, and its limits allow only half keys, which
/// are the keys below 2^63.
///
/// Other members of the object are skipped. If several members have the same name, the last one
/// counts. A number is written without a sign, a fraction or an exponent, and is below 2^64.
///
/// # Errors
///
/// The first of these that applies, in this order:
///
/// - `Limit` if there are more than 16,777,216 bytes.
/// - `NotJson` if `piece_files::read_file` does not accept the bytes as JSON.
/// - `Member` if the value is not an object, or if one of the five members is missing or of the
///   wrong kind. The members are tested in the order above.
/// - `Piece`, with the index of the first wrong piece. A piece is wrong if it is not a step. In
///   version 1 it is also wrong if it has a `put_if`.
/// - `Limit` if the version is not 1 or 2, if `Limits::new` refuses the numbers, or if there are
///   more than 1,000,000 steps.
///
/// If memory is refused, the function may return `NoMemory` in place of any of these.
///
/// # Cost
///
/// Time and memory in proportion to the bytes. The steps are in memory twice, packed and unpacked.
pub fn read_steps(alloc: Global, bytes: &[u8]) -> Result<(Limits, Vec<Step>), FileFault>
    ensures { Gives (λ file. (file.0, file.1.items)) result (file_of bytes.now) }
{
    let (limits, packed) = read_packed_steps(alloc, bytes)?;
    let steps = unpacked(alloc, &packed)?;
    Ok((limits, steps))
}

/// Unpacks the steps.
///
/// # Errors
///
/// `AllocError` if memory is refused.
fn unpacked(alloc: Global, packed: &[PackedStep]) -> Result<Vec<Step>, AllocError>
    ensures { IfOk result (λ steps. steps.items ≡ packed.now) }
{
    let mut steps = Vec::with_capacity(alloc, packed.len())?;
    for step in packed {
        steps.push(step.step())?;
    }
    Ok(steps)
}

/// Reads a step file, and returns its limits and its steps. Unlike `read_steps`, it returns the
/// steps packed. Packed steps take five sevenths of the memory that unpacked steps take.
///
/// # Errors
///
/// The errors of `read_steps`, in the same order.
///
/// # Cost
///
/// Time and memory in proportion to the bytes.
pub fn read_packed_steps(
    alloc: Global,
    bytes: &[u8],
) -> Result<(Limits, Vec<PackedStep>), FileFault>
    ensures { Gives (λ file. (file.0, file.1.items)) result (file_of bytes.now) }
{
    let names = ["callers", "stripes", "buckets"];
    let (version, numbers, steps) = read_file::<Flat<StepKind>, 3>(alloc, bytes, &names, "steps")?;
    steps_in(version, numbers, steps)
}
