//! The report that `replay` prints: the answer to each step, then the size, the count and the pairs
//! of the core after the last step. Each answer is written to the text when its step is taken, so
//! no list of answers is kept.
ghost use Rattle.std.specs.Prelude.{◌≡◌, ◌++◌, false, List, OnOk, IfOk, IfErr, string_bytes};
ghost use Rattle.txn_words.specs.declared.answer.Answer.{Answer};
ghost use Rattle.boost_core.specs.Machine.{Moves};
ghost use Rattle.boostmap_engine.specs.Report.{answers_text, size_text, pairs_text, last_text, IsReport, IsReportOf, IsNoStepFile};
ghost use Rattle.boostmap_engine.specs.Written.{HasNone};

use crate::fault::Fault;
use boost_core::Core;
use std::alloc::{AllocError, Global};
use txn_files::read_packed_steps;
use txn_trace::{Limits, PackedStep};

/// An estimate of the length of an answer's line, in bytes. It determines how much room is made for
/// all lines at once.
const ANSWER: usize = 8;

/// Each time these bits of the number of remaining steps are 0, which is at every 16,384th step, the
/// memory of the steps already taken is freed.
const LOW_BITS: usize = 16_383;

/// Frees the memory of the steps already taken, if the `LOW_BITS` of the number of remaining steps
/// are 0.
fn give_back(steps: &mut Vec<PackedStep>)
    ensures { steps.new.items ≡ steps.old.items }
{
    if steps.len() & LOW_BITS == 0 {
        steps.shrink_to_fit();
    }
}

/// Takes the steps one after the other on a core whose stripes are not words, and appends each
/// answer to the text, as one line.
///
/// The steps are first reversed, and then taken from the end of the vector. So the memory of the
/// steps already taken can be freed while the history grows.
fn put_answers(
    text: &mut String,
    core: &mut Core,
    mut steps: Vec<PackedStep>,
) -> Result<(), AllocError>
    requires { core.old.words ≡ false }
    ensures { OnOk result ((answers : List Answer) × Moves core.old steps.items answers core.new
        × (string_bytes text.new ≡ string_bytes text.old ++ answers_text answers)) }
{
    steps.reverse();
    while let Some(step) = steps.pop() {
        let answer = core.step(step.step());
        writeln!(text, "{answer}")?;
        give_back(&mut steps);
    }
    Ok(())
}

/// Appends one line with the size and the count to the text.
fn put_size(text: &mut String, size: u32, count: u64) -> Result<(), AllocError>
    ensures { OnOk result (string_bytes text.new ≡ string_bytes text.old ++ size_text size count) }
{
    writeln!(text, "size {size} count {count}")
}

/// Appends the pairs to the text, one on each line.
fn put_pairs(text: &mut String, pairs: &[(u64, u64)]) -> Result<(), AllocError>
    ensures { OnOk result (string_bytes text.new ≡ string_bytes text.old ++ pairs_text pairs.now) }
{
    for (key, value) in pairs {
        writeln!(text, "{key} {value}")?;
    }
    Ok(())
}

/// Appends the size, the count and the pairs of a core to the text.
fn put_last(text: &mut String, alloc: Global, core: &Core) -> Result<(), AllocError>
    ensures { OnOk result (string_bytes text.new ≡ string_bytes text.old ++ last_text core.now) }
{
    let pairs = core.regular_list(alloc)?;
    put_size(text, core.size(), core.count())?;
    put_pairs(text, &pairs)
}

/// Runs these steps on a new core, and returns the report.
fn text_of_run(alloc: Global, limits: Limits, steps: Vec<PackedStep>) -> Result<String, AllocError>
    ensures { IfOk result (λ text. IsReport limits steps.items (string_bytes text)) }
{
    let Ok(mut core) = Core::new(alloc, limits) else {
        return Err(AllocError);
    };
    // This makes room in the history for one entry of each step. If the room is refused, the
    // history grows while entries are added.
    let _room = core.reserve(steps.len());
    let mut text = String::with_capacity(alloc, steps.len().saturating_mul(ANSWER))?;
    put_answers(&mut text, &mut core, steps)?;
    put_last(&mut text, alloc, &core)?;
    Ok(text)
}

/// Runs the steps that are read from these bytes on a new core, and returns the report. If the file
/// is of version 1, the core takes only keys below 2^63. The bytes are dropped before the first
/// step is taken.
///
/// # Errors
///
/// `Input` if the bytes are not a step file. `NoMemory` if memory is refused outside a step. Room
/// in the history is made before the first step; if only that room is refused, the run continues.
///
/// # Cost
///
/// The cost of `Core::new` and of the steps, and time and memory in proportion to the bytes and the
/// report.
pub fn report(alloc: Global, bytes: Vec<u8>) -> Result<String, Fault>
    ensures ok { IfOk result (λ text. IsReportOf bytes.items (string_bytes text)) }
    ensures err { IfErr result (HasNone IsNoStepFile bytes.items) }
{
    let (limits, steps) = read_packed_steps(alloc, &bytes)?;
    drop(bytes);
    Ok(text_of_run(alloc, limits, steps)?)
}
