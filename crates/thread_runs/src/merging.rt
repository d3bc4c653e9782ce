//! The outcomes of all workers, merged into the scripts' order. The merge works on lists and knows
//! neither map nor threads; its contract is only about lengths and order. Each row is in reverse,
//! with its last outcome first. So the merge takes the next outcome from the row's end, in constant
//! time and without a copy.
ghost use Rattle.std.specs.Prelude.{◌≡◌, ◌<◌, IfOk, length, reverse};
ghost use Rattle.script_worker.specs.Accounts.{every};
ghost use Rattle.thread_runs.specs.Runs.{Each};

use crate::outcome::Outcome;
use std::alloc::{AllocError, Global};
use txn_trace::Script;

/// The outcomes in the scripts' order. Each worker has a row of outcomes, in reverse: the last one
/// comes first. Script `i` belongs to worker `i` modulo the number of rows.
pub(crate) fn in_order(
    alloc: Global,
    rows: Vec<Vec<Outcome>>,
    scripts: &[Script],
) -> Result<Vec<Outcome>, AllocError>
    requires some { 0 < length rows.items }
    requires rows { Each (λ c row. length row.items
        ≡ length (every (length rows.items) c scripts.now)) rows.items }
    ensures len { IfOk result (λ outcomes. length outcomes.items ≡ length scripts.now) }
    ensures order { IfOk result (λ outcomes. Each (λ c row.
        every (length rows.items) c outcomes.items ≡ reverse row.items) rows.items) }
{
    let workers = rows.len();
    let mut left = rows;
    let mut outcomes = Vec::new(alloc);
    for number in 0..scripts.len() {
        let Some(outcome) = left[number % workers].pop() else {
            unreachable!()
        };
        outcomes.push(outcome)?;
    }
    Ok(outcomes)
}
