//! The two lists that a run makes once: the workers in the order of their numbers, and the numbers
//! of the live workers. When a worker has no step left, the run removes its number. So a draw needs
//! only the length of the list of numbers, and takes constant time and no memory.
ghost use Rattle.std.specs.Prelude.{◌≡◌, ℕ, ◌<◌, ◌%◌, IfOk, IfSome, None, [], length};
ghost use Rattle.rand_pcg.specs.Pcg.{pcg32};
ghost use Rattle.boostmap_engine.specs.Turns.{first_crew, live_from};
ghost use Rattle.boostmap_engine.specs.Crews.{IsCrew};

use crate::drawing::draw;
use rand_pcg::Pcg32;
use script_worker::Worker;
use std::alloc::{AllocError, Global};
use txn_trace::{Limits, Script};

/// One worker for each caller, in the order of the callers' numbers. No worker has taken a step.
pub(crate) fn workers_of(
    alloc: Global,
    limits: Limits,
    scripts: &[Script],
) -> Result<Vec<Worker>, AllocError>
    ensures crew { (tries : ℕ) → IfOk result (λ crew.
        IsCrew scripts.now tries limits.callers [] crew.items) }
    ensures first { IfOk result (λ crew.
        crew.items ≡ first_crew scripts.now limits limits.callers) }
{
    let count = limits.callers() as usize;
    let mut workers = Vec::with_capacity(alloc, count)?;
    for number in 0..count {
        workers.push(Worker::new(number, limits, scripts))?;
    }
    Ok(workers)
}

/// The numbers of the workers that have a step to take, in rising order.
pub(crate) fn live_numbers(alloc: Global, workers: &[Worker]) -> Result<Vec<usize>, AllocError>
    ensures { IfOk result (λ numbers. numbers.items ≡ live_from 0 workers.now) }
{
    let mut numbers = Vec::with_capacity(alloc, workers.len())?;
    for (number, worker) in workers.iter().enumerate() {
        if worker.is_live() {
            numbers.push(number)?;
        }
    }
    Ok(numbers)
}

/// Draws a place in the list of live workers, even if only one worker is live. Returns `None` if
/// the list is empty.
pub(crate) fn draw_place(generator: &mut Pcg32, live: &[usize]) -> Option<usize>
    ensures below { IfSome result (λ place. place < length live.now) }
    ensures drawn { IfSome result (λ place.
        place ≡ (pcg32 generator.old).0 % length live.now) }
    ensures generator { IfSome result (λ place. generator.new ≡ (pcg32 generator.old).1) }
    ensures none { result ≡ None → live.now ≡ [] }
{
    if live.is_empty() {
        return None;
    }
    Some(draw(generator, live.len() as u64) as usize)
}
