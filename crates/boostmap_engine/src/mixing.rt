// PROMISES scripts-that-take-turns: mix_scripts
//! The whole run: a live worker is drawn and takes its turn, again and again, until no worker has a
//! step left. The loop's invariant says that every worker keeps to its scripts, which workers are
//! live, and which worker was drawn for each turn.
ghost use Rattle.std.specs.Prelude.{IfOk};
ghost use Rattle.boostmap_engine.specs.Crews.{IsMixed};

use crate::crew::{draw_place, live_numbers, workers_of};
use crate::ordinary::OrdinaryCore;
use crate::turn::take_turn;
use boost_core::Core;
use rand_core::SeedableRng;
use rand_pcg::Pcg32;
use std::alloc::{AllocError, Global};
use txn_trace::Scripts;

/// Runs the scripts on a new core until no worker has a step left, or until 2^64 - 1 turns were
/// taken, and returns the core with the history. The seed decides how the workers' turns are mixed.
/// Before each turn a place among the live workers is drawn, even if there is only one.
///
/// # Errors
///
/// `AllocError` if memory is refused outside a step. If memory is refused in a step, the step gets
/// the answer `Refused(NoMemory)`, which ends the worker's script.
///
/// # Cost
///
/// The cost of `Core::new` and of the steps. When a worker's last script is over, the worker is
/// removed from the list of live workers. This takes time in proportion to their number. Takes
/// memory for the workers, the core and the steps.
pub fn mix_scripts(alloc: Global, seed: u64, work: &Scripts) -> Result<Core, AllocError>
    ensures { IfOk result (λ core. IsMixed work.now seed core) }
{
    let limits = work.limits();
    let Ok(mut core) = OrdinaryCore::new(alloc, limits) else {
        return Err(AllocError);
    };
    let mut workers = workers_of(alloc, limits, work.scripts())?;
    let mut live = live_numbers(alloc, &workers)?;
    let mut generator = Pcg32::seed_from_u64(seed);
    for _turn in 0..u64::MAX {
        let Some(place) = draw_place(&mut generator, &live) else {
            break;
        };
        let number = live[place];
        let lives = take_turn(
            &mut core,
            &mut workers[number],
            work.scripts(),
            work.tries(),
        );
        if !lives {
            live.remove(place);
        }
    }
    let core = core.into_core();
    // This call is made only for its contract, which says that the core's history is legal.
    let _history = core.trace();
    Ok(core)
}
