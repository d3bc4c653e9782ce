//! One turn of one worker on the core: one step or two. Each step adds only entries of this
//! worker's caller, so the invariants of all other workers still hold. The contract of a turn
//! therefore speaks of one worker; only the loop in `mixing.rt` speaks of all workers.
ghost use Rattle.std.specs.Prelude.{◌≡◌, is_some, true};
ghost use Rattle.txn_words.specs.Shape.{own};
ghost use Rattle.script_worker.specs.Workers.{step_by, IsReady};
ghost use Rattle.script_worker.specs.Keeps.{KeepsScripts};
ghost use Rattle.boostmap_engine.specs.Crews.{MovesOn};
ghost use Rattle.boostmap_engine.specs.Turns.{TakesTurn};

use crate::ordinary::OrdinaryCore;
use script_worker::Worker;
use txn_trace::Script;

/// Takes the next turn of a live worker on the core: one step or two. Returns whether the worker
/// has a step left.
pub(crate) fn take_turn(
    core: &mut OrdinaryCore,
    worker: &mut Worker,
    scripts: &[Script],
    tries: u64,
) -> bool
    requires live { is_some (step_by worker.old) ≡ true }
    requires keeps { KeepsScripts scripts.now tries worker.old
        (own worker.old.number core.old.history) }
    ensures goes { MovesOn scripts.now tries core.old core.new worker.old worker.new }
    ensures takes { TakesTurn scripts.now tries core.old worker.old core.new worker.new }
    ensures lives { result ≡ is_some (step_by worker.new) }
    ensures ready { IsReady worker.new }
{
    let size = core.size();
    let _finish = worker.take_turn(size, scripts, tries, &mut |step| core.step(step));
    worker.is_live()
}
