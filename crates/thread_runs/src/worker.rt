//! What the thread of one worker does: it runs the worker's scripts, and nothing else. A worker
//! knows no other worker: it takes its scripts by their numbers, and shares only the map and the
//! gate with the others. Room for an outcome is made before its script runs, so each script that
//! runs can keep its outcome.
ghost use Rattle.std.specs.Prelude.{◌≡◌, ◌<◌, ◌^◌, [], IfOk, map};
ghost use Rattle.locked_map.specs.Tokens.{IsSameCaller};
ghost use Rattle.thread_runs.specs.Runs.{HasReported, HasRunAll, outcome_told};

use crate::gate::Gate;
use crate::growth::Growth;
use crate::outcome::Outcome;
use crate::run_script::run_script;
use crate::terms::Terms;
use locked_map::{Caller, NoSide, Pass, SharedMap};
use std::alloc::{AllocError, Global};
use std::marker::PhantomData;
use std::sync::Wait;
use std::sync::ledger::Ledger;
use txn_trace::Script;

/// The result of a worker.
#[derive(Drop)]
pub(crate) struct WorkerReport<L: Ledger> {
    /// The worker's caller.
    pub(crate) caller: Caller<L, NoSide>,
    /// The outcomes of the worker's scripts, in order.
    pub(crate) outcomes: Vec<Outcome>,
}

/// The orders that all workers get.
#[derive(Drop)]
pub(crate) struct Orders<'a, L: Ledger, G: Gate, T: Terms> {
    /// The map.
    pub(crate) map: &'a SharedMap<L>,
    /// The scripts of all workers.
    pub(crate) scripts: &'a [Script],
    /// The number of workers.
    pub(crate) workers: usize,
    /// The number of entries for which each worker makes room before its first script.
    pub(crate) entries: usize,
    /// How often a script that found a stripe held is tried again.
    pub(crate) tries: u64,
    /// The observer of the run.
    pub(crate) gate: &'a G,
    /// The run's terms.
    pub(crate) terms: PhantomData<T>,
    pub(crate) ghost some: { 0 < workers },
    pub(crate) ghost few: { workers < 2 ^ 32 },
    pub(crate) ghost all_workers: { workers ≡ T.workers },
    pub(crate) ghost all_tries: { tries ≡ T.tries },
    pub(crate) ghost all_scripts: { scripts.now ≡ T.scripts },
}

impl<L: Ledger, G: Gate, T: Terms> Orders<'_, L, G, T> {
    /// Runs the scripts of the worker that the pass is for. If memory is refused for one more
    /// outcome, returns `AllocError`, and the earlier outcomes are lost.
    pub(crate) fn work<R: Wait>(
        &self,
        rt: &R,
        alloc: Global,
        pass: Pass<L>,
    ) -> Result<WorkerReport<L>, AllocError>
        ensures { IfOk result (HasReported pass.limits.half T.workers T.tries T.scripts
            pass.number) }
    {
        let mut caller = pass.caller(alloc, NoSide);
        // If room for all entries is refused, each call makes room for its own entries.
        let _room = caller.reserve(self.entries);
        let outcomes = self.outcomes(rt, alloc, &mut caller)?;
        Ok(WorkerReport { caller, outcomes })
    }

    /// Runs the scripts of a worker. These are the scripts whose number, modulo the number of
    /// workers, is the worker's number.
    fn outcomes<R: Wait>(
        &self,
        rt: &R,
        alloc: Global,
        me: &mut Caller<L, NoSide>,
    ) -> Result<Vec<Outcome>, AllocError>
        requires fresh { me.old.seen ≡ [] }
        ensures same { IsSameCaller me.old me.new }
        ensures ran { IfOk result (λ outcomes. HasRunAll me.old.limits.half T.workers T.tries
            me.old.number T.scripts (map outcome_told outcomes.items) me.new.seen) }
    {
        let mut outcomes = Vec::new(alloc);
        let mut growth = Growth::new();
        let mut number = me.number() as usize;
        while let Some(script) = self.scripts.get(number) {
            outcomes.reserve(1)?;
            let actions = script.actions();
            let outcome = run_script(
                rt,
                alloc,
                self.map,
                me,
                number,
                actions,
                self.tries,
                self.gate,
                &mut growth,
            );
            outcomes.push_reserved(outcome);
            self.gate.done(number);
            number += self.workers;
        }
        Ok(outcomes)
    }
}
