// PROMISES the-striped-map: transact, transact_waiting
//! Defines `Caller::transact`, which runs a work in a transaction, and begins again if another
//! caller holds a stripe. The method is not in the module `caller`, since it builds on
//! `Transaction`. Each try runs the work in a `Transaction`, so a work that fails leaves no
//! transaction open. Between two tries the caller holds no stripe.
ghost use Rattle.std.specs.Prelude.{◌≡◌, ℕ, ◌≤◌, true, false, Ok, IfOk, IfErr, OnOk, OnErr};
ghost use Rattle.txn_words.specs.declared.refusal.Refusal.TheVariants.{AlreadyOpen};
ghost use Rattle.striped_map.specs.Attempts.{FailsOrNot, on_callers, Fails, FailsBusy};
ghost use Rattle.striped_map.specs.declared.caller.Caller.{Caller};
ghost use Rattle.striped_map.specs.Callers.{IsSince, IsRun};
ghost use Rattle.striped_map.specs.Keeps.{Keeps};

use crate::caller::Caller;
use crate::transaction::Transaction;
use std::thread;
use txn_words::Stop;

impl Caller {
    /// Begins a transaction, runs the work in it, and commits. If the work fails, the transaction
    /// is dropped, which aborts it.
    fn attempt<T: Drop, F: Fn(&mut Transaction<'_>) -> Result<T, Stop>>(
        &mut self,
        work: &F,
    ) -> Result<(T, Option<u64>), Stop>
        requires callable { F.IsAlwaysCallable work.now }
        requires keeps { (t : _) (r : _) (u : _) → F.post work.now t r u → Keeps t.now u.now }
        ensures closed { OnOk result ((self.old.is_open ≡ false) × (self.new.is_open ≡ false)) }
        ensures ok { IfOk result (λ r. (t : _) × (u : _) × F.post work.now t (Ok r.0) u
            × IsRun self.old t.now.me.now u.now.me.now self.new r.1) }
        ensures open { IfErr result (λ stop. self.old.is_open ≡ true
            → (stop ≡ Stop.Refused AlreadyOpen) × (self.new ≡ self.old)) }
        ensures err { IfErr result (λ stop. self.old.is_open ≡ false
            → FailsOrNot (on_callers (λ t. t.now.me.now) (F.post work.now)) self.old self.new
            stop) }
    {
        self.begin()?;
        let mut open = Transaction { me: self };
        let value = work(&mut open)?;
        let place = open.commit()?;
        Ok((value, place))
    }

    /// Runs the work in a transaction and commits. Returns the work's value and what `commit`
    /// returns: the commit's place, if the map keeps its commits. If the work fails with `Busy`, the
    /// caller yields the thread and begins again, at most `tries` times. So the work may run several
    /// times. Whenever the work fails, all its changes are taken back.
    ///
    /// The contract of the work has the clause `Keeps`, which says what each call of a transaction
    /// keeps. `keeps_stay`, `keeps_on`, `keeps_three` and `keeps_four` of `proofs/CallSpans.antt` join
    /// the calls of a work.
    ///
    /// # Errors
    ///
    /// - `Refused(AlreadyOpen)` if the caller is in a transaction. This transaction is unchanged.
    /// - Otherwise the error of the last try. The error is `Busy` only if all tries are used up. It
    ///   is `Refused(NotOpen)` if the work continued after one of its calls was busy. It is
    ///   `Refused(NoMemory)` if `begin` was refused, which only happens if the map keeps its
    ///   entries.
    ///
    /// # Cost
    ///
    /// For each try, the costs of `begin` and of the work, and then the cost of `commit`, or of
    /// `abort` if the try fails.
    pub fn transact<T: Drop, F: Fn(&mut Transaction<'_>) -> Result<T, Stop>>(
        &mut self,
        tries: u64,
        work: F,
    ) -> Result<(T, Option<u64>), Stop>
        requires callable { F.IsAlwaysCallable work }
        requires keeps { (t : _) (r : _) (u : _) → F.post work t r u → Keeps t.now u.now }
        ensures closed { self.old.is_open ≡ false → self.new.is_open ≡ false }
        ensures ok { IfOk result (λ r. (b : Caller) × (t : _) × (u : _) × F.post work t (Ok r.0) u
            × IsSince self.old b × IsRun b t.now.me.now u.now.me.now self.new r.1
            × (busy : ℕ) × (busy ≤ tries)
            × FailsBusy (on_callers (λ t. t.now.me.now) (F.post work)) busy self.old b) }
        ensures since { OnErr result (IsSince self.old self.new) }
        ensures open { IfErr result (λ stop. self.old.is_open ≡ true
            → (stop ≡ Stop.Refused AlreadyOpen) × (self.new ≡ self.old)) }
        ensures err { IfErr result (λ stop. self.old.is_open ≡ false
            → (busy : ℕ) × (busy ≤ tries)
            × ((holder : ℕ) → stop ≡ Stop.Busy holder → busy ≡ tries) × (b : Caller)
            × FailsBusy (on_callers (λ t. t.now.me.now) (F.post work)) busy self.old b
            × FailsOrNot (on_callers (λ t. t.now.me.now) (F.post work)) b self.new stop) }
    {
        self.transact_waiting(tries, |_round: u64| thread::yield_now(), work)
    }

    /// As `transact`, but calls `wait` before each further try, in place of a yield, with the number
    /// of tries before the failed one.
    ///
    /// # Errors
    ///
    /// Those of `transact`.
    ///
    /// # Cost
    ///
    /// That of `transact`, and of the waits.
    pub fn transact_waiting<T: Drop, W: Fn(u64), F: Fn(&mut Transaction<'_>) -> Result<T, Stop>>(
        &mut self,
        tries: u64,
        wait: W,
        work: F,
    ) -> Result<(T, Option<u64>), Stop>
        requires waits { W.IsAlwaysCallable wait }
        requires callable { F.IsAlwaysCallable work }
        requires keeps { (t : _) (r : _) (u : _) → F.post work t r u → Keeps t.now u.now }
        ensures closed { self.old.is_open ≡ false → self.new.is_open ≡ false }
        ensures ok { IfOk result (λ r. (b : Caller) × (t : _) × (u : _) × F.post work t (Ok r.0) u
            × IsSince self.old b × IsRun b t.now.me.now u.now.me.now self.new r.1
            × (busy : ℕ) × (busy ≤ tries)
            × FailsBusy (on_callers (λ t. t.now.me.now) (F.post work)) busy self.old b) }
        ensures since { OnErr result (IsSince self.old self.new) }
        ensures open { IfErr result (λ stop. self.old.is_open ≡ true
            → (stop ≡ Stop.Refused AlreadyOpen) × (self.new ≡ self.old)) }
        ensures err { IfErr result (λ stop. self.old.is_open ≡ false
            → (busy : ℕ) × (busy ≤ tries)
            × ((holder : ℕ) → stop ≡ Stop.Busy holder → busy ≡ tries) × (b : Caller)
            × FailsBusy (on_callers (λ t. t.now.me.now) (F.post work)) busy self.old b
            × FailsOrNot (on_callers (λ t. t.now.me.now) (F.post work)) b self.new stop) }
    {
        let mut left = tries;
        loop {
            match self.attempt(&work) {
                Ok(done) => return Ok(done),
                Err(Stop::Refused(refusal)) => return Err(Stop::Refused(refusal)),
                Err(Stop::Busy { holder }) => {
                    if left == 0 {
                        return Err(Stop::Busy { holder });
                    }
                    wait(tries - left);
                    left -= 1;
                }
            }
        }
    }
}
