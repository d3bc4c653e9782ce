//! Defines `transact`.
ghost use Rattle.std.specs.Prelude.{◌≡◌, ℕ, ◌≤◌, true, false, Ok, IfOk, IfErr, OnErr};
ghost use Rattle.txn_words.specs.declared.refusal.Refusal.TheVariants.{AlreadyOpen};
ghost use Rattle.striped_map.specs.Attempts.{FailsBusy, FailsOrNot, on_callers};
ghost use Rattle.striped_map.specs.declared.caller.Caller.{Caller};
ghost use Rattle.striped_map.specs.Callers.{IsRun, IsSince};
ghost use Rattle.striped_map.specs.Keeps.{Keeps};

use crate::retry::Retry;
use std::sync::Wait;
use striped_map::{Caller, Stop, Transaction};

/// Runs the work in a transaction of the caller and commits. Returns the work's value and what
/// `commit` returns. If another caller held a stripe, waits as `retry` says and begins again. So
/// the work may run several times. Whenever the work fails, all changes of its transaction are taken
/// back.
///
/// # Errors
///
/// - `Refused(AlreadyOpen)` if the caller is in a transaction. This transaction is unchanged.
/// - Otherwise the error of the last try. It is `Busy` only if all tries are used up. The other
///   errors are those of `Caller::transact`.
///
/// # Cost
///
/// That of `Caller::transact`, and of the waits between the tries.
pub fn transact<R: Wait, T: Drop, F: Fn(&mut Transaction<'_>) -> Result<T, Stop>>(
    rt: &R,
    caller: &mut Caller,
    retry: Retry,
    work: F,
) -> Result<(T, Option<u64>), Stop>
    requires callable { F.IsAlwaysCallable work }
    requires keeps { (t : _) (r : _) (u : _) → F.post work t r u → Keeps t.now u.now }
    ensures closed { caller.old.is_open ≡ false → caller.new.is_open ≡ false }
    ensures ok { IfOk result (λ r. (b : Caller) × (t : _) × (u : _) × F.post work t (Ok r.0) u
        × IsSince caller.old b × IsRun b t.now.me.now u.now.me.now caller.new r.1
        × (busy : ℕ) × (busy ≤ retry.times)
        × FailsBusy (on_callers (λ t. t.now.me.now) (F.post work)) busy caller.old b) }
    ensures since { OnErr result (IsSince caller.old caller.new) }
    ensures open { IfErr result (λ stop. caller.old.is_open ≡ true
        → (stop ≡ Stop.Refused AlreadyOpen) × (caller.new ≡ caller.old)) }
    ensures err { IfErr result (λ stop. caller.old.is_open ≡ false
        → (busy : ℕ) × (busy ≤ retry.times)
        × ((holder : ℕ) → stop ≡ Stop.Busy holder → busy ≡ retry.times) × (b : Caller)
        × FailsBusy (on_callers (λ t. t.now.me.now) (F.post work)) busy caller.old b
        × FailsOrNot (on_callers (λ t. t.now.me.now) (F.post work)) b caller.new stop) }
{
    let number = caller.number();
    caller.transact_waiting(
        retry.times,
        |round: u64| retry.wait(rt, number, round),
        work,
    )
}
