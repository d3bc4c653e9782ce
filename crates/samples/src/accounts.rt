//! Transfers in a `striped_map`. A transfer is one transaction of its caller, whatever other callers
//! do in their threads meanwhile. In the map that results from the earlier commits, it moves the sum
//! or changes nothing.
ghost use Rattle.std.specs.Prelude.{◌≡◌, ◌≢◌, false, IfErr, IfOk, OnErr};
ghost use Rattle.striped_map.specs.Callers.{IsSince};
ghost use Rattle.striped_map.specs.Keeps.{Keeps};
ghost use Rattle.samples.specs.StripedTransfers.{GivesUp, HasTransferred, HasWorked};

use striped_map::{Caller, Stop, Transaction};

/// Moves a sum from one account to another, in a transaction of its own, and returns whether the
/// sum was moved. The sum is not moved if the first account has less than the sum, or if the second
/// would have 2^64 or more. An account without a key has 0.
///
/// If a stripe is busy, the transaction aborts and the transfer is tried again, at most `tries`
/// more times.
///
/// # Errors
///
/// The errors of `Caller::transact`. Nothing is committed. `Busy` is returned only if all tries
/// were busy.
///
/// # Cost
///
/// For each try: a begin, at most two `get`s and two `put`s, and a commit. A try that fails has an
/// abort instead of the commit.
pub fn transfer(caller: &mut Caller, tries: u64, from: u64, to: u64, sum: u64) -> Result<bool, Stop>
    requires { from ≢ to }
    ensures closed { caller.old.is_open ≡ false → caller.new.is_open ≡ false }
    ensures ok { IfOk result (λ moved. HasTransferred from to sum moved caller.old caller.new) }
    ensures err { OnErr result (IsSince caller.old caller.new) }
    ensures tries { IfErr result (λ stop. caller.old.is_open ≡ false
        → GivesUp from to sum tries stop caller.old caller.new) }
{
    let (moved, _place) = caller.transact(
        tries,
        |t: &mut Transaction<'_>| -> Result<bool, Stop>
            ensures keeps { Keeps t.old t.new }
            ensures ok { IfOk result (λ moved.
                HasWorked from to sum moved t.old.me.now t.new.me.now) }
        { move_sum(t, from, to, sum) },
    )?;
    Ok(moved)
}

/// Reads both accounts, and writes both if the sum can be moved.
#[tactic(auto, using(striped_map::proofs::CallSpans::keeps_on, striped_map::proofs::CallSpans::keeps_three, striped_map::proofs::CallSpans::keeps_four))]
fn move_sum(t: &mut Transaction<'_>, from: u64, to: u64, sum: u64) -> Result<bool, Stop>
    ensures keeps { Keeps t.old t.new }
    ensures ok { IfOk result (λ moved. HasWorked from to sum moved t.old.me.now t.new.me.now) }
{
    let had = t.get(from)?.unwrap_or(0);
    let has = t.get(to)?.unwrap_or(0);
    let Some(less) = had.checked_sub(sum) else {
        return Ok(false);
    };
    let Some(more) = has.checked_add(sum) else {
        return Ok(false);
    };
    t.put(from, less)?;
    t.put(to, more)?;
    Ok(true)
}
