//! Transfers in an `owned_map`. A transfer moves a sum between two accounts and touches no other
//! account, or it leaves the map unchanged. No other caller's transaction is touched.
ghost use Rattle.std.specs.Prelude.{◌≡◌, ◌≢◌, IfErr, IfOk, OnOk, OnErr};
ghost use Rattle.txn_words.specs.declared.op.Op.TheVariants as ops;
ghost use Rattle.txn_words.specs.declared.step.Step.TheVariants as steps;
ghost use Rattle.txn_trace.specs.Now.{now};
ghost use Rattle.owned_map.specs.Keeps.{Keeps};
ghost use Rattle.owned_map.specs.Effects.{IsStopped};
ghost use Rattle.owned_map.specs.Within.{OnlyDid};
ghost use Rattle.samples.specs.OwnedTransfers.{IsWhy};
ghost use Rattle.samples.specs.Transfers.{IsTransfer, balance};

use owned_map::{OwnedMap, Stop, Transaction};

/// The reason why nothing was moved.
#[derive(Clone, Copy, Debug, PartialEq, Eq)]
pub enum NotMoved {
    /// The first account has too little.
    TooLittle,
    /// The second account would have 2^64 or more.
    TooMuch,
    /// A call failed: another caller holds the stripe of an account, or the call was refused.
    Stopped(Stop),
}

impl From<Stop> for NotMoved {
    ghost use Rattle.samples.specs.declared.bank.NotMoved.TheVariants.{Stopped};

    ghost from_gives = { λ stop why. why ≡ Stopped stop };

    fn from(stop: Stop) -> NotMoved {
        NotMoved::Stopped(stop)
    }
}

/// Moves a sum from one account to another, in one transaction. The two accounts must differ. An
/// account whose key is absent has 0.
///
/// # Errors
///
/// Nothing is moved, and the map is unchanged.
///
/// - `TooLittle` if the first account has less than the sum.
/// - `TooMuch` if the second account would have 2^64 or more.
/// - `Stopped` with the reason if a call failed. For instance, the reason is `Busy` if another
///   caller holds one of the stripes; the transfer may then be tried again.
///
/// # Cost
///
/// A begin, two `get`s, two `put`s and a commit, or an abort if one of these fails.
pub fn transfer(
    accounts: &mut OwnedMap,
    caller: u64,
    from: u64,
    to: u64,
    sum: u64,
) -> Result<(), NotMoved>
    requires { from ≢ to }
    ensures moved { OnOk result (IsTransfer from to sum
        (now accounts.old.core.history) (now accounts.new.core.history)) }
    ensures kept { OnErr result (now accounts.new.core.history ≡ now accounts.old.core.history) }
    ensures cause { IfErr result (λ why. IsWhy caller from to sum why accounts.old.core) }
    ensures only { OnlyDid caller accounts.old.core accounts.new.core }
{
    accounts.transact(
        caller,
        |t: &mut Transaction<'_>| -> Result<(), NotMoved>
            requires { from ≢ to }
            ensures keeps { Keeps t.old t.new }
            ensures moved { OnOk result (IsTransfer from to sum
                (now t.old.map.now.core.history) (now t.new.map.now.core.history)) }
            ensures cause { IfErr result (λ why. IsWhy t.old.caller from to sum why
                t.old.map.now.core) }
        { move_sum(t, from, to, sum) },
    )
}

/// Moves the sum within a transaction.
#[tactic(auto, using(owned_map::proofs::Calls::keeps_stay, owned_map::proofs::Calls::keeps_on))]
fn move_sum(t: &mut Transaction<'_>, from: u64, to: u64, sum: u64) -> Result<(), NotMoved>
    requires { from ≢ to }
    ensures keeps { Keeps t.old t.new }
    ensures moved { OnOk result (IsTransfer from to sum
        (now t.old.map.now.core.history) (now t.new.map.now.core.history)) }
    ensures cause { IfErr result (λ why. IsWhy t.old.caller from to sum why t.old.map.now.core) }
{
    let had = read(t, from)?;
    let has = read(t, to)?;
    let Some(less) = had.checked_sub(sum) else {
        return Err(NotMoved::TooLittle);
    };
    let Some(more) = has.checked_add(sum) else {
        return Err(NotMoved::TooMuch);
    };
    t.put(from, less)?;
    t.put(to, more)?;
    Ok(())
}

/// The balance of an account.
fn read(t: &mut Transaction<'_>, account: u64) -> Result<u64, Stop>
    ensures keeps { Keeps t.old t.new }
    ensures has { IfOk result (λ has. has ≡ balance (now t.old.map.now.core.history) account) }
    ensures same { OnOk result (now t.new.map.now.core.history
        ≡ now t.old.map.now.core.history) }
    ensures stopped { IfErr result (λ stop. IsStopped t.old.map.now.core
        (steps.Ask t.old.caller (ops.Get account)) stop t.new.map.now.core) }
{
    Ok(t.get(account)?.unwrap_or(0))
}
