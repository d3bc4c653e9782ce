//! Calls `bank`: caller 0 opens two accounts. Caller 1 moves a sum between them, and then tries to
//! move a sum that is too large. The accounts are printed at the end, and show that only the first
//! sum was moved. `open` is an example of a work that states `Keeps`.
ghost use Rattle.owned_map.specs.Keeps.{Keeps};

use anyhow::Result;
use owned_map::{OwnedMap, Stop, Transaction};
use samples::bank::transfer;
use std::io;
use std::io::Print;
use txn_words::Limits;

/// Puts the first balances of two accounts.
#[tactic(auto, using(owned_map::proofs::Calls::keeps_stay, owned_map::proofs::Calls::keeps_on))]
fn open(t: &mut Transaction<'_>) -> Result<(), Stop>
    ensures { Keeps t.old t.new }
{
    t.put(1, 100)?;
    t.put(2, 50)?;
    Ok(())
}

/// Caller 0 opens two accounts.
fn open_both(accounts: &mut OwnedMap) -> Result<(), Stop> {
    accounts.transact(0, |t: &mut Transaction<'_>| open(t))
}

/// Caller 1 tries to move a sum between the accounts. Prints the outcome.
fn try_transfer<R: Print>(rt: &R, accounts: &mut OwnedMap, sum: u64) -> io::Result<()> {
    let is_moved = transfer(accounts, 1, 1, 2, sum).is_ok();
    println!(rt; "{sum} moved: {is_moved}")
}

/// Prints the accounts.
fn list<R: Print + AllocGlobal>(rt: &R, accounts: &OwnedMap) -> io::Result<()> {
    for (account, sum) in accounts.core().map(rt.alloc())? {
        println!(rt; "account {account}: {sum}")?;
    }
    Ok(())
}

/// Opens two accounts, moves a sum, tries to move a sum that is too large, and prints the
/// accounts.
fn work<R: Print + AllocGlobal>(rt: &R, accounts: &mut OwnedMap) -> Result<()> {
    open_both(accounts)?;
    try_transfer(rt, accounts, 30)?;
    try_transfer(rt, accounts, 80)?;
    list(rt, accounts)?;
    Ok(())
}

/// Does the work of this example on a new map with two callers.
pub(crate) fn show<R: Print + AllocGlobal>(rt: &R) -> Result<()> {
    let mut accounts = OwnedMap::new(rt.alloc(), Limits::new(2, 8, 8)?)?;
    work(rt, &mut accounts)
}
