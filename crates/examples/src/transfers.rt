//! Four threads move sums between the accounts of one striped map, and the sum of all accounts
//! stays the same. Each transfer is a call of `accounts`, one transaction. If another thread holds a
//! key's stripe, the transaction is aborted and tried again, as often as needed.
ghost use Rattle.striped_map.specs.Keeps.{Keeps};

use samples::accounts::transfer;
use std::alloc::Global;
use std::io::Print;
use std::thread;
use std::thread::Threads;
use striped_map::{Caller, Opening, Stop, Transaction};

/// The number of threads. Each has its own caller.
const THREADS: usize = 4;
/// The number of accounts. The key of an account is a number below this one.
const ACCOUNTS: u64 = 8;
/// The first balance of each account.
const OPENING: u64 = 100;
/// The number of transfers of each thread.
const TRANSFERS: u64 = 50;

/// Puts the opening sum into each account.
#[tactic(auto, using(striped_map::proofs::CallSpans::keeps_stay, striped_map::proofs::CallSpans::keeps_on))]
fn open(t: &mut Transaction<'_>) -> Result<(), Stop>
    ensures { Keeps t.old t.new }
{
    for account in 0..ACCOUNTS {
        t.put(account, OPENING)?;
    }
    Ok(())
}

/// Makes all transfers of one thread. No transfer goes from an account to itself.
fn move_sums(thread: usize, caller: &mut Caller) {
    let thread = thread as u64 % THREADS as u64;
    for round in 0..TRANSFERS {
        let from = (round + thread) % ACCOUNTS;
        let to = (round * 3 + thread * 5) % ACCOUNTS;
        if from != to {
            let _ = transfer(caller, u64::MAX, from, to, 1 + round % 7);
        }
    }
}

/// Opens the accounts, makes all transfers, and returns the accounts.
fn play_all<R: Threads + Sync>(rt: &R, alloc: Global) -> Result<Vec<(u64, u64)>, Stop> {
    let (mut host, mut callers) = Opening::new(8, THREADS).open(alloc)?;
    if let Some(first) = callers.first_mut() {
        first.transact(0, |t: &mut Transaction<'_>| open(t))?;
    }
    thread::for_each_mut(
        rt,
        callers.as_mut_slice(),
        THREADS,
        &|place, caller| move_sums(place, caller),
    );
    host.pairs()
}

/// Makes all transfers, and prints the sum of all accounts.
pub(crate) fn show<R: Threads + Sync + Print + AllocGlobal>(rt: &R) -> anyhow::Result<()> {
    let mut sum = 0u64;
    for (_, balance) in play_all(rt, rt.alloc())? {
        sum = sum.saturating_add(balance);
    }
    println!(rt; "opening {}, now {sum}", ACCOUNTS * OPENING)?;
    Ok(())
}
