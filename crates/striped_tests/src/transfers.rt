//! Tests of `transfer` of `samples::accounts`, by one caller and by several in their threads. No
//! contract says that a transfer is made as soon as its stripes are free. The balances were worked
//! out by hand. After four threads have moved sums that look random, only the total is known.
use crate::calls::{Home, answer, leaves, open, play};
use crate::threads::{Work, in_threads};
use crate::worked::{Ask, NEW, Row, Told};
use samples::accounts::transfer;
use std::process::Abort;
use std::sync::Wait;
use std::thread;
use std::thread::Threads;
use striped_map::{Caller, Host, Stop};
use txn_words::Op;

/// Returns false if both accounts are the same. Otherwise makes the transfer, and returns what
/// `transfer` returns.
fn moved(caller: &mut Caller, tries: u64, from: u64, to: u64, sum: u64) -> Result<bool, Stop> {
    if from == to {
        return Ok(false);
    }
    transfer(caller, tries, from, to, sum)
}

/// Moves 10 from account 1 to account 2, with as many tries as it takes.
fn must_move<R: Abort>(rt: &R, caller: &mut Caller) {
    let is_moved = moved(caller, u64::MAX, 1, 2, 10);
    assert!(rt; is_moved == Ok(true));
}

/// The first caller tries once to move 10 from account 1 to account 2. The answer must be `wanted`.
fn asks<R: Abort>(rt: &R, home: &mut Home, wanted: Result<bool, Stop>) {
    assert!(rt; 0 < home.callers.len());
    let is_moved = moved(&mut home.callers[0], 0, 1, 2, 10);
    assert!(rt; is_moved == wanted);
}

/// Account 1 gets 10, and account 3 gets the largest sum that an account can have.
pub(crate) const FILLED: &[Row] = &[
    (0, Ask::Begin, Told::Done),
    (0, Ask::Do(Op::Put(1, 10)), NEW),
    (0, Ask::Do(Op::Put(3, u64::MAX)), NEW),
    (0, Ask::Commit, Told::Number(1)),
];

/// A caller puts 15 in account 1 and does not commit, so it holds the stripe of this account.
fn holds<R: Abort>(rt: &R, home: &mut Home, place: usize) {
    play(rt, home, &[(place, Ask::Begin, Told::Done)]);
    play(rt, home, &[(place, Ask::Do(Op::Put(1, 15)), NEW)]);
}

/// Caller 2 holds the stripe of account 1 until it commits. Until then caller 1's transfer is busy.
/// After the commit the transfer is made.
fn play_busy<R: Abort>(rt: &R, home: &mut Home) {
    holds(rt, home, 1);
    asks(rt, home, Err(Stop::Busy { holder: 2 }));
    play(rt, home, &[(1, Ask::Commit, Told::Number(1))]);
    asks(rt, home, Ok(true));
    leaves(rt, home, &[(1, 5), (2, 10)]);
}

#[test]
fn busy_to_the_end_of_the_holder(rt: HostRuntime) {
    play_busy(&rt, &mut open(&rt, rt.alloc(), 4, 2));
}

/// The caller at place 0 commits after a while. Meanwhile the other caller moves 10.
pub(crate) fn take_part<R: Abort>(rt: &R, caller: &mut Caller, place: usize) {
    if place > 0 {
        return must_move(rt, caller);
    }
    for _ in 0..1000u64 {
        thread::yield_now();
    }
    let told = answer(caller, Ask::Commit);
    assert!(rt; told == Told::Number(1));
}

/// Caller 1 holds the stripe of account 1. Then both callers run `take_part` in their threads.
fn play_waiting<R: Threads + Wait + Abort + Sync>(rt: &R, home: &mut Home) {
    holds(rt, home, 0);
    in_threads(rt, home.callers.as_mut_slice(), Work::TakesPart);
    leaves(rt, home, &[(1, 5), (2, 10)]);
}

/// A transfer that finds a stripe busy ends its transaction, and begins again until the stripe is
/// free.
#[test]
fn busy_tries_again(rt: HostRuntime) {
    play_waiting(&rt, &mut open(&rt, rt.alloc(), 4, 2));
}

/// How many accounts the threads share. `FIRST` is what each account has at first.
const ACCOUNTS: u64 = 8;

const FIRST: u64 = 100;

/// Puts `FIRST` in each account.
fn fill<R: Abort>(rt: &R, home: &mut Home) {
    play(rt, home, &[(0, Ask::Begin, Told::Done)]);
    for account in 0..ACCOUNTS {
        play(rt, home, &[(0, Ask::Do(Op::Put(account, FIRST)), NEW)]);
    }
    play(rt, home, &[(0, Ask::Commit, Told::Number(1))]);
}

/// Moves sums between accounts; accounts and sums look random. No transfer may end in an error.
pub(crate) fn move_many<R: Abort>(rt: &R, caller: &mut Caller, seed: u64) {
    let mut dice = seed;
    for _ in 0..1000u64 {
        dice = dice.wrapping_mul(6_364_136_223_846_793_005).wrapping_add(1);
        let (from, to) = (dice >> 33 & 7, dice >> 40 & 7);
        let is_moved = moved(caller, u64::MAX, from, to, dice >> 50 & 31);
        assert!(rt; is_moved.is_ok());
    }
}

/// The sum of all accounts, or `None` if it cannot be read or is 2^64 or more.
fn total(host: &mut Host) -> Option<u64> {
    let mut sum = 0u64;
    for (_, has) in host.pairs().ok()? {
        sum = sum.checked_add(has)?;
    }
    Some(sum)
}

/// Fills the accounts, moves sums in threads, and checks the total.
fn play_sums<R: Threads + Wait + Abort + Sync>(rt: &R, home: &mut Home) {
    fill(rt, home);
    in_threads(rt, home.callers.as_mut_slice(), Work::Moves);
    home.callers.clear();
    assert!(rt; total(&mut home.host) == Some(800));
}

/// Whatever four threads move, the sum of all accounts stays the same.
#[test]
fn sum_stays(rt: HostRuntime) {
    play_sums(&rt, &mut open(&rt, rt.alloc(), 16, 4));
}
