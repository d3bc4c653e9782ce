//! Callers catch up with one another here, on one thread and after they ran in threads, and are
//! merged into the host. `catch_up` and `take_in` require that both sides belong to the same map,
//! so the functions of this module have clauses that say so. The balances and the commit numbers
//! were worked out by hand, and do not depend on the order of the threads.
ghost use Rattle.std.specs.Prelude.{◌≡◌, ◌<◌, ℕ, length, HoldsAt};

use crate::calls::{Home, Line, asks, has_left, leaves, play};
use crate::transfers::FILLED;
use crate::worked::{Ask, NEW, Told};
use samples::accounts::transfer;
use std::alloc::Global;
use std::process::Abort;
use std::thread;
use std::thread::Threads;
use striped_map::{Caller, Host, Keep, Opening, Stop};
use txn_words::Op;

/// Opens a map with four stripes and three callers, which keeps this.
fn opened<R: Abort>(rt: &R, alloc: Global, keep: Keep) -> (Host, Vec<Caller>)
    ensures of { (place : ℕ) → place < length result.1.items
        → HoldsAt (λ c. c.map.value ≡ result.0.map.value) result.1.items place }
{
    let opening = Opening {
        stripes: 4,
        callers: 3,
        keys: 0,
        keep,
        seed: 0,
    };
    opening.open(alloc).expect(rt, "a map")
}

/// Takes the last of the callers, which are callers of the host's map.
fn last_of<R: Abort>(rt: &R, host: &Host, callers: &mut Vec<Caller>) -> Caller
    requires of { (place : ℕ) → place < length callers.old.items
        → HoldsAt (λ c. c.map.value ≡ host.now.map.value) callers.old.items place }
    ensures map { result.map.value ≡ host.now.map.value }
    ensures of { (place : ℕ) → place < length callers.new.items
        → HoldsAt (λ c. c.map.value ≡ host.now.map.value) callers.new.items place }
{
    callers.pop().expect(rt, "a caller")
}

/// Opens a map with three callers. Returns the map with its first caller, then the other two
/// callers.
pub(crate) fn three<R: Abort>(rt: &R, alloc: Global) -> (Home, Caller, Caller)
    ensures same_map { result.1.map.value ≡ result.2.map.value }
{
    let (host, mut callers) = opened(rt, alloc, Keep::Commits);
    let third = last_of(rt, &host, &mut callers);
    let second = last_of(rt, &host, &mut callers);
    (Home { host, callers }, second, third)
}

/// Checks that both transfers were made.
fn both_moved<R: Abort>(rt: &R, told: Result<(bool, bool), Stop>) {
    assert!(rt; matches!(told, Ok((true, true))));
}

/// Moves 3 from account 1 to account 2, with as many tries as it takes. Returns the caller.
pub(crate) fn moves_three(mut caller: Caller) -> Caller
    ensures same_map { result.map.value ≡ caller.map.value }
{
    let _ = transfer(&mut caller, u64::MAX, 1, 2, 3);
    caller
}

/// Does `moves_three` with each caller in its own thread, and returns both callers.
fn from_threads<R: Threads>(rt: &R, one: Caller, other: Caller) -> (Caller, Caller)
    requires same_map { one.map.value ≡ other.map.value }
    ensures same_map { result.0.map.value ≡ result.1.map.value }
{
    thread::join(
        rt,
        move || -> Caller
            ensures same_map { result.map.value ≡ one.map.value }
        { moves_three(one) },
        move || -> Caller
            ensures same_map { result.map.value ≡ other.map.value }
        { moves_three(other) },
    )
}

/// Each caller catches up with the other one. Then each caller moves 1 from account 2 to account
/// 1.
fn meet(one: &mut Caller, other: &mut Caller) -> Result<(bool, bool), Stop>
    requires same_map { one.old.map.value ≡ other.old.map.value }
{
    one.catch_up(other);
    other.catch_up(one);
    Ok((transfer(one, 0, 2, 1, 1)?, transfer(other, 0, 2, 1, 1)?))
}

/// Does `from_threads` and then `meet`, and drops both callers.
fn move_and_meet<R: Threads>(rt: &R, one: Caller, other: Caller) -> Result<(bool, bool), Stop>
    requires same_map { one.map.value ≡ other.map.value }
{
    let (mut one, mut other) = from_threads(rt, one, other);
    meet(&mut one, &mut other)
}

#[test]
fn callers_from_threads_meet(rt: HostRuntime) {
    let (mut home, second, third) = three(&rt, rt.alloc());
    play(&rt, &mut home, FILLED);
    both_moved(&rt, move_and_meet(&rt, second, third));
    leaves(&rt, &mut home, &[(1, 6), (2, 4), (3, u64::MAX)]);
}

/// Opens a map with four stripes and three callers, which keeps this. Returns its host and its callers.
pub(crate) fn with_host<R: Abort>(
    rt: &R,
    alloc: Global,
    keep: Keep,
) -> (Host, Caller, Caller, Caller)
    ensures first { result.1.map.value ≡ result.0.map.value }
    ensures second { result.2.map.value ≡ result.0.map.value }
    ensures third { result.3.map.value ≡ result.0.map.value }
{
    let (host, mut callers) = opened(rt, alloc, keep);
    let third = last_of(rt, &host, &mut callers);
    let second = last_of(rt, &host, &mut callers);
    let first = last_of(rt, &host, &mut callers);
    (host, first, second, third)
}

/// Merges a caller, which must be in no transaction.
pub(crate) fn merge<R: Abort>(rt: &R, host: &mut Host, caller: Caller)
    requires same_map { caller.map.value ≡ host.old.map.value }
    ensures map { host.new.map ≡ host.old.map }
{
    let merged = host.take_in(caller);
    assert!(rt; merged.is_ok());
}

/// Moves a sum from account 1 to account 2, in one try, with this outcome.
fn moves<R: Abort>(rt: &R, caller: &mut Caller, sum: u64, wanted: Result<bool, Stop>)
    ensures same_map { caller.new.map.value ≡ caller.old.map.value }
{
    let is_moved = transfer(caller, 0, 1, 2, sum);
    assert!(rt; is_moved == wanted);
}

/// The third caller makes the first commit.
const FILLS: &[Line] = &[
    (Ask::Begin, Told::Done),
    (Ask::Do(Op::Put(1, 10)), NEW),
    (Ask::Commit, Told::Number(1)),
];

/// The third caller fills account 1. The first caller moves 4 from it to account 2, and is merged.
fn merges_first<R: Abort>(rt: &R, host: &mut Host, mut first: Caller, third: &mut Caller)
    requires same_map { first.map.value ≡ host.old.map.value }
    ensures map { host.new.map ≡ host.old.map }
{
    asks(rt, third, FILLS);
    moves(rt, &mut first, 4, Ok(true));
    merge(rt, host, first);
    host.gather();
}

/// Commit 2 was that of the first caller. The host's `gather` has committed nothing and put
/// nothing, and it holds no stripe: the third caller gets every stripe, finds two pairs, and makes
/// commit 3. Its next transaction holds the stripe of account 1.
const HOLDS_ACCOUNT_1: &[Line] = &[
    (Ask::Begin, Told::Done),
    (Ask::Len, Told::Number(2)),
    (Ask::Do(Op::Get(2)), Told::Replied(Some(4))),
    (Ask::Commit, Told::Number(3)),
    (Ask::Begin, Told::Done),
    (Ask::Do(Op::Get(1)), Told::Replied(Some(6))),
];

/// The second caller meets the held stripe of account 1, gives up, and is merged. Then the host
/// looks at the history, while the third caller is in its transaction.
fn merges_second<R: Abort>(rt: &R, host: &mut Host, mut second: Caller, third: &mut Caller)
    requires same_map { second.map.value ≡ host.old.map.value }
{
    asks(rt, third, HOLDS_ACCOUNT_1);
    moves(rt, &mut second, 1, Err(Stop::Busy { holder: 3 }));
    merge(rt, host, second);
    host.gather();
}

/// The host cannot read the pairs while the third caller holds a stripe.
fn reads_nothing<R: Abort>(rt: &R, host: &mut Host) {
    let pairs = host.pairs();
    assert!(rt; matches!(pairs, Err(Stop::Busy { holder: 3 })));
}

/// Neither the second caller nor the host has committed, and the host's failed read has left no
/// stripe held: the third caller gets every stripe, and makes commit 4.
const COMMITS_FOURTH: &[Line] = &[
    (Ask::Do(Op::Put(3, 30)), NEW),
    (Ask::Len, Told::Number(3)),
    (Ask::Commit, Told::Number(4)),
];

/// The host has read the map without a commit, and holds no stripe.
const COMMITS_FIFTH: &[Line] = &[
    (Ask::Begin, Told::Done),
    (Ask::Len, Told::Number(3)),
    (Ask::Commit, Told::Number(5)),
];

#[test]
fn merged_callers_are_gathered(rt: HostRuntime) {
    let (mut host, first, second, mut third) = with_host(&rt, rt.alloc(), Keep::Commits);
    merges_first(&rt, &mut host, first, &mut third);
    merges_second(&rt, &mut host, second, &mut third);
    reads_nothing(&rt, &mut host);
    asks(&rt, &mut third, COMMITS_FOURTH);
    has_left(&rt, &mut host, &[(1, 6), (2, 4), (3, 30)]);
    host.gather();
    asks(&rt, &mut third, COMMITS_FIFTH);
}
