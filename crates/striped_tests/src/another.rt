//! Callers that other callers make, in threads and while transactions run. The numbers, balances
//! and commit numbers were worked out by hand, and do not depend on the order of the threads.
ghost use Rattle.std.specs.Prelude.{◌≡◌};

use crate::calls::{counted, leaves, open_as, play};
use crate::kept::{hands_out, hands_out_nothing};
use crate::meets::{merge, moves_three, with_host};
use crate::threads::{Work, in_threads};
use crate::worked::{Ask, NEW, Row, Told};
use samples::accounts::transfer;
use std::alloc::Global;
use std::process::Abort;
use std::thread;
use std::thread::Threads;
use striped_map::{Caller, Host, Keep, NoHistory};
use txn_words::{Op, Refusal};

/// Makes another caller, which moves 3 from account 1 to account 2, as does the caller then.
/// Returns both.
fn makes_one<R: Abort>(rt: &R, alloc: Global, mut caller: Caller) -> (Caller, Caller)
    ensures maker { result.0.map.value ≡ caller.map.value }
    ensures made { result.1.map.value ≡ caller.map.value }
{
    let made = caller.another(alloc).expect(rt, "another caller");
    (moves_three(caller), moves_three(made))
}

/// Does `makes_one` with each caller in its own thread. Returns the callers that were made.
fn make_in_threads<R: Abort + Threads + Sync>(
    rt: &R,
    alloc: Global,
    host: &mut Host,
    one: Caller,
    other: Caller,
) -> (Caller, Caller)
    requires one { one.map.value ≡ host.old.map.value }
    requires other { other.map.value ≡ host.old.map.value }
    ensures map { host.new.map ≡ host.old.map }
    ensures first { result.0.map.value ≡ host.old.map.value }
    ensures second { result.1.map.value ≡ host.old.map.value }
{
    let ((one, first), (other, second)) = thread::join(
        rt,
        move || -> (Caller, Caller)
            ensures maker { result.0.map.value ≡ one.map.value }
            ensures made { result.1.map.value ≡ one.map.value }
        { makes_one(rt, alloc, one) },
        move || -> (Caller, Caller)
            ensures maker { result.0.map.value ≡ other.map.value }
            ensures made { result.1.map.value ≡ other.map.value }
        { makes_one(rt, alloc, other) },
    );
    merge(rt, host, one);
    merge(rt, host, other);
    (first, second)
}

/// The history is handed out only once the callers that were made are merged too.
#[test]
fn made_callers_are_missed(rt: HostRuntime) {
    let (mut host, one, other, third) = with_host(&rt, rt.alloc(), Keep::Entries);
    let (first, second) = make_in_threads(&rt, rt.alloc(), &mut host, one, other);
    merge(&rt, &mut host, third);
    hands_out_nothing(&rt, &mut host, NoHistory::Missing(4));
    merge(&rt, &mut host, first);
    merge(&rt, &mut host, second);
    hands_out(&rt, rt.alloc(), &mut host, 4);
}

/// How many callers each thread makes and drops.
const COMERS: u64 = 2_000;

/// Makes and drops callers, one after the other. Each moves 1 from account 1 to account 2.
pub(crate) fn come_and_go<R: Abort>(rt: &R, alloc: Global, caller: &mut Caller) {
    for _ in 0..COMERS {
        let mut made = caller.another(alloc).expect(rt, "another caller");
        let is_moved = transfer(&mut made, u64::MAX, 1, 2, 1);
        assert!(rt; is_moved == Ok(true));
    }
}

/// Account 1 has enough for all moves.
const ENOUGH: &[Row] = &[
    (0, Ask::Begin, Told::Done),
    (0, Ask::Do(Op::Put(1, 10_000)), NEW),
    (0, Ask::Commit, Told::Number(1)),
];

/// Three threads made 2,000 callers each, and each of these committed once.
const ALL_MOVED: &[Row] = &[
    (0, Ask::Begin, Told::Done),
    (0, Ask::Commit, Told::Number(6_002)),
];

#[test]
fn callers_come_and_go(rt: HostRuntime) {
    let mut home = open_as(&rt, rt.alloc(), counted(4, 3));
    play(&rt, &mut home, ENOUGH);
    in_threads(&rt, &mut home.callers, Work::ComesAndGoes(rt.alloc()));
    play(&rt, &mut home, ALL_MOVED);
    leaves(&rt, &mut home, &[(1, 4_000), (2, 6_000)]);
}

/// Makes and drops all callers that the map has numbers for, and then none: a map that keeps its
/// entries gives out 2^16 numbers, of which the host and the first three callers have four.
fn makes_all<R: Abort>(rt: &R, alloc: Global, caller: &mut Caller) {
    for _ in 0..65_532 {
        assert!(rt; caller.another(alloc).is_ok());
    }
    assert!(rt; matches!(caller.another(alloc), Err(Refusal::Limit)));
}

/// All of them are in the history, once the others have ended too. Only the second caller has
/// transactions, two.
#[test]
fn the_numbers_are_used_up(rt: HostRuntime) {
    let (mut host, mut one, other, third) = with_host(&rt, rt.alloc(), Keep::Entries);
    makes_all(&rt, rt.alloc(), &mut one);
    let other = moves_three(moves_three(other));
    merge(&rt, &mut host, third);
    drop(one);
    hands_out_nothing(&rt, &mut host, NoHistory::Missing(2));
    drop(other);
    hands_out(&rt, rt.alloc(), &mut host, 2);
}
