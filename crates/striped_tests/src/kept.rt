//! What maps keep: nothing, their commits, or their entries. The history that a host hands out is
//! judged by `history_check`. How many transactions it commits was worked out by hand.
ghost use Rattle.std.specs.Prelude.{◌≡◌};

use crate::calls::answer;
use crate::meets::{merge, moves_three, with_host};
use crate::worked::Ask;
use history_check::{Checker, Verdict};
use std::alloc::{AllocError, Global};
use std::process::Abort;
use std::thread;
use std::thread::Threads;
use striped_map::{Caller, Host, Keep, NoHistory, Opening};
use txn_words::{Entry, Holder, Op};

/// Fills account 1 and commits. Then changes a key twice, goes back, changes it again, and aborts.
/// Returns the caller.
fn takes_part(mut caller: Caller) -> Caller
    ensures same_map { result.map.value ≡ caller.map.value }
{
    let one = &mut caller;
    answer(one, Ask::Begin);
    answer(one, Ask::Do(Op::Put(1, 100)));
    answer(one, Ask::Commit);
    answer(one, Ask::Begin);
    answer(one, Ask::Do(Op::Put(9, 1)));
    answer(one, Ask::Save);
    answer(one, Ask::Do(Op::Take(9)));
    answer(one, Ask::Back(1));
    answer(one, Ask::Do(Op::Put(9, 2)));
    answer(one, Ask::Abort);
    caller
}

/// Makes nine transfers, one after the other. Returns the caller.
fn moves_nine(caller: Caller) -> Caller
    ensures same_map { result.map.value ≡ caller.map.value }
{
    let caller = moves_three(moves_three(moves_three(caller)));
    let caller = moves_three(moves_three(moves_three(caller)));
    moves_three(moves_three(moves_three(caller)))
}

/// Two callers make nine transfers each, in threads. Returns both.
fn from_threads<R: Threads>(rt: &R, one: Caller, other: Caller) -> (Caller, Caller)
    ensures one { result.0.map.value ≡ one.map.value }
    ensures other { result.1.map.value ≡ other.map.value }
{
    thread::join(
        rt,
        move || -> Caller
            ensures same_map { result.map.value ≡ one.map.value }
        { moves_nine(one) },
        move || -> Caller
            ensures same_map { result.map.value ≡ other.map.value }
        { moves_nine(other) },
    )
}

/// How many transactions a history commits, if it is legal and no transaction is open at its end.
fn commits_in(alloc: Global, entries: &[Entry]) -> Result<Option<u64>, AllocError> {
    let mut checker = Checker::new(alloc, 4, Holder::Begun)?;
    for entry in entries {
        if entry.caller() >= 64 {
            return Ok(None);
        }
        checker.feed(entry)?;
    }
    match checker.verdict() {
        Verdict::Legal {
            commits,
            running: 0,
        } => Ok(Some(commits)),
        _ => Ok(None),
    }
}

/// The host hands out a legal history with this number of commits.
pub(crate) fn hands_out<R: Abort>(rt: &R, alloc: Global, host: &mut Host, wanted: u64) {
    let history = host.history();
    assert!(rt; history.is_ok());
    if let Ok(entries) = history {
        let commits = commits_in(alloc, entries.as_slice());
        assert!(rt; commits == Ok(Some(wanted)));
    }
}

/// The host hands out no history, for this reason.
pub(crate) fn hands_out_nothing<R: Abort>(rt: &R, host: &mut Host, why: NoHistory)
    ensures map { host.new.map ≡ host.old.map }
{
    let history = host.history();
    assert!(rt; matches!(history, Err(found) if found == why));
}

/// Two callers make nine transfers each in threads, and are merged.
fn moves_and_merges<R: Abort + Threads>(rt: &R, host: &mut Host, one: Caller, other: Caller)
    requires one { one.map.value ≡ host.old.map.value }
    requires other { other.map.value ≡ host.old.map.value }
    ensures map { host.new.map ≡ host.old.map }
{
    let (one, other) = from_threads(rt, one, other);
    merge(rt, host, one);
    merge(rt, host, other);
}

/// The history is handed out once each caller was merged, and as often as it is asked for.
fn merges_all<R: Abort + Threads>(
    rt: &R,
    alloc: Global,
    host: &mut Host,
    one: Caller,
    other: Caller,
    third: Caller,
)
    requires one { one.map.value ≡ host.old.map.value }
    requires other { other.map.value ≡ host.old.map.value }
    requires third { third.map.value ≡ host.old.map.value }
{
    let third = takes_part(third);
    moves_and_merges(rt, host, one, other);
    merge(rt, host, third);
    hands_out(rt, alloc, host, 19);
    hands_out(rt, alloc, host, 19);
}

#[test]
fn a_kept_history_is_legal(rt: HostRuntime) {
    let (mut host, one, other, third) = with_host(&rt, rt.alloc(), Keep::Entries);
    merges_all(&rt, rt.alloc(), &mut host, one, other, third);
}

/// The caller at a place commits a put of its own key. If it is the one that stays in a transaction,
/// it then begins another, and changes the key again.
fn puts_its_key(caller: &mut Caller, key: u64, is_open: bool) {
    answer(caller, Ask::Begin);
    answer(caller, Ask::Do(Op::Put(key, 1)));
    answer(caller, Ask::Commit);
    if is_open {
        answer(caller, Ask::Begin);
        answer(caller, Ask::Do(Op::Put(key, 2)));
    }
}

/// Callers are dropped in an order, each by its place among those that are left. While one lives,
/// the history is missing one, after that it has a commit of each.
fn dropped_in_order<R: Abort>(rt: &R, alloc: Global, order: &[usize], open: usize) {
    let mut opening = Opening::new(4, order.len());
    opening.keep = Keep::Entries;
    let (mut host, mut callers) = opening.open(alloc).expect(rt, "a map");
    for place in 0..callers.len() {
        assert!(rt; place < callers.len());
        puts_its_key(&mut callers[place], place as u64, place == open);
    }
    for place in order {
        let history = host.history();
        assert!(rt; matches!(history, Err(NoHistory::Missing(_))));
        assert!(rt; *place < callers.len());
        drop(callers.remove(*place));
    }
    hands_out(rt, alloc, &mut host, order.len() as u64);
    hands_out(rt, alloc, &mut host, order.len() as u64);
}

/// Three callers are dropped in each order, one of them in a transaction, or none.
#[test]
fn dropped_in_every_order(rt: HostRuntime) {
    for first in 0..3usize {
        for second in 0..2usize {
            for open in 0..4usize {
                dropped_in_order(&rt, rt.alloc(), &[first, second, 0], open);
            }
        }
    }
}

/// Moves 3 from account 1 to account 2, makes another caller, and is dropped; nine times in all, each
/// time by the caller that was made. The last is dropped in a transaction.
fn passes_on<R: Abort>(rt: &R, alloc: Global, caller: Caller) {
    let mut caller = caller;
    for _ in 0..9 {
        caller = moves_three(caller);
        caller = caller.another(alloc).expect(rt, "another caller");
    }
    answer(&mut caller, Ask::Begin);
    answer(&mut caller, Ask::Do(Op::Put(3, 3)));
}

/// Two threads make callers and drop them. The third caller is merged, or dropped.
fn dropped_in_threads<R: Abort + Threads + Sync>(rt: &R, alloc: Global, is_merged: bool) {
    let (mut host, one, other, third) = with_host(rt, alloc, Keep::Entries);
    let third = takes_part(third);
    thread::join(
        rt,
        move || passes_on(rt, alloc, one),
        move || passes_on(rt, alloc, other),
    );
    hands_out_nothing(rt, &mut host, NoHistory::Missing(3));
    if is_merged {
        merge(rt, &mut host, third);
    } else {
        drop(third);
    }
    hands_out(rt, alloc, &mut host, 19);
}

#[test]
fn callers_are_dropped_in_threads(rt: HostRuntime) {
    for is_merged in [false, true] {
        dropped_in_threads(&rt, rt.alloc(), is_merged);
    }
}

/// A map that does not keep its entries hands out no history.
#[test]
fn nothing_is_kept(rt: HostRuntime) {
    for keep in [Keep::Nothing, Keep::Commits] {
        let (mut host, _one, _other, _third) = with_host(&rt, rt.alloc(), keep);
        hands_out_nothing(&rt, &mut host, NoHistory::NotKept);
    }
}
