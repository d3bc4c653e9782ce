//! Cores at their limits. The contracts allow any call that needs memory to fail for lack of
//! memory, so a core that always failed at a limit would meet its contracts. With enough memory, a
//! call at a limit must have the same answer as elsewhere.
use super::{Call, begin, help_is, large_core, play_calls, put, put_helped, small_core};
use crate::devices::{
    abort, back, core_with, has_map, limits_of, operate, pairs_of, run_steps, sizes_of, step_is,
};
use boost_core::Core;
use std::alloc::{AllocError, Global};
use std::process::Abort;
use std::test::Fail;
use txn_words::{Answer, Op, Refusal, Step};

/// Each row has a number of callers, of stripes and of buckets. Each of these numbers is the least
/// or the greatest that is allowed.
static SIZES: [(u64, u64, u64); 4] = [
    (1, 1, 2),
    (1, 4_096, 65_536),
    (64, 1, 65_536),
    (64, 4_096, 2),
];

/// The least and the greatest key, the two keys in the middle, and a key in the last stripe if
/// there are 4,096 stripes.
static KEYS: [u64; 5] = [
    0,
    4_095,
    9_223_372_036_854_775_807,
    9_223_372_036_854_775_808,
    18_446_744_073_709_551_615,
];

/// Each row has an operation on the key and its reply. There are operations of each kind, and puts
/// of the least and of the greatest value. The key is absent before the first operation, and the
/// last operation takes it.
fn operations_at(key: u64) -> [(Op, Option<u64>); 9] {
    [
        (Op::Get(key), None),
        (Op::Take(key), None),
        (Op::PutIf(key, Some(0), 1), None),
        (Op::PutIf(key, None, 0), None),
        (Op::Put(key, u64::MAX), Some(0)),
        (Op::PutIf(key, Some(u64::MAX), 0), Some(u64::MAX)),
        (Op::PutIf(key, Some(0), u64::MAX), Some(0)),
        (Op::Get(key), Some(u64::MAX)),
        (Op::Take(key), Some(u64::MAX)),
    ]
}

/// The caller does each operation of `operations_at` on this key, and must get the row's reply.
fn operations_are(rt: &impl Abort, core: &mut Core, caller: u64, key: u64) -> Result<(), Fail> {
    for (op, reply) in &operations_at(key) {
        let answer = operate(core, caller, *op)?;
        assert_eq!(rt; answer, Answer::Done(*reply), "at {op:?} of {caller}");
    }
    Ok(())
}

/// The caller does each operation of `operations_at` on each key of `KEYS`.
fn works_on_keys(rt: &impl Abort, core: &mut Core, caller: u64) -> Result<(), Fail> {
    for key in &KEYS {
        operations_are(rt, core, caller, *key)?;
    }
    Ok(())
}

/// Each caller runs a transaction and calls for help. Calls with the number after the last caller's
/// number are refused.
fn callers_work(rt: &impl Abort, core: &mut Core, callers: u64) -> Result<(), Fail> {
    let mut count: u64 = 0;
    for caller in 0..callers {
        count = count.wrapping_add(1);
        step_is(rt, core, Step::Begin(caller), Answer::Began(count))?;
        works_on_keys(rt, core, caller)?;
        help_is(rt, core, (caller, u64::MAX), Ok(()));
        step_is(rt, core, Step::Commit(caller), Answer::Committed(count))?;
    }
    let none = Answer::Refused(Refusal::NoSuchCaller);
    step_is(rt, core, Step::Begin(callers), none)?;
    help_is(rt, core, (callers, 0), Err(Refusal::NoSuchHelper));
    Ok(())
}

/// Makes a core of this size, and checks each of its callers (`callers_work`).
fn size_works(rt: &impl Abort, alloc: Global, size: (u64, u64, u64)) -> Result<(), Fail> {
    let limits = limits_of(rt, size.0, size.1, size.2);
    callers_work(rt, &mut core_with(rt, alloc, limits), size.0)
}

fn sizes_work(rt: &impl Abort, alloc: Global, rows: &[(u64, u64, u64)]) -> Result<(), Fail> {
    for size in rows {
        size_works(rt, alloc, *size)?;
    }
    Ok(())
}

/// Each caller does each operation on each key, at the least and the greatest limits.
#[test]
fn every_limit(rt: HostRuntime) -> Result<(), Fail> {
    sizes_work(&rt, rt.alloc(), &SIZES)
}

/// Caller 0 makes this number of savepoints, and puts one key before each.
fn save_all(rt: &impl Abort, core: &mut Core, levels: u64) -> Result<(), Fail> {
    let mut level: u64 = 0;
    for _ in 0..levels {
        level = level.wrapping_add(1);
        put(rt, core, level)?;
        step_is(rt, core, Step::Save(0), Answer::Saved(level))?;
    }
    Ok(())
}

/// Levels to return to, one after the other. After the return to level n, the core has n keys.
static LEVELS: [u64; 7] = [1_000, 999, 500, 11, 10, 1, 0];

fn levels_are(rt: &impl Abort, core: &mut Core, levels: &[u64]) -> Result<(), Fail> {
    begin(rt, core)?;
    save_all(rt, core, 1_000)?;
    for level in levels {
        let above = Answer::Refused(Refusal::NoSuchLevel);
        assert_eq!(rt; back(core, 0, level.wrapping_add(1_000)), above);
        assert_eq!(rt; back(core, 0, *level), Answer::Returned(*level));
        assert_eq!(rt; sizes_of(core).1, *level);
    }
    Ok(())
}

/// Makes a thousand savepoints, and returns to each level of `LEVELS`.
#[test]
fn levels_to_a_thousand(rt: HostRuntime) -> Result<(), Fail> {
    levels_are(&rt, &mut small_core(&rt, rt.alloc()), &LEVELS)
}

/// Caller 0 changes key 5 this number of times. The key's value is 0 at first, and each change adds
/// 1.
fn change_often(rt: &impl Abort, core: &mut Core, times: u64) -> Result<(), Fail> {
    let mut value: u64 = 0;
    for _ in 0..times {
        let next = value.wrapping_add(1);
        let expected = Op::PutIf(5, Some(value), next);
        assert_eq!(rt; operate(core, 0, expected)?, Answer::Done(Some(value)));
        value = next;
    }
    Ok(())
}

/// Numbers of jobs in a log: as many as fit into it without an allocation, one more, and very many.
static JOBS: [u64; 3] = [8, 9, 100_000];

/// Caller 0 changes key 5 `times` times in its transaction, and takes these changes back. The key's
/// value is 0 before.
fn jobs_are(rt: &impl Abort, core: &mut Core, times: u64) -> Result<(), Fail> {
    change_often(rt, core, times)?;
    assert_eq!(rt; operate(core, 0, Op::Get(5))?, Answer::Done(Some(times)));
    assert_eq!(rt; back(core, 0, 1), Answer::Returned(1));
    assert_eq!(rt; operate(core, 0, Op::Get(5))?, Answer::Done(Some(0)));
    Ok(())
}

fn logs_are(rt: &impl Abort, alloc: Global, core: &mut Core, rows: &[u64]) -> Result<(), Fail> {
    play_calls(rt, alloc, core, &FIRST_VALUE)?;
    for times in rows {
        jobs_are(rt, core, *times)?;
    }
    assert_eq!(rt; abort(core, 0), Answer::Aborted);
    assert_eq!(rt; sizes_of(core).1, 0);
    Ok(())
}

/// Caller 0 puts key 5 with the value 0, and makes a savepoint.
const FIRST_VALUE: [(Call, Answer); 3] = [
    (Call::Step(Step::Begin(0)), Answer::Began(1)),
    (Call::Op(0, Op::Put(5, 0)), Answer::Done(None)),
    (Call::Step(Step::Save(0)), Answer::Saved(1)),
];

/// Logs of up to 100,000 jobs.
#[test]
fn logs_to_100_000_jobs(rt: HostRuntime) -> Result<(), Fail> {
    let alloc = rt.alloc();
    logs_are(&rt, alloc, &mut small_core(&rt, alloc), &JOBS)
}

/// Adds this number of sweeps to `steps`.
fn add_sweeps(steps: &mut Vec<Step>, count: usize) -> Result<(), AllocError> {
    for _ in 0..count {
        steps.push(Step::Sweep)?;
    }
    Ok(())
}

/// Takes these steps with one call. All of them are sweeps, and no sweep may find a marked node.
fn run_sweeps(rt: &impl Abort, alloc: Global, core: &mut Core, steps: &[Step]) -> Result<(), Fail> {
    let answers = run_steps(alloc, core, steps)?;
    assert_eq!(rt; answers.len(), steps.len());
    assert!(rt; answers.iter().all(|answer| *answer == Answer::Clean));
    Ok(())
}

/// Takes this number of sweeps with one call. No sweep may find a marked node.
fn run_many(rt: &impl Abort, alloc: Global, core: &mut Core, count: usize) -> Result<(), Fail> {
    let mut steps = Vec::new(alloc);
    add_sweeps(&mut steps, count)?;
    run_sweeps(rt, alloc, core, &steps)
}

/// Checks that the list has this number of pairs, and that the map has exactly the list's pairs.
fn has_many(rt: &impl Abort, alloc: Global, core: &Core, count: usize) -> Result<(), Fail> {
    let pairs = pairs_of(alloc, core)?;
    assert_eq!(rt; pairs.len(), count);
    has_map(rt, alloc, core, &pairs)
}

/// Calls on bucket 63, which is the last bucket of its segment, on bucket 65,535, which is the last
/// bucket of the table, and on bucket 65,536, which does not exist.
const LAST_PLACE: [(Call, Answer); 7] = [
    (Call::Help(0, 63), Answer::Ready),
    (Call::Help(0, 65_535), Answer::Ready),
    (Call::Step(Step::InitSeek(0, 63)), Answer::Ready),
    (Call::Step(Step::InitSeek(0, 65_535)), Answer::Ready),
    (
        Call::Step(Step::InitSeek(0, 65_536)),
        Answer::Refused(Refusal::NoSuchBucket),
    ),
    (Call::Step(Step::Double(65_536)), Answer::AtLimit),
    (Call::Run(Step::Commit(0)), Answer::Committed(1)),
];

/// Puts 65,538 keys, while help lets the table grow to 65,536 buckets. Then takes more than 100,000
/// steps with one call.
fn fill_and_run(rt: &impl Abort, alloc: Global, core: &mut Core) -> Result<(), Fail> {
    begin(rt, core)?;
    put_helped(rt, core, 65_538)?;
    play_calls(rt, alloc, core, &LAST_PLACE)?;
    assert_eq!(rt; sizes_of(core), (65_536, 65_538));
    has_many(rt, alloc, core, 65_538)?;
    run_many(rt, alloc, core, 100_001)
}

/// The largest table, and a run of more than 100,000 steps on it.
#[test]
fn largest_table(rt: HostRuntime) -> Result<(), Fail> {
    let alloc = rt.alloc();
    fill_and_run(&rt, alloc, &mut large_core(&rt, alloc))
}

/// A call that asks for room for more entries than memory can hold is refused. A call that asks for
/// less room succeeds.
#[test]
fn room_for_entries(rt: HostRuntime) -> Result<(), Fail> {
    let alloc = rt.alloc();
    makes_room(&rt, &mut small_core(&rt, alloc))
}

/// Asks for no room, for some room and for too much room, before a transaction and in it.
fn makes_room(rt: &impl Abort, core: &mut Core) -> Result<(), Fail> {
    has_room(rt, core);
    begin(rt, core)?;
    has_room(rt, core);
    Ok(())
}

/// Asks for room for 0 and for 1,000 entries, which succeeds, and for 2^64 - 1 entries, which is
/// refused.
fn has_room(rt: &impl Abort, core: &mut Core) {
    assert!(rt; core.reserve(0).is_ok());
    assert!(rt; core.reserve(1_000).is_ok());
    assert!(rt; core.reserve(usize::MAX).is_err());
}
