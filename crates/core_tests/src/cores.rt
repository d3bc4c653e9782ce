//! Worked runs on the core. Each run has tables of calls with their answers, and the pairs at the
//! end. The contracts say what each answer means, but allow a call to fail
//! for lack of memory. These runs fail in that case. The module `limits` plays its tables with the
//! functions here.
mod limits;
mod refused;
mod words;

use crate::devices::{
    back, core_of, core_with, has_map, help, is_history, limits_of, operate, pairs_of, run_step,
    sizes_of, step_is, take_step,
};
use crate::histories::entries_of;
use boost_core::Core;
use std::alloc::Global;
use std::process::Abort;
use std::test::Fail;
use txn_words::{Answer, Op, Refusal, Step};

/// A step that is taken with `step` or with `run`, or a plain call. If a call for help succeeds,
/// its answer here is `Ready`, like the answer to a step that finds the bucket initialised.
#[derive(Clone, Copy)]
enum Call {
    Step(Step),
    Run(Step),
    Op(u64, Op),
    Back(u64, u64),
    Help(u64, u64),
}

fn make_call(alloc: Global, core: &mut Core, call: Call) -> Result<Answer, Fail> {
    match call {
        Call::Step(step) => take_step(core, step),
        Call::Run(step) => run_step(alloc, core, step),
        Call::Op(caller, op) => operate(core, caller, op),
        Call::Back(caller, level) => Ok(back(core, caller, level)),
        Call::Help(caller, key) => match help(core, caller, key) {
            Ok(()) => Ok(Answer::Ready),
            Err(refusal) => Ok(Answer::Refused(refusal)),
        },
    }
}

/// Makes the call of this row. The call must return the row's answer.
fn call_is(
    rt: &impl Abort,
    alloc: Global,
    core: &mut Core,
    call: Call,
    wanted: Answer,
    row: usize,
) -> Result<(), Fail> {
    let answer = make_call(alloc, core, call)?;
    assert_eq!(rt; answer, wanted, "row {row}");
    Ok(())
}

fn play_calls(
    rt: &impl Abort,
    alloc: Global,
    core: &mut Core,
    lines: &[(Call, Answer)],
) -> Result<(), Fail> {
    for (row, (call, wanted)) in lines.iter().enumerate() {
        call_is(rt, alloc, core, *call, *wanted, row)?;
    }
    Ok(())
}

/// Checks that there are two buckets, that the list and the map have exactly these pairs, and that
/// the count is the number of these pairs.
fn has_pairs(
    rt: &impl Abort,
    alloc: Global,
    core: &Core,
    wanted: &[(u64, u64)],
) -> Result<(), Fail> {
    assert_eq!(rt; sizes_of(core), (2, wanted.len() as u64));
    let pairs = pairs_of(alloc, core)?;
    assert_eq!(rt; pairs.as_slice(), wanted);
    has_map(rt, alloc, core, wanted)
}

/// Returns twice to the first savepoint, and then to the beginning. Before the last return, a
/// return to the second savepoint is refused, because that savepoint no longer exists.
const SAVEPOINTS: [(Call, Answer); 13] = [
    (Call::Run(Step::Begin(0)), Answer::Began(1)),
    (Call::Op(0, Op::Put(1, 10)), Answer::Done(None)),
    (Call::Run(Step::Save(0)), Answer::Saved(1)),
    (Call::Op(0, Op::Put(1, 11)), Answer::Done(Some(10))),
    (Call::Run(Step::Save(0)), Answer::Saved(2)),
    (Call::Op(0, Op::Take(1)), Answer::Done(Some(11))),
    (Call::Back(0, 1), Answer::Returned(1)),
    (Call::Op(0, Op::Get(1)), Answer::Done(Some(10))),
    (Call::Back(0, 1), Answer::Returned(1)),
    (Call::Op(0, Op::Get(1)), Answer::Done(Some(10))),
    (Call::Back(0, 2), Answer::Refused(Refusal::NoSuchLevel)),
    (Call::Back(0, 0), Answer::Returned(0)),
    (Call::Op(0, Op::Get(1)), Answer::Done(None)),
];

const HISTORY_OF_SAVEPOINTS: &str = r#"["began",0,1],["asked",0,"put",1,10],["did",0,null],
    ["saved",0],["asked",0,"put",1,11],["did",0,10],["saved",0],["asked",0,"take",1],["did",0,11],
    ["leave",0,1],["undone",0],["undone",0],["returned",0,1],["asked",0,"get",1],["did",0,10],
    ["leave",0,1],["returned",0,1],["asked",0,"get",1],["did",0,10],["leave",0,0],["undone",0],
    ["returned",0,0],["asked",0,"get",1],["did",0,null],["committed",0,1]"#;

/// Makes the calls of the transaction of `examples/keys_of_64_bits.json`. A `PutIf` that expects
/// another value puts nothing.
const WIDE_KEYS: [(Call, Answer); 8] = [
    (Call::Step(Step::Begin(0)), Answer::Began(1)),
    (Call::Op(0, Op::Put(WIDE, 11)), Answer::Done(None)),
    (Call::Op(0, Op::Put(1, 10)), Answer::Done(None)),
    (Call::Op(0, Op::PutIf(1, None, 12)), Answer::Done(Some(10))),
    (
        Call::Op(0, Op::PutIf(1, Some(10), 12)),
        Answer::Done(Some(10)),
    ),
    (Call::Op(0, Op::PutIf(2, None, 20)), Answer::Done(None)),
    (Call::Op(0, Op::PutIf(3, Some(5), 6)), Answer::Done(None)),
    (Call::Op(0, Op::Put(u64::MAX, 7)), Answer::Done(None)),
];

/// 2^63 + 1, which shares its split key with 1.
const WIDE: u64 = 9_223_372_036_854_775_809;

const COMMITTED: [(Call, Answer); 1] = [(Call::Run(Step::Commit(0)), Answer::Committed(1))];

/// An abort takes back five changes.
const FIVE_UNDONE: [(Call, Answer); 12] = [
    (Call::Step(Step::Abort(0)), Answer::Leaving),
    (Call::Step(Step::Seek(0)), Answer::Placed),
    (Call::Step(Step::Act(0)), Answer::Undone),
    (Call::Step(Step::Seek(0)), Answer::Placed),
    (Call::Step(Step::Act(0)), Answer::Undone),
    (Call::Step(Step::Seek(0)), Answer::Placed),
    (Call::Step(Step::Act(0)), Answer::Undone),
    (Call::Step(Step::Seek(0)), Answer::Placed),
    (Call::Step(Step::Act(0)), Answer::Undone),
    (Call::Step(Step::Seek(0)), Answer::Placed),
    (Call::Step(Step::Act(0)), Answer::Undone),
    (Call::Step(Step::Act(0)), Answer::Aborted),
];

/// The pairs after `WIDE_KEYS`. Keys that share a split key are in rising order.
const WIDE_PAIRS: [(u64, u64); 4] = [(2, 20), (1, 12), (WIDE, 11), (u64::MAX, 7)];

/// Makes these calls, and then those that end the transaction. Checks the pairs afterwards.
fn play_run(
    rt: &impl Abort,
    alloc: Global,
    core: &mut Core,
    lines: &[(Call, Answer)],
    end: &[(Call, Answer)],
    pairs: &[(u64, u64)],
) -> Result<(), Fail> {
    play_calls(rt, alloc, core, lines)?;
    play_calls(rt, alloc, core, end)?;
    has_pairs(rt, alloc, core, pairs)
}

/// Plays `SAVEPOINTS`, and checks the history too.
fn play_savepoints(rt: &impl Abort, alloc: Global, core: &mut Core) -> Result<(), Fail> {
    play_run(rt, alloc, core, &SAVEPOINTS, &COMMITTED, &[])?;
    let history = entries_of(alloc, HISTORY_OF_SAVEPOINTS)?;
    assert!(rt; is_history(core, &history));
    Ok(())
}

/// Plays a run on a new small core. One core in a function: each one that is dropped is slow to
/// prove.
fn play_new(
    rt: &impl Abort,
    alloc: Global,
    end: &[(Call, Answer)],
    pairs: &[(u64, u64)],
) -> Result<(), Fail> {
    play_run(
        rt,
        alloc,
        &mut small_core(rt, alloc),
        &WIDE_KEYS,
        end,
        pairs,
    )
}

#[test]
fn savepoints_on_a_small_core(rt: HostRuntime) -> Result<(), Fail> {
    play_savepoints(&rt, rt.alloc(), &mut small_core(&rt, rt.alloc()))
}

#[test]
fn keys_of_64_bits(rt: HostRuntime) -> Result<(), Fail> {
    play_new(&rt, rt.alloc(), &COMMITTED, &WIDE_PAIRS)?;
    play_new(&rt, rt.alloc(), &FIVE_UNDONE, &[])
}

/// Caller 0 begins the first transaction.
fn begin(rt: &impl Abort, core: &mut Core) -> Result<(), Fail> {
    step_is(rt, core, Step::Begin(0), Answer::Began(1))
}

/// A core for one caller, with 8 stripes and at most 8 buckets.
fn small_core(rt: &impl Abort, alloc: Global) -> Core {
    core_of(rt, alloc, 1)
}

/// A core for one caller, with 64 stripes and at most 65,536 buckets.
fn large_core(rt: &impl Abort, alloc: Global) -> Core {
    core_with(rt, alloc, limits_of(rt, 1, 64, 65_536))
}

/// Caller 0 takes back its newest change, which is the put of `key`. After this, exactly the lower
/// keys must remain.
fn undo_newest(rt: &impl Abort, alloc: Global, core: &mut Core, key: u64) -> Result<(), Fail> {
    step_is(rt, core, Step::Seek(0), Answer::Placed)?;
    step_is(rt, core, Step::Act(0), Answer::Undone)?;
    let pairs = pairs_of(alloc, core)?;
    assert_eq!(rt; (pairs.len() as u64).wrapping_add(1), key);
    for pair in &pairs {
        assert!(rt; pair.0 < key, "{pair:?} before {key}");
    }
    Ok(())
}

/// Caller 0 takes back nine changes.
fn undo_nine(rt: &impl Abort, alloc: Global, core: &mut Core) -> Result<(), Fail> {
    for left in 0..9 {
        undo_newest(rt, alloc, core, 9u64.wrapping_sub(left))?;
    }
    Ok(())
}

/// Caller 0 puts a key that the core does not have.
fn put(rt: &impl Abort, core: &mut Core, key: u64) -> Result<(), Fail> {
    assert_eq!(rt; operate(core, 0, Op::Put(key, key))?, Answer::Done(None));
    Ok(())
}

/// Caller 0 puts the keys from 1 to 9.
fn put_nine(rt: &impl Abort, core: &mut Core) -> Result<(), Fail> {
    for key in 1..10 {
        put(rt, core, key)?;
    }
    Ok(())
}

/// Caller 0 begins, puts nine keys and aborts.
fn put_and_undo_nine(rt: &impl Abort, alloc: Global, core: &mut Core) -> Result<(), Fail> {
    begin(rt, core)?;
    put_nine(rt, core)?;
    step_is(rt, core, Step::Abort(0), Answer::Leaving)?;
    undo_nine(rt, alloc, core)?;
    step_is(rt, core, Step::Act(0), Answer::Aborted)?;
    has_pairs(rt, alloc, core, &[])
}

/// Takes back nine changes of one transaction. Eight of them fit into the caller's log without an
/// allocation. Each change that is taken back removes the newest key, and the earlier keys remain.
#[test]
fn nine_undone_newest_first(rt: HostRuntime) -> Result<(), Fail> {
    let alloc = rt.alloc();
    put_and_undo_nine(&rt, alloc, &mut small_core(&rt, alloc))
}

/// The caller calls for help with the key. The call must have this result.
fn help_is(
    rt: &impl Abort,
    core: &mut Core,
    caller_and_key: (u64, u64),
    wanted: Result<(), Refusal>,
) {
    let helped = help(core, caller_and_key.0, caller_and_key.1);
    assert_eq!(rt; helped, wanted, "for {caller_and_key:?}");
}

/// Caller 0 puts this number of keys, and calls for help before each put.
fn put_helped(rt: &impl Abort, core: &mut Core, keys: u64) -> Result<(), Fail> {
    for key in 0..keys {
        help_is(rt, core, (0, key), Ok(()));
        put(rt, core, key)?;
    }
    Ok(())
}
