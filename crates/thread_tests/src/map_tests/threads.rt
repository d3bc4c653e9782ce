//! Tests with callers in threads, one after the other or all at the same time. By the contracts,
//! each call may be refused. Here no call is refused. If the callers run one after the other, there
//! is one possible history, which was worked out by hand. If they run at the same time, the history
//! depends on the threads. The checker then only judges it.
ghost use Rattle.std.specs.Prelude.{◌≡◌};

use super::rows::{DONE, play_row};
use crate::devices::{
    Shared, callers_in, closed_of, has_seen, is_history, is_settled, number_of, open, run,
};
use boost_core::{Call, End};
use locked_map::{Caller, Closed, NoSide};
use std::alloc::Global;
use std::marker::Brand;
use std::process::Abort;
use std::sync::Wait;
use std::sync::ledger::{Blank, Ledger};
use std::test::Fail;
use std::thread;
use std::thread::Threads;
use txn_words::{Answer, Entry, Limits, Op};

/// The work of a map's callers in their threads.
#[derive(Clone, Copy)]
enum Plan {
    /// Each caller makes its calls of `TWO_IN_TURN`. A caller's thread begins when the thread of
    /// the previous caller has ended.
    InTurn,
    /// All callers make calls at the same time: calls that look random, made from this seed.
    AtOnce(u64),
}

/// The calls of `two_threads_in_turn`: those of caller 0, then those of caller 1.
static TWO_IN_TURN: [[(Call, End); 3]; 2] = [
    [
        (Call::Begin, End::Answered(Answer::Began(1))),
        (Call::Op(Op::Put(6, 60)), DONE),
        (Call::Commit, End::Answered(Answer::Committed(1))),
    ],
    [
        (Call::Begin, End::Answered(Answer::Began(2))),
        (Call::Op(Op::Get(6)), End::Answered(Answer::Done(Some(60)))),
        (Call::Commit, End::Answered(Answer::Committed(2))),
    ],
];

/// The calls of the caller with this number.
fn calls_of(number: u64) -> &'static [(Call, End)] {
    match number {
        0 => &TWO_IN_TURN[0],
        _ => &TWO_IN_TURN[1],
    }
}

/// Makes these calls. Each must have its end.
fn play_own<L: Ledger, R: Wait + Abort>(
    rt: &R,
    shared: &Shared<L>,
    me: &mut Caller<L, NoSide>,
    calls: &[(Call, End)],
) {
    for &(call, wanted) in calls {
        play_row(rt, shared, me, call, wanted);
    }
}

/// Makes the calls of each caller in a thread. A thread begins when the previous one has ended.
fn work_in_turn<L: Ledger + Send + Sync, R: Threads + Wait + Abort + Sync>(
    rt: &R,
    shared: &Shared<L>,
    callers: &mut [Caller<L, NoSide>],
) {
    for me in callers {
        let calls = calls_of(number_of(me));
        thread::scope(thread::scope_env(), rt, |scope| {
            let started = scope.spawn(move || play_own(rt, shared, me, calls));
            assert!(rt; started.is_ok(), "a thread");
        });
    }
}

/// Numbers that look random.
#[derive(Drop)]
struct Dice {
    state: u64,
}

impl Dice {
    /// A number below `sides`, from a linear congruential generator.
    fn roll(&mut self, sides: u64) -> u64 {
        self.state = self
            .state
            .wrapping_mul(6_364_136_223_846_793_005)
            .wrapping_add(1_442_695_040_888_963_407);
        (self.state >> 33).checked_rem(sides).unwrap_or(0)
    }

    /// Returns a call for an open transaction.
    fn call(&mut self) -> Call {
        let key = self.roll(6);
        match self.roll(8) {
            0 | 1 | 2 => Call::Op(Op::Put(key, self.roll(100))),
            3 => Call::Op(Op::Take(key)),
            4 | 5 => Call::Op(Op::Get(key)),
            6 => Call::Save,
            _ => Call::Help(key),
        }
    }
}

/// Makes a call. `Err` has the end of a call that was refused or busy.
fn make<L: Ledger, R: Wait>(
    rt: &R,
    shared: &Shared<L>,
    me: &mut Caller<L, NoSide>,
    call: Call,
) -> Result<End, End> {
    match run(rt, shared, me, call) {
        end @ (End::Busy(_) | End::Refused(_)) => Err(end),
        end => Ok(end),
    }
}

/// Runs one transaction, in which no call may be refused. The transaction ends with a commit, with
/// an abort, or with a call that finds its stripe held.
fn transact<L: Ledger, R: Wait>(
    rt: &R,
    shared: &Shared<L>,
    me: &mut Caller<L, NoSide>,
    dice: &mut Dice,
) -> Result<End, End> {
    make(rt, shared, me, Call::Begin)?;
    for _ in 0..dice.roll(6) {
        make(rt, shared, me, dice.call())?;
    }
    match dice.roll(6) {
        0 => return make(rt, shared, me, Call::Abort),
        1 => {
            make(rt, shared, me, Call::Back(0))?;
        }
        _ => {}
    }
    make(rt, shared, me, Call::Commit)
}

/// Runs four transactions of a caller. Each must be committed or aborted, or must find a stripe
/// held.
fn work<L: Ledger, R: Wait + Abort>(
    rt: &R,
    shared: &Shared<L>,
    me: &mut Caller<L, NoSide>,
    seed: u64,
) {
    let mut dice = Dice { state: seed };
    for _ in 0..4 {
        let end = transact(rt, shared, me, &mut dice);
        assert!(rt; matches!(end, Ok(_) | Err(End::Busy(_))), "{end:?}");
    }
}

/// Runs `work` for each caller in a thread, all at the same time.
fn work_at_once<L: Ledger + Send + Sync, R: Threads + Wait + Abort + Sync>(
    rt: &R,
    shared: &Shared<L>,
    callers: &mut [Caller<L, NoSide>],
    seed: u64,
) {
    thread::scope(thread::scope_env(), rt, |scope| {
        for me in callers {
            let dice = seed.wrapping_add(me.number() << 32);
            let started = scope.spawn(move || work(rt, shared, me, dice));
            assert!(rt; started.is_ok(), "a thread");
        }
    });
}

/// Opens a map, and runs `work_and_close` with its callers.
fn play_under<L: Ledger + Send + Sync, R: Threads + Wait + Abort + Sync>(
    rt: &R,
    alloc: Global,
    blank: Blank,
    limits: Limits,
    what: Plan,
) -> Result<(), Fail>
    requires name { blank.name ≡ L.name }
    requires parts { blank.parts ≡ L.parts }
    requires one_each { blank.parts ≡ limits.callers }
{
    match open::<L>(alloc, blank, limits) {
        Some((shared, passes)) => {
            work_and_close(rt, alloc, shared, callers_in(rt, alloc, passes), what)
        }
        None => Err("no memory for a map".into()),
    }
}

/// Makes the calls of the plan, closes the map, and checks its history.
fn work_and_close<L: Ledger + Send + Sync, R: Threads + Wait + Abort + Sync>(
    rt: &R,
    alloc: Global,
    shared: Shared<L>,
    mut callers: Vec<Caller<L, NoSide>>,
    what: Plan,
) -> Result<(), Fail> {
    match what {
        Plan::InTurn => work_in_turn(rt, &shared, callers.as_mut_slice()),
        Plan::AtOnce(seed) => work_at_once(rt, &shared, callers.as_mut_slice(), seed),
    }
    looks_so(rt, alloc, &closed_of(rt, shared, callers), what)
}

/// Checks that the history is legal. For `InTurn`, also checks that the history is `IN_TURN`.
fn looks_so<L: Ledger, R: Abort>(
    rt: &R,
    alloc: Global,
    closed: &Closed<L, NoSide>,
    what: Plan,
) -> Result<(), Fail> {
    assert!(rt; is_settled(alloc, closed.core.trace(), 8)?);
    match what {
        Plan::InTurn => in_turn(rt, closed),
        Plan::AtOnce(_) => {}
    }
    Ok(())
}

/// Plays a plan on a new map, under a new ledger.
fn play<R: Threads + Wait + Abort + Sync>(
    rt: &R,
    alloc: Global,
    callers: u64,
    what: Plan,
) -> Result<(), Fail> {
    let limits = Limits::new(callers, 8, 8)?;
    let blank = Blank::new(u64::from(limits.callers()));
    play_under::<Brand, R>(rt, alloc, blank, limits, what)
}

/// The history of `two_threads_in_turn`.
static IN_TURN: [Entry; 8] = [
    Entry::Began(0, 1),
    Entry::Asked(0, Op::Put(6, 60)),
    Entry::Did(0, None),
    Entry::Committed(0, 1),
    Entry::Began(1, 2),
    Entry::Asked(1, Op::Get(6)),
    Entry::Did(1, Some(60)),
    Entry::Committed(1, 2),
];

/// Checks that the history is `IN_TURN`, and that each caller has seen its own half of it.
fn in_turn<L: Ledger, R: Abort>(rt: &R, closed: &Closed<L, NoSide>) {
    let callers = closed.callers.as_slice();
    assert!(rt; is_history(closed.core.trace(), IN_TURN.as_slice()));
    assert!(rt; has_seen(callers, 0, &IN_TURN[..4]));
    assert!(rt; has_seen(callers, 1, &IN_TURN[4..]));
}

/// Caller 0 puts 60 at key 6. Then caller 1 gets this value.
#[test]
fn two_threads_in_turn(rt: HostRuntime) -> Result<(), Fail> {
    play(&rt, rt.alloc(), 2, Plan::InTurn)
}

/// The seed of each run determines the number of callers, which is 2 to 8.
#[test]
fn a_thousand_runs(rt: HostRuntime) -> Result<(), Fail> {
    for seed in 0..1000 {
        play(&rt, rt.alloc(), 2 + seed % 7, Plan::AtOnce(seed))?;
    }
    Ok(())
}
