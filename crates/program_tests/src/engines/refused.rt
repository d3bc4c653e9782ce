//! A caller of a core acts at its cursor after another caller's step was refused memory. The test
//! calls the core and not an engine, since an engine does not show the core between its steps. What
//! else a step leaves that is refused memory is tested in `cores::refused` of `core_tests`.

use boost_core::Core;
use std::alloc::Global;
use std::process::Abort;
use std::test::Fail;
use txn_words::{Answer, Limits, Op, Refusal, Step};

/// How often a call is tried before memory counts as refused permanently. `tests/refused.py`
/// refuses either all allocations, or fewer than this number in a row.
const TRIES: usize = 9;

const NO_MEMORY: Answer = Answer::Refused(Refusal::NoMemory);

/// Returns true if memory is refused at this moment.
fn is_refused(alloc: Global) -> bool {
    Box::new(alloc, 0).is_err()
}

/// Makes a core with these limits. Returns `None` if memory is refused in all of `TRIES` attempts.
fn core_if_made(alloc: Global, limits: Limits) -> Option<Core> {
    for _ in 0..TRIES {
        if let Ok(core) = Core::new(alloc, limits) {
            return Some(core);
        }
    }
    None
}

/// Takes a step on a core whose stripes are not words.
fn take(rt: &impl Abort, core: &mut Core, step: Step) -> Answer {
    assert!(rt; !core.words());
    core.step(step)
}

/// Aborts the caller's transaction.
fn abort(core: &mut Core, caller: u64) -> Answer {
    core.abort(caller)
}

/// Takes a step, and returns the answer. Returns `None` if memory is refused in all of `TRIES`
/// attempts.
fn answer_if_given(rt: &impl Abort, core: &mut Core, step: Step) -> Option<Answer> {
    for _ in 0..TRIES {
        let answer = take(rt, core, step);
        if answer != NO_MEMORY {
            return Some(answer);
        }
    }
    None
}

/// A caller begins, asks for an operation, and seeks. Returns the answer to the seek, or `None` if
/// memory is refused.
fn placed_if_given(rt: &impl Abort, core: &mut Core, caller: u64, op: Op) -> Option<Answer> {
    let began = answer_if_given(rt, core, Step::Begin(caller))?;
    assert!(rt; matches!(began, Answer::Began(_)));
    let asked = answer_if_given(rt, core, Step::Ask(caller, op))?;
    assert!(rt; asked == Answer::Asked);
    Some(take(rt, core, Step::Seek(caller)))
}

/// The number of entries in the history.
fn length_of(core: &Core) -> usize {
    core.trace().len()
}

/// The steps that caller 1 takes between the seek and the act of caller 0.
const BESIDE: &[Step] = &[Step::Begin(1), Step::Ask(1, Op::Put(2, 20))];

/// Caller 0 seeks the position of its put. Then caller 1 takes `step`, and after this caller 0
/// acts.
fn act_beside(rt: &impl Abort, alloc: Global, core: &mut Core, step: Step) {
    let placed = placed_if_given(rt, core, 0, Op::Put(1, 10));
    if placed.is_none() {
        assert!(rt; is_refused(alloc));
        assert!(rt; matches!(abort(core, 0), Answer::Aborted | Answer::Refused(_)));
        return;
    }
    assert!(rt; placed == Some(Answer::Placed));
    let length = length_of(core);
    if take(rt, core, step) == NO_MEMORY {
        assert!(rt; length_of(core) == length);
    }
    assert!(rt; take(rt, core, Step::Act(0)) == Answer::Done(None));
    assert!(rt; abort(core, 0) == Answer::Aborted);
}

/// Does `act_beside` with each step of `BESIDE`.
fn play_beside(rt: &impl Abort, alloc: Global, core: &mut Core) {
    for step in BESIDE {
        act_beside(rt, alloc, core, *step);
    }
}

/// This test is meant to be run with allocations refused: one allocation, eight in a row, or every
/// allocation from some point on. Caller 0 has sought the position of its put when a step of caller
/// 1 is refused memory. The cursor of caller 0 is still valid, so caller 0 acts without another
/// seek.
#[test]
fn a_cursor_stands_beside_a_refusal(rt: HostRuntime) -> Result<(), Fail> {
    match core_if_made(rt.alloc(), Limits::new(2, 8, 8)?) {
        Some(mut core) => play_beside(&rt, rt.alloc(), &mut core),
        None => assert!(rt; is_refused(rt.alloc())),
    }
    Ok(())
}
