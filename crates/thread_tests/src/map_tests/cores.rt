//! Tests of a map's core after the map is closed. The contracts of a map do not say what its core
//! is like. Other modules test the calls of a map. In this module the core itself takes steps,
//! which show its buckets, its helpers and the nodes that are still to be swept. All steps are on
//! one thread.
use super::rows::{DONE, HAD, Row, play_rows};
use crate::devices::{Play, Shared, callers_in, closed_of, play_with};
use boost_core::{Call, Core, End};
use locked_map::Pass;
use std::alloc::Global;
use std::process::Abort;
use std::sync::Wait;
use std::sync::ledger::Ledger;
use std::test::Fail;
use txn_words::{Answer, Limits, Op, Refusal, Step};

/// Takes a step. If the step asks for an operation, takes no step and returns `None`.
pub(super) fn step(core: &mut Core, step: Step) -> Option<Answer> {
    match step {
        Step::Ask(..) => None,
        _ => Some(core.step(step)),
    }
}

/// Takes these steps, and compares the answer to each step with the wanted one.
fn play_steps<R: Abort>(rt: &R, core: &mut Core, steps: &[(Step, Answer)]) {
    for &(what, wanted) in steps {
        assert_eq!(rt; step(core, what), Some(wanted), "{what:?}");
    }
}

/// Each row has a step on the core of an unused map, and the answer to the step.
static FIRST_STEPS: [(Step, Answer); 7] = [
    (
        Step::InitLink(0),
        Answer::Refused(Refusal::HelperOutOfOrder),
    ),
    (
        Step::InitLink(1),
        Answer::Refused(Refusal::HelperOutOfOrder),
    ),
    (Step::Sweep, Answer::Clean),
    (Step::Double(2), Answer::Light),
    (Step::InitSeek(0, 0), Answer::Ready),
    (Step::InitSeek(0, 1), Answer::Placed),
    (Step::Begin(1), Answer::Began(1)),
];

/// Checks that a core is that of an unused map.
fn is_unused<R: Abort>(rt: &R, core: &mut Core) -> Result<(), Fail> {
    assert!(rt; core.limits() == Limits::new(2, 8, 8)?);
    assert!(rt; core.words() && core.trace().is_empty());
    assert_eq!(rt; core.count(), 0);
    play_steps(rt, core, FIRST_STEPS.as_slice());
    Ok(())
}

/// A map that is closed at once. Its core has two buckets and no node to sweep. No helper has
/// sought a place for a dummy node.
struct Unused;

impl Play for Unused {
    fn play<L: Ledger, R: Wait + Abort>(
        &self,
        rt: &R,
        alloc: Global,
        shared: Shared<L>,
        passes: Vec<Pass<L>>,
    ) -> Result<(), Fail> {
        let mut closed = closed_of(rt, shared, callers_in(rt, alloc, passes));
        is_unused(rt, &mut closed.core)
    }
}

#[test]
fn new_core(rt: HostRuntime) -> Result<(), Fail> {
    play_with(&rt, rt.alloc(), 2, &Unused)
}

/// A key is put and taken.
static TAKEN: [Row; 4] = [
    (0, Call::Begin, End::Answered(Answer::Began(1))),
    (0, Call::Op(Op::Put(1, 10)), DONE),
    (0, Call::Op(Op::Take(1)), HAD),
    (0, Call::Commit, End::Answered(Answer::Committed(1))),
];

/// Each row has a step and its answer. The first step sweeps the node of the taken key.
static SWEPT: [(Step, Answer); 3] = [
    (Step::Sweep, Answer::Swept),
    (Step::Sweep, Answer::Clean),
    (Step::Begin(0), Answer::Began(2)),
];

/// The node of a taken key is marked. No seek passes the node, so the core of the closed map still
/// has it.
struct Marked;

impl Play for Marked {
    fn play<L: Ledger, R: Wait + Abort>(
        &self,
        rt: &R,
        alloc: Global,
        shared: Shared<L>,
        passes: Vec<Pass<L>>,
    ) -> Result<(), Fail> {
        let mut callers = callers_in(rt, alloc, passes);
        play_rows(rt, &shared, callers.as_mut_slice(), TAKEN.as_slice());
        let mut closed = closed_of(rt, shared, callers);
        play_steps(rt, &mut closed.core, SWEPT.as_slice());
        Ok(())
    }
}

#[test]
fn marked_node_at_close(rt: HostRuntime) -> Result<(), Fail> {
    play_with(&rt, rt.alloc(), 1, &Marked)
}
