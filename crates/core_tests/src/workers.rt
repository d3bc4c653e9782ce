//! Workers of `script_worker` that run scripts, step by step, without a core. The contracts say
//! that a worker follows `specs/Workers.antt`. The cases were made by hand and test what the
//! definitions in that file mean. Each case is played twice: with `turn` and `told`, and with
//! `take_turn`.
use script_worker::{Finish, Worker};
use std::alloc::{AllocError, Global};
use std::process::Abort;
use std::test::Fail;
use txn_drive::Turn;
use txn_words::{Action, Answer, Limits, Op, Refusal, Script, Step};

/// One script for each of these lists of actions.
fn scripts_of(alloc: Global, scripts: &[&[Action]]) -> Result<Vec<Script>, AllocError> {
    let mut all = Vec::new(alloc);
    for script in scripts {
        all.push(Script::of_actions(alloc, script)?)?;
    }
    Ok(all)
}

/// The only worker, on a map that takes only half keys.
fn worker_of(scripts: &[Script]) -> Result<Worker, Fail> {
    let limits = Limits::new(1, 8, 8)?.half_keys();
    if limits.callers() < 1 {
        return Err("no such worker".into());
    }
    Ok(Worker::new(0, limits, scripts))
}

/// The script that the worker is running, or `None` if the worker is not live.
fn script_at(worker: &Worker) -> Option<usize> {
    if !worker.is_live() {
        return None;
    }
    worker.task().map(|task| task.script)
}

/// Returns true if the worker has a turn when the size of the table is 2.
fn has_turn(worker: &mut Worker) -> bool {
    worker.turn(2).is_some()
}

/// Takes the worker's next turn, which has one step, and gives the worker this answer to the step.
/// A script may be tried once more. Returns the step, and the outcome of the script if the script
/// has ended.
fn tell(worker: &mut Worker, scripts: &[Script], answer: Answer) -> (Option<Step>, Option<Finish>) {
    let step = match worker.turn(2) {
        Some(Turn::One(step)) => Some(step),
        _ => None,
    };
    (step, worker.told(scripts, 1, answer))
}

/// Takes the worker's next turn, in which each step has this answer. Returns the last step that the
/// worker takes, and the outcome of the script if the script has ended.
fn take_turn(
    worker: &mut Worker,
    scripts: &[Script],
    answer: Answer,
) -> (Option<Step>, Option<Finish>) {
    let mut taken = None;
    if !worker.is_live() {
        return (taken, None);
    }
    let mut step = |next| {
        taken = Some(next);
        answer
    };
    let outcome = worker.take_turn(2, scripts, 1, &mut step);
    (taken, outcome)
}

/// Each row has a step that the worker takes, its answer, the outcome of the script if the step
/// ends the script, and the script that the worker is running after the step.
type Row = (Step, Answer, Option<Finish>, Option<usize>);

/// Each case has the actions of each script, and the worker's steps.
type Case = (&'static [&'static [Action]], &'static [Row]);

/// The worker takes the step of this row, with `take_turn` if `by_take_turn` is true, and otherwise
/// with `turn` and `told`. The step and what follows from it must be as in the row.
fn takes(rt: &impl Abort, worker: &mut Worker, scripts: &[Script], row: &Row, by_take_turn: bool) {
    let (step, answer, ended, script) = *row;
    let (taken, outcome) = if by_take_turn {
        take_turn(worker, scripts, answer)
    } else {
        tell(worker, scripts, answer)
    };
    assert_eq!(rt; taken, Some(step));
    assert_eq!(rt; outcome, ended, "at {step:?}");
    assert_eq!(rt; script_at(worker), script, "after {step:?}");
}

/// A worker takes these steps. Afterwards it must have a turn exactly if it still has a script.
fn takes_all(
    rt: &impl Abort,
    worker: &mut Worker,
    scripts: &[Script],
    rows: &[Row],
    by_take_turn: bool,
) {
    assert_eq!(rt; script_at(worker), Some(0));
    for row in rows {
        takes(rt, worker, scripts, row, by_take_turn);
    }
    assert_eq!(rt; has_turn(worker), script_at(worker).is_some());
}

/// The worker of a case takes its steps.
fn play(rt: &impl Abort, alloc: Global, case: &Case, by_take_turn: bool) -> Result<(), Fail> {
    let scripts = scripts_of(alloc, case.0)?;
    let mut worker = worker_of(&scripts)?;
    takes_all(rt, &mut worker, &scripts, case.1, by_take_turn);
    Ok(())
}

const NOTHING: Answer = Answer::Refused(Refusal::NothingToSeek);

const NO_LEVEL: Answer = Answer::Refused(Refusal::NoSuchLevel);

const NO_MEMORY: Answer = Answer::Refused(Refusal::NoMemory);

/// Ends of scripts.
const COMMITTED: Option<Finish> = Some(Finish::Committed);

const ABORTED: Option<Finish> = Some(Finish::Aborted);

const BUSY: Option<Finish> = Some(Finish::Busy);

const OF_BAD_KEY: Option<Finish> = Some(Finish::Refused(Refusal::BadKey));

const OF_NO_LEVEL: Option<Finish> = Some(Finish::Refused(Refusal::NoSuchLevel));

const OF_NO_MEMORY: Option<Finish> = Some(Finish::Refused(Refusal::NoMemory));

/// The stripe is held by another caller. The script is tried once more, and then the next script
/// begins, which commits.
const HELD: Case = (
    &[&[Action::Op(Op::Get(1))], &[Action::Save]],
    &[
        (Step::Begin(0), Answer::Began(1), None, Some(0)),
        (Step::Ask(0, Op::Get(1)), Answer::Busy(1), None, Some(0)),
        (Step::Seek(0), NOTHING, None, Some(0)),
        (Step::Act(0), Answer::Aborted, None, Some(0)),
        (Step::Begin(0), Answer::Began(1), None, Some(0)),
        (Step::Ask(0, Op::Get(1)), Answer::Busy(1), None, Some(0)),
        (Step::Seek(0), NOTHING, None, Some(0)),
        (Step::Act(0), Answer::Aborted, BUSY, Some(1)),
        (Step::Begin(0), Answer::Began(2), None, Some(1)),
        (Step::Save(0), Answer::Saved(1), None, Some(1)),
        (Step::Commit(0), Answer::Committed(1), COMMITTED, None),
    ],
);

/// An abort ends the script, so later actions are not taken.
const ABORT: Case = (
    &[&[Action::Abort, Action::Save]],
    &[
        (Step::Begin(0), Answer::Began(1), None, Some(0)),
        (Step::Abort(0), Answer::Leaving, None, Some(0)),
        (Step::Seek(0), NOTHING, None, Some(0)),
        (Step::Act(0), Answer::Aborted, ABORTED, None),
    ],
);

/// A refused call aborts the transaction, and a refused begin ends the script. A `help` action whose
/// key is bad takes no step.
const REFUSED: Case = (
    &[
        &[Action::Help(1 << 63), Action::Save],
        &[Action::Back(1)],
        &[],
    ],
    &[
        (Step::Begin(0), Answer::Began(1), None, Some(0)),
        (Step::Abort(0), Answer::Leaving, None, Some(0)),
        (Step::Seek(0), NOTHING, None, Some(0)),
        (Step::Act(0), Answer::Aborted, OF_BAD_KEY, Some(1)),
        (Step::Begin(0), Answer::Began(2), None, Some(1)),
        (Step::Back(0, 1), NO_LEVEL, None, Some(1)),
        (Step::Abort(0), Answer::Leaving, None, Some(1)),
        (Step::Seek(0), NOTHING, None, Some(1)),
        (Step::Act(0), Answer::Aborted, OF_NO_LEVEL, Some(2)),
        (Step::Begin(0), NO_MEMORY, OF_NO_MEMORY, None),
    ],
);

#[test]
fn scripts_to_their_ends(rt: HostRuntime) -> Result<(), Fail> {
    for case in &[HELD, ABORT, REFUSED] {
        play(&rt, rt.alloc(), case, false)?;
        play(&rt, rt.alloc(), case, true)?;
    }
    Ok(())
}
