//! Tests that run drives of calls turn by turn, without a core. A row has the steps of a call, the
//! answers that the call's drive is given, and the drive's end. The contracts say that a drive
//! follows `specs/Drives.antt` of `txn_drive`. The rows were made by hand and test what the
//! definitions in that file mean.
use std::process::Abort;
use txn_drive::{Call, Drive, End, Turn};
use txn_words::{Answer, Limits, Op, Refusal, Step};

/// A drive for this caller and this call.
fn drive_of(rt: &impl Abort, caller: u64, call: Call) -> Drive {
    let limits = Limits::new(64, 64, 64).expect(rt, "limits in range");
    Drive::new(caller, call, limits)
}

/// The drive's next turn, when the table has this size.
fn turn_at(drive: &mut Drive, size: u32) -> Turn {
    drive.turn(size)
}

/// Gives the drive an answer.
fn tell(drive: &mut Drive, answer: Answer) {
    drive.told(answer);
}

/// Turns of a drive, and the answers that the drive is given. The size of the table is 4, unless
/// the variant has a size.
#[derive(Clone, Copy)]
enum Turns {
    /// A turn with only this step, and the answer to the step.
    One(Step, Answer),
    /// A turn with only this step, at this size of the table, and the answer to the step.
    At(u32, Step, Answer),
    /// Two turns, repeated this number of times. The first turn has the first step, which is a seek
    /// and has the answer `Placed`. The second turn has the second step, whose answer is `Again`.
    Again(u32, Step, Step),
    /// A turn with both steps. The answer to the first step is `Placed`. The last field is the
    /// answer to the second step.
    Both(Step, Step, Answer),
}

/// The drive's next turn must have only this step. Then the drive is given this answer.
fn takes(rt: &impl Abort, drive: &mut Drive, size: u32, step: Step, answer: Answer) {
    assert_eq!(rt; turn_at(drive, size), Turn::One(step));
    tell(drive, answer);
}

/// Takes two turns this number of times. The turns must have the steps `seek` and `act`. The answer
/// to `seek` is `Placed`, and the answer to `act` is `Again`: the position no longer fits.
fn takes_again(rt: &impl Abort, drive: &mut Drive, times: u32, seek: Step, act: Step) {
    for _ in 0..times {
        takes(rt, drive, 4, seek, Answer::Placed);
        takes(rt, drive, 4, act, Answer::Again);
    }
}

/// The drive's next turn must be `both`. The answer to its first step is `Placed`, and the answer to
/// its second step is `answer`.
fn takes_both(rt: &impl Abort, drive: &mut Drive, both: Turn, answer: Answer) {
    assert_eq!(rt; turn_at(drive, 4), both);
    tell(drive, Answer::Placed);
    tell(drive, answer);
}

fn take_turns(rt: &impl Abort, drive: &mut Drive, turns: Turns) {
    match turns {
        Turns::One(step, answer) => takes(rt, drive, 4, step, answer),
        Turns::At(size, step, answer) => takes(rt, drive, size, step, answer),
        Turns::Again(times, seek, act) => takes_again(rt, drive, times, seek, act),
        Turns::Both(first, second, answer) => {
            takes_both(rt, drive, Turn::Two(first, second), answer);
        }
    }
}

/// Each row has a caller, its call, the turns of the call's drive, and the drive's end.
type Row = (u64, Call, &'static [Turns], End);

/// Each drive takes the turns of its row, and must then have ended with the row's end.
fn drive_rows(rt: &impl Abort, rows: &[Row]) {
    for (caller, call, turns, end) in rows {
        let mut drive = drive_of(rt, *caller, *call);
        for turn in turns.iter() {
            take_turns(rt, &mut drive, *turn);
        }
        assert_eq!(rt; turn_at(&mut drive, 8), Turn::Ended(*end), "of {call:?}");
    }
}

/// The turns of a put. Eight times, the put's position no longer fits when the drive acts. Then the
/// drive takes its last two steps in one turn.
const DRIVE_OF_A_PUT: &[Turns] = &[
    Turns::One(Step::Ask(0, Op::Put(2, 20)), Answer::Asked),
    Turns::Again(8, Step::Seek(0), Step::Act(0)),
    Turns::Both(Step::Seek(0), Step::Act(0), Answer::Done(None)),
];

/// A busy put takes back a change.
const BUSY_PUT: &[Turns] = &[
    Turns::One(Step::Ask(1, Op::Put(1, 11)), Answer::Busy(5)),
    Turns::One(Step::Seek(1), Answer::Placed),
    Turns::One(Step::Act(1), Answer::Undone),
    Turns::One(Step::Seek(1), Answer::Refused(Refusal::NothingToSeek)),
    Turns::One(Step::Act(1), Answer::Aborted),
];

/// A return to a savepoint.
const BACK: &[Turns] = &[
    Turns::One(Step::Back(2, 1), Answer::Leaving),
    Turns::One(Step::Seek(2), Answer::Placed),
    Turns::One(Step::Act(2), Answer::Undone),
    Turns::One(Step::Seek(2), Answer::Refused(Refusal::NothingToSeek)),
    Turns::One(Step::Act(2), Answer::Returned(1)),
];

/// A begin that is refused.
const REFUSED: &[Turns] = &[Turns::One(Step::Begin(7), Answer::Refused(Refusal::AlreadyOpen))];

/// The refusal `NothingToSeek` is not a possible answer to the seek of an operation.
const LOST_GET: &[Turns] = &[
    Turns::One(Step::Ask(0, Op::Get(9)), Answer::Asked),
    Turns::One(Step::Seek(0), Answer::Refused(Refusal::NothingToSeek)),
];

/// A helper initialises the ancestors of its bucket.
const OVER_ANCESTORS: &[Turns] = &[
    Turns::At(2, Step::Double(2), Answer::Doubled(4)),
    Turns::One(Step::InitSeek(5, 1), Answer::Placed),
    Turns::One(Step::InitLink(5), Answer::Linked),
    Turns::One(Step::InitStore(5), Answer::Stored),
    Turns::One(Step::InitSeek(5, 3), Answer::Placed),
    Turns::One(Step::InitLink(5), Answer::Present),
    Turns::One(Step::InitStore(5), Answer::Stored),
];

/// The helper doubles the table, and another caller then doubles it once more. The helper still
/// initialises the bucket that its key had after the first of these doublings.
const BY_ITS_SIZE: &[Turns] = &[
    Turns::At(2, Step::Double(2), Answer::Doubled(4)),
    Turns::At(8, Step::InitSeek(2, 1), Answer::Ready),
    Turns::At(8, Step::InitSeek(2, 3), Answer::Ready),
];

const DONE: End = End::Answered(Answer::Done(None));

const RETURNED: End = End::Answered(Answer::Returned(1));

const ROWS: [Row; 7] = [
    (0, Call::Op(Op::Put(2, 20)), DRIVE_OF_A_PUT, DONE),
    (1, Call::Op(Op::Put(1, 11)), BUSY_PUT, End::Busy(5)),
    (2, Call::Back(1), BACK, RETURNED),
    (7, Call::Begin, REFUSED, End::Refused(Refusal::AlreadyOpen)),
    (
        0,
        Call::Op(Op::Get(9)),
        LOST_GET,
        End::Refused(Refusal::OutOfStep),
    ),
    (5, Call::Help(3), OVER_ANCESTORS, End::Helped),
    (2, Call::Help(7), BY_ITS_SIZE, End::Helped),
];

#[test]
fn drives_of_calls(rt: HostRuntime) {
    drive_rows(&rt, &ROWS);
}

/// Takes a turn, in which each step has this answer. Returns the first two steps that the turn
/// takes.
fn taken_of(turn: Turn, answer: Answer) -> [Option<Step>; 2] {
    let mut taken = [None, None];
    let mut count = 0;
    turn.take(&mut |step| {
        if count < 2 {
            taken[count] = Some(step);
        }
        count += 1;
        answer
    });
    taken
}

/// A turn takes its second step only if the answer to its first step is `Placed`.
#[test]
fn second_step_after_placed(rt: HostRuntime) {
    let (seek, act) = (Step::Seek(3), Step::Act(3));
    let both = Turn::Two(seek, act);
    for (turn, answer, wanted) in [
        (Turn::One(act), Answer::Placed, [Some(act), None]),
        (both, Answer::Placed, [Some(seek), Some(act)]),
        (both, Answer::Again, [Some(seek), None]),
        (both, Answer::Refused(Refusal::NoMemory), [Some(seek), None]),
        (Turn::Ended(End::Helped), Answer::Placed, [None, None]),
    ] {
        assert_eq!(rt; taken_of(turn, answer), wanted, "{turn:?} after {answer:?}");
    }
}
