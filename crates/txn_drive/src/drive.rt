// PROMISES scripts-that-take-turns: Drive::turn, told
//! A call in progress: its phase, its next turn, and its phase after an answer. A drive does not
//! take steps itself, so a core, a lock and a test can all use the same drive. The state of a drive
//! determines which entries its steps have added to the history (`specs/Made.antt`).
ghost use Rattle.std.specs.Prelude.{◌≡◌, [], ◌++◌, Some, IfSome};
ghost use Rattle.txn_words.specs.declared.step.Step.{Step};
ghost use Rattle.txn_drive.specs.Drives.{new_drive, sized_of, turn_of, told_of, step_of, IsTurnOf, end_of, end_first, end_last, end_helped};
ghost use Rattle.txn_words.specs.Entries.{entries_of};
ghost use Rattle.txn_drive.specs.Made.{made, IsMade, HasMade};

use crate::call::Call;
use crate::end::End;
use crate::phase::{Phase, Work};
use crate::turn::{Turn, one_or_two};
use txn_words::{Answer, Limits, Refusal, Step};

/// A caller's call in progress: how far the call has come, and its next step.
///
/// Make a drive with `new`. Then repeat, until `turn` returns `Ended`: get a turn by `turn`, take
/// the steps of the turn, and pass each answer to `told`.
#[derive(Clone, Copy, Debug, PartialEq, Eq)]
pub struct Drive {
    /// The caller's number. The caller's helper has the same number.
    pub caller: u64,
    /// The call itself.
    pub call: Call,
    /// The progress of the call.
    pub phase: Phase,
}

impl Drive {
    /// Makes the drive for this caller's call on a map with these limits. No step of the call has
    /// been taken yet.
    ///
    /// If the limits allow only half keys, a call `Help` for a key of 2^63 or more has already
    /// ended with `Refusal::BadKey`, without any step.
    pub fn new(caller: u64, call: Call, limits: Limits) -> Drive
        ensures drive { result ≡ new_drive limits.half caller call }
        ensures made { made result ≡ [] }
    {
        Drive {
            caller,
            call,
            phase: call.first_phase(limits),
        }
    }

    /// The next turn. `size` is the table's present size in buckets.
    ///
    /// Only a helper that is about to double the table stores the size. If the turn is `Ended`,
    /// every later turn is the same, unless a further answer is passed to `told`.
    #[inline(always)]
    pub fn turn(&mut self, size: u32) -> Turn
        ensures drive { self.new ≡ sized_of size self.old }
        ensures turn { result ≡ turn_of self.new }
        ensures step { IsTurnOf self.new result }
        ensures made { made self.new ≡ made self.old }
        ensures ended { HasMade self.new result }
    {
        if let Phase::Doubling(_) = self.phase {
            self.phase = Phase::Doubling(size);
        }
        self.show()
    }

    /// The end of the call, or `None` if the call has not ended.
    #[inline(always)]
    pub fn ended(self) -> Option<End>
        ensures drive { result ≡ end_of self }
        ensures made { IfSome result (λ outcome. IsMade self.caller self.call outcome (made self)) }
    {
        self.end()
    }

    /// The end of the call if this phase is final, else `None`.
    #[inline(always)]
    fn end(self) -> Option<End>
        ensures { result ≡ end_of self }
    {
        match self.phase {
            Phase::First(answer) => Some(end_first(self.call, answer)),
            Phase::Last(work, answer) => Some(end_last(self.call, work, answer)),
            Phase::Lost(_) => Some(End::Refused(Refusal::OutOfStep)),
            Phase::Helped => Some(end_helped(self.call)),
            Phase::Refused(refusal) => Some(End::Refused(refusal)),
            _ => None,
        }
    }

    /// The turn that a drive in this phase takes.
    #[inline(always)]
    fn show(self) -> Turn
        ensures { result ≡ turn_of self }
    {
        let caller = self.caller;
        match self.phase {
            Phase::Fresh => Turn::One(self.call.first_step(caller)),
            Phase::Seeking(_, again) => one_or_two(again, Step::Seek(caller), Step::Act(caller)),
            Phase::Acting(..) => Turn::One(Step::Act(caller)),
            Phase::Doubling(size) => Turn::One(Step::Double(u64::from(size))),
            Phase::Initialising(way, again) => {
                let seek = Step::InitSeek(caller, u64::from(way.bucket));
                one_or_two(again, seek, Step::InitLink(caller))
            }
            Phase::Linking(..) => Turn::One(Step::InitLink(caller)),
            Phase::Storing(_) => Turn::One(Step::InitStore(caller)),
            _ => match self.end() {
                Some(end) => Turn::Ended(end),
                None => unreachable!(),
            },
        }
    }

    /// Passes the drive the answer to the step that its turn named. For a turn of two steps, call
    /// this after each step that is taken.
    ///
    /// The call ends with `Refusal::OutOfStep` if the rules do not foresee the answer, or if the
    /// call has already ended.
    ///
    /// # Cost
    ///
    /// Constant time. The search for a helper's next bucket takes up to 32 rounds.
    #[inline(always)]
    pub fn told(&mut self, answer: Answer)
        ensures drive { self.new ≡ told_of self.old answer }
        ensures made { (step : Step) → step_of self.old ≡ Some step
            → made self.new ≡ made self.old ++ entries_of step answer }
    {
        self.phase.told(self.call, answer);
    }
}

/// The end of a call whose first step was its last.
fn end_first(call: Call, answer: Answer) -> End
    ensures { result ≡ end_first call answer }
{
    match answer {
        Answer::Refused(refusal) => End::Refused(refusal),
        Answer::Began(_) => match call {
            Call::Begin => End::Answered(answer),
            _ => End::Refused(Refusal::OutOfStep),
        },
        Answer::Saved(_) => match call {
            Call::Save => End::Answered(answer),
            _ => End::Refused(Refusal::OutOfStep),
        },
        Answer::Committed(_) => match call {
            Call::Commit => End::Answered(answer),
            _ => End::Refused(Refusal::OutOfStep),
        },
        _ => End::Refused(Refusal::OutOfStep),
    }
}

/// The end of a call whose last step was an `Act`.
fn end_last(call: Call, work: Work, answer: Answer) -> End
    ensures { result ≡ end_last call work answer }
{
    let odd = End::Refused(Refusal::OutOfStep);
    match call {
        Call::Op(_) => match work {
            Work::Operation => match answer {
                Answer::Done(_) => End::Answered(answer),
                _ => odd,
            },
            Work::Busy(holder, _) => match answer {
                Answer::Aborted => End::Busy(holder),
                _ => odd,
            },
            Work::Leaving(_) => odd,
        },
        Call::Back(level) => match work {
            Work::Leaving(_) => match answer {
                Answer::Returned(reached) if reached == level => End::Answered(answer),
                _ => odd,
            },
            _ => odd,
        },
        Call::Abort => match work {
            Work::Leaving(_) => match answer {
                Answer::Aborted => End::Answered(answer),
                _ => odd,
            },
            _ => odd,
        },
        _ => odd,
    }
}

/// How a call for help ends once all buckets on its path are initialised.
fn end_helped(call: Call) -> End
    ensures { result ≡ end_helped call }
{
    match call {
        Call::Help(_) => End::Helped,
        _ => End::Refused(Refusal::OutOfStep),
    }
}
