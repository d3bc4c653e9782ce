//! One attempt at a script: the attempt's next call, and the progress after a call has ended. This
//! module is about a single script and takes no step; `task` has the rules about a worker. An
//! attempt stores its stage and the number of attempts before it. It does not store the script.
ghost use Rattle.std.specs.Prelude.{◌≡◌};
ghost use Rattle.script_worker.specs.Attempts.{first_attempt, call_for, call_at, done_with, done_at, busy_at, refused_with, progress_refused, progress_of};

use txn_drive::{Call, End};
use txn_trace::{Action, PackedAction, Refusal};

/// The stage of an attempt at a script.
#[derive(Clone, Copy, Debug, PartialEq, Eq)]
pub enum Stage {
    /// The next call is the begin.
    Beginning,
    /// The next call is the action with this index, counted from 0, or the commit if the script has
    /// no such action.
    Acting(usize),
    /// The next call is the abort, since a call was refused with this refusal.
    Leaving(Refusal),
}

/// An attempt at a script: the transaction from its begin to its end.
#[derive(Clone, Copy, Debug, PartialEq, Eq)]
pub struct Attempt {
    /// How many attempts at the script were made before this one.
    pub again: u64,
    /// The stage of this attempt.
    pub stage: Stage,
}

/// How a script ended. `Attempt::progress` returns this. For a committed script, the outcome that
/// `thread_runs` reports also has the transaction, its commit number and the replies.
#[derive(Clone, Copy, Debug, PartialEq, Eq)]
pub enum Finish {
    /// The script's transaction is committed.
    Committed,
    /// The script has aborted its transaction itself.
    Aborted,
    /// Each attempt found a stripe held by another caller, and was aborted.
    Busy,
    /// A call was refused with this refusal. The script's transaction did not begin or is aborted.
    /// But after `OutOfStep`, or if a commit or an abort was refused, the transaction may still be
    /// open.
    Refused(Refusal),
}

/// What follows after a call has ended.
#[derive(Clone, Copy, Debug, PartialEq, Eq)]
pub enum Progress {
    /// The script continues with the next call of this attempt.
    Next(Attempt),
    /// No further call: the script is over.
    Over(Finish),
}

/// The call that does this action.
fn call_for(action: Action) -> Call
    ensures { result ≡ call_for action }
{
    match action {
        Action::Op(op) => Call::Op(op),
        Action::Save => Call::Save,
        Action::Back(level) => Call::Back(level),
        Action::Help(key) => Call::Help(key),
        Action::Abort => Call::Abort,
    }
}

impl Attempt {
    /// The first attempt at a script, before its first call.
    pub fn first() -> Attempt
        ensures { result ≡ first_attempt }
    {
        Attempt {
            again: 0,
            stage: Stage::Beginning,
        }
    }

    /// The attempt's next call. Pass the script of this attempt.
    pub fn call(self, script: &[PackedAction]) -> Call
        ensures { result ≡ call_at script.now self.stage }
    {
        match self.stage {
            Stage::Beginning => Call::Begin,
            Stage::Acting(place) => match script.get(place) {
                Some(action) => call_for(action.action()),
                None => Call::Commit,
            },
            Stage::Leaving(_) => Call::Abort,
        }
    }

    /// What follows when the attempt's call, which `call` returns, has ended with `end`.
    ///
    /// If a stripe was held, the script is attempted again, provided that fewer than `tries`
    /// attempts were made before this one. If any call is refused with `OutOfStep`, the script ends
    /// at once. If an operation, a savepoint, a return or help is refused with another refusal, the
    /// transaction is aborted. If a begin, a commit or an abort is refused, the script ends at
    /// once.
    pub fn progress(self, script: &[PackedAction], tries: u64, end: End) -> Progress
        ensures { result ≡ progress_of script.now tries self end }
    {
        match end {
            End::Answered(_) | End::Helped => self.after_done(script),
            End::Busy(_) => self.busy(tries),
            End::Refused(refusal) => self.after_refusal(script, refusal),
        }
    }

    /// The progress if the call is done.
    fn after_done(self, script: &[PackedAction]) -> Progress
        ensures { result ≡ done_at script.now self.again self.stage }
    {
        match self.stage {
            Stage::Beginning => self.goes_to(Stage::Acting(0)),
            Stage::Acting(place) => match script.get(place) {
                Some(action) => match action.action() {
                    Action::Abort => Progress::Over(Finish::Aborted),
                    _ => self.goes_to(Stage::Acting(place + 1)),
                },
                None => Progress::Over(Finish::Committed),
            },
            Stage::Leaving(refusal) => Progress::Over(Finish::Refused(refusal)),
        }
    }

    /// The progress if a stripe was held by another caller, and the transaction was aborted.
    fn busy(self, tries: u64) -> Progress
        ensures { result ≡ busy_at tries self.again }
    {
        if self.again < tries {
            Progress::Next(Attempt {
                again: self.again + 1,
                stage: Stage::Beginning,
            })
        } else {
            Progress::Over(Finish::Busy)
        }
    }

    /// The progress if the call was refused.
    fn after_refusal(self, script: &[PackedAction], refusal: Refusal) -> Progress
        ensures { result ≡ progress_refused script.now self.again self.stage refusal }
    {
        let over = Progress::Over(Finish::Refused(refusal));
        if let Refusal::OutOfStep = refusal {
            return over;
        }
        match self.stage {
            Stage::Acting(place) => match script.get(place) {
                Some(action) => match action.action() {
                    Action::Abort => over,
                    _ => self.goes_to(Stage::Leaving(refusal)),
                },
                None => over,
            },
            _ => over,
        }
    }

    /// The progress to another stage of this attempt.
    fn goes_to(self, stage: Stage) -> Progress
        ensures { result ≡ Progress.Next (record { again = self.again; stage = stage }) }
    {
        Progress::Next(Attempt {
            again: self.again,
            stage,
        })
    }
}
