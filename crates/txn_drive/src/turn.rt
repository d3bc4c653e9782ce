//! The turns of a drive. A turn is one step, two steps, or the end of the call. Two steps are a
//! seek and the step that acts at the position found; the second is taken only if the answer to the
//! first is `placed`. A turn has two steps only after eight answers `again` in a row, so that other
//! callers cannot keep a call seeking without end.
ghost use Rattle.std.specs.Prelude.{◌≡◌};
ghost use Rattle.txn_drive.specs.Drives.{paired};
ghost use Rattle.txn_drive.specs.Turns.{HasTaken, MayTake};

use crate::end::End;
use txn_words::{Answer, Step};

/// After this many answers `again` in a row, two steps make one turn, so that no other caller takes
/// a step between them.
pub(crate) const PATIENCE: u8 = 8;

/// The next turn of a drive: one or two steps to take, or the end of the drive's call.
#[derive(Clone, Copy, Debug, PartialEq, Eq)]
pub enum Turn {
    /// Take this step, and pass the answer to the drive.
    One(Step),
    /// Take the first step, and pass the answer to the drive. If the answer is `placed`, take the
    /// second step in the same turn, and pass its answer to the drive too.
    Two(Step, Step),
    /// The call has ended with this end. No further step is taken.
    Ended(End),
}

impl Turn {
    /// Takes the steps of the turn by calling `step`, which returns the answer to a step. The
    /// second of two steps is taken only if the answer to the first is `placed`. `step` must pass
    /// each answer to the drive.
    ///
    /// # Cost
    ///
    /// One or two calls of `step`, or none if the call has ended.
    pub fn take<F: FnMut(Step) -> Answer>(self, step: &mut F)
        requires { MayTake (λ f s. F.pre f s) (λ f s answer g. F.step f s answer g) step.old self }
        ensures { HasTaken (λ f s answer g. F.step f s answer g) step.old self step.new }
    {
        let (first, mut second) = match self {
            Turn::One(only) => (only, None),
            Turn::Two(first, then) => (first, Some(then)),
            Turn::Ended(_) => return,
        };
        let mut next = Some(first);
        // `step` is called at only one place, in a loop, so that it can be compiled into this
        // function.
        'steps: while let Some(now) = next {
            next = match step(now) {
                Answer::Placed => second.take(),
                _ => None,
            };
        }
    }
}

/// The turn for a seek and for the step that acts at the position found. After `PATIENCE` answers
/// `again` in a row, the turn has both steps. Otherwise it has only the seek.
#[inline(always)]
pub(crate) fn one_or_two(again: u8, seeking: Step, acting: Step) -> Turn
    ensures { result ≡ paired again seeking acting }
{
    if again < PATIENCE {
        Turn::One(seeking)
    } else {
        Turn::Two(seeking, acting)
    }
}
