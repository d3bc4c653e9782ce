//! The owner of the cursor that was placed last. Contracts name the cursor by its owner, and no
//! code reads the owner. The owner is in an ordinary field, since the model's view cannot read a
//! ghost field. Each step that is not refused sets the owner; a step that places no cursor sets it
//! to none. By the core's invariant the owner's cursor fits.
ghost use Rattle.std.specs.Prelude.{◌≡◌};
ghost use Rattle.boost_core.specs.Rows.{row_of};
ghost use Rattle.boost_core.specs.Machine.{placed_then};

use txn_trace::{Answer, Step};

/// The owner of a cursor. The state of the machine says whose cursor was placed last.
#[derive(Clone, Copy, Debug, PartialEq, Eq)]
pub enum Owner {
    /// The caller with this number.
    Caller(u64),
    /// The helper with this number.
    Helper(u64),
}

/// Returns the owner of the cursor that this step placed, or `None` if it placed no cursor. If the
/// step was refused, returns `before`, the owner before the step.
#[inline(always)]
pub(crate) fn placed_after(before: Option<Owner>, step: Step, answer: Answer) -> Option<Owner>
    ensures { result ≡ placed_then before step answer }
{
    match answer {
        Answer::Refused(_) => before,
        Answer::Placed => match step {
            Step::Seek(caller) => Some(Owner::Caller(caller)),
            Step::InitSeek(helper, _) => Some(Owner::Helper(helper)),
            _ => None,
        },
        _ => None,
    }
}
