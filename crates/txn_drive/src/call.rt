//! Calls on the map: an operation, begin, save, back, commit, abort or help. A call names no caller
//! and has no state. The drive that turns the call into steps adds both. The call and the limits
//! determine the drive's first phase. A help ends without a step if the limits refuse its key. All
//! other calls take at least one step. The first step of a help names the table's size. Every other
//! first step depends only on the call and the caller.
ghost use Rattle.std.specs.Prelude.{◌≡◌};
ghost use Rattle.txn_drive.specs.Drives.{first_phase, first_step};

use crate::phase::Phase;
use txn_words::{Limits, Op, Refusal, Step};

/// A call on the map.
#[derive(Clone, Copy, Debug, PartialEq, Eq)]
pub enum Call {
    /// Begin a transaction.
    Begin,
    /// Do an operation.
    Op(Op),
    /// Set a savepoint.
    Save,
    /// Go back to a level: 0, or the number of a savepoint.
    Back(u64),
    /// Commit the transaction.
    Commit,
    /// Abort the transaction.
    Abort,
    /// Help the table to grow, and initialise the bucket of this key.
    Help(u64),
}

impl Call {
    /// The first phase of a drive for this call.
    pub(crate) fn first_phase(self, limits: Limits) -> Phase
        ensures { result ≡ first_phase limits.half self }
    {
        match self {
            Call::Help(key) if limits.is_bad_key(key) => Phase::Refused(Refusal::BadKey),
            Call::Help(_) => Phase::Doubling(0),
            _ => Phase::Fresh,
        }
    }

    /// The step that a drive for this call takes in the phase `Fresh`. The drive for a call `Help`
    /// begins in another phase (`first_phase`).
    pub(crate) fn first_step(self, caller: u64) -> Step
        ensures { result ≡ first_step caller self }
    {
        match self {
            Call::Begin => Step::Begin(caller),
            Call::Op(op) => Step::Ask(caller, op),
            Call::Save => Step::Save(caller),
            Call::Back(level) => Step::Back(caller, level),
            Call::Commit => Step::Commit(caller),
            Call::Abort => Step::Abort(caller),
            Call::Help(_) => Step::Double(0),
        }
    }
}
