//! The two halves of `Step`: the steps of a caller, and those that belong to no caller. Each half
//! is a type of its own, so no function needs an arm for a step of the other half.
ghost use Rattle.std.specs.Prelude.{◌≡◌};

use crate::claim::Claim;
use txn_trace::{Op, Step};

/// A step of a caller, without the caller's number. `Ask` has its claim to the stripe of its key.
#[derive(Clone, Copy, Debug)]
pub(crate) enum CallerStep {
    Begin,
    Ask(Op, Claim),
    Seek,
    Act,
    Save,
    Back(u64),
    Commit,
    Abort,
}

/// A step that belongs to no caller: one of a helper or of the table.
#[derive(Clone, Copy, Debug)]
pub(crate) enum HelperStep {
    Sweep,
    InitSeek(u64, u64),
    InitLink(u64),
    InitStore(u64),
    Double(u64),
}

impl CallerStep {
    ghost use Rattle.boost_core.specs.Steps.{claim_in, step_by};

    /// The step as a `Step`, if this caller takes it.
    #[inline(always)]
    pub(crate) fn by(self, caller: u64) -> Step
        ensures { result ≡ step_by caller self }
    {
        match self {
            CallerStep::Begin => Step::Begin(caller),
            CallerStep::Ask(op, _) => Step::Ask(caller, op),
            CallerStep::Seek => Step::Seek(caller),
            CallerStep::Act => Step::Act(caller),
            CallerStep::Save => Step::Save(caller),
            CallerStep::Back(level) => Step::Back(caller, level),
            CallerStep::Commit => Step::Commit(caller),
            CallerStep::Abort => Step::Abort(caller),
        }
    }

    /// The claim of `Ask`. For any other step, it is `Lock`.
    #[inline(always)]
    pub(crate) fn claim(self) -> Claim
        ensures { result ≡ claim_in self }
    {
        match self {
            CallerStep::Ask(_, claim) => claim,
            _ => Claim::Lock,
        }
    }
}

impl HelperStep {
    ghost use Rattle.boost_core.specs.Steps.{step_from};

    /// The step as a `Step`.
    #[inline(always)]
    pub(crate) fn to_step(self) -> Step
        ensures { result ≡ step_from self }
    {
        match self {
            HelperStep::Sweep => Step::Sweep,
            HelperStep::InitSeek(helper, bucket) => Step::InitSeek(helper, bucket),
            HelperStep::InitLink(helper) => Step::InitLink(helper),
            HelperStep::InitStore(helper) => Step::InitStore(helper),
            HelperStep::Double(seen) => Step::Double(seen),
        }
    }
}
