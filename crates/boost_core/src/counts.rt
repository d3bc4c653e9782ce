//! The number of transactions that have begun, and the number of those that have committed. The
//! number in the next Began entry is the first count plus one. The number in the next Committed
//! entry is the second count plus one. By the core's invariant both counts are functions of the
//! history. They are kept so that a begin or a commit need not count entries. Only the answer to a
//! step changes them.
ghost use Rattle.std.specs.Prelude.{◌≡◌};

use txn_trace::Answer;

/// The number of transactions that have begun, and the number of those that have committed.
#[derive(Clone, Copy, Debug, PartialEq, Eq)]
pub struct Counts {
    pub(crate) began: u64,
    pub(crate) committed: u64,
}

impl Counts {
    ghost use Rattle.boost_core.specs.Counts.{counts_after};

    /// The counts after a step with this answer. The answers `Began` and `Committed` contain the
    /// new count.
    #[inline(always)]
    pub(crate) fn after(self, answer: Answer) -> Counts
        ensures { result ≡ counts_after self answer }
    {
        match answer {
            Answer::Began(began) => Counts { began, ..self },
            Answer::Committed(committed) => Counts { committed, ..self },
            _ => self,
        }
    }
}
