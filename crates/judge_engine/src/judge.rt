//! `Judge`, one type for the checkers of `history_check` and `serial_check`, so that `Watcher` need
//! not distinguish them. Each method makes one call of the checker, and costs the same. `IsFedBy`
//! says which entries a judge was fed, and by which rules it judges.
ghost use Rattle.std.specs.Prelude.{◌≡◌, ◌<◌, ◌++◌, [], ◌∷◌, List, IfOk, OnOk};
ghost use Rattle.txn_words.specs.declared.entry.Entry.{Entry};
ghost use Rattle.txn_words.specs.Kinds.{caller_of};
ghost use Rattle.judge_engine.specs.declared.basis.Basis.{Basis};

use crate::basis::Basis;
use history_check::Verdict;
use std::alloc::{AllocError, Global};
use txn_trace::Entry;

/// A checker that is fed the entries of a history one after another: by locks, or by the order of
/// commits.
#[derive(Drop)]
pub(crate) enum Judge {
    Locks(history_check::Checker),
    Commits(serial_check::Checker),
}

impl Judge {
    ghost use Rattle.judge_engine.specs.Bases.{HasStripes, IsFedBy, IsVerdictBy};

    /// A judge before the first entry.
    pub(crate) fn new(alloc: Global, basis: Basis) -> Result<Judge, AllocError>
        requires { HasStripes basis }
        ensures { IfOk result (IsFedBy basis []) }
    {
        match basis {
            Basis::Locks { stripes, holder } => {
                let checker = history_check::Checker::new(alloc, stripes, holder)?;
                Ok(Judge::Locks(checker))
            }
            Basis::Commits => {
                let checker = serial_check::Checker::new(alloc)?;
                Ok(Judge::Commits(checker))
            }
        }
    }

    /// Feeds the judge the next entry.
    pub(crate) fn feed(&mut self, entry: &Entry) -> Result<(), AllocError>
        requires { caller_of entry.now < 64 }
        ensures { OnOk result ((basis : Basis) (h : List Entry) →
            IsFedBy basis h self.old → IsFedBy basis (h ++ entry.now ∷ []) self.new) }
    {
        match self {
            Judge::Locks(checker) => checker.feed(entry),
            Judge::Commits(checker) => checker.feed(entry),
        }
    }

    /// The verdict on the entries so far.
    pub(crate) fn verdict(&self) -> Verdict
        ensures { (basis : Basis) (h : List Entry) →
            IsFedBy basis h self.now → IsVerdictBy basis h result }
    {
        match self {
            Judge::Locks(checker) => checker.verdict(),
            Judge::Commits(checker) => checker.verdict(),
        }
    }
}
