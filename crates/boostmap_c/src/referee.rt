//! The checker that a judge's handle owns. It judges by locks, or by the order of commits. The enum
//! `Referee` is one type for both checkers, since the pointer of a handle names one type. A referee
//! takes entries and not C's numbers, so its contracts do not mention these numbers. Its rule is
//! chosen when the referee is made, and never changes. A call costs as much as the same call of the
//! checker.
ghost use Rattle.std.specs.Prelude.{◌≡◌, ◌<◌, [], IfOk, OnOk, OnErr};
ghost use Rattle.txn_words.specs.Kinds.{caller_of};
ghost use Rattle.boostmap_c.specs.Referees.{IsFedBy, IsVerdictOf, Stays, IsFedOneMore, has_stripes};

use history_check::{Checker as LockChecker, Verdict};
use serial_check::Checker as CommitChecker;
use std::alloc::{AllocError, Global};
use txn_trace::{Entry, Holder};

/// The rule of a judge.
#[derive(Clone, Copy)]
pub enum Way {
    /// Judges by locks. The `Holder` says which callers a Busy entry may name.
    ByLocks(Holder),
    /// Judges by the order of commits.
    ByCommits,
}

/// A checker for one of the two rules.
#[derive(Drop)]
pub enum Referee {
    Locks(LockChecker),
    Commits(CommitChecker),
}

impl Referee {
    /// A checker before the first entry.
    pub(crate) fn new(alloc: Global, stripes: u64, way: Way) -> Result<Referee, AllocError>
        requires { has_stripes way stripes }
        ensures { IfOk result (IsFedBy way stripes []) }
    {
        Ok(match way {
            Way::ByLocks(holder) => Referee::Locks(LockChecker::new(alloc, stripes, holder)?),
            Way::ByCommits => Referee::Commits(CommitChecker::new(alloc)?),
        })
    }

    /// Feeds the checker the next entry.
    #[tactic(auto, using(crate::proofs::Referees::locks_taken, crate::proofs::Referees::locks_stay, crate::proofs::Referees::commits_taken, crate::proofs::Referees::commits_stay))]
    pub(crate) fn feed(&mut self, entry: &Entry) -> Result<(), AllocError>
        requires { caller_of entry.now < 64 }
        ensures ok { OnOk result (IsFedOneMore entry.now self.old self.new) }
        ensures err { OnErr result (Stays self.old self.new) }
    {
        match self {
            Referee::Locks(checker) => checker.feed(entry),
            Referee::Commits(checker) => checker.feed(entry),
        }
    }

    /// The verdict on the entries so far.
    #[tactic(auto, using(crate::proofs::Referees::locks_say, crate::proofs::Referees::commits_say))]
    pub(crate) fn verdict(&self) -> Verdict
        ensures { IsVerdictOf self.now result }
    {
        match self {
            Referee::Locks(checker) => checker.verdict(),
            Referee::Commits(checker) => checker.verdict(),
        }
    }
}
