//! The history of a core that is no longer needed, moved out without a copy. A core has a `Drop`,
//! and only this code takes a core apart. No invariant of a vector of entries says that the history
//! is legal, so the contract states all that the contract of `trace` states.
ghost use Rattle.std.specs.Prelude.{◌≡◌, ◌<◌};
ghost use Rattle.std.specs.List.{All};
ghost use Rattle.txn_words.specs.Kinds.{caller_of};
ghost use Rattle.txn_trace.specs.Legal.{IsLegal};
ghost use Rattle.boost_core.specs.Machine.{holder_by};

use crate::machine::Core;
use txn_trace::SmallEntry;

impl Core {
    ghost use Rattle.boost_core.specs.Shape.{HasShape};
    ghost use Rattle.boost_core.specs.Locks.{KeepsLocks};
    ghost use Rattle.boost_core.specs.Replies.{KeepsReplies};
    ghost use Rattle.boost_core.specs.Whole.{IsWhole};
    ghost use Rattle.boost_core.specs.Nodes.{IsInOrder};

    /// Returns the history that `trace` shows, without a copy, and drops the rest of the core.
    ///
    /// # Cost
    ///
    /// The cost of dropping the table, the callers and the stripes. Takes no memory.
    pub fn into_trace(self) -> Vec<SmallEntry>
        ensures value { result.items ≡ self.history }
        ensures shape { HasShape self }
        ensures locks { KeepsLocks self }
        ensures replies { KeepsReplies self }
        ensures legal { IsLegal (holder_by self.words) self.limits.stripes self.history }
        ensures callers { All (λ entry. caller_of entry < self.limits.callers) self.history }
        ensures whole { IsWhole self }
        ensures order { IsInOrder self.nodes }
    {
        // By the contract of `trace` the history's invariants hold.
        let _trace = self.trace();
        self.history
    }
}
