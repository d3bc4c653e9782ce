//! The state of a checker: callers, committed map and footprints. It combines two judges: the judge
//! of shape from `history_check`, which is asked first, and the judge of commits. Contracts see the
//! state as the history that it was fed. If memory is refused, this history is unchanged. The
//! entries themselves are not kept.
ghost use Rattle.std.specs.Prelude.{◌<◌, [], IfOk, OnErr};
ghost use Rattle.txn_words.specs.Kinds.{caller_of};

use crate::commits::Commits;
use history_check::{Callers, Rule};
use std::alloc::{AllocError, Global};
use txn_trace::Entry;

/// What is kept of a serializable history. It is enough to judge the next entry.
#[derive(Drop)]
pub(crate) struct State {
    /// The callers. They are used to judge the shape of entries.
    pub(crate) callers: Callers,
    /// The committed map and the footprints. They are used to judge the replies of commits.
    pub(crate) commits: Commits,
}

impl State {
    ghost use Rattle.serial_check.specs.States.{Tells, Stays, Judges};

    /// The state before the first entry.
    pub(crate) fn new(alloc: Global) -> Result<State, AllocError>
        ensures { IfOk result (Tells []) }
    {
        Ok(State {
            callers: Callers::new(alloc)?,
            commits: Commits::new(alloc)?,
        })
    }

    /// Adds the entry and returns `None`. If the entry breaks a rule, returns the rule instead.
    pub(crate) fn take_in(&mut self, entry: &Entry) -> Result<Option<Rule>, AllocError>
        requires { caller_of entry.now < 64 }
        ensures ok { IfOk result (λ rule. Judges entry.now self.old rule self.new) }
        ensures err { OnErr result (Stays self.old self.new) }
    {
        if !self.callers.has_shape(entry) {
            return Ok(Some(Rule::Shape));
        }
        self.callers.reserve(entry)?;
        if !self.commits.take_in(&self.callers, entry)? {
            return Ok(Some(Rule::Replies));
        }
        self.callers.enter(*entry);
        Ok(None)
    }
}
