//! The state of a checker: the callers and the live map. They judge each entry: first its shape,
//! then its reply, then its locks. The checker notes the first bad entry, and does not use the
//! state after that. In a contract, `Tells` says which history the state stands for. No list of the
//! entries is kept.
ghost use Rattle.std.specs.Prelude.{◌<◌, [], IfOk, OnErr};
ghost use Rattle.txn_words.specs.Kinds.{caller_of};

use crate::callers::Callers;
use crate::live_map::LiveMap;
use crate::verdict::Rule;
use std::alloc::{AllocError, Global};
use txn_trace::{Entry, Holder};

/// The state after a legal history. It is enough to judge the next entry.
#[derive(Drop)]
pub(crate) struct State {
    /// The callers, which judge the shape of an entry.
    pub(crate) callers: Callers,
    /// The live map, which judges an entry by the rules of replies and locks.
    pub(crate) map: LiveMap,
}

impl State {
    ghost use Rattle.history_check.specs.States.{Tells, Stays, Judges};

    /// The state before the first entry.
    pub(crate) fn new(alloc: Global, stripes: u64, holder: Holder) -> Result<State, AllocError>
        requires { 0 < stripes }
        ensures { IfOk result (Tells holder stripes []) }
    {
        Ok(State {
            callers: Callers::new(alloc)?,
            map: LiveMap::new(alloc, stripes, holder)?,
        })
    }

    /// Judges the entry. If it breaks a rule, returns the rule. Otherwise enters the entry and
    /// returns `None`.
    #[inline(always)]
    pub(crate) fn take_in(&mut self, entry: &Entry) -> Result<Option<Rule>, AllocError>
        requires { caller_of entry.now < 64 }
        ensures ok { IfOk result (λ rule. Judges entry.now self.old rule self.new) }
        ensures err { OnErr result (Stays self.old self.new) }
    {
        // Each kind of entry has its own arm, so that `judge` is compiled separately for each kind.
        match *entry {
            Entry::Began(caller, txn) => self.judge(&Entry::Began(caller, txn)),
            Entry::Asked(caller, op) => self.judge(&Entry::Asked(caller, op)),
            Entry::Did(caller, reply) => self.judge(&Entry::Did(caller, reply)),
            Entry::Saved(caller) => self.judge(&Entry::Saved(caller)),
            Entry::Leave(caller, level) => self.judge(&Entry::Leave(caller, level)),
            Entry::Undone(caller) => self.judge(&Entry::Undone(caller)),
            Entry::Returned(caller, level) => self.judge(&Entry::Returned(caller, level)),
            Entry::Committed(caller, number) => self.judge(&Entry::Committed(caller, number)),
            Entry::Busy(caller, op, named) => self.judge(&Entry::Busy(caller, op, named)),
            Entry::Aborted(caller) => self.judge(&Entry::Aborted(caller)),
        }
    }

    /// Judges an entry of any kind. If it breaks a rule, returns the rule. Otherwise enters the
    /// entry.
    #[inline(always)]
    fn judge(&mut self, entry: &Entry) -> Result<Option<Rule>, AllocError>
        requires { caller_of entry.now < 64 }
        ensures ok { IfOk result (λ rule. Judges entry.now self.old rule self.new) }
        ensures err { OnErr result (Stays self.old self.new) }
    {
        if !self.callers.has_shape(entry) {
            return Ok(Some(Rule::Shape));
        }
        if !self.map.is_answered(&self.callers, entry) {
            return Ok(Some(Rule::Replies));
        }
        self.callers.reserve(entry)?;
        if !self.map.follow(&self.callers, entry)? {
            return Ok(Some(Rule::Locks));
        }
        self.callers.enter(*entry);
        Ok(None)
    }
}
