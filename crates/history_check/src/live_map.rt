//! The judge of replies and of locks: the map as it is now, and who holds its stripes. This judge
//! is separate from the judge of shape, since `serial_check` uses the judge of shape only. One map
//! serves all open transactions: while the history is legal, they hold different stripes.
ghost use Rattle.std.specs.Prelude.{◌≡◌, ℕ, ◌<◌, ◌++◌, [], ◌∷◌, List, length, true, IfOk, OnOk, OnErr};
ghost use Rattle.txn_words.specs.Kinds.{caller_of};
ghost use Rattle.txn_trace.specs.Legal.{IsLegal};
ghost use Rattle.txn_words.specs.declared.holder.Holder.{Holder};

use crate::callers::Callers;
use crate::values::Values;
use key_locks::{KeyLocks, LockAnswer};
use std::alloc::{AllocError, Global};
use txn_trace::{Entry, Holder, Op, Phase};

/// The map as it is now, including the changes of open transactions, and the holder of each stripe.
#[derive(Drop)]
pub(crate) struct LiveMap {
    /// Which callers a Busy entry may name.
    pub(crate) holder: Holder,
    /// The number of stripes.
    pub(crate) stripes: u64,
    /// The values of the keys.
    pub(crate) values: Values,
    /// The holder of each stripe.
    pub(crate) locks: KeyLocks,
    ghost some_stripes: { 0 < stripes },
    ghost all_locks: { length locks ≡ stripes },
}

impl LiveMap {
    ghost use Rattle.txn_trace.specs.Legal.{replies_hold};
    ghost use Rattle.txn_trace.specs.Locks.{is_locked};
    ghost use Rattle.txn_words.specs.Shape.{is_shaped};
    ghost use Rattle.history_check.specs.Callers.{HaveEntered, IsIn};
    ghost use Rattle.history_check.specs.LiveMaps.{Shows, FollowsEntry, StillShows};

    /// The empty map, whose stripes are free.
    pub(crate) fn new(alloc: Global, stripes: u64, holder: Holder) -> Result<LiveMap, AllocError>
        requires { 0 < stripes }
        ensures { IfOk result (Shows holder stripes []) }
    {
        Ok(LiveMap {
            holder,
            stripes,
            values: Values::new(alloc)?,
            locks: KeyLocks::new(alloc, stripes as usize)?,
        })
    }

    /// Returns true if a Did entry has the reply that the map as it is now gives. Returns true for
    /// every entry of another kind.
    #[inline(always)]
    pub(crate) fn is_answered(&self, callers: &Callers, entry: &Entry) -> bool
        requires { caller_of entry.now < 64 }
        ensures { (holder : Holder) (stripes : ℕ) (h : List Entry) →
            IsLegal holder stripes h → HaveEntered h callers.now → Shows holder stripes h self.now →
            is_shaped h entry.now ≡ true → result ≡ replies_hold (h ++ entry.now ∷ []) }
    {
        let Entry::Did(caller, reply) = *entry else {
            return true;
        };
        match callers.phase(caller) {
            Phase::Waiting(op) => reply == self.values.get(op.key()),
            _ => true,
        }
    }

    /// Judges an entry whose shape and reply are right. If the entry keeps the rule of locks,
    /// applies it and returns `true`. Otherwise returns `false`.
    #[inline(always)]
    pub(crate) fn follow(&mut self, callers: &Callers, entry: &Entry) -> Result<bool, AllocError>
        requires { caller_of entry.now < 64 }
        ensures ok { IfOk result
            (λ right. FollowsEntry entry.now callers.now self.old right self.new) }
        ensures err { OnErr result (StillShows self.old self.new) }
    {
        match *entry {
            Entry::Asked(caller, op) => return Ok(self.ask(caller, op)),
            Entry::Busy(caller, op, named) => return Ok(self.may_name(callers, caller, op, named)),
            Entry::Did(caller, _) => {
                if let Phase::Waiting(op) = callers.phase(caller) {
                    self.values.operate(op)?;
                }
            }
            Entry::Undone(caller) => {
                if let Some((key, before)) = callers.newest_change(caller) {
                    self.values.restore(key, before)?;
                }
            }
            Entry::Committed(caller, _) => self.locks.release_all(caller as usize),
            Entry::Aborted(caller) => self.locks.release_all(caller as usize),
            _ => {}
        }
        Ok(true)
    }

    /// Takes the stripe of the operation's key for the caller. Returns `false` if another caller
    /// holds the stripe.
    #[inline(always)]
    fn ask(&mut self, caller: u64, op: Op) -> bool
        requires { caller < 64 }
        ensures { (callers : Callers) →
            FollowsEntry (Entry.Asked caller op) callers self.old result self.new }
    {
        let stripe = op.key() % self.stripes;
        match self.locks.lock(caller as usize, stripe as usize) {
            LockAnswer::Granted => true,
            LockAnswer::Busy(_) => false,
        }
    }

    /// Returns true if the rule of locks allows a Busy entry of `caller` to name `named`.
    #[inline(always)]
    fn may_name(&self, callers: &Callers, caller: u64, op: Op, named: u64) -> bool
        ensures { FollowsEntry (Entry.Busy caller op named) callers.now self.now result self.now }
    {
        if named == caller {
            return false;
        }
        match self.holder {
            Holder::Begun => callers.has_begun(named),
            Holder::Now => {
                let stripe = op.key() % self.stripes;
                match self.locks.holder(stripe as usize) {
                    Some(holder) => holder as u64 == named,
                    None => false,
                }
            }
        }
    }
}
