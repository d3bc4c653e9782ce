//! The judge of commits: the committed map and the footprints of open transactions. A commit is
//! right if no reply of its transaction contradicts another, and the committed map has the values
//! that the transaction's footprint needs. Only a right commit changes the map. Any other entry
//! changes at most one footprint.
ghost use Rattle.std.specs.Prelude.{◌≡◌, ℕ, ◌<◌, true, false, [], List, Some, IfOk, OnErr, IfSome, IsNone};
ghost use Rattle.txn_trace.specs.History.{is_open};
ghost use Rattle.txn_words.specs.Kinds.{caller_of};
ghost use Rattle.txn_words.specs.declared.entry.Entry.{Entry};

use crate::footprints::Footprints;
use history_check::Callers;
use std::alloc::{AllocError, Global};
use std::collections::BTreeMap;
use txn_trace::{Entry, Reply};

/// A key for which a transaction got a reply that the committed map does not give.
#[derive(Clone, Copy, Debug, PartialEq, Eq)]
pub struct Misread {
    /// The key.
    pub key: u64,
    /// The reply of the transaction's first operation at this key.
    pub read: Reply,
    /// The value of the committed map at this key, which the reply should have been.
    pub due: Reply,
}

/// The map that the committed transactions leave, and the footprint of each caller's transaction.
#[derive(Drop)]
pub(crate) struct Commits {
    /// The committed map.
    pub(crate) values: BTreeMap<u64, u64>,
    /// The footprint of each caller's transaction.
    pub(crate) footprints: Footprints,
}

impl Commits {
    ghost use Rattle.serial_check.specs.Serializable.{txn_in};
    ghost use Rattle.serial_check.specs.Commits.{ShowsSerial, Judges, Stays, IsMisread, IsTorn, FitsOrTorn, RunsSomewhere};

    /// Returns the empty map, with an empty footprint for each caller.
    pub(crate) fn new(alloc: Global) -> Result<Commits, AllocError>
        ensures { IfOk result (ShowsSerial []) }
    {
        Ok(Commits {
            values: BTreeMap::new(alloc),
            footprints: Footprints::new(alloc)?,
        })
    }

    /// Applies an entry of the right shape and returns `true`. If the entry commits a transaction
    /// with a wrong reply, returns `false` instead.
    pub(crate) fn take_in(&mut self, callers: &Callers, entry: &Entry) -> Result<bool, AllocError>
        requires { caller_of entry.now < 64 }
        ensures ok { IfOk result (λ right. Judges entry.now callers.now self.old right self.new) }
        ensures err { OnErr result (Stays self.old self.new) }
    {
        if let Entry::Committed(caller, _) = *entry {
            return self.commit(caller);
        }
        self.footprints.take_in(callers, entry)?;
        Ok(true)
    }

    /// If the caller's transaction has the same replies as if it ran alone on the map, commits the
    /// transaction and returns true. If not, returns false. After a commit the map has the values
    /// that the transaction leaves, and the caller's footprint is empty.
    fn commit(&mut self, caller: u64) -> Result<bool, AllocError>
        requires { caller < 64 }
        ensures ok { IfOk result (λ right. (callers : Callers) (number : ℕ) →
            Judges (Entry.Committed caller number) callers self.old right self.new) }
        ensures err { OnErr result (Stays self.old self.new) }
    {
        let footprint = self.footprints.of_caller(caller);
        if !footprint.fits(&self.values) {
            return Ok(false);
        }
        footprint.settle(&mut self.values)?;
        self.footprints.end(caller);
        Ok(true)
    }

    /// Returns a key at which the first reply to the caller's transaction differs from the value in
    /// the committed map. Returns `None` if there is no such key, or if the transaction's replies
    /// fit no map. Takes a look-up in the map for each key of the transaction.
    pub(crate) fn misread(&self, caller: u64) -> Option<Misread>
        requires { caller < 64 }
        ensures some { (h : List Entry) (t : ℕ) → ShowsSerial h self.now →
            txn_in h caller ≡ Some t → is_open t h ≡ true → IfSome result (IsMisread h t) }
        ensures none { IsNone result → (h : List Entry) (t : ℕ) → ShowsSerial h self.now →
            txn_in h caller ≡ Some t → is_open t h ≡ true → FitsOrTorn h t }
    {
        let footprint = self.footprints.of_caller(caller);
        if footprint.is_torn {
            return None;
        }
        let (key, read) = footprint.misfit(&self.values)?;
        let due = self.values.get(&key).copied();
        Some(Misread { key, read, due })
    }

    /// Returns true if the replies of the caller's transaction contradict one another. Takes
    /// constant time.
    pub(crate) fn is_torn(&self, caller: u64) -> bool
        requires { caller < 64 }
        ensures torn { result ≡ true → (h : List Entry) (t : ℕ) → ShowsSerial h self.now →
            txn_in h caller ≡ Some t → is_open t h ≡ true → IsTorn h t }
        ensures whole { result ≡ false → (h : List Entry) (t : ℕ) → ShowsSerial h self.now →
            txn_in h caller ≡ Some t → is_open t h ≡ true → RunsSomewhere h t }
    {
        let footprint = self.footprints.of_caller(caller);
        footprint.is_torn
    }
}
