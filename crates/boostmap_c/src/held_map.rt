//! What the handle of a map with one owner owns: an `OwnedMap`, and how long its history may get
//! before the map trims it by itself. Only the end of a transaction trims by itself, so no other
//! call takes time in proportion to the map.
//!
//! A map that trims itself does so when its history is longer than the bound, and also has more than
//! four entries for each key. A trimmed history has two entries for each key, and two more. So at
//! least half of a history is new when it is trimmed, and trimming costs each new entry a constant.
ghost use Rattle.std.specs.Prelude.{◌≡◌};

use owned_map::{OwnedMap, Stop};
use std::alloc::Global;
use txn_trace::Refusal;

/// A map with one owner, and when it trims its history by itself.
#[derive(Drop)]
pub struct HeldMap {
    pub(crate) map: OwnedMap,
    // The history may have so many entries before the map trims it. If this is 0, the map never
    // trims by itself.
    pub(crate) bound: u64,
}

impl HeldMap {
    ghost use Rattle.boostmap_c.specs.Calls.{Aborts, Commits, Returns, Trims, TrimsIf, is_long};

    /// Commits a caller's transaction, and then trims the history if it is due.
    pub(crate) fn commit(&mut self, alloc: Global, caller: u64) -> Result<u64, Stop>
        ensures commits { Commits caller self.old.bound self.old.map.core result self.new.map.core }
        ensures bound { self.new.bound ≡ self.old.bound }
    {
        let place = self.map.commit(caller)?;
        self.trim_if_long(alloc);
        Ok(place)
    }

    /// Aborts a caller's transaction, and then trims the history if it is due.
    pub(crate) fn abort(&mut self, alloc: Global, caller: u64) -> Result<(), Refusal>
        ensures aborts { Aborts caller self.old.bound self.old.map.core result self.new.map.core }
        ensures bound { self.new.bound ≡ self.old.bound }
    {
        self.map.abort(caller)?;
        self.trim_if_long(alloc);
        Ok(())
    }

    /// Takes back a caller's changes since a level was set, and returns the level.
    pub(crate) fn back(&mut self, caller: u64, level: u64) -> Result<u64, Stop>
        ensures returns { Returns caller level self.old.map.core result self.new.map.core }
        ensures bound { self.new.bound ≡ self.old.bound }
    {
        self.map.back(caller, level)?;
        Ok(level)
    }

    /// Trims the history.
    pub(crate) fn trim(&mut self, alloc: Global) -> Result<(), Refusal>
        ensures trims { Trims self.old.map.core result self.new.map.core }
        ensures bound { self.new.bound ≡ self.old.bound }
    {
        let _old = self.map.trim(alloc)?;
        Ok(())
    }

    /// Trims the history if it is long. If a caller has a transaction or memory is refused, the
    /// history stays, and the end of the next transaction tries again.
    fn trim_if_long(&mut self, alloc: Global)
        ensures trims { TrimsIf (is_long self.old.bound self.old.map.core) self.old.map.core
            self.new.map.core }
        ensures bound { self.new.bound ≡ self.old.bound }
    {
        if self.is_long() {
            let _outcome = self.trim(alloc);
        }
    }

    /// Whether the history is so long that the map trims it by itself.
    fn is_long(&self) -> bool
        ensures { result ≡ is_long self.now.bound self.now.map.core }
    {
        let entries = self.map.core().trace().len() as u64;
        self.bound != 0 && self.bound < entries && self.map.len() < entries / 4
    }
}
