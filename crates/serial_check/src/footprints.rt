//! The footprints of all callers. Each of the 64 callers has one. It is the footprint of the caller's
//! transaction, or empty if the caller is in no transaction. The judge by the order of commits and
//! the judge by any order (`order_check`) both use it.
ghost use Rattle.std.specs.Prelude.{◌≡◌, ℕ, ◌<◌, [], List, IfOk, OnOk, OnErr, vec_len};
ghost use Rattle.txn_words.specs.Kinds.{caller_of};
ghost use Rattle.txn_words.specs.declared.entry.Entry.{Entry};

use crate::footprint::Footprint;
use history_check::Callers;
use std::alloc::{AllocError, Global};
use txn_trace::{Entry, Phase};

/// The number of callers.
const CALLERS: usize = 64;

/// The footprint of each caller's transaction.
///
/// In a contract, `HaveFootprints h footprints` says that these are the footprints after the entries
/// `h`.
#[derive(Drop)]
pub struct Footprints {
    /// Each caller's footprint, at the index of the caller's number.
    table: Vec<Footprint>,
    ghost all: { vec_len table ≡ 64 },
}

impl Footprints {
    ghost use Rattle.serial_check.specs.OfCallers.{IsOfCaller, HaveFootprints, StayFootprints, TakesIn, Ends};

    /// Returns an empty footprint for each caller.
    ///
    /// # Errors
    ///
    /// `AllocError` if memory is refused.
    ///
    /// # Cost
    ///
    /// Time and memory for 64 callers.
    pub fn new(alloc: Global) -> Result<Footprints, AllocError>
        ensures { IfOk result (HaveFootprints []) }
    {
        let mut table = Vec::with_capacity(alloc, CALLERS)?;
        for _ in 0..CALLERS {
            table.push(Footprint::new(alloc))?;
        }
        Ok(Footprints { table })
    }

    /// Applies an entry of the right shape. `callers` are the callers before the entry.
    ///
    /// # Errors
    ///
    /// `AllocError` if memory is refused for a Did. The footprints are then unchanged.
    ///
    /// # Cost
    ///
    /// A Did or an Undone takes time in proportion to the logarithm of the number of keys that its
    /// transaction asked for, and a Did may take memory. A Committed or an Aborted takes constant
    /// time for each of these keys. Any other entry takes constant time.
    pub fn take_in(&mut self, callers: &Callers, entry: &Entry) -> Result<(), AllocError>
        requires { caller_of entry.now < 64 }
        ensures ok { OnOk result (TakesIn entry.now callers.now self.old self.new) }
        ensures err { OnErr result (StayFootprints self.old self.new) }
    {
        match *entry {
            Entry::Did(caller, reply) => {
                if let Phase::Waiting(op) = callers.phase(caller) {
                    self.table[caller as usize].answer(op, reply)?;
                }
            }
            Entry::Undone(caller) => {
                if let Some((key, before)) = callers.newest_change(caller) {
                    self.table[caller as usize].put_back(key, before);
                }
            }
            Entry::Committed(caller, _) => self.end(caller),
            Entry::Aborted(caller) => self.end(caller),
            _ => {}
        }
        Ok(())
    }

    /// Empties the footprint of a caller, whose transaction ends.
    ///
    /// # Cost
    ///
    /// Constant time for each key of the transaction.
    pub fn end(&mut self, caller: u64)
        requires { caller < 64 }
        ensures { Ends caller self.old self.new }
    {
        self.table[caller as usize].clear();
    }

    /// The footprint of a caller's transaction.
    ///
    /// # Cost
    ///
    /// Constant time.
    pub fn of_caller(&self, caller: u64) -> &Footprint
        requires { caller < 64 }
        ensures { (h : List Entry) → HaveFootprints h self.now → IsOfCaller h caller result.now }
    {
        &self.table[caller as usize]
    }
}
