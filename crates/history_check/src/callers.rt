//! The type `Callers`, which judges the rule of shape. The judge by locks and the judge by the
//! order of commits both use it. The type keeps each caller's stance and changes, and how many
//! transactions have begun and committed. An entry takes amortized constant time.
ghost use Rattle.std.specs.Prelude.{◌≡◌, ℕ, ◌+◌, ◌<◌, ◌==◌, ◌++◌, [], ◌∷◌, List, length, true, slice_get, IfOk, OnOk, vec_len};
ghost use Rattle.txn_words.specs.Kinds.{caller_of, is_began, is_commit};
ghost use Rattle.txn_words.specs.Shape.{how_many, is_numbered, is_shaped};
ghost use Rattle.txn_words.specs.declared.entry.Entry.{Entry};

use crate::caller::Caller;
use key_locks::CALLERS;
use std::alloc::{AllocError, Global};
use txn_trace::{Entry, Phase, Reply};

/// The 64 callers of a history. Each has its stance, and the standing changes of its transaction. The
/// type also counts how many transactions began and committed.
///
/// This type is the judge of the rule of shape. `has_shape` returns true if an entry is allowed
/// next, and `enter` adds such an entry. In a contract, `HaveEntered h callers` says that the
/// entries `h` were added to `callers`, and that they have the right shape.
#[derive(Drop)]
pub struct Callers {
    /// How many transactions began.
    began: u64,
    /// How many transactions committed.
    committed: u64,
    /// Each caller, at the index of its number.
    table: Vec<Caller>,
    ghost all: { vec_len table ≡ 64 },
}

impl Callers {
    ghost use Rattle.txn_trace.specs.Legal.{running, callers_in};
    ghost use Rattle.txn_trace.specs.Locks.{has_begun};
    ghost use Rattle.txn_trace.specs.Log.{log_of};
    ghost use Rattle.history_check.specs.Callers.{HaveEntered, IsIn, HasRoomFor};

    /// The state of all callers before the first entry of a history.
    ///
    /// # Errors
    ///
    /// `AllocError` if memory is refused.
    ///
    /// # Cost
    ///
    /// Time and memory for 64 callers.
    pub fn new(alloc: Global) -> Result<Callers, AllocError>
        ensures { IfOk result (HaveEntered []) }
    {
        let mut table = Vec::with_capacity(alloc, CALLERS)?;
        for _ in 0..CALLERS {
            table.push(Caller::new(alloc))?;
        }
        Ok(Callers {
            began: 0,
            committed: 0,
            table,
        })
    }

    /// How many transactions are committed.
    ///
    /// # Cost
    ///
    /// Constant time; takes no memory.
    pub fn committed(&self) -> u64
        ensures { (h : List Entry) → HaveEntered h self.now → result ≡ how_many is_commit h }
    {
        self.committed
    }

    /// How many callers are in a transaction.
    ///
    /// # Cost
    ///
    /// A look at each of 64 callers; takes no memory.
    pub fn running(&self) -> u64
        ensures { (h : List Entry) → HaveEntered h self.now →
            result ≡ length (running (callers_in h) h) }
    {
        self.table
            .iter()
            .filter(|caller| caller.is_running())
            .count() as u64
    }

    /// Returns true if the entry has the right shape. That is so if the rule of shape (`row` of
    /// `txn_words`) has a row for the entry after its caller's earlier entries. A Began or
    /// Committed entry must also have the next number.
    ///
    /// # Cost
    ///
    /// Constant time; takes no memory.
    #[inline(always)]
    pub fn has_shape(&self, entry: &Entry) -> bool
        requires { caller_of entry.now < 64 }
        ensures { (h : List Entry) → HaveEntered h self.now → result ≡ is_shaped h entry.now }
    {
        let caller = entry.caller();
        let is_numbered = has_next_number(self.began, self.committed, entry);
        self.table[caller as usize].allows(entry) && is_numbered
    }

    /// The phase of a caller.
    ///
    /// # Cost
    ///
    /// Constant time; takes no memory.
    #[inline(always)]
    pub fn phase(&self, caller: u64) -> Phase
        requires { caller < 64 }
        ensures { (h : List Entry) → HaveEntered h self.now → IsIn h caller result }
    {
        self.table[caller as usize].phase()
    }

    /// The newest standing change of a caller's transaction: its key, and the key's value before
    /// the change.
    ///
    /// # Cost
    ///
    /// Constant time; takes no memory.
    #[inline(always)]
    pub fn newest_change(&self, caller: u64) -> Option<(u64, Reply)>
        requires { caller < 64 }
        ensures { (h : List Entry) → HaveEntered h self.now →
            result ≡ slice_get (log_of caller h) 0 }
    {
        self.table[caller as usize].newest()
    }

    /// Returns true if the caller has ever begun a transaction. Any number may be given for the
    /// caller.
    ///
    /// # Cost
    ///
    /// Constant time; takes no memory.
    #[inline(always)]
    pub fn has_begun(&self, caller: u64) -> bool
        ensures { (h : List Entry) → HaveEntered h self.now → result ≡ has_begun caller h }
    {
        match self.table.get(caller as usize) {
            Some(caller) => caller.has_begun,
            None => false,
        }
    }

    /// Makes room for the change that a Did entry may add, or for the savepoint that a Saved entry
    /// adds. Does not enter the entry.
    ///
    /// # Errors
    ///
    /// `AllocError` if memory is refused.
    ///
    /// # Cost
    ///
    /// Amortized constant time; may take memory.
    #[inline(always)]
    pub fn reserve(&mut self, entry: &Entry) -> Result<(), AllocError>
        requires { caller_of entry.now < 64 }
        ensures same { (h : List Entry) → HaveEntered h self.old → HaveEntered h self.new }
        ensures ok { OnOk result (HasRoomFor entry.now self.new) }
    {
        let caller = entry.caller();
        self.table[caller as usize].reserve(entry)
    }

    /// Enters an entry of the right shape, for which there is room.
    ///
    /// # Cost
    ///
    /// Amortized constant time, since it may drop changes and savepoints; takes no memory.
    #[inline(always)]
    pub fn enter(&mut self, entry: Entry)
        requires caller { caller_of entry < 64 }
        requires room { HasRoomFor entry self.old }
        ensures { (h : List Entry) → HaveEntered h self.old → is_shaped h entry ≡ true →
            HaveEntered (h ++ entry ∷ []) self.new }
    {
        self.began = began_after(self.began, entry);
        self.committed = committed_after(self.committed, entry);
        let caller = entry.caller();
        self.table[caller as usize].enter(entry);
    }
}

/// Returns true if the entry neither begins nor commits a transaction, or if it has the next number
/// of its kind.
#[inline(always)]
fn has_next_number(began: u64, committed: u64, entry: &Entry) -> bool
    ensures { (h : List Entry) →
        began ≡ how_many is_began h → committed ≡ how_many is_commit h →
        result ≡ is_numbered h entry.now }
{
    match *entry {
        Entry::Began(_, txn) => is_next(began, txn),
        Entry::Committed(_, number) => is_next(committed, number),
        _ => true,
    }
}

/// Whether the number is one more than the number before it.
#[inline(always)]
fn is_next(before: u64, number: u64) -> bool
    ensures { result ≡ (number == before + 1) }
{
    before.checked_add(1) == Some(number)
}

/// How many transactions have begun, including the one that this entry may begin. The entry's
/// number must be right.
#[inline(always)]
fn began_after(began: u64, entry: Entry) -> u64
    ensures { (h : List Entry) → began ≡ how_many is_began h → is_numbered h entry ≡ true →
        result ≡ how_many is_began (h ++ entry ∷ []) }
{
    match entry {
        Entry::Began(_, txn) => txn,
        _ => began,
    }
}

/// How many transactions have committed, including the one that this entry may commit. The entry's
/// number must be right.
#[inline(always)]
fn committed_after(committed: u64, entry: Entry) -> u64
    ensures { (h : List Entry) → committed ≡ how_many is_commit h → is_numbered h entry ≡ true →
        result ≡ how_many is_commit (h ++ entry ∷ []) }
{
    match entry {
        Entry::Committed(_, number) => number,
        _ => committed,
    }
}
