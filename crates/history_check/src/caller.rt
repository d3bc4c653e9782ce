//! The state of a caller after its entries so far: its stance, whether it has begun a transaction,
//! and its standing changes with the values before them. A change stands while no Undone entry has
//! taken it back. `callers.rt` numbers the transactions, across all callers. Invariant: the stance's
//! number of standing changes is the number of changes that are noted.
ghost use Rattle.std.specs.Prelude.{◌≡◌, ◌<◌, [], true, false, reverse, slice_get, vec_len, vec_capacity, is_some, OnOk};
ghost use Rattle.txn_words.specs.Kinds.{is_began};
ghost use Rattle.txn_words.specs.Shape.{closed_stance, row};
ghost use Rattle.txn_trace.specs.Legal.{runs};
ghost use Rattle.history_check.specs.Logs.{is_did, log_entered};

use std::alloc::{AllocError, Global};
use txn_trace::{Entry, Phase, Reply, Stance};

/// A caller: its stance, and whether it has begun a transaction. `changes` has the key of each
/// standing change and the key's value before the change, oldest change first.
#[derive(Drop)]
pub(crate) struct Caller {
    pub(crate) stance: Stance,
    pub(crate) has_begun: bool,
    pub(crate) changes: Vec<(u64, Reply)>,
    ghost all_noted: { vec_len changes ≡ stance.stance.standing },
}

impl Caller {
    ghost use Rattle.history_check.specs.Callers.{stance_of, log_in, HasRoom, Enters};

    /// A caller without a transaction. Takes no memory.
    pub(crate) fn new(alloc: Global) -> Caller
        ensures stance { stance_of result ≡ closed_stance }
        ensures log { log_in result ≡ [] }
        ensures begun { result.has_begun ≡ false }
    {
        Caller {
            stance: Stance::new(alloc),
            has_begun: false,
            changes: Vec::new(alloc),
        }
    }

    /// The phase of the caller's stance.
    #[inline(always)]
    pub(crate) fn phase(&self) -> Phase
        ensures { result ≡ (stance_of self.now).phase }
    {
        self.stance.phase()
    }

    /// Whether the caller is in a transaction.
    pub(crate) fn is_running(&self) -> bool
        ensures { result ≡ runs (stance_of self.now).phase }
    {
        !matches!(self.stance.phase(), Phase::Closed)
    }

    /// Returns true if the rule of shape allows this entry as the caller's next entry.
    #[inline(always)]
    pub(crate) fn allows(&self, entry: &Entry) -> bool
        ensures { result ≡ is_some (row (stance_of self.now) (stance_of self.now).phase entry.now) }
    {
        self.stance.allows(entry)
    }

    /// The newest standing change: its key, and the key's value before the change.
    #[inline(always)]
    pub(crate) fn newest(&self) -> Option<(u64, Reply)>
        ensures { result ≡ slice_get (log_in self.now) 0 }
    {
        self.changes.last().copied()
    }

    /// Makes room for the change that a Did entry may add, or for the savepoint that a Saved entry
    /// adds.
    #[inline(always)]
    pub(crate) fn reserve(&mut self, entry: &Entry) -> Result<(), AllocError>
        ensures stance { stance_of self.new ≡ stance_of self.old }
        ensures log { log_in self.new ≡ log_in self.old }
        ensures begun { self.new.has_begun ≡ self.old.has_begun }
        ensures ok { OnOk result (HasRoom entry.now self.new) }
    {
        match entry {
            Entry::Did(..) => self.changes.reserve(1),
            Entry::Saved(_) => self.stance.reserve_level(),
            _ => Ok(()),
        }
    }

    /// Enters an entry. The caller must allow the entry and must have room for it.
    #[inline(always)]
    pub(crate) fn enter(&mut self, entry: Entry)
        requires { HasRoom entry self.old }
        ensures { is_some (row (stance_of self.old) (stance_of self.old).phase entry) ≡ true →
            Enters entry self.old self.new }
    {
        let phase = self.stance.phase();
        self.has_begun |= begins(entry);
        if self.stance.enter(entry) {
            note(&mut self.changes, phase, entry);
        }
    }
}

/// Whether an entry begins a transaction.
#[inline(always)]
fn begins(entry: Entry) -> bool
    ensures { result ≡ is_began entry }
{
    matches!(entry, Entry::Began(..))
}

/// Updates the list of changes by an entry in this phase. A Did entry adds its change, if it makes
/// a change. An Undone entry drops the newest change. A Began, Committed or Aborted entry drops all
/// changes.
#[inline(always)]
fn note(changes: &mut Vec<(u64, Reply)>, phase: Phase, entry: Entry)
    requires { is_did entry ≡ true → vec_len changes.old < vec_capacity changes.old }
    ensures { reverse changes.new.items ≡ log_entered phase (reverse changes.old.items) entry }
{
    match entry {
        Entry::Did(_, reply) => {
            if let Phase::Waiting(op) = phase {
                if op.changes(reply) {
                    changes.push_reserved((op.key(), reply));
                }
            }
        }
        Entry::Undone(_) => {
            changes.pop();
        }
        Entry::Began(..) | Entry::Committed(..) | Entry::Aborted(_) => changes.clear(),
        _ => {}
    }
}
