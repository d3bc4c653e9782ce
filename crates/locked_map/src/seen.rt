//! The entries that a caller has seen, the caller's stance after these entries, and its share of the
//! ledger. They are one type, since `note` adds an entry to all three. Invariant: the share counts
//! the entries, and there is room for all entries that the caller owes, so no commit or abort is
//! refused memory here.
ghost use Rattle.std.specs.Prelude.{◌≡◌, ◌+◌, ◌<◌, ◌≤◌, ◌^◌, ℕ, true, [], ◌++◌, is_some, length};
ghost use Rattle.std.specs.Prelude.{Some, OnOk, OnErr};
ghost use Rattle.txn_words.specs.Entries.{entries_of};
ghost use Rattle.txn_words.specs.Owed.{owed_by};
ghost use Rattle.txn_words.specs.Packed.{is_small};
ghost use Rattle.txn_words.specs.Shape.{Stance as Standing, stance_after};
ghost use Rattle.txn_words.specs.Stances.{refusal_in};
ghost use Rattle.locked_map.specs.Noted.{AddsSmall, HasRoomFor, adds_entry, began_by, last_txn};

use std::alloc::{AllocError, Global};
use std::marker::Model;
use std::sync::ledger::{Book, Ledger, Share};
use txn_trace::{Answer, Entry, Limits, Refusal, SmallEntry, Stance, Step, entry_of};

/// The entries that a caller's calls have added, in order, and the caller's stance after these
/// entries.
///
/// The type guarantees that there is room for all entries that the caller owes, and that the share
/// of the map's ledger counts the entries.
#[derive(Drop)]
pub(crate) struct Seen<L: Ledger> {
    entries: Vec<SmallEntry>,
    stance: Stance,
    is_whole: bool,
    txn: u64,
    pub(crate) share: Share<L>,
}

impl<L: Ledger> Model for Seen<L> {
    ghost use Rattle.std.specs.Prelude.{◌-◌, vec_len, vec_capacity};
    ghost use Rattle.locked_map.specs.Noted.{Noted, IsNoted};

    ghost Value = { Noted };

    ghost view = { λ s. record {
      entries = s.entries.items;
      room = vec_capacity s.entries - vec_len s.entries;
      save_room = s.stance.room;
    } };

    ghost invariant = { λ s.
        IsNoted s.entries s.stance s.is_whole s.txn s.share.parts s.share.amount };
}

impl<L: Ledger> Seen<L> {
    /// No entries yet.
    pub(crate) fn new(alloc: Global, share: Share<L>) -> Seen<L>
        requires parts { share.parts ≡ 1 }
        requires amount { share.amount ≡ 0 }
        ensures { result.entries ≡ [] }
    {
        Seen {
            entries: Vec::new(alloc),
            stance: Stance::new(alloc),
            is_whole: true,
            txn: 0,
            share,
        }
    }

    /// The entries, packed.
    pub(crate) fn entries(&self) -> &[SmallEntry]
        ensures value { result.now ≡ self.now.entries }
        ensures room { owed_by (stance_after self.now.entries) ≤ self.now.room }
        ensures small { length self.now.entries < 2 ^ 63 }
    {
        &self.entries
    }

    /// Whether the rule of shape allows each entry.
    pub(crate) fn is_whole(&self) -> bool
        ensures { result ≡ is_some (stance_after self.now.entries) }
    {
        self.is_whole
    }

    /// The number of the caller's last transaction, or 0 if the caller has begun none.
    pub(crate) fn txn(&self) -> u64
        ensures { result ≡ last_txn self.now.entries }
    {
        self.txn
    }

    /// The number of savepoints of the caller's transaction.
    pub(crate) fn levels(&self) -> u64
        ensures { (s : Standing) → stance_after self.now.entries ≡ Some s
            → length s.kept ≡ result + 1 }
    {
        self.stance.levels()
    }

    /// The refusal that the caller's stance gives to a step under these limits, if it refuses the
    /// step.
    pub(crate) fn refusal(&self, limits: Limits, step: Step) -> Option<Refusal>
        ensures { (s : Standing) → stance_after self.now.entries ≡ Some s
            → result ≡ refusal_in limits.half s step }
    {
        self.stance.refusal(limits, step)
    }

    /// Makes room for `entries` more entries.
    ///
    /// # Errors
    ///
    /// `AllocError` if memory is refused.
    pub(crate) fn reserve_entries(&mut self, entries: usize) -> Result<(), AllocError>
        ensures { self.new.entries ≡ self.old.entries }
    {
        self.entries.reserve(entries)
    }

    /// Makes room for the entry and the savepoint that a step may add, and for all entries that are
    /// owed after the step.
    ///
    /// # Errors
    ///
    /// `AllocError` if memory is refused, which happens only if there was no such room.
    #[inline(always)]
    pub(crate) fn reserve(&mut self, step: Step) -> Result<(), AllocError>
        requires { is_some (stance_after self.old.entries) ≡ true }
        ensures entries { self.new.entries ≡ self.old.entries }
        ensures ok { OnOk result (HasRoomFor self.new step) }
        ensures full { OnErr result (HasRoomFor self.old step → ⊥) }
    {
        // By the contract of `entries`, there is room for all entries that are owed.
        let _seen = self.entries();
        if !adds_entry(step) {
            return Ok(());
        }
        let wanted = (self.stance.owed() + step.entry_room()).max(1);
        self.entries.reserve(wanted as usize)?;
        if let Step::Save(_) = step {
            self.stance.reserve_level()?;
        }
        Ok(())
    }

    /// Adds the entries of a step with this answer to the entries seen, and counts them in the
    /// book.
    #[inline(always)]
    pub(crate) fn note(&mut self, book: &mut Book<L>, step: Step, answer: Answer)
        requires whole { is_some (stance_after self.old.entries) ≡ true }
        requires room { HasRoomFor self.old step }
        requires small { AddsSmall step answer }
        ensures entries { self.new.entries ≡ self.old.entries ++ entries_of step answer }
        ensures book { book.new.total ≡ book.old.total + length (entries_of step answer) }
        ensures same { entries_of step answer ≡ [] → self.new ≡ self.old }
    {
        // By the contract of `entries`, there is room for all entries that are owed.
        let _seen = self.entries();
        let Some(entry) = entry_of(step, answer) else {
            return;
        };
        self.entries.push_reserved(packed(entry));
        self.is_whole = self.stance.enter(entry);
        self.txn = began_by(self.txn, entry);
        book.add(&mut self.share, 1);
    }
}

/// A small entry, packed.
#[inline(always)]
fn packed(entry: Entry) -> SmallEntry
    requires { is_small entry ≡ true }
    ensures { result ≡ entry }
{
    SmallEntry::new(entry).unwrap()
}

/// The number of the transaction that an entry begins, or `before` if the entry begins none.
fn began_by(before: u64, entry: Entry) -> u64
    ensures { result ≡ began_by before entry }
{
    match entry {
        Entry::Began(_, txn) => txn,
        _ => before,
    }
}

/// Whether a step may add an entry.
fn adds_entry(step: Step) -> bool
    ensures { result ≡ adds_entry step }
{
    matches!(
        step,
        Step::Begin(_)
            | Step::Ask(..)
            | Step::Act(_)
            | Step::Save(_)
            | Step::Back(..)
            | Step::Commit(_)
            | Step::Abort(_)
    )
}
