//! A caller's stance: the state that the rule of shape gives a caller. It depends only on the
//! caller's own entries so far. Most refusals of the caller's next step depend only on this state.
//!
//! The tests of the stance are inlined into the code of each step (`inline(always)`). The kind of
//! step is known there, so most tests take no instruction.
ghost use Rattle.std.specs.Prelude.{◌≡◌, ℕ, ◌+◌, ◌-◌, ◌<◌, ◌≤◌, ◌^◌, true, false, is_some, length, slice_get, slice_index, Some, OnOk, OnErr};
ghost use Rattle.txn_words.specs.declared.stance.Phase.TheVariants.{Opened};
ghost use Rattle.txn_words.specs.Shape.{row, capacity, closed_stance};
ghost use Rattle.txn_words.specs.Stances.{first_of, has_job, has_target, is_saved, refusal_in, unready_tests};
ghost use Rattle.txn_words.specs.Owed.{owed_in};

use crate::entry::Entry;
use crate::limits::Limits;
use crate::op::{Op, Reply};
use crate::refusal::Refusal;
use crate::step::Step;
use std::alloc::{AllocError, Global};
use std::marker::Model;

/// A caller's phase. For each phase, the rule of shape says which entries of the caller may follow.
#[derive(Clone, Copy, Debug, PartialEq, Eq)]
pub enum Phase {
    /// The caller has no transaction.
    Closed,
    /// The caller's transaction is open, and nothing in it is unfinished.
    Opened,
    /// An operation was asked for and has no reply yet.
    Waiting(Op),
    /// The caller takes changes back until it reaches this level.
    LeavingTo(u64),
    /// The caller takes all its changes back. After that its transaction ends.
    LeavingToEnd,
}

/// A caller's stance: the caller's phase, how many of its changes stand, and how many stood at each
/// savepoint. A change stands until it is taken back or its transaction ends.
///
/// A contract sees two parts. `stance` is the stance as the definitions have it. It also lists level 0,
/// at which no change stood. `room` is the number of further `Saved` entries for which the stance has
/// memory.
#[derive(Drop)]
pub struct Stance {
    phase: Phase,
    standing: u64,
    savepoints: Vec<u64>,
}

impl Model for Stance {
    ghost use Rattle.std.specs.Prelude.{◌-◌, ◌∷◌, vec_len, vec_capacity};
    ghost use Rattle.txn_words.specs.Shape.{RoomyStance};

    ghost Value = { RoomyStance };

    ghost view = { λ s. record {
      stance = record { phase = s.phase; standing = s.standing; kept = 0 ∷ s.savepoints.items };
      room = vec_capacity s.savepoints - vec_len s.savepoints;
    } };
}

impl Stance {
    /// The stance of a caller without a transaction.
    pub fn new(alloc: Global) -> Stance
        ensures { result.stance ≡ closed_stance }
    {
        Stance {
            phase: Phase::Closed,
            standing: 0,
            savepoints: Vec::new(alloc),
        }
    }

    /// The caller's phase.
    pub fn phase(&self) -> Phase
        ensures { result ≡ self.now.stance.phase }
    {
        self.phase
    }

    /// How many of the caller's changes stand, which means that they are not taken back.
    pub fn standing(&self) -> u64
        ensures { result ≡ self.now.stance.standing }
    {
        self.standing
    }

    /// How many savepoints there are.
    pub fn levels(&self) -> u64
        ensures { length self.now.stance.kept ≡ result + 1 }
    {
        self.savepoints.len() as u64
    }

    /// How many changes stood at a level. At level 0 there were none. Returns `None` if there is no
    /// such level.
    pub fn kept(&self, level: u64) -> Option<u64>
        ensures { result ≡ slice_get self.now.stance.kept level }
    {
        match level.checked_sub(1) {
            Some(savepoint) => self.savepoints.get(savepoint as usize).copied(),
            None => Some(0),
        }
    }

    /// Returns true if the caller is taking changes back and has at least one more to take back.
    pub fn has_job(&self) -> bool
        ensures { result ≡ has_job self.now.stance }
    {
        match self.phase {
            Phase::LeavingTo(level) => self.kept_at(level) < self.standing,
            Phase::LeavingToEnd => 0 < self.standing,
            _ => false,
        }
    }

    /// Returns true if there is something to seek: an operation that waits, or a change to take
    /// back.
    #[inline(always)]
    pub fn has_target(&self) -> bool
        ensures { result ≡ has_target self.now.stance }
    {
        matches!(self.phase, Phase::Waiting(_)) || self.has_job()
    }

    /// The refusal that the stance gives to this step of its caller, or `None` if the stance does not
    /// refuse the step. The limits say whether only half keys are allowed.
    #[inline(always)]
    pub fn refusal(&self, limits: Limits, step: Step) -> Option<Refusal>
        ensures { result ≡ refusal_in limits.half self.now.stance step }
    {
        match step {
            Step::Begin(_) => match self.phase {
                Phase::Closed => None,
                Phase::Opened | Phase::Waiting(_) => Some(Refusal::AlreadyOpen),
                Phase::LeavingTo(_) | Phase::LeavingToEnd => Some(Refusal::Leaving),
            },
            Step::Ask(_, op) => {
                let is_bad = limits.is_bad_key(op.key());
                self.unready().or(is_bad.then_some(Refusal::BadKey))
            }
            Step::Seek(_) => match self.phase {
                Phase::Closed => Some(Refusal::NotOpen),
                _ => (!self.has_target()).then_some(Refusal::NothingToSeek),
            },
            Step::Act(_) => match self.phase {
                Phase::Closed => Some(Refusal::NotOpen),
                Phase::Opened => Some(Refusal::NothingToSeek),
                Phase::Waiting(_) | Phase::LeavingTo(_) | Phase::LeavingToEnd => None,
            },
            Step::Save(_) | Step::Commit(_) => self.unready(),
            Step::Back(_, level) => {
                let is_above = self.levels() < level;
                self.unready().or(is_above.then_some(Refusal::NoSuchLevel))
            }
            Step::Abort(_) => match self.phase {
                Phase::Closed => Some(Refusal::NotOpen),
                Phase::Opened | Phase::Waiting(_) => None,
                Phase::LeavingTo(_) | Phase::LeavingToEnd => Some(Refusal::Leaving),
            },
            Step::Sweep
            | Step::InitSeek(..)
            | Step::InitLink(_)
            | Step::InitStore(_)
            | Step::Double(_) => None,
        }
    }

    /// The refusal, if any, of a step that needs an open transaction with nothing unfinished.
    fn unready(&self) -> Option<Refusal>
        ensures { result ≡ first_of (unready_tests self.now.stance.phase) }
    {
        match self.phase {
            Phase::Closed => Some(Refusal::NotOpen),
            Phase::Opened => None,
            Phase::Waiting(_) => Some(Refusal::OperationUnfinished),
            Phase::LeavingTo(_) | Phase::LeavingToEnd => Some(Refusal::Leaving),
        }
    }

    /// How many changes stood at a level, or 0 if there is no such level.
    fn kept_at(&self, level: u64) -> u64
        ensures { result ≡ slice_index self.now.stance.kept level }
    {
        self.kept(level).unwrap_or(0)
    }

    /// The number of entries that the stance's caller may add without a new reservation. The entries
    /// are:
    ///
    /// - the reply to an operation that waits, and the operation's undoing if it may change the
    ///   map;
    /// - the `Returned` of a return to a level;
    /// - the entries of an abort: a `Leave` unless the abort has begun, an `Undone` for each change
    ///   that stands, and `Aborted`.
    #[inline(always)]
    pub fn owed(&self) -> u64
        requires { owed_in self.now.stance.standing self.now.stance.phase < 2 ^ 64 }
        ensures { result ≡ owed_in self.now.stance.standing self.now.stance.phase }
    {
        match self.phase {
            Phase::Closed => 0,
            Phase::Opened => 2 + self.standing,
            Phase::Waiting(op) => 2 + self.standing + op.owed(),
            Phase::LeavingTo(_) => 3 + self.standing,
            Phase::LeavingToEnd => 1 + self.standing,
        }
    }

    /// Makes room for one more savepoint, unless there is room already. The stance is unchanged, and
    /// the room never shrinks.
    ///
    /// # Errors
    ///
    /// `AllocError` if there is no room and memory is refused.
    ///
    /// # Cost
    ///
    /// Amortized constant time; takes memory only if there is no room.
    pub fn reserve_level(&mut self) -> Result<(), AllocError>
        ensures stance { self.new.stance ≡ self.old.stance }
        ensures room { self.old.room ≤ self.new.room }
        ensures ok { OnOk result (0 < self.new.room) }
        ensures err { OnErr result (self.old.room ≡ 0) }
    {
        self.savepoints.reserve(1)
    }

    /// Returns true if the rule of shape allows this entry as the caller's next one.
    #[inline(always)]
    pub fn allows(&self, entry: &Entry) -> bool
        ensures { result ≡ is_some (row self.now.stance self.now.stance.phase entry.now) }
    {
        match self.phase {
            Phase::Closed => matches!(entry, Entry::Began(..)),
            Phase::Opened => self.allows_opened(entry),
            Phase::Waiting(_) => matches!(entry, Entry::Did(..) | Entry::Leave(_, None)),
            Phase::LeavingTo(level) => match *entry {
                Entry::Undone(_) => self.has_job(),
                Entry::Returned(_, to) => level == to && self.kept_at(level) == self.standing,
                _ => false,
            },
            Phase::LeavingToEnd => match *entry {
                Entry::Undone(_) => self.has_job(),
                Entry::Aborted(_) => self.standing == 0,
                _ => false,
            },
        }
    }

    /// Like `allows`, for a caller whose transaction is open with nothing unfinished.
    fn allows_opened(&self, entry: &Entry) -> bool
        ensures { result ≡ is_some (row self.now.stance Opened entry.now) }
    {
        match *entry {
            Entry::Asked(..)
            | Entry::Busy(..)
            | Entry::Saved(_)
            | Entry::Leave(_, None)
            | Entry::Committed(..) => true,
            Entry::Leave(_, Some(level)) => level <= self.levels(),
            _ => false,
        }
    }

    /// If the rule of shape allows this entry next, updates the stance by the entry and returns true.
    /// Otherwise returns false and leaves the stance unchanged. A `Saved` uses room for one
    /// savepoint. A savepoint that is dropped frees its room.
    ///
    /// # Cost
    ///
    /// Amortized constant time, since savepoints may be dropped. Takes no memory.
    #[inline(always)]
    pub fn enter(&mut self, entry: Entry) -> bool
        requires standing { self.old.stance.standing < 2 ^ 64 - 1 }
        requires room { is_saved entry ≡ true → 0 < self.old.room }
        ensures is_allowed { result ≡ is_some (row self.old.stance self.old.stance.phase entry) }
        ensures stance { result ≡ true →
            row self.old.stance self.old.stance.phase entry ≡ Some self.new.stance }
        ensures room { capacity self.new ≡ capacity self.old }
        ensures same { result ≡ false → self.new ≡ self.old }
    {
        if !self.allows(&entry) {
            return false;
        }
        match entry {
            Entry::Began(..) => self.open(),
            Entry::Asked(_, op) => self.phase = Phase::Waiting(op),
            Entry::Did(_, reply) => self.reply(reply),
            Entry::Saved(_) => self.savepoints.push_reserved(self.standing),
            Entry::Leave(_, Some(level)) => self.phase = Phase::LeavingTo(level),
            Entry::Leave(_, None) | Entry::Busy(..) => self.phase = Phase::LeavingToEnd,
            Entry::Undone(_) => self.standing -= 1,
            Entry::Returned(_, level) => {
                self.phase = Phase::Opened;
                self.savepoints.truncate(level as usize);
            }
            Entry::Committed(..) | Entry::Aborted(_) => self.close(),
        }
        true
    }

    /// Updates the stance by the reply to the operation that waits.
    #[inline(always)]
    fn reply(&mut self, reply: Reply)
        requires { self.old.stance.standing < 2 ^ 64 - 1 }
        ensures stance { (c : ℕ) →
            is_some (row self.old.stance self.old.stance.phase (Entry.Did c reply)) ≡ true
            → row self.old.stance self.old.stance.phase (Entry.Did c reply) ≡ Some self.new.stance }
        ensures room { capacity self.new ≡ capacity self.old }
    {
        if let Phase::Waiting(op) = self.phase {
            if op.changes(reply) {
                self.standing += 1;
            }
            self.phase = Phase::Opened;
        }
    }

    /// Ends the transaction.
    fn close(&mut self)
        ensures stance { self.new.stance ≡ closed_stance }
        ensures room { capacity self.new ≡ capacity self.old }
    {
        self.phase = Phase::Closed;
        self.standing = 0;
        self.savepoints.clear();
    }

    /// Begins a transaction.
    fn open(&mut self)
        ensures stance { self.new.stance ≡ record closed_stance { phase = Opened } }
        ensures room { capacity self.new ≡ capacity self.old }
    {
        self.close();
        self.phase = Phase::Opened;
    }
}
