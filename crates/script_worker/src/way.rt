//! The progress of a worker through its scripts, as the entries of the worker's caller show it. The
//! pass over a history has one `Way` for each worker, and gives it only the entries of that
//! worker's caller. The two positions of a `Way`, `next` and `turn`, are numbers of scripts. They
//! never decrease. Each of them, modulo the number of workers, is the worker's number (`Advances`).
//! No contract says how often a script is compared with transactions.
ghost use Rattle.std.specs.Prelude.{◌≡◌, ◌⊎◌, ℕ, ◌+◌, ◌%◌, ◌^◌, ◌<◌, ◌≤◌, [], OnOk, length};
ghost use Rattle.script_worker.specs.Outcomes.{grown};
ghost use Rattle.script_worker.specs.Ways.{IsFirstPlayed, IsFirstLeft, MayCount, CountsCommit, CountsAbort, TakesEntry};

use crate::matching::{Fit, compare, plays};
use crate::outcome::Outcome;
use std::alloc::{AllocError, Global};
use txn_trace::{Entry, Script};

/// The scripts, and how often each is tried again. Script `i` belongs to worker `i` modulo
/// `workers`.
#[derive(Drop)]
pub(crate) struct Work<'a> {
    pub(crate) scripts: &'a [Script],
    pub(crate) workers: usize,
    pub(crate) tries: u64,
    ghost some: { 0 < workers },
    ghost few: { length scripts.now + workers < 2 ^ 64 },
}

/// The progress of a worker through its scripts.
#[derive(Drop)]
pub(crate) struct Way {
    /// The entries of the worker's latest transaction, without those that take changes back.
    pub(crate) part: Vec<Entry>,
    /// The worker's first script for which a commit may still be counted.
    pub(crate) next: usize,
    /// The worker's first script that may still be tried: `next` or a later one.
    pub(crate) turn: usize,
    /// How many attempts at the script `turn` found a stripe held.
    pub(crate) busy: u64,
}

impl Way {
    /// The progress of a worker that has no entry yet.
    pub(crate) fn new(alloc: Global, worker: usize) -> Way
        ensures part { result.part.items ≡ [] }
        ensures next { result.next ≡ worker }
        ensures turn { result.turn ≡ worker }
    {
        Way {
            part: Vec::new(alloc),
            next: worker,
            turn: worker,
            busy: 0,
        }
    }

    /// Adds an entry to the transaction. A Began starts a new transaction, and an Undone is left
    /// out.
    fn grow(&mut self, entry: Entry) -> Result<(), AllocError>
        ensures part { OnOk result (self.new.part.items ≡ grown self.old.part.items entry) }
        ensures next { self.new.next ≡ self.old.next }
        ensures turn { self.new.turn ≡ self.old.turn }
    {
        match entry {
            Entry::Undone(_) => {}
            Entry::Began(..) => {
                self.part.clear();
                self.part.push(entry)?;
            }
            _ => self.part.push(entry)?,
        }
        Ok(())
    }

    /// Tries the worker's scripts in order, beginning at the position `next`. Returns the number of
    /// the first script that the transaction plays. If the transaction plays none of them, returns
    /// a number past all scripts.
    fn first_played(&self, work: &Work<'_>) -> usize
        requires { 0 < work.now.workers }
        ensures { IsFirstPlayed work.now.workers work.now.scripts.now self.now.part.items
            self.now.next result }
    {
        let mut number = self.next;
        while number < work.scripts.len() {
            if plays(work.scripts[number].actions(), &self.part) {
                return number;
            }
            number += work.workers;
        }
        number
    }

    /// Tries the worker's scripts in order, beginning at the position `turn`. Returns the number of
    /// the first script that the aborted transaction follows (`compare`), and whether the
    /// transaction reached this script's own abort. If the transaction follows none of them,
    /// returns a number past all scripts, and `false`.
    fn first_left(&self, work: &Work<'_>) -> (usize, bool)
        requires { 0 < work.now.workers }
        ensures { IsFirstLeft work.now.workers work.now.scripts.now self.now.part.items
            self.now.turn result.0 result.1 }
    {
        let mut number = self.turn;
        while number < work.scripts.len() {
            match compare(work.scripts[number].actions(), &self.part) {
                Fit::Itself => return (number, true),
                Fit::Refused => return (number, false),
                Fit::Other => number += work.workers,
            }
        }
        (number, false)
    }

    /// Sets `next` to `number`. If `turn` is smaller than `number`, also sets `turn` to `number`.
    /// The scripts before `number` are over.
    fn go_on(&mut self, number: usize)
        ensures part { self.new.part.items ≡ self.old.part.items }
        ensures next { self.new.next ≡ number }
        ensures turn { ((self.old.turn < number) × (self.new.turn ≡ number))
            ⊎ ((number ≤ self.old.turn) × (self.new.turn ≡ self.old.turn)) }
    {
        self.next = number;
        if self.turn < number {
            self.turn = number;
            self.busy = 0;
        }
    }

    /// The transaction has committed. The worker's scripts are tried in order, beginning at the
    /// position `next`. The commit is counted for the first script that the transaction plays. If
    /// the transaction plays none of them, neither this commit nor a later one of the worker is
    /// counted.
    fn commit(&mut self, work: &Work<'_>, place: u64, entry: u64, outcomes: &mut [Outcome])
        requires may { MayCount work.now.workers work.now.scripts.now self.old outcomes.old }
        ensures { CountsCommit work.now.workers work.now.scripts.now place entry self.old self.new
            outcomes.old outcomes.new }
    {
        let number = self.first_played(work);
        if number < work.scripts.len() {
            outcomes[number] = Outcome::Committed { place, entry };
            self.go_on(number + work.workers);
        } else {
            self.go_on(number);
        }
    }

    /// The transaction was aborted after a Leave without a level. The worker's scripts are tried in
    /// order, beginning at the position `turn`. The first script that the transaction follows
    /// (`compare`) is over now. If the transaction reached this script's own abort, the abort is
    /// counted for the script. If the transaction follows none of the scripts, neither this abort
    /// nor a later one of the worker is counted.
    fn leave(&mut self, work: &Work<'_>, entry: u64, outcomes: &mut [Outcome])
        requires may { MayCount work.now.workers work.now.scripts.now self.old outcomes.old }
        ensures { CountsAbort work.now.workers work.now.scripts.now entry self.old self.new
            outcomes.old outcomes.new }
    {
        let (number, reached) = self.first_left(work);
        self.busy = 0;
        if work.scripts.len() <= number {
            self.turn = number;
        } else if reached {
            outcomes[number] = Outcome::Aborted { entry };
            self.turn = number + work.workers;
        } else {
            self.turn = number + work.workers;
        }
    }

    /// An attempt at the script `turn` found a stripe held. If the script may not be tried again,
    /// it is over.
    fn give_way(&mut self, work: &Work<'_>)
        requires { 0 < work.now.workers }
        ensures part { self.new.part.items ≡ self.old.part.items }
        ensures next { self.new.next ≡ self.old.next }
        ensures turn { self.old.turn ≤ self.new.turn }
        ensures mine { self.new.turn % work.now.workers ≡ self.old.turn % work.now.workers }
    {
        if self.busy < work.tries {
            self.busy += 1;
        } else if self.turn < work.scripts.len() {
            self.turn += work.workers;
            self.busy = 0;
        }
    }

    /// Whether the transaction was aborted after a Leave without a level, and not after a Busy.
    fn has_left(&self) -> bool {
        matches!(
            self.part.as_slice(),
            [.., Entry::Leave(_, None), Entry::Aborted(_)]
        )
    }

    /// Processes the next entry of the worker's caller. The entry has this index in the history.
    pub(crate) fn take_in(
        &mut self,
        work: &Work<'_>,
        entry: Entry,
        index: u64,
        outcomes: &mut [Outcome],
    ) -> Result<(), AllocError>
        requires may { MayCount work.now.workers work.now.scripts.now self.old outcomes.old }
        ensures { OnOk result (TakesEntry work.now.workers work.now.scripts.now entry index
            self.old self.new outcomes.old outcomes.new) }
    {
        self.grow(entry)?;
        match entry {
            Entry::Committed(_, place) => {
                self.commit(work, place, index, outcomes);
                Ok(())
            }
            Entry::Aborted(_) => {
                if self.has_left() {
                    self.leave(work, index, outcomes);
                    return Ok(());
                }
                Ok(())
            }
            Entry::Busy(..) => {
                self.give_way(work);
                Ok(())
            }
            _ => Ok(()),
        }
    }
}
