//! The steps by which a caller works on the map: ask, seek and act. All memory that an operation
//! and its inverse need is reserved by the ask; a seek and an act take none. Only these steps of a
//! session lock stripes, act at cursors and change keys; only the seek walks the list.
ghost use Rattle.std.specs.Prelude.{◌≡◌, ◌+◌, ◌<◌, ◌≤◌, ◌++◌, ◌⊎◌, true, false, None, Ok, length, not, ◌&&◌, ◌||◌, is_some, option_to_list, IfOk, IfErr, OnOk, OnErr};
ghost use Rattle.map_ops.specs.Changes.{OwnsIf, GivesBack};
ghost use Rattle.map_ops.specs.TableAt.{table_changes};
ghost use Rattle.boost_core.specs.Sessions.{KeepsPlaced, unless_busy};

use crate::claim::Claim;
use crate::session::Session;
use key_locks::{KeyLocks, LockAnswer};
use map_ops::{Act, MapJob, Pending, Table, Undo};
use txn_trace::{Answer, Op, Phase, Refusal};
use undo_log::UndoLog;

impl Session {
    ghost use Rattle.txn_words.specs.Stances.{has_target, is_waiting, is_leaving};
    ghost use Rattle.boost_core.specs.Sessions.{AsksBy, GoesWith, IsAsked, SeeksIn, ActsIn, Replies, Undoes, Arrives, CanAct, CanUndo, CanArrive, reach, side_of};
    ghost use Rattle.map_ops.specs.Changes.{Prepares, IsRefused};

    /// Asks for an operation with a claim to its stripe. If the claim is a word, nothing is
    /// reserved or locked.
    #[inline(always)]
    pub(crate) fn ask_by(
        &mut self,
        claim: Claim,
        caller: usize,
        stripe: usize,
        op: Op,
        table: &mut Table,
        locks: &mut KeyLocks,
    ) -> Answer
        requires caller { caller < 64 }
        requires stripe { stripe < length locks.old }
        ensures asked { AsksBy claim caller stripe op (reach self.old table.old locks.old) result
            (reach self.new table.new locks.new) }
        ensures rises { table_changes table.old ≤ table_changes table.new }
        ensures placed { KeepsPlaced table.old table.new }
    {
        match claim {
            Claim::Lock => self.ask(caller, stripe, op, table, locks),
            Claim::Right => unless_busy(self.ask(caller, stripe, op, table, locks)),
            Claim::Held(holder) => Answer::Busy(holder),
            Claim::Stale => Answer::Refused(Refusal::StaleWord),
        }
    }

    /// Asks for an operation: reserves all that it and its undoing need, and locks its stripe.
    fn ask(
        &mut self,
        caller: usize,
        stripe: usize,
        op: Op,
        table: &mut Table,
        locks: &mut KeyLocks,
    ) -> Answer
        requires caller { caller < 64 }
        requires stripe { stripe < length locks.old }
        ensures asked { IsAsked caller stripe op (reach self.old table.old locks.old) result
            (reach self.new table.new locks.new) }
        ensures rises { table_changes table.old ≤ table_changes table.new }
        ensures placed { KeepsPlaced table.old table.new }
    {
        let pending = match self.reserve(op, table) {
            Ok(pending) => pending,
            Err(refusal) => return Answer::Refused(refusal),
        };
        match locks.lock(caller, stripe) {
            LockAnswer::Granted => self.grant(pending),
            LockAnswer::Busy(holder) => busy(pending, holder as u64, table),
        }
    }

    /// Reserves all that an operation and its undoing need.
    fn reserve(&mut self, op: Op, table: &mut Table) -> Result<Pending, Refusal>
        ensures stays { side_of self.new ≡ side_of self.old }
        ensures room { OnOk result (0 < self.new.log.room) }
        ensures ok { IfOk result (Prepares table.old table.new op) }
        ensures err { IfErr result
            (λ refusal. (refusal ≡ Refusal.NoMemory) ⊎ IsRefused table.old op refusal) }
        ensures unchanged { OnErr result (table.new ≡ table.old) }
        ensures placed { KeepsPlaced table.old table.new }
    {
        self.log.reserve_one()?;
        table.prepare(op)
    }

    /// Keeps the prepared operation until the caller acts. The caller holds the stripe now.
    fn grant(&mut self, pending: Pending) -> Answer
        ensures answer { result ≡ Answer.Asked }
        ensures becomes { self.new ≡ record self.old { pending = Some pending } }
    {
        self.pending = Some(pending);
        Answer::Asked
    }

    /// Seeks the position of the key that the caller acts on next.
    pub(crate) fn seek(&mut self, table: &mut Table) -> Answer
        requires goes { GoesWith self.old table.old }
        requires target { has_target self.old.stance.stance ≡ true }
        ensures answer { result ≡ Answer.Placed }
        ensures seeks { SeeksIn self.old table.old self.new table.new }
        ensures rises { table_changes table.old ≤ table_changes table.new }
        ensures placed { KeepsPlaced table.old table.new }
    {
        let cursor = match &self.pending {
            Some(pending) => table.place(pending),
            None => table.place_job(self.log.newest_above(self.level()).unwrap()),
        };
        self.cursor = Some(cursor);
        Answer::Placed
    }

    /// Does the waiting operation, or takes back the newest change, or ends the undoing.
    pub(crate) fn act(&mut self, caller: usize, table: &mut Table, locks: &mut KeyLocks) -> Answer
        requires caller { caller < 64 }
        requires goes { GoesWith self.old table.old }
        requires free { (is_leaving self.old.stance.stance.phase || is_waiting self.old.stance.stance.phase)
            ≡ true }
        requires placed { (has_target self.old.stance.stance && not (is_some self.old.cursor)) ≡ false }
        ensures acts { ActsIn caller (reach self.old table.old locks.old) result
            (reach self.new table.new locks.new) }
        ensures rises { table_changes table.old ≤ table_changes table.new }
        ensures placed { KeepsPlaced table.old table.new }
    {
        if self.pending.is_some() {
            self.reply(table)
        } else if self.stance.has_job() {
            self.undo(table)
        } else {
            self.arrive(caller, locks)
        }
    }

    /// Does the waiting operation at its cursor.
    fn reply(&mut self, table: &mut Table) -> Answer
        requires { CanAct self.old table.old }
        ensures acts { Replies self.old table.old result self.new table.new }
        ensures rises { table_changes table.old ≤ table_changes table.new }
        ensures placed { KeepsPlaced table.old table.new }
    {
        let pending = self.pending.take().unwrap();
        let Some(cursor) = self.cursor else {
            unreachable!();
        };
        self.cursor = None;
        match table.act(pending, cursor) {
            Act::Again(pending) => {
                self.pending = Some(pending);
                Answer::Again
            }
            Act::Acted(reply, job) => {
                note(&mut self.log, job);
                Answer::Done(reply)
            }
        }
    }

    /// Takes back the newest change above the level, at its cursor.
    fn undo(&mut self, table: &mut Table) -> Answer
        requires { CanUndo self.old table.old }
        ensures undoes { Undoes self.old table.old result self.new table.new }
        ensures rises { table_changes table.old ≤ table_changes table.new }
        ensures placed { KeepsPlaced table.old table.new }
    {
        let Some(cursor) = self.cursor else {
            unreachable!();
        };
        self.cursor = None;
        let level = self.level();
        let job = self.log.pop_above(level).unwrap();
        match table.undo(job, cursor) {
            Undo::Undone => Answer::Undone,
            Undo::Again(job) => {
                self.log.push_reserved(job);
                Answer::Again
            }
        }
    }

    /// Ends the undoing. No change above the level remains.
    fn arrive(&mut self, caller: usize, locks: &mut KeyLocks) -> Answer
        requires caller { caller < 64 }
        requires arrives { CanArrive self.old }
        ensures { Arrives caller self.old locks.old result self.new locks.new }
    {
        let level = self.level();
        self.log.cut(level);
        match self.stance.phase() {
            Phase::LeavingTo(level) => Answer::Returned(level),
            _ => {
                locks.release_all(caller);
                Answer::Aborted
            }
        }
    }
}

/// The answer to an ask with the stripe's right, given the answer of `ask`. `Busy` becomes
/// `StaleWord`: another caller holds the stripe, so the word that gave the right was stale.
fn unless_busy(answer: Answer) -> Answer
    ensures { result ≡ unless_busy answer }
{
    match answer {
        Answer::Busy(_) => Answer::Refused(Refusal::StaleWord),
        answer => answer,
    }
}

/// Gives up the prepared operation, since another caller holds its stripe.
fn busy(pending: Pending, holder: u64, table: &mut Table) -> Answer
    requires { OwnsIf table.old pending.spare }
    ensures answer { result ≡ Answer.Busy holder }
    ensures back { GivesBack table.old table.new pending.spare }
    ensures placed { KeepsPlaced table.old table.new }
{
    table.withdraw(pending);
    Answer::Busy(holder)
}

/// If an operation has a job, adds this job to the log as the newest, in reserved room.
fn note(log: &mut UndoLog<MapJob>, job: Option<MapJob>)
    requires { 0 < log.old.room }
    ensures jobs { log.new.jobs ≡ log.old.jobs ++ option_to_list job }
    ensures kept { log.new.kept ≡ log.old.kept }
{
    if let Some(job) = job {
        log.push_reserved(job);
    }
}
