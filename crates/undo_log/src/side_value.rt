// PROMISES inverses-newest-first: SideValue
//! A side value with the log of its changes, as one value, so that no change is made without its
//! job. Invariant: if the jobs are run, newest first, they restore the words that the value had at
//! each level. So a level's words are not stored, and going back takes no memory except what the
//! jobs take when they run.
ghost use Rattle.std.specs.Prelude.{◌≡◌, ◌+◌, ◌<◌, ◌≤◌, [], ◌∷◌, ◌++◌, length, take, slice_get, IsOk, IfOk, IfErr, OnOk, OnErr};

use crate::job::UndoJob;
use crate::log::JobLog;
use crate::side::{Side, SideJob};
use core::mem::replace_with;
use std::alloc::{AllocError, AllocFailed, Global};
use std::marker::Model;

/// A side value with the jobs of its changes and its savepoints.
///
/// Contracts see the `value`. `levels` has the words of the value at the beginning and at each
/// savepoint, level 0 first. `changes` says how many changes can be taken back, and `kept` how many
/// of them each level keeps. `room` says for how many more changes room is reserved, and
/// `save_room` for how many more savepoints. The words of the levels are not stored: each job names
/// the words that it restores.
#[derive(Drop)]
pub struct SideValue<S: Side> {
    value: S,
    log: JobLog<Vec<SideJob<S>>>,
}

impl<S: Side> Model for SideValue<S> {
    ghost use Rattle.std.specs.Prelude.{length, ◌∷◌};
    ghost use Rattle.undo_log.specs.SideValue.{Leveled, levels_of, IsUndoable};

    ghost Value = { Leveled S };

    ghost view = { λ side. record {
      value = side.value;
      levels = levels_of (λ j. S.before j.job) (S.words_of side.value) side.log;
      changes = length side.log.jobs;
      kept = 0 ∷ side.log.kept;
      room = side.log.room;
      save_room = side.log.save_room;
    } };

    ghost invariant = { λ side.
        IsUndoable (λ j. S.before j.job) (λ j. S.after j.job) (S.words_of side.value) side.log };
}

impl<S: Side> SideValue<S> {
    /// A side value that consists of this value, at level 0. It has no change to take back.
    pub fn new(alloc: Global, value: S) -> SideValue<S>
        ensures value { result.value ≡ value }
        ensures levels { result.levels ≡ S.words_of value ∷ [] }
        ensures changes { result.changes ≡ 0 }
        ensures kept { result.kept ≡ 0 ∷ [] }
        ensures room { result.room ≡ 0 }
        ensures save_room { result.save_room ≡ 0 }
    {
        SideValue {
            value,
            log: JobLog::new(alloc),
        }
    }

    /// The four words of the value now.
    ///
    /// # Cost
    ///
    /// One call of the side type's `words`.
    pub fn words(&self) -> [u64; 4]
        ensures { result ≡ S.words_of self.now.value }
    {
        self.value.words()
    }

    /// The number of savepoints, which is the highest level.
    pub fn level(&self) -> usize
        ensures { result + 1 ≡ length self.now.levels }
    {
        self.log.level()
    }

    /// Changes the value, and logs the job that takes the change back.
    ///
    /// The current value must meet what `change` requires. The words of this value must be those
    /// that the job names as the words before its change. The value that `change` returns must have
    /// the words that the job names as the words after its change.
    ///
    /// # Errors
    ///
    /// `AllocFailed` if memory is refused, which happens only if there was no room for a change.
    /// Then `change` was not called, nothing has changed, and the error's `value` holds the change
    /// and the job that were passed in.
    ///
    /// # Cost
    ///
    /// One call of `change`, and otherwise amortized constant time; takes memory only if there is
    /// no room for a change.
    pub fn change<F: FnOnce(S) -> S>(
        &mut self,
        change: F,
        job: SideJob<S>,
    ) -> Result<(), AllocFailed<(F, SideJob<S>)>>
        requires before { S.words_of self.old.value ≡ S.before job.job }
        requires callable { F.pre change self.old.value }
        requires after { (value : S) → F.post change self.old.value value
            → S.words_of value ≡ S.after job.job }
        ensures changed { OnOk result (F.post change self.old.value self.new.value) }
        ensures levels { self.new.levels ≡ self.old.levels }
        ensures changes { OnOk result (self.new.changes ≡ self.old.changes + 1) }
        ensures kept { self.new.kept ≡ self.old.kept }
        ensures room { 0 < self.old.room → self.new.room + 1 ≡ self.old.room }
        ensures save_room { self.new.save_room ≡ self.old.save_room }
        ensures err { OnErr result (self.new ≡ self.old) }
        ensures full { OnErr result (self.old.room ≡ 0) }
        ensures handed_back { IfErr result (λ refused. refused.value ≡ (change, job)) }
    {
        if self.log.reserve_one().is_err() {
            return Err(AllocFailed {
                value: (change, job),
            });
        }
        replace_with(
            &mut self.value,
            change,
            |value, change|
                requires { F.pre change value }
                ensures { F.post change value result.0 }
            { (change(value), ()) },
        );
        self.log.push_reserved(job);
        Ok(())
    }

    /// Makes room for one more savepoint, unless there is room already, so that the next `save`
    /// succeeds.
    ///
    /// # Errors
    ///
    /// `AllocError` if memory is refused, which happens only if there was no room. Then nothing has
    /// changed.
    ///
    /// # Cost
    ///
    /// Amortized constant time; takes memory only if there is no room.
    pub fn save_room(&mut self) -> Result<(), AllocError>
        ensures value { self.new.value ≡ self.old.value }
        ensures levels { self.new.levels ≡ self.old.levels }
        ensures changes { self.new.changes ≡ self.old.changes }
        ensures kept { self.new.kept ≡ self.old.kept }
        ensures room { self.new.room ≡ self.old.room }
        ensures ok { OnOk result (0 < self.new.save_room) }
        ensures left { 0 < self.old.save_room → self.new ≡ self.old }
        ensures err { OnErr result (self.new ≡ self.old) }
        ensures full { OnErr result (self.old.save_room ≡ 0) }
    {
        self.log.save_room()
    }

    /// Makes a savepoint of the value. Returns the number of the savepoint, which is one more than
    /// the number of savepoints before the call.
    ///
    /// # Errors
    ///
    /// `AllocError` if memory is refused, which happens only if there was no room for a savepoint.
    /// Then nothing has changed.
    ///
    /// # Cost
    ///
    /// Amortized constant time; takes memory only if there is no room for a savepoint.
    pub fn save(&mut self) -> Result<usize, AllocError>
        ensures value { self.new.value ≡ self.old.value }
        ensures number { IfOk result (λ level. level ≡ length self.old.levels) }
        ensures levels { OnOk result (self.new.levels ≡ self.old.levels
            ++ S.words_of self.old.value ∷ []) }
        ensures changes { self.new.changes ≡ self.old.changes }
        ensures kept { OnOk result (self.new.kept ≡ self.old.kept ++ self.old.changes ∷ []) }
        ensures room { self.new.room ≡ self.old.room }
        ensures save_room { 0 < self.old.save_room → self.new.save_room + 1 ≡ self.old.save_room }
        ensures err { OnErr result (self.new ≡ self.old) }
        ensures full { OnErr result (self.old.save_room ≡ 0) }
    {
        self.log.save()
    }

    /// Takes back each change since the level, newest first, and drops the savepoints above the
    /// level. The value then has the words that it had at the level.
    ///
    /// # Cost
    ///
    /// Time in proportion to the changes and savepoints above the level, with one run of a job for
    /// each change. Takes no memory except what these runs take.
    pub fn back(&mut self, level: usize)
        requires { level < length self.old.levels }
        ensures words { slice_get self.old.levels level ≡ Some (S.words_of self.new.value) }
        ensures levels { self.new.levels ≡ take (level + 1) self.old.levels }
        ensures changes { slice_get self.old.kept level ≡ Some self.new.changes }
        ensures kept { self.new.kept ≡ take (level + 1) self.old.kept }
        ensures room { self.new.room + self.new.changes ≡ self.old.room + self.old.changes }
        ensures save_room { self.new.save_room + length self.new.kept
            ≡ self.old.save_room + length self.old.kept }
    {
        while let Some(job) = self.log.pop_above(level) {
            replace_with(
                &mut self.value,
                job,
                |value, job|
                    requires { S.words_of value ≡ S.after job.job }
                    ensures { S.words_of result.0 ≡ S.before job.job }
                { (job.run(value), ()) },
            );
        }
        self.log.cut(level);
    }

    /// Keeps the value as it is, and makes it level 0. Drops all savepoints, and drops all jobs
    /// without running them.
    ///
    /// # Cost
    ///
    /// Time in proportion to the jobs and savepoints; takes no memory.
    pub fn settle(&mut self)
        ensures value { self.new.value ≡ self.old.value }
        ensures levels { self.new.levels ≡ S.words_of self.old.value ∷ [] }
        ensures changes { self.new.changes ≡ 0 }
        ensures kept { self.new.kept ≡ 0 ∷ [] }
        ensures room { self.new.room ≡ self.old.room + self.old.changes }
        ensures save_room { self.new.save_room + 1 ≡ self.old.save_room + length self.old.kept }
    {
        while let Some(job) = self.log.pop_above(0) {
            drop(job);
        }
        self.log.cut(0);
    }
}
