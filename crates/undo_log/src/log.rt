// PROMISES inverses-newest-first: JobLog, UndoLog
//! The log of a transaction: its jobs, oldest first, and how many of them each savepoint keeps. A
//! log runs no job. The same type works with both kinds of job store. Room for a job is reserved
//! first, so adding or taking out a job takes no memory, and neither does dropping savepoints.
ghost use Rattle.std.specs.Prelude.{◌≡◌, ◌+◌, ◌-◌, ◌<◌, ◌≤◌, ◌↔◌, [], ◌∷◌, ◌++◌, length, take, IsTrue, IsOk, IsSome, IfOk, OnOk, OnErr, option_to_list, option_copied};
ghost use Rattle.undo_log.specs.UndoLog.{kept_at, newest_above};

use crate::inline_jobs::InlineJobs;
use crate::store::JobStore;
use std::alloc::{AllocError, Global};
use std::marker::Model;

/// The inverses of a transaction's changes, and its savepoints.
///
/// Contracts see the `jobs`, oldest first. `kept` says how many jobs there were at each savepoint,
/// savepoint 1 first. `room` says for how many more jobs room is reserved, and `save_room` for how
/// many more savepoints. A level is the number of a savepoint, or 0 for the beginning. A call that
/// takes a level requires that the level exists.
///
/// `S` is the type of the job store. `S.inline` is the number of jobs that take no memory.
#[derive(Drop)]
pub struct JobLog<S: JobStore> {
    jobs: S,
    kept: Vec<usize>,
}

/// A log that keeps up to eight jobs in itself, and more in an allocation. A transaction with at
/// most eight changes takes no memory for their inverses.
///
/// # Cost
///
/// A log takes 40 bytes and eight places, whether the places are used or not. Each place is 8 bytes
/// larger than a job. Once a log has taken an allocation for its jobs, it keeps the allocation.
pub type UndoLog<J> = JobLog<InlineJobs<J, 8>>;

impl<S: JobStore> Model for JobLog<S> {
    ghost use Rattle.std.specs.Prelude.{◌-◌, vec_len, vec_capacity};
    ghost use Rattle.undo_log.specs.UndoLog.{LogAt};

    ghost Value = { LogAt S.Job };

    ghost view = { λ log. record {
      jobs = S.jobs_of log.jobs;
      kept = log.kept.items;
      room = S.room_of log.jobs;
      save_room = vec_capacity log.kept - vec_len log.kept;
    } };
}

impl<S: JobStore> JobLog<S> {
    /// An empty log at level 0, with room for `S.inline` jobs.
    pub fn new(alloc: Global) -> JobLog<S>
        ensures jobs { result.jobs ≡ [] }
        ensures kept { result.kept ≡ [] }
        ensures room { result.room ≡ S.inline }
        ensures save_room { result.save_room ≡ 0 }
    {
        JobLog {
            jobs: S::empty(alloc),
            kept: Vec::new(alloc),
        }
    }

    /// The number of jobs.
    pub fn len(&self) -> usize
        ensures { result ≡ length self.now.jobs }
    {
        self.jobs.count()
    }

    /// Whether there is no job.
    pub fn is_empty(&self) -> bool
        ensures { IsTrue result ↔ (self.now.jobs ≡ []) }
    {
        self.len() == 0
    }

    /// The number of savepoints, which is the highest level.
    pub fn level(&self) -> usize
        ensures { result ≡ length self.now.kept }
    {
        self.kept.len()
    }

    /// The number of jobs that a return to the level keeps: as many as there were when the level's
    /// savepoint was made, or 0 for level 0.
    pub fn kept(&self, level: usize) -> usize
        requires { level ≤ length self.now.kept }
        ensures { result ≡ kept_at self.now.kept level }
    {
        match level.checked_sub(1) {
            Some(savepoint) => self.kept[savepoint],
            None => 0,
        }
    }

    /// Makes room for one more job, unless there is room already. The room remains until a job is
    /// pushed into it.
    ///
    /// # Errors
    ///
    /// `AllocError` if memory is refused. Then nothing has changed. This happens only if there was
    /// no room, so it never happens while there are fewer than `S.inline` jobs.
    ///
    /// # Cost
    ///
    /// Amortized constant time; takes memory only if there is no room.
    pub fn reserve_one(&mut self) -> Result<(), AllocError>
        ensures jobs { self.new.jobs ≡ self.old.jobs }
        ensures kept { self.new.kept ≡ self.old.kept }
        ensures save_room { self.new.save_room ≡ self.old.save_room }
        ensures ok { OnOk result (0 < self.new.room) }
        ensures inline { length self.old.jobs < S.inline → IsOk result }
        ensures left { 0 < self.old.room → self.new ≡ self.old }
        ensures err { OnErr result (self.new ≡ self.old) }
        ensures full { OnErr result (self.old.room ≡ 0) }
    {
        self.jobs.reserve_one()
    }

    /// Adds a job as the newest, in room that was reserved.
    pub fn push_reserved(&mut self, job: S::Job)
        requires { 0 < self.old.room }
        ensures jobs { self.new.jobs ≡ self.old.jobs ++ job ∷ [] }
        ensures kept { self.new.kept ≡ self.old.kept }
        ensures room { self.new.room + 1 ≡ self.old.room }
        ensures save_room { self.new.save_room ≡ self.old.save_room }
    {
        self.jobs.add(job);
    }

    /// Makes room for one more savepoint, unless there is room already, so that the next `save`
    /// succeeds.
    ///
    /// # Errors
    ///
    /// `AllocError` if memory is refused, which happens only if there was no room. Then nothing has
    /// changed.
    ///
    /// # Cost
    ///
    /// Amortized constant time; takes memory only if there is no room.
    pub fn save_room(&mut self) -> Result<(), AllocError>
        ensures jobs { self.new.jobs ≡ self.old.jobs }
        ensures kept { self.new.kept ≡ self.old.kept }
        ensures room { self.new.room ≡ self.old.room }
        ensures ok { OnOk result (0 < self.new.save_room) }
        ensures left { 0 < self.old.save_room → self.new ≡ self.old }
        ensures err { OnErr result (self.new ≡ self.old) }
        ensures full { OnErr result (self.old.save_room ≡ 0) }
    {
        if self.kept.len() < self.kept.capacity() {
            return Ok(());
        }
        self.kept.reserve(1)
    }

    /// Makes a savepoint that keeps all present jobs. Returns the number of the savepoint, which is
    /// one more than the number of savepoints before the call.
    ///
    /// # Errors
    ///
    /// `AllocError` if memory is refused, which happens only if there was no room for a savepoint.
    /// Then nothing has changed.
    ///
    /// # Cost
    ///
    /// Amortized constant time; takes memory only if there is no room for a savepoint, which takes
    /// one word.
    pub fn save(&mut self) -> Result<usize, AllocError>
        ensures jobs { self.new.jobs ≡ self.old.jobs }
        ensures room { self.new.room ≡ self.old.room }
        ensures number { IfOk result (λ level. level ≡ length self.old.kept + 1) }
        ensures kept { OnOk result (self.new.kept ≡ self.old.kept ++ length self.old.jobs ∷ []) }
        ensures save_room { 0 < self.old.save_room → self.new.save_room + 1 ≡ self.old.save_room }
        ensures err { OnErr result (self.new ≡ self.old) }
        ensures full { OnErr result (self.old.save_room ≡ 0) }
    {
        self.save_room()?;
        self.kept.push_reserved(self.jobs.count());
        Ok(self.kept.len())
    }

    /// The job that `pop_above` would take out.
    pub fn newest_above(&self, level: usize) -> Option<&S::Job>
        requires { level ≤ length self.now.kept }
        ensures newest { option_copied result ≡ newest_above self.now level }
        ensures some { IsSome result ↔ (kept_at self.now.kept level < length self.now.jobs) }
    {
        if self.len() > self.kept(level) {
            self.jobs.newest()
        } else {
            None
        }
    }

    /// Takes out the newest job and returns it. Returns `None` if the log has only the jobs that
    /// the level keeps.
    ///
    /// All savepoints remain until `cut`, even those above the level. The job's place becomes room
    /// again, and the job may be pushed back into it. A transaction that commits takes out all jobs
    /// above level 0, discards them and calls `cut` with level 0.
    pub fn pop_above(&mut self, level: usize) -> Option<S::Job>
        requires { level ≤ length self.old.kept }
        ensures newest { result ≡ newest_above self.old level }
        ensures some { IsSome result ↔ (kept_at self.old.kept level < length self.old.jobs) }
        ensures jobs { self.old.jobs ≡ self.new.jobs ++ option_to_list result }
        ensures kept { self.new.kept ≡ self.old.kept }
        ensures room { self.new.room ≡ self.old.room + length (option_to_list result) }
        ensures save_room { self.new.save_room ≡ self.old.save_room }
    {
        self.newest_above(level)?;
        self.jobs.take_newest()
    }

    /// Drops the savepoints above the level, and keeps the level's own savepoint. The log must have
    /// no jobs but those that the level keeps.
    ///
    /// # Cost
    ///
    /// Time in proportion to the savepoints that are dropped; takes no memory.
    pub fn cut(&mut self, level: usize)
        requires level { level ≤ length self.old.kept }
        requires none_above { length self.old.jobs ≤ kept_at self.old.kept level }
        ensures jobs { self.new.jobs ≡ self.old.jobs }
        ensures kept { self.new.kept ≡ take level self.old.kept }
        ensures room { self.new.room ≡ self.old.room }
        ensures save_room { self.new.save_room + level ≡ self.old.save_room + length self.old.kept }
    {
        self.kept.truncate(level);
    }
}
