//! The trait for the store of a log's jobs, and a `Vec` as such a store. The other store is in
//! `inline_jobs.rt`. A store says how many jobs take no memory (`inline`) and how much room there
//! is (`room_of`).
use crate::job::UndoJob;
use std::alloc::{AllocError, Global};

/// The store of a log's jobs, the newest at the end.
pub trait JobStore: Drop {
    /// The inverse of one change.
    type Job: UndoJob;

    ghost use Rattle.std.specs.Prelude.{◌≡◌, ◌+◌, ◌-◌, ◌<◌, ◌↔◌, ℕ, List, [], ◌∷◌, ◌++◌, length, slice_get, IsOk, IsSome, OnOk, OnErr, option_to_list, option_copied};

    /// The number of jobs that are kept in the store itself and take no memory.
    ghost inline: { ℕ };

    /// The jobs, oldest first.
    ghost jobs_of: { Self → List Self.Job };

    /// How many jobs can be added before memory is taken.
    ghost room_of: { Self → ℕ };

    /// A store without a job.
    fn empty(alloc: Global) -> Self
        ensures jobs { jobs_of result ≡ [] }
        ensures room { room_of result ≡ inline };

    /// The number of jobs.
    fn count(&self) -> usize
        ensures { result ≡ length (jobs_of self.now) };

    /// Makes room for one more job, unless there is room already.
    ///
    /// # Errors
    ///
    /// `AllocError` if memory is refused, which happens only if there was no room. Then nothing has
    /// changed.
    ///
    /// # Cost
    ///
    /// Amortized constant time; takes memory only if there is no room.
    fn reserve_one(&mut self) -> Result<(), AllocError>
        ensures jobs { jobs_of self.new ≡ jobs_of self.old }
        ensures ok { OnOk result (0 < room_of self.new) }
        ensures inline { length (jobs_of self.old) < inline → IsOk result }
        ensures left { 0 < room_of self.old → room_of self.new ≡ room_of self.old }
        ensures err { OnErr result (room_of self.new ≡ room_of self.old) }
        ensures full { OnErr result (room_of self.old ≡ 0) };

    /// Adds a job as the newest, in room that was reserved.
    fn add(&mut self, job: Self::Job)
        requires { 0 < room_of self.old }
        ensures jobs { jobs_of self.new ≡ jobs_of self.old ++ job ∷ [] }
        ensures room { room_of self.new + 1 ≡ room_of self.old };

    /// The newest job.
    fn newest(&self) -> Option<&Self::Job>
        ensures newest { option_copied result
            ≡ slice_get (jobs_of self.now) (length (jobs_of self.now) - 1) }
        ensures some { IsSome result ↔ (0 < length (jobs_of self.now)) };

    /// Takes out the newest job.
    fn take_newest(&mut self) -> Option<Self::Job>
        ensures newest { result ≡ slice_get (jobs_of self.old) (length (jobs_of self.old) - 1) }
        ensures some { IsSome result ↔ (0 < length (jobs_of self.old)) }
        ensures jobs { jobs_of self.old ≡ jobs_of self.new ++ option_to_list result }
        ensures room { room_of self.new ≡ room_of self.old + length (option_to_list result) };
}

/// All jobs are in an allocation, so the size of a log does not depend on the size of a job. The
/// caller chooses the size of a side value's jobs.
impl<J: UndoJob> JobStore for Vec<J> {
    type Job = J;

    ghost use Rattle.std.specs.Prelude.{◌-◌, vec_len, vec_capacity};

    ghost inline = { 0 };

    ghost jobs_of = { λ jobs. jobs.items };

    ghost room_of = { λ jobs. vec_capacity jobs - vec_len jobs };

    fn empty(alloc: Global) -> Vec<J> {
        Vec::new(alloc)
    }

    fn count(&self) -> usize {
        self.len()
    }

    fn reserve_one(&mut self) -> Result<(), AllocError> {
        if self.len() < self.capacity() {
            return Ok(());
        }
        self.reserve(1)
    }

    fn add(&mut self, job: J) {
        self.push_reserved(job);
    }

    fn newest(&self) -> Option<&J> {
        self.as_slice().last()
    }

    fn take_newest(&mut self) -> Option<J> {
        self.pop()
    }
}
