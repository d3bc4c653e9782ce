//! The store of a transaction's jobs. It is a small vector whose first places are in the value
//! itself, so a few changes take no memory. The other store, a `Vec`, has no such places.
//! Invariant: each place in use holds a job, and only unused inline places hold `None`.
use crate::job::UndoJob;
use crate::store::JobStore;
use smallvec::SmallVec;
use std::alloc::{AllocError, Global};
use std::marker::Model;

/// A store of jobs with `INLINE` places in the value itself. More places than that take an
/// allocation.
#[derive(Drop)]
pub struct InlineJobs<J: UndoJob, const INLINE: usize> {
    // Each place in use holds `Some`. Each unused inline place holds `None`.
    places: SmallVec<Option<J>, INLINE>,
}

impl<J: UndoJob, const INLINE: usize> Model for InlineJobs<J, INLINE> {
    ghost use Rattle.std.specs.Prelude.{◌-◌};
    ghost use Rattle.smallvec.specs.SmallVec.{small_vec_len};
    ghost use Rattle.undo_log.specs.InlineJobs.{IsSound, Stored, jobs_in};

    ghost Value = { Stored J };

    ghost view = { λ store. record {
      jobs = jobs_in store.places.items;
      room = store.places.capacity - small_vec_len store.places;
    } };

    ghost invariant = { λ store. IsSound INLINE store.places };
}

impl<J: UndoJob, const INLINE: usize> JobStore for InlineJobs<J, INLINE> {
    type Job = J;

    ghost inline = { INLINE };

    ghost jobs_of = { λ store. store.jobs };

    ghost room_of = { λ store. store.room };

    fn empty(alloc: Global) -> InlineJobs<J, INLINE> {
        InlineJobs {
            places: SmallVec::new(alloc),
        }
    }

    fn count(&self) -> usize {
        self.places.len()
    }

    fn reserve_one(&mut self) -> Result<(), AllocError> {
        self.places.reserve(1)
    }

    fn add(&mut self, job: J) {
        self.places.push_reserved(Some(job));
    }

    fn newest(&self) -> Option<&J> {
        self.places.as_slice().last()?.as_ref()
    }

    fn take_newest(&mut self) -> Option<J> {
        self.places.pop()?
    }
}
