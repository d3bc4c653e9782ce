//! How many transactions of a caller ended, and how. A member counts the answers of its calls, so
//! the counts are exact, modulo 2^64, but for a run that memory was refused to, which is not counted.
ghost use Rattle.std.specs.Prelude.{◌≡◌};
ghost use Rattle.boostmap_c.specs.Counted.{TellsCounts};

use crate::member_handle::CallerHandle;
use crate::status::{DONE, EMPTY};
use striped_map::{RunEnd, Stop};

/// How many of a caller's transactions ended by a commit, by an abort, and by a busy answer, which
/// aborts too. Each number is modulo 2^64.
#[repr(C)]
#[derive(Clone, Copy)]
pub struct Counts {
    pub commits: u64,
    pub aborts: u64,
    pub busy: u64,
}

impl Counts {
    ghost use Rattle.boostmap_c.specs.Counting.{aborted, busied, committed, counted, counted_run, goes_on, none_ended};

    /// No transaction has ended.
    pub(crate) fn none() -> Counts
        ensures { result ≡ none_ended }
    {
        Counts {
            commits: 0,
            aborts: 0,
            busy: 0,
        }
    }

    /// Counts a busy answer.
    pub(crate) fn see_stop(&mut self, stop: &Stop)
        ensures { self.new ≡ busied self.old stop.now }
    {
        if let Stop::Busy { .. } = stop {
            self.busy = self.busy.wrapping_add(1);
        }
    }

    /// Counts the answer of a call that ends no transaction unless it is busy.
    pub(crate) fn see<T>(&mut self, answer: &Result<T, Stop>)
        ensures { self.new ≡ counted goes_on self.old answer.now }
    {
        if let Err(stop) = answer {
            self.see_stop(stop);
        }
    }

    /// Counts the answer of a commit.
    pub(crate) fn see_commit(&mut self, answer: &Result<Option<u64>, Stop>)
        ensures { self.new ≡ counted committed self.old answer.now }
    {
        match answer {
            Ok(_) => self.commits = self.commits.wrapping_add(1),
            Err(stop) => self.see_stop(stop),
        }
    }

    /// Counts the answer of an abort.
    pub(crate) fn see_abort(&mut self, answer: &Result<(), Stop>)
        ensures { self.new ≡ counted aborted self.old answer.now }
    {
        match answer {
            Ok(()) => self.aborts = self.aborts.wrapping_add(1),
            Err(stop) => self.see_stop(stop),
        }
    }

    /// Counts the answer of a run.
    pub(crate) fn see_run(&mut self, answer: &Result<RunEnd, Stop>)
        ensures { self.new ≡ counted_run self.old answer.now }
    {
        match answer {
            Ok(RunEnd::Committed(_)) => self.commits = self.commits.wrapping_add(1),
            Ok(RunEnd::Missed) => self.aborts = self.aborts.wrapping_add(1),
            Err(stop) => self.see_stop(stop),
        }
    }
}

/// Writes how many transactions of the caller have ended by a commit, by an abort and by a busy
/// answer, since the caller was made.
///
/// # Errors
///
/// The status is 3 if the handle has no caller. Then nothing is written.
#[unsafe(no_mangle)]
pub extern "C" fn boostmap_striped_counts(caller: &mut CallerHandle, counts: &mut Counts) -> u32
    ensures { TellsCounts caller.old.held.member result counts.old counts.new
        caller.new.held.member }
{
    if !caller.is_live() {
        return EMPTY;
    }
    let member = caller.held.get_mut();
    *counts = member.counts;
    DONE
}
