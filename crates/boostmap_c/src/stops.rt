//! Functions that report the result of a map's call to C: a status, and for some results a word. If
//! a result has no word, C's word is unchanged.
ghost use Rattle.std.specs.Prelude.{◌≡◌};
ghost use Rattle.boostmap_c.specs.Contents.{LaysAnswer};
ghost use Rattle.boostmap_c.specs.Keepers.{status_of_no_history, word_of_no_history};
ghost use Rattle.boostmap_c.specs.Stops.{status_of_end, status_of_number, status_of_place, status_of_reply, status_of_run, status_of_stop, word_of_number, word_of_place, word_of_reply, word_of_run, word_of_stop};

use crate::read::{CPair, lay_all};
use crate::status::{ABSENT, BUSY, DONE, MISSED, MISSING, NOT_KEPT, refused};
use striped_map::{NoHistory, RunEnd, Stop};
use txn_trace::{Refusal, Reply};

/// Writes the holder, if there is one, and returns the status.
pub(crate) fn tell_stop(stop: Stop, word: &mut u64) -> u32
    ensures status { result ≡ status_of_stop stop }
    ensures word { word.new ≡ word_of_stop word.old stop }
{
    match stop {
        Stop::Busy { holder } => {
            *word = holder;
            BUSY
        }
        Stop::Refused(refusal) => refused(refusal),
    }
}

/// Writes the value or the holder, if there is one, and returns the status.
pub(crate) fn tell_reply(answer: Result<Reply, Stop>, word: &mut u64) -> u32
    ensures status { result ≡ status_of_reply answer }
    ensures word { word.new ≡ word_of_reply word.old answer }
{
    match answer {
        Ok(None) => ABSENT,
        Ok(Some(value)) => {
            *word = value;
            DONE
        }
        Err(stop) => tell_stop(stop, word),
    }
}

/// Writes the number or the holder, if there is one, and returns the status.
pub(crate) fn tell_number(answer: Result<u64, Stop>, word: &mut u64) -> u32
    ensures status { result ≡ status_of_number answer }
    ensures word { word.new ≡ word_of_number word.old answer }
{
    match answer {
        Ok(number) => {
            *word = number;
            DONE
        }
        Err(stop) => tell_stop(stop, word),
    }
}

/// Writes the commit number, or 0 if the map does not tell it, and returns the status.
pub(crate) fn tell_place(answer: Result<Option<u64>, Stop>, word: &mut u64) -> u32
    ensures status { result ≡ status_of_place answer }
    ensures word { word.new ≡ word_of_place word.old answer }
{
    match answer {
        Ok(None) => {
            *word = 0;
            DONE
        }
        Ok(Some(place)) => {
            *word = place;
            DONE
        }
        Err(stop) => tell_stop(stop, word),
    }
}

/// Writes the commit number or the holder, if there is one, and returns the status of a run.
pub(crate) fn tell_run(answer: Result<RunEnd, Stop>, word: &mut u64) -> u32
    ensures status { result ≡ status_of_run answer }
    ensures word { word.new ≡ word_of_run word.old answer }
{
    match answer {
        Ok(RunEnd::Committed(found)) => tell_place(Ok(found), word),
        Ok(RunEnd::Missed) => MISSED,
        Err(stop) => tell_stop(stop, word),
    }
}

/// Writes the pairs and their number, or the holder, if there is one, and returns the status.
pub(crate) fn tell_pairs(
    answer: Result<Vec<(u64, u64)>, Stop>,
    pairs: &mut [CPair],
    word: &mut u64,
) -> u32
    ensures { LaysAnswer answer result pairs.old pairs.new word.old word.new }
{
    match answer {
        Ok(listed) => lay_all(&listed, pairs, word),
        Err(stop) => tell_stop(stop, word),
    }
}

/// The status of a call that returns no value.
pub(crate) fn tell_end(answer: Result<(), Stop>) -> u32
    ensures { result ≡ status_of_end answer }
{
    match answer {
        Ok(()) => DONE,
        Err(Stop::Busy { .. }) => BUSY,
        Err(Stop::Refused(refusal)) => refused(refusal),
    }
}

/// Writes the number of a caller that has not ended, if this is the reason, and returns the status.
pub(crate) fn tell_no_history(why: NoHistory, word: &mut u64) -> u32
    ensures status { result ≡ status_of_no_history why }
    ensures word { word.new ≡ word_of_no_history word.old why }
{
    match why {
        NoHistory::NotKept => NOT_KEPT,
        NoHistory::Missing(caller) => {
            *word = caller;
            MISSING
        }
        NoHistory::NoMemory => refused(Refusal::NoMemory),
    }
}
