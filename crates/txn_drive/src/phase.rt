//! The phases of a call. One function for each phase gives the next phase after an answer
//! (`specs/Drives.antt`). A phase holds all that a call remembers between two steps: its work, how
//! far its helper has come, and how many answers `again` it got in a row.
ghost use Rattle.std.specs.Prelude.{◌≡◌};
ghost use Rattle.txn_drive.specs.Drives.{one_more_again, towards, heading, told_first, told_seek, told_act, told_double, told_init_seek, told_link, told_store, refused_help, undone_more, told_in};

use crate::call::Call;
use crate::turn::PATIENCE;
use crate::way::{Way, next_towards};
use txn_words::{Answer, Refusal};

/// What a caller seeks a position for.
#[derive(Clone, Copy, Debug, PartialEq, Eq)]
pub enum Work {
    /// The operation that was asked for.
    Operation,
    /// Taking changes back after a busy stripe. The fields are the stripe's holder and how many
    /// changes have been taken back.
    Busy(u64, u64),
    /// Taking changes back, to return to a level or to abort. The field is how many changes have
    /// been taken back.
    Leaving(u64),
}

/// The progress of a call. If a variant has a number next to a `Work` or a `Way`, the number counts
/// the answers `again` in a row, up to 8.
#[derive(Clone, Copy, Debug, PartialEq, Eq)]
pub enum Phase {
    /// No step has been answered yet.
    Fresh,
    /// The next step seeks the position for this work.
    Seeking(Work, u8),
    /// The next step acts: the position for this work was found, or no change remains to be taken
    /// back.
    Acting(Work, u8),
    /// The next step doubles the table. The number is the table's size at the last turn, or 0
    /// before the first turn.
    Doubling(u32),
    /// The next step seeks the position of a bucket's dummy.
    Initialising(Way, u8),
    /// The position of a bucket's dummy was found. The next step links the dummy.
    Linking(Way, u8),
    /// A bucket's dummy is linked. The next step stores the dummy.
    Storing(Way),
    /// The answer to the first step has ended the call.
    First(Answer),
    /// This answer to an act has ended the call.
    Last(Work, Answer),
    /// A seek got an answer that no rule foresees. This answer has ended the call.
    Lost(Work),
    /// All buckets on the helper's path are initialised.
    Helped,
    /// A helper's step, or the call itself, was refused. `OutOfStep` means that a help got an
    /// answer that no rule foresees, or that `told` got an answer after the end.
    Refused(Refusal),
}

impl Phase {
    /// Replaces this phase by the next one, given the answer to this phase's step. Each arm assigns
    /// to `*self` itself, so that only the fields of the arm's kind of phase are written.
    #[inline(always)]
    pub(crate) fn told(&mut self, call: Call, answer: Answer)
        ensures { self.new ≡ told_in call self.old answer }
    {
        match *self {
            Phase::Fresh => *self = told_first(call, answer),
            Phase::Seeking(work, again) => *self = told_seek(work, again, answer),
            Phase::Acting(work, again) => *self = told_act(work, again, answer),
            Phase::Doubling(seen) => *self = told_double(call, seen, answer),
            Phase::Initialising(way, again) => *self = told_init_seek(way, again, answer),
            Phase::Linking(way, again) => *self = told_link(way, again, answer),
            Phase::Storing(way) => *self = told_store(way, answer),
            _ => *self = Phase::Refused(Refusal::OutOfStep),
        }
    }
}

/// The count after one more answer `again` in a row. It stops at eight.
fn one_more(again: u8) -> u8
    ensures { result ≡ one_more_again again }
{
    if again < PATIENCE { again + 1 } else { again }
}

/// The phase after the first step. The next step seeks the position of an operation or of a change
/// to take back, or the call has ended.
#[inline(always)]
fn told_first(call: Call, answer: Answer) -> Phase
    ensures { result ≡ told_first call answer }
{
    match call {
        Call::Op(_) => match answer {
            Answer::Asked => Phase::Seeking(Work::Operation, 0),
            Answer::Busy(holder) => Phase::Seeking(Work::Busy(holder, 0), 0),
            _ => Phase::First(answer),
        },
        Call::Back(_) | Call::Abort => match answer {
            Answer::Leaving => Phase::Seeking(Work::Leaving(0), 0),
            _ => Phase::First(answer),
        },
        _ => Phase::First(answer),
    }
}

/// The phase after a seek. If the position was found, or no change remains to be taken back, the
/// next step is an act. Any other answer ends the call.
#[inline(always)]
fn told_seek(work: Work, again: u8, answer: Answer) -> Phase
    ensures { result ≡ told_seek work again answer }
{
    match answer {
        Answer::Placed => Phase::Acting(work, again),
        Answer::Refused(Refusal::NothingToSeek) => match work {
            Work::Operation => Phase::Lost(work),
            _ => Phase::Acting(work, again),
        },
        _ => Phase::Lost(work),
    }
}

/// The phase after an act. After `Again`, the position is sought again. After `Undone`, one more
/// change has been taken back. Any other answer ends the call.
#[inline(always)]
fn told_act(work: Work, again: u8, answer: Answer) -> Phase
    ensures { result ≡ told_act work again answer }
{
    match answer {
        Answer::Again => Phase::Seeking(work, one_more(again)),
        Answer::Undone => undone_more(work),
        _ => Phase::Last(work, answer),
    }
}

/// The phase after one more change was taken back. The next step seeks the position of the next
/// change. But if the work is an operation, or if the count does not fit in 64 bits, the call ends.
fn undone_more(work: Work) -> Phase
    ensures { result ≡ undone_more work }
{
    match work {
        Work::Busy(holder, undone) if undone < u64::MAX => {
            Phase::Seeking(Work::Busy(holder, undone + 1), 0)
        }
        Work::Leaving(undone) if undone < u64::MAX => {
            Phase::Seeking(Work::Leaving(undone + 1), 0)
        }
        _ => Phase::Last(work, Answer::Undone),
    }
}

/// The phase after the step that doubles the table. The helper starts on its path to the bucket
/// that the key has at the table's present size. `seen` is the size that the step named.
fn told_double(call: Call, seen: u32, answer: Answer) -> Phase
    ensures { result ≡ told_double call seen answer }
{
    match call {
        Call::Help(key) => match answer {
            Answer::Moved(size) | Answer::Doubled(size) => heading(key, size),
            Answer::AtLimit | Answer::Light => heading(key, u64::from(seen)),
            Answer::Refused(refusal) => refused_help(refusal),
            _ => Phase::Refused(Refusal::OutOfStep),
        },
        _ => Phase::Refused(Refusal::OutOfStep),
    }
}

/// The phase in which a helper starts on its path to a key's bucket, in a table of this size. A
/// table's size is above 0 and below 2^32, so any other size ends the help.
fn heading(key: u64, size: u64) -> Phase
    ensures { result ≡ heading key size }
{
    if 0 < size && size < 1 << 32 {
        towards(0, (key % size) as u32)
    } else {
        Phase::Refused(Refusal::OutOfStep)
    }
}

/// The phase after the bucket `last`, on the path to `target`, is initialised.
fn towards(last: u32, target: u32) -> Phase
    ensures { result ≡ towards last target }
{
    if last == target {
        Phase::Helped
    } else {
        let bucket = next_towards(last, target);
        Phase::Initialising(Way { bucket, target }, 0)
    }
}

/// The phase that follows when the position of a bucket's dummy has been sought.
fn told_init_seek(way: Way, again: u8, answer: Answer) -> Phase
    ensures { result ≡ told_init_seek way again answer }
{
    match answer {
        Answer::Ready => towards(way.bucket, way.target),
        Answer::Placed => Phase::Linking(way, again),
        Answer::Refused(refusal) => refused_help(refusal),
        _ => Phase::Refused(Refusal::OutOfStep),
    }
}

/// The phase after the step that links a bucket's dummy.
fn told_link(way: Way, again: u8, answer: Answer) -> Phase
    ensures { result ≡ told_link way again answer }
{
    match answer {
        Answer::Again => Phase::Initialising(way, one_more(again)),
        Answer::Present | Answer::Linked => Phase::Storing(way),
        Answer::Refused(refusal) => refused_help(refusal),
        _ => Phase::Refused(Refusal::OutOfStep),
    }
}

/// The phase after the step that stores a bucket's dummy.
fn told_store(way: Way, answer: Answer) -> Phase
    ensures { result ≡ told_store way answer }
{
    match answer {
        Answer::Stored => towards(way.bucket, way.target),
        Answer::Refused(refusal) => refused_help(refusal),
        _ => Phase::Refused(Refusal::OutOfStep),
    }
}

/// The phase after a helper's step was refused for this reason. Only two reasons are foreseen: no
/// memory, and no more stamps. After any other refusal the help ends with `OutOfStep`.
fn refused_help(refusal: Refusal) -> Phase
    ensures { result ≡ refused_help refusal }
{
    match refusal {
        Refusal::NoMemory | Refusal::StampsUsedUp => Phase::Refused(refusal),
        _ => Phase::Refused(Refusal::OutOfStep),
    }
}
