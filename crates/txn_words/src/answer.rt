//! The answers to steps, and the text of an answer as a report prints it. Callers, helpers and the
//! table all get answers of this type, and an answer does not say who took the step. So the entry
//! that a step adds to the history depends on both the step and its answer.
ghost use Rattle.std.specs.Prelude.{◌≡◌, ◌++◌, IfOk, string_bytes};
ghost use Rattle.txn_words.specs.Text.{rest_text, text_of};

use crate::op::Reply;
use crate::refusal::Refusal;
use std::alloc::{AllocError, Global};
use std::fmt;

/// The answer to a step.
#[derive(Clone, Copy, Debug, PartialEq, Eq)]
pub enum Answer {
    /// The transaction with this number began.
    Began(u64),
    /// The caller has asked for the operation.
    Asked,
    /// The caller with this number was found to hold the stripe. The transaction that asked for the
    /// stripe aborts.
    Busy(u64),
    /// The caller or the helper now has a cursor at the position that it sought.
    Placed,
    /// The cursor no longer fits the list, so it is dropped.
    Again,
    /// The operation was done, with this reply.
    Done(Reply),
    /// The newest change is taken back.
    Undone,
    /// The caller is back at this level.
    Returned(u64),
    /// The transaction has ended, and all its changes are taken back.
    Aborted,
    /// The savepoint with this number is set.
    Saved(u64),
    /// From now on the caller takes changes back.
    Leaving,
    /// The transaction is committed, with this commit number.
    Committed(u64),
    /// The first marked node is unlinked.
    Swept,
    /// No marked node is linked.
    Clean,
    /// The bucket is initialised already.
    Ready,
    /// The bucket's dummy is linked already.
    Present,
    /// The bucket's dummy is now linked.
    Linked,
    /// The bucket is now initialised.
    Stored,
    /// The table's size is this number, not the size that the step named.
    Moved(u64),
    /// The table has the largest size allowed, so it is not doubled.
    AtLimit,
    /// There are too few keys to double the table.
    Light,
    /// The table's size is doubled; this number is the new size.
    Doubled(u64),
    /// The step was refused. The core's state is unchanged, except that a step refused with
    /// `StaleWord` may have used up a stamp.
    Refused(Refusal),
}

/// What follows the words in the text of an answer.
enum Rest {
    Nothing,
    Number(u64),
    Refusal(Refusal),
}

impl Answer {
    /// The words with which an answer's text begins, and the rest of the text.
    fn parts(&self) -> (&'static str, Rest)
        ensures { text_of self.now ≡ result.0.now ++ rest_text result.1 }
    {
        match *self {
            Answer::Began(txn) => ("began", Rest::Number(txn)),
            Answer::Asked => ("asked", Rest::Nothing),
            Answer::Busy(holder) => ("busy", Rest::Number(holder)),
            Answer::Placed => ("placed", Rest::Nothing),
            Answer::Again => ("again", Rest::Nothing),
            Answer::Done(None) => ("done none", Rest::Nothing),
            Answer::Done(Some(value)) => ("done", Rest::Number(value)),
            Answer::Undone => ("undone", Rest::Nothing),
            Answer::Returned(level) => ("returned", Rest::Number(level)),
            Answer::Aborted => ("aborted", Rest::Nothing),
            Answer::Saved(level) => ("saved", Rest::Number(level)),
            Answer::Leaving => ("leaving", Rest::Nothing),
            Answer::Committed(number) => ("committed", Rest::Number(number)),
            Answer::Swept => ("swept", Rest::Nothing),
            Answer::Clean => ("clean", Rest::Nothing),
            Answer::Ready => ("ready", Rest::Nothing),
            Answer::Present => ("present", Rest::Nothing),
            Answer::Linked => ("linked", Rest::Nothing),
            Answer::Stored => ("stored", Rest::Nothing),
            Answer::Moved(size) => ("moved", Rest::Number(size)),
            Answer::AtLimit => ("at limit", Rest::Nothing),
            Answer::Light => ("light", Rest::Nothing),
            Answer::Doubled(size) => ("doubled", Rest::Number(size)),
            Answer::Refused(refusal) => ("refused", Rest::Refusal(refusal)),
        }
    }
}

impl fmt::Display for Answer {
    ghost use Rattle.std.specs.Prelude.{Some};

    ghost output = { λ a. Some (text_of a) };

    fn fmt<W: fmt::Write>(&self, f: &mut fmt::Formatter<W>) -> fmt::Result {
        let (words, rest) = self.parts();
        match rest {
            Rest::Nothing => write!(f, "{words}"),
            Rest::Number(number) => write!(f, "{words} {number}"),
            Rest::Refusal(refusal) => write!(f, "{words} {refusal}"),
        }
    }
}

/// The text of an answer, without a line feed.
///
/// # Errors
///
/// `AllocError` if memory is refused.
///
/// # Cost
///
/// Time and memory in proportion to the text's length.
pub fn answer_text(alloc: Global, answer: &Answer) -> Result<String, AllocError>
    ensures { IfOk result (λ text. string_bytes text ≡ text_of answer.now) }
{
    answer.to_string(alloc)
}
