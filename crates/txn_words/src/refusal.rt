//! The reasons why calls are refused. Each refusal has a number from 1 to 22 and a sentence. All
//! calls share this one list, so a number means the same in files and in reports. In the C library
//! the status for a refusal is its number plus 16. Numbers and sentences are constants, which take
//! no memory.
ghost use Rattle.std.specs.Prelude.{◌≡◌};
ghost use Rattle.txn_words.specs.Refusals.{number_of, words_of};
ghost use Rattle.txn_words.specs.Sentences.{sentence_of};

use std::alloc::AllocError;
use std::error::Error;
use std::fmt;

/// The reason why a call was refused. Answers and programs name a refusal by its number. `Display`
/// writes this number, and so reports and error messages show it. `text` is a sentence for a person
/// to read.
#[derive(Clone, Copy, Debug, PartialEq, Eq)]
pub enum Refusal {
    /// 1: the key is 2^63 or more, and the limits allow only half keys.
    BadKey,
    /// 2: the caller's number is not below the number of callers. In C, a join is also refused with
    /// 2 if no caller of the striped map still waits to be joined.
    NoSuchCaller,
    /// 3: the caller has no transaction.
    NotOpen,
    /// 4: the caller has a transaction already.
    AlreadyOpen,
    /// 5: an operation that was asked for has no reply yet.
    OperationUnfinished,
    /// 6: the caller is taking changes back.
    Leaving,
    /// 7: there is no cursor to act on.
    Unplaced,
    /// 8: there is nothing to seek: no operation waits, and no change is left to take back.
    NothingToSeek,
    /// 9: the level is above the number of savepoints.
    NoSuchLevel,
    /// 10: the bucket is not below the table's size.
    NoSuchBucket,
    /// 11: the bucket's parent is not initialised.
    ParentMissing,
    /// 12: the helper's number is not below the number of callers.
    NoSuchHelper,
    /// 13: the helper has no cursor to link at, or no dummy to store.
    HelperOutOfOrder,
    /// 14: memory was refused.
    NoMemory,
    /// 15: a caller's token did not agree with the core or with the caller's side value, at this
    /// call or at an earlier one. A map that cannot be closed is also refused with 15.
    OutOfStep,
    /// 16: no stamp below 2^64 - 1 is left.
    StampsUsedUp,
    /// 17: callers of the map are missing: `close` needs all of them.
    CallersMissing,
    /// 18: a worker could not be started.
    NoThread,
    /// 19: the claim to a stripe is stale. A claim by a right is stale if the core has recorded
    /// another caller as the stripe's holder. A claim by a word is stale if the word names the
    /// asking caller itself, or a caller that has never begun a transaction.
    StaleWord,
    /// 20: a file is not JSON.
    NotJson,
    /// 21: a file, or a part of it, does not have the shape that it should have.
    WrongShape,
    /// 22: something is out of range: the size of a file or of a part of it, a number in a file, or
    /// a number that is given to make a map or a judge.
    Limit,
}

impl fmt::Display for Refusal {
    ghost use Rattle.std.specs.Prelude.{Some};

    ghost output = { λ refusal. Some (words_of refusal) };

    fn fmt<W: fmt::Write>(&self, f: &mut fmt::Formatter<W>) -> fmt::Result {
        write!(f, "{}", self.number())
    }
}

impl Error for Refusal {}

impl Refusal {
    /// The refusal's number, from 1 to 22.
    pub fn number(self) -> u64
        ensures { result ≡ number_of self }
    {
        match self {
            Refusal::BadKey => 1,
            Refusal::NoSuchCaller => 2,
            Refusal::NotOpen => 3,
            Refusal::AlreadyOpen => 4,
            Refusal::OperationUnfinished => 5,
            Refusal::Leaving => 6,
            Refusal::Unplaced => 7,
            Refusal::NothingToSeek => 8,
            Refusal::NoSuchLevel => 9,
            Refusal::NoSuchBucket => 10,
            Refusal::ParentMissing => 11,
            Refusal::NoSuchHelper => 12,
            Refusal::HelperOutOfOrder => 13,
            Refusal::NoMemory => 14,
            Refusal::OutOfStep => 15,
            Refusal::StampsUsedUp => 16,
            Refusal::CallersMissing => 17,
            Refusal::NoThread => 18,
            Refusal::StaleWord => 19,
            Refusal::NotJson => 20,
            Refusal::WrongShape => 21,
            Refusal::Limit => 22,
        }
    }

    /// The refusal as an English sentence. Like the `Display` of most errors, it begins with a
    /// small letter and has no full stop.
    pub fn text(self) -> &'static str
        ensures { result.now ≡ sentence_of self }
    {
        match self {
            Refusal::BadKey => "the key is 2^63 or more, and the map takes half keys only",
            Refusal::NoSuchCaller => "there is no such caller",
            Refusal::NotOpen => "the caller has no open transaction",
            Refusal::AlreadyOpen => "the caller has an open transaction already",
            Refusal::OperationUnfinished => "an operation of the caller has no reply yet",
            Refusal::Leaving => "the caller is taking its changes back",
            Refusal::Unplaced => "there is no cursor to act on",
            Refusal::NothingToSeek => "there is nothing to seek",
            Refusal::NoSuchLevel => "the transaction has no savepoint of this number",
            Refusal::NoSuchBucket => "the bucket is not below the size of the table",
            Refusal::ParentMissing => "the parent of the bucket is not initialised",
            Refusal::NoSuchHelper => "there is no such helper",
            Refusal::HelperOutOfOrder => {
                "the helper has no cursor to link at, or no dummy to store"
            }
            Refusal::NoMemory => "memory was refused",
            Refusal::OutOfStep => "the map and a caller disagree about what has happened",
            Refusal::StampsUsedUp => "no stamp is left for another node",
            Refusal::CallersMissing => "callers of the map are missing",
            Refusal::NoThread => "a thread could not be started",
            Refusal::StaleWord => "the claim to the stripe is stale",
            Refusal::NotJson => "the file is not JSON",
            Refusal::WrongShape => "an element of the file has the wrong shape",
            Refusal::Limit => "a size or a number is out of range",
        }
    }
}

/// An allocation error becomes `NoMemory`; `?` does this conversion.
impl From<AllocError> for Refusal {
    ghost use Rattle.txn_words.specs.declared.refusal.Refusal.TheVariants.{NoMemory};

    ghost from_gives = { λ _ refusal. refusal ≡ NoMemory };

    fn from(_: AllocError) -> Refusal {
        Refusal::NoMemory
    }
}
