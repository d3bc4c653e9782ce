//! The answers that the calls of `Buckets` give, and their refusals. This crate does not use
//! `txn_words`: `map_ops` converts these refusals to refusals of steps, and `boost_core` converts
//! the other answers. The state before a call determines its answer, unless the answer is
//! `NoMemory` (`specs/Answers.antt`).
ghost use Rattle.std.specs.Prelude.{◌≡◌};
ghost use Rattle.bucket_table.specs.Refusals.{refusal_of};
ghost use Rattle.bucket_table.specs.Text.{refusal_text};

use node_list::SpareFault;
use std::fmt;
use std::fmt::Display;

/// The outcome of `Buckets::init_seek`.
#[derive(Clone, Copy, Debug, PartialEq, Eq)]
pub enum InitSeek {
    /// The bucket is stored already, and the helper is idle.
    Ready,
    /// The helper has a cursor for the bucket's dummy.
    Placed,
}

/// The outcome of `Buckets::init_link`.
#[derive(Clone, Copy, Debug, PartialEq, Eq)]
pub enum InitLink {
    /// The cursor no longer fits and is dropped: the helper is idle.
    Again,
    /// The bucket's dummy was linked before, and the helper has it.
    Present,
    /// The bucket's dummy is linked now, and the helper has it.
    Linked,
}

/// Why a step that initialises a bucket is refused. A refused step leaves everything unchanged.
/// Each refusal is printed as a sentence.
#[derive(Clone, Copy, Debug, PartialEq, Eq)]
pub enum InitRefusal {
    /// The bucket is not below the size.
    NoSuchBucket,
    /// The bucket's parent is not stored.
    ParentMissing,
    /// The helper's number is not below the number of helpers.
    NoSuchHelper,
    /// The helper has no cursor to link at, or no dummy to store.
    HelperOutOfOrder,
    /// Memory was refused for the dummy's node or for the bucket's segment, or the list has no
    /// place left for the dummy.
    NoMemory,
    /// No stamp is left for the dummy: the list's last stamp is 2^64 - 2.
    StampsUsedUp,
}

impl Display for InitRefusal {
    ghost use Rattle.std.specs.Prelude.{Some};

    ghost output = { λ refusal. Some (refusal_text refusal) };

    fn fmt<W: fmt::Write>(&self, f: &mut fmt::Formatter<W>) -> fmt::Result {
        match *self {
            InitRefusal::NoSuchBucket => f.write_str("the bucket is not below the size"),
            InitRefusal::ParentMissing => f.write_str("the bucket's parent is not stored"),
            InitRefusal::NoSuchHelper => f.write_str("there is no such helper"),
            InitRefusal::HelperOutOfOrder => {
                f.write_str("the helper has no cursor to link at, or no dummy to store")
            }
            InitRefusal::NoMemory => {
                f.write_str("no memory for the dummy or for its bucket's segment")
            },
            InitRefusal::StampsUsedUp => f.write_str("the list has no stamp left for the dummy"),
        }
    }
}

impl std::error::Error for InitRefusal {}

impl From<SpareFault> for InitRefusal {
    ghost from_gives = { λ fault refusal. refusal ≡ refusal_of fault };

    fn from(fault: SpareFault) -> Self {
        match fault {
            SpareFault::Worn => InitRefusal::StampsUsedUp,
            SpareFault::NoMemory => InitRefusal::NoMemory,
        }
    }
}

/// The outcome of `Buckets::double`. Only `Doubled` changes the size. The numbers are sizes, in
/// buckets.
#[derive(Clone, Copy, Debug, PartialEq, Eq)]
pub enum Double {
    /// The size is not the one that the caller saw. The size is this number.
    Moved(u32),
    /// The size is the largest one allowed.
    AtLimit,
    /// There are at most twice as many keys as buckets.
    Light,
    /// The size is doubled; it is now this number.
    Doubled(u32),
}
