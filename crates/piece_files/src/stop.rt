//! The reasons why reading tokens stops early: the text is not JSON, or memory was refused. They
//! have a type of their own, because the loops over tokens never stop for the other reasons in
//! `FileFault`. `?` turns an error of the reader or the allocator into a `Stop`, and `members`
//! turns a `Stop` into a `FileFault`.
ghost use Rattle.std.specs.Prelude.{◌≡◌};
ghost use Rattle.piece_files.specs.declared.stop.Stop.TheVariants.{NotJson, NoMemory};

use json::Invalid;
use std::alloc::{AllocError, AllocFailed};

/// Why reading stopped before the end of a text.
#[derive(Clone, Copy, Debug, PartialEq, Eq)]
pub enum Stop {
    /// The text is not JSON.
    NotJson,
    /// Memory was refused.
    NoMemory,
}

impl From<Invalid> for Stop {
    ghost from_gives = { λ _ stop. stop ≡ NotJson };

    fn from(_error: Invalid) -> Stop {
        Stop::NotJson
    }
}

impl From<AllocError> for Stop {
    ghost from_gives = { λ _ stop. stop ≡ NoMemory };

    fn from(_error: AllocError) -> Stop {
        Stop::NoMemory
    }
}

impl<T: Drop> From<AllocFailed<T>> for Stop {
    ghost from_gives = { λ _ stop. stop ≡ NoMemory };

    fn from(_error: AllocFailed<T>) -> Stop {
        Stop::NoMemory
    }
}
