//! The faults for which a file is refused, with the numbers that users see. The numbers are those
//! of `Refusal` in `txn_words`, a crate that this crate does not use. A fault names at most one
//! piece, the first that is wrong. The documentation of `read_file` says which fault is reported if
//! there are several.
ghost use Rattle.std.specs.Prelude.{◌≡◌};
ghost use Rattle.piece_files.specs.Faults.{words_of};
ghost use Rattle.piece_files.specs.declared.file_fault.FileFault.TheVariants.{NoMemory};

use crate::part::Part;
use std::alloc::{AllocError, AllocFailed};
use std::fmt;

/// Why a file was refused. A fault is printed as its number. If it names a piece, the kind and the
/// index of the piece follow, as in `21 step 5`.
#[derive(Clone, Copy, Debug, PartialEq, Eq)]
pub enum FileFault {
    /// 20: the bytes are not JSON.
    NotJson,
    /// 21: the file is no object, or a member is missing or of the wrong kind.
    Member,
    /// 21, with an index: the first piece that is wrong, and its index from 0.
    Piece(Part, usize),
    /// 22: the file is too long, or one of these is out of range: a number in the file, the number
    /// of its pieces, or the length of a piece.
    Limit,
    /// 14: memory was refused. This fault says nothing about the file.
    NoMemory,
}

impl fmt::Display for FileFault {
    ghost use Rattle.std.specs.Prelude.{Some};

    ghost output = { λ fault. Some (words_of fault) };

    fn fmt<W: fmt::Write>(&self, f: &mut fmt::Formatter<W>) -> fmt::Result {
        match *self {
            FileFault::NotJson => write!(f, "20"),
            FileFault::Member => write!(f, "21"),
            FileFault::Piece(Part::Step, index) => write!(f, "21 step {index}"),
            FileFault::Piece(Part::Script, index) => write!(f, "21 script {index}"),
            FileFault::Piece(Part::Entry, index) => write!(f, "21 entry {index}"),
            FileFault::Limit => write!(f, "22"),
            FileFault::NoMemory => write!(f, "14"),
        }
    }
}

impl std::error::Error for FileFault {}

impl From<AllocError> for FileFault {
    ghost from_gives = { λ _ fault. fault ≡ NoMemory };

    fn from(_error: AllocError) -> FileFault {
        FileFault::NoMemory
    }
}

impl<T: Drop> From<AllocFailed<T>> for FileFault {
    ghost from_gives = { λ _ fault. fault ≡ NoMemory };

    fn from(_error: AllocFailed<T>) -> FileFault {
        FileFault::NoMemory
    }
}
