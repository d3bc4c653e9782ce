//! The reasons why `check`, `watch` and `why` give no verdict, each with its message and exit
//! status. `tell_outcomes` has a separate type, since it must say which of its files is at fault.
//! The conversions turn refused memory into `NoMemory`, and never into a refused file.
ghost use Rattle.std.specs.Prelude.{◌≡◌};
ghost use Rattle.judge_engine.specs.Faults.{IsReadFault, status_of, message_of, of_file};
ghost use Rattle.judge_engine.specs.declared.fault.Fault.TheVariants as faults;

use piece_files::FileFault;
use std::alloc::AllocError;
use std::fmt;
use txn_files::{Unread, Unwritten};

/// Why there is no verdict. A fault is printed as one line, without a line feed.
#[derive(Clone, Copy, Debug, PartialEq, Eq)]
pub enum Fault {
    /// A history file was refused.
    Input(FileFault),
    /// The line with this number, counted from 1, was refused.
    Line(u64, FileFault),
    /// Memory was refused.
    NoMemory,
    /// A read failed, or the file could not be opened.
    Read,
    /// A write failed, or took none of the bytes.
    Write,
}

impl fmt::Display for Fault {
    ghost use Rattle.std.specs.Prelude.{Some};

    ghost output = { λ fault. Some (message_of fault) };

    fn fmt<W: fmt::Write>(&self, f: &mut fmt::Formatter<W>) -> fmt::Result {
        match *self {
            Fault::Input(fault) => write!(f, "refused {fault}"),
            Fault::Line(number, fault) => write!(f, "refused {fault} line {number}"),
            Fault::NoMemory => f.write_str("no memory"),
            Fault::Read => f.write_str("read failed"),
            Fault::Write => f.write_str("write failed"),
        }
    }
}

impl std::error::Error for Fault {}

impl Fault {
    /// The exit status of the program: 3 for `Input` and `Line`, 4 for every other fault.
    ///
    /// # Cost
    ///
    /// Constant time; takes no memory.
    pub fn status(self) -> u8
        ensures { result ≡ status_of self }
    {
        match self {
            Fault::Input(_) | Fault::Line(..) => 3,
            Fault::NoMemory | Fault::Read | Fault::Write => 4,
        }
    }
}

impl From<AllocError> for Fault {
    ghost from_gives = { λ _ fault. fault ≡ faults.NoMemory };

    fn from(_error: AllocError) -> Fault {
        Fault::NoMemory
    }
}

impl From<Unread> for Fault {
    ghost from_gives = { λ _ fault. IsReadFault fault };

    fn from(unread: Unread) -> Fault {
        match unread {
            Unread::Failed => Fault::Read,
            Unread::NoMemory => Fault::NoMemory,
        }
    }
}

impl From<Unwritten> for Fault {
    ghost from_gives = { λ _ fault. fault ≡ faults.Write };

    fn from(_unwritten: Unwritten) -> Fault {
        Fault::Write
    }
}

impl From<FileFault> for Fault {
    ghost from_gives = { λ file_fault fault. fault ≡ of_file file_fault };

    fn from(fault: FileFault) -> Fault {
        match fault {
            FileFault::NoMemory => Fault::NoMemory,
            FileFault::NotJson | FileFault::Member | FileFault::Piece(..) | FileFault::Limit => {
                Fault::Input(fault)
            }
        }
    }
}
