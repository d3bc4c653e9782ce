//! The faults of the program, with the exit status and the line of each, and the usage text. All
//! commands, and the programs that use this crate, share these faults: a command returns its fault,
//! and a program prints the fault's line. Contracts state each status and text
//! (`specs/Faults.antt`). No text takes memory.
ghost use Rattle.std.specs.Prelude.{◌≡◌};
ghost use Rattle.boostmap_engine.specs.Faults.{IsReadFault, status_of, message_of, of_file};
ghost use Rattle.boostmap_engine.specs.declared.fault.Fault.TheVariants as faults;

use std::alloc::AllocError;
use std::fmt;
use thiserror::Error;
use txn_files::{FileFault, Unread, Unwritten};

/// The usage text, which is printed if the command line is not valid.
const USAGE: &str = "usage: boostmap replay FILE | boostmap run FILE
       boostmap mix --seed N FILE | boostmap check FILE

  replay FILE        runs the steps of a file, and prints answers, size, count and pairs
  run FILE           runs the scripts of a file, one thread per worker, and prints the history
  mix --seed N FILE  runs the scripts of a file, interleaved by seed N, and prints the history
  check FILE         says whether a recorded history is legal, or which entry breaks which rule

FILE is the path of a file, and may be /dev/stdin.
N is a whole number from 0 to 18446744073709551615, in decimal digits.

Exit status: 0 all is well, 1 the history is illegal, 2 a usage error, 3 the file is refused,
4 no memory, no thread, a failed read or write, or out of step.
For 3 and 4, one line on standard error says why.

Example: boostmap check examples/checked.json";

/// The reason why the program gives up.
#[derive(Debug, Drop, Error)]
#[error("{}", Message {fault: self})]
pub enum Fault {
    /// The command line is not valid.
    Usage,
    /// The file was refused, with this fault.
    Input(FileFault),
    /// Memory was refused.
    NoMemory,
    /// A thread could not be started.
    NoThread,
    /// A read failed, or the file could not be opened.
    Read,
    /// A write failed, or took none of the bytes.
    Write,
    /// The history of a run in threads differs from what the run's workers saw.
    OutOfStep,
}

/// The text that is printed on standard error for a fault: one line without its line feed. For
/// `Usage` it is the whole usage text.
#[derive(Clone, Copy, Debug)]
pub struct Message<'a> {
    fault: &'a Fault,
}

impl fmt::Display for Message<'_> {
    ghost use Rattle.std.specs.Prelude.{Some};

    ghost output = { λ message. Some (message_of message.fault.now) };

    fn fmt<W: fmt::Write>(&self, f: &mut fmt::Formatter<W>) -> fmt::Result {
        match self.fault {
            Fault::Usage => f.write_str(USAGE),
            Fault::Input(fault) => write!(f, "refused {fault}"),
            Fault::NoMemory => f.write_str("no memory"),
            Fault::NoThread => f.write_str("no thread"),
            Fault::Read => f.write_str("read failed"),
            Fault::Write => f.write_str("write failed"),
            Fault::OutOfStep => f.write_str("out of step"),
        }
    }
}

impl Fault {
    /// The text that is printed on standard error for the fault.
    ///
    /// # Cost
    ///
    /// Constant time; takes no memory.
    pub fn message(&self) -> Message<'_>
        ensures { result.fault.now ≡ self.now }
    {
        Message { fault: self }
    }

    /// The exit status of the program: 2 for `Usage`, 3 for `Input`, 4 for every other fault.
    ///
    /// # Cost
    ///
    /// Constant time; takes no memory.
    pub fn status(&self) -> u8
        ensures { result ≡ status_of self.now }
    {
        match self {
            Fault::Usage => 2,
            Fault::Input(_) => 3,
            Fault::NoMemory | Fault::NoThread | Fault::Read | Fault::Write | Fault::OutOfStep => 4,
        }
    }
}

impl From<AllocError> for Fault {
    ghost from_gives = { λ _ fault. fault ≡ faults.NoMemory };

    fn from(_error: AllocError) -> Fault {
        Fault::NoMemory
    }
}

impl From<Unread> for Fault {
    ghost from_gives = { λ _ fault. IsReadFault fault };

    fn from(unread: Unread) -> Fault {
        match unread {
            Unread::Failed => Fault::Read,
            Unread::NoMemory => Fault::NoMemory,
        }
    }
}

impl From<Unwritten> for Fault {
    ghost from_gives = { λ _ fault. fault ≡ faults.Write };

    fn from(_unwritten: Unwritten) -> Fault {
        Fault::Write
    }
}

impl From<FileFault> for Fault {
    ghost from_gives = { λ file_fault fault. fault ≡ of_file file_fault };

    fn from(fault: FileFault) -> Fault {
        match fault {
            FileFault::NoMemory => Fault::NoMemory,
            FileFault::NotJson | FileFault::Member | FileFault::Piece(..) | FileFault::Limit =>
                Fault::Input(fault),
        }
    }
}
