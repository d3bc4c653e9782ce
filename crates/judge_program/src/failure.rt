//! The reasons why a request of the program has no verdict or no outcomes, and the usage text. The
//! engines have two fault types, and do not read the command line. Here both types and the usage
//! error become one type, with one text and one exit status for each value.
ghost use Rattle.std.specs.Prelude.{◌≡◌};
ghost use Rattle.judge_program.specs.Failures.{message_of, status_of};
ghost use Rattle.judge_program.specs.declared.failure.Failure.TheVariants as failures;

use judge_engine::{Fault, OutcomesFault};
use std::alloc::AllocError;
use std::fmt;

/// The usage text, which is printed if the command line is not valid, and on request.
pub(crate) const USAGE: &str = "usage: judge check [--commit-order] FILE
       judge check --serializable [--real-time] [--most-branches N] [--show-order] FILE
       judge watch [--commit-order | --stripes N]
       judge why [--commit-order] FILE
       judge why --serializable [--real-time] [--most-branches N] [--dot] FILE
       judge outcomes SCRIPTS HISTORY

  check FILE  says whether the history of a file is legal, or which entry breaks which rule
  watch       judges the entries on standard input, one per line, as they arrive
  why FILE    says what check says, and then what leads to the bad entry, to the reason, or to the
              fault of the file
  outcomes SCRIPTS HISTORY
              says what became of each script, by the history that was printed for the scripts

  --commit-order  judges by the order of commits, not by locks
  --serializable  says whether the committed transactions have any serial order
  --real-time     a transaction must also come after all that had committed when it began
  --most-branches N
                  how often the search for an order may go back; 10000 if it is not given
  --show-order    prints the transactions in this order, one per line
  --dot           prints the cycle as a graph for Graphviz' dot, in place of the lines
  --stripes N     the number of locks, from 1 to 4096; 4096 if it is not given

FILE and HISTORY are paths of history files, SCRIPTS of a script file; - is standard input.

Exit status: 0 all is well, 1 the history is illegal or not serializable, or a script without an
abort was given up, 2 a usage error, 3 a file or a line is refused, 4 no memory, a failed read or
write, 5 undecided. For 3 and 4, one line on standard error says why.

Example: judge check examples/checked.json";

/// Why a request has no verdict or no outcomes.
#[derive(Clone, Copy, Debug, PartialEq, Eq)]
pub enum Failure {
    /// The command line is not valid.
    Usage,
    /// There is no verdict because of a fault of the input, of memory or of an output. This is also
    /// the failure if memory was refused before an engine was called, or if the usage or the
    /// version was not written.
    Fault(Fault),
    /// The outcomes are not known. The cause is a fault of one of the files, refused memory, or a
    /// fault of an output.
    Outcomes(OutcomesFault),
}

impl Failure {
    /// Returns the exit status of the program: 2 for `Usage`, else the status of the fault. Takes
    /// constant time.
    pub fn status(self) -> u8
        ensures { result ≡ status_of self }
    {
        match self {
            Failure::Usage => 2,
            Failure::Fault(fault) => fault.status(),
            Failure::Outcomes(fault) => fault.status(),
        }
    }
}

impl fmt::Display for Failure {
    ghost use Rattle.std.specs.Prelude.{Some};

    ghost output = { λ failure. Some (message_of failure) };

    fn fmt<W: fmt::Write>(&self, f: &mut fmt::Formatter<W>) -> fmt::Result {
        match *self {
            Failure::Usage => f.write_str(USAGE),
            Failure::Fault(fault) => write!(f, "{fault}"),
            Failure::Outcomes(fault) => write!(f, "{fault}"),
        }
    }
}

impl std::error::Error for Failure {}

impl From<Fault> for Failure {
    ghost from_gives = { λ fault failure. failure ≡ failures.Fault fault };

    fn from(fault: Fault) -> Failure {
        Failure::Fault(fault)
    }
}

impl From<OutcomesFault> for Failure {
    ghost from_gives = { λ fault failure. failure ≡ failures.Outcomes fault };

    fn from(fault: OutcomesFault) -> Failure {
        Failure::Outcomes(fault)
    }
}

impl From<AllocError> for Failure {
    ghost use Rattle.judge_engine.specs.declared.fault.Fault.TheVariants as faults;

    ghost from_gives = { λ _ failure. failure ≡ failures.Fault faults.NoMemory };

    fn from(_error: AllocError) -> Failure {
        Failure::Fault(Fault::NoMemory)
    }
}
