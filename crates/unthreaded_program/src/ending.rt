//! The end of the program: the line of a fault on standard error, and the exit status.
//! The programs `boostmap` and `unthreaded` both end here, whatever ran before, so a status means
//! the same in both. The status does not depend on whether the line could be written.
ghost use Rattle.std.specs.Prelude.{◌≡◌};
ghost use Rattle.unthreaded_program.specs.Runs.{TellsError, status_after};

use boostmap_engine::Fault;
use program_system::Ending;
use std::io::Write;

/// The exit status after a run with this outcome: 0 if all is well, 1 for an illegal history,
/// otherwise the status of the fault.
fn status_of(outcome: &Result<bool, Fault>) -> u8
    ensures { result ≡ status_after outcome.now }
{
    match outcome {
        Ok(true) => 0,
        Ok(false) => 1,
        Err(fault) => fault.status(),
    }
}

/// If the outcome is a fault, writes the line of the fault to `errors`. Returns the exit status,
/// and whether `errors` took the line. A failed write does not change the status.
///
/// # Cost
///
/// The cost of the writer.
pub fn end<E: Write>(outcome: &Result<bool, Fault>, errors: &mut E) -> Ending
    ensures status { result.status ≡ status_after outcome.now }
    ensures told { TellsError (E.contents errors.old) (E.contents errors.new) result.is_told
        outcome.now }
{
    let is_told = match outcome {
        Ok(_) => true,
        Err(fault) => errors.writeln(fault.message()).is_ok(),
    };
    Ending {
        status: status_of(outcome),
        is_told,
    }
}
