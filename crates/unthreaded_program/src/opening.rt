//! The beginning of the program: its words are read, and the file that they name is opened. The
//! programs
//! `boostmap` and `unthreaded` both begin here, before they choose an engine. Nothing is written
//! here: if they are refused, only `end` writes, and only to standard error.
ghost use Rattle.std.specs.Prelude.{◌≡◌, IfOk, IfErr};
ghost use Rattle.std.specs.IoError.{error_kind};
ghost use Rattle.unthreaded_program.specs.Opening.{SpellsCommand, IsUnopened, memory_or, of_words};

use boostmap_engine::Fault;
use command_line::{Command, NoRequest, request_in};
use program_system::System;
use std::alloc::Global;
use std::io;

/// A command with its file, which is open.
#[derive(Drop)]
pub struct Opened<I> {
    /// The command to run.
    pub command: Command,
    /// The open file.
    pub input: I,
}

/// `NoMemory` if the error says that memory was refused, otherwise the fault `other`.
fn memory_or(error: &io::Error, other: Fault) -> Fault
    ensures { result ≡ memory_or (error_kind error.now) other }
{
    match error.kind() {
        io::ErrorKind::OutOfMemory => Fault::NoMemory,
        _ => other,
    }
}

/// The fault that reports why the words make no request.
fn fault_of(reason: NoRequest) -> Fault
    ensures { result ≡ of_words reason }
{
    match reason {
        NoRequest::Usage => Fault::Usage,
        NoRequest::NoMemory => Fault::NoMemory,
    }
}

/// Reads the words of the command line and opens the file that they name. Returns the command and
/// the open file.
///
/// # Errors
///
/// - `Usage` if the words are not texts, or make no request.
/// - `Read` if the file cannot be opened.
/// - `NoMemory` if memory is refused.
///
/// # Cost
///
/// The cost of the system, and time and memory in proportion to the length of the words.
pub fn open<S: System>(alloc: Global, system: &S) -> Result<Opened<S::Input>, Fault>
    ensures ok { IfOk result (λ opened. SpellsCommand (S.spoken system.now) (S.bytes system.now)
        opened.command (S.Input.remaining opened.input)) }
    ensures err { IfErr result (IsUnopened (S.spoken system.now)) }
{
    let words = match system.words(alloc) {
        Ok(words) => words,
        Err(error) => return Err(memory_or(&error, Fault::Usage)),
    };
    let request = match request_in(alloc, &words) {
        Ok(request) => request,
        Err(reason) => return Err(fault_of(reason)),
    };
    match system.open(request.file) {
        Ok(input) => Ok(Opened {
            command: request.command,
            input,
        }),
        Err(error) => Err(memory_or(&error, Fault::Read)),
    }
}
