//! The reason why `request_in` returns no request, as an error with a text. It is not the `Fault`
//! of the engines, since nothing in this crate depends on an engine. The programs turn the reason
//! into a fault. `NoRequest` has no fields, so making one takes no memory.
ghost use Rattle.std.specs.Prelude.{◌≡◌};
ghost use Rattle.command_line.specs.declared.no_request.NoRequest.TheVariants.{NoMemory};

use std::alloc::AllocError;
use std::error::Error;
use std::fmt;

/// The reason why `request_in` returns no request.
#[derive(Clone, Copy, Debug, PartialEq, Eq)]
pub enum NoRequest {
    /// The command line is not valid.
    Usage,
    /// Memory was refused.
    NoMemory,
}

/// A sentence without its full stop.
impl fmt::Display for NoRequest {
    ghost use Rattle.std.specs.Prelude.{Some};
    ghost use Rattle.command_line.specs.Reasons.{text_of};

    ghost output = { λ reason. Some (text_of reason) };

    fn fmt<W: fmt::Write>(&self, f: &mut fmt::Formatter<W>) -> fmt::Result {
        match self {
            NoRequest::Usage => f.write_str("the command line is not valid"),
            NoRequest::NoMemory => f.write_str("memory was refused"),
        }
    }
}

impl Error for NoRequest {}

/// Refused memory becomes `NoMemory`; `?` does this conversion.
impl From<AllocError> for NoRequest {
    ghost from_gives = { λ _ reason. reason ≡ NoMemory };

    fn from(_error: AllocError) -> NoRequest {
        NoRequest::NoMemory
    }
}
