//! The reason why a host does not hand out the history (`Host::history`).
use std::error::Error;
use std::fmt;

/// The reason why a host does not hand out the history.
#[derive(Clone, Copy, Debug, PartialEq, Eq)]
pub enum NoHistory {
    /// The map does not keep its entries (`Keep::Entries`).
    NotKept,
    /// The caller with this number has not ended: it was neither merged nor dropped.
    Missing(u64),
    /// Memory is refused.
    NoMemory,
}

/// Prints a sentence without a full stop.
impl fmt::Display for NoHistory {
    fn fmt<W: fmt::Write>(&self, f: &mut fmt::Formatter<W>) -> fmt::Result {
        match *self {
            NoHistory::NotKept => f.write_str("the map does not keep its entries"),
            NoHistory::Missing(caller) => write!(f, "caller {caller} was not merged"),
            NoHistory::NoMemory => f.write_str("memory is refused"),
        }
    }
}

impl Error for NoHistory {}
