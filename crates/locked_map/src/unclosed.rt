//! The reason why a map was not closed. It contains all that was passed in, so that nothing is
//! lost. If the map cannot be closed again, it contains the map's core instead of the map.
//! `Unclosed` and `Closed` are separate types, since an `Unclosed` is an error with a text. The
//! text shows only the reason and none of the values.
ghost use Rattle.std.specs.Prelude.{◌≡◌};
ghost use Rattle.locked_map.specs.Closes.{text_of};

use crate::caller::Caller;
use crate::shared_map::SharedMap;
use boost_core::Core;
use std::error::Error;
use std::fmt;
use std::sync::ledger::Ledger;
use undo_log::Side;

/// The reason why a map was not closed.
#[derive(Drop)]
pub enum Unclosed<L: Ledger, S: Side> {
    /// A caller's number is missing or was passed in twice. The map is unchanged.
    Missing(SharedMap<L>, Vec<Caller<L, S>>),
    /// The core has other limits, or the entries of some caller in the history are not those that
    /// the caller saw.
    Differs(Core, Vec<Caller<L, S>>),
}

/// Shows only the name of the reason, not the values that are returned.
impl<L: Ledger, S: Side> fmt::Debug for Unclosed<L, S> {
    fn fmt<W: fmt::Write>(&self, f: &mut fmt::Formatter<W>) -> fmt::Result {
        match self {
            Unclosed::Missing(..) => f.write_str("Missing"),
            Unclosed::Differs(..) => f.write_str("Differs"),
        }
    }
}

/// Writes the reason as a sentence without a full stop.
impl<L: Ledger, S: Side> fmt::Display for Unclosed<L, S> {
    ghost use Rattle.std.specs.Prelude.{Some};
    ghost use Rattle.locked_map.specs.Closes.{unclosed_text};

    ghost output = { λ why. Some (unclosed_text why) };

    fn fmt<W: fmt::Write>(&self, f: &mut fmt::Formatter<W>) -> fmt::Result {
        match self {
            Unclosed::Missing(..) => f.write_str(text(true)),
            Unclosed::Differs(..) => f.write_str(text(false)),
        }
    }
}

impl<L: Ledger, S: Side> Error for Unclosed<L, S> {}

/// The text of the reason: that a caller is missing, or that the history differs.
fn text(is_missing: bool) -> &'static str
    ensures { result.now ≡ text_of is_missing }
{
    if is_missing {
        "a caller of the map is missing or was handed in twice"
    } else {
        "the history of the map is not what its callers saw"
    }
}
