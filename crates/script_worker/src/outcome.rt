//! The outcome of a script, and its text: one line, without the line feed. A run over a history
//! writes one outcome for each script. `Outcome` is the only type that users of the crate see. It
//! names an entry by its index, so it is plain data and may outlast the history.

use std::fmt;

/// The outcome of a script in a history. It is printed as `committed 3 entry 17`, as
/// `aborted entry 20`, or as `given up`.
#[derive(Clone, Copy, Debug, PartialEq, Eq)]
pub enum Outcome {
    /// A transaction that plays the script is committed.
    Committed {
        /// The commit number, from the entry.
        place: u64,
        /// The index of the Committed entry, from 0.
        entry: u64,
    },
    /// A transaction did the script's actions up to the script's own abort.
    Aborted {
        /// The index of the Aborted entry, from 0.
        entry: u64,
    },
    /// No transaction is counted for the script.
    GivenUp,
}

impl fmt::Display for Outcome {
    ghost use Rattle.std.specs.Prelude.{Some};
    ghost use Rattle.script_worker.specs.Texts.{outcome_words};

    ghost output = { λ outcome. Some (outcome_words outcome) };

    fn fmt<W: fmt::Write>(&self, f: &mut fmt::Formatter<W>) -> fmt::Result {
        match *self {
            Outcome::Committed { place, entry } => write!(f, "committed {place} entry {entry}"),
            Outcome::Aborted { entry } => write!(f, "aborted entry {entry}"),
            Outcome::GivenUp => f.write_str("given up"),
        }
    }
}
