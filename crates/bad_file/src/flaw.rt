//! `Flaw`, which this crate returns, and how a flaw is printed. The search for a flaw is in `file`.
//! The texts of a flaw's parts are in `place`, `found` and `expected`. A flaw borrows nothing from
//! the file, so it can be printed after the file is dropped.
ghost use Rattle.std.specs.Prelude.{◌≡◌};
ghost use Rattle.bad_file.specs.Texts.{is_a_word};

use crate::expected::Expected;
use crate::found::Found;
use crate::place::Place;
use std::fmt;

/// The flaw of a history file. A flaw is printed as one line, without a line feed.
#[derive(Clone, Copy, Debug, PartialEq, Eq)]
pub enum Flaw {
    /// The file has more than 16,777,216 bytes.
    TooLong,
    /// The file is not JSON, nests too deep, or has a number that is too large for a float.
    NotJson {
        /// The line where the fault shows, counted from 1.
        line: usize,
        /// The column in that line, in bytes, counted from 1. If the file ends too early, this is
        /// the column of the line's last byte, or 0 if the line is empty.
        column: usize,
    },
    /// The value at a place is not as expected.
    Wrong {
        /// The place.
        place: Place,
        /// What is found at the place.
        found: Found,
        /// The value that is expected at the place, or `None` if no value is allowed there.
        expected: Option<Expected>,
    },
}

/// Whether a word is expected, and no other kind of value. Constant time.
fn is_a_word(expected: Expected) -> bool
    ensures { result ≡ is_a_word expected }
{
    matches!(
        expected,
        Expected::EntryName | Expected::OpName | Expected::OldOpName
    )
}

impl fmt::Display for Flaw {
    ghost use Rattle.std.specs.Prelude.{Some};
    ghost use Rattle.bad_file.specs.Texts.{flaw_text};

    ghost output = { λ flaw. Some (flaw_text flaw) };

    fn fmt<W: fmt::Write>(&self, f: &mut fmt::Formatter<W>) -> fmt::Result {
        match *self {
            Flaw::TooLong => f.write_str("$: more than 16777216 bytes"),
            Flaw::NotJson { line, column } => write!(
                f,
                "$: no JSON, or nested more than 127 deep, at line {line} column {column}"
            ),
            Flaw::Wrong {
                place,
                expected: None,
                ..
            } => write!(f, "{place}: an element too many"),
            Flaw::Wrong {
                place,
                found: Found::Text,
                expected: Some(expected),
            } if is_a_word(expected) => write!(f, "{place}: an unknown word; expected {expected}"),
            Flaw::Wrong {
                place,
                found,
                expected: Some(expected),
            } => write!(f, "{place}: {found}; expected {expected}"),
        }
    }
}
