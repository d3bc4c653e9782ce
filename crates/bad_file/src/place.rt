//! The places that a flaw may name, and their JSON paths. The module `file` decides which place a
//! flaw names. An entry is a flat array in this format, so two indices reach each element. A member
//! that the format does not have is never at fault, so it has no place.
use std::fmt;

/// A place in a history file. It is printed as a JSON path.
#[derive(Clone, Copy, Debug, PartialEq, Eq)]
pub enum Place {
    /// The file as a whole: `$`.
    File,
    /// The version: `$.version`.
    Version,
    /// The number of locks: `$.stripes`.
    Stripes,
    /// The array of entries: `$.entries`.
    Entries,
    /// The entry of this index: `$.entries[4]`.
    Entry(usize),
    /// An element of an entry, given the entry's index and then the element's index:
    /// `$.entries[4][2]`.
    Element(usize, usize),
}

impl fmt::Display for Place {
    ghost use Rattle.std.specs.Prelude.{Some};
    ghost use Rattle.bad_file.specs.Texts.{place_text};

    ghost output = { λ place. Some (place_text place) };

    fn fmt<W: fmt::Write>(&self, f: &mut fmt::Formatter<W>) -> fmt::Result {
        match *self {
            Place::File => f.write_str("$"),
            Place::Version => f.write_str("$.version"),
            Place::Stripes => f.write_str("$.stripes"),
            Place::Entries => f.write_str("$.entries"),
            Place::Entry(index) => write!(f, "$.entries[{index}]"),
            Place::Element(index, element) => write!(f, "$.entries[{index}][{element}]"),
        }
    }
}
