//! Names for the values that the format of history files allows, and the words by which a flaw
//! prints them. The tests of values against these names are in `values`. The words are constants
//! that include the ranges, which the contract requires (`expected_text`).
ghost use Rattle.std.specs.Prelude.{◌≡◌};
ghost use Rattle.bad_file.specs.Texts.{expected_text};

use std::fmt;

/// A value allowed at a place of a history file. It is printed in words, with the range.
#[derive(Clone, Copy, Debug, PartialEq, Eq)]
pub enum Expected {
    /// An object.
    Object,
    /// The version of the file: 1 to 3.
    Version,
    /// How many locks there are: 1 to 4,096.
    Stripes,
    /// The entries: an array of at most 1,000,000 elements.
    Entries,
    /// An entry: an array.
    Entry,
    /// The word that names the kind of an entry.
    EntryName,
    /// The word that names an operation.
    OpName,
    /// The word that names an operation in version 1, which has no `put_if`.
    OldOpName,
    /// A caller: 0 to 63.
    Caller,
    /// A whole number below 2^64.
    Number,
    /// A whole number below 2^64, or null.
    NumberOrNull,
}

impl Expected {
    /// The value in words.
    fn words(self) -> &'static str
        ensures { result.now ≡ expected_text self }
    {
        match self {
            Expected::Object => "an object",
            Expected::Version => "a whole number from 1 to 3",
            Expected::Stripes => "a whole number from 1 to 4096",
            Expected::Entries => "an array of at most 1000000 entries",
            Expected::Entry => "an array",
            Expected::EntryName => {
                "\"asked\", \"busy\", \"did\", \"undone\", \"began\", \"saved\", \"leave\", \"returned\", \"committed\" or \"aborted\""
            }
            Expected::OpName => "\"put\", \"take\", \"get\" or \"put_if\"",
            Expected::OldOpName => "\"put\", \"take\" or \"get\", and from version 2 on \"put_if\"",
            Expected::Caller => "a whole number from 0 to 63",
            Expected::Number => "a whole number from 0 to 18446744073709551615",
            Expected::NumberOrNull => "a whole number from 0 to 18446744073709551615, or null",
        }
    }
}

impl fmt::Display for Expected {
    ghost use Rattle.std.specs.Prelude.{Some};

    ghost output = { λ expected. Some (expected_text expected) };

    fn fmt<W: fmt::Write>(&self, f: &mut fmt::Formatter<W>) -> fmt::Result {
        f.write_str(self.words())
    }
}
