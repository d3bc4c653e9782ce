//! Files that are an object in JSON: a version, some numbers, and an array of pieces. A kind of
//! file has names for its numbers and for the member with its pieces, and says what a piece is, and
//! which pieces version 1 has too (`PieceKind`).
//!
//! The model of a file is the function `contents` in `specs/Files.antt`: the version, the numbers
//! and the pieces in the members of the bytes' value in JSON (`json_of`), or the first fault. The
//! model of a reader is the list of tokens that it has not yet read; `specs/Tokens.antt` says which
//! value such a list begins with. `json` and `serde_json` define what bytes, tokens and numbers
//! mean as JSON.
//!
//! Most files are in plain form, and are read straight from their bytes: no text has escapes, no
//! number has more than 19 digits, the array has at least one element and at most as many as the
//! kind allows, each element is a piece, and the other members have plain values. White space may
//! stand wherever JSON allows it. The reader of JSON reads any other file again from its start.
//! `specs/PlainBytes.antt` says into which tokens it turns bytes in plain form.
//!
//! Proved: `read_file` computes `contents`, or reports that memory was refused.
//!
//! A text is read at most twice, in time in proportion to its length. Skipped values are tested to
//! be JSON, and not kept. No more pieces are kept than a file may have; further ones are only
//! counted.
#![tactic(auto)]

mod elements;
mod file;
mod file_fault;
mod flat;
mod members;
mod numeral;
mod part;
mod passing;
mod piece;
mod plain;
mod plain_array;
mod plain_bytes;
mod plain_members;
mod plain_pieces;
mod stop;

pub use elements::{end_in, leading_optional_in, number_in, one_in, optional_in, two_in, word_in};
pub use file::{MAX_BYTES, read_file};
pub use file_fault::FileFault;
pub use flat::{Flat, FlatKind, MAX_ELEMENTS};
pub use members::MAX_DEPTH;
pub use part::Part;
pub use passing::pass_value;
pub use piece::{PieceKind, Pieces, pieces_in};
pub use plain::{Plain, plain_elements};
pub use plain_array::{elements_at, whole_array};
pub use plain_bytes::is_space;
pub use plain_pieces::pieces_at;
pub use stop::Stop;
