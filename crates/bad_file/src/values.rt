//! Tests that a JSON value is as expected, and gets the elements of an array. `file`, `elements`
//! and `found` share these functions. A test looks at the range only if `ranged` is true, since all
//! shapes are tested before any range. Each test takes constant time and no memory.
ghost use Rattle.std.specs.Prelude.{◌≡◌, map, is_some, option_map};
ghost use Rattle.piece_files.specs.Elements.{elements_of, optional};
ghost use Rattle.serde_json.specs.Find.{as_str};
ghost use Rattle.serde_json.specs.View.{view};
ghost use Rattle.bad_file.specs.Meets.{is_array, is_entry_name, is_named, is_number, is_as_expected, is_op_name, is_old_op_name};

use crate::expected::Expected;
use serde_json::Value;
use txn_words::Limits;

/// The last version that is read.
const MAX_VERSION: u64 = 3;

/// How many entries a file may have.
const MAX_ENTRIES: usize = 1_000_000;

/// The elements of a value that is an array.
pub(crate) fn elements_in(value: &Value) -> Option<&[Value]>
    ensures { option_map (λ values. map view values.now) result ≡ elements_of (view value.now) }
{
    match value.as_array() {
        Some(elements) => Some(elements.as_slice()),
        None => None,
    }
}

/// Returns true if a value is a whole number. If `ranged` is true, it must also be from `least` to
/// `most`.
fn is_number(ranged: bool, least: u64, most: u64, value: &Value) -> bool
    ensures { result ≡ is_number ranged least most (view value.now) }
{
    match value.as_u64() {
        Some(number) => !ranged || (least <= number && number <= most),
        None => false,
    }
}

/// Returns true if a word names a kind of entry.
fn is_entry_name(word: &str) -> bool
    ensures { result ≡ is_entry_name word.now }
{
    matches!(
        word,
        "asked"
            | "busy"
            | "did"
            | "undone"
            | "began"
            | "saved"
            | "leave"
            | "returned"
            | "committed"
            | "aborted"
    )
}

/// Returns true if a word names an operation of version 1.
fn is_old_op_name(word: &str) -> bool
    ensures { result ≡ is_old_op_name word.now }
{
    matches!(word, "put" | "take" | "get")
}

/// Returns true if a word names an operation.
fn is_op_name(word: &str) -> bool
    ensures { result ≡ is_op_name word.now }
{
    matches!(word, "put" | "take" | "get" | "put_if")
}

/// Returns true if a value is an array. If `ranged` is true, it must also have at most `most`
/// elements.
fn is_array(ranged: bool, most: usize, value: &Value) -> bool
    ensures { result ≡ is_array ranged most (view value.now) }
{
    match elements_in(value) {
        Some(elements) => !ranged || elements.len() <= most,
        None => false,
    }
}

/// Whether a value is null, or a whole number.
fn is_number_or_null(value: &Value) -> bool
    ensures { result ≡ is_some (optional (view value.now)) }
{
    if value.is_null() {
        return true;
    }
    value.as_u64().is_some()
}

/// Returns true if a value is a word that names a kind of entry.
fn is_entry_word(value: &Value) -> bool
    ensures { result ≡ is_named is_entry_name (as_str (view value.now)) }
{
    match value.as_str() {
        Some(word) => is_entry_name(word),
        None => false,
    }
}

/// Returns true if a value is a word that names an operation.
fn is_op_word(value: &Value) -> bool
    ensures { result ≡ is_named is_op_name (as_str (view value.now)) }
{
    match value.as_str() {
        Some(word) => is_op_name(word),
        None => false,
    }
}

/// Returns true if a value is a word that names an operation of version 1.
fn is_old_op_word(value: &Value) -> bool
    ensures { result ≡ is_named is_old_op_name (as_str (view value.now)) }
{
    match value.as_str() {
        Some(word) => is_old_op_name(word),
        None => false,
    }
}

/// Whether a value is what is expected. Its range counts only if `ranged` is true.
pub(crate) fn is_of(ranged: bool, expected: Expected, value: &Value) -> bool
    ensures { result ≡ is_as_expected ranged expected (view value.now) }
{
    match expected {
        Expected::Object => value.is_object(),
        Expected::Version => is_number(ranged, 1, MAX_VERSION, value),
        Expected::Stripes => is_number(ranged, 1, Limits::MAX_STRIPES, value),
        Expected::Entries => is_array(ranged, MAX_ENTRIES, value),
        Expected::Entry => value.is_array(),
        Expected::EntryName => is_entry_word(value),
        Expected::OpName => is_op_word(value),
        Expected::OldOpName => is_old_op_word(value),
        Expected::Caller => is_number(ranged, 0, Limits::MAX_CALLERS - 1, value),
        Expected::Number => value.as_u64().is_some(),
        Expected::NumberOrNull => is_number_or_null(value),
    }
}
