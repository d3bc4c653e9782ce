//! The finding at a place that a flaw names: the kind of the value there, with its number or its
//! length. The tests that a value is as expected are in `values`. A finding is made in constant
//! time, and holds no reference to the file.
ghost use Rattle.std.specs.Prelude.{◌≡◌, option_map};
ghost use Rattle.serde_json.specs.View.{view};
ghost use Rattle.bad_file.specs.Meets.{found_of, kind_of};

use crate::values::elements_in;
use serde_json::Value;
use std::fmt;

/// The finding at a place of a history file. It is printed in words.
#[derive(Clone, Copy, Debug, PartialEq, Eq)]
pub enum Found {
    /// Nothing: the member or the element is missing.
    Nothing,
    /// Null.
    Null,
    /// True or false.
    Bool,
    /// A whole number below 2^64, without sign, fraction or exponent.
    Number(u64),
    /// Another number.
    OtherNumber,
    /// A text.
    Text,
    /// An array of this length.
    Array(usize),
    /// An object.
    Object,
}

impl fmt::Display for Found {
    ghost use Rattle.std.specs.Prelude.{Some};
    ghost use Rattle.bad_file.specs.Texts.{found_text};

    ghost output = { λ found. Some (found_text found) };

    fn fmt<W: fmt::Write>(&self, f: &mut fmt::Formatter<W>) -> fmt::Result {
        match *self {
            Found::Nothing => f.write_str("nothing"),
            Found::Null => f.write_str("null"),
            Found::Bool => f.write_str("true or false"),
            Found::Number(number) => write!(f, "{number}"),
            Found::OtherNumber => {
                f.write_str("a number with a sign, a fraction or an exponent, or too large")
            }
            Found::Text => f.write_str("a text"),
            Found::Array(count) => write!(f, "an array of length {count}"),
            Found::Object => f.write_str("an object"),
        }
    }
}

/// The kind of a value. Constant time.
#[tactic(auto, using(crate::proofs::Founds::null_found, crate::proofs::Founds::bool_found, crate::proofs::Founds::number_found, crate::proofs::Founds::other_found, crate::proofs::Founds::text_found, crate::proofs::Founds::array_found, crate::proofs::Founds::object_found))]
fn kind_of(value: &Value) -> Found
    ensures { result ≡ kind_of (view value.now) }
{
    if value.is_null() {
        return Found::Null;
    }
    if value.is_boolean() {
        return Found::Bool;
    }
    if let Some(number) = value.as_u64() {
        return Found::Number(number);
    }
    if value.is_number() {
        return Found::OtherNumber;
    }
    if value.is_string() {
        return Found::Text;
    }
    match elements_in(value) {
        Some(elements) => Found::Array(elements.len()),
        None => Found::Object,
    }
}

/// The finding at a place that has this value. Constant time.
pub(crate) fn found_of(value: Option<&Value>) -> Found
    ensures { result ≡ found_of (option_map (λ v. view v.now) value.entry) }
{
    match value {
        Some(value) => kind_of(value),
        None => Found::Nothing,
    }
}
