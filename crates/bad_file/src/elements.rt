// PROMISES what-is-wrong-with-a-refused-file: fault_in
//! Searches one entry for its first fault, element by element. `file` runs this search for each
//! entry. A word decides which elements must follow, so a stack keeps the elements that are still
//! expected. The search ends at the first element too many, so its cost for each entry is bounded.
ghost use Rattle.std.specs.Prelude.{◌≡◌, ◌++◌, IfOk, MatchOption, OnOk, IsSome, map, reverse};
ghost use Rattle.serde_json.specs.View.{view};
ghost use Rattle.bad_file.specs.Flaws.{IsFault, entry_in};
ghost use Rattle.bad_file.specs.Following.{expected_after, after_entry_name, after_op_name, op_name};

use crate::expected::Expected;
use crate::values::is_of;
use serde_json::Value;
use std::alloc::{AllocError, Global};

/// The name of an operation, as an expected value. If `is_old` is true, it is a name that version 1
/// has. Constant time.
fn op_name(is_old: bool) -> Expected
    ensures { result ≡ op_name is_old }
{
    match is_old {
        true => Expected::OldOpName,
        false => Expected::OpName,
    }
}

/// Pushes the elements that are expected after the word of an entry. The element that is expected
/// next is at the end of the stack.
fn push_after_entry_name(
    stack: &mut Vec<Expected>,
    is_old: bool,
    word: &str,
) -> Result<(), AllocError>
    ensures { OnOk result (reverse stack.new.items
        ≡ after_entry_name is_old word.now ++ reverse stack.old.items) }
{
    let op = op_name(is_old);
    match word {
        "asked" => stack.extend_from_slice(&[op, Expected::Caller]),
        "busy" => stack.extend_from_slice(&[Expected::Caller, op, Expected::Caller]),
        "did" | "leave" => stack.extend_from_slice(&[Expected::NumberOrNull, Expected::Caller]),
        "began" | "returned" | "committed" => {
            stack.extend_from_slice(&[Expected::Number, Expected::Caller])
        }
        "undone" | "saved" | "aborted" => stack.extend_from_slice(&[Expected::Caller]),
        _ => Ok(()),
    }
}

/// Pushes the elements that are expected after the word of an operation.
fn push_after_op_name(stack: &mut Vec<Expected>, word: &str) -> Result<(), AllocError>
    ensures { OnOk result (reverse stack.new.items
        ≡ after_op_name word.now ++ reverse stack.old.items) }
{
    match word {
        "put" => stack.extend_from_slice(&[Expected::Number, Expected::Number]),
        "take" | "get" => stack.extend_from_slice(&[Expected::Number]),
        "put_if" => stack.extend_from_slice(&[
            Expected::Number,
            Expected::NumberOrNull,
            Expected::Number,
        ]),
        _ => Ok(()),
    }
}

/// If this element is the word of an entry or an operation, pushes the elements that are expected
/// after this word. Otherwise pushes none.
fn push_after(
    stack: &mut Vec<Expected>,
    is_old: bool,
    expected: Expected,
    value: &Value,
) -> Result<(), AllocError>
    ensures { OnOk result (reverse stack.new.items
        ≡ expected_after is_old expected (view value.now) ++ reverse stack.old.items) }
{
    let Some(word) = value.as_str() else {
        return Ok(());
    };
    match expected {
        Expected::EntryName => push_after_entry_name(stack, is_old, word),
        Expected::OpName | Expected::OldOpName => push_after_op_name(stack, word),
        _ => Ok(()),
    }
}

/// If the elements are not an entry, returns their first fault: the index of the element at fault,
/// and the value that is expected there (`None` if no value is allowed). If they are an entry,
/// returns `None`. If `is_old` is true, only entries that version 1 allows count as entries. If
/// `ranged` is true, only entries whose callers are in range count.
///
/// # Errors
///
/// `AllocError` if memory is refused.
///
/// # Cost
///
/// Time in proportion to the elements, of which at most eight are read. Memory for the elements
/// that are still expected.
pub(crate) fn fault_in(
    alloc: Global,
    is_old: bool,
    ranged: bool,
    values: &[Value],
) -> Result<Option<(usize, Option<Expected>)>, AllocError>
    ensures { IfOk result (λ found. MatchOption found
        (IsSome (entry_in is_old ranged (map view values.now)))
        (λ fault. IsFault is_old ranged (map view values.now) fault.0 fault.1)) }
{
    let mut stack = Vec::new(alloc);
    stack.push(Expected::EntryName)?;
    for (index, value) in values.iter().enumerate() {
        let Some(expected) = stack.pop() else {
            return Ok(Some((index, None)));
        };
        if !is_of(ranged, expected, value) {
            return Ok(Some((index, Some(expected))));
        }
        push_after(&mut stack, is_old, expected, value)?;
    }
    match stack.pop() {
        Some(expected) => Ok(Some((values.len(), Some(expected)))),
        None => Ok(None),
    }
}
