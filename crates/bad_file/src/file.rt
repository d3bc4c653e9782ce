// PROMISES what-is-wrong-with-a-refused-file: flaw_in
//! Searches a whole history file for its first flaw. Only this module knows the order in which
//! `txn_files` looks for faults: `txn_files` tests all shapes before any range. So the search goes
//! through the entries at most twice. The JSON value of the file is in memory as a whole.
ghost use Rattle.std.specs.Prelude.{◌≡◌, ℕ, map, option_map, slice_get, IfOk, IfSome, IsNone, MatchOption, Some};
ghost use Rattle.serde_json.specs.Data.{Data};
ghost use Rattle.serde_json.specs.View.{view};
ghost use Rattle.piece_files.specs.Elements.{elements_of};
ghost use Rattle.bad_file.specs.Flaws.{AreEntries, IsEntry, IsFlawAt, IsFlawOfEntry, TellsFlaw, TellsOf, flaw_at, flaw_in_members, is_old_file};
ghost use Rattle.bad_file.specs.Meets.{is_met};
ghost use Rattle.bad_file.specs.Places.{at, entries_of, entry_at};

use crate::elements::fault_in;
use crate::expected::Expected;
use crate::flaw::Flaw;
use crate::found::found_of;
use crate::place::Place;
use crate::values::{elements_in, is_of};
use piece_files::MAX_BYTES;
use serde_json::Value;
use std::alloc::{AllocError, Global};

/// Whether a value is as expected. Its range counts only if `ranged` is true.
fn is_met(ranged: bool, expected: Expected, value: Option<&Value>) -> bool
    ensures { result ≡ is_met ranged (Some expected) (option_map (λ v. view v.now) value.entry) }
{
    match value {
        Some(value) => is_of(ranged, expected, value),
        None => false,
    }
}

/// If the value at a place is not as expected, returns the flaw at this place.
#[tactic(auto, using(crate::proofs::Places::flaw_none, crate::proofs::Places::flaw_some))]
fn flaw_at(ranged: bool, place: Place, value: Option<&Value>, expected: Expected) -> Option<Flaw>
    ensures { (d : Data) → at place d ≡ option_map (λ v. view v.now) value.entry
        → result ≡ flaw_at ranged d place expected }
{
    if is_met(ranged, expected, value) {
        return None;
    }
    Some(Flaw::Wrong {
        place,
        found: found_of(value),
        expected: Some(expected),
    })
}

/// The flaw of the first member that is not as expected. Ranges count only if `ranged` is true.
fn flaw_in_members(ranged: bool, file: &Value) -> Option<Flaw>
    ensures { result ≡ flaw_in_members ranged (view file.now) }
{
    let whole = flaw_at(ranged, Place::File, Some(file), Expected::Object);
    let version = flaw_at(
        ranged,
        Place::Version,
        file.get("version"),
        Expected::Version,
    );
    let stripes = flaw_at(
        ranged,
        Place::Stripes,
        file.get("stripes"),
        Expected::Stripes,
    );
    let entries = flaw_at(
        ranged,
        Place::Entries,
        file.get("entries"),
        Expected::Entries,
    );
    whole.or(version.or(stripes.or(entries)))
}

/// Whether a file is of version 1.
fn is_old_file(file: &Value) -> bool
    ensures { result ≡ is_old_file (view file.now) }
{
    let Some(version) = file.get("version") else {
        return false;
    };
    version.as_u64() == Some(1)
}

/// The value at an index, if there is one.
fn value_at(values: &[Value], index: usize) -> Option<&Value>
    ensures { option_map (λ v. view v.now) result ≡ slice_get (map view values.now) index }
{
    if index < values.len() {
        Some(&values[index])
    } else {
        None
    }
}

/// The flaw of the entry at an index. Returns `None` if the entry has no flaw.
///
/// # Errors
///
/// `AllocError` if memory is refused.
fn flaw_in_entry(
    alloc: Global,
    is_old: bool,
    ranged: bool,
    index: usize,
    entry: &Value,
) -> Result<Option<Flaw>, AllocError>
    ensures none { IfOk result (λ found. IsNone found → IsEntry is_old ranged (view entry.now)) }
    ensures some { IfOk result (λ found. (d : Data) → entry_at index d ≡ Some (view entry.now)
        → IfSome found (IsFlawOfEntry is_old ranged d index (elements_of (view entry.now)))) }
{
    let Some(elements) = elements_in(entry) else {
        return Ok(Some(Flaw::Wrong {
            place: Place::Entry(index),
            found: found_of(Some(entry)),
            expected: Some(Expected::Entry),
        }));
    };
    let Some((element, expected)) = fault_in(alloc, is_old, ranged, elements)? else {
        return Ok(None);
    };
    Ok(Some(Flaw::Wrong {
        place: Place::Element(index, element),
        found: found_of(value_at(elements, element)),
        expected,
    }))
}

/// The flaw of the first element of `entries` that is not an entry. Returns `None` if all elements
/// are entries.
///
/// # Errors
///
/// `AllocError` if memory is refused.
fn flaw_in_entries(
    alloc: Global,
    is_old: bool,
    ranged: bool,
    entries: &[Value],
) -> Result<Option<Flaw>, AllocError>
    ensures { IfOk result (λ found. (d : Data) → entries_of d ≡ Some (map view entries.now)
        → MatchOption found (AreEntries is_old ranged (map view entries.now))
        (λ flaw. (i : ℕ) × IsFlawAt is_old ranged d i flaw)) }
{
    for (index, entry) in entries.iter().enumerate() {
        let found = flaw_in_entry(alloc, is_old, ranged, index, entry)?;
        if found.is_some() {
            return Ok(found);
        }
    }
    Ok(None)
}

/// The entries of a file. Returns `None` if the file has no array of entries.
fn entries_in(file: &Value) -> Option<&[Value]>
    ensures { option_map (λ values. map view values.now) result ≡ entries_of (view file.now) }
{
    elements_in(file.get("entries")?)
}

/// The flaw of a file that is JSON. Returns `None` if the file has no flaw.
///
/// # Errors
///
/// `AllocError` if memory is refused.
fn flaw_in_value(alloc: Global, file: &Value) -> Result<Option<Flaw>, AllocError>
    ensures { IfOk result (TellsOf (view file.now)) }
{
    let misshapen = flaw_in_members(false, file);
    if misshapen.is_some() {
        return Ok(misshapen);
    }
    let Some(entries) = entries_in(file) else {
        return Ok(None);
    };
    let is_old = is_old_file(file);
    let misshapen = flaw_in_entries(alloc, is_old, false, entries)?;
    if misshapen.is_some() {
        return Ok(misshapen);
    }
    let out_of_range = flaw_in_members(true, file);
    if out_of_range.is_some() {
        return Ok(out_of_range);
    }
    flaw_in_entries(alloc, is_old, true, entries)
}

/// If `read_history` of `txn_files` refuses these bytes as a history file, returns the flaw that
/// causes the refusal. Otherwise returns `None`.
///
/// The flaw is the first one in this order:
///
/// - The file is too long, is not JSON, or is not an object.
/// - A member is missing or of the wrong kind.
/// - An entry has a wrong shape: it is not an array, or an element of it is at fault.
/// - A member is out of range.
/// - A caller is out of range.
///
/// # Errors
///
/// `AllocError` if memory is refused.
///
/// # Cost
///
/// Time and memory in proportion to the bytes, since the JSON value of the whole file is kept.
/// Small objects take the most memory, about 110 bytes for each byte of the file.
pub fn flaw_in(alloc: Global, bytes: &[u8]) -> Result<Option<Flaw>, AllocError>
    ensures { IfOk result (TellsFlaw bytes.now) }
{
    if bytes.len() > MAX_BYTES {
        return Ok(Some(Flaw::TooLong));
    }
    match Value::from_slice(alloc, bytes) {
        Ok(file) => flaw_in_value(alloc, &file),
        Err(error) => {
            if error.is_memory() {
                return Err(AllocError);
            }
            Ok(Some(Flaw::NotJson {
                line: error.line(),
                column: error.column(),
            }))
        }
    }
}
