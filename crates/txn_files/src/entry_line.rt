// PROMISES entries-as-lines: entry_on
//! Reads the entry on a line of its own: the entry, or none if the line is blank, or the line's
//! first fault. Each line is read on its own, so reading many lines needs memory for one line only.
//! The line's length is tested first, so that memory is bounded. The numbers of the entry's caller
//! and holder are tested last: they must be below 64. A line in plain form with no white space
//! before its array is read straight from its bytes, the JSON reader reads all others.
ghost use Rattle.std.specs.Prelude.{◌≡◌, ◌<◌, List, true, Some, None, Err, MatchResult, IfOk, IfSome, option_and_then};
ghost use Rattle.std.specs.List.{list_all};
ghost use Rattle.serde_json.specs.Data.{Data};
ghost use Rattle.serde_json.specs.Read.{max_depth, read};
ghost use Rattle.piece_files.specs.Elements.{elements_of};
ghost use Rattle.piece_files.specs.Faults.{FailsAs, Gives, or_fault};
ghost use Rattle.piece_files.specs.Tokens.{value_at, items_at, items_from};
ghost use Rattle.piece_files.specs.declared.file_fault.FileFault.TheVariants.{NotJson};
ghost use Rattle.piece_files.specs.declared.stop.Stop.TheVariants as stops;
ghost use Rattle.txn_words.specs.Kinds.{caller_of};
ghost use Rattle.txn_files.specs.Entries.{entry_of};
ghost use Rattle.txn_files.specs.EntryLine.{entry_found, entry_on, is_blank};

use crate::entry::{entry_in, is_in_range};
use arrayvec::ArrayVec;
use json::{Reader, Scratch, Token};
use piece_files::{
    FileFault, MAX_DEPTH, MAX_ELEMENTS, Plain, Stop, is_space, pass_value, plain_elements,
    whole_array,
};
use std::alloc::Global;
use txn_words::Entry;

/// The greatest number of bytes of a line.
pub const MAX_LINE: usize = 1000;

/// Returns true if a line has only white space.
fn is_blank(line: &[u8]) -> bool
    ensures { result ≡ is_blank line.now }
{
    line.iter().all(|byte| is_space(*byte))
}

/// The entry that was found. Fails with `Member` if there is no entry, and with `Limit` if a caller
/// is out of range.
fn entry_in_range(found: Option<Entry>) -> Result<Option<Entry>, FileFault>
    ensures found { result ≡ entry_found found }
    ensures callers { IfOk result (λ found. IfSome found (λ entry. caller_of entry < 64)) }
{
    let entry = found.ok_or(FileFault::Member)?;
    if is_in_range(entry) {
        Ok(Some(entry))
    } else {
        Err(FileFault::Limit)
    }
}

/// The entry that an array stands for, or none if it stands for no entry. The reader has read the
/// array's opening bracket.
#[tactic(auto, using(crate::proofs::PlainPieces::no_entry))]
fn entry_in_array(reader: &mut Reader<'_>) -> Result<Option<Entry>, Stop>
    ensures ok { IfOk result (λ found. (ds : List Data)
        × (items_at 126 reader.old ≡ Some (items_from ds, reader.new))
        × (found ≡ entry_of ds)) }
    ensures err { result ≡ Err stops.NotJson → items_at 126 reader.old ≡ None }
{
    let mut elements = ArrayVec::<Plain<'_>, MAX_ELEMENTS>::new();
    if plain_elements(reader, MAX_DEPTH - 1, &mut elements)? {
        Ok(entry_in(&elements))
    } else {
        Ok(None)
    }
}

/// The entry that the next value stands for, or none if it stands for no entry.
fn entry_in_value(reader: &mut Reader<'_>) -> Result<Option<Entry>, Stop>
    ensures ok { IfOk result (λ found. (d : Data)
        × (value_at max_depth reader.old ≡ Some (d, reader.new))
        × (found ≡ option_and_then entry_of (elements_of d))) }
    ensures err { result ≡ Err stops.NotJson → value_at max_depth reader.old ≡ None }
{
    let token = reader.next().ok_or(Stop::NotJson)?;
    match token {
        Token::BeginArray => entry_in_array(reader),
        Token::BeginObject
        | Token::EndObject
        | Token::EndArray
        | Token::Key(_)
        | Token::String(_)
        | Token::Number(_)
        | Token::Bool(_)
        | Token::Null
        | Token::Bad => {
            pass_value(token, reader, MAX_DEPTH)?;
            Ok(None)
        }
    }
}

/// The entry that a text stands for. Returns `None` if the text is not an array in plain form, with
/// 1 to 7 elements and no white space before the array. Returns `Some(None)` if the text is such an
/// array, but stands for no entry.
fn entry_in_plain(text: &str) -> Option<Option<Entry>>
    ensures { IfSome result (λ found. (d : Data) × (read text.now ≡ Some d)
        × (found ≡ option_and_then entry_of (elements_of d))) }
{
    let mut elements = ArrayVec::<Plain<'_>, MAX_ELEMENTS>::new();
    if whole_array(text, &mut elements) {
        Some(entry_in(&elements))
    } else {
        None
    }
}

/// The entry that a JSON text stands for, or `None` if the text stands for no entry.
fn entry_in_text(text: &str, scratch: &mut Scratch<Global>) -> Result<Option<Entry>, FileFault>
    ensures { MatchResult result
        (λ found. (d : Data) × (read text.now ≡ Some d)
        × (found ≡ option_and_then entry_of (elements_of d)))
        (λ fault. FailsAs fault (or_fault NotJson (read text.now))) }
{
    if let Some(found) = entry_in_plain(text) {
        return Ok(found);
    }
    let mut reader = Reader::new(text, scratch)?;
    match entry_in_value(&mut reader) {
        Ok(found) if reader.next().is_none() => Ok(found),
        Ok(_) | Err(Stop::NotJson) => Err(FileFault::NotJson),
        Err(Stop::NoMemory) => Err(FileFault::NoMemory),
    }
}

/// Reads the entry on a line. Pass the line without its line feed. The line must have the array
/// that stands for the entry in history files of the newest version. Returns `Ok(None)` if the line
/// is blank.
///
/// # Errors
///
/// The first of these, in this order:
///
/// - `Limit` if the line has more than 1,000 bytes.
/// - `NotJson` if the line is not JSON that `piece_files::read_file` accepts.
/// - `Member` if the line stands for no entry.
/// - `Limit` if a caller, or the holder that the entry names, is above 63.
///
/// `NoMemory` if memory is refused. It can replace any other result, unless the line is too long,
/// blank or not UTF-8.
///
/// # Cost
///
/// Time in proportion to the line. Takes memory only if the scratch has no room for the line.
#[tactic(auto, unfolding(crate::specs::EntryLine::entry_on))]
pub fn entry_on(line: &[u8], scratch: &mut Scratch<Global>) -> Result<Option<Entry>, FileFault>
    ensures entry { Gives (λ entry. entry) result (entry_on line.now) }
    ensures callers { IfOk result (λ found. IfSome found (λ entry. caller_of entry < 64)) }
{
    if line.len() > MAX_LINE {
        return Err(FileFault::Limit);
    }
    if is_blank(line) {
        return Ok(None);
    }
    let Ok(text) = std::str::from_utf8(line) else {
        return Err(FileFault::NotJson);
    };
    let found = entry_in_text(text, scratch)?;
    entry_in_range(found)
}
