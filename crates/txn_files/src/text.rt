// PROMISES entries-as-lines: history_lines
//! Writes histories as compact JSON: each entry as an array, and the object around the arrays.
//! `text_of_history` defines the text from the version, the number of stripes and the entries.
//! Making the text takes time and memory in proportion to its length.
//!
//! An entry is written into a `ShortText`, from its end to its start, and then added to the text as
//! a whole, so each entry needs one test for room.
ghost use Rattle.std.specs.Prelude.{◌≡◌, ◌≤◌, ◌∷◌, ◌++◌, codes, decimal, length, map};
ghost use Rattle.std.specs.Prelude.{OnOk, IfOk, string_bytes};
ghost use Rattle.std.specs.List.{join_with_byte};
ghost use Rattle.txn_files.specs.EntryLines.{text_of_lines};
ghost use Rattle.txn_files.specs.HistoryLine.{further_text};
ghost use Rattle.txn_files.specs.HistoryText.{comma, entry_text, optional_text, text_of_history};
ghost use Rattle.txn_words.specs.declared.entry.Entry.{Entry};
ghost use Rattle.txn_words.specs.declared.entry.Entry.TheVariants as entries;

use crate::operation::put_op;
use crate::short_text::ShortText;
use std::alloc::{AllocError, Global};
use txn_words::{Entry, Op};

/// Sets the buffer to an array that has a name and a caller. `head` is the text of the array up to
/// the caller.
#[inline(always)]
fn set_short(buffer: &mut ShortText, head: &str, caller: u64)
    requires { length head.now ≤ 30 }
    ensures text { buffer.new ≡ head.now ++ (decimal caller ++ codes "]") }
    ensures short { length buffer.new ≤ 159 }
{
    buffer.clear();
    buffer.put("]");
    buffer.put_number(caller);
    buffer.put(head);
}

/// Sets the buffer to an array that has a name, a caller and a number. `head` is the text of the
/// array up to the caller.
#[inline(always)]
fn set_numbered(buffer: &mut ShortText, head: &str, caller: u64, number: u64)
    requires { length head.now ≤ 30 }
    ensures text { buffer.new
        ≡ head.now ++ ((decimal caller ++ comma ∷ decimal number) ++ codes "]") }
    ensures short { length buffer.new ≤ 159 }
{
    buffer.clear();
    buffer.put("]");
    buffer.put_number(number);
    buffer.put(",");
    buffer.put_number(caller);
    buffer.put(head);
}

/// Sets the buffer to an array that has a name, a caller, and a number or null. `head` is the text
/// of the array up to the caller.
#[inline(always)]
fn set_optional(buffer: &mut ShortText, head: &str, caller: u64, number: Option<u64>)
    requires { length head.now ≤ 30 }
    ensures text { buffer.new
        ≡ head.now ++ ((decimal caller ++ comma ∷ optional_text number) ++ codes "]") }
    ensures short { length buffer.new ≤ 159 }
{
    match number {
        Some(number) => set_numbered(buffer, head, caller, number),
        None => {
            buffer.clear();
            buffer.put(",null]");
            buffer.put_number(caller);
            buffer.put(head);
        }
    }
}

/// Sets the buffer to an Asked entry, which names a caller and the operation that the caller asks
/// for.
#[inline(always)]
fn set_asked(buffer: &mut ShortText, caller: u64, op: Op)
    ensures text { buffer.new ≡ entry_text (entries.Asked caller op) }
    ensures short { length buffer.new ≤ 159 }
{
    buffer.clear();
    buffer.put("]");
    put_op(buffer, op);
    buffer.put(",");
    buffer.put_number(caller);
    buffer.put("[\"asked\",");
}

/// Sets the buffer to a Busy entry, which names a caller, the operation that the caller asked for,
/// and the holder of the operation's stripe.
#[inline(always)]
fn set_busy(buffer: &mut ShortText, caller: u64, op: Op, holder: u64)
    ensures text { buffer.new ≡ entry_text (entries.Busy caller op holder) }
    ensures short { length buffer.new ≤ 159 }
{
    buffer.clear();
    buffer.put("]");
    buffer.put_number(holder);
    buffer.put(",");
    put_op(buffer, op);
    buffer.put(",");
    buffer.put_number(caller);
    buffer.put("[\"busy\",");
}

/// Sets the buffer to an entry, as an array.
#[inline(always)]
pub(crate) fn set_entry(buffer: &mut ShortText, entry: Entry)
    ensures text { buffer.new ≡ entry_text entry }
    ensures short { length buffer.new ≤ 159 }
{
    match entry {
        Entry::Began(caller, txn) => set_numbered(buffer, "[\"began\",", caller, txn),
        Entry::Asked(caller, op) => set_asked(buffer, caller, op),
        Entry::Did(caller, reply) => set_optional(buffer, "[\"did\",", caller, reply),
        Entry::Saved(caller) => set_short(buffer, "[\"saved\",", caller),
        Entry::Leave(caller, level) => set_optional(buffer, "[\"leave\",", caller, level),
        Entry::Undone(caller) => set_short(buffer, "[\"undone\",", caller),
        Entry::Returned(caller, level) => set_numbered(buffer, "[\"returned\",", caller, level),
        Entry::Committed(caller, place) => set_numbered(buffer, "[\"committed\",", caller, place),
        Entry::Busy(caller, op, holder) => set_busy(buffer, caller, op, holder),
        Entry::Aborted(caller) => set_short(buffer, "[\"aborted\",", caller),
    }
}

/// Adds each entry to the text, with a comma in front of it.
fn put_further_entries(
    text: &mut String,
    buffer: &mut ShortText,
    entries: &[Entry],
) -> Result<(), AllocError>
    ensures { OnOk result (string_bytes text.new
        ≡ string_bytes text.old ++ further_text entries.now) }
{
    for entry in entries {
        set_entry(buffer, *entry);
        buffer.put(",");
        text.push_str(buffer.text())?;
    }
    Ok(())
}

/// Adds the entries to the text. Commas separate them.
fn put_entries(text: &mut String, entries: &[Entry]) -> Result<(), AllocError>
    ensures { OnOk result (string_bytes text.new ≡ string_bytes text.old
        ++ join_with_byte comma (map entry_text entries.now)) }
{
    let Some((first, rest)) = entries.split_first() else {
        return Ok(());
    };
    let mut buffer = ShortText::new();
    set_entry(&mut buffer, *first);
    text.push_str(buffer.text())?;
    put_further_entries(text, &mut buffer, rest)
}

/// Writes a history as compact JSON: an object with the entries, the number of stripes and the
/// version of the file, in this order, such as
/// `{"entries":[["began",0,1]],"stripes":8,"version":1}`. The text has no line feed. `read_history`
/// can read the text back if the text has at most 16,777,216 bytes, all its numbers are in range,
/// and it has no `put_if` in version 1. `HistoryBlocks` hands out the same text and a line feed,
/// block by block.
///
/// # Errors
///
/// `AllocError` if memory is refused.
///
/// # Cost
///
/// Time and memory in proportion to the entries.
pub fn history_text(
    alloc: Global,
    version: u64,
    stripes: u32,
    entries: &[Entry],
) -> Result<String, AllocError>
    ensures { IfOk result (λ text.
        string_bytes text ≡ text_of_history version stripes entries.now) }
{
    let mut text = String::new(alloc);
    text.push_str("{\"entries\":[")?;
    put_entries(&mut text, entries)?;
    write!(text, "],\"stripes\":{stripes},\"version\":{version}}}")?;
    Ok(text)
}

/// The text of a history as lines: one for each entry, such as `["began",0,1]`, followed by a line
/// feed. A line depends only on its own entry, so a store can append lines while it runs, and after
/// a crash those that were completely written can be read. If all callers and holders are below 64,
/// reading the lines gives the history back.
///
/// # Errors
///
/// `AllocError` if memory is refused.
///
/// # Cost
///
/// Time and memory in proportion to the entries.
pub fn history_lines(alloc: Global, entries: &[Entry]) -> Result<String, AllocError>
    ensures { IfOk result (λ text. string_bytes text ≡ text_of_lines entries.now) }
{
    let mut text = String::new(alloc);
    let mut buffer = ShortText::new();
    for entry in entries {
        set_entry(&mut buffer, *entry);
        writeln!(text, "{}", buffer.text())?;
    }
    Ok(text)
}
