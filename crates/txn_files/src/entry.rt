//! Makes an entry from the elements of its array. History files and single lines share this module,
//! so an entry has the same form and the same range in both. All functions take constant time and no
//! memory.
ghost use Rattle.std.specs.Prelude.{◌≡◌, ◌<◌, map, true};
ghost use Rattle.piece_files.specs.Plain.{data_of};
ghost use Rattle.txn_files.specs.Entries.{busy_of, entry_named, entry_of, is_old_entry, transaction_entry};
ghost use Rattle.txn_files.specs.HistoryFile.{is_in_range};
ghost use Rattle.txn_words.specs.Kinds.{caller_of};

use crate::operation::{is_old_op, leading_op_in, op_in};
use piece_files::{Plain, end_in, number_in, one_in, optional_in, word_in};
use txn_words::{Entry, Limits};

/// The Busy entry with this caller. `values` are the elements after the caller.
#[tactic(auto, unfolding(crate::specs::Entries::busy_of))]
fn busy_in(caller: u64, values: &[Plain<'_>]) -> Option<Entry>
    ensures { result ≡ busy_of caller (map data_of values.now) }
{
    let (op, rest) = leading_op_in(values)?;
    one_in(rest).map(|holder| Entry::Busy(caller, op, holder))
}

/// The Began, Saved, Leave, Returned, Committed or Aborted entry with this name and caller.
/// `values` are the elements after the caller.
#[tactic(auto, unfolding(crate::specs::Entries::transaction_entry))]
fn transaction_entry_in(name: &str, caller: u64, values: &[Plain<'_>]) -> Option<Entry>
    ensures { result ≡ transaction_entry name.now caller (map data_of values.now) }
{
    match name {
        "began" => one_in(values).map(|txn| Entry::Began(caller, txn)),
        "saved" => end_in(values).map(|()| Entry::Saved(caller)),
        "leave" => optional_in(values).map(|level| Entry::Leave(caller, level)),
        "returned" => one_in(values).map(|level| Entry::Returned(caller, level)),
        "committed" => one_in(values).map(|place| Entry::Committed(caller, place)),
        "aborted" => end_in(values).map(|()| Entry::Aborted(caller)),
        _ => None,
    }
}

/// The entry with this name and caller. `values` are the elements after the caller.
#[tactic(auto, unfolding(crate::specs::Entries::entry_named))]
fn entry_named_in(name: &str, caller: u64, values: &[Plain<'_>]) -> Option<Entry>
    ensures { result ≡ entry_named name.now caller (map data_of values.now) }
{
    match name {
        "asked" => op_in(values).map(|op| Entry::Asked(caller, op)),
        "busy" => busy_in(caller, values),
        "did" => optional_in(values).map(|reply| Entry::Did(caller, reply)),
        "undone" => end_in(values).map(|()| Entry::Undone(caller)),
        _ => transaction_entry_in(name, caller, values),
    }
}

/// The entry whose array has these elements, in the newest version of history files.
#[tactic(auto, unfolding(crate::specs::Entries::entry_of))]
pub(crate) fn entry_in(values: &[Plain<'_>]) -> Option<Entry>
    ensures { result ≡ entry_of (map data_of values.now) }
{
    let (name, rest) = word_in(values)?;
    let (caller, rest) = number_in(rest)?;
    entry_named_in(name, caller, rest)
}

/// Whether version 1 has this entry too.
pub(crate) fn is_old_entry(entry: Entry) -> bool
    ensures { result ≡ is_old_entry entry }
{
    match entry {
        Entry::Asked(_, op) | Entry::Busy(_, op, _) => is_old_op(op),
        _ => true,
    }
}

/// Whether the entry's caller, and the holder that a Busy names, are below 64.
pub(crate) fn is_in_range(entry: Entry) -> bool
    ensures test { result ≡ is_in_range entry }
    ensures caller { result ≡ true → caller_of entry < 64 }
{
    let is_named_in_range = match entry {
        Entry::Busy(_, _, holder) => holder < Limits::MAX_CALLERS,
        _ => true,
    };
    entry.caller() < Limits::MAX_CALLERS && is_named_in_range
}
