//! Writes a history into an array that belongs to C, so that C can keep it, show it, or feed it to
//! a judge. The history of a map with one owner may be read part by part. The module `host_calls`
//! also calls `lay_entries`, so C has one type of entries.
ghost use Rattle.std.specs.Prelude.{◌≡◌, ◌≤◌, length};
ghost use Rattle.boostmap_c.specs.Histories.{ShowsFront, Shows, TellsHistory};
ghost use Rattle.boostmap_c.specs.Keepers.{LaysEntries};

use crate::c_entry::CEntry;
use crate::handle::Handle;
use crate::status::{DONE, EMPTY, SHORT};
use txn_trace::{Entry, SmallEntry};

/// Writes the entries of the map's history from the index `first` on, oldest first, to the front of
/// an array: as many as there are and as the array has room for. The word is the number of entries
/// of the whole history. Members of an entry that its kind does not have are 0.
///
/// # Errors
///
/// The status is 3 if the handle has no map. The array is then unchanged.
///
/// # Cost
///
/// A step for each entry that is written; takes no memory.
#[unsafe(no_mangle)]
pub extern "C" fn boostmap_history(
    map: &mut Handle,
    first: u64,
    entries: &mut [CEntry],
    word: &mut u64,
) -> u32
    ensures { TellsHistory first map.old.held.map result entries.old entries.new word.old word.new
        map.new.held.map }
{
    if !map.is_live() {
        return EMPTY;
    }
    let held = map.held.get_mut();
    let history = held.map.core().trace();
    *word = history.len() as u64;
    let from = first.min(history.len() as u64) as usize;
    show_front(&history[from..], entries);
    DONE
}

/// Writes the first of these entries to the front of an array, as many as it has room for.
fn show_front(history: &[SmallEntry], entries: &mut [CEntry])
    ensures { ShowsFront history.now entries.old entries.new }
{
    let count = history.len().min(entries.len());
    show(history, entries, count);
}

/// Writes the first `count` of these entries to the front of an array.
fn show(history: &[SmallEntry], entries: &mut [CEntry], count: usize)
    requires there { count ≤ length history.now }
    requires room { count ≤ length entries.old }
    ensures { Shows count history.now entries.old entries.new }
{
    'shows: for i in 0..count {
        entries[i] = CEntry::of(history[i].entry());
    }
}

/// Writes the number of these entries to the word. If the array has room for the entries, writes
/// them to the array's front. Returns the status.
pub(crate) fn lay_entries(listed: &[Entry], entries: &mut [CEntry], word: &mut u64) -> u32
    ensures { LaysEntries listed.now result entries.old entries.new word.new }
{
    *word = listed.len() as u64;
    if listed.len() > entries.len() {
        return SHORT;
    }
    lay(listed, entries);
    DONE
}

/// Writes entries to the front of an array that has room for them.
fn lay(listed: &[Entry], entries: &mut [CEntry])
    requires room { length listed.now ≤ length entries.old }
    ensures { Shows (length listed.now) listed.now entries.old entries.new }
{
    'lays: for i in 0..listed.len() {
        entries[i] = CEntry::of(listed[i]);
    }
}
