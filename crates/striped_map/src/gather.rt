//! Puts the records of all callers together to the history. Each record has the position of its
//! first entry, so each entry is written at its place, and then the transactions and the commits
//! are numbered in order.
ghost use Rattle.std.specs.Prelude.{◌≡◌, ◌≤◌, ◌<◌, ◌^◌, ◌∷◌, Some, slice_set, IfOk, OnOk, IfSome, length};
ghost use Rattle.txn_words.specs.declared.entry.Entry.TheVariants.{Aborted};
ghost use Rattle.striped_map.specs.Gathered.{entries_in, merged, numbered, written, written_from};
ghost use Rattle.striped_map.specs.Records.{spread, told_by, undone};
ghost use Rattle.striped_map.specs.Steps.{bare, placed};

use crate::record::{Record, Records, Told};
use std::alloc::{AllocError, Global};
use txn_trace::Entry;

/// Writes an entry at a position, if the list has this position.
fn put(table: &mut Vec<Entry>, at: u64, entry: Entry)
    ensures { table.new.items ≡ slice_set table.old.items at entry }
{
    if at < table.len() as u64 {
        table[at as usize] = entry;
    }
}

/// Writes `count` entries `Undone` from a position on, and then the entry `last`.
fn put_undone(table: &mut Vec<Entry>, at: u64, number: u64, count: usize, last: Entry)
    requires { bare last ≡ last }
    ensures { table.new.items ≡ written table.old.items (placed at (undone number count last)) }
{
    let mut next = at;
    for _ in 0..count {
        put(table, next, Entry::Undone(number));
        next = next.wrapping_add(1);
    }
    put(table, next, last);
}

/// Writes the entries of a record.
fn put_record(table: &mut Vec<Entry>, number: u64, at: u64, what: Told)
    ensures { table.new.items ≡ written table.old.items (placed at (told_by number what)) }
{
    match what {
        Told::TellBegin => put(table, at, Entry::Began(number, 0)),
        Told::TellNote(op, reply) => {
            put(table, at, Entry::Asked(number, op));
            put(table, at.wrapping_add(1), Entry::Did(number, reply));
        }
        Told::TellSave => put(table, at, Entry::Saved(number)),
        Told::TellBack(level, count) => {
            put(table, at, Entry::Leave(number, Some(level)));
            let last = Entry::Returned(number, level);
            put_undone(table, at.wrapping_add(1), number, count, last);
        }
        Told::TellAbort(count) => {
            put(table, at, Entry::Leave(number, None));
            put_undone(
                table,
                at.wrapping_add(1),
                number,
                count,
                Entry::Aborted(number),
            );
        }
        Told::TellYield(op, holder, count) => {
            put(table, at, Entry::Busy(number, op, holder));
            put_undone(
                table,
                at.wrapping_add(1),
                number,
                count,
                Entry::Aborted(number),
            );
        }
        Told::TellCommit => put(table, at, Entry::Committed(number, 0)),
    }
}

/// Writes the entries of a caller's records.
fn put_records(table: &mut Vec<Entry>, number: u64, records: &Records)
    ensures { table.new.items ≡ written table.old.items (spread number records.now.items) }
{
    for place in 0..records.len() {
        let Record { at, what } = records.at(place);
        put_record(table, number, at, what);
    }
}

/// How many entries the records of all callers stand for, or `None` if 64 bits cannot count them.
fn count_all(theirs: &Vec<Option<Records>>) -> Option<usize>
    ensures { IfSome result (λ count. count ≡ entries_in theirs.now.items) }
{
    let mut count: usize = 0;
    for place in 0..theirs.len() {
        if let Some(records) = &theirs[place] {
            let more = count_of(records)?;
            count = count.checked_add(more)?;
        }
    }
    Some(count)
}

/// How many entries the records stand for, or `None` if 64 bits cannot count them.
fn count_of(records: &Records) -> Option<usize>
    ensures { IfSome result (λ count. count ≡ length (spread 0 records.now.items)) }
{
    let mut count: usize = 0;
    for place in 0..records.len() {
        let more = records.at(place).what.checked_count()?;
        count = count.checked_add(more)?;
    }
    Some(count)
}

/// The entries, with the transactions and commits numbered.
fn number_all(alloc: Global, table: &Vec<Entry>) -> Result<Vec<Entry>, AllocError>
    ensures { IfOk result (λ all. all.items ≡ numbered 0 0 table.now.items) }
{
    let mut all = Vec::with_capacity(alloc, table.len())?;
    let mut begun: u64 = 0;
    let mut commits: u64 = 0;
    for place in 0..table.len() {
        let entry = match table[place] {
            Entry::Began(caller, _) => {
                begun += 1;
                Entry::Began(caller, begun)
            }
            Entry::Committed(caller, _) => {
                commits += 1;
                Entry::Committed(caller, commits)
            }
            entry => entry,
        };
        all.push_reserved(entry);
    }
    Ok(all)
}

/// How many entries the records of the host and of all callers stand for.
fn count_both(own: &Records, theirs: &Vec<Option<Records>>) -> Option<usize>
    ensures { IfSome result (λ count. count ≡ entries_in (Some own.now ∷ theirs.now.items)) }
{
    let first = count_of(own)?;
    let others = count_all(theirs)?;
    let count = first.checked_add(others)?;
    Some(count)
}

/// The history, from the records of the host, whose number is 0, and of all callers, whose numbers
/// are one more than their places in the list.
pub(crate) fn history_of(
    alloc: Global,
    own: &Records,
    theirs: &Vec<Option<Records>>,
) -> Result<Vec<Entry>, AllocError>
    ensures ok { IfOk result (λ all. all.items
        ≡ merged (Aborted 0) (Some own.now ∷ theirs.now.items)) }
    ensures few { OnOk result (entries_in (Some own.now ∷ theirs.now.items) < 2 ^ 64) }
{
    let Some(count) = count_both(own, theirs) else {
        return Err(AllocError);
    };
    let mut table = vec![in alloc; Entry::Aborted(0); count]?;
    put_records(&mut table, 0, own);
    for place in 0..theirs.len() {
        if let Some(records) = &theirs[place] {
            put_records(&mut table, place as u64 + 1, records);
        }
    }
    number_all(alloc, &table)
}
