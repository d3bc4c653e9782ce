// PROMISES from-words-and-bytes-to-bytes: read_history
//! History files. `entry` says which entries there are, and `piece_files` has the loops over
//! tokens. Entries are kept packed. An entry whose caller is too large is out of range, and cannot
//! be packed. A substitute is kept in its place. The substitute can be packed and is out of range
//! too, so the fault of the file stays the same.
ghost use Rattle.std.specs.Prelude.{◌≡◌, map, true, false, IfOk};
ghost use Rattle.std.specs.List.{list_all};
ghost use Rattle.piece_files.specs.Plain.{data_of};
ghost use Rattle.piece_files.specs.Faults.{Gives};
ghost use Rattle.txn_files.specs.Entries.{is_old_entry};
ghost use Rattle.txn_files.specs.HistoryFile.{max_entries, is_in_range, is_history, entries_from, history_of, kept, kept_of, kept_history_of, holder_rule};

use crate::entry::{entry_in, is_in_range, is_old_entry};
use piece_files::{FileFault, Flat, FlatKind, Part, Plain, read_file};
use std::alloc::{AllocError, Global};
use txn_words::{Entry, Holder, Limits, Op, SmallEntry};

/// The number of the caller in a substitute entry (`kept`). It is out of range, but small enough to
/// be packed.
const TOO_LARGE: u64 = 65_535;

/// The most entries that a file may have.
const MAX_ENTRIES: usize = 1_000_000;

/// The last version of history files that has the rule `Holder::Now`: the caller that a Busy entry
/// names must hold the stripe.
const LAST_OF_NOW: u64 = 2;

/// Packs an entry. If the entry's caller or holder is too large to be packed, the entry is out of
/// range. The function then returns a substitute that is out of range too.
fn kept(entry: Entry) -> SmallEntry
    ensures { result ≡ kept entry }
{
    if let Some(small) = SmallEntry::new(entry) {
        return small;
    }
    let replaced = if is_old_entry(entry) {
        Entry::Saved(TOO_LARGE)
    } else {
        Entry::Asked(TOO_LARGE, Op::PutIf(0, None, 0))
    };
    let Some(small) = SmallEntry::new(replaced) else {
        unreachable!()
    };
    small
}

/// The kind of pieces that are entries of a history file. The entries are kept packed.
struct EntryKind;

impl FlatKind for EntryKind {
    ghost use Rattle.piece_files.specs.declared.part.Part.TheVariants as parts;

    type Piece = SmallEntry;

    ghost of = { kept_of };

    ghost is_old = { is_old_entry };

    ghost part = { parts.Entry };

    ghost most = { max_entries };

    fn part() -> Part {
        Part::Entry
    }

    fn is_old(entry: &SmallEntry) -> bool {
        is_old_entry(entry.entry())
    }

    fn most() -> usize {
        MAX_ENTRIES
    }

    #[tactic(auto, unfolding(crate::specs::HistoryFile::kept_of))]
    fn of(elements: &[Plain<'_>]) -> Option<SmallEntry> {
        Some(kept(entry_in(elements)?))
    }

    #[tactic(auto, using(crate::proofs::KeptEntries::none_kept))]
    fn others_make_none() {}
}

/// Whether the callers of all entries are in range.
fn are_in_range(entries: &[SmallEntry]) -> bool
    ensures { result ≡ list_all is_in_range entries.now }
{
    entries.iter().all(|entry| is_in_range(entry.entry()))
}

/// Whether the number of stripes and the callers of a history are in range.
fn is_history(stripes: u64, entries: &[SmallEntry]) -> bool
    ensures { result ≡ is_history stripes entries.now }
{
    1 <= stripes && stripes <= Limits::MAX_STRIPES && are_in_range(entries)
}

/// Returns the number of stripes (the only element of `numbers`), the entries and the version.
/// Fails with `Limit` if the number of stripes or a caller is out of range.
#[tactic(auto, unfolding(crate::specs::HistoryFile::entries_from))]
fn entries_in(
    version: u64,
    numbers: [u64; 1],
    entries: Vec<SmallEntry>,
) -> Result<(u32, Vec<SmallEntry>, u64), FileFault>
    ensures { Gives (λ file. (file.0, file.1.items, file.2)) result
        (entries_from version numbers entries.items) }
{
    let [stripes] = numbers;
    if is_history(stripes, &entries) {
        Ok((stripes as u32, entries, version))
    } else {
        Err(FileFault::Limit)
    }
}

/// Reads a history file, and returns its number of stripes, its entries and its version. The file
/// has the form `{"version":V,"stripes":S,"entries":[..]}`. Each entry is an array, such as
/// `["asked",0,"put",1,10]` or `["did",0,null]`. Version 1 has no `put_if`.
///
/// Other members of the object are skipped. If several members have the same name, the last one
/// counts. A number is written without a sign, a fraction or an exponent, and is below 2^64.
///
/// The function does not test whether the history is legal.
///
/// # Errors
///
/// The first of these that applies, in this order:
///
/// - `Limit` if there are more than 16,777,216 bytes.
/// - `NotJson` if `piece_files::read_file` does not accept the bytes as JSON.
/// - `Member` if the value is not an object, or if one of the three members is missing or of the
///   wrong kind. The members are tested in the order above.
/// - `Piece`, with the index of the first wrong piece. A piece is wrong if it is not an entry. In
///   version 1 it is also wrong if it has a `put_if`.
/// - `Limit` if the version is not 1 to 3, or if the number of stripes is not 1 to 4,096. Also if
///   an entry names a caller or a holder above 63, or if there are more than 1,000,000 entries.
///
/// If memory is refused, the function may return `NoMemory` in place of any of these.
///
/// # Cost
///
/// Time and memory in proportion to the bytes. The entries are in memory twice, packed and
/// unpacked.
pub fn read_history(alloc: Global, bytes: &[u8]) -> Result<(u32, Vec<Entry>, u64), FileFault>
    ensures { Gives (λ file. (file.0, file.1.items, file.2)) result (history_of bytes.now) }
{
    let (stripes, packed, version) = read_packed_history(alloc, bytes)?;
    let entries = unpacked(alloc, &packed)?;
    Ok((stripes, entries, version))
}

/// Unpacks the entries.
///
/// # Errors
///
/// `AllocError` if memory is refused.
fn unpacked(alloc: Global, packed: &[SmallEntry]) -> Result<Vec<Entry>, AllocError>
    ensures { IfOk result (λ entries. entries.items ≡ packed.now) }
{
    let mut entries = Vec::with_capacity(alloc, packed.len())?;
    for entry in packed {
        entries.push(entry.entry())?;
    }
    Ok(entries)
}

/// Reads a history file, and returns its number of stripes, its entries and its version. Unlike
/// `read_history`, it returns the entries packed. Packed entries take half of the memory that
/// unpacked entries take.
///
/// # Errors
///
/// The errors of `read_history`, in the same order.
///
/// # Cost
///
/// Time and memory in proportion to the bytes.
pub fn read_packed_history(
    alloc: Global,
    bytes: &[u8],
) -> Result<(u32, Vec<SmallEntry>, u64), FileFault>
    ensures { Gives (λ file. (file.0, file.1.items, file.2)) result (history_of bytes.now) }
{
    kept_history(alloc, bytes)
}

/// Reads a history file, and returns its number of stripes, its packed entries and its version.
/// Unlike `read_packed_history`, it drops the bytes, so their memory is free before the caller uses
/// the entries.
///
/// # Errors
///
/// The errors of `read_history`, in the same order.
///
/// # Cost
///
/// The cost of `read_packed_history`.
pub fn into_packed_history(
    alloc: Global,
    bytes: Vec<u8>,
) -> Result<(u32, Vec<SmallEntry>, u64), FileFault>
    ensures { Gives (λ file. (file.0, file.1.items, file.2)) result (history_of bytes.items) }
{
    read_packed_history(alloc, &bytes)
}

/// Reads a history file, and keeps each entry as `kept` packs it. Only an entry that is out of
/// range is replaced, and its replacement is out of range too. So the faults are the same as
/// without replacements.
fn kept_history(alloc: Global, bytes: &[u8]) -> Result<(u32, Vec<SmallEntry>, u64), FileFault>
    ensures { Gives (λ file. (file.0, file.1.items, file.2)) result (kept_history_of bytes.now) }
{
    let (version, numbers, entries) = read_file::<Flat<EntryKind>, 1>(
        alloc,
        bytes,
        &["stripes"],
        "entries",
    )?;
    entries_in(version, numbers, entries)
}

/// The rule for the caller that a Busy entry names in a history file of this version. In versions 1
/// and 2 this caller holds the stripe. In later versions it has begun a transaction.
pub fn holder_in(version: u64) -> Holder
    ensures { result ≡ holder_rule version }
{
    if version <= LAST_OF_NOW {
        Holder::Now
    } else {
        Holder::Begun
    }
}
