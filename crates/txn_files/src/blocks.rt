//! Hands out the line of a history in blocks, so that a long line need not be in memory as a whole.
//! The module `text` makes the whole text at once. Both modules write entries by `set_entry`.
//! Invariant: the text put so far, followed by the rest of the text, is the whole line. This module
//! takes no memory.
ghost use Rattle.std.specs.Prelude.{◌≡◌, ◌⊎◌, ◌↔◌, ◌+◌, ◌<◌, ◌≤◌, [], ◌∷◌, ◌++◌, false, IsTrue, length};
ghost use Rattle.txn_files.specs.HistoryText.{text_of_history};
ghost use Rattle.txn_files.specs.HistoryLine.{end_text, entries_text, further_text};

use crate::block::{Block, FULL};
use crate::short_text::ShortText;
use crate::text::set_entry;
use std::marker::Model;
use txn_words::SmallEntry;

/// Puts each entry with a comma in front of it, until all entries are put or there is no room.
/// Returns the entries that were not put.
fn put_further<'a>(block: &mut Block, entries: &'a [SmallEntry]) -> &'a [SmallEntry]
    ensures whole { block.new ++ further_text result.now ≡ block.old ++ further_text entries.now }
    ensures full { (result.now ≡ []) ⊎ (FULL < length block.new) }
{
    let mut buffer = ShortText::new();
    let mut rest = entries;
    while let Some((entry, others)) = rest.split_first() {
        if !block.has_room() {
            return rest;
        }
        set_entry(&mut buffer, entry.entry());
        buffer.put(",");
        block.put(buffer.text());
        rest = others;
    }
    rest
}

/// Puts the start of the line and the first entry into an empty block. Returns the other entries.
fn put_start<'a>(block: &mut Block, entries: &'a [SmallEntry]) -> &'a [SmallEntry]
    requires { block.old ≡ [] }
    ensures { block.new ++ further_text result.now ≡ entries_text false entries.now }
{
    block.put("{\"entries\":[");
    let Some((first, rest)) = entries.split_first() else {
        return entries;
    };
    let mut buffer = ShortText::new();
    set_entry(&mut buffer, first.entry());
    block.put(buffer.text());
    rest
}

/// Puts the rest of the line, up to the last entry, into an empty block. Stops when there is no
/// room, and returns the entries that were not put.
fn put_entries<'a>(block: &mut Block, is_begun: bool, entries: &'a [SmallEntry]) -> &'a [SmallEntry]
    requires { block.old ≡ [] }
    ensures whole { block.new ++ further_text result.now ≡ entries_text is_begun entries.now }
    ensures full { (result.now ≡ []) ⊎ (FULL < length block.new) }
{
    if is_begun {
        return put_further(block, entries);
    }
    let further = put_start(block, entries);
    put_further(block, further)
}

/// Puts the end of the line: all that follows the last entry.
fn put_end(block: &mut Block, version: u64, stripes: u32)
    requires { length block.old ≤ FULL }
    ensures { block.new ≡ block.old ++ end_text version stripes }
{
    let mut buffer = ShortText::new();
    buffer.put("}\n");
    buffer.put_number(version);
    buffer.put(",\"version\":");
    buffer.put_number(u64::from(stripes));
    buffer.put("],\"stripes\":");
    block.put(buffer.text());
}

/// Hands out the line of a history block by block. The line is the text of `history_text` and a
/// line feed. In contracts the value of a `HistoryBlocks` is the text that it has not handed out
/// yet.
#[derive(Drop)]
pub struct HistoryBlocks<'a> {
    version: u64,
    stripes: u32,
    entries: &'a [SmallEntry],
    is_begun: bool,
    is_done: bool,
}

impl<'a> Model for HistoryBlocks<'a> {
    ghost use Rattle.std.specs.Prelude.{ℕ, List};
    ghost use Rattle.txn_files.specs.HistoryLine.{rest_of};

    ghost Value = { List ℕ };

    ghost view = { λ s. rest_of s.is_begun s.is_done s.version s.stripes s.entries.now };
}

impl<'a> HistoryBlocks<'a> {
    /// A `HistoryBlocks` that hands out the whole line of this history.
    ///
    /// # Cost
    ///
    /// Constant time; takes no memory.
    pub fn new(version: u64, stripes: u32, entries: &'a [SmallEntry]) -> HistoryBlocks<'a>
        ensures { result ≡ text_of_history version stripes entries.now ++ 10 ∷ [] }
    {
        HistoryBlocks {
            version,
            stripes,
            entries,
            is_begun: false,
            is_done: false,
        }
    }

    /// Empties a block, and fills it with the next block of the text. Returns true if there was
    /// one. If there was none, the function returns false and the block is empty. Each block but
    /// the last has more than 65,376 bytes.
    ///
    /// # Cost
    ///
    /// Time in proportion to the block; takes no memory.
    pub fn next_block(&mut self, block: &mut Block) -> bool
        ensures whole { self.old ≡ block.new ++ self.new }
        ensures some { IsTrue result ↔ (0 < length block.new) }
        ensures full { (self.new ≡ []) ⊎ (FULL < length block.new) }
    {
        block.clear();
        if self.is_done {
            return false;
        }
        self.entries = put_entries(block, self.is_begun, self.entries);
        self.is_begun = true;
        if self.entries.is_empty() && block.has_room() {
            put_end(block, self.version, self.stripes);
            self.is_done = true;
        }
        true
    }
}
