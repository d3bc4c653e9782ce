//! Writes a history. The other commands write their text by `txn_files::write_text`.
ghost use Rattle.std.specs.Prelude.{OnOk, IfErr};
ghost use Rattle.std.specs.Io.KnownBytes.{Appends};
ghost use Rattle.txn_files.specs.HistoryText.{text_of_history};
ghost use Rattle.boostmap_engine.specs.Report.{line};
ghost use Rattle.boostmap_engine.specs.Written.{LeavesText};

use crate::fault::Fault;
use std::alloc::Global;
use std::io::Write;
use txn_files::{Block, HistoryBlocks, write_text};
use txn_words::SmallEntry;

/// Writes the text of a history, as `history_text` makes it, and a line feed. The text is written
/// in blocks of 64 KB, so it is never in memory as a whole.
///
/// # Errors
///
/// - `NoMemory` if memory is refused. All memory is taken before the first write, so nothing is
///   written.
/// - `Write` if the writer fails or takes no bytes. Then the writer is not called again, and a
///   proper prefix of the line is written.
///
/// # Cost
///
/// Time in proportion to the number of entries, and memory for 65,536 bytes. One call of the writer
/// for each part of a block that it takes.
pub fn write_history<W: Write>(
    alloc: Global,
    output: &mut W,
    version: u64,
    stripes: u32,
    entries: &[SmallEntry],
) -> Result<(), Fault>
    ensures ok { OnOk result (Appends (W.contents output.old) (W.contents output.new)
        (line (text_of_history version stripes entries.now))) }
    ensures err { IfErr result (LeavesText (W.contents output.old) (W.contents output.new)
        (line (text_of_history version stripes entries.now))) }
{
    let mut block = Block::new(alloc)?;
    let mut blocks = HistoryBlocks::new(version, stripes, entries);
    while blocks.next_block(&mut block) {
        write_text(output, block.text())?;
    }
    Ok(())
}
