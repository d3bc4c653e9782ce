//! Step files, script files and history files, in JSON, and histories as lines, each an entry.
//!
//! The model is four functions of the bytes: `file_of`, `scripts_of`, `history_of` and `entry_on`
//! (`specs/`). Each gives the content of a file, or the entry on a line, or the first fault in a
//! fixed order: too long, not JSON, a member of the wrong shape, a piece of the wrong shape, out of
//! range. `piece_files` parses JSON, and has the loop over the pieces. This crate says what a step,
//! an entry, an action and a script are, and which members each kind of file has.
//!
//! Proved: `read_steps`, `read_scripts`, `read_history`, the packed readers and `entry_on` compute
//! these functions, or report that memory was refused. `history_text` makes the text of a history,
//! as `text_of_history` defines it, and `history_lines` its lines. `HistoryBlocks` hands out the
//! same text and a line feed, block by block.
//!
//! Time and memory are in proportion to the length of the file or text. A reader keeps at most as
//! many pieces as a file may have, but all actions of a script. Reading a line takes no memory
//! except that of its `Scratch`, which grows to the length of the longest line.
//!
//! Only tested: reading the text of a history again gives the same entries. For lines this is not
//! tested.
#![tactic(auto)]

mod block;
mod blocks;
mod entry;
mod entry_line;
mod history_file;
mod input;
mod operation;
mod output;
mod script_file;
mod short_text;
mod step_file;
mod text;

pub use block::Block;
pub use blocks::HistoryBlocks;
pub use entry_line::{MAX_LINE, entry_on};
pub use history_file::{holder_in, into_packed_history, read_history, read_packed_history};
pub use input::{Unread, read_bytes};
pub use json::Scratch;
pub use output::{Unwritten, write_text};
pub use piece_files::{FileFault, Part};
pub use script_file::{into_scripts, read_scripts};
pub use step_file::{read_packed_steps, read_steps};
pub use text::{history_lines, history_text};
pub use txn_words::{Script, Scripts};
