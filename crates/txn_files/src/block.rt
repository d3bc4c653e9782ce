//! A buffer for a block of a text. Its memory is allocated once, when it is made, so no `put` takes
//! memory. A `HistoryBlocks` fills the same buffer again and again, so a text of any length needs
//! no further memory. A buffer holds 65,536 bytes, and one comparison shows whether a text of 160
//! bytes surely fits.
ghost use Rattle.std.specs.Prelude.{◌≡◌, ◌↔◌, ◌+◌, ◌<◌, ◌≤◌, [], ◌++◌, IfOk, IsTrue, length};

use std::alloc::{AllocError, Global};
use std::marker::Model;

/// The number of bytes that a block has room for.
const SIZE: usize = 65_536;

/// A block with at most this number of bytes surely has room for a text of 160 bytes.
pub(crate) const FULL: usize = 65_376;

/// As many zero bytes as a block has room for.
fn zeros(alloc: Global) -> Result<Vec<u8>, AllocError>
    ensures { IfOk result (λ zeros. length zeros.items ≡ SIZE) }
{
    vec![in alloc; 0u8; SIZE]
}

/// A block of a text, of at most 65,536 bytes. In contracts its value is the list of its bytes.
#[derive(Drop)]
pub struct Block {
    bytes: Vec<u8>,
    count: usize,
}

impl Model for Block {
    ghost use Rattle.std.specs.Prelude.{◌≡◌, ℕ, List, ◌≤◌, length, take};

    ghost Value = { List ℕ };

    ghost view = { λ s. take s.count s.bytes.items };

    ghost invariant = { λ s. (length s.bytes.items ≡ 65536) × (s.count ≤ 65536) };
}

impl Block {
    /// An empty block.
    ///
    /// # Errors
    ///
    /// `AllocError` if memory is refused.
    ///
    /// # Cost
    ///
    /// Time and memory for 65,536 bytes.
    pub fn new(alloc: Global) -> Result<Block, AllocError>
        ensures { IfOk result (λ block. block ≡ []) }
    {
        let bytes = zeros(alloc)?;
        Ok(Block { bytes, count: 0 })
    }

    /// Makes the text empty.
    #[inline(always)]
    pub(crate) fn clear(&mut self)
        ensures { self.new ≡ [] }
    {
        self.count = 0;
    }

    /// Whether there surely is room for 160 bytes more.
    #[inline(always)]
    pub(crate) fn has_room(&self) -> bool
        ensures { IsTrue result ↔ (length self.now ≤ FULL) }
    {
        self.count <= FULL
    }

    /// Puts a word at the end of the text.
    #[inline(always)]
    pub(crate) fn put(&mut self, word: &str)
        requires { length self.old + length word.now ≤ SIZE }
        ensures { self.new ≡ self.old ++ word.now }
    {
        let start = self.count;
        let end = start + word.len();
        self.bytes[start..end].copy_from_slice(word.as_bytes());
        self.count = end;
    }

    /// The text.
    ///
    /// # Cost
    ///
    /// Constant time; takes no memory.
    pub fn text(&self) -> &[u8]
        ensures { result.now ≡ self.now }
    {
        &self.bytes[..self.count]
    }
}
