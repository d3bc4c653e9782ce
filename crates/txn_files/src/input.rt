//! Reads a file, but at most one byte more than a file may have, so a file that is too long is found
//! without reading all of it. Programs read by this function. A reader is not called again after it
//! failed.
ghost use Rattle.std.specs.Prelude.{◌≡◌, length, IfOk};
ghost use Rattle.txn_files.specs.Reading.{IsRead};
ghost use Rattle.txn_files.specs.declared.input.Unread.TheVariants.{NoMemory};

use piece_files::MAX_BYTES;
use std::alloc::{AllocError, Global};
use std::io::Read;

/// One byte more than a file may have.
const MAX_READ: usize = MAX_BYTES + 1;

/// The most bytes that one read asks for.
const CHUNK: usize = 65_536;

/// Why a file was not read.
#[derive(Clone, Copy, Debug, PartialEq, Eq)]
pub enum Unread {
    /// A read failed.
    Failed,
    /// Memory was refused.
    NoMemory,
}

impl From<AllocError> for Unread {
    ghost from_gives = { λ _ unread. unread ≡ NoMemory };

    fn from(_error: AllocError) -> Unread {
        Unread::NoMemory
    }
}

/// This many zero bytes.
fn zeros(alloc: Global, count: usize) -> Result<Vec<u8>, AllocError>
    ensures { IfOk result (λ zeros. length zeros.items ≡ count) }
{
    vec![in alloc; 0u8; count]
}

/// Reads to the end of the input, but at most one byte more than a file may have.
///
/// # Errors
///
/// `Failed` if a read fails; the reader is not called again after that. `NoMemory` if memory is
/// refused.
///
/// # Cost
///
/// Time and memory in proportion to the bytes, and memory for 64 KB.
pub fn read_bytes<R: Read>(alloc: Global, input: &mut R) -> Result<Vec<u8>, Unread>
    ensures { IfOk result (λ bytes. IsRead (R.remaining input.old) bytes.items) }
{
    let mut bytes = Vec::new(alloc);
    let mut place = zeros(alloc, CHUNK)?;
    let chunk = place.as_mut_slice();
    while bytes.len() < MAX_READ {
        let room = (MAX_READ - bytes.len()).min(CHUNK);
        let Ok(count) = input.read(&mut chunk[..room]) else {
            return Err(Unread::Failed);
        };
        if count == 0 {
            return Ok(bytes);
        }
        bytes.extend_from_slice(&chunk[..count])?;
    }
    Ok(bytes)
}
