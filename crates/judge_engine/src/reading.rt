//! Reads lines, in chunks, until an entry is bad, a line is refused, or the input ends. Files are
//! read as a whole, by `txn_files::read_bytes`.
ghost use Rattle.std.specs.Prelude.{◌≡◌, ◌<◌, [], length, IfOk, IfErr};
ghost use Rattle.judge_engine.specs.declared.basis.Basis.{Basis as TheBasis};
ghost use Rattle.judge_engine.specs.Bases.{HasStripes};
ghost use Rattle.judge_engine.specs.Watchers.{TookIn};
ghost use Rattle.judge_engine.specs.Watching.{FailsToWatch, Watches};

use crate::basis::Basis;
use crate::fault::Fault;
use crate::watcher::Watcher;
use history_check::Verdict;
use std::alloc::{AllocError, Global};
use std::io::Read;

/// The most bytes that one read asks for.
const CHUNK: usize = 65_536;

/// A buffer for reads.
fn buffer(alloc: Global) -> Result<Vec<u8>, AllocError>
    ensures { IfOk result (λ buffer. length buffer.items ≡ 65536) }
{
    vec![in alloc; 0u8; CHUNK]
}

/// Passes the bytes of a reader to a new watcher, until there is a verdict. `chunk` is the buffer
/// for the reads.
fn read_on<R: Read>(
    input: &mut R,
    watcher: &mut Watcher,
    chunk: &mut [u8],
) -> Result<Verdict, Fault>
    requires { 0 < length chunk.old }
    ensures ok { IfOk result (λ outcome. (basis : TheBasis) → TookIn basis [] watcher.old →
        Watches basis (R.remaining input.old) outcome) }
    ensures err { IfErr result (λ fault. (basis : TheBasis) → TookIn basis [] watcher.old →
        FailsToWatch basis (R.remaining input.old) fault) }
{
    'reads: for _ in 0..u64::MAX {
        let Ok(count) = input.read(chunk) else {
            return Err(Fault::Read);
        };
        if count == 0 {
            return watcher.end();
        }
        watcher.take_in(&chunk[..count])?;
        if let Some(verdict) = watcher.verdict_so_far()? {
            return Ok(verdict);
        }
    }
    Err(Fault::Read)
}

/// Reads lines, each of which is an entry, and returns the verdict at the first bad entry or at the
/// end of the input.
///
/// # Errors
///
/// - `Line` for the first line that is refused, if no entry before it is bad.
/// - `Read` if a read fails, after which the reader is not called again.
/// - `NoMemory` if memory is refused.
///
/// # Cost
///
/// The cost of the judge for each entry, and time in proportion to the number of bytes. Memory for
/// the judge, and 64 KB.
pub(crate) fn watch_lines<R: Read>(
    alloc: Global,
    basis: Basis,
    input: &mut R,
) -> Result<Verdict, Fault>
    requires { HasStripes basis }
    ensures ok { IfOk result (Watches basis (R.remaining input.old)) }
    ensures err { IfErr result (FailsToWatch basis (R.remaining input.old)) }
{
    let mut watcher = Watcher::new(alloc, basis)?;
    let mut place = buffer(alloc)?;
    read_on(input, &mut watcher, place.as_mut_slice())
}
