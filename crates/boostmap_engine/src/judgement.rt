//! The verdict on the entries of a history file. The file's version decides which rule of locks
//! holds. The checker knows no versions, so this module chooses the rule for it. The bytes of the
//! file are dropped before the entries are judged.
ghost use Rattle.std.specs.Prelude.{IfOk, IfErr};
ghost use Rattle.boostmap_engine.specs.Judgement.{IsJudged, IsNoHistoryFile};
ghost use Rattle.boostmap_engine.specs.Written.{HasNone};

use crate::fault::Fault;
use history_check::{Verdict, check_packed};
use std::alloc::Global;
use txn_files::{holder_in, into_packed_history};

/// Judges the history that is read from these bytes, by the rule of locks that the file's version
/// determines.
///
/// # Errors
///
/// `Input` if the bytes are not a history file. `NoMemory` if memory is refused.
///
/// # Cost
///
/// The cost of `history_check::check`, and time and memory in proportion to the number of bytes.
pub fn judge(alloc: Global, bytes: Vec<u8>) -> Result<Verdict, Fault>
    ensures ok { IfOk result (IsJudged bytes.items) }
    ensures err { IfErr result (HasNone IsNoHistoryFile bytes.items) }
{
    let (stripes, entries, version) = into_packed_history(alloc, bytes)?;
    let verdict = check_packed(alloc, &entries, u64::from(stripes), holder_in(version))?;
    Ok(verdict)
}
