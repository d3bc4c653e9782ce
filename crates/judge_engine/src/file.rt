//! The verdict on the bytes of a history file, and the lines that explain the bad entry. No reader
//! or writer is used here, so the contracts are about bytes only. `judge_file` drops the bytes
//! before it judges; `explain_file` borrows them, so that `why` can search them for a flaw.
ghost use Rattle.std.specs.Prelude.{◌≡◌, ◌<◌, IfOk, IfErr, string_bytes};
ghost use Rattle.std.specs.List.{All};
ghost use Rattle.txn_words.specs.Kinds.{caller_of};
ghost use Rattle.judge_engine.specs.Bases.{HasStripes, IsVerdictBy};
ghost use Rattle.judge_engine.specs.Files.{IsExplainedFile, IsJudgedFile, IsUnjudgedFile, basis_of};

use crate::basis::Basis;
use crate::fault::Fault;
use crate::lines::lines_of;
use history_check::Verdict;
use std::alloc::{AllocError, Global};
use txn_files::{holder_in, into_packed_history, read_packed_history};
use txn_trace::SmallEntry;

/// The rules by which a history file with these stripes and this version is judged.
fn basis_of(by_commits: bool, stripes: u32, version: u64) -> Basis
    ensures { result ≡ basis_of by_commits stripes version }
{
    match by_commits {
        true => Basis::Commits,
        false => Basis::Locks {
            stripes: u64::from(stripes),
            holder: holder_in(version),
        },
    }
}

/// The verdict on entries by the rules of `basis`.
fn verdict_by(alloc: Global, basis: Basis, entries: &[SmallEntry]) -> Result<Verdict, AllocError>
    requires stripes { HasStripes basis }
    requires callers { All (λ entry. caller_of entry < 64) entries.now }
    ensures { IfOk result (IsVerdictBy basis entries.now) }
{
    match basis {
        Basis::Locks { stripes, holder } => {
            history_check::check_packed(alloc, entries, stripes, holder)
        }
        Basis::Commits => serial_check::check_packed(alloc, entries),
    }
}

/// The verdict on the history file with these bytes: by the order of commits, or by the locks of
/// the file's stripes.
///
/// # Errors
///
/// `Input` if the bytes are no history file; `NoMemory` if memory is refused.
///
/// # Cost
///
/// The cost of the checker for each entry, and time and memory in proportion to the number of
/// bytes.
pub(crate) fn judge_file(alloc: Global, by_commits: bool, bytes: Vec<u8>) -> Result<Verdict, Fault>
    ensures ok { IfOk result (IsJudgedFile by_commits bytes.items) }
    ensures err { IfErr result (IsUnjudgedFile bytes.items) }
{
    let (stripes, packed, version) = into_packed_history(alloc, bytes)?;
    let basis = basis_of(by_commits, stripes, version);
    let verdict = verdict_by(alloc, basis, packed.as_slice())?;
    Ok(verdict)
}

/// The verdict on the history file with these bytes, and the lines that explain the bad entry.
/// There are no lines if the history is legal.
///
/// # Errors
///
/// `Input` if the bytes are no history file; `NoMemory` if memory is refused.
///
/// # Cost
///
/// A few times the cost of the checker for each entry, and time and memory in proportion to the
/// number of bytes.
pub(crate) fn explain_file(
    alloc: Global,
    by_commits: bool,
    bytes: &[u8],
) -> Result<(Verdict, String), Fault>
    ensures ok { IfOk result (λ found.
        IsExplainedFile by_commits bytes.now found.0 (string_bytes found.1)) }
    ensures err { IfErr result (IsUnjudgedFile bytes.now) }
{
    let (stripes, packed, version) = read_packed_history(alloc, bytes)?;
    let entries = packed.as_slice();
    let basis = basis_of(by_commits, stripes, version);
    let verdict = verdict_by(alloc, basis, entries)?;
    let lines = lines_of(alloc, basis, entries, verdict)?;
    Ok((verdict, lines))
}
