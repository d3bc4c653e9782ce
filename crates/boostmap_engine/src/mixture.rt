//! The history that `mix` prints, before it is turned into text. It is the history of a core on
//! which the scripts were mixed. This module is separate from `engine`, since it needs no reader
//! and no writer. The scripts and the rest of the core are large, so they are dropped before the
//! history is written.
ghost use Rattle.std.specs.Prelude.{IfOk, IfErr};
ghost use Rattle.txn_files.specs.HistoryText.{text_of_history};
ghost use Rattle.boostmap_engine.specs.Mixture.{IsMixtureOf, IsNoScriptFile};
ghost use Rattle.boostmap_engine.specs.Report.{line};
ghost use Rattle.boostmap_engine.specs.Written.{HasNone};

use crate::fault::Fault;
use crate::mixing::mix_scripts;
use std::alloc::Global;
use txn_files::into_scripts;
use txn_words::SmallEntry;

/// A history, with the version and the number of stripes that the history's text states too.
#[derive(Drop)]
pub(crate) struct MixedHistory {
    /// The version of the history, which is the version of its script file.
    pub(crate) version: u64,
    /// The number of stripes.
    pub(crate) stripes: u32,
    /// The entries.
    pub(crate) entries: Vec<SmallEntry>,
}

/// Runs the scripts that are read from these bytes, with the workers' turns mixed as the seed
/// determines, and returns the history. The history has the version of its script file.
///
/// # Errors
///
/// `Input` if the bytes are not a script file. `NoMemory` if memory is refused outside a step.
///
/// # Cost
///
/// The cost of `mix_scripts`, and time and memory in proportion to the number of bytes.
pub(crate) fn mixture(alloc: Global, seed: u64, bytes: Vec<u8>) -> Result<MixedHistory, Fault>
    ensures ok { IfOk result (λ mixture. IsMixtureOf seed bytes.items
        (line (text_of_history mixture.version mixture.stripes mixture.entries.items))) }
    ensures err { IfErr result (HasNone IsNoScriptFile bytes.items) }
{
    let work = into_scripts(alloc, bytes)?;
    let core = mix_scripts(alloc, seed, &work)?;
    let limits = work.limits();
    let version = work.version();
    drop(work);
    Ok(MixedHistory {
        version,
        stripes: limits.stripes(),
        entries: core.into_trace(),
    })
}
