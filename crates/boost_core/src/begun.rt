//! A flag for each caller: whether it has begun a transaction. A word may name a caller as the
//! holder of its stripe only if the caller's flag is set. The flags are kept beside the history, so
//! that no test walks the history. By the core's invariant a flag is set exactly if the history has
//! a Began of its caller. No flag is ever cleared.
ghost use Rattle.std.specs.Prelude.{◌≡◌, false, replicate, IfOk};
ghost use Rattle.boost_core.specs.Begun.{begun_with};

use std::alloc::{AllocError, Global};
use txn_trace::Entry;

/// A flag for each of this many callers. No flag is set, since no caller has begun a transaction.
pub(crate) fn none_begun(alloc: Global, callers: usize) -> Result<Vec<bool>, AllocError>
    ensures { IfOk result (λ begun. begun.items ≡ replicate callers false) }
{
    vec![in alloc; false; callers]
}

/// If the entry begins a transaction, sets the flag of the entry's caller.
#[inline(always)]
pub(crate) fn note_begun(begun: &mut Vec<bool>, entry: Option<Entry>)
    ensures { begun.new.items ≡ begun_with begun.old.items entry }
{
    let Some(entry) = entry else {
        return;
    };
    if let Entry::Began(caller, _) = entry {
        if (caller as usize) < begun.len() {
            begun[caller as usize] = true;
        }
    }
}
