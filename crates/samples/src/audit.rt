//! An audit of a recorded history by `history_check`: whether it is legal, unless it names a caller
//! that the checker does not know.
ghost use Rattle.std.specs.Prelude.{◌<◌, ◌↔◌, IsTrue, IsSome, IfOk, IfSome};
ghost use Rattle.std.specs.List.{All};
ghost use Rattle.txn_words.specs.declared.holder.Holder.TheVariants.{Now};
ghost use Rattle.txn_words.specs.Kinds.{caller_of};
ghost use Rattle.txn_trace.specs.Legal.{IsLegal};

use history_check::{Verdict, check};
use std::alloc::{AllocError, Global};
use txn_trace::{Entry, Holder};

/// Returns `Some(true)` if the history of a map with this number of stripes is legal, and
/// `Some(false)` if it is not. Returns `None` if a caller's number is 64 or more, since the checker
/// knows no such caller.
///
/// # Errors
///
/// `AllocError` if memory is refused.
///
/// # Cost
///
/// The cost of `history_check::check`, and a look at each entry.
pub fn is_legal(alloc: Global, entries: &[Entry], stripes: u64) -> Result<Option<bool>, AllocError>
    requires { 0 < stripes }
    ensures legal { IfOk result (λ answer.
        IfSome answer (λ legal. IsTrue legal ↔ IsLegal Now stripes entries.now)) }
    ensures known { IfOk result (λ answer.
        All (λ entry. caller_of entry < 64) entries.now → IsSome answer) }
{
    for entry in entries {
        if entry.caller() >= 64 {
            return Ok(None);
        }
    }
    let verdict = check(alloc, entries, stripes, Holder::Now)?;
    Ok(Some(matches!(verdict, Verdict::Legal { .. })))
}
