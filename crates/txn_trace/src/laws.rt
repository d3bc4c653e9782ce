// PROMISES the-present-map: erased
//! The laws of histories. Each law is the contract of a function that does nothing, so a crate that
//! uses this one can cite the law without naming a lemma of `proofs/`. The only law here is that
//! aborted transactions leave nothing behind. It holds for both rules of `Holder` and for any
//! number of stripes.

ghost use Rattle.std.specs.Prelude.{◌≡◌, ℕ, List};
ghost use Rattle.txn_trace.specs.Erase.{erase};
ghost use Rattle.txn_trace.specs.Legal.{IsLegal};
ghost use Rattle.txn_trace.specs.Now.{now};
ghost use Rattle.txn_trace.specs.Replies.{RepliesHold};
ghost use Rattle.txn_trace.specs.Serial.{serial};
ghost use Rattle.txn_words.specs.declared.entry.Entry.{Entry};
ghost use Rattle.txn_words.specs.declared.holder.Holder.{Holder};

/// If the entries of aborted transactions are removed from a legal history, its map (`now`) and its
/// committed map (`serial`) stay the same. The replies in the remaining entries still hold.
///
/// The function does nothing. Its contract states this law.
pub fn erased()
    ensures now { (holder : Holder) (stripes : ℕ) (h : List Entry) → IsLegal holder stripes h
        → now (erase h) ≡ now h }
    ensures serial { (holder : Holder) (stripes : ℕ) (h : List Entry) → IsLegal holder stripes h
        → serial (erase h) ≡ serial h }
    ensures replies { (holder : Holder) (stripes : ℕ) (h : List Entry) → IsLegal holder stripes h
        → RepliesHold (erase h) }
{}
