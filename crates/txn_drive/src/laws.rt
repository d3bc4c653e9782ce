//! The law of a helper's path, stated as the contract of a function that does nothing. A crate that
//! uses this one can then cite the law without naming a lemma. By this law each bucket on the path
//! follows its parent. That is why a drive does not foresee the refusal `ParentMissing`.

ghost use Rattle.std.specs.Prelude.{◌≡◌, ◌≢◌, ℕ, ◌^◌, ◌<◌, ◌≤◌};
ghost use Rattle.split_key.specs.Split.{parent_of, IsAncestor};
ghost use Rattle.txn_drive.specs.Ways.{child_towards};

/// A helper's path leads from bucket 0 to a target bucket below 2^32. Each bucket on the path is
/// the target or an ancestor of the target. Each bucket except bucket 0 comes right after its
/// parent.
///
/// These facts are the contract of this function; the function itself does nothing.
pub fn ways()
    ensures root { (bucket : ℕ) → bucket < 2 ^ 32 → IsAncestor 0 bucket }
    ensures child { (last bucket : ℕ) → bucket < 2 ^ 32 → IsAncestor last bucket → last ≢ bucket
        → parent_of (child_towards last bucket) ≡ last }
    ensures ancestor { (last bucket : ℕ) → IsAncestor (child_towards last bucket) bucket }
    ensures below { (last bucket : ℕ) → child_towards last bucket ≤ bucket }
{}
