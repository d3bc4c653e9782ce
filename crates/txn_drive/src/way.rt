//! The path of a helper: the buckets that it initialises up to a key's bucket, each after its
//! parent. A `Way` keeps only the current bucket and the target, and no list of ancestors. The next
//! bucket is found by going up from the target, from parent to parent, at most 32 times.
ghost use Rattle.std.specs.Prelude.{◌≡◌};
ghost use Rattle.split_key.specs.Split.{parent_of};
ghost use Rattle.txn_drive.specs.Ways.{child_towards};

use split_key::parent;

/// The position of a helper on its path from bucket 0 to a target bucket. On the path are the
/// target and all its ancestors, each after its parent.
#[derive(Clone, Copy, Debug, PartialEq, Eq)]
pub struct Way {
    /// The bucket that is being initialised.
    pub bucket: u32,
    /// The bucket that is initialised last.
    pub target: u32,
}

/// The parent of a bucket; bucket 0 is its own parent.
fn parent_or_root(bucket: u32) -> u32
    ensures { result ≡ parent_of bucket }
{
    if bucket == 0 { 0 } else { parent(bucket) }
}

/// The bucket that follows `last` on the path to `target`. Of the target and its ancestors, it is
/// the bucket whose parent is `last`. Takes time in proportion to the number of ancestors between
/// `last` and `target`, which is at most 32.
pub(crate) fn next_towards(last: u32, target: u32) -> u32
    ensures { result ≡ child_towards last target }
{
    let mut bucket = target;
    for _ in 0..32u32 {
        let above = parent_or_root(bucket);
        if above == last {
            return bucket;
        }
        bucket = above;
    }
    bucket
}
