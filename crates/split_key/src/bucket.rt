//! Buckets as numbers: the bucket of a key, the bucket of a position in the split order, and the
//! parent of a bucket. The `split` module orders the nodes; this module says to which bucket a key
//! or a position belongs. Table sizes are powers of two, so no call divides.
ghost use Rattle.std.specs.Prelude.{◌≡◌, ℕ, ◌%◌, ◌<◌, ◌≤◌};
ghost use Rattle.split_key.specs.Split.{reversed, split, parent_of, IsParent};
ghost use Rattle.split_key.specs.Split.{IsAncestor, IsPowerOfTwo};

use crate::key::Key;
use crate::reversal::reverse;

/// The parent of a bucket other than 0: the bucket with its highest 1 bit cleared. Before the
/// bucket was split off, its keys belonged to its parent.
pub fn parent(bucket: u32) -> u32
    requires { 0 < bucket }
    ensures value { result ≡ parent_of bucket }
    ensures highest { IsParent bucket result }
    ensures below { result < bucket }
    ensures order { reversed result < reversed bucket }
    ensures ancestor { (descendant : ℕ) →
        IsAncestor bucket descendant → IsAncestor result descendant }
{
    bucket - (1 << bucket.ilog2())
}

/// The bucket of a key in a table of this size: the key's lowest bits. The size is a power of two.
/// The dummies of the bucket and of all its ancestors precede the key, so a search for the key may
/// begin at any of them.
pub fn bucket_of(key: Key, size: u32) -> u32
    requires { IsPowerOfTwo size }
    ensures value { result ≡ key % size }
    ensures below { result < size }
    ensures order { (ancestor : ℕ) → IsAncestor ancestor result → reversed ancestor < split key }
{
    (key.number() & u64::from(size - 1)) as u32
}

/// The bucket to which the position `split` of the split order belongs, in a table of this size.
/// The size is a power of two. Among the table's dummies with a split key of at most `split`, the
/// dummy of this bucket has the greatest split key. The split keys of its ancestors' dummies are at
/// most `split` too.
pub fn bucket_at(split: u64, size: u32) -> u32
    requires { IsPowerOfTwo size }
    ensures value { result ≡ reversed split % size }
    ensures below { result < size }
    ensures order { (ancestor : ℕ) → IsAncestor ancestor result → reversed ancestor ≤ split }
    ensures greatest { (other : ℕ) →
        other < size → reversed other ≤ split → reversed other ≤ reversed result }
{
    (reverse(split) & u64::from(size - 1)) as u32
}
