//! Split keys of keys and of dummies. The split key of a key ends in 1 and that of a dummy in 0, so
//! a bucket's dummy precedes the keys of the bucket. The final 1 takes the place of the key's top
//! bit, which a sort key stores beside the split key. Each call makes one reversal.
ghost use Rattle.std.specs.Prelude.{◌≡◌, ◌≢◌, ℕ, ◌%◌, ◌^◌, ◌<◌};
ghost use Rattle.split_key.specs.Split.{reversed, split, IsAncestor};

use crate::key::Key;
use crate::reversal::reverse;

/// The bit that is set in a key before it is reversed; it makes the split key odd.
const TOP_BIT: u64 = 1 << 63;

/// The split key of a key's node, which is a regular node: the key's 64 bits, with the top bit set,
/// in reverse order. It is odd. Two keys share a split key exactly if they agree in all bits below
/// the top one, so no two keys below 2^63 share one.
pub fn regular(key: Key) -> u64
    ensures value { result ≡ split key }
    ensures odd { result % 2 ≡ 1 }
    ensures shared { (other : ℕ) → other % 2 ^ 63 ≡ key % 2 ^ 63 → split other ≡ result }
    ensures apart { (other : ℕ) → split other ≡ result → other % 2 ^ 63 ≡ key % 2 ^ 63 }
{
    reverse(key.number() | TOP_BIT)
}

/// The split key of a bucket's dummy node: the bucket's bits in reverse order. It is even, and no
/// other bucket has it. It is above the split key of every other bucket that is an ancestor of this
/// bucket.
pub fn dummy(bucket: u32) -> u64
    ensures value { result ≡ reversed bucket }
    ensures even { result % 2 ≡ 0 }
    ensures apart { (other : ℕ) → other < 2 ^ 32 → reversed other ≡ result → other ≡ bucket }
    ensures order { (ancestor : ℕ) → IsAncestor ancestor bucket → ancestor ≢ bucket
        → reversed ancestor < result }
{
    reverse(u64::from(bucket))
}
