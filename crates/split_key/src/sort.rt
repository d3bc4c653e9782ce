//! Sort keys: the order of the nodes of a list, by split key and then by key. Split keys alone do
//! not order the nodes, since two keys may share a split key; no two keys share a sort key.
//! The map tests this order only by `is_before`, which takes constant time.
ghost use Rattle.std.specs.Prelude.{◌≡◌, ◌≢◌, ℕ};
ghost use Rattle.std.proofs.Common.{rules};
ghost use Rattle.std.specs.Cmp.Rules.{comparing};
ghost use Rattle.split_key.specs.Sort.{IsBefore, dummy_at, is_before, is_same, regular_at};
ghost use Rattle.split_key.specs.SortAt.{bytes_of, word_of};

use crate::key::{HALF, Key};
use crate::reversal::reverse;
use crate::split::{dummy, regular};
use std::marker::Model;
use std::mem::size_of;

/// The position of a node in the order of the list: by split key, and by key where split keys are
/// equal. A dummy has key 0 here. No two nodes of a list have the same sort key.
///
/// A sort key takes 9 bytes and needs no alignment. It contains all bits of the node's key: the
/// split key has all but the top one, and `is_upper` has the top one. So a node need not store its
/// key as well.
#[derive(Clone, Copy, Debug)]
pub struct SortKey {
    split: [u8; 8],
    is_upper: bool,
}

const _: () = prove!(size_of::<SortKey>() == 9);

impl Model for SortKey {
    ghost use Rattle.std.specs.Prelude.{nat_le, ◌^◌};
    ghost use Rattle.split_key.specs.SortAt.{SortAt, IsPacked, bytes_are, bytes_of, sort_seen, upper_is, word_of};

    ghost Value = { SortAt };

    ghost view = { λ s. sort_seen s.split s.is_upper };

    ghost invariant = { λ s. IsPacked s.split s.is_upper };

    ghost inverse = { λ at. record {
      split = bytes_of at.split;
      is_upper = nat_le (2 ^ 63) at.key;
    } };

    ghost inverse_ok = { λ s packed i. record {
      split = bytes_are s.split s.is_upper packed i;
      is_upper = upper_is (word_of s.split) s.is_upper packed.upper i;
    } };
}

impl PartialEq for SortKey {
    ghost eq = { λ a b. is_same a b };

    ghost laws = { Prim.search (comparing, rules) };

    fn eq(&self, other: &SortKey) -> bool {
        if self.is_upper == other.is_upper {
            word(self.split) == word(other.split)
        } else {
            false
        }
    }
}

impl Eq for SortKey {
    ghost laws = { Prim.search (comparing, rules) };
}

/// The number that eight bytes stand for, the lowest byte first.
fn word(bytes: [u8; 8]) -> u64
    ensures { result ≡ word_of bytes }
{
    u64::from_le_bytes(bytes)
}

/// The eight bytes of a number, the lowest byte first.
fn bytes(word: u64) -> [u8; 8]
    ensures { result ≡ bytes_of word }
{
    word.to_le_bytes()
}

impl SortKey {
    /// The sort key of a key's node. It comes after the sort key of bucket 0's dummy. No other key
    /// has the same sort key.
    pub fn regular(key: Key) -> SortKey
        ensures value { result ≡ regular_at key }
        ensures apart { (other : ℕ) → regular_at other ≡ result → other ≡ key }
        ensures behind_first { IsBefore (dummy_at 0) result }
    {
        SortKey {
            split: bytes(regular(key)),
            is_upper: key.number() >= HALF,
        }
    }

    /// The sort key of a bucket's dummy. If the bucket is not 0, this sort key comes after the one
    /// of bucket 0's dummy.
    pub fn dummy(bucket: u32) -> SortKey
        ensures value { result ≡ dummy_at bucket }
        ensures behind_first { bucket ≢ 0 → IsBefore (dummy_at 0) result }
    {
        SortKey {
            split: bytes(dummy(bucket)),
            is_upper: false,
        }
    }

    /// The split key.
    pub fn split(self) -> u64
        ensures { result ≡ self.split }
    {
        word(self.split)
    }

    /// The key of a regular node, or 0 for a dummy. The key is found by reversing the split key.
    pub fn key(self) -> u64
        ensures { result ≡ self.key }
    {
        let split = word(self.split);
        if split % 2 == 0 {
            return 0;
        }
        let low = reverse(split) % HALF;
        if self.is_upper { low + HALF } else { low }
    }

    /// Returns true if this sort key precedes `other`: if its split key is lower, or if the split
    /// keys are equal and its key is lower.
    pub fn is_before(self, other: SortKey) -> bool
        ensures { result ≡ is_before self other }
    {
        let split = word(self.split);
        let others = word(other.split);
        if split == others {
            !self.is_upper && other.is_upper
        } else {
            split < others
        }
    }
}
