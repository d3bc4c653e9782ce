//! Split keys: the order in which a split-ordered list keeps the keys and the buckets of a hash
//! table (Shalev and Shavit, "Split-Ordered Lists", 2006, section 2).
//!
//! A split key is a number of 64 bits in reverse order. A key's split key is odd, since its top bit
//! is set before the reversal. A bucket's is even, and its dummy stands right before its keys. A
//! key's lowest bits give its bucket, and its split key begins with them. So a bucket's keys are
//! together at each size that is a power of two. Here the size is 4:
//!
//! ```text
//!  in the list    lowest bits    split key
//!  dummy 0        0000           0000 .. 0000
//!  key   0        0000           0000 .. 0001
//!  key   4        0100           0010 .. 0001
//!  dummy 2        0010           0100 .. 0000
//! ```
//!
//! A table that doubles moves no node. At size 8 the dummy of bucket 4, `0010 .. 0000`, is put
//! right before key 4. This splits bucket 4 off from its parent: its number without the highest 1
//! bit.
//!
//! Keys that differ only in the top bit share a split key. So the list is ordered by sort keys: by
//! split key, and then by key.
//!
//! Proved: only such keys share a split key; no two keys share a sort key, no two buckets a split
//! key; a bucket's dummy precedes its keys, and the dummies of its proper ancestors precede it.
//! Each call takes constant time and no memory.
#![tactic(auto)]

mod bucket;
mod key;
mod reversal;
mod sort;
mod split;

pub use bucket::{bucket_at, bucket_of, parent};
pub use key::{BadKey, Key};
pub use reversal::reverse;
pub use sort::SortKey;
pub use split::{dummy, regular};
