//! The map of one stripe of a striped map. Only the stripe's holder uses it, as plain memory, so it
//! needs no cursors, no marked nodes and no buckets in split order.
//!
//! `ProbeMap` is a map in one flat array, by open addressing with linear probing (Knuth, "The Art of
//! Computer Programming", volume 3, section 6.4). A probe begins at the key's home, the slot that a
//! hash of the key gives, and visits the slots one by one, round the end. It stops at a slot that is
//! empty or has the key. A key that is removed keeps its slot, without a value, so that no probe for
//! another key stops too early. A contract sees a map as its `content`, a finite map, and `spare`, the
//! number of new keys that it has room for.
//!
//! A `Shard` is such a map that can take changes back. A contract sees its `content` and `owed`, the
//! number of changes of the open transaction that can be taken back without memory: for each the map
//! has room for one more key. `apply` does an operation, whose change is then owed; a refusal leaves
//! the shard unchanged, and a get is never refused. `take_back` gives a change's key the value from
//! before. This is an inverse of boosting; inverses are run newest first, from a log that the shard's
//! user keeps. `settle` keeps all changes. The calls take amortized constant time, except for keys
//! whose hashes collide.
//!
//! Not proved: a shard made by `with_capacity_and_seed` needs no memory for its first keys. Not
//! claimed: how hard it is to choose colliding keys if the seed is unknown. Only tested: the room of
//! removed keys is used again; map and shard grow; with enough memory, no call returns "no memory".
#![tactic(auto)]

mod change;
mod hash;
mod map;
mod probe;
mod shard;
mod slot;

pub use map::ProbeMap;
pub use shard::Shard;
