//! Reads the shards of all stripes that a seat holds: how many pairs these shards have, and the pairs
//! with their whole keys.
//!
//! A shard has the pairs of its stripe under sub-keys. The functions read shards and change nothing.
//! `count_of` takes constant time for each shard. `add_pairs` takes the time and memory of
//! `Shard::pairs`, and `pairs_of` that for each shard, and memory for all pairs.
ghost use Rattle.std.specs.Prelude.{◌≡◌, ◌+◌, ◌*◌, ◌++◌, sum_by, IfOk, IfSome, OnOk};
ghost use Rattle.striped_map.specs.Contents.{count_at, pairs_at, pairs_in};
ghost use Rattle.striped_map.specs.Rule.{Holds};
ghost use Rattle.striped_map.specs.Seats.{HoldsAll, IsOf, known, shard_in, stripes_of};
ghost use Rattle.striped_map.specs.Sound.{held_shards, with_shard};

use crate::hand::Numbers;
use crate::map::StripedMap;
use crate::seat::MapSeat;
use std::alloc::{AllocError, Global};

/// How many pairs the shards of the held stripes have, or `None` if 64 bits cannot count them.
pub(crate) fn count_of(map: &StripedMap, seat: &mut MapSeat, held: &Numbers) -> Option<u64>
    requires seat { IsOf seat.old map.now }
    requires held { HoldsAll (known seat.old) held.now.items }
    ensures seat { IsOf seat.new map.now }
    ensures known { known seat.new ≡ known seat.old }
    ensures shards { shard_in seat.new ≡ shard_in seat.old }
    ensures count { IfSome result (λ count. count
        ≡ sum_by count_at (held_shards seat.old held.now.items)) }
{
    let mut count: u64 = 0;
    for place in 0..held.len() {
        count = count.checked_add(map.count(seat, held.at(place)))?;
    }
    Some(count)
}

/// The key that has this sub-key in this stripe, if the key fits in 64 bits.
fn whole_key(stripes: u64, stripe: usize, sub_key: u64) -> Option<u64>
    ensures { IfSome result (λ key. key ≡ sub_key * stripes + stripe) }
{
    sub_key.checked_mul(stripes)?.checked_add(stripe as u64)
}

/// Adds the pairs of a stripe's shard to `pairs`, with their whole keys.
pub(crate) fn add_pairs(
    alloc: Global,
    map: &StripedMap,
    seat: &mut MapSeat,
    stripe: usize,
    pairs: &mut Vec<(u64, u64)>,
) -> Result<(), AllocError>
    requires seat { IsOf seat.old map.now }
    requires held { Holds (known seat.old) stripe }
    ensures seat { IsOf seat.new map.now }
    ensures known { known seat.new ≡ known seat.old }
    ensures shards { shard_in seat.new ≡ shard_in seat.old }
    ensures pairs { OnOk result (pairs.new.items ≡ pairs.old.items
        ++ pairs_at (stripes_of map.now) (with_shard (shard_in seat.old) stripe)) }
{
    let found = map.pairs(seat, alloc, stripe)?;
    let stripes = map.stripes() as u64;
    pairs.reserve(found.len())?;
    for place in 0..found.len() {
        let Some(key) = whole_key(stripes, stripe, found[place].0) else {
            return Err(AllocError);
        };
        pairs.push_reserved((key, found[place].1));
    }
    Ok(())
}

/// The pairs of the held stripes' shards, with their whole keys, one shard after the other.
pub(crate) fn pairs_of(
    alloc: Global,
    map: &StripedMap,
    seat: &mut MapSeat,
    held: &Numbers,
) -> Result<Vec<(u64, u64)>, AllocError>
    requires seat { IsOf seat.old map.now }
    requires held { HoldsAll (known seat.old) held.now.items }
    ensures seat { IsOf seat.new map.now }
    ensures known { known seat.new ≡ known seat.old }
    ensures shards { shard_in seat.new ≡ shard_in seat.old }
    ensures pairs { IfOk result (λ pairs. pairs.items
        ≡ pairs_in (stripes_of map.now) (held_shards seat.old held.now.items)) }
{
    let mut pairs = Vec::new(alloc);
    for place in 0..held.len() {
        add_pairs(alloc, map, seat, held.at(place), &mut pairs)?;
    }
    Ok(pairs)
}
