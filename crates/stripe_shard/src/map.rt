//! The public type `ProbeMap`: the slots, how many more slots may be used, and how many have a
//! value. `probe.rt` only finds slots. The methods of this module fill, count and replace them.
//! Invariant: each key is at the slot where its probe stops, and the number of empty slots is at
//! least the number of slots that may still be used.
ghost use Rattle.std.specs.Prelude.{◌≡◌, ℕ, ◌+◌, ◌<◌, ◌≤◌, Option, IfOk, OnOk, OnErr, IfSome, length};
ghost use Rattle.std.specs.List.Sorted.{IsPermutation};
ghost use Rattle.txn_words.specs.Map.{count_of, empty, get, set_at};
ghost use Rattle.stripe_shard.specs.MapAt.{map_of, nothing};
ghost use Rattle.stripe_shard.specs.Slots.{most_used, pairs_of};

use crate::hash::Hash;
use crate::probe::find;
use crate::slot::Slot;
use std::alloc::{AllocError, Global};
use std::marker::Model;

/// A map of fewer keys than this grows to four times its size. If it doubled instead, all its
/// growths together would move three times as many keys. A larger map doubles, because an array of
/// four times the size would leave too much memory unused.
const FEW: usize = 1024;

/// A map from whole numbers to whole numbers.
///
/// A contract sees a `MapAt`: the content, which is a finite map, and the number of new keys for
/// which there is room.
///
/// # Cost
///
/// A map takes no memory until room is made, by `with_capacity` or `reserve`. A new array has at
/// least 4 slots of 24 bytes each. If `n` keys are in the map or reserved, it has at most `4 * n`
/// slots, or at most `8 * n` if `n` is below 1,024. The array shrinks only when it is rebuilt.
#[derive(Drop)]
pub struct ProbeMap {
    // How many of the empty slots may be used.
    room: usize,
    hash: Hash,
    slots: Vec<Slot>,
    // How many slots have a value.
    len: usize,
}

impl Model for ProbeMap {
    ghost use Rattle.stripe_shard.specs.MapAt.{MapAt, map_code, map_of};
    ghost use Rattle.stripe_shard.specs.Slots.{IsTable, pairs_of};

    ghost Value = { MapAt };

    ghost coded = { map_code };

    ghost view = { λ m. record { content = map_of (pairs_of m.slots.items); spare = m.room } };

    ghost invariant = { λ m. IsTable m.slots.items m.room m.len m.hash };
}

/// The number of slots in an array with room for this number of keys. With so many keys, at least
/// an eighth of the slots is empty.
fn count_for(keys: usize) -> Option<usize>
    ensures { IfSome result (λ count. keys ≤ most_used count) }
{
    keys.checked_mul(8)?
        .div_ceil(7)
        .max(4)
        .checked_next_power_of_two()
}

/// The number of keys for which a growing map makes room in its new array. Right after the growth,
/// at most half of the new slots have a key, or at most a quarter if the map has few keys.
fn grown(len: usize, more: usize) -> Option<usize>
    ensures { IfSome result (λ keys. len + more ≤ keys) }
{
    let keys = len.checked_add(more)?;
    let times = if keys < FEW { 14 } else { 7 };
    Some(keys.checked_mul(times)? / 4)
}

/// Puts the keys of `slots` that have values into `map`, which is empty.
fn put_all(map: &mut ProbeMap, slots: &[Slot])
    requires empty { map.old.content ≡ empty }
    requires room { length (pairs_of slots.now) ≤ map.old.spare }
    ensures content { map.new.content ≡ map_of (pairs_of slots.now) }
    ensures room { map.old.spare ≤ map.new.spare + length (pairs_of slots.now) }
{
    let mut left = slots.len();
    while left > 0 {
        left -= 1;
        match slots[left] {
            Slot::Empty => {}
            Slot::Removed(_) => {}
            Slot::Full(key, value) => {
                let _ = map.insert(key, value);
            }
        }
    }
}

/// The keys of `slots` that have values, each with its value.
fn list(alloc: Global, slots: &[Slot], len: usize) -> Result<Vec<(u64, u64)>, AllocError>
    ensures { IfOk result (λ pairs. pairs.items ≡ pairs_of slots.now) }
{
    let mut pairs = Vec::with_capacity(alloc, len)?;
    for slot in slots {
        match *slot {
            Slot::Empty => {}
            Slot::Removed(_) => {}
            Slot::Full(key, value) => pairs.push((key, value))?,
        }
    }
    Ok(pairs)
}

impl ProbeMap {
    /// An empty map with the seed 0.
    ///
    /// # Cost
    ///
    /// Constant time; takes no memory.
    pub fn new(alloc: Global) -> ProbeMap
        ensures { result ≡ nothing }
    {
        ProbeMap::with_seed(alloc, 0)
    }

    /// An empty map whose hash has this seed. A map behaves the same with any seed: only the time
    /// of a call depends on it.
    ///
    /// # Cost
    ///
    /// Constant time; takes no memory.
    pub fn with_seed(alloc: Global, seed: u64) -> ProbeMap
        ensures { result ≡ nothing }
    {
        ProbeMap {
            slots: Vec::new(alloc),
            room: 0,
            len: 0,
            hash: Hash { seed, shift: 0 },
        }
    }

    /// An empty map with the seed 0 and with room for this number of keys.
    ///
    /// # Errors
    ///
    /// Those of `with_capacity_and_seed`.
    ///
    /// # Cost
    ///
    /// That of `with_capacity_and_seed`.
    pub fn with_capacity(alloc: Global, keys: usize) -> Result<ProbeMap, AllocError>
        ensures empty { IfOk result (λ map. map.content ≡ empty) }
        ensures room { IfOk result (λ map. keys ≤ map.spare) }
    {
        ProbeMap::with_capacity_and_seed(alloc, keys, 0)
    }

    /// An empty map with room for this number of keys, whose hash has this seed.
    ///
    /// # Errors
    ///
    /// `AllocError` if memory is refused, or if there are more keys than any memory can hold.
    ///
    /// # Cost
    ///
    /// Time and memory in proportion to the number of keys. For 0 keys, constant time and no
    /// memory. For one key, the array has 4 slots. For more keys, it has fewer than 3 slots for
    /// each key.
    pub fn with_capacity_and_seed(
        alloc: Global,
        keys: usize,
        seed: u64,
    ) -> Result<ProbeMap, AllocError>
        ensures empty { IfOk result (λ map. map.content ≡ empty) }
        ensures room { IfOk result (λ map. keys ≤ map.spare) }
    {
        if keys == 0 {
            return Ok(ProbeMap::with_seed(alloc, seed));
        }
        let Some(count) = count_for(keys) else {
            return Err(AllocError);
        };
        let shift = count.leading_zeros().wrapping_add(1);
        Ok(ProbeMap {
            slots: vec![in alloc; Slot::Empty; count]?,
            room: count - count / 8,
            len: 0,
            hash: Hash { seed, shift },
        })
    }

    /// The value of a key.
    ///
    /// # Cost
    ///
    /// Constant time on average, unless the homes of many keys collide. Whoever knows the seed can
    /// choose such keys, and without the seed it is harder.
    #[inline(always)]
    pub fn get(&self, key: u64) -> Option<u64>
        ensures { result ≡ get self.now.content key }
    {
        let Some(place) = find(&self.slots, self.hash, key) else {
            return None;
        };
        self.slots[place].value()
    }

    /// How many keys there are. Constant time.
    pub fn len(&self) -> usize
        ensures { result ≡ count_of self.now.content }
    {
        self.len
    }

    /// Gives a key a value, and returns the value that the key had. There must be room for one more
    /// key (`reserve`).
    ///
    /// # Cost
    ///
    /// The cost of `get`. Takes no memory.
    #[inline(always)]
    pub fn insert(&mut self, key: u64, value: u64) -> Option<u64>
        requires { 0 < self.old.spare }
        ensures before { result ≡ get self.old.content key }
        ensures content { self.new.content ≡ set_at self.old.content key (Option.Some value) }
        ensures spare { self.old.spare ≤ self.new.spare + 1 }
    {
        let Some(place) = find(&self.slots, self.hash, key) else {
            unreachable!();
        };
        let slot = self.slots[place];
        let before = slot.value();
        self.slots[place] = Slot::Full(key, value);
        self.room -= usize::from(slot.is_empty());
        self.len += usize::from(before.is_none());
        before
    }

    /// Removes a key, and returns the value that it had.
    ///
    /// # Cost
    ///
    /// The cost of `get`. Takes no memory, and frees none.
    #[inline(always)]
    pub fn remove(&mut self, key: u64) -> Option<u64>
        ensures before { result ≡ get self.old.content key }
        ensures content { self.new.content ≡ set_at self.old.content key Option.None }
        ensures spare { self.old.spare ≤ self.new.spare }
    {
        let Some(place) = find(&self.slots, self.hash, key) else {
            return None;
        };
        let Slot::Full(_, before) = self.slots[place] else {
            return None;
        };
        self.slots[place] = Slot::Removed(key);
        self.len -= 1;
        Some(before)
    }

    /// Makes room for this number of new keys.
    ///
    /// # Errors
    ///
    /// `AllocError` if memory is refused, or if there are more keys than any memory can hold. In
    /// both cases the map is unchanged.
    ///
    /// # Cost
    ///
    /// Constant time if there is room. Otherwise, this takes the time of a walk over the slots, and
    /// time and memory for a new array. This amounts to amortized constant time for each new key.
    #[inline(always)]
    pub fn reserve(&mut self, keys: usize) -> Result<(), AllocError>
        ensures content { self.new.content ≡ self.old.content }
        ensures room { OnOk result (keys ≤ self.new.spare) }
        ensures spare { self.old.spare ≤ self.new.spare }
        ensures err { OnErr result (self.new ≡ self.old) }
    {
        if keys <= self.room {
            return Ok(());
        }
        self.rebuild(keys)
    }

    /// Moves the keys that have values into a new array, with room for `more` new keys.
    #[cold]
    #[inline(never)]
    fn rebuild(&mut self, more: usize) -> Result<(), AllocError>
        ensures content { self.new.content ≡ self.old.content }
        ensures room { OnOk result (more ≤ self.new.spare) }
        ensures err { OnErr result (self.new ≡ self.old) }
    {
        let Some(keys) = grown(self.len, more) else {
            return Err(AllocError);
        };
        let alloc = *self.slots.allocator();
        let mut later = ProbeMap::with_capacity_and_seed(alloc, keys, self.hash.seed)?;
        put_all(&mut later, &self.slots);
        *self = later;
        Ok(())
    }

    /// The keys with their values, in no particular order.
    ///
    /// # Errors
    ///
    /// `AllocError` if memory is refused.
    ///
    /// # Cost
    ///
    /// Memory in proportion to the number of keys, and the time of a walk over the slots.
    pub fn pairs(&self, alloc: Global) -> Result<Vec<(u64, u64)>, AllocError>
        ensures { IfOk result (λ pairs. IsPermutation self.now.content.rows pairs.items) }
    {
        list(alloc, &self.slots, self.len)
    }
}
