//! Probes over the slots. They are functions of the slots and not methods of the map, so that they
//! can be called while the map's other fields change. A probe reads each slot at most once, and
//! writes to none. If it returns `None`, no slot is empty, and none has the key.
ghost use Rattle.std.specs.Prelude.{◌≡◌, ℕ, ◌<◌, ◌≤◌, Some, None, true, false, length, IfSome, unwrap_or};
ghost use Rattle.stripe_shard.specs.Probes.{stops};
ghost use Rattle.stripe_shard.specs.Slots.{StopsAt, home, key_at};

use crate::hash::Hash;
use crate::slot::Slot;

/// 2^64 divided by the golden ratio. If keys are multiplied by this number, the high bits of the
/// products are spread well, even for consecutive keys.
const SPREAD: u64 = 0x9E37_79B9_7F4A_7C15;

/// The place where the probe for a key begins: a multiply-shift hash (Dietzfelbinger and others,
/// 1997). With a seed below 2^32, the homes of consecutive keys are apart.
#[inline(always)]
#[tactic(auto, unfolding(crate::specs::Slots::home))]
fn home_of(count: usize, hash: Hash, key: u64) -> usize
    ensures home { result ≡ home count hash key }
    ensures within { result ≤ count }
{
    let multiplier = SPREAD ^ hash.seed.wrapping_mul(2);
    let high = key.wrapping_mul(multiplier).wrapping_shr(hash.shift) as usize;
    if high < count { high } else { 0 }
}

/// The index of the first slot at which the probe for a key stops.
#[inline(always)]
fn first_stop(slots: &[Slot], key: u64) -> Option<usize>
    ensures some { IfSome result (λ i. i < length slots.now
        × (stops (key_at slots.now i) key ≡ true)) }
    ensures passed { (j : ℕ) → j < unwrap_or result (length slots.now)
        → stops (key_at slots.now j) key ≡ false }
{
    for (i, slot) in slots.iter().enumerate() {
        if slot.stops(key) {
            return Some(i);
        }
    }
    None
}

/// The place at which the probe for a key stops, if it begins at `start` and stops within one
/// round.
#[inline(always)]
fn probe(slots: &[Slot], start: usize, key: u64) -> Option<usize>
    requires { start ≤ length slots.now }
    ensures some { IfSome result (λ place. StopsAt slots.now start key place) }
    ensures none { result ≡ None → (j : ℕ) → j < length slots.now
        → stops (key_at slots.now j) key ≡ false }
{
    let (front, back) = slots.split_at(start);
    match first_stop(back, key) {
        Some(i) => Some(start + i),
        None => first_stop(front, key),
    }
}

/// The place at which the probe for a key stops, if it stops within one round.
#[inline(always)]
pub(crate) fn find(slots: &Vec<Slot>, hash: Hash, key: u64) -> Option<usize>
    ensures some { IfSome result (λ place.
        StopsAt slots.now.items (home (length slots.now.items) hash key) key place) }
    ensures none { result ≡ None → (j : ℕ) → j < length slots.now.items
        → stops (key_at slots.now.items j) key ≡ false }
{
    let slots = slots.as_slice();
    probe(slots, home_of(slots.len(), hash, key), key)
}
