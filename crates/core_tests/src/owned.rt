//! Tests of the map with one owner: its table grows, its history is cut off, and a transaction goes
//! back to a savepoint. Each of these tests is also run while memory is refused to some
//! allocations: to one, to eight in a row, or to one and all later ones. `other_maps` of
//! `striped_tests` plays the worked runs on this map, and its limits. Each function that gets a
//! transaction ensures `Keeps`, because a closure that is passed to `transact` must ensure it.
ghost use Rattle.std.specs.Prelude.{◌≡◌};
ghost use Rattle.owned_map.specs.Keeps.{Keeps};

use boost_core::Core;
use owned_map::{OwnedMap, Stop, Transaction};
use std::alloc::Global;
use std::process::Abort;
use txn_words::{Limits, Refusal, Reply};

/// How many keys are put. The keys are 0, 3, 6 and so on.
const KEYS: u64 = 40;

/// Makes a map with two callers, if there is memory for it.
fn map_of(rt: &impl Abort, alloc: Global) -> Option<OwnedMap> {
    OwnedMap::new(alloc, Limits::new(2, 8, 64).expect(rt, "limits in range")).ok()
}

/// A call of a transaction.
#[derive(Clone, Copy)]
enum Call {
    /// Puts a value at a key.
    Put(u64, u64),
    /// Gets the value of a key.
    Get(u64),
    /// Replies 1 if the key is in the map.
    Has(u64),
    /// Puts the last value at a key if the key has the expected value. Replies 1 if it was put.
    Swap(u64, Option<u64>, u64),
    Save,
    Back(u64),
}

fn make_call(t: &mut Transaction<'_>, call: Call) -> Result<Reply, Stop>
    ensures { Keeps t.old t.new }
{
    match call {
        Call::Put(key, value) => t.put(key, value),
        Call::Get(key) => t.get(key),
        Call::Has(key) => Ok(t.contains_key(key)?.then_some(1)),
        Call::Swap(key, expected, value) => Ok(t.swap(key, expected, value)?.0.then_some(1)),
        Call::Save => Ok(Some(t.save()?)),
        Call::Back(level) => {
            t.back(level)?;
            Ok(None)
        }
    }
}

/// Makes two calls, the second one only if the first was done.
#[tactic(auto, using(owned_map::proofs::Calls::keeps_on))]
fn make_two(t: &mut Transaction<'_>, first: Call, second: Call) -> Result<Reply, Stop>
    ensures { Keeps t.old t.new }
{
    make_call(t, first)?;
    make_call(t, second)
}

/// Puts 1 at a key, sets a savepoint, puts 2 at the key, and goes back to the savepoint.
#[tactic(auto, using(owned_map::proofs::Calls::keeps_on))]
fn put_and_go_back(t: &mut Transaction<'_>, key: u64) -> Result<Reply, Stop>
    ensures { Keeps t.old t.new }
{
    make_two(t, Call::Put(key, 1), Call::Save)?;
    make_two(t, Call::Put(key, 2), Call::Back(1))
}

/// Makes a call in a transaction of a caller.
fn call_in(map: &mut OwnedMap, caller: u64, call: Call) -> Result<Reply, Stop> {
    map.transact(caller, |t: &mut Transaction<'_>| make_call(t, call))
}

/// Cuts the history off, and returns how many entries were cut off.
fn trim(alloc: Global, map: &mut OwnedMap) -> Result<u64, Refusal> {
    match map.trim(alloc) {
        Ok(old) => Ok(length_of(&old)),
        Err(refusal) => Err(refusal),
    }
}

/// The number of entries of a core's history.
fn length_of(core: &Core) -> u64 {
    core.trace().len() as u64
}

/// The numbers of keys and of buckets, and whether there is no key.
fn counts_of(map: &OwnedMap) -> (u64, u32, bool) {
    (map.len(), map.buckets(), map.is_empty())
}

/// The number of entries of the history.
fn entries_in(map: &OwnedMap) -> u64 {
    length_of(map.core())
}

/// The pairs of a map, if there is memory for their list.
type Pairs = Option<Vec<(u64, u64)>>;

/// The pairs of the map in the order of its list, or `None` if memory for them is refused.
fn pairs_of(alloc: Global, map: &OwnedMap) -> Pairs {
    map.core().regular_list(alloc).ok()
}

/// Puts the keys, one after the other. Stops if memory is refused for one of them. Returns how many
/// keys were put.
fn fill(rt: &impl Abort, map: &mut OwnedMap) -> u64 {
    for done in 0..KEYS {
        match call_in(map, 0, Call::Put(done.wrapping_mul(3), done)) {
            Ok(reply) => assert_eq!(rt; reply, None),
            Err(stop) => {
                assert_eq!(rt; stop, Stop::Refused(Refusal::NoMemory));
                assert_eq!(rt; counts_of(map).0, done);
                return done;
            }
        }
    }
    KEYS
}

/// Checks that the map has exactly the first `count` keys.
fn has_keys(rt: &impl Abort, map: &mut OwnedMap, count: u64) {
    for key in 0..KEYS.wrapping_mul(3) {
        let is_there = key % 3 == 0 && key / 3 < count;
        match call_in(map, 1, Call::Has(key)) {
            Ok(found) => assert_eq!(rt; found, is_there.then_some(1), "at {key}"),
            Err(stop) => assert_eq!(rt; stop, Stop::Refused(Refusal::NoMemory)),
        }
    }
    assert_eq!(rt; counts_of(map).0, count);
}

/// Fills a map, and checks its counts before and after.
fn grow(rt: &impl Abort, map: &mut OwnedMap) {
    assert_eq!(rt; counts_of(map), (0, 2, true));
    let count = fill(rt, map);
    if count == KEYS {
        // Every two keys need one more initialised bucket. If all buckets are initialised already,
        // the table doubles: at 6, 10, 18 and 34 keys.
        assert_eq!(rt; counts_of(map), (40, 32, false));
    }
    has_keys(rt, map, count);
}

#[test]
fn the_table_grows_by_itself(rt: HostRuntime) {
    if let Some(mut map) = map_of(&rt, rt.alloc()) {
        grow(&rt, &mut map);
    }
}

/// Cuts the history off, and checks the number of entries before and after. If memory is refused,
/// nothing changes.
fn trim_in(rt: &impl Abort, alloc: Global, map: &mut OwnedMap) {
    let entries = entries_in(map);
    let count = counts_of(map).0;
    match trim(alloc, map) {
        Ok(old) => {
            assert_eq!(rt; old, entries);
            // The new history has a begin, a commit, and two entries for each pair.
            assert_eq!(rt; entries_in(map), count.wrapping_mul(2).wrapping_add(2));
        }
        Err(refusal) => {
            assert_eq!(rt; refusal, Refusal::NoMemory);
            assert_eq!(rt; entries_in(map), entries);
        }
    }
}

/// Checks that both lists have the same pairs, if there was memory for both.
fn are_same(rt: &impl Abort, before: &Pairs, after: &Pairs) {
    if let (Some(before), Some(after)) = (before, after) {
        assert!(rt; after.as_slice() == before.as_slice());
    }
}

/// Cuts the history off, and checks that the pairs are unchanged.
fn trim_beside(rt: &impl Abort, alloc: Global, map: &mut OwnedMap) {
    let before = pairs_of(alloc, map);
    trim_in(rt, alloc, map);
    are_same(rt, &before, &pairs_of(alloc, map));
}

/// Fills a map, and cuts its history off.
fn fill_and_trim(rt: &impl Abort, alloc: Global, map: &mut OwnedMap) {
    let count = fill(rt, map);
    trim_beside(rt, alloc, map);
    has_keys(rt, map, count);
}

#[test]
fn a_history_is_cut_off(rt: HostRuntime) {
    if let Some(mut map) = map_of(&rt, rt.alloc()) {
        fill_and_trim(&rt, rt.alloc(), &mut map);
    }
}

/// Goes back to a savepoint in a transaction, and checks the value of key 7 and the number of keys.
/// If memory is refused, the map must have no key.
fn go_back(rt: &impl Abort, map: &mut OwnedMap) {
    let is_back = match map.transact(0, |t: &mut Transaction<'_>| put_and_go_back(t, 7)) {
        Ok(_) => true,
        Err(stop) => {
            assert_eq!(rt; stop, Stop::Refused(Refusal::NoMemory));
            false
        }
    };
    match call_in(map, 0, Call::Get(7)) {
        Ok(reply) => assert_eq!(rt; reply, is_back.then_some(1)),
        Err(stop) => assert_eq!(rt; stop, Stop::Refused(Refusal::NoMemory)),
    }
    assert_eq!(rt; counts_of(map).0, u64::from(is_back));
}

#[test]
fn a_savepoint_is_gone_back_to(rt: HostRuntime) {
    if let Some(mut map) = map_of(&rt, rt.alloc()) {
        go_back(&rt, &mut map);
    }
}

/// Swaps at one key, each in a transaction: the expected value, the other value, and whether it is
/// put.
const SWAPS: [(Option<u64>, u64, bool); 6] = [
    (Some(0), 1, false),
    (None, 0, true),
    (None, 1, false),
    (Some(u64::MAX), 1, false),
    (Some(0), u64::MAX, true),
    (Some(u64::MAX), 0, true),
];

#[test]
fn a_swap_compares_with_the_expected_value(rt: HostRuntime) {
    let mut map = map_of(&rt, rt.alloc()).expect(&rt, "a map");
    for (expected, value, is_put) in SWAPS {
        let told = call_in(&mut map, 0, Call::Swap(u64::MAX, expected, value));
        assert!(rt; told == Ok(is_put.then_some(1)));
    }
}
