//! Tests of `ProbeMap`: drawn calls that are compared with a plain list, keys that share a home,
//! growth, removed keys, and refused allocations. The contracts allow the map to refuse room even
//! while memory is free. The slots are private, so no test can look at a slot. A key's home is the
//! slot at which a probe for the key begins. To test the first and the last slot, the tests use
//! keys whose homes are these slots.
use crate::draws::{Draws, draw};
use std::alloc::{AllocError, Global};
use std::process::Abort;
use std::test::Fail;
use stripe_shard::ProbeMap;

/// The product of this key and the map's multiplier is 1, modulo 2^64. So the home of a small
/// multiple of this key is the first slot, and the home of the negative of a small multiple is the
/// last slot.
const APART: u64 = 0xf1de_83e1_9937_733d;

/// Makes room for a key. If memory is refused, the map must be unchanged, and the call is made once
/// more.
fn reserve_again(rt: &impl Abort, map: &mut ProbeMap, key: u64) -> Result<(), AllocError> {
    let seen = (map.len(), map.get(key));
    match map.reserve(1) {
        Ok(()) => Ok(()),
        Err(AllocError) => {
            assert!(rt; (map.len(), map.get(key)) == seen);
            map.reserve(1)
        }
    }
}

/// Puts a value at a key.
fn put(rt: &impl Abort, map: &mut ProbeMap, key: u64, value: u64) -> Result<Option<u64>, Fail> {
    reserve_again(rt, map, key)?;
    put_reserved(map, key, value)
}

/// Makes room for a key, and puts a value at the key. Fails if memory is refused.
fn put_reserved(map: &mut ProbeMap, key: u64, value: u64) -> Result<Option<u64>, Fail> {
    map.reserve(1)?;
    Ok(map.insert(key, value))
}

fn take(map: &mut ProbeMap, key: u64) -> Option<u64> {
    map.remove(key)
}

/// The pairs in the order of their keys. If memory is refused, tries once more.
fn rows_of(alloc: Global, map: &ProbeMap) -> Result<Vec<(u64, u64)>, Fail> {
    let mut pairs = match map.pairs(alloc) {
        Ok(pairs) => pairs,
        Err(AllocError) => map.pairs(alloc)?,
    };
    if pairs.sort().is_err() {
        pairs.sort()?;
    }
    Ok(pairs)
}

/// The value that a plain list has at a key.
fn plain_get(plain: &Vec<(u64, u64)>, key: u64) -> Option<u64> {
    for pair in plain {
        if pair.0 == key {
            return Some(pair.1);
        }
    }
    None
}

/// Takes a key out of a plain list.
fn plain_take(plain: &mut Vec<(u64, u64)>, key: u64) -> Option<u64> {
    let before = plain_get(plain, key);
    plain.retain(|pair| pair.0 != key);
    before
}

/// Makes one drawn call on the map and the plain list: half of the calls are puts, a quarter are
/// takes, and a quarter are gets.
fn step_both(
    rt: &impl Abort,
    draws: &mut Draws,
    key: u64,
    map: &mut ProbeMap,
    plain: &mut Vec<(u64, u64)>,
) -> Result<(), Fail> {
    match draw(draws, 4) {
        0 => {
            let value = map.get(key);
            assert!(rt; value == plain_get(plain, key));
        }
        1 => {
            let before = take(map, key);
            assert!(rt; before == plain_take(plain, key));
        }
        _ => {
            let value = draw(draws, 1_000);
            let before = put(rt, map, key, value)?;
            assert!(rt; before == plain_take(plain, key));
            plain.push((key, value))?;
        }
    }
    assert!(rt; map.len() == plain.len());
    Ok(())
}

/// Checks that the map and the plain list have the same pairs.
fn is_alike(
    rt: &impl Abort,
    alloc: Global,
    map: &ProbeMap,
    plain: &mut Vec<(u64, u64)>,
) -> Result<(), Fail> {
    let rows = rows_of(alloc, map)?;
    plain.sort()?;
    assert!(rt; rows.as_slice() == plain.as_slice());
    Ok(())
}

/// Draws one of a few keys: a low key, a key whose home is the first or the last slot, or a high
/// key.
fn draw_key(draws: &mut Draws, keys: u64) -> u64 {
    let number = draw(draws, keys);
    match draw(draws, 4) {
        0 => number,
        1 => number.wrapping_mul(APART),
        2 => u64::MAX.wrapping_sub(number).wrapping_mul(APART),
        _ => u64::MAX.wrapping_sub(number),
    }
}

/// Makes 4,000 drawn calls on the map and the plain list, and compares the two.
fn step_often(
    rt: &impl Abort,
    alloc: Global,
    draws: &mut Draws,
    keys: u64,
    map: &mut ProbeMap,
    plain: &mut Vec<(u64, u64)>,
) -> Result<(), Fail> {
    for _ in 0..4_000 {
        let key = draw_key(draws, keys);
        step_both(rt, draws, key, map, plain)?;
    }
    is_alike(rt, alloc, map, plain)
}

fn run_drawn(rt: &impl Abort, alloc: Global, seed: u64, keys: u64) -> Result<(), Fail> {
    let mut map = ProbeMap::new(alloc);
    step_often(
        rt,
        alloc,
        &mut Draws(seed),
        keys,
        &mut map,
        &mut Vec::new(alloc),
    )
}

#[test]
fn drawn_calls_beside_a_plain_list(rt: HostRuntime) -> Result<(), Fail> {
    for keys in [1, 4, 30, 200] {
        for seed in 0..4 {
            run_drawn(&rt, rt.alloc(), seed, keys)?;
        }
    }
    Ok(())
}

/// Puts a hundred keys and takes the first fifty.
fn put_and_take(rt: &impl Abort, map: &mut ProbeMap) -> Result<(), Fail> {
    for key in 0..100 {
        let before = put(rt, map, key, key)?;
        assert!(rt; before == None);
    }
    for key in 0..50 {
        assert!(rt; take(map, key) == Some(key));
    }
    assert!(rt; map.len() == 50);
    Ok(())
}

/// Checks that these are the fifty pairs that remain after `put_and_take`.
fn are_left(rt: &impl Abort, rows: &[(u64, u64)]) {
    assert!(rt; rows.len() == 50);
    for (place, pair) in rows.iter().enumerate() {
        assert!(rt; pair.0 == 50 + place as u64 && pair.1 == pair.0);
    }
}

fn put_and_look(rt: &impl Abort, alloc: Global, map: &mut ProbeMap) -> Result<(), Fail> {
    put_and_take(rt, map)?;
    are_left(rt, rows_of(alloc, map)?.as_slice());
    Ok(())
}

/// This test is also run with each allocation refused in turn.
#[test]
fn refused_memory(rt: HostRuntime) -> Result<(), Fail> {
    put_and_look(&rt, rt.alloc(), &mut ProbeMap::new(rt.alloc()))
}

/// Puts 100,000 keys, and takes each key when ten more keys have been put after it.
fn put_and_remove(rt: &impl Abort, map: &mut ProbeMap) -> Result<(), Fail> {
    for key in 0..100_000u64 {
        let before = put_reserved(map, key, key)?;
        assert!(rt; before == None);
        if let Some(oldest) = key.checked_sub(10) {
            assert!(rt; take(map, oldest) == Some(oldest));
        }
    }
    assert!(rt; map.len() == 10);
    Ok(())
}

/// The map reuses the room of removed keys. The test puts 100,000 keys, but at most eleven of them
/// are in the map at a time. tests/refused.py checks that the largest allocation is one for 64
/// slots.
#[test]
fn removed_keys(rt: HostRuntime) -> Result<(), Fail> {
    put_and_remove(&rt, &mut ProbeMap::new(rt.alloc()))
}

/// Puts a million rising keys, and looks at them.
fn put_rising(rt: &impl Abort, map: &mut ProbeMap) -> Result<(), Fail> {
    for key in 0..1_000_000 {
        let before = put_reserved(map, key, key)?;
        assert!(rt; before == None);
    }
    for key in 0..1_000_000 {
        let value = map.get(key);
        assert!(rt; value == Some(key));
    }
    assert!(rt; map.len() == 1_000_000);
    Ok(())
}

/// The test puts a million rising keys. It ends in time only if the map grows and the homes of
/// consecutive keys are apart.
#[test]
fn rising_keys(rt: HostRuntime) -> Result<(), Fail> {
    put_rising(&rt, &mut ProbeMap::new(rt.alloc()))
}
