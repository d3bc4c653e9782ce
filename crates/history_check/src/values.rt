//! The map as it is now, kept in several sorted maps. A key is in the sorted map of its remainder.
//! This module gives a key's value, does an operation, and restores a key's value. Each sorted map
//! has few keys, so a look-up reads less memory than in one map of all keys. If all keys have the
//! same remainder, a look-up still takes only the logarithm of their number.
ghost use Rattle.std.specs.Prelude.{◌≡◌, Option, Some, None, IfOk, OnOk, OnErr, vec_len};
ghost use Rattle.txn_words.specs.Map.{Map, empty, get, after, set_at};

use std::alloc::{AllocError, Global};
use std::collections::BTreeMap;
use txn_trace::Op;

/// The number of sorted maps. It is a prime, so keys at equal distances from each other are also
/// spread over the maps.
const MAPS: u64 = 1021;

/// The values of the keys.
#[derive(Drop)]
pub(crate) struct Values {
    /// The map at index `r` has the values of the keys with remainder `r` on division by 1021.
    pub(crate) maps: Vec<BTreeMap<u64, u64>>,
    ghost all: { vec_len maps ≡ 1021 },
}

impl Values {
    ghost use Rattle.history_check.specs.Remainders.{Have};

    /// The values of a map without keys.
    pub(crate) fn new(alloc: Global) -> Result<Values, AllocError>
        ensures { IfOk result (Have empty) }
    {
        let mut maps = Vec::with_capacity(alloc, MAPS as usize)?;
        for _ in 0..MAPS {
            maps.push(BTreeMap::new(alloc))?;
        }
        Ok(Values { maps })
    }

    /// The value of a key. Costs the logarithm of the number of keys.
    #[inline(always)]
    pub(crate) fn get(&self, key: u64) -> Option<u64>
        ensures { (m : Map) → Have m self.now → result ≡ get m key }
    {
        self.maps[(key % MAPS) as usize].get(&key).copied()
    }

    /// Gives a key a value. Costs the logarithm of the number of keys.
    fn insert(&mut self, key: u64, value: u64) -> Result<(), AllocError>
        ensures ok { OnOk result ((m : Map) → Have m self.old →
            Have (set_at m key (Some value)) self.new) }
        ensures err { OnErr result ((m : Map) → Have m self.old → Have m self.new) }
    {
        self.maps[(key % MAPS) as usize].insert(key, value)?;
        Ok(())
    }

    /// Removes a key and its value. Costs the logarithm of the number of keys.
    fn remove(&mut self, key: u64)
        ensures { (m : Map) → Have m self.old → Have (set_at m key None) self.new }
    {
        self.maps[(key % MAPS) as usize].remove(&key);
    }

    /// Does an operation. Costs the logarithm of the number of keys.
    #[inline(always)]
    pub(crate) fn operate(&mut self, op: Op) -> Result<(), AllocError>
        ensures ok { OnOk result ((m : Map) → Have m self.old → Have (after m op) self.new) }
        ensures err { OnErr result ((m : Map) → Have m self.old → Have m self.new) }
    {
        match op {
            Op::Put(key, value) => self.insert(key, value)?,
            Op::Take(key) => self.remove(key),
            Op::Get(_) => {}
            Op::PutIf(key, expected, value) => {
                if self.get(key) == expected {
                    self.insert(key, value)?;
                }
            }
        }
        Ok(())
    }

    /// Takes back a change: gives the key the value `before`. If `before` is `None`, removes the
    /// key. Costs the logarithm of the number of keys.
    #[inline(always)]
    pub(crate) fn restore(&mut self, key: u64, before: Option<u64>) -> Result<(), AllocError>
        ensures ok { OnOk result ((m : Map) → Have m self.old →
            Have (set_at m key before) self.new) }
        ensures err { OnErr result ((m : Map) → Have m self.old → Have m self.new) }
    {
        match before {
            Some(value) => self.insert(key, value),
            None => {
                self.remove(key);
                Ok(())
            }
        }
    }
}
