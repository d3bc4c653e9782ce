//! The calls on a map as a whole. They make it and free it, count its keys and the entries of its
//! history, trim it, and help its table to grow. These calls need no transaction, so they are not in
//! `operations` or `transactions`. Only `boostmap_new` fills a map's handle, and only
//! `boostmap_free` empties it.
ghost use Rattle.std.specs.Prelude.{◌≡◌, Some, None};
ghost use Rattle.boost_core.specs.Plain.{Helps};
ghost use Rattle.boostmap_c.specs.Calls.{Frees, MakesMap, SetsBound, TellsEnd, TellsOf, Trims, entries_in, keys_in};

use crate::handle::{Handle, put_in, take_out};
use crate::held_map::HeldMap;
use crate::status::{DONE, EMPTY, FULL, refused, status_of};
use owned_map::OwnedMap;
use std::alloc::Global;
use txn_trace::{Limits, Refusal};

/// Makes a map without keys, for 1 to 64 callers, with 1 to 4096 stripes and at most `buckets`
/// buckets. `buckets` is a power of two from 2 to 65536. The table begins with two buckets, and
/// grows with the keys.
///
/// # Errors
///
/// On an error the handle is unchanged. The status is 4 if the handle has a map already, 38
/// (`Limit`) if a number is out of range, and 30 (`NoMemory`) if memory is refused.
///
/// # Cost
///
/// Time and memory in proportion to the callers, the stripes and the buckets.
#[unsafe(no_mangle)]
pub extern "C" fn boostmap_new(
    alloc: Global,
    map: &mut Handle,
    callers: u64,
    stripes: u64,
    buckets: u64,
) -> u32
    ensures { MakesMap map.old.held.map callers stripes buckets result map.new.held.map }
{
    if map.is_live() {
        return FULL;
    }
    let limits = match Limits::new(callers, stripes, buckets) {
        Ok(limits) => limits,
        Err(refusal) => return refused(refusal),
    };
    let made = match OwnedMap::new(alloc, limits) {
        Ok(made) => made,
        Err(refusal) => return refused(refusal),
    };
    let held = HeldMap {
        map: made,
        bound: 0,
    };
    let Ok(held) = Box::new(alloc, held) else {
        return refused(Refusal::NoMemory);
    };
    put_in(map, held);
    DONE
}

/// Frees the map, with all open transactions. The handle is then all zeros.
///
/// # Errors
///
/// The status is 3 if the handle has no map.
///
/// # Cost
///
/// Time in proportion to the nodes, the callers and the largest number of buckets; takes no memory.
#[unsafe(no_mangle)]
pub extern "C" fn boostmap_free(alloc: Global, map: &mut Handle) -> u32
    ensures { Frees map.old.held.map result map.new.held.map }
{
    match take_out(alloc, map) {
        Some(_held) => DONE,
        None => EMPTY,
    }
}

/// Writes the number of keys of the map, including the changes of open transactions.
///
/// # Errors
///
/// The status is 3 if the handle has no map.
#[unsafe(no_mangle)]
pub extern "C" fn boostmap_count(map: &mut Handle, word: &mut u64) -> u32
    ensures { TellsOf keys_in map.old.held.map result word.old word.new map.new.held.map }
{
    if !map.is_live() {
        return EMPTY;
    }
    let held = map.held.get_mut();
    *word = held.map.len();
    DONE
}

/// Writes the number of entries of the map's history. An entry takes 32 bytes.
///
/// # Errors
///
/// The status is 3 if the handle has no map.
#[unsafe(no_mangle)]
pub extern "C" fn boostmap_entries(map: &mut Handle, word: &mut u64) -> u32
    ensures { TellsOf entries_in map.old.held.map result word.old word.new map.new.held.map }
{
    if !map.is_live() {
        return EMPTY;
    }
    let held = map.held.get_mut();
    *word = held.map.core().trace().len() as u64;
    DONE
}

/// Trims the history: replaces it by one committed transaction, in which caller 0 puts the pairs of
/// the map. The map keeps its pairs. Transactions and commits are then numbered as if that
/// transaction were the first.
///
/// # Errors
///
/// On an error the map and its history are unchanged. The status is 3 if the handle has no map, 20
/// (`AlreadyOpen`) if a caller has a transaction, 30 (`NoMemory`) if memory is refused, and 32
/// (`StampsUsedUp`) if the map has 2^63 keys or more.
///
/// # Cost
///
/// The cost of `boostmap_new`, of a list of the pairs and of a put for each pair. While the call
/// runs, there is memory for the map twice, and for the list.
#[unsafe(no_mangle)]
pub extern "C" fn boostmap_trim(alloc: Global, map: &mut Handle) -> u32
    ensures { TellsEnd (λ bound old outcome new. Trims old outcome new) map.old.held.map result
        map.new.held.map }
{
    if !map.is_live() {
        return EMPTY;
    }
    let held = map.held.get_mut();
    let outcome = held.trim(alloc);
    status_of(outcome)
}

/// Says when the map trims its history by itself. From now on, the end of a transaction trims it if
/// the history then has more than `entries` entries, and more than four for each key, and no caller
/// has a transaction. If that trim is refused memory, the transaction has ended all the same, and
/// the history stays. If `entries` is 0, as for a new map, the map never trims by itself.
///
/// # Errors
///
/// The status is 3 if the handle has no map.
#[unsafe(no_mangle)]
pub extern "C" fn boostmap_trim_above(map: &mut Handle, entries: u64) -> u32
    ensures { SetsBound entries map.old.held.map result map.new.held.map }
{
    if !map.is_live() {
        return EMPTY;
    }
    let held = map.held.get_mut();
    held.bound = entries;
    DONE
}

/// Helps the table to grow beyond what it does by itself. If the table has more than two keys for
/// each bucket and is not at its largest size, doubles the table. Then initialises the bucket of a
/// key. No program needs this call.
///
/// # Errors
///
/// The status is one of these:
///
/// - 3 if the handle has no map.
/// - 28 (`NoSuchHelper`) if the map has no caller with this number. Nothing is done.
/// - 32 (`StampsUsedUp`) if no stamp is left.
/// - 30 (`NoMemory`) if memory is refused, or if the list has no place left.
///
/// After 30 or 32, a table that was doubled stays doubled, and buckets that were initialised stay
/// initialised.
///
/// # Cost
///
/// Initialises at most 16 buckets. Each takes time in proportion to the nodes that the search for
/// its place passes, and may take memory for its dummy and its segment.
#[unsafe(no_mangle)]
pub extern "C" fn boostmap_help(map: &mut Handle, caller: u64, key: u64) -> u32
    ensures { TellsEnd (λ bound old outcome new. Helps old caller key outcome new)
        map.old.held.map result map.new.held.map }
{
    if !map.is_live() {
        return EMPTY;
    }
    let held = map.held.get_mut();
    let outcome = held.map.help(caller, key);
    status_of(outcome)
}
