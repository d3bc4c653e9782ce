//! Writes the content of a map into an array that belongs to C: all pairs if there is room for
//! them, and none otherwise. The module `striped_read` also calls `lay_all`, so C has one type of
//! pairs. `boostmap_read` takes memory for the pairs, and frees it before it returns.
ghost use Rattle.std.specs.Prelude.{◌≡◌, ◌≤◌, length};
ghost use Rattle.boostmap_c.specs.Contents.{LaysOf, Lie, Reads};

use crate::handle::Handle;
use crate::status::{DONE, EMPTY, SHORT, refused};
use std::alloc::Global;
use txn_trace::Refusal;

/// A key and its value.
#[repr(C)]
#[derive(Clone, Copy)]
pub struct CPair {
    pub key: u64,
    pub value: u64,
}

/// Writes the present pairs of the map, including the changes of open transactions, to the front of
/// an array. The word is the number of pairs. The pairs are in the order of the map's list, which
/// is the order of their keys' reversed bits.
///
/// # Errors
///
/// On an error the array is unchanged. The status is 3 if the handle has no map, 30 (`NoMemory`) if
/// memory is refused, and 7 if the array has too few places. After 7 the word is the number of
/// places that are needed.
///
/// # Cost
///
/// Time in proportion to the nodes, and memory in proportion to the pairs while it runs.
#[unsafe(no_mangle)]
pub extern "C" fn boostmap_read(
    alloc: Global,
    map: &mut Handle,
    pairs: &mut [CPair],
    word: &mut u64,
) -> u32
    ensures { Reads map.old.held.map result pairs.old pairs.new word.old word.new
        map.new.held.map }
{
    if !map.is_live() {
        return EMPTY;
    }
    let held = map.held.get_mut();
    let Ok(listed) = held.map.core().regular_list(alloc) else {
        return refused(Refusal::NoMemory);
    };
    lay_all(&listed, pairs, word)
}

/// Writes the number of these pairs to the word. If the array has room for the pairs, writes them
/// to the array's front. Returns the status.
pub(crate) fn lay_all(listed: &[(u64, u64)], pairs: &mut [CPair], word: &mut u64) -> u32
    ensures { LaysOf listed.now result pairs.old pairs.new word.new }
{
    *word = listed.len() as u64;
    if listed.len() > pairs.len() {
        return SHORT;
    }
    lay(listed, pairs);
    DONE
}

/// Writes pairs to the front of an array that has room for them.
fn lay(listed: &[(u64, u64)], pairs: &mut [CPair])
    requires room { length listed.now ≤ length pairs.old }
    ensures { Lie listed.now pairs.old pairs.new }
{
    'lays: for i in 0..listed.len() {
        let (key, value) = listed[i];
        pairs[i] = CPair { key, value };
    }
}
