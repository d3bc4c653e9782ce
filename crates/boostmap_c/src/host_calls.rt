//! The calls on the host of a striped map. If the map keeps its entries, the host hands out its
//! history: the host merges the callers that `boostmap_striped_free` has dropped.
ghost use Rattle.std.specs.Prelude.{◌≡◌, Some, None, IfOk, IfErr};
ghost use Rattle.boostmap_c.specs.Keepers.{Frees, GivesHost, KeepsRest, LeavesGroup, TellsAll};

use crate::c_entry::CEntry;
use crate::history::lay_entries;
use crate::host_handle::{HostHandle, put_in, take_out};
use crate::keeper::Keeper;
use crate::member::Group;
use crate::member_handle::CallerHandle;
use crate::status::{DONE, EMPTY, FULL, NO_HOST, refused};
use crate::stops::tell_no_history;
use std::alloc::Global;
use txn_trace::Refusal;

/// Moves the host out of the group, into a keeper. On an error, returns the status.
fn keep_host(alloc: Global, group: &mut Group) -> Result<Box<Keeper, Global>, u32>
    ensures rest { KeepsRest group.old group.new }
    ensures ok { IfOk result (λ made. LeavesGroup group.old.host 0 group.new.host (Some made.value)) }
    ensures err { IfErr result (λ status. LeavesGroup group.old.host status group.new.host None) }
{
    let Some(host) = group.host.take() else {
        return Err(NO_HOST);
    };
    match Box::new(alloc, Keeper { host }) {
        Ok(keeper) => Ok(keeper),
        Err(failed) => {
            group.host = Some(failed.value.into_host());
            Err(refused(Refusal::NoMemory))
        }
    }
}

/// Moves the host of a map out of the handle of its first caller, into a handle of its own. It may
/// be in use by another thread than the callers.
///
/// # Errors
///
/// On an error both handles are unchanged. The status is 4 if the second handle has a host already,
/// 3 if the first handle has no caller, 10 if this caller is not the first of its map, or the host
/// has a handle already, and 30 (`NoMemory`) if memory is refused.
///
/// # Cost
///
/// Constant time and memory.
#[unsafe(no_mangle)]
pub extern "C" fn boostmap_striped_host(
    alloc: Global,
    first: &mut CallerHandle,
    host: &mut HostHandle,
) -> u32
    ensures { GivesHost first.old.held.member host.old.held.keeper result first.new.held.member
        host.new.held.keeper }
{
    if host.is_live() {
        return FULL;
    }
    if !first.is_live() {
        return EMPTY;
    }
    let member = first.held.get_mut();
    let made = keep_host(alloc, &mut member.group);
    match made {
        Ok(keeper) => {
            put_in(host, keeper);
            DONE
        }
        Err(status) => status,
    }
}

/// Writes the whole history of the map to the front of an array, oldest entry first. The word is
/// the number of entries. The map must keep its entries, and each caller must have ended, by
/// `boostmap_striped_free`. Members of an entry that its kind does not have are 0.
///
/// The history is legal, and has exactly the entries of the map's callers and of its host.
///
/// # Errors
///
/// On an error the array is unchanged, and a later call can succeed. The status is one of these:
///
/// - 3 if the handle has no host.
/// - 11 if the map does not keep its entries.
/// - 12 if a caller has not ended. The word is the number of such a caller.
/// - 7 if the array has too few places. The word is the number of places that are needed.
/// - 30 (`NoMemory`) if memory is refused.
///
/// # Cost
///
/// A step with atomic loads for each caller, and time and memory in proportion to the history.
#[unsafe(no_mangle)]
pub extern "C" fn boostmap_host_history(
    host: &mut HostHandle,
    entries: &mut [CEntry],
    word: &mut u64,
) -> u32
    ensures { TellsAll host.old.held.keeper result entries.old entries.new word.old word.new
        host.new.held.keeper }
{
    if !host.is_live() {
        return EMPTY;
    }
    let keeper = host.held.get_mut();
    let answer = keeper.host.history();
    match answer {
        Ok(all) => lay_entries(&all, entries, word),
        Err(why) => tell_no_history(why, word),
    }
}

/// Frees the host, with the callers that it has merged. The handle is then all zeros.
///
/// # Errors
///
/// The status is 3 if the handle has no host.
///
/// # Cost
///
/// Time in proportion to the entries of the merged callers; takes no memory.
#[unsafe(no_mangle)]
pub extern "C" fn boostmap_host_free(alloc: Global, host: &mut HostHandle) -> u32
    ensures { Frees host.old.held.keeper result host.new.held.keeper }
{
    match take_out(alloc, host) {
        Some(_keeper) => DONE,
        None => EMPTY,
    }
}
