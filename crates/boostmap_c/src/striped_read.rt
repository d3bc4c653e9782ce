//! Reads the content of a striped map. A transaction that counts or reads the whole map takes every
//! stripe. This takes time in proportion to the stripes. The read also walks over each stripe's
//! hash map, and sorts the pairs. After such a call that returns 0 or 7, the transaction holds every
//! stripe. Until this transaction ends, no operation of another caller succeeds.
ghost use Rattle.boostmap_c.specs.Members.{TellsNumber, TellsPairs};
ghost use Rattle.striped_map.specs.Calls.{Counts, ReadsAll, ReadsStripe};

use crate::member_handle::CallerHandle;
use crate::read::CPair;
use crate::status::EMPTY;
use crate::stops::{tell_number, tell_pairs};

/// Takes every stripe. The word is the number of keys of the map, including the transaction's own
/// changes. The stripes stay held until the transaction ends.
///
/// # Errors
///
/// The status is one of these:
///
/// - 3 if the handle has no caller.
/// - 2 if another caller held a stripe. The word is that caller's number. The transaction is then
///   aborted, and all its changes are taken back.
/// - 19 (`NotOpen`) if the caller has no transaction.
/// - 30 (`NoMemory`) if memory is refused, or if 64 bits cannot count the pairs. The transaction is
///   then unchanged, but it may hold more stripes.
///
/// # Cost
///
/// The cost of `striped_map::Caller::len`.
#[unsafe(no_mangle)]
pub extern "C" fn boostmap_striped_count(caller: &mut CallerHandle, word: &mut u64) -> u32
    ensures { TellsNumber Counts caller.old.held.member result word.old word.new
        caller.new.held.member }
{
    if !caller.is_live() {
        return EMPTY;
    }
    let member = caller.held.get_mut();
    let answer = member.caller.len();
    member.counts.see(&answer);
    tell_number(answer, word)
}

/// Takes every stripe, and writes the pairs of the map, including the transaction's own changes, to
/// the front of an array, by rising keys. The word is the number of pairs. The stripes stay held
/// until the transaction ends.
///
/// # Errors
///
/// The errors of `boostmap_striped_count`, and 7 if the array has too few places. After 7 the word
/// is the number of places that are needed. The array is unchanged after each error.
///
/// # Cost
///
/// The cost of `striped_map::Caller::pairs`, and memory in proportion to the pairs while it runs.
#[unsafe(no_mangle)]
pub extern "C" fn boostmap_striped_read(
    caller: &mut CallerHandle,
    pairs: &mut [CPair],
    word: &mut u64,
) -> u32
    ensures { TellsPairs ReadsAll caller.old.held.member result pairs.old pairs.new
        word.old word.new caller.new.held.member }
{
    if !caller.is_live() {
        return EMPTY;
    }
    let member = caller.held.get_mut();
    let answer = member.caller.pairs();
    member.counts.see(&answer);
    tell_pairs(answer, pairs, word)
}

/// Takes the stripe of a key, and writes the pairs of the map whose keys are in this stripe,
/// including the transaction's own changes, to the front of an array, by rising keys. The word is
/// the number of pairs. The stripe stays held until the transaction ends.
///
/// The keys below the number of stripes are in different stripes. So a walk over them reads each
/// pair of the map once.
///
/// # Errors
///
/// The errors of `boostmap_striped_get`, and 7 if the array has too few places. After 7 the word is
/// the number of places that are needed. The array is unchanged after each error.
///
/// # Cost
///
/// The cost of `striped_map::Caller::pairs_with`.
#[unsafe(no_mangle)]
pub extern "C" fn boostmap_striped_read_stripe(
    caller: &mut CallerHandle,
    key: u64,
    pairs: &mut [CPair],
    word: &mut u64,
) -> u32
    ensures { TellsPairs (ReadsStripe key) caller.old.held.member result pairs.old pairs.new
        word.old word.new caller.new.held.member }
{
    if !caller.is_live() {
        return EMPTY;
    }
    let member = caller.held.get_mut();
    let answer = member.caller.pairs_with(key);
    member.counts.see(&answer);
    tell_pairs(answer, pairs, word)
}
