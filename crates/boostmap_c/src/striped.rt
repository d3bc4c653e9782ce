//! Opens and frees a striped map for C. Each caller of the map gets a handle of its own, and the
//! map is freed with its last caller. Only the calls of this module fill and empty a caller's
//! handle. A join hands out a caller that was made when the map was opened, so it takes memory only
//! for its member. Any caller can make another later.
ghost use Rattle.std.specs.Prelude.{◌≡◌, ◌≤◌, ◌++◌, [], ◌∷◌, IfOk, IfErr, OnOk, OnErr, Some, true, false, length, nat_le, if◌then◌else◌};
ghost use Rattle.txn_words.specs.declared.refusal.Refusal.TheVariants.{NoMemory, NoSuchCaller, Limit};
ghost use Rattle.striped_map.specs.Calls.{Aborts};
ghost use Rattle.striped_map.specs.Hosts.{IsOpened};
ghost use Rattle.boostmap_c.specs.Counting.{none_ended};
ghost use Rattle.striped_map.specs.Callers.{IsAnother, IsMaker};
ghost use Rattle.boostmap_c.specs.Members.{IsAlike, IsFirstMember, IsJoined, IsNotMade, Joins, LeavesMap, MakesAnother, Opens, are_numbers, are_striped_limits, keep_at};

use crate::member::{Group, Member};
use crate::member_handle::{CallerHandle, put_in, take_out};
use crate::status::{DONE, EMPTY, FULL, refused};
use std::alloc::{AllocError, Global};
use striped_map::{Caller, Host, Keep, MOST, Opening, Stop};
use txn_trace::Refusal;

/// What a map keeps of its history, by its number in C.
fn keep_of(keep: u64) -> Option<Keep>
    ensures { result ≡ keep_at keep }
{
    match keep {
        0 => Some(Keep::Nothing),
        1 => Some(Keep::Commits),
        2 => Some(Keep::Entries),
        _ => None,
    }
}

/// Whether a map can have these numbers of callers and stripes.
fn are_limits(callers: u64, stripes: u64) -> bool
    ensures { result ≡ are_numbers callers stripes }
{
    (1 <= callers && callers <= MOST as u64) && (1 <= stripes && stripes <= MOST as u64)
}

/// The first member of a map that was opened so.
fn made_member(
    alloc: Global,
    opening: Opening,
    host: Host,
    mut waiting: Vec<Caller>,
) -> Result<Box<Member, Global>, AllocError>
    requires some { 1 ≤ opening.callers }
    requires opened { IsOpened opening host waiting.items }
    ensures opening { IfOk result (λ member. member.value.group.opening ≡ opening) }
    ensures host { IfOk result (λ member. member.value.group.host ≡ Some host) }
    ensures counts { IfOk result (λ member. member.value.counts ≡ none_ended) }
    ensures ok { IfOk result (λ member. IsOpened opening host
        (member.value.group.waiting.items ++ member.value.caller ∷ [])) }
{
    let Some(caller) = waiting.pop() else {
        unreachable!()
    };
    let group = Group {
        waiting,
        host: Some(host),
        opening,
    };
    match Box::new(alloc, Member::new(caller, group)) {
        Ok(member) => Ok(member),
        Err(_) => Err(AllocError),
    }
}

/// Opens a map, and returns its first member.
fn first_member(
    alloc: Global,
    callers: u64,
    stripes: u64,
    keys: u64,
    keep: u64,
    seed: u64,
) -> Result<Box<Member, Global>, Refusal>
    ensures limits { OnOk result (are_striped_limits callers stripes keep ≡ true) }
    ensures ok { IfOk result (λ member. IsFirstMember callers stripes keys keep seed member.value) }
    ensures err { IfErr result (λ refusal. refusal
        ≡ (if are_striped_limits callers stripes keep then NoMemory else Limit)) }
{
    if !are_limits(callers, stripes) {
        return Err(Refusal::Limit);
    }
    let Some(kept) = keep_of(keep) else {
        return Err(Refusal::Limit);
    };
    let opening = Opening {
        stripes: stripes as usize,
        callers: callers as usize,
        keys: keys as usize,
        keep: kept,
        seed,
    };
    let Ok((host, waiting)) = opening.open(alloc) else {
        return Err(Refusal::NoMemory);
    };
    match made_member(alloc, opening, host, waiting) {
        Ok(member) => Ok(member),
        Err(_) => Err(Refusal::NoMemory),
    }
}

/// A member with this caller, of the group's map. On an error, returns the caller.
fn joined(alloc: Global, group: &Group, caller: Caller) -> Result<Box<Member, Global>, Caller>
    ensures caller { IfOk result (λ made. made.value.caller ≡ caller) }
    ensures counts { IfOk result (λ made. made.value.counts ≡ none_ended) }
    ensures group { IfOk result (λ made. IsJoined group.now made.value.group) }
    ensures err { IfErr result (λ same. same ≡ caller) }
{
    let own = Group {
        waiting: Vec::new(alloc),
        host: None,
        opening: group.opening,
    };
    match Box::new(alloc, Member::new(caller, own)) {
        Ok(member) => Ok(member),
        Err(failed) => Err(failed.value.into_caller()),
    }
}

/// Takes out the last caller that waits, and puts it in a member of its own.
fn next_member(alloc: Global, group: &mut Group) -> Result<Box<Member, Global>, Refusal>
    ensures alike { IsAlike group.old group.new }
    ensures joined { IfOk result (λ member. IsJoined group.old member.value.group) }
    ensures counts { IfOk result (λ member. member.value.counts ≡ none_ended) }
    ensures ok { IfOk result (λ member. group.old.waiting.items
        ≡ group.new.waiting.items ++ member.value.caller ∷ []) }
    ensures err { IfErr result (λ refusal. refusal
        ≡ (if nat_le 1 (length group.old.waiting.items) then NoMemory else NoSuchCaller)) }
    ensures unchanged { OnErr result (group.new.waiting.items ≡ group.old.waiting.items) }
{
    let Some(caller) = group.waiting.pop() else {
        return Err(Refusal::NoSuchCaller);
    };
    match joined(alloc, group, caller) {
        Ok(member) => Ok(member),
        Err(caller) => {
            group.waiting.push_reserved(caller);
            Err(Refusal::NoMemory)
        }
    }
}

/// A member with a caller that the member's caller makes.
fn another_member(alloc: Global, member: &mut Member) -> Result<Box<Member, Global>, Refusal>
    ensures maker { IsMaker member.old.caller member.new.caller }
    ensures counts { member.new.counts ≡ member.old.counts }
    ensures group { member.new.group ≡ member.old.group }
    ensures none { IfOk result (λ made. made.value.counts ≡ none_ended) }
    ensures joined { IfOk result (λ made. IsJoined member.old.group made.value.group) }
    ensures ok { IfOk result (λ made.
        IsAnother member.old.caller member.new.caller made.value.caller) }
    ensures err { IfErr result (IsNotMade member.old member.new) }
{
    let caller = member.caller.another(alloc)?;
    match joined(alloc, &member.group, caller) {
        Ok(made) => Ok(made),
        Err(_) => Err(Refusal::NoMemory),
    }
}

/// Opens a striped map with no keys, and gives the handle to its first caller. The word is this
/// caller's number, which is the largest one: `callers`. The other callers wait, and get their
/// handles by `boostmap_striped_join`. The map has room for so many keys, and the seed, as
/// `Opening` says. If `keep` is 1, it counts its commits, and each commit tells its number. If it
/// is 2, it keeps its entries, and hands them out by `boostmap_host_history`. If it is 0, it does
/// neither.
///
/// # Errors
///
/// On an error the handle is unchanged. The status is 4 if the handle has a caller already, 38
/// (`Limit`) if the number of callers or of stripes is not from 1 to 4,096, or `keep` is above 2,
/// and 30 (`NoMemory`) if memory is refused.
///
/// # Cost
///
/// Time and memory in proportion to the callers, the stripes and the keys.
#[unsafe(no_mangle)]
pub extern "C" fn boostmap_striped_open(
    alloc: Global,
    caller: &mut CallerHandle,
    callers: u64,
    stripes: u64,
    keys: u64,
    keep: u32,
    seed: u64,
    word: &mut u64,
) -> u32
    ensures { Opens caller.old.held.member callers stripes keys keep seed result word.old word.new
        caller.new.held.member }
{
    open_first(
        alloc,
        caller,
        callers,
        stripes,
        keys,
        u64::from(keep),
        seed,
        word,
    )
}

/// Opens a map with these options, and gives the handle to its first caller.
pub(crate) fn open_first(
    alloc: Global,
    caller: &mut CallerHandle,
    callers: u64,
    stripes: u64,
    keys: u64,
    keep: u64,
    seed: u64,
    word: &mut u64,
) -> u32
    ensures { Opens caller.old.held.member callers stripes keys keep seed result word.old word.new
        caller.new.held.member }
{
    if caller.is_live() {
        return FULL;
    }
    match first_member(alloc, callers, stripes, keys, keep, seed) {
        Ok(member) => {
            put_in(caller, member);
            *word = callers;
            DONE
        }
        Err(refusal) => refused(refusal),
    }
}

/// Gives a handle to the next waiting caller. The word is this caller's number, which is one less
/// than the number of the caller that got a handle last. Only the first caller of a map has
/// waiting callers.
///
/// # Errors
///
/// On an error both handles are unchanged. The status is 4 if the second handle has a caller
/// already, 3 if the first handle has no caller, 18 (`NoSuchCaller`) if no caller waits, and 30
/// (`NoMemory`) if memory is refused.
///
/// # Cost
///
/// Constant time and memory.
#[unsafe(no_mangle)]
pub extern "C" fn boostmap_striped_join(
    alloc: Global,
    first: &mut CallerHandle,
    next: &mut CallerHandle,
    word: &mut u64,
) -> u32
    ensures { Joins first.old.held.member next.old.held.member result word.old word.new
        first.new.held.member next.new.held.member }
{
    if next.is_live() {
        return FULL;
    }
    if !first.is_live() {
        return EMPTY;
    }
    let member = first.held.get_mut();
    let number = member.group.waiting.len() as u64;
    let made = next_member(alloc, &mut member.group);
    match made {
        Ok(joined) => {
            put_in(next, joined);
            *word = number;
            DONE
        }
        Err(refusal) => refused(refusal),
    }
}

/// Makes another caller of the map, and gives the second handle to it. Any caller can do this, at
/// any time, also in a transaction, which then continues. The word is the new caller's number, which
/// no caller of the map has or had. It is used up when the caller is freed.
///
/// # Errors
///
/// On an error the second handle is unchanged. The status is 4 if it has a caller already, 3 if the
/// first handle has no caller, 38 (`Limit`) if the map has given out all its numbers, 2^62, or 2^16
/// if it keeps its entries, and 30 (`NoMemory`) if memory is refused.
///
/// # Cost
///
/// The cost of `striped_map::Caller::another`. Takes constant memory, which the free gives back. If
/// the map keeps its entries, the entries of the caller stay until the map and its host are freed.
#[unsafe(no_mangle)]
pub extern "C" fn boostmap_striped_another(
    alloc: Global,
    caller: &mut CallerHandle,
    next: &mut CallerHandle,
    word: &mut u64,
) -> u32
    ensures { MakesAnother caller.old.held.member next.old.held.member result word.old word.new
        caller.new.held.member next.new.held.member }
{
    if next.is_live() {
        return FULL;
    }
    if !caller.is_live() {
        return EMPTY;
    }
    let made = another_member(alloc, caller.held.get_mut());
    match made {
        Ok(member) => {
            *word = member.caller.number();
            put_in(next, member);
            DONE
        }
        Err(refusal) => refused(refusal),
    }
}

/// Aborts the transaction of the member's caller, if there is one.
fn end(member: &mut Member) -> Result<(), Stop>
    ensures aborts { Aborts member.old.caller result member.new.caller }
    ensures closed { member.new.caller.is_open ≡ false }
{
    member.caller.abort()
}

/// Drops a member whose caller is in no transaction, and the callers that wait in the member.
fn leave(member: Box<Member, Global>)
    requires { member.value.caller.is_open ≡ false }
{
    drop(member);
}

/// Frees the caller. An open transaction is aborted, and its stripes are given back. If the map
/// keeps its entries, the map's host takes the caller's entries. The handle is then all zeros. If
/// the caller is the first of its map, the callers that still wait for a handle are freed too. The
/// map is freed with its last caller.
///
/// The contract says that the abort was made. It cannot say that the freed caller does nothing
/// after it, since a freed value has no last state, nor that the host gets its entries, since other
/// threads use the map too. `bindings/tests/striped.c` (`freeing`) and `history.c` test this.
///
/// # Errors
///
/// The status is 3 if the handle has no caller.
///
/// # Cost
///
/// The cost of an abort, and a step for each waiting caller. For the last caller, also time in
/// proportion to the stripes and the keys. Takes no memory.
#[unsafe(no_mangle)]
pub extern "C" fn boostmap_striped_free(alloc: Global, caller: &mut CallerHandle) -> u32
    ensures { LeavesMap caller.old.held.member result caller.new.held.member }
{
    match take_out(alloc, caller) {
        Some(mut member) => {
            let _aborted = end(&mut member);
            leave(member);
            DONE
        }
        None => EMPTY,
    }
}
