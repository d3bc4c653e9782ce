//! The calls of a striped map's caller. Each goes straight to the map. It takes no lock and never
//! waits, so callers of one map may be in calls at the same time, each with its own handle. No call
//! of this module fills, empties or moves a handle. Passing through a handle takes constant time
//! and no memory.
ghost use Rattle.std.specs.Prelude.{Some, None};
ghost use Rattle.boostmap_c.specs.Counting.{aborted, goes_on};
ghost use Rattle.boostmap_c.specs.Members.{TellsEnd, TellsNumber, TellsPlace, TellsReply};
ghost use Rattle.striped_map.specs.Calls.{Aborts, Begins, Commits, GoesBack, Operates, Saves};

use crate::member_handle::CallerHandle;
use crate::status::EMPTY;
use crate::stops::{tell_end, tell_number, tell_place, tell_reply};
use txn_trace::Op;

/// Begins a transaction.
///
/// # Errors
///
/// The status is 3 if the handle has no caller, and 20 (`AlreadyOpen`) if the caller is already in
/// a transaction. That transaction then continues. If the map keeps its entries, it may also be 30
/// (`NoMemory`). No transaction has then begun.
#[unsafe(no_mangle)]
pub extern "C" fn boostmap_striped_begin(caller: &mut CallerHandle) -> u32
    ensures { TellsEnd Begins goes_on caller.old.held.member result caller.new.held.member }
{
    if !caller.is_live() {
        return EMPTY;
    }
    let member = caller.held.get_mut();
    let answer = member.caller.begin();
    member.counts.see(&answer);
    tell_end(answer)
}

/// Looks up the value at a key, and writes it to the word.
///
/// # Errors
///
/// The status is one of these:
///
/// - 3 if the handle has no caller.
/// - 2 if another caller held the key's stripe. The word is that caller's number. The transaction
///   is then aborted, and all its changes are taken back.
/// - 19 (`NotOpen`) if the caller has no transaction.
/// - 30 (`NoMemory`) if memory is refused. The transaction is then unchanged, but it may hold the
///   key's stripe.
///
/// # Cost
///
/// The cost of `striped_map::Caller::get`.
#[unsafe(no_mangle)]
pub extern "C" fn boostmap_striped_get(caller: &mut CallerHandle, key: u64, word: &mut u64) -> u32
    ensures { TellsReply (Operates (Op.Get key)) caller.old.held.member result word.old word.new
        caller.new.held.member }
{
    if !caller.is_live() {
        return EMPTY;
    }
    let member = caller.held.get_mut();
    let answer = member.caller.get(key);
    member.counts.see(&answer);
    tell_reply(answer, word)
}

/// Puts a value at a key. The word is the value that the key had before.
///
/// # Errors
///
/// Those of `boostmap_striped_get`.
///
/// # Cost
///
/// The cost of `striped_map::Caller::put`.
#[unsafe(no_mangle)]
pub extern "C" fn boostmap_striped_put(
    caller: &mut CallerHandle,
    key: u64,
    value: u64,
    word: &mut u64,
) -> u32
    ensures { TellsReply (Operates (Op.Put key value)) caller.old.held.member result
        word.old word.new caller.new.held.member }
{
    if !caller.is_live() {
        return EMPTY;
    }
    let member = caller.held.get_mut();
    let answer = member.caller.put(key, value);
    member.counts.see(&answer);
    tell_reply(answer, word)
}

/// Takes a key out. The word is the value that the key had.
///
/// # Errors
///
/// Those of `boostmap_striped_get`.
///
/// # Cost
///
/// The cost of `striped_map::Caller::take`.
#[unsafe(no_mangle)]
pub extern "C" fn boostmap_striped_take(caller: &mut CallerHandle, key: u64, word: &mut u64) -> u32
    ensures { TellsReply (Operates (Op.Take key)) caller.old.held.member result word.old word.new
        caller.new.held.member }
{
    if !caller.is_live() {
        return EMPTY;
    }
    let member = caller.held.get_mut();
    let answer = member.caller.take(key);
    member.counts.see(&answer);
    tell_reply(answer, word)
}

/// Puts a value at a key that has none. If the key has a value, nothing is put, and the word is
/// that value.
///
/// # Errors
///
/// Those of `boostmap_striped_get`.
///
/// # Cost
///
/// The cost of `striped_map::Caller::put_if`.
#[unsafe(no_mangle)]
pub extern "C" fn boostmap_striped_put_if_absent(
    caller: &mut CallerHandle,
    key: u64,
    value: u64,
    word: &mut u64,
) -> u32
    ensures { TellsReply (Operates (Op.PutIf key None value)) caller.old.held.member result
        word.old word.new caller.new.held.member }
{
    if !caller.is_live() {
        return EMPTY;
    }
    let member = caller.held.get_mut();
    let answer = member.caller.put_if(key, None, value);
    member.counts.see(&answer);
    tell_reply(answer, word)
}

/// Puts a value at a key that has the expected value. The word is the value that the key had
/// before. If the key had another value or none, nothing is put.
///
/// # Errors
///
/// Those of `boostmap_striped_get`.
///
/// # Cost
///
/// The cost of `striped_map::Caller::put_if`.
#[unsafe(no_mangle)]
pub extern "C" fn boostmap_striped_put_if_equal(
    caller: &mut CallerHandle,
    key: u64,
    expected: u64,
    value: u64,
    word: &mut u64,
) -> u32
    ensures { TellsReply (Operates (Op.PutIf key (Some expected) value)) caller.old.held.member
        result word.old word.new caller.new.held.member }
{
    if !caller.is_live() {
        return EMPTY;
    }
    let member = caller.held.get_mut();
    let answer = member.caller.put_if(key, Some(expected), value);
    member.counts.see(&answer);
    tell_reply(answer, word)
}

/// Sets a savepoint. The word is the savepoint's level, counted from 1.
///
/// # Errors
///
/// The status is 3 if the handle has no caller, 19 (`NotOpen`) if the caller has no transaction,
/// and 30 (`NoMemory`) if memory is refused. In each case nothing has changed.
///
/// # Cost
///
/// The cost of `striped_map::Caller::save`.
#[unsafe(no_mangle)]
pub extern "C" fn boostmap_striped_save(caller: &mut CallerHandle, word: &mut u64) -> u32
    ensures { TellsNumber Saves caller.old.held.member result word.old word.new
        caller.new.held.member }
{
    if !caller.is_live() {
        return EMPTY;
    }
    let member = caller.held.get_mut();
    let answer = member.caller.save();
    member.counts.see(&answer);
    tell_number(answer, word)
}

/// Takes back every change since a level was set, newest first. Level 0 is the beginning of the
/// transaction. The level stays set, later levels are dropped, and stripes stay held.
///
/// # Errors
///
/// The status is 3 if the handle has no caller, 19 (`NotOpen`) if the caller has no transaction,
/// 25 (`NoSuchLevel`) if the level is above the number of savepoints, and, if the map keeps its
/// entries, 30 (`NoMemory`) if memory is refused. In each case nothing has changed.
///
/// # Cost
///
/// A step for each change that is taken back; takes no memory.
#[unsafe(no_mangle)]
pub extern "C" fn boostmap_striped_back(caller: &mut CallerHandle, level: u64) -> u32
    ensures { TellsEnd (GoesBack level) goes_on caller.old.held.member result
        caller.new.held.member }
{
    if !caller.is_live() {
        return EMPTY;
    }
    let member = caller.held.get_mut();
    let answer = member.caller.back(level);
    member.counts.see(&answer);
    tell_end(answer)
}

/// Commits the transaction. If the map keeps its commits, the word is the transaction's commit
/// number, counted from 1, modulo 2^64. Otherwise it is 0.
///
/// # Errors
///
/// The status is 3 if the handle has no caller, and 19 (`NotOpen`) if the caller has no
/// transaction.
///
/// # Cost
///
/// A step for each change, each savepoint and each stripe; takes no memory.
#[unsafe(no_mangle)]
pub extern "C" fn boostmap_striped_commit(caller: &mut CallerHandle, word: &mut u64) -> u32
    ensures { TellsPlace Commits caller.old.held.member result word.old word.new
        caller.new.held.member }
{
    if !caller.is_live() {
        return EMPTY;
    }
    let member = caller.held.get_mut();
    let answer = member.caller.commit();
    member.counts.see_commit(&answer);
    tell_place(answer, word)
}

/// Aborts the transaction: takes back every change, newest first, and gives back all stripes.
///
/// # Errors
///
/// The status is 3 if the handle has no caller, and 19 (`NotOpen`) if the caller has no
/// transaction.
///
/// # Cost
///
/// A step for each change, each savepoint and each stripe; takes no memory.
#[unsafe(no_mangle)]
pub extern "C" fn boostmap_striped_abort(caller: &mut CallerHandle) -> u32
    ensures { TellsEnd Aborts aborted caller.old.held.member result caller.new.held.member }
{
    if !caller.is_live() {
        return EMPTY;
    }
    let member = caller.held.get_mut();
    let answer = member.caller.abort();
    member.counts.see_abort(&answer);
    tell_end(answer)
}
