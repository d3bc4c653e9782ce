//! The beginning and the ends of a transaction, and its savepoints. The calls of this module name
//! no key and ask for no stripe, so none of them is busy. By their contracts a commit and an abort
//! are never refused with `NoMemory`. So a transaction can be ended even while other calls are
//! refused memory.
ghost use Rattle.std.specs.Prelude.{◌≡◌};
ghost use Rattle.boostmap_c.specs.Calls.{Aborts, Begins, Commits, Returns, TellsEnd, TellsNumber};
ghost use Rattle.owned_map.specs.Effects.{DoesSave};

use crate::handle::Handle;
use crate::status::{EMPTY, status_of};
use crate::stops::tell_number;
use std::alloc::Global;

/// Begins a transaction. The word is the transaction's number, counted from 1.
///
/// # Errors
///
/// The status is one of these. After each, nothing has changed.
///
/// - 3 if the handle has no map.
/// - 18 (`NoSuchCaller`) if the map has no caller with this number.
/// - 22 (`Leaving`) if the caller has a transaction in which an operation was busy.
/// - 20 (`AlreadyOpen`) if the caller has any other transaction.
/// - 30 (`NoMemory`) if memory is refused.
///
/// # Cost
///
/// Amortized constant time; may take memory for the history.
#[unsafe(no_mangle)]
pub extern "C" fn boostmap_begin(map: &mut Handle, caller: u64, word: &mut u64) -> u32
    ensures { TellsNumber (λ bound. Begins caller) map.old.held.map
        result word.old word.new map.new.held.map }
{
    if !map.is_live() {
        return EMPTY;
    }
    let held = map.held.get_mut();
    let answer = held.map.begin(caller);
    tell_number(answer, word)
}

/// Sets a savepoint. The word is the savepoint's level, counted from 1.
///
/// # Errors
///
/// The status is one of these. After each, nothing has changed.
///
/// - 3 if the handle has no map.
/// - 18 (`NoSuchCaller`) if the map has no caller with this number.
/// - 19 (`NotOpen`) if the caller has no transaction.
/// - 22 (`Leaving`) if an operation of the transaction was busy.
/// - 30 (`NoMemory`) if memory is refused.
///
/// # Cost
///
/// Amortized constant time; may take memory for the history and the level.
#[unsafe(no_mangle)]
pub extern "C" fn boostmap_save(map: &mut Handle, caller: u64, word: &mut u64) -> u32
    ensures { TellsNumber (λ bound. DoesSave caller) map.old.held.map
        result word.old word.new map.new.held.map }
{
    if !map.is_live() {
        return EMPTY;
    }
    let held = map.held.get_mut();
    let answer = held.map.save(caller);
    tell_number(answer, word)
}

/// Takes back every change since a level was set, newest first. Level 0 is the beginning of the
/// transaction. The word is the level, which stays set. Stripes stay held.
///
/// # Errors
///
/// The status is one of these. After each, nothing has changed.
///
/// - 3 if the handle has no map.
/// - 18 (`NoSuchCaller`) if the map has no caller with this number.
/// - 19 (`NotOpen`) if the caller has no transaction.
/// - 22 (`Leaving`) if an operation of the transaction was busy.
/// - 25 (`NoSuchLevel`) if the level is above the number of savepoints.
/// - 30 (`NoMemory`) if memory is refused.
///
/// # Cost
///
/// The cost of an operation for each change that is taken back, and a step for each savepoint that
/// is dropped. May take memory, but only for the history.
#[unsafe(no_mangle)]
pub extern "C" fn boostmap_back(map: &mut Handle, caller: u64, level: u64, word: &mut u64) -> u32
    ensures { TellsNumber (λ bound. Returns caller level) map.old.held.map
        result word.old word.new map.new.held.map }
{
    if !map.is_live() {
        return EMPTY;
    }
    let held = map.held.get_mut();
    let answer = held.back(caller, level);
    tell_number(answer, word)
}

/// Commits the transaction. The word is the transaction's commit number, counted from 1.
///
/// # Errors
///
/// The status is one of these. After each, nothing has changed.
///
/// - 3 if the handle has no map.
/// - 18 (`NoSuchCaller`) if the map has no caller with this number.
/// - 19 (`NotOpen`) if the caller has no transaction.
/// - 22 (`Leaving`) if an operation of the transaction was busy.
///
/// # Cost
///
/// A step for each change, each savepoint and each stripe; takes no memory. If the map then trims
/// its history by itself, also the cost of `boostmap_trim`.
#[unsafe(no_mangle)]
pub extern "C" fn boostmap_commit(
    alloc: Global,
    map: &mut Handle,
    caller: u64,
    word: &mut u64,
) -> u32
    ensures { TellsNumber (Commits caller) map.old.held.map
        result word.old word.new map.new.held.map }
{
    if !map.is_live() {
        return EMPTY;
    }
    let held = map.held.get_mut();
    let answer = held.commit(alloc, caller);
    tell_number(answer, word)
}

/// Aborts the transaction: takes back every change, newest first, and gives back all stripes. No
/// word is written.
///
/// # Errors
///
/// The status is 3 if the handle has no map, 18 (`NoSuchCaller`) if the map has no caller with this
/// number, and 19 (`NotOpen`) if the caller has no transaction. In each case nothing has changed.
///
/// # Cost
///
/// The cost of an operation for each change, and a step for each savepoint and each stripe; takes
/// no memory. If the map then trims its history by itself, also the cost of `boostmap_trim`.
#[unsafe(no_mangle)]
pub extern "C" fn boostmap_abort(
    alloc: Global,
    map: &mut Handle,
    caller: u64,
    word: &mut u64,
) -> u32
    ensures ends { TellsEnd (Aborts caller) map.old.held.map result map.new.held.map }
    ensures word { word.new ≡ word.old }
{
    if !map.is_live() {
        return EMPTY;
    }
    let held = map.held.get_mut();
    let outcome = held.abort(alloc, caller);
    status_of(outcome)
}
