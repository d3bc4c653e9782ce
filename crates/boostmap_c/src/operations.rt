//! The operations of a transaction on one key. They are not in `transactions`, since they alone can
//! be busy: each takes a stripe, which the transaction then holds until it ends. An operation that
//! finds its key absent may add a bucket to the table, so a table grows with its keys.
ghost use Rattle.std.specs.Prelude.{Some, None};
ghost use Rattle.boostmap_c.specs.Calls.{TellsReply};
ghost use Rattle.owned_map.specs.Effects.{DoesOp};

use crate::handle::Handle;
use crate::status::EMPTY;
use crate::stops::tell_reply;
use txn_trace::Op;

/// Puts a value at a key. The word is the value that the key had before.
///
/// # Errors
///
/// The status is one of these. If it is 18 or more, nothing has changed.
///
/// - 3 if the handle has no map.
/// - 2 if another caller holds the key's stripe. The word is that caller's number, and the
///   transaction can then only abort.
/// - 18 (`NoSuchCaller`) if the map has no caller with this number.
/// - 19 (`NotOpen`) if the caller has no transaction.
/// - 22 (`Leaving`) if an earlier operation of the transaction was busy.
/// - 30 (`NoMemory`) if memory is refused.
/// - 32 (`StampsUsedUp`) if no stamp is left.
///
/// # Cost
///
/// Time in proportion to the nodes from the nearest initialised bucket to the key's position; may
/// take memory for the history, the log and a node. If the key was absent and the table has too few
/// buckets, the call also adds a bucket to the table. It does not fail if that is refused memory.
#[unsafe(no_mangle)]
pub extern "C" fn boostmap_put(
    map: &mut Handle,
    caller: u64,
    key: u64,
    value: u64,
    word: &mut u64,
) -> u32
    ensures { TellsReply (DoesOp (Op.Put key value) caller) map.old.held.map result
        word.old word.new map.new.held.map }
{
    if !map.is_live() {
        return EMPTY;
    }
    let held = map.held.get_mut();
    let answer = held.map.operate(caller, Op::Put(key, value));
    tell_reply(answer, word)
}

/// Puts a value at a key that has none. If the key has a value, nothing is put, and the word is
/// that value.
///
/// # Errors
///
/// Those of `boostmap_put`.
///
/// # Cost
///
/// The cost of `boostmap_put`.
#[unsafe(no_mangle)]
pub extern "C" fn boostmap_put_if_absent(
    map: &mut Handle,
    caller: u64,
    key: u64,
    value: u64,
    word: &mut u64,
) -> u32
    ensures { TellsReply (DoesOp (Op.PutIf key None value) caller) map.old.held.map result
        word.old word.new map.new.held.map }
{
    if !map.is_live() {
        return EMPTY;
    }
    let held = map.held.get_mut();
    let answer = held.map.operate(caller, Op::PutIf(key, None, value));
    tell_reply(answer, word)
}

/// Puts a value at a key that has the expected value. The word is the value that the key had
/// before. If the key had another value or none, nothing is put.
///
/// # Errors
///
/// Those of `boostmap_put`.
///
/// # Cost
///
/// The cost of `boostmap_put`.
#[unsafe(no_mangle)]
pub extern "C" fn boostmap_put_if_equal(
    map: &mut Handle,
    caller: u64,
    key: u64,
    expected: u64,
    value: u64,
    word: &mut u64,
) -> u32
    ensures { TellsReply (DoesOp (Op.PutIf key (Some expected) value) caller) map.old.held.map
        result word.old word.new map.new.held.map }
{
    if !map.is_live() {
        return EMPTY;
    }
    let held = map.held.get_mut();
    let answer = held
        .map
        .operate(caller, Op::PutIf(key, Some(expected), value));
    tell_reply(answer, word)
}

/// Takes a key out. The word is the value that the key had.
///
/// # Errors
///
/// Those of `boostmap_put`.
///
/// # Cost
///
/// The cost of `boostmap_put`.
#[unsafe(no_mangle)]
pub extern "C" fn boostmap_take(map: &mut Handle, caller: u64, key: u64, word: &mut u64) -> u32
    ensures { TellsReply (DoesOp (Op.Take key) caller) map.old.held.map result
        word.old word.new map.new.held.map }
{
    if !map.is_live() {
        return EMPTY;
    }
    let held = map.held.get_mut();
    let answer = held.map.operate(caller, Op::Take(key));
    tell_reply(answer, word)
}

/// Looks up the value at a key, and writes it to the word.
///
/// # Errors
///
/// Those of `boostmap_put`, but not 32.
///
/// # Cost
///
/// The cost of `boostmap_put`, without the memory for a node.
#[unsafe(no_mangle)]
pub extern "C" fn boostmap_get(map: &mut Handle, caller: u64, key: u64, word: &mut u64) -> u32
    ensures { TellsReply (DoesOp (Op.Get key) caller) map.old.held.map result
        word.old word.new map.new.held.map }
{
    if !map.is_live() {
        return EMPTY;
    }
    let held = map.held.get_mut();
    let answer = held.map.operate(caller, Op::Get(key));
    tell_reply(answer, word)
}
