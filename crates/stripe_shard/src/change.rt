//! Functions that change a map, and the number of its changes that can be taken back. They take the
//! two fields of a `Shard`. They are not its methods, since the type's invariant does not hold
//! in the middle of a change.
ghost use Rattle.std.specs.Prelude.{◌≡◌, ℕ, ◌+◌, ◌<◌, ◌≤◌, OnErr, IfOk, IfErr};
ghost use Rattle.txn_words.specs.Map.{after, reply_of, set_at};
ghost use Rattle.stripe_shard.specs.Calls.{Does, IsRefused, TakesBack};
ghost use Rattle.stripe_shard.specs.Stored.{shard_of};

use crate::map::ProbeMap;
use txn_words::{Op, Refusal, Reply};

/// Gives the key this value. If `value` is `None`, removes the key.
fn set(map: &mut ProbeMap, key: u64, value: Option<u64>)
    requires { 0 < map.old.spare }
    ensures content { map.new.content ≡ set_at map.old.content key value }
    ensures spare { map.old.spare ≤ map.new.spare + 1 }
{
    match value {
        Some(value) => {
            let _ = map.insert(key, value);
        }
        None => {
            let _ = map.remove(key);
        }
    }
}

/// Does an operation on a map that has room for a key.
#[inline(always)]
fn act(map: &mut ProbeMap, op: Op) -> Reply
    requires { 0 < map.old.spare }
    ensures reply { result ≡ reply_of map.old.content op }
    ensures content { map.new.content ≡ after map.old.content op }
    ensures spare { map.old.spare ≤ map.new.spare + 1 }
{
    match op {
        Op::Get(key) => map.get(key),
        Op::Put(key, value) => map.insert(key, value),
        Op::Take(key) => map.remove(key),
        Op::PutIf(key, expected, value) => {
            let before = map.get(key);
            if before == expected {
                map.insert(key, value)
            } else {
                before
            }
        }
    }
}

/// Does an operation, and adds 1 to `owed` if it was a change. If the operation may be a change,
/// the map first gets room for `owed + 2` more keys: one for each change that can then be taken
/// back, and one for a new key.
#[inline(always)]
#[tactic(auto, using(crate::proofs::Calls::looked))]
pub(crate) fn apply(map: &mut ProbeMap, owed: &mut usize, op: Op) -> Result<Reply, Refusal>
    requires { owed.old ≤ map.old.spare }
    ensures ok { IfOk result (Does (shard_of map.old.content owed.old)
        (shard_of map.new.content owed.new) op) }
    ensures err { IfErr result (IsRefused op) }
    ensures unchanged { OnErr result (shard_of map.new.content owed.new
        ≡ shard_of map.old.content owed.old) }
    ensures spare { owed.new ≤ map.new.spare }
{
    if !op.may_change() {
        return Ok(map.get(op.key()));
    }
    let room = owed.checked_add(2).ok_or(Refusal::NoMemory)?;
    map.reserve(room)?;
    let reply = act(map, op);
    if op.changes(reply) {
        *owed += 1;
    }
    Ok(reply)
}

/// Takes a change back: gives its key the value that the key had before.
pub(crate) fn take_back(map: &mut ProbeMap, owed: &mut usize, key: u64, before: Option<u64>)
    requires spare { owed.old ≤ map.old.spare }
    requires some { 0 < owed.old }
    ensures back { TakesBack (shard_of map.old.content owed.old)
        (shard_of map.new.content owed.new) key before }
    ensures spare { owed.new ≤ map.new.spare }
{
    set(map, key, before);
    *owed -= 1;
}
