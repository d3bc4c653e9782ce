//! Tests of `stripe_shard`: growth, and refused allocations. A shard has no log, so the tests keep a
//! log for the shard, and use it to take changes back. A refused operation must leave the shard
//! unchanged, and is made again. `histories` of `striped_tests` draws operations on shards.
use std::alloc::{AllocError, Global};
use std::process::Abort;
use std::test::Fail;
use stripe_shard::Shard;
use txn_words::{Op, Refusal, Reply};

/// A shard, and a log of the changes that can be taken back. The log has the key of each change and
/// the value before it, the newest change last.
#[derive(Drop)]
struct Logged {
    shard: Shard,
    log: Vec<(u64, Option<u64>)>,
}

fn fresh(alloc: Global) -> Result<Logged, AllocError> {
    let shard = Shard::with_capacity_and_seed(alloc, 0, 0)?;
    let log = Vec::new(alloc);
    Ok(Logged { shard, log })
}

/// Does an operation. If memory is refused, the shard must be unchanged, and the operation is tried
/// once more.
fn try_again(rt: &impl Abort, shard: &mut Shard, op: Op) -> Result<Reply, Fail> {
    let seen = (shard.len(), shard.changes());
    match shard.apply(op) {
        Ok(reply) => Ok(reply),
        Err(refusal) => {
            assert!(rt; refusal == Refusal::NoMemory && op.may_change());
            assert!(rt; (shard.len(), shard.changes()) == seen);
            match shard.apply(op) {
                Ok(reply) => Ok(reply),
                Err(_) => Err("memory is refused twice".into()),
            }
        }
    }
}

/// Does an operation with `try_again`, and logs its change. First reserves a place in the log. If
/// memory is refused for this place, tries once more.
fn apply_again(rt: &impl Abort, alloc: Global, one: &mut Logged, op: Op) -> Result<Reply, Fail> {
    if one.log.reserve(1).is_err() {
        one.log.reserve(1)?;
    }
    let reply = try_again(rt, &mut one.shard, op)?;
    if op.changes(reply) {
        one.log.push((op.key(), reply))?;
    }
    Ok(reply)
}

/// The pairs of a shard. If memory is refused, tries once more.
fn pairs_of(alloc: Global, shard: &Shard) -> Result<Vec<(u64, u64)>, AllocError> {
    match shard.pairs(alloc) {
        Ok(pairs) => Ok(pairs),
        Err(AllocError) => shard.pairs(alloc),
    }
}

/// Takes back the newest change, if there is one.
fn undo_one(one: &mut Logged) {
    if one.shard.changes() > 0
        && let Some((key, before)) = one.log.pop()
    {
        one.shard.take_back(key, before);
    }
}

/// Puts the keys below `keys`, in rising order.
fn put_keys(rt: &impl Abort, alloc: Global, one: &mut Logged, keys: u64) -> Result<(), Fail> {
    for key in 0..keys {
        let reply = apply_again(rt, alloc, one, Op::Put(key, key))?;
        assert!(rt; reply.is_none());
    }
    Ok(())
}

/// Takes the keys from `first` up to `end`, without `end`.
fn take_keys(
    rt: &impl Abort,
    alloc: Global,
    one: &mut Logged,
    first: u64,
    end: u64,
) -> Result<(), Fail> {
    for key in first..end {
        let reply = apply_again(rt, alloc, one, Op::Take(key))?;
        assert!(rt; reply == Some(key));
    }
    Ok(())
}

/// Takes back the newest `changes` changes.
fn undo_keys(one: &mut Logged, changes: u64) {
    for _ in 0..changes {
        undo_one(one);
    }
}

/// Checks that these are the pairs of the keys below 100, and that each value equals its key.
fn are_first(rt: &impl Abort, pairs: &[(u64, u64)]) {
    assert!(rt; pairs.len() == 100);
    for pair in pairs {
        assert!(rt; pair.0 < 100 && pair.1 == pair.0);
    }
}

/// Puts 300 keys and takes 100 of them. Then takes back these takes and the newest 200 puts, and
/// settles the others.
fn put_take_and_undo(rt: &impl Abort, alloc: Global, one: &mut Logged) -> Result<(), Fail> {
    put_keys(rt, alloc, one, 300)?;
    take_keys(rt, alloc, one, 100, 200)?;
    assert!(rt; one.shard.len() == 200 && one.shard.changes() == 400);
    undo_keys(one, 300);
    are_first(rt, pairs_of(alloc, &one.shard)?.as_slice());
    one.shard.settle();
    assert!(rt; one.shard.len() == 100 && one.shard.changes() == 0);
    Ok(())
}

/// This test is also run with each allocation refused in turn.
#[test]
fn refused_memory(rt: HostRuntime) -> Result<(), Fail> {
    put_take_and_undo(&rt, rt.alloc(), &mut fresh(rt.alloc())?)
}
