//! Tests of a table's state after an allocation was refused. They are also run with each allocation
//! refused in turn. Unlike in `runs`, the whole table is compared after a refused call. An
//! operation that was prepared before the refusal keeps its spare, and a helper keeps its cursor.
use super::{do_at_once, figures, finish, has_pairs, small_table};
use map_ops::{InitLink, InitSeek, Table};
use std::alloc::{AllocError, Global};
use std::process::Abort;
use std::test::Fail;
use txn_words::{Op, Refusal};

/// Checks that the table has exactly these pairs (`has_pairs`).
fn shows(rt: &impl Abort, alloc: Global, table: &Table, wanted: &[(u64, u64)]) -> Result<(), Fail> {
    assert!(rt; has_pairs(alloc, table, wanted)?, "other pairs");
    Ok(())
}

/// Keys with their values, in the order of the list.
const PAIRS: [(u64, u64); 8] = [
    (4, 40),
    (2, 20),
    (6, 60),
    (1, 10),
    (5, 50),
    (3, 30),
    (7, 70),
    (15, 150),
];

/// The first `count` pairs of `PAIRS`.
fn first_pairs(count: usize) -> &'static [(u64, u64)] {
    PAIRS.get(..count).unwrap_or(&PAIRS)
}

/// The pairs of the keys 2 and 6.
fn second_and_third() -> &'static [(u64, u64)] {
    PAIRS.get(1..3).unwrap_or(&PAIRS)
}

/// A table of two buckets that cannot grow. If memory is refused, tries once more.
fn table_again(alloc: Global) -> Result<Table, AllocError> {
    match small_table(alloc) {
        Ok(table) => Ok(table),
        Err(AllocError) => small_table(alloc),
    }
}

/// Puts a new key. If memory is refused, the table must still have exactly the pairs `before`, and
/// a second put must succeed.
fn put_again(
    rt: &impl Abort,
    alloc: Global,
    table: &mut Table,
    pair: (u64, u64),
    before: &[(u64, u64)],
) -> Result<(), Fail> {
    let seen = figures(table);
    let reply = match do_at_once(table, Op::Put(pair.0, pair.1)) {
        Ok(reply) => reply,
        Err(refusal) => {
            assert!(rt; refusal == Refusal::NoMemory && figures(table) == seen);
            shows(rt, alloc, table, before)?;
            do_at_once(table, Op::Put(pair.0, pair.1))?
        }
    };
    assert!(rt; reply.is_none());
    Ok(())
}

/// Puts these pairs in their order. A put that is refused memory is made once more.
fn put_all(
    rt: &impl Abort,
    alloc: Global,
    table: &mut Table,
    pairs: &[(u64, u64)],
) -> Result<(), Fail> {
    for (done, pair) in pairs.iter().enumerate() {
        let before = pairs.get(..done).ok_or("no such pairs")?;
        put_again(rt, alloc, table, *pair, before)?;
    }
    Ok(())
}

/// The call that may be refused memory.
#[derive(Clone, Copy)]
enum Refused {
    /// One of the puts that fill the table.
    Puts,
    /// The preparation of a take, while a put is prepared but not yet done.
    Preparation,
    /// The link of a dummy, while a put is prepared but not yet done.
    Link,
}

/// Puts the pairs, and makes the call that may be refused memory. Then checks that the table has
/// the right pairs.
fn play_refused(
    rt: &impl Abort,
    alloc: Global,
    table: &mut Table,
    pairs: &[(u64, u64)],
    refused: Refused,
) -> Result<(), Fail> {
    put_all(rt, alloc, table, pairs)?;
    let left = match refused {
        Refused::Puts => &PAIRS,
        Refused::Preparation => do_second(rt, alloc, table)?,
        Refused::Link => link_beside_a_put(rt, alloc, table)?,
    };
    shows(rt, alloc, table, left)
}

/// Runs `play_refused` on a new table.
fn refuse(
    rt: &impl Abort,
    alloc: Global,
    pairs: &[(u64, u64)],
    refused: Refused,
) -> Result<(), Fail> {
    let mut table = table_again(alloc).expect(rt, "a table");
    play_refused(rt, alloc, &mut table, pairs, refused)
}

/// This test and the next two are also run with each allocation refused in turn.
#[test]
fn refused_memory_for_puts(rt: HostRuntime) -> Result<(), Fail> {
    refuse(&rt, rt.alloc(), &PAIRS, Refused::Puts)
}

/// Prepares a put of key 6, and then prepares and does a take of key 2. If the take is refused
/// memory, the table must be unchanged, and the put is done instead. Returns the pairs that the
/// table must have at the end.
fn do_second(
    rt: &impl Abort,
    alloc: Global,
    table: &mut Table,
) -> Result<&'static [(u64, u64)], Fail> {
    let kept = table.prepare(Op::Put(6, 60))?;
    let seen = figures(table);
    match table.prepare(Op::Take(2)) {
        Ok(pending) => {
            assert!(rt; finish(table, pending).0 == Some(20));
            Ok(first_pairs(1))
        }
        Err(refusal) => {
            assert!(rt; refusal == Refusal::NoMemory && figures(table) == seen);
            shows(rt, alloc, table, first_pairs(2))?;
            assert!(rt; finish(table, kept).0.is_none());
            Ok(first_pairs(3))
        }
    }
}

/// An operation that was prepared before the refusal keeps its spare.
#[test]
fn refused_memory_for_a_preparation(rt: HostRuntime) -> Result<(), Fail> {
    refuse(&rt, rt.alloc(), first_pairs(2), Refused::Preparation)
}

/// Prepares a put of key 4, and links the dummy of bucket 1 as helper 0. If the link is refused
/// memory, the table must be unchanged, and the helper must still have its cursor. Then the put is
/// done, and the helper's link is made. Returns the pairs that the table must have at the end.
fn link_beside_a_put(
    rt: &impl Abort,
    alloc: Global,
    table: &mut Table,
) -> Result<&'static [(u64, u64)], Fail> {
    let kept = table.prepare(Op::Put(4, 40))?;
    assert!(rt; table.init_seek(0, 1) == Ok(InitSeek::Placed));
    let seen = figures(table);
    match table.init_link(0) {
        Ok(answer) => {
            assert!(rt; answer == InitLink::Linked);
            Ok(second_and_third())
        }
        Err(refusal) => {
            assert!(rt; refusal == Refusal::NoMemory && figures(table) == seen);
            shows(rt, alloc, table, second_and_third())?;
            assert!(rt; finish(table, kept).0.is_none());
            assert!(rt; is_linked_and_stored(table));
            Ok(first_pairs(3))
        }
    }
}

/// Lets helper 0 link its dummy and store its bucket. Returns true if both steps succeeded.
fn is_linked_and_stored(table: &mut Table) -> bool {
    table.init_link(0) == Ok(InitLink::Linked) && table.init_store(0) == Ok(())
}

/// An operation that was prepared before the refusal keeps its spare, and the helper keeps its
/// cursor.
#[test]
fn refused_memory_for_a_link(rt: HostRuntime) -> Result<(), Fail> {
    refuse(&rt, rt.alloc(), second_and_third(), Refused::Link)
}
