//! Tests of `bucket_table`: worked runs, and refused allocations. The contracts say what each call
//! returns, but not that a call gets memory while memory is free. The expected answers and nodes
//! were worked out by hand. The module `home` makes all calls.
mod home;

use bucket_table::{Double, InitLink, InitRefusal, InitSeek};
use home::{Answer, Call, Home};
use node_list::{Kind, SpareFault};
use std::alloc::Global;
use std::process::Abort;
use std::test::Fail;

/// Makes the calls in turn, and compares the answer to each call with the wanted one.
fn make_all(rt: &impl Abort, home: &mut Home, calls: &[(Call, Answer)]) {
    for (row, (call, wanted)) in calls.iter().enumerate() {
        assert!(rt; home.make(*call) == *wanted, "row {row}");
    }
}

/// Returns true if an allocation is refused now.
fn is_refused(alloc: Global) -> bool {
    Box::new(alloc, 0).is_err()
}

/// Makes a list with its buckets. If memory is refused, tries once more. Returns `None` if memory
/// is refused both times.
fn home_again(alloc: Global, max: u32, helpers: u32) -> Option<Home> {
    match Home::new(alloc, 0, max, helpers) {
        Some(home) => Some(home),
        None => Home::new(alloc, 0, max, helpers),
    }
}

/// Puts a key. If memory is refused, the list must be unchanged, and the put is tried once more.
/// Returns true if the key was put.
fn has_put(rt: &impl Abort, home: &mut Home, number: u64) -> bool {
    let before = home.figures();
    for _ in 0..2 {
        if home.put(rt, number).is_ok() {
            return true;
        }
        assert!(rt; home.figures() == before);
    }
    false
}

/// Puts the keys in turn, and stops if `has_put` fails for a key. Returns true if all keys were
/// put.
fn has_put_all(rt: &impl Abort, home: &mut Home, numbers: &[u64]) -> bool {
    for number in numbers {
        if !has_put(rt, home, *number) {
            return false;
        }
    }
    true
}

/// Calls to double a table that has five keys, each with its answer.
const DOUBLINGS: [(Call, Answer); 3] = [
    (Call::Double(2), Answer::Double(Double::Doubled(4))),
    (Call::Double(2), Answer::Double(Double::Moved(4))),
    (Call::Double(4), Answer::Double(Double::Light)),
];

/// Puts keys 1 to 5 and doubles the size to 4. If memory for a key is refused twice, puts no more
/// keys, and returns false.
fn has_five_keys(rt: &impl Abort, home: &mut Home) -> bool {
    if !has_put_all(rt, home, &[1, 2, 3, 4]) {
        return false;
    }
    assert!(rt; home.make(Call::Double(2)) == Answer::Double(Double::Light));
    if !has_put(rt, home, 5) {
        return false;
    }
    make_all(rt, home, &DOUBLINGS);
    true
}

/// Each row has a call and its answer. The first four calls are refused. Then helper 0 initialises
/// bucket 1. Then both helpers initialise bucket 3, and their calls are interleaved.
const INITIALISED: [(Call, Answer); 16] = [
    (
        Call::Seek(0, 3),
        Answer::Seek(Err(InitRefusal::ParentMissing)),
    ),
    (
        Call::Seek(0, 4),
        Answer::Seek(Err(InitRefusal::NoSuchBucket)),
    ),
    (
        Call::Seek(2, 3),
        Answer::Seek(Err(InitRefusal::NoSuchHelper)),
    ),
    (
        Call::Link(0),
        Answer::Link(Err(InitRefusal::HelperOutOfOrder)),
    ),
    (Call::Seek(0, 1), Answer::Seek(Ok(InitSeek::Placed))),
    (Call::Link(0), Answer::Link(Ok(InitLink::Linked))),
    (Call::Store(0), Answer::Store(Ok(()))),
    (Call::Seek(0, 3), Answer::Seek(Ok(InitSeek::Placed))),
    (Call::Seek(1, 3), Answer::Seek(Ok(InitSeek::Placed))),
    (Call::Link(0), Answer::Link(Ok(InitLink::Linked))),
    (Call::Link(1), Answer::Link(Ok(InitLink::Again))),
    (Call::Seek(1, 3), Answer::Seek(Ok(InitSeek::Placed))),
    (Call::Link(1), Answer::Link(Ok(InitLink::Present))),
    (Call::Store(0), Answer::Store(Ok(()))),
    (Call::Store(1), Answer::Store(Ok(()))),
    (Call::Seek(1, 3), Answer::Seek(Ok(InitSeek::Ready))),
];

/// Puts the five keys, and initialises buckets 1 and 3. Returns false if memory for a key is
/// refused twice.
fn is_initialised(rt: &impl Abort, home: &mut Home) -> bool {
    if !has_five_keys(rt, home) {
        return false;
    }
    make_all(rt, home, &INITIALISED);
    assert!(rt; home.figures().0 == 4);
    true
}

/// A table for two helpers, which can grow to size 8. Returns `None` if memory is refused twice.
fn home_for_two(alloc: Global) -> Option<Home> {
    home_again(alloc, 8, 2)
}

/// Returns true if there was memory for a table and for its five keys.
fn is_filled(rt: &impl Abort, alloc: Global) -> bool {
    match home_for_two(alloc) {
        Some(mut home) => is_initialised(rt, &mut home),
        None => false,
    }
}

/// This test is meant to be run with allocations refused. The table or a key may be missing only if
/// memory is still refused at the end of the test.
#[test]
fn bucket_initialisation(rt: HostRuntime) {
    assert!(rt; is_filled(&rt, rt.alloc()) || is_refused(rt.alloc()));
}

/// The nodes of the list after `is_initialised`. Each row has a node's split key, kind and key.
const NODES: [Option<(u64, Kind, u64)>; 9] = [
    Some((0x0000_0000_0000_0000, Kind::Dummy, 0)),
    Some((0x2000_0000_0000_0001, Kind::Regular, 4)),
    Some((0x4000_0000_0000_0001, Kind::Regular, 2)),
    Some((0x8000_0000_0000_0000, Kind::Dummy, 0)),
    Some((0x8000_0000_0000_0001, Kind::Regular, 1)),
    Some((0xa000_0000_0000_0001, Kind::Regular, 5)),
    Some((0xc000_0000_0000_0000, Kind::Dummy, 0)),
    Some((0xc000_0000_0000_0001, Kind::Regular, 3)),
    None,
];

/// Calls `is_initialised`, and compares the nodes of the list with `NODES`.
fn nodes_are(rt: &impl Abort, home: &mut Home) {
    assert!(rt; is_initialised(rt, home));
    for (rank, wanted) in NODES.iter().enumerate() {
        assert!(rt; home.node(rank) == *wanted, "node {rank}");
    }
    assert!(rt; home.nearest(2) == Some(0));
    assert!(rt; home.nearest(3) == Some(0xc000_0000_0000_0000));
}

#[test]
fn nodes_after_initialisation(rt: HostRuntime) {
    nodes_are(&rt, &mut home_for_two(rt.alloc()).expect(&rt, "a table"));
}

/// Calls on a list that has no stamp left.
const STAMPS_USED_UP: [(Call, Answer); 5] = [
    (Call::Seek(0, 1), Answer::Seek(Ok(InitSeek::Placed))),
    (Call::Link(0), Answer::Link(Err(InitRefusal::StampsUsedUp))),
    (
        Call::Store(0),
        Answer::Store(Err(InitRefusal::HelperOutOfOrder)),
    ),
    (Call::Link(0), Answer::Link(Err(InitRefusal::StampsUsedUp))),
    (Call::Link(1), Answer::Link(Err(InitRefusal::NoSuchHelper))),
];

/// Calls to double a table of two buckets that may not grow, each with its answer.
const AT_LIMIT: [(Call, Answer); 2] = [
    (Call::Double(4), Answer::Double(Double::Moved(2))),
    (Call::Double(2), Answer::Double(Double::AtLimit)),
];

/// The text of each refusal.
const WORDS: [(InitRefusal, &str); 6] = [
    (
        InitRefusal::NoSuchBucket,
        "the bucket is not below the size",
    ),
    (
        InitRefusal::ParentMissing,
        "the bucket's parent is not stored",
    ),
    (InitRefusal::NoSuchHelper, "there is no such helper"),
    (
        InitRefusal::HelperOutOfOrder,
        "the helper has no cursor to link at, or no dummy to store",
    ),
    (
        InitRefusal::NoMemory,
        "no memory for the dummy or for its bucket's segment",
    ),
    (
        InitRefusal::StampsUsedUp,
        "the list has no stamp left for the dummy",
    ),
];

/// Makes the calls of `STAMPS_USED_UP` on a list that has no stamp left.
fn use_stamps_up(rt: &impl Abort, alloc: Global) {
    let mut home = Home::new(alloc, 18446744073709551614, 2, 1).expect(rt, "a table");
    make_all(rt, &mut home, &STAMPS_USED_UP);
    assert!(rt; home.nearest(1) == Some(0));
}

/// Makes the calls of `AT_LIMIT` on a table of two buckets that may not grow.
fn double_to_the_limit(rt: &impl Abort, alloc: Global) {
    let mut home = Home::new(alloc, 0, 2, 2).expect(rt, "a table");
    make_all(rt, &mut home, &AT_LIMIT);
    assert!(rt; home.figures().0 == 2);
}

#[test]
fn limits_and_refusals_in_words(rt: HostRuntime) -> Result<(), Fail> {
    use_stamps_up(&rt, rt.alloc());
    double_to_the_limit(&rt, rt.alloc());
    for (refusal, wanted) in WORDS.iter() {
        let words = format!(in rt.alloc(); "{refusal}")?;
        assert!(rt; words.as_str() == *wanted, "{wanted}");
    }
    Ok(())
}

/// Takes this number of spares from the list and gives none of them back, so their places stay
/// reserved.
fn keep_spares(home: &mut Home, spares: u32) -> Result<(), SpareFault> {
    for _ in 0..spares {
        if home.keep_spare().is_err() {
            home.keep_spare()?;
        }
    }
    Ok(())
}

/// Initialises bucket 1. If the link is refused memory, the buckets and the list must be unchanged,
/// and the link is tried once more. If the second link is also refused memory, the test fails.
fn initialise_1(rt: &impl Abort, home: &mut Home) -> Result<(), Fail> {
    let seen = home.figures();
    assert!(rt; home.make(Call::Seek(0, 1)) == Answer::Seek(Ok(InitSeek::Placed)));
    let mut answer = home.make(Call::Link(0));
    if answer == Answer::Link(Err(InitRefusal::NoMemory)) {
        assert!(rt; home.figures() == seen && home.nearest(1) == Some(0));
        answer = home.make(Call::Link(0));
    }
    if answer == Answer::Link(Err(InitRefusal::NoMemory)) {
        return Err("no memory for the link".into());
    }
    assert!(rt; answer == Answer::Link(Ok(InitLink::Linked)));
    assert!(rt; home.make(Call::Store(0)) == Answer::Store(Ok(())));
    Ok(())
}

/// This test is also run with each allocation refused in turn. After a refusal the buckets and the
/// list are unchanged, and the call succeeds when it is repeated.
#[test]
fn refused_allocations(rt: HostRuntime) -> Result<(), Fail> {
    for spares in 0..9 {
        initialise_anew(&rt, rt.alloc(), spares)?;
    }
    Ok(())
}

/// Keeps this number of spares (`keep_spares`), and then initialises bucket 1 of the two buckets.
fn initialise_with(rt: &impl Abort, home: &mut Home, spares: u32) -> Result<(), Fail> {
    keep_spares(home, spares)?;
    assert!(rt; home.figures() == (2, 0, 0));
    initialise_1(rt, home)?;
    assert!(rt; home.nearest(1) == Some(0x8000_0000_0000_0000));
    Ok(())
}

/// Runs `initialise_with` on a new table of two buckets.
fn initialise_anew(rt: &impl Abort, alloc: Global, spares: u32) -> Result<(), Fail> {
    match home_again(alloc, 2, 1) {
        Some(mut home) => initialise_with(rt, &mut home, spares),
        None => Err("no table".into()),
    }
}
