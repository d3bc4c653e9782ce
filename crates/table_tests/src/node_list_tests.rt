//! Tests of `node_list`: that each call succeeds, and that a refused allocation leaves the list
//! unchanged. The contracts allow the list to refuse a spare even while memory is free. The lists
//! have at most two linked nodes, so a function here can test what a call requires before it makes
//! the call.
use node_list::{Kind, NodeList, NodeRef, SpareFault};
use split_key::{Key, SortKey};
use std::alloc::{AllocError, Global};
use std::process::Abort;
use std::test::Fail;

/// Makes a list. The stamp of its first node is `first_stamp` modulo 2^64 - 1, since
/// `NodeList::new` requires a stamp below 2^64 - 1. If memory is refused, tries once more.
fn list_again(alloc: Global, first_stamp: u64) -> Result<NodeList, AllocError> {
    let first_stamp = first_stamp % u64::MAX;
    match NodeList::new(alloc, first_stamp) {
        Ok(list) => Ok(list),
        Err(AllocError) => NodeList::new(alloc, first_stamp),
    }
}

/// Takes a spare and returns its stamp. The spare is not given back, so its place stays reserved.
fn stamp_of_spare(list: &mut NodeList) -> Result<u64, SpareFault> {
    Ok(list.spare()?.stamp())
}

/// Takes a spare, gives it back, and returns its stamp.
fn stamp_given_back(list: &mut NodeList) -> Result<u64, SpareFault> {
    let spare = list.spare()?;
    let stamp = spare.stamp();
    list.give_back(spare);
    Ok(stamp)
}

/// The counts of unmarked and of marked nodes, and the change number.
fn figures(list: &NodeList) -> (u64, u64, u64) {
    (list.count(), list.marked_count(), list.changes())
}

/// A call on a list.
#[derive(Clone, Copy)]
enum Call {
    /// Links the node of a key, with this value, after the first node.
    Link(u64, u64),
    /// Writes the value of the second node.
    Write(u64),
    /// Marks the second node.
    Mark,
    /// Unlinks the second node.
    Unlink,
}

/// Links the node of a key after the first node. Fails if the first node is not the last node.
fn link(list: &mut NodeList, number: u64, value: u64) -> Result<(), Fail> {
    let head = list.head();
    let mut spare = list.spare()?;
    if list.node(head).next().is_some() {
        return Err("a node behind the first".into());
    }
    spare.fill(SortKey::regular(Key::new(number)), Kind::Regular, value);
    let place = spare.node();
    list.link_after(head, spare);
    is_second(list, place)
}

/// The place of the second node.
fn second(list: &NodeList) -> Option<NodeRef> {
    list.linked_node(list.head())?.next()
}

/// Checks that the second node is at this place.
fn is_second(list: &NodeList, place: NodeRef) -> Result<(), Fail> {
    if second(list) != Some(place) {
        return Err("another second node".into());
    }
    Ok(())
}

/// Checks that no node is linked at a place.
fn is_vacant(list: &NodeList, place: NodeRef) -> Result<(), Fail> {
    if list.linked_node(place).is_some() {
        return Err("still linked".into());
    }
    Ok(())
}

/// The counts of unmarked and of marked nodes, the change number, and the key, the value and the
/// mark of the second node.
type Seen = ((u64, u64, u64), Option<(u64, u64, bool)>);

/// The visible state of the second node.
fn entry_of_second(list: &NodeList) -> Option<(u64, u64, bool)> {
    let node = list.linked_node(second(list)?)?;
    Some((node.at.key(), node.value, node.marked))
}

/// Writes the value of a node.
fn write(list: &mut NodeList, place: NodeRef, value: u64) -> Result<(), Fail> {
    let Some(_) = list.linked_node(place) else {
        return Err("no node".into());
    };
    list.write(place, value);
    Ok(())
}

/// Marks a node. Fails if the node is not an unmarked regular node.
fn mark(list: &mut NodeList, place: NodeRef) -> Result<(), Fail> {
    match list.linked_node(place) {
        Some(node) => {
            if node.marked || !matches!(node.kind, Kind::Regular) {
                return Err("not to be marked".into());
            }
        }
        None => return Err("no node".into()),
    }
    list.set_mark(place);
    Ok(())
}

/// Unlinks the second node, which must be marked, and tests that it is no longer linked.
fn unlink_second(list: &mut NodeList) -> Result<(), Fail> {
    let head = list.head();
    let Some(next) = list.node(head).next() else {
        return Err("no second node".into());
    };
    if !list.node(next).marked {
        return Err("not marked".into());
    }
    list.unlink_after(head);
    is_vacant(list, next)
}

/// Makes a call.
fn make(list: &mut NodeList, call: Call) -> Result<(), Fail> {
    match call {
        Call::Link(number, value) => link(list, number, value),
        Call::Write(value) => {
            let place = second(list).ok_or("no second node")?;
            write(list, place, value)
        }
        Call::Mark => {
            let place = second(list).ok_or("no second node")?;
            mark(list, place)
        }
        Call::Unlink => unlink_second(list),
    }
}

/// Each row has a call, and the visible state of the list after it.
const CALLS: [(Call, Seen); 4] = [
    (Call::Link(3, 30), ((1, 0, 1), Some((3, 30, false)))),
    (Call::Write(31), ((1, 0, 2), Some((3, 31, false)))),
    (Call::Mark, ((0, 1, 3), Some((3, 31, true)))),
    (Call::Unlink, ((0, 0, 4), None)),
];

/// Makes the calls of `CALLS`, and compares the list's state after each call with the wanted one.
fn make_all(rt: &impl Abort, list: &mut NodeList) -> Result<(), Fail> {
    for (row, (call, wanted)) in CALLS.iter().enumerate() {
        make(list, *call)?;
        assert!(rt;
            (figures(list), entry_of_second(list)) == *wanted,
            "row {row}"
        );
    }
    assert!(rt; stamp_given_back(list)? == 8);
    assert!(rt; stamp_of_spare(list)? == 9);
    Ok(())
}

#[test]
fn calls_in_turn(rt: HostRuntime) -> Result<(), Fail> {
    make_all(&rt, &mut list_again(rt.alloc(), 6).expect(&rt, "a list"))
}

/// The texts of both kinds of `SpareFault`.
const FAULTS: &str = "the list has no stamp left for a spare; the list got no memory for a spare";

/// Uses up the stamps of a list that has one stamp left.
fn use_stamps_up(rt: &impl Abort, list: &mut NodeList) {
    assert!(rt; stamp_of_spare(list) == Ok(18446744073709551614));
    assert!(rt; stamp_of_spare(list) == Err(SpareFault::Worn));
}

#[test]
fn stamps_used_up(rt: HostRuntime) -> Result<(), Fail> {
    let first = 18446744073709551613;
    use_stamps_up(
        &rt,
        &mut list_again(rt.alloc(), first).expect(&rt, "a list"),
    );
    let words = format!(in rt.alloc(); "{}; {}", SpareFault::Worn, SpareFault::NoMemory)?;
    assert!(rt; words.as_str() == FAULTS);
    Ok(())
}

/// This test is also run with each allocation refused in turn. After a refusal the list is
/// unchanged, and the next call for a spare succeeds.
#[test]
fn refused_allocations(rt: HostRuntime) -> Result<(), Fail> {
    keep_nine(&rt, &mut list_again(rt.alloc(), 0).expect(&rt, "a list"))
}

/// Takes nine spares, gives none of them back, and checks their stamps.
fn keep_nine(rt: &impl Abort, list: &mut NodeList) -> Result<(), Fail> {
    for wanted in 1..=9 {
        let stamp = match stamp_of_spare(list) {
            Ok(stamp) => stamp,
            Err(fault) => {
                assert!(rt; fault == SpareFault::NoMemory);
                assert!(rt; figures(list) == (0, 0, 0));
                stamp_of_spare(list)?
            }
        };
        assert!(rt; stamp == wanted, "{stamp}");
    }
    Ok(())
}
