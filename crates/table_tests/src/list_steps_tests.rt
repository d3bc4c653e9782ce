//! Tests of `list_steps`: worked runs, and five hundred drawn steps that are compared with a plain
//! list of eight keys. No contract says that the list gives a spare while memory is free. Each step
//! requires that its cursor is placed, so the functions that take a cursor have contracts.
ghost use Rattle.std.specs.Prelude.{◌≡◌, ℕ, IfOk, IsTrue};
ghost use Rattle.split_key.specs.Sort.{IsBefore, dummy_at, regular_at};
ghost use Rattle.node_list.specs.Nodes.{IsOut, IsRegularAt, out_at};
ghost use Rattle.node_list.specs.Follow.{Follows};
ghost use Rattle.list_steps.specs.Found.{IsKeyThere, IsPlaced, at_of};

use list_steps::{
    Again, Cursor, SweepOutcome, link, link_at, look, mark, mark_at, seek, swap, swap_at, sweep,
    sweep_from,
};
use node_list::{Kind, NodeList, NodeRef, Spare, SpareFault};
use split_key::{Key, SortKey, bucket_at};
use std::alloc::{AllocError, Global};
use std::process::Abort;
use std::test::Fail;

/// The sort key of a key's node.
fn at(number: u64) -> SortKey
    ensures { IsBefore (dummy_at 0) result }
{
    SortKey::regular(Key::new(number))
}

/// Takes a spare from the list and fills it as a regular node.
fn regular_spare(list: &mut NodeList, at: SortKey, value: u64) -> Result<Spare, SpareFault>
    ensures out { IfOk result (IsOut list.new) }
    ensures at { IfOk result (λ spare. spare.at ≡ at) }
    ensures follows { Follows list.old list.new }
{
    let mut spare = list.spare()?;
    spare.fill(at, Kind::Regular, value);
    Ok(spare)
}

/// Seeks from the dummy of bucket 0.
fn seek_from_head(list: &mut NodeList, at: SortKey) -> Cursor
    requires { IsBefore (dummy_at 0) at }
    ensures placed { IsPlaced list.new result }
    ensures at { at_of result ≡ at }
    ensures out { (place : ℕ) → out_at list.new place ≡ out_at list.old place }
    ensures follows { Follows list.old list.new }
{
    let head = list.head();
    seek(list, head, at)
}

/// Returns true if the cursor fits the list, and the list has a regular node with the cursor's sort
/// key.
fn is_key_there(list: &NodeList, cursor: &Cursor) -> bool
    requires { IsPlaced list.now cursor.now }
    ensures { IsTrue result → IsKeyThere list.now cursor.now }
{
    match look(list, cursor) {
        Ok(Some(node)) => matches!(list.node(node).kind, Kind::Regular),
        _ => false,
    }
}

/// The regular node with the cursor's sort key. Fails if there is no such node.
fn regular_there(list: &NodeList, cursor: &Cursor) -> Result<NodeRef, Fail>
    requires { IsPlaced list.now cursor.now }
    ensures { IfOk result (IsRegularAt list.now.nodes) }
{
    if let Ok(Some(node)) = look(list, cursor) {
        if matches!(list.node(node).kind, Kind::Regular) {
            return Ok(node);
        }
    }
    Err("the key is not there".into())
}

/// Links a spare at a cursor. Fails if the cursor does not fit the list, or if the list already has
/// a node with the cursor's sort key.
fn link_here(list: &mut NodeList, cursor: &Cursor, spare: Spare) -> Result<NodeRef, Fail>
    requires placed { IsPlaced list.old cursor.now }
    requires out { IsOut list.old spare }
    requires at { spare.at ≡ at_of cursor.now }
    ensures follows { Follows list.old list.new }
{
    match look(list, cursor) {
        Ok(None) => Ok(link_at(list, cursor.pred(), spare)),
        _ => Err("the cursor does not fit, or the key is there".into()),
    }
}

/// Links a new node for a key that the list does not have.
fn put(list: &mut NodeList, number: u64, value: u64) -> Result<(), Fail> {
    let at = at(number);
    let spare = regular_spare(list, at, value)?;
    let cursor = seek_from_head(list, at);
    let _ = link_here(list, &cursor, spare)?;
    Ok(())
}

/// Marks the node of a key that is there, and returns the key's value.
fn take(list: &mut NodeList, number: u64) -> Result<u64, Fail> {
    let at = at(number);
    let cursor = seek_from_head(list, at);
    let node = regular_there(list, &cursor)?;
    Ok(mark_at(list, node))
}

/// Writes the value of a key that is there, and returns the value before the write.
fn write(list: &mut NodeList, number: u64, value: u64) -> Result<u64, Fail> {
    let at = at(number);
    let cursor = seek_from_head(list, at);
    let node = regular_there(list, &cursor)?;
    Ok(swap_at(list, node, value))
}

/// The kind, the key and the mark of the first twelve nodes of a list.
fn nodes(alloc: Global, list: &NodeList) -> Result<Vec<(Kind, u64, bool)>, AllocError> {
    let mut nodes = Vec::new(alloc);
    let mut next = Some(list.head());
    for _ in 0..12 {
        let node = next.and_then(|place| list.linked_node(place));
        if let Some(node) = node {
            nodes.push((node.kind, node.at.key(), node.marked))?;
        }
        next = node.and_then(|node| node.next());
    }
    Ok(nodes)
}

/// Links a spare for a key at a cursor. Fails if the cursor does not fit or the key is there.
fn link_fitting(
    list: &mut NodeList,
    cursor: Cursor,
    at: SortKey,
    value: u64,
) -> Result<NodeRef, Fail>
    requires placed { IsPlaced list.old cursor }
    requires at { at_of cursor ≡ at }
    ensures follows { Follows list.old list.new }
{
    let spare = regular_spare(list, at, value)?;
    if look(list, &cursor) != Ok(None) {
        return Err("the cursor does not fit, or the key is there".into());
    }
    match link(list, cursor, spare) {
        Ok(node) => Ok(node),
        Err(_) => Err("the cursor does not fit".into()),
    }
}

/// Tries to link a spare for a key at a cursor that does not fit, so `link` must return the spare.
/// Then links the spare at a new cursor, which must be after the last node.
fn link_stale(
    list: &mut NodeList,
    cursor: Cursor,
    at: SortKey,
    value: u64,
    last: NodeRef,
) -> Result<(), Fail>
    requires placed { IsPlaced list.old cursor }
    requires at { at_of cursor ≡ at }
    requires first { IsBefore (dummy_at 0) at }
{
    let spare = regular_spare(list, at, value)?;
    let stamp = spare.stamp();
    if look(list, &cursor) != Err(Again) {
        return Err("the stale cursor fits".into());
    }
    let Err((Again, spare)) = link(list, cursor, spare) else {
        return Err("linked at a stale cursor".into());
    };
    if spare.stamp() != stamp {
        return Err("another spare came back".into());
    }
    let cursor = seek_from_head(list, at);
    if cursor.pred() != last || is_followed(list, last) {
        return Err("not behind the last node".into());
    }
    let _ = link_here(list, &cursor, spare)?;
    Ok(())
}

/// Returns true if a node follows this node in the list.
fn is_followed(list: &NodeList, node: NodeRef) -> bool {
    list.linked_node(node)
        .and_then(|node| node.next())
        .is_some()
}

/// Seeks keys 2 and 4 in a new list. Links key 4 first, so that the cursor of key 2 no longer fits.
/// Then links key 2 with `link_stale`.
fn put_both(list: &mut NodeList) -> Result<(), Fail> {
    let (at_two, at_four) = (at(2), at(4));
    let early = seek_from_head(list, at_two);
    let late = seek_from_head(list, at_four);
    let four = link_fitting(list, late, at_four, 40)?;
    link_stale(list, early, at_two, 20, four)
}

/// Seeks a key that is there, marks its node at the cursor, and returns the key's value.
fn take_there(list: &mut NodeList, number: u64) -> Result<u64, Fail> {
    let at = at(number);
    let cursor = seek_from_head(list, at);
    if !is_key_there(list, &cursor) {
        return Err("the key is not there".into());
    }
    match mark(list, cursor) {
        Ok(value) => Ok(value),
        Err(_) => Err("the cursor does not fit".into()),
    }
}

/// Writes the value of a key that is there, at its cursor. Returns the value before the write.
fn write_there(list: &mut NodeList, number: u64, value: u64) -> Result<u64, Fail> {
    let at = at(number);
    let cursor = seek_from_head(list, at);
    if !is_key_there(list, &cursor) {
        return Err("the key is not there".into());
    }
    match swap(list, cursor, value) {
        Ok(before) => Ok(before),
        Err(_) => Err("the cursor does not fit".into()),
    }
}

/// Checks the kind, the key and the mark of each node after the dummy of bucket 0.
fn has_nodes(
    rt: &impl Abort,
    alloc: Global,
    list: &NodeList,
    wanted: &[(Kind, u64, bool)],
) -> Result<(), Fail> {
    let nodes = nodes(alloc, list)?;
    assert!(rt; nodes.first() == Some(&(Kind::Dummy, 0, false)));
    assert!(rt; nodes.get(1..) == Some(wanted));
    Ok(())
}

/// Links key 4 and then key 2, whose first cursor is stale. Then marks and sweeps the node of key
/// 4.
fn put_and_sweep(rt: &impl Abort, alloc: Global, list: &mut NodeList) -> Result<(), Fail> {
    let regular = Kind::Regular;
    put_both(list)?;
    has_nodes(rt, alloc, list, &[(regular, 4, false), (regular, 2, false)])?;
    assert!(rt; take_there(list, 4)? == 40);
    has_nodes(rt, alloc, list, &[(regular, 4, true), (regular, 2, false)])?;
    assert!(rt; sweep(list) == SweepOutcome::Swept);
    assert!(rt; sweep(list) == SweepOutcome::Clean);
    has_nodes(rt, alloc, list, &[(regular, 2, false)])?;
    assert!(rt; list.marked_count() == 0 && list.changes() == 4);
    Ok(())
}

/// Writes values of keys, at a cursor and at a node.
fn put_and_write(rt: &impl Abort, list: &mut NodeList) -> Result<(), Fail> {
    put(list, 3, 30)?;
    assert!(rt; write(list, 3, 31)? == 30);
    assert!(rt; write_there(list, 3, 32)? == 31);
    assert!(rt; take(list, 3)? == 32);
    Ok(())
}

/// A list without keys.
fn new_list(rt: &impl Abort, alloc: Global) -> NodeList {
    NodeList::new(alloc, 0).expect(rt, "a list")
}

#[test]
fn list_steps_in_order(rt: HostRuntime) -> Result<(), Fail> {
    put_and_sweep(&rt, rt.alloc(), &mut new_list(&rt, rt.alloc()))?;
    put_and_write(&rt, &mut new_list(&rt, rt.alloc()))?;
    let words = format!(in rt.alloc(); "{Again}")?;
    assert!(rt; words.as_str() == "the list is not as the cursor noted it");
    Ok(())
}

/// The state of a key in a plain list.
#[derive(Clone, Copy, PartialEq, Eq)]
enum Plain {
    Absent,
    Live,
    Marked,
}

/// The keys below 8 in the order of the list. The dummy of bucket 1 is before the fifth key.
const ORDER: [u64; 8] = [0, 4, 2, 6, 1, 5, 3, 7];

/// Does on a plain list what a seek of the key at `rank` does. The seek unlinks the marked nodes
/// before the first unmarked node that is not below the key. That unmarked node may be the dummy of
/// bucket 1.
fn seek_plainly(plain: &mut [Plain; 8], rank: usize) {
    for (at, state) in plain.iter_mut().enumerate() {
        if (at >= rank && *state == Plain::Live) || (at == 4 && rank < 4) {
            return;
        }
        if *state == Plain::Marked {
            *state = Plain::Absent;
        }
    }
}

/// Unlinks the first marked node.
fn sweep_plainly(plain: &mut [Plain; 8]) -> SweepOutcome {
    for state in plain.iter_mut() {
        if *state == Plain::Marked {
            *state = Plain::Absent;
            return SweepOutcome::Swept;
        }
    }
    SweepOutcome::Clean
}

/// The kind, the key and the mark of each node of a plain list.
fn plain_nodes(alloc: Global, plain: &[Plain; 8]) -> Result<Vec<(Kind, u64, bool)>, AllocError> {
    let mut nodes = Vec::new(alloc);
    nodes.push((Kind::Dummy, 0, false))?;
    for (rank, state) in plain.iter().enumerate() {
        if rank == 4 {
            nodes.push((Kind::Dummy, 0, false))?;
        }
        match (*state, ORDER.get(rank)) {
            (Plain::Live, Some(key)) => nodes.push((Kind::Regular, *key, false))?,
            (Plain::Marked, Some(key)) => nodes.push((Kind::Regular, *key, true))?,
            _ => {}
        }
    }
    Ok(nodes)
}

/// The beginning of the region of the first marked key, or `None` if no key is marked. A list
/// counts its marks for each region of 2^52 split keys. The keys below 8 are in different regions.
fn plain_marks_begin(plain: &[Plain; 8]) -> Option<u64> {
    for (rank, state) in plain.iter().enumerate() {
        if *state == Plain::Marked {
            return Some((rank as u64) << 61);
        }
    }
    None
}

/// Links the dummy of bucket 1, which must not be linked yet.
fn dummy_of_1(list: &mut NodeList) -> Result<NodeRef, Fail> {
    let at = SortKey::dummy(1);
    let mut spare = list.spare()?;
    spare.fill(at, Kind::Dummy, 0);
    let cursor = seek_from_head(list, at);
    link_here(list, &cursor, spare)
}

/// Sweeps from a dummy if there are marked nodes and none of them can be before the dummy.
/// Otherwise sweeps from the head.
fn sweep_from_dummy(list: &mut NodeList, dummy: NodeRef) -> SweepOutcome {
    if let Some(split) = list.marks_begin() {
        let bucket = bucket_at(split, 8);
        if let Some(node) = list.linked_node(dummy) {
            if let Kind::Dummy = node.kind {
                if !SortKey::dummy(bucket).is_before(node.at) {
                    return sweep_from(list, dummy);
                }
            }
        }
    }
    sweep(list)
}

/// If the key at this rank is live in the plain list, takes it from both lists. Otherwise puts it
/// into both lists.
fn take_or_put(list: &mut NodeList, plain: &mut [Plain; 8], rank: usize) -> Result<(), Fail> {
    seek_plainly(plain, rank);
    let key = *ORDER.get(rank).ok_or("no such rank")?;
    let state = plain.get_mut(rank).ok_or("no such rank")?;
    if *state == Plain::Live {
        *state = Plain::Marked;
        take(list, key)?;
    } else {
        *state = Plain::Live;
        put(list, key, key)?;
    }
    Ok(())
}

/// Takes the step that a drawn number stands for, on a list and on a plain list.
fn take_step(
    list: &mut NodeList,
    plain: &mut [Plain; 8],
    dummy: NodeRef,
    drawn: u64,
) -> Result<(), Fail> {
    let outcome = match drawn >> 56 & 7 {
        0 => sweep(list),
        1 => sweep_from_dummy(list, dummy),
        _ => return take_or_put(list, plain, (drawn >> 61) as usize),
    };
    if outcome != sweep_plainly(plain) {
        return Err("another outcome".into());
    }
    Ok(())
}

/// Compares a list with a plain list. Returns true if both have the same nodes, and if the marked
/// nodes of both begin at the same split key.
fn is_as_plain(alloc: Global, list: &NodeList, plain: &[Plain; 8]) -> Result<bool, AllocError> {
    let found = nodes(alloc, list)?;
    let wanted = plain_nodes(alloc, plain)?;
    Ok(found.as_slice() == wanted.as_slice() && list.marks_begin() == plain_marks_begin(plain))
}

/// Takes a drawn step on a list and on a plain list, and compares the two lists.
fn compare_step(
    rt: &impl Abort,
    alloc: Global,
    list: &mut NodeList,
    plain: &mut [Plain; 8],
    dummy: NodeRef,
    drawn: u64,
) -> Result<(), Fail> {
    take_step(list, plain, dummy, drawn)?;
    assert!(rt; is_as_plain(alloc, list, plain)?, "after {drawn}");
    Ok(())
}

/// Takes 500 drawn steps on a list and on a plain list, and compares the two after each step.
fn draw_steps(rt: &impl Abort, alloc: Global, list: &mut NodeList) -> Result<(), Fail> {
    let dummy = dummy_of_1(list)?;
    let mut plain = [Plain::Absent; 8];
    let mut drawn: u64 = 1;
    for _ in 0..500 {
        drawn = drawn
            .wrapping_mul(6_364_136_223_846_793_005)
            .wrapping_add(1_442_695_040_888_963_407);
        compare_step(rt, alloc, list, &mut plain, dummy, drawn)?;
    }
    Ok(())
}

#[test]
fn marks_and_sweeps_in_a_drawn_order(rt: HostRuntime) -> Result<(), Fail> {
    draw_steps(&rt, rt.alloc(), &mut new_list(&rt, rt.alloc()))
}
