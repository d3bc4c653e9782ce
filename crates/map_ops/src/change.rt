//! The functions that do an operation or an inverse on the list of a table. Only `seek_key` reads
//! the buckets, and no function here changes them. So every contract but that of `seek_key` speaks
//! of the list alone (`specs/Lists.antt`).
ghost use Rattle.std.specs.Prelude.{◌≡◌, ◌≤◌, Some, None, is_ok, nat_eq, IfOk, IfErr, IfSome, OnErr};
ghost use Rattle.std.specs.Option.{option_eq};
ghost use Rattle.node_list.specs.Follow.{Follows};
ghost use Rattle.node_list.specs.Nodes.{IsOut};
ghost use Rattle.node_list.specs.Sound.{IsSound};
ghost use Rattle.list_steps.specs.Found.{IsPlaced, at_of, fits, pred_of};
ghost use Rattle.split_key.specs.Sort.{regular_at};
ghost use Rattle.bucket_table.specs.Home.{IsHome};
ghost use Rattle.txn_words.specs.Map.{get, key_of};
ghost use Rattle.map_ops.specs.declared.pending.Plan.TheVariants.{Put as PutPlan, PutIf as PutIfPlan, Take as TakePlan};
ghost use Rattle.map_ops.specs.TableAt.{table_of};
ghost use Rattle.map_ops.specs.Jobs.{IsDue, key_of_job, spare_of_job};
ghost use Rattle.map_ops.specs.Plans.{pending_of};
ghost use Rattle.map_ops.specs.Changes.{Places, SeeksNear};
ghost use Rattle.map_ops.specs.Nodes.{JobWrites, LinksNode, MarksNode, OpWrites, PutWrites, TakeWrites, WritesNode, node_for};
ghost use Rattle.map_ops.specs.Lists.{Does, GivesBack, GivesOne, HasNode, HasGap, IsLacking, IsRefused, KeepsSpares, Prepares, Sets, Spends, Stands, TakesBack, content, place_in};
ghost use Rattle.map_ops.specs.Sound.{Belong};

use crate::job::MapJob;
use crate::pending::Plan;
use bucket_table::Buckets;
use list_steps::{Again, Cursor, link_at, look, mark_at, seek, swap_at};
use node_list::{Kind, NodeList, NodeRef, SpareFault, Unfilled};
use split_key::{Key, SortKey, bucket_of};
use txn_words::{Op, Refusal, Reply};

/// Takes a new spare from the list.
fn give_spare(list: &mut NodeList) -> Result<Unfilled, Refusal>
    requires { IsSound list.old }
    ensures ok { IfOk result (GivesOne list.old list.new) }
    ensures err { IfErr result (IsLacking list.old) }
    ensures unchanged { OnErr result (list.new ≡ list.old) }
    ensures follows { Follows list.old list.new }
{
    match list.spare() {
        Ok(spare) => Ok(spare.keep()),
        Err(SpareFault::Worn) => Err(Refusal::StampsUsedUp),
        Err(SpareFault::NoMemory) => Err(Refusal::NoMemory),
    }
}

/// Prepares an operation: takes the spare that it needs from the list.
#[inline(always)]
pub(crate) fn plan(list: &mut NodeList, op: Op) -> Result<Plan, Refusal>
    requires { IsSound list.old }
    ensures ok { IfOk result (λ plan. Prepares list.old list.new op (pending_of plan)) }
    ensures err { IfErr result (IsRefused list.old op) }
    ensures unchanged { OnErr result (list.new ≡ list.old) }
    ensures follows { Follows list.old list.new }
{
    match op {
        Op::Put(key, value) => {
            let spare = give_spare(list)?;
            Ok(Plan::Put(Key::new(key), value, spare))
        }
        Op::Take(key) => {
            let spare = give_spare(list)?;
            Ok(Plan::Take(Key::new(key), spare))
        }
        Op::PutIf(key, expected, value) => {
            let spare = give_spare(list)?;
            Ok(Plan::PutIf(Key::new(key), expected, value, spare))
        }
        Op::Get(key) => Ok(Plan::Get(Key::new(key))),
    }
}

/// Seeks a key.
#[inline(always)]
pub(crate) fn seek_key(list: &mut NodeList, buckets: &Buckets, key: Key) -> Cursor
    requires home { IsHome buckets.now list.old }
    requires sound { IsSound list.old }
    requires belong { Belong list.old.nodes }
    ensures places { Places (table_of list.old buckets.now) (table_of list.new buckets.now)
        key result }
    ensures near { SeeksNear (table_of list.old buckets.now) (table_of list.new buckets.now) key }
    ensures belong { Belong list.new.nodes }
    ensures rises { list.old.changes ≤ list.new.changes }
    ensures follows { Follows list.old list.new }
{
    let bucket = bucket_of(key, buckets.size());
    let from = buckets.nearest(bucket);
    seek(list, from, SortKey::regular(key))
}

/// Returns the node of a key, given a cursor that was placed for the key. Returns `Again` if the
/// cursor no longer fits. If it fits and the key has no node, returns `None`: a node of the key
/// then belongs right after `cursor.pred()`.
pub(crate) fn find(list: &NodeList, cursor: &Cursor, key: Key) -> Result<Option<NodeRef>, Again>
    requires sound { IsSound list.now }
    requires belong { Belong list.now.nodes }
    requires placed { IsPlaced list.now cursor.now }
    requires at { at_of cursor.now ≡ regular_at key }
    ensures again { is_ok result ≡ fits list.now cursor.now }
    ensures ok { IfOk result (Stands list.now key (pred_of cursor.now)) }
{
    look(list, cursor)
}

/// Links a node for an absent key, right after `pred`.
fn link_key(list: &mut NodeList, pred: NodeRef, key: Key, value: u64, spare: Unfilled)
    requires sound { IsSound list.old }
    requires belong { Belong list.old.nodes }
    requires room { HasGap list.old key pred }
    requires owned { IsOut list.old spare }
    ensures sets { Sets list.old list.new key (Some value) }
    ensures spares { Spends list.old list.new (Some spare) }
    ensures writes { LinksNode list.old list.new (node_for key value spare) }
    ensures belong { Belong list.new.nodes }
    ensures follows { Follows list.old list.new }
{
    let mut node = spare.into_spare();
    node.fill(SortKey::regular(key), Kind::Regular, value);
    let _ = link_at(list, pred, node);
}

/// Writes a new value for a key that is present, and returns the old value.
fn swap_key(list: &mut NodeList, node: NodeRef, key: Key, value: u64) -> u64
    requires sound { IsSound list.old }
    requires belong { Belong list.old.nodes }
    requires there { HasNode list.old key node }
    ensures was { get (content list.old) key ≡ Some result }
    ensures sets { Sets list.old list.new key (Some value) }
    ensures spares { KeepsSpares list.old list.new }
    ensures writes { WritesNode list.old list.new key value }
    ensures belong { Belong list.new.nodes }
    ensures follows { Follows list.old list.new }
{
    swap_at(list, node, value)
}

/// Marks the node of a key that is present, and returns the key's value.
fn mark_key(list: &mut NodeList, node: NodeRef, key: Key) -> u64
    requires sound { IsSound list.old }
    requires belong { Belong list.old.nodes }
    requires there { HasNode list.old key node }
    ensures was { get (content list.old) key ≡ Some result }
    ensures sets { Sets list.old list.new key None }
    ensures spares { KeepsSpares list.old list.new }
    ensures writes { MarksNode list.old list.new key }
    ensures belong { Belong list.new.nodes }
    ensures follows { Follows list.old list.new }
{
    mark_at(list, node)
}

/// Gives a spare back to the list.
fn give_back(list: &mut NodeList, spare: Unfilled)
    requires { IsOut list.old spare }
    ensures back { GivesBack list.old list.new (Some spare) }
    ensures follows { Follows list.old list.new }
{
    list.give_back(spare.into_spare());
}

/// Gives a spare back to the list, if there is one.
pub(crate) fn give_up(list: &mut NodeList, spare: Option<Unfilled>)
    requires { IfSome spare (IsOut list.old) }
    ensures back { GivesBack list.old list.new spare }
    ensures follows { Follows list.old list.new }
{
    if let Some(spare) = spare {
        give_back(list, spare);
    }
}

/// Returns true if the key had the expected value, or if it had no value and none was expected.
fn is_expected(was: Reply, expected: Reply) -> bool
    ensures { result ≡ option_eq nat_eq was expected }
{
    was == expected
}

/// Puts a value. Returns the value that the key had and the job that takes the change back.
#[inline(always)]
fn put_key(
    list: &mut NodeList,
    pred: NodeRef,
    there: Option<NodeRef>,
    key: Key,
    value: u64,
    spare: Unfilled,
) -> (Reply, Option<MapJob>)
    requires sound { IsSound list.old }
    requires belong { Belong list.old.nodes }
    requires stands { Stands list.old key pred there }
    requires owned { IsOut list.old spare }
    ensures does { Does list.old list.new (pending_of (PutPlan key value spare))
        result.0 result.1 }
    ensures writes { PutWrites list.old list.new key value (Some spare) result.0 }
    ensures belong { Belong list.new.nodes }
    ensures follows { Follows list.old list.new }
{
    match there {
        None => {
            link_key(list, pred, key, value, spare);
            (None, Some(MapJob::Unput(key)))
        }
        Some(node) => {
            let old = swap_key(list, node, key, value);
            give_back(list, spare);
            (Some(old), Some(MapJob::Restore(key, old)))
        }
    }
}

/// Puts a value if the key has the expected one, else leaves the key unchanged. Returns the value
/// that the key had and, if a value was put, the job that takes the change back.
fn put_if_key(
    list: &mut NodeList,
    pred: NodeRef,
    there: Option<NodeRef>,
    key: Key,
    expected: Reply,
    value: u64,
    spare: Unfilled,
) -> (Reply, Option<MapJob>)
    requires sound { IsSound list.old }
    requires belong { Belong list.old.nodes }
    requires stands { Stands list.old key pred there }
    requires owned { IsOut list.old spare }
    ensures does { Does list.old list.new (pending_of (PutIfPlan key expected value spare))
        result.0 result.1 }
    ensures writes { OpWrites list.old list.new
        (pending_of (PutIfPlan key expected value spare)).op (Some spare)
        (get (content list.old) key) }
    ensures belong { Belong list.new.nodes }
    ensures follows { Follows list.old list.new }
{
    let was = match there {
        None => None,
        Some(node) => Some(list.node(node).value),
    };
    if is_expected(was, expected) {
        put_key(list, pred, there, key, value, spare)
    } else {
        give_back(list, spare);
        (was, None)
    }
}

/// Takes a key out. Returns the value that the key had and, if it had one, the job that puts the
/// key back.
fn take_key(
    list: &mut NodeList,
    pred: NodeRef,
    there: Option<NodeRef>,
    key: Key,
    spare: Unfilled,
) -> (Reply, Option<MapJob>)
    requires sound { IsSound list.old }
    requires belong { Belong list.old.nodes }
    requires stands { Stands list.old key pred there }
    requires owned { IsOut list.old spare }
    ensures does { Does list.old list.new (pending_of (TakePlan key spare)) result.0 result.1 }
    ensures writes { TakeWrites list.old list.new key (get (content list.old) key) }
    ensures belong { Belong list.new.nodes }
    ensures follows { Follows list.old list.new }
{
    match there {
        None => {
            give_back(list, spare);
            (None, None)
        }
        Some(node) => {
            let old = mark_key(list, node, key);
            (Some(old), Some(MapJob::Relink(key, old, spare)))
        }
    }
}

/// Does an operation at the node of its key. If the key has no node, does the operation right after
/// `pred`. Returns the value that the key had and, if the operation is a change, the job that takes
/// the change back.
#[inline(always)]
pub(crate) fn change(
    list: &mut NodeList,
    plan: Plan,
    pred: NodeRef,
    there: Option<NodeRef>,
) -> (Reply, Option<MapJob>)
    requires sound { IsSound list.old }
    requires belong { Belong list.old.nodes }
    requires stands { Stands list.old (key_of (pending_of plan).op) pred there }
    requires owned { IfSome (pending_of plan).spare (IsOut list.old) }
    ensures does { Does list.old list.new (pending_of plan) result.0 result.1 }
    ensures writes { OpWrites list.old list.new (pending_of plan).op (pending_of plan).spare
        (get (content list.old) (key_of (pending_of plan).op)) }
    ensures belong { Belong list.new.nodes }
    ensures follows { Follows list.old list.new }
{
    match plan {
        Plan::Put(key, value, spare) => put_key(list, pred, there, key, value, spare),
        Plan::PutIf(key, expected, value, spare) => {
            put_if_key(list, pred, there, key, expected, value, spare)
        }
        Plan::Take(key, spare) => take_key(list, pred, there, key, spare),
        Plan::Get(_) => match there {
            None => (None, None),
            Some(node) => (Some(list.node(node).value), None),
        },
    }
}

/// Returns the place of a key's node. If the key has no node, returns the place of the node after
/// which the key's node belongs.
fn place_in(pred: NodeRef, there: Option<NodeRef>) -> NodeRef
    ensures { result ≡ place_in pred there }
{
    match there {
        None => pred,
        Some(node) => node,
    }
}

/// Takes a change back at the node of its key. If the key has no node, links one right after
/// `pred`.
pub(crate) fn restore(list: &mut NodeList, job: MapJob, pred: NodeRef, there: Option<NodeRef>)
    requires sound { IsSound list.old }
    requires belong { Belong list.old.nodes }
    requires stands { Stands list.old (key_of_job job) pred there }
    requires due { IsDue (content list.old) job }
    requires owned { IfSome (spare_of_job job) (IsOut list.old) }
    ensures back { TakesBack list.old list.new job }
    ensures writes { JobWrites list.old list.new job }
    ensures belong { Belong list.new.nodes }
    ensures follows { Follows list.old list.new }
{
    let place = place_in(pred, there);
    match job {
        MapJob::Unput(key) => {
            let _ = mark_key(list, place, key);
        }
        MapJob::Restore(key, old) => {
            let _ = swap_key(list, place, key, old);
        }
        MapJob::Relink(key, old, spare) => link_key(list, place, key, old, spare),
    }
}
