// PROMISES nodes-and-cursors: link, mark, swap
//! Each call of this module tests a cursor and takes one step at the cursor's position. `steps.rt`
//! has the test and the steps as separate calls. If the cursor does not fit, nothing changes, and a
//! spare that was passed in is returned. Of the linked nodes, a call touches only the two that the
//! cursor notes, so it takes constant time.
ghost use Rattle.std.specs.Prelude.{◌≡◌, ◌<◌, ◌-◌, ◌^◌, is_ok, IsOk, IfOk, IfErr, OnOk, OnErr};
ghost use Rattle.node_list.specs.Nodes.{IsOut, filled};
ghost use Rattle.node_list.specs.Follow.{Follows};
ghost use Rattle.list_steps.specs.Found.{IsKeyThere, IsPlaced, IsRoomFor, at_of, change_number_of, fits, pred_of};
ghost use Rattle.list_steps.specs.Steps.{Links, MarksThere, SwapsThere};

use crate::cursor::{Again, Cursor};
use crate::steps::{link_at, look, mark_at, swap_at};
use node_list::{NodeList, NodeRef, Spare};

/// Links the node of a spare at the cursor, and returns that node. The spare must belong to this
/// list, and its sort key must be the one sought. If the cursor fits, there must be no node with
/// that sort key (`look` says whether there is one).
///
/// If the node is regular, its pair is added to the content. A dummy leaves the content unchanged.
///
/// # Errors
///
/// `Again` exactly if the cursor does not fit; then nothing changes, and the spare is returned.
pub fn link(list: &mut NodeList, cursor: Cursor, spare: Spare) -> Result<NodeRef, (Again, Spare)>
    requires out { IsOut list.old spare }
    requires filled { spare.at ≡ at_of cursor }
    requires placed { IsPlaced list.old cursor }
    requires room { IsRoomFor list.old cursor }
    ensures again { is_ok result ≡ fits list.old cursor }
    ensures unchanged_since { list.old.changes ≡ change_number_of cursor
        → list.old.changes < 2 ^ 64 - 1 → IsOk result }
    ensures ok { OnOk result (Links list.old list.new (pred_of cursor) (filled spare)) }
    ensures place { IfOk result (λ node. node ≡ spare.place) }
    ensures unchanged { OnErr result (list.new ≡ list.old) }
    ensures back { IfErr result (λ e. e.1 ≡ spare) }
    ensures follows { Follows list.old list.new }
{
    if cursor.is_fitting(list) {
        Ok(link_at(list, cursor.pred(), spare))
    } else {
        Err((Again, spare))
    }
}

/// Marks the regular node with the sort key sought, and returns its value. If the cursor fits, that
/// node must be there (`look` says whether it is).
///
/// The node's pair is removed from the content. The node stays linked until a seek passes it or a
/// sweep reaches it.
///
/// # Errors
///
/// `Again` exactly if the cursor does not fit; then nothing changes.
pub fn mark(list: &mut NodeList, cursor: Cursor) -> Result<u64, Again>
    requires placed { IsPlaced list.old cursor }
    requires there { IsKeyThere list.old cursor }
    ensures again { is_ok result ≡ fits list.old cursor }
    ensures unchanged_since { list.old.changes ≡ change_number_of cursor
        → list.old.changes < 2 ^ 64 - 1 → IsOk result }
    ensures ok { IfOk result (MarksThere list.old list.new cursor) }
    ensures unchanged { OnErr result (list.new ≡ list.old) }
    ensures follows { Follows list.old list.new }
{
    match look(list, &cursor)? {
        Some(node) => Ok(mark_at(list, node)),
        None => unreachable!(),
    }
}

/// Writes a value into the regular node with the sort key sought, and returns the value that the
/// node had. If the cursor fits, that node must be there (`look` says whether it is).
///
/// In the content, the node's pair keeps its position and gets the new value.
///
/// # Errors
///
/// `Again` exactly if the cursor does not fit; then nothing changes.
pub fn swap(list: &mut NodeList, cursor: Cursor, value: u64) -> Result<u64, Again>
    requires placed { IsPlaced list.old cursor }
    requires there { IsKeyThere list.old cursor }
    ensures again { is_ok result ≡ fits list.old cursor }
    ensures unchanged_since { list.old.changes ≡ change_number_of cursor
        → list.old.changes < 2 ^ 64 - 1 → IsOk result }
    ensures ok { IfOk result (λ was. SwapsThere list.old list.new cursor was value) }
    ensures unchanged { OnErr result (list.new ≡ list.old) }
    ensures follows { Follows list.old list.new }
{
    match look(list, &cursor)? {
        Some(node) => Ok(swap_at(list, node, value)),
        None => unreachable!(),
    }
}
