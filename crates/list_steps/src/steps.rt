// PROMISES nodes-and-cursors: look, link_at, mark_at, swap_at
//! The test of a cursor, and the steps that rely on its result: link, mark and swap. The steps are
//! separate from the test, so that a caller that has called `look` need not test again. The
//! contract of each step requires what the test has found. Each call takes constant time and no
//! memory.
ghost use Rattle.std.specs.Prelude.{◌≡◌, ◌<◌, ◌-◌, ◌^◌, is_ok, IsOk, IfOk};
ghost use Rattle.node_list.specs.Nodes.{IsLinked, IsOut, IsRegularAt, filled, place_of};
ghost use Rattle.node_list.specs.Order.{IsVacant};
ghost use Rattle.node_list.specs.Follow.{Follows};
ghost use Rattle.list_steps.specs.Found.{IsPlaced, fits, node_there, pred_of, change_number_of};
ghost use Rattle.list_steps.specs.Steps.{Finds, Links, Marks, Swaps};

use crate::cursor::{Again, Cursor};
use node_list::{NodeList, NodeRef, Spare};

/// The node after the cursor's first node, if it has the sort key sought.
fn node_there(list: &NodeList, cursor: &Cursor) -> Option<NodeRef>
    requires { IsLinked list.now.nodes (pred_of cursor.now) }
    ensures { result ≡ place_of (node_there list.now cursor.now) }
{
    let next = list.node(cursor.pred.place).next()?;
    if list.node(next).at == cursor.at {
        Some(next)
    } else {
        None
    }
}

/// Tests a cursor, and returns the node with the sort key sought. That node is unmarked. If it is
/// regular, its pair is in the content. Returns `None` if no linked node, marked or not, has the
/// sort key. In that case a node with this sort key belongs right after `cursor.pred()`.
///
/// The caller may rely on the result until the list changes. If the result is `None`, `link_at` may
/// link a node after `cursor.pred()`. If the result is a regular node, `mark_at` or `swap_at` may
/// change it.
///
/// # Errors
///
/// `Again` exactly if the cursor does not fit.
pub fn look(list: &NodeList, cursor: &Cursor) -> Result<Option<NodeRef>, Again>
    requires { IsPlaced list.now cursor.now }
    ensures again { is_ok result ≡ fits list.now cursor.now }
    ensures unchanged_since { list.now.changes ≡ change_number_of cursor.now
        → list.now.changes < 2 ^ 64 - 1 → IsOk result }
    ensures ok { IfOk result (Finds list.now cursor.now) }
{
    if cursor.is_fitting(list) {
        Ok(node_there(list, cursor))
    } else {
        Err(Again)
    }
}

/// Links the node of a spare right after the node `pred`, and returns the new node. The spare must
/// belong to this list, and a node with its sort key must belong right after `pred` (`IsVacant`).
///
/// If the new node is regular, its pair is added to the content. A dummy leaves the content
/// unchanged.
pub fn link_at(list: &mut NodeList, pred: NodeRef, spare: Spare) -> NodeRef
    requires out { IsOut list.old spare }
    requires vacant { IsVacant list.old.nodes pred spare.at }
    ensures links { Links list.old list.new pred (filled spare) }
    ensures place { result ≡ spare.place }
    ensures follows { Follows list.old list.new }
{
    let node = spare.node();
    list.link_after(pred, spare);
    node
}

/// Marks an unmarked regular node, and returns its value.
///
/// The node's pair is removed from the content. The node stays linked until a seek passes it or a
/// sweep reaches it (Harris, DISC 2001).
pub fn mark_at(list: &mut NodeList, node: NodeRef) -> u64
    requires { IsRegularAt list.old.nodes node }
    ensures marks { Marks list.old list.new node result }
    ensures follows { Follows list.old list.new }
{
    let value = list.node(node).value;
    list.set_mark(node);
    value
}

/// Writes a value into an unmarked regular node, and returns the value that the node had.
///
/// In the content, the node's pair keeps its position and gets the new value.
pub fn swap_at(list: &mut NodeList, node: NodeRef, value: u64) -> u64
    requires { IsRegularAt list.old.nodes node }
    ensures swaps { Swaps list.old list.new node result value }
    ensures follows { Follows list.old list.new }
{
    let was = list.node(node).value;
    list.write(node, value);
    was
}
