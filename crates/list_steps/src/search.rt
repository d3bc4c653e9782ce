// PROMISES nodes-and-cursors: seek
//! The seek: a walk from a node to the position of a sort key, which unlinks the marked nodes that
//! it passes. In this crate, only the seek and the sweep have loops over the list. All other steps
//! take constant time. Only a seek makes cursors, and a new cursor fits the list as the seek leaves
//! it.
ghost use Rattle.std.specs.Prelude.{◌≡◌, ◌-◌, length, true};
ghost use Rattle.node_list.specs.Nodes.{changes_after};
ghost use Rattle.node_list.specs.Follow.{Follows};
ghost use Rattle.list_steps.specs.Content.{pairs};
ghost use Rattle.list_steps.specs.Found.{IsFound, IsPlaced, fits, at_of};
ghost use Rattle.list_steps.specs.Seek.{IsStart, KeepsRest, sought};

use crate::cursor::Cursor;
use node_list::{NodeList, NodeRef};
use split_key::SortKey;

/// Walks from a dummy to the position of a sort key, and returns a cursor for this position. The
/// dummy must be before the position. The seek unlinks all marked nodes between the dummy and the
/// first unmarked node that is not below the sort key (the search of Harris, DISC 2001).
///
/// The cursor fits the list as the seek leaves it. The change number grows by the number of
/// unlinked nodes, but not above 2^64 - 1. The content and the spares that are out are unchanged.
///
/// # Cost
///
/// Time in proportion to the number of nodes from the dummy to the position. Each is visited once.
#[inline(always)]
pub fn seek(list: &mut NodeList, from: NodeRef, at: SortKey) -> Cursor
    requires { IsStart list.old.nodes from at }
    ensures nodes { list.new.nodes ≡ sought list.old.nodes from at }
    ensures changes { list.new.changes ≡
        changes_after list.old.changes (length list.old.nodes - length list.new.nodes) }
    ensures kept { KeepsRest list.old list.new }
    ensures content { pairs list.new.nodes ≡ pairs list.old.nodes }
    ensures found { IsFound list.new result }
    ensures placed { IsPlaced list.new result }
    ensures fits { fits list.new result ≡ true }
    ensures at { at_of result ≡ at }
    ensures follows { Follows list.old list.new }
{
    let mut place = from;
    let mut next = list.node(from).next();
    'search: while let Some(there) = next {
        let node = list.node(there);
        if node.marked {
            list.unlink_after(place);
            next = list.node(place).next();
        } else if node.at.is_before(at) {
            place = there;
            next = node.next();
        } else {
            return Cursor::between(list, place, next, at);
        }
    }
    Cursor::between(list, place, next, at)
}
