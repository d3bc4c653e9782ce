//! Cursors, and the test whether a cursor still fits. A cursor notes the sort key sought and two
//! neighbouring nodes, each by its place and its stamp. No stamp is used twice, so a new node at an
//! old place is not mistaken for the old node.
ghost use Rattle.std.specs.Prelude.{◌≡◌, Some, true, ◌==◌, ◌&&◌, not};
ghost use Rattle.node_list.specs.Nodes.{IsLinked, next_of, node_of, place_of};
ghost use Rattle.node_list.specs.Sound.{IsSound};
ghost use Rattle.list_steps.specs.Text.{again_text};

use node_list::{Node, NodeList, NodeRef};
use split_key::SortKey;
use std::fmt;
use std::fmt::Display;

/// What a cursor notes of a node: its place and its stamp. No other node at this place has the same
/// stamp.
#[derive(Clone, Copy, Debug, PartialEq, Eq)]
pub struct Noted {
    pub(crate) place: NodeRef,
    pub(crate) stamp: u64,
}

/// The position of a sort key in a list, as a seek found it.
///
/// A cursor is plain data: the list may change while the cursor is kept, and `look` tests whether
/// the cursor still fits.
#[derive(Clone, Copy, Debug, PartialEq, Eq)]
pub struct Cursor {
    pub(crate) pred: Noted,
    pub(crate) cur: Option<Noted>,
    pub(crate) at: SortKey,
    pub(crate) changes: u64,
}

/// The cursor does not fit, because the list is no longer as the cursor noted it. The caller must
/// seek again. This error is printed as `the list is not as the cursor noted it`.
#[derive(Clone, Copy, Debug, PartialEq, Eq)]
pub struct Again;

impl Display for Again {
    ghost output = { λ _. Some again_text };

    fn fmt<W: fmt::Write>(&self, f: &mut fmt::Formatter<W>) -> fmt::Result {
        f.write_str("the list is not as the cursor noted it")
    }
}

impl std::error::Error for Again {}

impl Noted {
    ghost use Rattle.list_steps.specs.Found.{noted};

    /// Notes the node that is linked at a place.
    fn of(list: &NodeList, place: NodeRef) -> Noted
        requires { IsLinked list.now.nodes place }
        ensures noted { noted (node_of list.now.nodes place) ≡ Some result }
        ensures sound { IsSound list.now }
    {
        Noted {
            place,
            stamp: list.node(place).stamp,
        }
    }
}

/// Whether this node has this stamp and is unmarked.
fn is_unmarked_with(node: &Node, stamp: u64) -> bool
    ensures { result ≡ (node.now.stamp == stamp && not node.now.marked) }
{
    node.stamp == stamp && !node.marked
}

impl Cursor {
    ghost use Rattle.list_steps.specs.Seek.{IsPred};
    ghost use Rattle.list_steps.specs.Found.{IsBeyond, IsFound, IsPlaced, behind, fits, is_next_noted, pred_of, at_of};

    /// The cursor for a sort key. The position of the sort key is between the node at `place` and
    /// the next node, or at the end of the list if there is no next node.
    pub(crate) fn between(
        list: &NodeList,
        place: NodeRef,
        next: Option<NodeRef>,
        at: SortKey,
    ) -> Cursor
        requires pred { IsPred list.now.nodes place at }
        requires next { place_of (next_of list.now.nodes place) ≡ next }
        requires beyond { IsBeyond (next_of list.now.nodes place) at }
        ensures found { IsFound list.now result }
        ensures placed { IsPlaced list.now result }
        ensures fits { fits list.now result ≡ true }
        ensures at { at_of result ≡ at }
    {
        Cursor {
            pred: Noted::of(list, place),
            cur: match next {
                Some(next) => Some(Noted::of(list, next)),
                None => None,
            },
            at,
            changes: list.changes(),
        }
    }

    /// The cursor's first node. If the cursor fits and no node has the sort key sought, a node with
    /// this sort key belongs right after the first node.
    pub fn pred(&self) -> NodeRef
        ensures { result ≡ pred_of self.now }
    {
        self.pred.place
    }

    /// Returns true if the node after the cursor's first node is the second node that the cursor
    /// noted, and is unmarked. If the cursor noted no second node, returns true if the first node
    /// is still the last of the list.
    fn is_next_fitting(&self, list: &NodeList) -> bool
        requires { IsLinked list.now.nodes (pred_of self.now) }
        ensures { result ≡ is_next_noted (behind list.now self.now) self.now.cur }
    {
        match (list.node(self.pred.place).next(), self.cur) {
            (None, None) => true,
            (Some(next), Some(cur)) => {
                next == cur.place && is_unmarked_with(list.node(next), cur.stamp)
            }
            (None, Some(_)) => false,
            (Some(_), None) => false,
        }
    }

    /// Whether the list is still as the cursor noted it.
    pub(crate) fn is_fitting(&self, list: &NodeList) -> bool
        ensures fits { result ≡ fits list.now self.now }
        ensures sound { IsSound list.now }
    {
        match list.linked_node(self.pred.place) {
            Some(pred) => is_unmarked_with(pred, self.pred.stamp) && self.is_next_fitting(list),
            None => false,
        }
    }
}
