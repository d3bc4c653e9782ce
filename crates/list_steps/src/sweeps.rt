// PROMISES nodes-and-cursors: sweep
//! The sweep unlinks the first marked node, or reports that no node is marked. It is separate from
//! the other steps, because it needs no cursor. A call unlinks at most one node, so other steps may
//! be taken between two sweeps. If no node is marked, a sweep does not walk.
ghost use Rattle.std.specs.Prelude.{◌≡◌, ◌↔◌, false};
ghost use Rattle.std.specs.List.{AllByRecursion};
ghost use Rattle.node_list.specs.Follow.{Follows};
ghost use Rattle.node_list.specs.Nodes.{IsBeforeMarked, unlinked_after};
ghost use Rattle.list_steps.specs.Content.{pairs};
ghost use Rattle.list_steps.specs.Steps.{IsBeforeMarks, Sweeps, without_first_marked};

use node_list::{NodeList, NodeRef};

/// The outcome of a sweep.
#[derive(Clone, Copy, Debug, PartialEq, Eq)]
pub enum SweepOutcome {
    /// The first marked node is unlinked.
    Swept,
    /// No node is marked, and nothing was done.
    Clean,
}

/// The node before the first marked node. The search begins at `start`, which precedes all marked
/// nodes.
fn before_first_marked(list: &NodeList, start: NodeRef) -> NodeRef
    requires start { IsBeforeMarks list.now.nodes start }
    requires some { ¬ AllByRecursion (λ n. n.marked ≡ false) list.now.nodes }
    ensures marked { IsBeforeMarked list.now.nodes result }
    ensures first { unlinked_after list.now.nodes result ≡ without_first_marked list.now.nodes }
{
    // The proof needs the fact that the list is sound, which the contract of this call states. The
    // result is not used.
    let _changes = list.changes();
    let mut place = start;
    'walk: while let Some(next) = list.node(place).next() {
        if list.node(next).marked {
            return place;
        }
        place = next;
    }
    unreachable!()
}

/// Unlinks the first marked node, and no other node.
///
/// Returns `Clean` exactly if no node is marked. The list is then unchanged. In both cases the
/// content and the spares that are out are unchanged.
///
/// # Cost
///
/// Time in proportion to the number of nodes from the first node to the first marked one. Constant
/// time if no node is marked.
pub fn sweep(list: &mut NodeList) -> SweepOutcome
    ensures clean { (result ≡ SweepOutcome.Clean) ↔
        AllByRecursion (λ n. n.marked ≡ false) list.old.nodes }
    ensures sweeps { Sweeps list.old list.new result }
    ensures content { pairs list.new.nodes ≡ pairs list.old.nodes }
    ensures follows { Follows list.old list.new }
{
    let head = list.head();
    sweep_from(list, head)
}

/// Does the same as `sweep`, but begins its walk at `start`, which precedes all marked nodes.
/// Every dummy whose split key is at most the result of `NodeList::marks_begin` does (the lemma
/// `before_marks`).
///
/// # Cost
///
/// Time in proportion to the number of nodes from `start` to the first marked one. Constant time if
/// no node is marked.
pub fn sweep_from(list: &mut NodeList, start: NodeRef) -> SweepOutcome
    requires { IsBeforeMarks list.old.nodes start }
    ensures clean { (result ≡ SweepOutcome.Clean) ↔
        AllByRecursion (λ n. n.marked ≡ false) list.old.nodes }
    ensures sweeps { Sweeps list.old list.new result }
    ensures content { pairs list.new.nodes ≡ pairs list.old.nodes }
    ensures follows { Follows list.old list.new }
{
    if list.marked_count() == 0 {
        return SweepOutcome::Clean;
    }
    let place = before_first_marked(list, start);
    list.unlink_after(place);
    SweepOutcome::Swept
}
