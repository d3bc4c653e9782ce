//! The pairs of a list, in the list's order, and the sorted map of these pairs. They are for
//! reports and for tests: no step uses them. Listing takes time in proportion to the nodes and
//! memory in proportion to the pairs. The map of n pairs takes time in proportion to n log n, and
//! as much memory again.
ghost use Rattle.std.specs.Prelude.{◌≡◌, ◌++◌, IfOk, OnOk};
ghost use Rattle.std.specs.BTreeMap.{IsFromIterResult};
ghost use Rattle.std.specs.Ordering.{nat_cmp};
ghost use Rattle.list_steps.specs.Content.{pair_if, pairs};

use node_list::{Kind, Node, NodeList};
use std::alloc::{AllocError, Global};
use std::collections::BTreeMap;

/// Adds the pair of a node to `found`, if the node is regular and unmarked.
fn push_pair(found: &mut Vec<(u64, u64)>, node: &Node) -> Result<(), AllocError>
    ensures { OnOk result (found.new.items
        ≡ found.old.items ++ pair_if node.now.kind node.now.marked node.now.at.key node.now.value) }
{
    match node.kind {
        Kind::Dummy => Ok(()),
        Kind::Regular => {
            if node.marked {
                Ok(())
            } else {
                found.push((node.at.key(), node.value))?;
                Ok(())
            }
        }
    }
}

/// The key and the value of each regular, unmarked node, in the list's order.
pub(crate) fn pairs_of(alloc: Global, list: &NodeList) -> Result<Vec<(u64, u64)>, AllocError>
    ensures { IfOk result (λ found. found.items ≡ pairs list.now.nodes) }
{
    let mut found = Vec::new(alloc);
    let mut place = list.head();
    'walk: while let Some(next) = list.node(place).next() {
        let node = list.node(next);
        push_pair(&mut found, node)?;
        place = next;
    }
    Ok(found)
}

/// The map of these keys and values.
pub(crate) fn map_of(alloc: Global, pairs: &[(u64, u64)]) -> Result<BTreeMap<u64, u64>, AllocError>
    ensures { IfOk result (IsFromIterResult nat_cmp pairs.now) }
{
    pairs.iter().copied().collect(alloc)
}
