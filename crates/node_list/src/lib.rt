//! The linked nodes of a split-ordered list, in one slab.
//!
//! A contract sees a `NodeList` as the list of its linked nodes in their order, the stamp of each
//! spare that is out, the change number and the last stamp. A spare is out until it is linked or
//! given back. The sort keys rise strictly, no two nodes share a place, no dummy is marked, and no
//! stamp is ever given twice. So a node with the same place and the same stamp as before is the
//! same node. Each call that changes the list also promises that the new list follows the old one
//! (`Follows`).
//!
//! Calls take constant time and no memory unless they say otherwise: a few look-ups in the slab,
//! whatever the length of the list.
//!
//! Marked nodes are counted by regions of the order (`Tally`), so that a sweep finds the first one
//! behind many unmarked nodes.
#![tactic(auto)]

mod list;
mod node;
mod packed_ref;
mod slots;
mod spare;
mod tally;

pub use list::NodeList;
pub use node::{Kind, Node, NodeRef};
pub use packed_ref::PackedRef;
pub use spare::{Spare, SpareFault, Unfilled};
