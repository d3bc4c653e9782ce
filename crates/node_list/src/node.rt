//! Nodes, and the references that name them. Every other module of this crate except `tally` is
//! built on them. A reference is a place in the slab. It is plain data, so a node may be unlinked
//! while references to it exist. A node's stamp differs from that of any other node that is ever at
//! its place.
ghost use Rattle.std.specs.Prelude.{◌≡◌, ◌-◌, ◌^◌, ◌<◌, if◌then◌else◌, None, true, false};
ghost use Rattle.node_list.specs.Nodes.{is_regular};
ghost use Rattle.node_list.specs.declared.node.Kind.TheVariants.{Dummy};

use crate::packed_ref::PackedRef;
use split_key::SortKey;
use std::marker::Model;
use std::mem::size_of;

/// The kind of a node.
#[derive(Clone, Copy, Debug, PartialEq, Eq)]
pub enum Kind {
    /// The beginning of a bucket.
    Dummy,
    /// A key with its value.
    Regular,
}

impl Kind {
    /// The number that a new node of this kind adds to the list's count: 1 if regular, else 0.
    pub(crate) fn weight(self) -> u64
        ensures { result ≡ (if is_regular self then 1 else 0) }
    {
        match self {
            Kind::Dummy => 0,
            Kind::Regular => 1,
        }
    }
}

/// The place of a node. It names the node until the node is unlinked. Later another node may be at
/// the place. The stamp says whether it is still the same node. A place is below 2^32 - 1, so it
/// takes half a word of each node. No node has the place 2^32 - 1: `PackedRef` uses this number to
/// say that there is no node.
#[derive(Clone, Copy, Debug, PartialEq, Eq)]
pub struct NodeRef {
    place: u32,
}

impl Model for NodeRef {
    ghost use Rattle.std.specs.Prelude.{ℕ, ◌-◌, ◌^◌, ◌<◌};

    ghost Value = { ℕ };

    ghost view = { λ r. r.place };

    ghost invariant = { λ r. r.place < 2 ^ 32 - 1 };

    ghost inverse = { λ place. record { place = place } };
}

impl NodeRef {
    pub(crate) fn new(place: u32) -> Self
        requires { place < 2 ^ 32 - 1 }
        ensures { result ≡ place }
    {
        NodeRef { place }
    }

    pub(crate) fn number(self) -> u32
        ensures value { result ≡ self }
        ensures below { result < 2 ^ 32 - 1 }
    {
        self.place
    }

    pub(crate) fn place(self) -> usize
        ensures { result ≡ self }
    {
        self.place as usize
    }
}

/// A node. If `is_linked`, the node is linked; otherwise its place is kept for a spare. A node
/// takes four words. The first two have the sort key, the kind, the mark, the flag `is_linked` and
/// the place of the next node.
#[derive(Clone, Copy, Debug)]
pub struct Node {
    /// The node's position in the order of the list. The position of a regular node contains the
    /// node's key.
    pub at: SortKey,
    /// A dummy or a regular node.
    pub kind: Kind,
    /// Whether the node was taken out of the table, and waits to be unlinked.
    pub marked: bool,
    /// Whether the node is linked; if not, its place is kept for a spare.
    pub(crate) is_linked: bool,
    /// The next node.
    pub(crate) next: PackedRef,
    /// The value of a regular node.
    pub value: u64,
    /// The stamp, which no other node ever had.
    pub stamp: u64,
}

const _: () = prove!(size_of::<Node>() == 32);

impl Node {
    /// A linked dummy without a next node.
    pub(crate) fn dummy(at: SortKey, stamp: u64) -> Self
        ensures { result ≡ record {
          at = at;
          kind = Dummy;
          value = 0;
          stamp = stamp;
          marked = false;
          is_linked = true;
          next = None;
        } }
    {
        Node {
            at,
            kind: Kind::Dummy,
            marked: false,
            is_linked: true,
            next: PackedRef::none(),
            value: 0,
            stamp,
        }
    }

    /// The next node, if there is one.
    pub fn next(&self) -> Option<NodeRef>
        ensures { result ≡ self.now.next }
    {
        self.next.node()
    }
}
