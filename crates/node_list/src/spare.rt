//! Spares: places for nodes that are not linked yet. A node's place is allocated before it is
//! needed, so that linking the node takes no memory. Until the node is linked, the list's user
//! keeps the spare. Only a list gives spares, no spare can be copied, and a spare is used up when
//! it is linked or given back.
ghost use Rattle.std.specs.Prelude.{◌≡◌};
ghost use Rattle.node_list.specs.Layout.{stored_node};
ghost use Rattle.node_list.specs.Nodes.{filled, first_dummy};
ghost use Rattle.node_list.specs.Text.{fault_text};

use crate::node::{Kind, Node, NodeRef};
use crate::packed_ref::PackedRef;
use split_key::SortKey;
use std::fmt;
use std::fmt::Display;
use std::marker::Model;
use std::mem::size_of;

/// A place that a list keeps for a node, a stamp that was never used before, and the contents that
/// the node will have.
///
/// The list keeps the place for the spare until `NodeList::link_after` or `NodeList::give_back`
/// takes the spare. Until then the spare belongs to the list, and contracts say that the spare is
/// out (`IsOut`). If a spare is dropped instead, its place stays in use.
#[derive(Debug, Drop)]
pub struct Spare {
    // The sort key, the kind and the place take two words together.
    at: SortKey,
    kind: Kind,
    place: NodeRef,
    stamp: u64,
    value: u64,
}

impl Model for Spare {
    ghost use Rattle.node_list.specs.Nodes.{SpareAt};

    ghost Value = { SpareAt };

    ghost view = { λ s. record {
      place = s.place;
      stamp = s.stamp;
      at = s.at;
      kind = s.kind;
      value = s.value;
    } };
}

/// A spare that is not filled yet, in a small form to be stored: it has only the spare's place and
/// stamp.
#[derive(Debug, Drop)]
pub struct Unfilled {
    stamp: u64,
    place: NodeRef,
}

const _: () = prove!(size_of::<Spare>() == 32);

const _: () = prove!(size_of::<Unfilled>() == 16);

impl Model for Unfilled {
    ghost use Rattle.node_list.specs.Nodes.{SpareAt, unfilled};

    ghost Value = { SpareAt };

    ghost view = { λ s. unfilled s.place s.stamp };
}

/// The reason why a list gives no spare. Each reason is printed as a sentence.
#[derive(Clone, Copy, Debug, PartialEq, Eq)]
pub enum SpareFault {
    /// The last stamp that was given is 2^64 - 2: the stamps are used up.
    Worn,
    /// Memory for the slab to grow was refused, or all 2^32 - 1 places are in use.
    NoMemory,
}

impl Display for SpareFault {
    ghost use Rattle.std.specs.Prelude.{Some};

    ghost output = { λ fault. Some (fault_text fault) };

    fn fmt<W: fmt::Write>(&self, f: &mut fmt::Formatter<W>) -> fmt::Result {
        match *self {
            SpareFault::Worn => f.write_str("the list has no stamp left for a spare"),
            SpareFault::NoMemory => f.write_str("the list got no memory for a spare"),
        }
    }
}

impl std::error::Error for SpareFault {}

impl Spare {
    /// A spare with the contents and the stamp of this node.
    pub(crate) fn of(place: NodeRef, node: Node) -> Self
        ensures { result ≡ record {
          place = place;
          stamp = node.stamp;
          at = node.at;
          kind = node.kind;
          value = node.value;
        } }
    {
        Spare {
            at: node.at,
            kind: node.kind,
            place,
            stamp: node.stamp,
            value: node.value,
        }
    }

    /// The node that the spare becomes, with `next` as the place of the node after it.
    pub(crate) fn into_node(self, next: PackedRef) -> Node
        ensures { result ≡ stored_node (filled self) next }
    {
        Node {
            at: self.at,
            kind: self.kind,
            marked: false,
            is_linked: true,
            next,
            value: self.value,
            stamp: self.stamp,
        }
    }

    /// The small form of a spare that is not filled yet.
    pub fn keep(self) -> Unfilled
        requires { filled self ≡ first_dummy self.place self.stamp }
        ensures { result ≡ self }
    {
        Unfilled {
            stamp: self.stamp(),
            place: self.node(),
        }
    }

    /// Sets the node's position, its kind and its value.
    pub fn fill(&mut self, at: SortKey, kind: Kind, value: u64)
        ensures { self.new ≡ record self.old { at = at; kind = kind; value = value } }
    {
        self.at = at;
        self.kind = kind;
        self.value = value;
    }

    /// The node that the spare will become.
    pub fn node(&self) -> NodeRef
        ensures { result ≡ self.now.place }
    {
        self.place
    }

    /// The stamp that the node will have.
    pub fn stamp(&self) -> u64
        ensures { result ≡ self.now.stamp }
    {
        self.stamp
    }
}

impl Unfilled {
    /// The spare, to be filled or given back.
    pub fn into_spare(self) -> Spare
        ensures { result ≡ self }
    {
        Spare {
            at: SortKey::dummy(0),
            kind: Kind::Dummy,
            place: self.place,
            stamp: self.stamp,
            value: 0,
        }
    }
}
