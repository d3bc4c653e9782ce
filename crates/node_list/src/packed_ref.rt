//! The place of a node, or None, in half the memory of an `Option`. Each node has such a reference,
//! and a list of buckets keeps thousands. A contract sees a `PackedRef` as an option, so it can use
//! the same definitions for both types. Every number of 32 bits is a place or stands for None, so
//! the type `PackedRef` needs no invariant.
ghost use Rattle.std.specs.Prelude.{◌≡◌, Some, None};

use crate::node::NodeRef;
use std::marker::Model;
use std::mem::size_of;

/// The place of a node, or None, in 4 bytes, for users that keep many places. An `Option<NodeRef>`
/// takes 8 bytes. The greatest number of 32 bits is the place of no node, so it stands for None.
///
/// A contract sees a `PackedRef` as the option that it stands for.
#[derive(Clone, Copy, Debug)]
pub struct PackedRef {
    place: u32,
}

const _: () = prove!(size_of::<PackedRef>() == 4);

impl Model for PackedRef {
    ghost use Rattle.std.specs.Prelude.{ℕ, Option};
    ghost use Rattle.node_list.specs.Packed.{packed, packed_unpacked, unpacked};

    ghost Value = { Option ℕ };

    ghost view = { λ r. unpacked r.place };

    ghost inverse = { λ place. record { place = packed place } };

    ghost inverse_ok = { λ r _ i. record { place = packed_unpacked r.place i } };
}

impl PackedRef {
    /// The reference to no node.
    pub fn none() -> PackedRef
        ensures { result ≡ None }
    {
        PackedRef { place: u32::MAX }
    }

    /// The reference to this node.
    pub fn of(node: NodeRef) -> PackedRef
        ensures { result ≡ Some node }
    {
        PackedRef {
            place: node.number(),
        }
    }

    /// The node, if there is one.
    pub fn node(self) -> Option<NodeRef>
        ensures { result ≡ self }
    {
        if self.place == u32::MAX {
            None
        } else {
            Some(NodeRef::new(self.place))
        }
    }
}
