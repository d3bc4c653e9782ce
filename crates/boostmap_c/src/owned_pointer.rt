//! A pointer that owns its heap block, like a box. It is for places that cannot hold a `Box`, such
//! as a struct that C code sees.
//!
//! The contracts of `Box::into_raw` and `Box::from_raw` state in separation logic what they
//! transfer: the block with its value, and the right to free it. Code that calls them needs a proof
//! by hand. An `OwnedPointer` has the address, and owns the block and the right. So its two
//! functions are plain calls with plain contracts. Their proof by hand is done once, for all types.
//!
//! A box that is turned into a pointer and back has the same value, and nothing is freed meanwhile.
//! The pointer's field is visible to the crate, so that code with its own proof can keep the
//! address elsewhere, as a pointer whose type is erased. A pointer is not `Drop`, so only
//! `into_box` or such a proof can consume it, and it cannot be lost.
//!
//! Both functions take constant time and no memory.
ghost use Rattle.std.specs.Prelude.{◌≡◌};

use std::alloc::Global;
use std::marker::Model;

/// A pointer that owns the value it points to, and the heap block that holds this value.
///
/// Contracts see the value.
pub struct OwnedPointer<T> {
    /// The address; never null.
    pub(crate) at: *mut T,
    pub(crate) ghost value: { T },
}

impl<T> Model for OwnedPointer<T> {
    ghost use Rattle.boostmap_c.specs.Blocks.{owns_block};

    ghost also_owns = { λ p. owns_block T.row p.at p.value };
}

impl<T: Drop> OwnedPointer<T> {
    /// Turns a box into a pointer. From then on, the pointer owns the box's block.
    pub(crate) fn from_box(held: Box<T, Global>) -> OwnedPointer<T>
        ensures { result.value ≡ held.value }
    {
        OwnedPointer {
            at: Box::into_raw(held),
        }
    }

    /// Turns the pointer back into a box. The box gives access to the value, and frees the block
    /// when the box is dropped.
    pub(crate) fn into_box(self, alloc: Global) -> Box<T, Global>
        ensures { result.value ≡ self.value }
    {
        let OwnedPointer { at } = self;
        unsafe { Box::from_raw(alloc, at) }
    }
}
