//! The handle of a map with one owner, and the functions that put a map into it and take one out of
//! it. By the invariants `live` and `dead`, the tag is "bmap" exactly if the pointer owns a map. A
//! call borrows the map through the pointer, so it leaves the handle's bytes unchanged.
ghost use Rattle.std.specs.Prelude.{◌≡◌, Some, None, IfSome, IsNone, IsSome, true, false, is_some};

use crate::held_map::HeldMap;
use crate::map_pointer::MapPointer;
use crate::owned_pointer::OwnedPointer;
use std::alloc::Global;
use std::mem;

/// The tag of a handle with a map: the bytes of "bmap". It fits in 31 bits, so one instruction can
/// compare or write it.
const LIVE: u64 = 0x7061_6d62;

/// The handle of a map in C's memory. It is all zeros, or owns a map.
#[repr(C)]
#[derive(Drop)]
pub struct Handle {
    tag: u64,
    pub(crate) held: MapPointer,
    ghost live: { tag ≡ 0x7061_6d62 → is_some held.map ≡ true },
    ghost dead: { is_some held.map ≡ true → tag ≡ 0x7061_6d62 },
}

impl Handle {
    /// Returns true if the handle has a map.
    pub(crate) fn is_live(&self) -> bool
        ensures value { result ≡ is_some self.now.held.map }
        ensures some { result ≡ true → IsSome self.now.held.map }
        ensures tag { result ≡ true → self.now.tag ≡ 0x7061_6d62 }
        ensures none { result ≡ false → self.now.held.map ≡ None }
    {
        self.tag == LIVE
    }
}

/// If the handle has a map, takes the map out and leaves the handle all zeros. If it has none,
/// returns `None`.
pub(crate) fn take_out(alloc: Global, handle: &mut Handle) -> Option<Box<HeldMap, Global>>
    ensures some { IfSome result (λ map. handle.old.held.map ≡ Some map.value) }
    ensures none { IsNone result → handle.old.held.map ≡ None }
    ensures zeros { handle.new.held.map ≡ None }
{
    if handle.tag != LIVE {
        return None;
    }
    let zeros = Handle {
        tag: 0,
        held: MapPointer::null(),
    };
    let Handle { tag: _, held } = mem::replace(handle, zeros);
    Some(held.restore().into_box(alloc))
}

/// Puts a map into a handle.
pub(crate) fn put_in(handle: &mut Handle, map: Box<HeldMap, Global>)
    ensures { handle.new.held.map ≡ Some map.value }
{
    *handle = Handle {
        tag: LIVE,
        held: MapPointer::erase(OwnedPointer::from_box(map)),
    };
}

/// Returns this value. A call compiles only if the value may be sent to another thread.
pub(crate) fn sends<T: Send>(value: T) -> T
    ensures { result ≡ value }
{
    value
}

/// A map may go to another thread, and so may a handle that owns one.
pub(crate) fn sends_map(map: HeldMap) -> HeldMap
    ensures { result ≡ map }
{
    sends(map)
}
