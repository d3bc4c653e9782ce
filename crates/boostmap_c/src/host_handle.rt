//! The handle of a striped map's host, and the functions that put a keeper into it and take one
//! out of it. The type differs from `Handle`, since a call on the caller borrows the keeper through
//! the pointer. By the invariants `live` and `dead`, the tag is "bmho" exactly if the pointer owns
//! a keeper. No contract promises that a call leaves the bytes of the handle unchanged.
ghost use Rattle.std.specs.Prelude.{◌≡◌, Some, None, IfSome, IsNone, IsSome, true, false, is_some};

use crate::handle::sends;
use crate::keeper::Keeper;
use crate::keeper_pointer::KeeperPointer;
use crate::owned_pointer::OwnedPointer;
use std::alloc::Global;
use std::mem;

/// The tag of a handle with a keeper: the bytes of "bmho".
const LIVE: u64 = 0x6f68_6d62;

/// The handle of a striped map's host in C's memory. It is all zeros, or owns a keeper.
#[repr(C)]
#[derive(Drop)]
pub struct HostHandle {
    tag: u64,
    pub(crate) held: KeeperPointer,
    ghost live: { tag ≡ 0x6f68_6d62 → is_some held.keeper ≡ true },
    ghost dead: { is_some held.keeper ≡ true → tag ≡ 0x6f68_6d62 },
}

impl HostHandle {
    /// Returns true if the handle has a keeper.
    pub(crate) fn is_live(&self) -> bool
        ensures value { result ≡ is_some self.now.held.keeper }
        ensures some { result ≡ true → IsSome self.now.held.keeper }
        ensures tag { result ≡ true → self.now.tag ≡ 0x6f68_6d62 }
        ensures none { result ≡ false → self.now.held.keeper ≡ None }
    {
        self.tag == LIVE
    }
}

/// If the handle has a keeper, takes the keeper out and leaves the handle all zeros. If it has
/// none, returns `None`.
pub(crate) fn take_out(alloc: Global, handle: &mut HostHandle) -> Option<Box<Keeper, Global>>
    ensures some { IfSome result (λ keeper. handle.old.held.keeper ≡ Some keeper.value) }
    ensures none { IsNone result → handle.old.held.keeper ≡ None }
    ensures zeros { handle.new.held.keeper ≡ None }
{
    if handle.tag != LIVE {
        return None;
    }
    let zeros = HostHandle {
        tag: 0,
        held: KeeperPointer::null(),
    };
    let HostHandle { tag: _, held } = mem::replace(handle, zeros);
    Some(held.restore().into_box(alloc))
}

/// Puts a keeper into a handle.
pub(crate) fn put_in(handle: &mut HostHandle, keeper: Box<Keeper, Global>)
    ensures { handle.new.held.keeper ≡ Some keeper.value }
{
    *handle = HostHandle {
        tag: LIVE,
        held: KeeperPointer::erase(OwnedPointer::from_box(keeper)),
    };
}

/// A keeper may go to another thread, and so may a handle that owns one.
pub(crate) fn sends_keeper(keeper: Keeper) -> Keeper
    ensures { result ≡ keeper }
{
    sends(keeper)
}
