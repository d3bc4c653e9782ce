//! The handle of a striped map's caller, and the functions that put a member into it and take one
//! out of it. The type differs from `Handle`, since a call on the caller borrows the member through
//! the pointer. By the invariants `live` and `dead`, the tag is "bmca" exactly if the pointer owns
//! a member. No contract promises that a call leaves the bytes of the handle unchanged.
ghost use Rattle.std.specs.Prelude.{◌≡◌, Some, None, IfSome, IsNone, IsSome, true, false, is_some};

use crate::handle::sends;
use crate::member::Member;
use crate::member_pointer::MemberPointer;
use crate::owned_pointer::OwnedPointer;
use std::alloc::Global;
use std::mem;

/// The tag of a handle with a member: the bytes of "bmca".
const LIVE: u64 = 0x6163_6d62;

/// The handle of a striped map's caller in C's memory. It is all zeros, or owns a member.
#[repr(C)]
#[derive(Drop)]
pub struct CallerHandle {
    tag: u64,
    pub(crate) held: MemberPointer,
    ghost live: { tag ≡ 0x6163_6d62 → is_some held.member ≡ true },
    ghost dead: { is_some held.member ≡ true → tag ≡ 0x6163_6d62 },
}

impl CallerHandle {
    /// Returns true if the handle has a member.
    pub(crate) fn is_live(&self) -> bool
        ensures value { result ≡ is_some self.now.held.member }
        ensures some { result ≡ true → IsSome self.now.held.member }
        ensures tag { result ≡ true → self.now.tag ≡ 0x6163_6d62 }
        ensures none { result ≡ false → self.now.held.member ≡ None }
    {
        self.tag == LIVE
    }
}

/// If the handle has a member, takes the member out and leaves the handle all zeros. If it has
/// none, returns `None`.
pub(crate) fn take_out(alloc: Global, handle: &mut CallerHandle) -> Option<Box<Member, Global>>
    ensures some { IfSome result (λ member. handle.old.held.member ≡ Some member.value) }
    ensures none { IsNone result → handle.old.held.member ≡ None }
    ensures zeros { handle.new.held.member ≡ None }
{
    if handle.tag != LIVE {
        return None;
    }
    let zeros = CallerHandle {
        tag: 0,
        held: MemberPointer::null(),
    };
    let CallerHandle { tag: _, held } = mem::replace(handle, zeros);
    Some(held.restore().into_box(alloc))
}

/// Puts a member into a handle.
pub(crate) fn put_in(handle: &mut CallerHandle, member: Box<Member, Global>)
    ensures { handle.new.held.member ≡ Some member.value }
{
    *handle = CallerHandle {
        tag: LIVE,
        held: MemberPointer::erase(OwnedPointer::from_box(member)),
    };
}

/// A member may go to another thread, and so may a handle that owns one.
pub(crate) fn sends_member(member: Member) -> Member
    ensures { result ≡ member }
{
    sends(member)
}
