//! The pointer in the handle of a striped map's caller. Its type is erased, since no type that
//! holds a `Vec` may be named behind a pointer that C sees. Only this module touches its address,
//! so the ghost field `member` says what the pointer owns: a member on the heap, or nothing.
ghost use Rattle.std.specs.Prelude.{◌≡◌, Option, Some, None, IsSome};
ghost use Rattle.std.specs.Coded.{coded_option};
ghost use Rattle.boostmap_c.specs.contracts.member.Member.{the_row};
ghost use Rattle.boostmap_c.specs.declared.member.Member.{Member};

use crate::member::Member;
use crate::owned_pointer::OwnedPointer;
use std::marker::Model;
use std::ptr;

/// A pointer that owns a member on the heap, or nothing.
#[repr(C)]
#[derive(Drop)]
pub struct MemberPointer {
    at: *mut (),
    pub(crate) ghost member: { Option Member } by { coded_option the_row.coded },
}

impl Model for MemberPointer {
    ghost use Rattle.boostmap_c.specs.Held.{owns_member};
    ghost use Rattle.boostmap_c.specs.declared.member.Member.{Member};

    ghost also_owns = { λ p. owns_member p.at p.member };
}

impl MemberPointer {
    ghost use types.Logic.{sem};
    ghost use Rattle.boostmap_c.specs.Lends.{LendsMember};

    /// A pointer to no member.
    pub(crate) fn null() -> MemberPointer
        ensures { result.member ≡ None }
    {
        MemberPointer {
            at: ptr::null_mut(),
        }
    }

    /// Erases the type of a pointer.
    pub(crate) fn erase(member: OwnedPointer<Member>) -> MemberPointer
        ensures { result.member ≡ Some member.value }
    {
        let OwnedPointer { at } = member;
        MemberPointer { at: at as *mut () }
    }

    /// Gives the pointer its type back.
    pub(crate) fn restore(self) -> OwnedPointer<Member>
        requires { IsSome self.member }
        ensures { self.member ≡ Some result.value }
    {
        let MemberPointer { at } = self;
        OwnedPointer {
            at: at as *mut Member,
        }
    }

    /// The member, to be read and changed in place.
    pub(crate) fn get_mut(&mut self) -> &mut Member
        requires { IsSome self.old.member }
        ensures* writes_back { sem 𝓛 (LendsMember self.entry result) }
        ensures value { self.old.member ≡ Some result.now }
    {
        unsafe { &mut *(self.at as *mut Member) }
    }
}
