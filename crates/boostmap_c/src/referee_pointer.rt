//! The pointer in a judge's handle. Its type is erased: a referee holds a `Vec`, and C may see no
//! pointer to a type that holds one. Only this module touches its address, so the ghost
//! field `referee` says what the pointer owns: a referee on the heap, or nothing.
ghost use Rattle.std.specs.Prelude.{◌≡◌, Option, Some, None, IsSome};
ghost use Rattle.std.specs.Coded.{coded_option};
ghost use Rattle.boostmap_c.specs.contracts.referee.Referee.{the_row};
ghost use Rattle.boostmap_c.specs.declared.referee.Referee.{Referee};

use crate::owned_pointer::OwnedPointer;
use crate::referee::Referee;
use std::marker::Model;
use std::ptr;

/// A pointer that owns a referee on the heap, or nothing.
#[repr(C)]
#[derive(Drop)]
pub struct RefereePointer {
    at: *mut (),
    pub(crate) ghost referee: { Option Referee } by { coded_option the_row.coded },
}

impl Model for RefereePointer {
    ghost use Rattle.boostmap_c.specs.Held.{owns_referee};
    ghost use Rattle.boostmap_c.specs.declared.referee.Referee.{Referee};

    ghost also_owns = { λ p. owns_referee p.at p.referee };
}

impl RefereePointer {
    /// A pointer to no referee.
    pub(crate) fn null() -> RefereePointer
        ensures { result.referee ≡ None }
    {
        RefereePointer {
            at: ptr::null_mut(),
        }
    }

    /// Erases the type of a pointer.
    pub(crate) fn erase(referee: OwnedPointer<Referee>) -> RefereePointer
        ensures { result.referee ≡ Some referee.value }
    {
        let OwnedPointer { at } = referee;
        RefereePointer { at: at as *mut () }
    }

    /// Gives the pointer its type back.
    pub(crate) fn restore(self) -> OwnedPointer<Referee>
        requires { IsSome self.referee }
        ensures { self.referee ≡ Some result.value }
    {
        let RefereePointer { at } = self;
        OwnedPointer {
            at: at as *mut Referee,
        }
    }
}
