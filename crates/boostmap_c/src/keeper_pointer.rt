//! The pointer in the handle of a striped map's host. Its type is erased, since no type that
//! holds a `Vec` may be named behind a pointer that C sees. Only this module touches its address,
//! so the ghost field `keeper` says what the pointer owns: a keeper on the heap, or nothing.
ghost use Rattle.std.specs.Prelude.{◌≡◌, Option, Some, None, IsSome};
ghost use Rattle.std.specs.Coded.{coded_option};
ghost use Rattle.boostmap_c.specs.contracts.keeper.Keeper.{the_row};
ghost use Rattle.boostmap_c.specs.declared.keeper.Keeper.{Keeper};

use crate::keeper::Keeper;
use crate::owned_pointer::OwnedPointer;
use std::marker::Model;
use std::ptr;

/// A pointer that owns a keeper on the heap, or nothing.
#[repr(C)]
#[derive(Drop)]
pub struct KeeperPointer {
    at: *mut (),
    pub(crate) ghost keeper: { Option Keeper } by { coded_option the_row.coded },
}

impl Model for KeeperPointer {
    ghost use Rattle.boostmap_c.specs.Held.{owns_keeper};
    ghost use Rattle.boostmap_c.specs.declared.keeper.Keeper.{Keeper};

    ghost also_owns = { λ p. owns_keeper p.at p.keeper };
}

impl KeeperPointer {
    ghost use types.Logic.{sem};
    ghost use Rattle.boostmap_c.specs.Lends.{LendsKeeper};

    /// A pointer to no keeper.
    pub(crate) fn null() -> KeeperPointer
        ensures { result.keeper ≡ None }
    {
        KeeperPointer {
            at: ptr::null_mut(),
        }
    }

    /// Erases the type of a pointer.
    pub(crate) fn erase(keeper: OwnedPointer<Keeper>) -> KeeperPointer
        ensures { result.keeper ≡ Some keeper.value }
    {
        let OwnedPointer { at } = keeper;
        KeeperPointer { at: at as *mut () }
    }

    /// Gives the pointer its type back.
    pub(crate) fn restore(self) -> OwnedPointer<Keeper>
        requires { IsSome self.keeper }
        ensures { self.keeper ≡ Some result.value }
    {
        let KeeperPointer { at } = self;
        OwnedPointer {
            at: at as *mut Keeper,
        }
    }

    /// The keeper, to be read and changed in place.
    pub(crate) fn get_mut(&mut self) -> &mut Keeper
        requires { IsSome self.old.keeper }
        ensures* writes_back { sem 𝓛 (LendsKeeper self.entry result) }
        ensures value { self.old.keeper ≡ Some result.now }
    {
        unsafe { &mut *(self.at as *mut Keeper) }
    }
}
