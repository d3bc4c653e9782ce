//! The pointer in the handle of a map with one owner. Its type is erased, since no type that holds a
//! `Vec` may be named behind a pointer that C sees. Only this module touches its address, so the
//! ghost field `map` says what the pointer owns: a map on the heap, or nothing.
ghost use Rattle.std.specs.Prelude.{◌≡◌, Option, Some, None, IsSome};
ghost use Rattle.std.specs.Coded.{coded_option};
ghost use Rattle.boostmap_c.specs.contracts.held_map.HeldMap.{the_row};
ghost use Rattle.boostmap_c.specs.declared.held_map.HeldMap.{HeldMap};

use crate::held_map::HeldMap;
use crate::owned_pointer::OwnedPointer;
use std::marker::Model;
use std::ptr;

/// A pointer that owns a map on the heap, or nothing.
#[repr(C)]
#[derive(Drop)]
pub struct MapPointer {
    at: *mut (),
    pub(crate) ghost map: { Option HeldMap } by { coded_option the_row.coded },
}

impl Model for MapPointer {
    ghost use Rattle.boostmap_c.specs.Held.{owns_map};
    ghost use Rattle.boostmap_c.specs.declared.held_map.HeldMap.{HeldMap};

    ghost also_owns = { λ p. owns_map p.at p.map };
}

impl MapPointer {
    ghost use types.Logic.{sem};
    ghost use Rattle.boostmap_c.specs.Lends.{LendsMap};

    /// A pointer to no map.
    pub(crate) fn null() -> MapPointer
        ensures { result.map ≡ None }
    {
        MapPointer {
            at: ptr::null_mut(),
        }
    }

    /// Erases the type of a pointer.
    pub(crate) fn erase(map: OwnedPointer<HeldMap>) -> MapPointer
        ensures { result.map ≡ Some map.value }
    {
        let OwnedPointer { at } = map;
        MapPointer { at: at as *mut () }
    }

    /// Gives the pointer its type back.
    pub(crate) fn restore(self) -> OwnedPointer<HeldMap>
        requires { IsSome self.map }
        ensures { self.map ≡ Some result.value }
    {
        let MapPointer { at } = self;
        OwnedPointer {
            at: at as *mut HeldMap,
        }
    }

    /// The map, to be read and changed in place.
    pub(crate) fn get_mut(&mut self) -> &mut HeldMap
        requires { IsSome self.old.map }
        ensures* writes_back { sem 𝓛 (LendsMap self.entry result) }
        ensures value { self.old.map ≡ Some result.now }
    {
        unsafe { &mut *(self.at as *mut HeldMap) }
    }
}
