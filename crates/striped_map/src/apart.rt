//! A list whose items lie apart from all other memory.
//!
//! A caller writes to its lists at every call. So no other thread may write to the same line of the
//! cache, or each of its writes would slow the call down. Processors fetch lines of 64 bytes in
//! pairs, so two such writes should be 128 bytes apart. An allocator aligns a block only to 16
//! bytes, and puts blocks that are taken one after another side by side. Therefore a list does not
//! use 128 bytes at each end of its memory. It writes to the first of them only when it takes memory.
ghost use Rattle.std.specs.Prelude.{◌≡◌, ℕ, ◌+◌, ◌-◌, ◌<◌, ◌≤◌, ◌^◌, ◌↔◌, [], ◌∷◌, ◌++◌, Some, IfNone, IsTrue, OnOk, OnErr, length, replicate, take, slice_get, slice_set};
ghost use Rattle.std.specs.Option.{option_to_list};

use std::alloc::{AllocError, Global};
use std::marker::Model;

/// A list. Its memory has `PAD` places more at each end, which are not used (`IsPadded`). The user
/// of the type chooses `PAD`, so that these places take 128 bytes. Takes no memory before it needs
/// some.
///
/// Contracts see the `items`, and the `room`: how many more items can be added before more memory
/// is needed.
#[derive(Drop)]
pub(crate) struct Apart<T: Copy, const PAD: usize> {
    // The first `PAD` places are blank, and the items lie behind them.
    places: Vec<T>,
}

impl<T: Copy, const PAD: usize> Model for Apart<T, PAD> {
    ghost use Rattle.striped_map.specs.Apart.{IsPadded, Listed, listed};

    ghost Value = { Listed T };

    ghost view = { λ list. listed PAD list.places };

    ghost invariant = { λ list. IsPadded PAD list.places };
}

impl<T: Copy, const PAD: usize> Apart<T, PAD> {
    /// An empty list, which has taken no memory.
    pub(crate) fn new(alloc: Global) -> Self
        requires { PAD ≤ 4096 }
        ensures items { result.items ≡ [] }
        ensures room { result.room ≡ 0 }
    {
        Apart {
            places: Vec::new(alloc),
        }
    }

    /// How many items there are.
    #[inline(always)]
    pub(crate) fn len(&self) -> usize
        ensures value { result ≡ length self.now.items }
        ensures small { result < 2 ^ 63 }
    {
        self.places.len().saturating_sub(PAD)
    }

    /// Whether there is an item at this place.
    #[inline(always)]
    pub(crate) fn has(&self, place: usize) -> bool
        requires { place < 2 ^ 63 }
        ensures { IsTrue result ↔ place < length self.now.items }
    {
        let end = self.places.len();
        PAD + place < end
    }

    /// Whether one more item can be added without more memory.
    #[inline(always)]
    pub(crate) fn has_room(&self) -> bool
        ensures { IsTrue result ↔ 0 < self.now.room }
    {
        self.places.len() + PAD < self.places.capacity()
    }

    /// The item at this place.
    #[inline(always)]
    pub(crate) fn at(&self, place: usize) -> T
        requires { place < length self.now.items }
        ensures { slice_get self.now.items place ≡ Some result }
    {
        self.places[PAD + place]
    }

    /// The item at this place, if there is one.
    #[inline(always)]
    pub(crate) fn get(&self, place: usize) -> Option<T>
        requires { place < 2 ^ 63 }
        ensures { result ≡ slice_get self.now.items place }
    {
        if self.has(place) {
            Some(self.at(place))
        } else {
            None
        }
    }

    /// Puts another item at this place.
    #[inline(always)]
    pub(crate) fn set(&mut self, place: usize, item: T)
        requires { place < length self.old.items }
        ensures items { self.new.items ≡ slice_set self.old.items place item }
        ensures room { self.new.room ≡ self.old.room }
    {
        self.places[PAD + place] = item;
    }

    /// Adds an item at the end, and returns its place. There must be room for it.
    #[inline(always)]
    pub(crate) fn push_reserved(&mut self, item: T) -> usize
        requires { 0 < self.old.room }
        ensures place { result ≡ length self.old.items }
        ensures items { self.new.items ≡ self.old.items ++ item ∷ [] }
        ensures room { self.new.room + 1 ≡ self.old.room }
    {
        let place = self.places.len() - PAD;
        self.places.push_reserved(item);
        place
    }

    /// Takes the last item off, if there is one.
    #[inline(always)]
    pub(crate) fn pop(&mut self) -> Option<T>
        ensures items { self.old.items ≡ self.new.items ++ option_to_list result }
        ensures len { length self.new.items + length (option_to_list result)
            ≡ length self.old.items }
        ensures none { IfNone result (self.old.items ≡ []) }
    {
        if self.places.len() <= PAD {
            return None;
        }
        self.places.pop()
    }

    /// Keeps the first items, as many as `len`.
    #[inline(always)]
    pub(crate) fn truncate(&mut self, len: usize)
        requires { len ≤ length self.old.items }
        ensures items { self.new.items ≡ take len self.old.items }
        ensures room { self.old.room ≤ self.new.room }
    {
        self.places.truncate(PAD + len);
    }

    /// Takes all items off.
    #[inline(always)]
    pub(crate) fn clear(&mut self)
        ensures items { self.new.items ≡ [] }
        ensures room { self.old.room ≤ self.new.room }
    {
        self.places.truncate(PAD);
    }
}

impl<T: Copy + Default, const PAD: usize> Apart<T, PAD> {
    /// Makes room for this many more items. If there is no memory, nothing changes.
    #[inline(always)]
    pub(crate) fn reserve(&mut self, more: usize) -> Result<(), AllocError>
        requires { more ≤ 4096 }
        ensures items { self.new.items ≡ self.old.items }
        ensures ok { OnOk result (more ≤ self.new.room) }
        ensures err { OnErr result (self.new ≡ self.old) }
    {
        if self.places.len() + PAD + more <= self.places.capacity() {
            return Ok(());
        }
        self.grow(more)
    }

    /// Takes more memory, for this many more items.
    #[cold]
    #[inline(never)]
    fn grow(&mut self, more: usize) -> Result<(), AllocError>
        requires { more ≤ 4096 }
        ensures items { self.new.items ≡ self.old.items }
        ensures ok { OnOk result (more ≤ self.new.room) }
        ensures err { OnErr result (self.new ≡ self.old) }
    {
        if self.places.is_empty() {
            self.places.reserve(PAD + more + PAD)?;
            return self.places.resize(PAD, T::default());
        }
        self.places.reserve(more + PAD)
    }

    /// Adds copies of `item` until there are at least `len` items. If there is no memory, nothing
    /// changes.
    pub(crate) fn fill(&mut self, len: usize, item: T) -> Result<(), AllocError>
        requires { len ≤ 4096 }
        ensures items { self.new.items ≡ self.old.items
            ++ replicate (length self.new.items - length self.old.items) item }
        ensures long { OnOk result (len ≤ length self.new.items) }
        ensures err { OnErr result (self.new ≡ self.old) }
    {
        let more = len.saturating_sub(self.len());
        self.reserve(more)?;
        for _ in 0..more {
            self.push_reserved(item);
        }
        Ok(())
    }
}
