//! A slot of the array. It has 24 bytes, so a cache line has two or three slots. Probes read a
//! slot's key, and the map reads its value. A probe passes the slot of any other key, even if that
//! key was removed. So a removal need not move other slots. A slot keeps its key until the array is
//! replaced, but no contract promises this.
ghost use Rattle.std.specs.Prelude.{◌≡◌};
ghost use Rattle.stripe_shard.specs.Probes.{stops};
ghost use Rattle.stripe_shard.specs.Slots.{is_empty, key_in, value_in};

/// A slot. A probe stops at an empty slot, and passes a slot that has another key.
#[derive(Clone, Copy)]
pub(crate) enum Slot {
    /// No key.
    Empty,
    /// A key that was removed.
    Removed(u64),
    /// A key with its value.
    Full(u64, u64),
}

const _: () = prove!(size_of::<Slot>() == 24);

impl Slot {
    /// Returns true if the probe for a key stops at this slot.
    #[inline(always)]
    pub(crate) fn stops(&self, key: u64) -> bool
        ensures { result ≡ stops (key_in self.now) key }
    {
        match *self {
            Slot::Empty => true,
            Slot::Removed(other) | Slot::Full(other, _) => other == key,
        }
    }

    /// Returns true if the slot is empty.
    #[inline(always)]
    pub(crate) fn is_empty(&self) -> bool
        ensures { result ≡ is_empty self.now }
    {
        matches!(self, Slot::Empty)
    }

    /// The value, if there is one.
    #[inline(always)]
    pub(crate) fn value(&self) -> Option<u64>
        ensures { result ≡ value_in self.now }
    {
        match *self {
            Slot::Full(_, value) => Some(value),
            _ => None,
        }
    }
}
