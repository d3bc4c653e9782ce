//! The operations on one key. The reply to an operation is the value that the key had before.
//! Actions, steps and entries all carry operations, so this module says whether an operation may
//! change the key, whether it did, and how many entries it may still add. For this only the
//! operation and its reply are needed, not the map.
ghost use Rattle.std.specs.Prelude.{◌≡◌};
ghost use Rattle.txn_words.specs.Map.{key_of};
ghost use Rattle.txn_words.specs.Shape.{changes};
ghost use Rattle.txn_words.specs.Owed.{may_change, owed_for};

/// An operation on one key of a map.
#[derive(Clone, Copy, Debug, PartialEq, Eq)]
pub enum Op {
    /// Puts a value at a key. The fields are the key and the value.
    Put(u64, u64),
    /// Takes a key out.
    Take(u64),
    /// Looks a key up.
    Get(u64),
    /// Puts a value at a key exactly if the key's value is the expected one. If `None` is expected,
    /// the key must be absent. The fields are the key, the expected value and the new value.
    PutIf(u64, Option<u64>, u64),
}

impl Op {
    /// The operation's key.
    pub fn key(self) -> u64
        ensures { result ≡ key_of self }
    {
        let (Op::Put(key, _) | Op::Take(key) | Op::Get(key) | Op::PutIf(key, ..)) = self;
        key
    }

    /// Returns true if there is a map on which the operation is a change. This holds for every
    /// operation but `Get`.
    pub fn may_change(self) -> bool
        ensures { result ≡ may_change self }
    {
        !matches!(self, Op::Get(_))
    }

    /// Returns true if an operation with this reply was a change: it put a value, or it took out a
    /// key that was there.
    pub fn changes(self, reply: Reply) -> bool
        ensures { result ≡ changes self reply }
    {
        match self {
            Op::Put(..) => true,
            Op::Take(_) => reply.is_some(),
            Op::Get(_) => false,
            Op::PutIf(_, expected, _) => reply == expected,
        }
    }

    /// The number of entries that the operation may still add while it waits: one for its reply,
    /// and one for its undoing if it may change the map.
    pub fn owed(self) -> u64
        ensures { result ≡ owed_for self }
    {
        if self.may_change() { 2 } else { 1 }
    }
}

/// The reply to an operation: the value that the key had before the operation, if it had a value.
pub type Reply = Option<u64>;
