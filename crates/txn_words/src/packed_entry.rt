//! The fields of a small entry before its numbers are made small, and the fields of an operation,
//! which packed actions and packed steps have too.
ghost use Rattle.std.specs.Prelude.{◌≡◌};
ghost use Rattle.txn_words.specs.Packed.{packed_op, packed_entry};

use crate::entry::Entry;
use crate::op::Op;
use std::marker::Model;

/// The kind of an operation, and whether a `PutIf` expects a value or none.
#[derive(Clone, Copy, Debug, PartialEq, Eq)]
pub(crate) enum OpKind {
    Put,
    Take,
    Get,
    PutIf,
    PutIfNone,
}

/// The kind of an entry. It also says whether a reply has a value and whether a `Leave` names a
/// level.
#[derive(Clone, Copy, Debug, PartialEq, Eq)]
pub(crate) enum Kind {
    Began,
    Asked,
    Did,
    DidNone,
    Saved,
    Leave,
    LeaveToEnd,
    Undone,
    Returned,
    Committed,
    Busy,
    Aborted,
}

/// The fields of a small entry before their numbers are made small. In contracts, a packed entry is
/// the entry that it stands for.
#[derive(Drop)]
pub(crate) struct PackedEntry {
    pub(crate) kind: Kind,
    pub(crate) op: OpKind,
    pub(crate) caller: u64,
    /// The key of an operation, the number of a transaction, the number of a commit, a reply, or a
    /// level.
    pub(crate) number: u64,
    pub(crate) value: u64,
    pub(crate) expected: u64,
    pub(crate) holder: u64,
}

impl Model for PackedEntry {
    ghost use Rattle.txn_words.specs.declared.entry.Entry.{Entry};
    ghost use Rattle.txn_words.specs.Packed.{packed_entry};

    ghost Value = { Entry };

    ghost view = { λ p. packed_entry p.kind p.op p.caller p.number p.value p.expected p.holder };
}

impl PackedEntry {
    /// The entry, packed.
    #[inline(always)]
    pub(crate) fn new(entry: Entry) -> PackedEntry
        ensures { result ≡ entry }
    {
        match entry {
            Entry::Began(caller, txn) => PackedEntry::of(Kind::Began, caller, txn),
            Entry::Asked(caller, op) => {
                let (op, number, value, expected) = parts_of(op);
                PackedEntry {
                    kind: Kind::Asked,
                    op,
                    caller,
                    number,
                    value,
                    expected,
                    holder: 0,
                }
            }
            Entry::Did(caller, Some(value)) => PackedEntry::of(Kind::Did, caller, value),
            Entry::Did(caller, None) => PackedEntry::of(Kind::DidNone, caller, 0),
            Entry::Saved(caller) => PackedEntry::of(Kind::Saved, caller, 0),
            Entry::Leave(caller, Some(level)) => PackedEntry::of(Kind::Leave, caller, level),
            Entry::Leave(caller, None) => PackedEntry::of(Kind::LeaveToEnd, caller, 0),
            Entry::Undone(caller) => PackedEntry::of(Kind::Undone, caller, 0),
            Entry::Returned(caller, level) => PackedEntry::of(Kind::Returned, caller, level),
            Entry::Committed(caller, place) => PackedEntry::of(Kind::Committed, caller, place),
            Entry::Busy(caller, op, holder) => {
                let (op, number, value, expected) = parts_of(op);
                PackedEntry {
                    kind: Kind::Busy,
                    op,
                    caller,
                    number,
                    value,
                    expected,
                    holder,
                }
            }
            Entry::Aborted(caller) => PackedEntry::of(Kind::Aborted, caller, 0),
        }
    }

    /// The entry.
    #[inline(always)]
    pub(crate) fn entry(&self) -> Entry
        ensures { result ≡ self.now }
    {
        let caller = self.caller;
        match self.kind {
            Kind::Began => Entry::Began(caller, self.number),
            Kind::Asked => {
                let op = op_of(self.op, self.number, self.value, self.expected);
                Entry::Asked(caller, op)
            }
            Kind::Did => Entry::Did(caller, Some(self.number)),
            Kind::DidNone => Entry::Did(caller, None),
            Kind::Saved => Entry::Saved(caller),
            Kind::Leave => Entry::Leave(caller, Some(self.number)),
            Kind::LeaveToEnd => Entry::Leave(caller, None),
            Kind::Undone => Entry::Undone(caller),
            Kind::Returned => Entry::Returned(caller, self.number),
            Kind::Committed => Entry::Committed(caller, self.number),
            Kind::Busy => {
                let op = op_of(self.op, self.number, self.value, self.expected);
                Entry::Busy(caller, op, self.holder)
            }
            Kind::Aborted => Entry::Aborted(caller),
        }
    }

    /// An entry without an operation.
    fn of(kind: Kind, caller: u64, number: u64) -> PackedEntry
        ensures { result ≡ packed_entry kind OpKind.Get caller number 0 0 0 }
    {
        PackedEntry {
            kind,
            op: OpKind::Get,
            caller,
            number,
            value: 0,
            expected: 0,
            holder: 0,
        }
    }
}

/// An operation's kind, key, value and expected value; a number that the operation lacks is 0.
pub(crate) fn parts_of(op: Op) -> (OpKind, u64, u64, u64)
    ensures { packed_op result.0 result.1 result.2 result.3 ≡ op }
{
    match op {
        Op::Put(key, value) => (OpKind::Put, key, value, 0),
        Op::Take(key) => (OpKind::Take, key, 0, 0),
        Op::Get(key) => (OpKind::Get, key, 0, 0),
        Op::PutIf(key, Some(expected), value) => (OpKind::PutIf, key, value, expected),
        Op::PutIf(key, None, value) => (OpKind::PutIfNone, key, value, 0),
    }
}

/// The operation that has these parts.
pub(crate) fn op_of(kind: OpKind, key: u64, value: u64, expected: u64) -> Op
    ensures { result ≡ packed_op kind key value expected }
{
    match kind {
        OpKind::Put => Op::Put(key, value),
        OpKind::Take => Op::Take(key),
        OpKind::Get => Op::Get(key),
        OpKind::PutIf => Op::PutIf(key, Some(expected), value),
        OpKind::PutIfNone => Op::PutIf(key, None, value),
    }
}
