//! An entry of a history in 32 bytes, half the size of an `Entry`. The numbers of its caller and of
//! the holder that it names must be below 65,536. The callers of a map all have such numbers. The
//! model of a small entry is the entry itself, so a contract reads a list of small entries as a
//! history. `Unpacked` iterates over such a list. All calls take constant time and no memory.
ghost use Rattle.std.specs.Prelude.{◌≡◌, ◌↔◌, true, IsTrue};
ghost use Rattle.txn_words.specs.Kinds.{caller_of};
ghost use Rattle.txn_words.specs.Packed.{holder_part, packed_entry, small_entry};

use crate::entry::Entry;
use crate::packed_entry::{Kind, OpKind, PackedEntry};
use std::marker::Model;
use std::mem::size_of;

/// The numbers of callers and holders in small entries are below this number.
const CALLERS: u64 = 65_536;

/// An entry in 32 bytes, for long lists of entries, such as a core's history. The entry's caller
/// and the holder that the entry names are below 65,536. An `Entry` has no such bound but takes 64
/// bytes. In contracts, a small entry is the entry that it stands for.
#[derive(Debug, Drop)]
pub struct SmallEntry {
    kind: Kind,
    op: OpKind,
    caller: u16,
    holder: u16,
    number: u64,
    value: u64,
    expected: u64,
}

const _: () = prove!(size_of::<SmallEntry>() == 32);

impl Model for SmallEntry {
    ghost use Rattle.txn_words.specs.declared.entry.Entry.{Entry};
    ghost use Rattle.txn_words.specs.Packed.{packed_entry};

    ghost Value = { Entry };

    ghost view = { λ p. packed_entry p.kind p.op p.caller p.number p.value p.expected p.holder };
}

impl SmallEntry {
    /// Packs an entry. Returns `None` if the number of the entry's caller, or of the holder that
    /// the entry names, is 65,536 or more.
    #[inline(always)]
    pub fn new(entry: Entry) -> Option<SmallEntry>
        ensures { result ≡ small_entry entry }
    {
        let packed = PackedEntry::new(entry);
        let holder = holder_part(packed.kind, packed.holder);
        let is_small = packed.caller < CALLERS && holder < CALLERS;
        if !is_small {
            return None;
        }
        Some(SmallEntry {
            kind: packed.kind,
            op: packed.op,
            caller: packed.caller as u16,
            holder: holder as u16,
            number: packed.number,
            value: packed.value,
            expected: packed.expected,
        })
    }

    /// The entry.
    #[inline(always)]
    pub fn entry(&self) -> Entry
        ensures { result ≡ self.now }
    {
        let packed = PackedEntry {
            kind: self.kind,
            op: self.op,
            caller: u64::from(self.caller),
            number: self.number,
            value: self.value,
            expected: self.expected,
            holder: u64::from(self.holder),
        };
        packed.entry()
    }

    /// The number of the entry's caller.
    pub fn caller(&self) -> u64
        ensures { result ≡ caller_of self.now }
    {
        u64::from(self.caller)
    }

    /// Returns true if both small entries stand for the same entry.
    #[inline(always)]
    pub fn is_same(&self, other: &SmallEntry) -> bool
        ensures { IsTrue result ↔ (self.now ≡ other.now) }
    {
        self.has_fields_of(other) || self.is_same_unpacked(other)
    }

    /// Returns true if both small entries are equal in every field, and so stand for the same
    /// entry. Two small entries that stand for the same entry may still differ in a field that
    /// their kind does not use.
    #[inline(always)]
    fn has_fields_of(&self, other: &SmallEntry) -> bool
        ensures { result ≡ true → self.now ≡ other.now }
    {
        self.kind == other.kind
            && self.op == other.op
            && self.caller == other.caller
            && self.holder == other.holder
            && self.number == other.number
            && self.value == other.value
            && self.expected == other.expected
    }

    /// Returns true if both small entries stand for the same entry. Ignores the fields that their
    /// kind does not use.
    #[cold]
    #[inline(never)]
    fn is_same_unpacked(&self, other: &SmallEntry) -> bool
        ensures { IsTrue result ↔ (self.now ≡ other.now) }
    {
        self.entry() == other.entry()
    }
}

/// The given holder, or 0 if an entry of this kind names no holder.
fn holder_part(kind: Kind, holder: u64) -> u64
    ensures { result ≡ holder_part kind holder }
{
    match kind {
        Kind::Busy => holder,
        _ => 0,
    }
}

/// An iterator over the entries of a list of small entries, in order.
#[derive(Drop)]
pub struct Unpacked<'a> {
    rest: &'a [SmallEntry],
}

impl<'a> Model for Unpacked<'a> {
    ghost use Rattle.std.specs.Prelude.{List};
    ghost use Rattle.txn_words.specs.declared.entry.Entry.{Entry};

    ghost Value = { List Entry };

    ghost view = { λ s. s.rest.now };
}

impl<'a> Unpacked<'a> {
    /// An iterator over the entries of this list.
    pub fn new(list: &'a [SmallEntry]) -> Unpacked<'a>
        ensures { result ≡ list.now }
    {
        Unpacked { rest: list }
    }
}

impl<'a> Iterator for Unpacked<'a> {
    ghost use Rattle.std.specs.Iterator.{YieldsFirst, item_count};

    type Item = Entry;

    ghost next_gives = { YieldsFirst (λ s. s) };

    ghost remaining = { item_count (λ s. s) };

    fn next(&mut self) -> Option<Entry> {
        let (first, others) = self.rest.split_first()?;
        self.rest = others;
        Some(first.entry())
    }
}
