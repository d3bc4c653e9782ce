//! An entry of a history as numbers that C writes or gets, and the entry that these numbers stand
//! for. C passes numbers and no enum. If the numbers stand for no entry, nothing is fed and the call
//! returns 8. Only this module reads the numbers, so a checker is fed only entries whose caller is
//! below 64, as the checker requires.
ghost use Rattle.std.specs.Prelude.{◌≡◌, ◌<◌, Some, IfSome, is_some, unwrap_or};
ghost use Rattle.txn_words.specs.declared.op.Op.TheVariants.{Get};
ghost use Rattle.txn_words.specs.Kinds.{caller_of};
ghost use Rattle.boostmap_c.specs.Entries.{asked_entry_of, asking, busy_entry_of, c_entry_of, entry_of, judged_entry, numbers, op_of, optional, accepted_entry};
ghost use Rattle.txn_words.specs.declared.entry.Entry.{Entry};

use txn_trace::{Entry, Op};

const BEGAN: u32 = 1;

const ASKED: u32 = 2;

const DID: u32 = 3;

const SAVED: u32 = 4;

const LEAVE: u32 = 5;

const UNDONE: u32 = 6;

const RETURNED: u32 = 7;

const COMMITTED: u32 = 8;

const BUSY: u32 = 9;

const ABORTED: u32 = 10;

const PUT: u32 = 1;

const PUT_IF: u32 = 2;

const TAKE: u32 = 3;

const GET: u32 = 4;

/// One line of a history, as `boostmap.h` describes it.
#[repr(C)]
#[derive(Clone, Copy)]
pub struct CEntry {
    /// 1 began, 2 asked, 3 did, 4 saved, 5 leave, 6 undone, 7 returned, 8 committed, 9 busy, 10
    /// aborted.
    pub kind: u32,
    /// For asked and busy: 1 put, 2 put if, 3 take, 4 get.
    pub operation: u32,
    /// The number of the entry's caller, below 64.
    pub caller: u64,
    /// The operation's key.
    pub key: u64,
    /// The operation's value. For a `did`, the reply.
    pub value: u64,
    /// The value that a `put if` operation expects.
    pub expected: u64,
    /// For began, the transaction's number. For committed, the commit number. For leave and
    /// returned, the level. For busy, the holder that it names.
    pub number: u64,
    /// 0 if a did says that the key had no value, if a `put if` expects no value, or if a leave has
    /// no level to go back to. Otherwise any other number.
    pub has: u64,
}

impl CEntry {
    /// The numbers that stand for an entry. Members that its kind does not have are 0.
    pub(crate) fn of(entry: Entry) -> CEntry
        ensures { result ≡ c_entry_of entry }
    {
        match entry {
            Entry::Began(caller, transaction) => numbers(BEGAN, caller, 0, transaction, 0),
            Entry::Asked(caller, op) => asking(ASKED, caller, 0, op),
            Entry::Did(caller, None) => numbers(DID, caller, 0, 0, 0),
            Entry::Did(caller, Some(value)) => numbers(DID, caller, value, 0, 1),
            Entry::Saved(caller) => numbers(SAVED, caller, 0, 0, 0),
            Entry::Leave(caller, None) => numbers(LEAVE, caller, 0, 0, 0),
            Entry::Leave(caller, Some(level)) => numbers(LEAVE, caller, 0, level, 1),
            Entry::Undone(caller) => numbers(UNDONE, caller, 0, 0, 0),
            Entry::Returned(caller, level) => numbers(RETURNED, caller, 0, level, 0),
            Entry::Committed(caller, place) => numbers(COMMITTED, caller, 0, place, 0),
            Entry::Busy(caller, op, holder) => asking(BUSY, caller, holder, op),
            Entry::Aborted(caller) => numbers(ABORTED, caller, 0, 0, 0),
        }
    }

    /// The entry that these numbers stand for, if the kind and the operation exist and the caller
    /// is below 64.
    pub(crate) fn judged(&self) -> Option<Entry>
        ensures value { result ≡ judged_entry self.now }
        ensures caller { IfSome result (λ entry. caller_of entry < 64) }
    {
        match self.entry() {
            Some(entry) => taken(entry),
            None => None,
        }
    }

    /// The entry that these numbers stand for, if the kind and the operation exist.
    fn entry(&self) -> Option<Entry>
        ensures { result ≡ entry_of self.now }
    {
        if self.kind == BEGAN {
            return Some(Entry::Began(self.caller, self.number));
        }
        if self.kind == ASKED {
            return self.asked();
        }
        if self.kind == DID {
            return Some(Entry::Did(self.caller, self.optional(self.value)));
        }
        if self.kind == SAVED {
            return Some(Entry::Saved(self.caller));
        }
        if self.kind == LEAVE {
            return Some(Entry::Leave(self.caller, self.optional(self.number)));
        }
        if self.kind == UNDONE {
            return Some(Entry::Undone(self.caller));
        }
        if self.kind == RETURNED {
            return Some(Entry::Returned(self.caller, self.number));
        }
        if self.kind == COMMITTED {
            return Some(Entry::Committed(self.caller, self.number));
        }
        if self.kind == BUSY {
            return self.busy();
        }
        if self.kind == ABORTED {
            return Some(Entry::Aborted(self.caller));
        }
        None
    }

    /// The Asked entry that these numbers stand for, if the operation exists.
    fn asked(&self) -> Option<Entry>
        ensures { result ≡ asked_entry_of self.now (op_of self.now) }
    {
        match self.op() {
            Some(op) => Some(Entry::Asked(self.caller, op)),
            None => None,
        }
    }

    /// The Busy entry that these numbers stand for, if the operation exists.
    fn busy(&self) -> Option<Entry>
        ensures { result ≡ busy_entry_of self.now (op_of self.now) }
    {
        match self.op() {
            Some(op) => Some(Entry::Busy(self.caller, op, self.number)),
            None => None,
        }
    }

    /// The operation that these numbers stand for, if `operation` names one.
    fn op(&self) -> Option<Op>
        ensures { result ≡ op_of self.now }
    {
        if !self.has_op() {
            return None;
        }
        Some(self.op_or_get())
    }

    /// Whether `operation` names an operation.
    #[inline(always)]
    pub(crate) fn has_op(&self) -> bool
        ensures { result ≡ is_some (op_of self.now) }
    {
        PUT <= self.operation && self.operation <= GET
    }

    /// The operation that these numbers stand for, or a get of the key if they stand for none.
    #[inline(always)]
    pub(crate) fn op_or_get(&self) -> Op
        ensures { result ≡ unwrap_or (op_of self.now) (Get self.now.key) }
    {
        if self.operation == PUT {
            return Op::Put(self.key, self.value);
        }
        if self.operation == PUT_IF {
            return Op::PutIf(self.key, self.optional(self.expected), self.value);
        }
        if self.operation == TAKE {
            return Op::Take(self.key);
        }
        Op::Get(self.key)
    }

    /// Returns `number` if `has` is not 0, and `None` if it is 0.
    fn optional(&self, number: u64) -> Option<u64>
        ensures { result ≡ optional self.now.has number }
    {
        if self.has == 0 {
            return None;
        }
        Some(number)
    }
}

/// The numbers of an entry that is not Asked or Busy. The other members are 0.
fn numbers(kind: u32, caller: u64, value: u64, number: u64, has: u64) -> CEntry
    ensures { result ≡ numbers kind caller value number has }
{
    CEntry {
        kind,
        operation: 0,
        caller,
        key: 0,
        value,
        expected: 0,
        number,
        has,
    }
}

/// The numbers of an entry with this operation.
fn asking(kind: u32, caller: u64, number: u64, op: Op) -> CEntry
    ensures { result ≡ asking kind caller number op }
{
    let (operation, key, value, expected, has) = match op {
        Op::Put(key, value) => (PUT, key, value, 0, 0),
        Op::PutIf(key, None, value) => (PUT_IF, key, value, 0, 0),
        Op::PutIf(key, Some(expected), value) => (PUT_IF, key, value, expected, 1),
        Op::Take(key) => (TAKE, key, 0, 0, 0),
        Op::Get(key) => (GET, key, 0, 0, 0),
    };
    CEntry {
        kind,
        operation,
        caller,
        key,
        value,
        expected,
        number,
        has,
    }
}

/// Returns the entry if its caller is below 64, and `None` if not.
fn taken(entry: Entry) -> Option<Entry>
    ensures value { result ≡ accepted_entry (Some entry) }
    ensures caller { IfSome result (λ entry. caller_of entry < 64) }
{
    if entry.caller() >= 64 {
        return None;
    }
    Some(entry)
}

/// A law: the numbers that C gets for an entry stand for that entry.
#[tactic(auto, using(crate::proofs::Back::read_back))]
pub(crate) fn reads_back()
    ensures { (entry : Entry) → entry_of (c_entry_of entry) ≡ Some entry }
{}
