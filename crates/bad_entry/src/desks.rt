//! The state of each caller of a history: the operation that the caller waits for, and its
//! transaction. `change`, `held` and `reason` update this state while they go through the entries,
//! legal or not. An entry takes constant time.
ghost use Rattle.std.specs.Prelude.{◌≡◌, ℕ, ◌<◌, ◌++◌, [], ◌∷◌, List, Option, None, IfOk, vec_len};
ghost use Rattle.txn_trace.specs.History.{txn_after};
ghost use Rattle.txn_words.specs.Kinds.{caller_of};
ghost use Rattle.txn_trace.specs.Log.{Log, log_step};
ghost use Rattle.txn_words.specs.declared.entry.Entry.{Entry};

use std::alloc::{AllocError, Global};
use txn_trace::{Entry, Op};

/// How many callers there are.
const CALLERS: usize = 64;

/// The state of a caller.
#[derive(Clone, Copy, Debug, PartialEq, Eq)]
pub struct Desk {
    /// The operation that waits for its reply.
    pub waiting: Option<Op>,
    /// The transaction that the caller began last.
    pub txn: Option<u64>,
}

impl Desk {
    /// Updates the state of a caller by an entry of this caller.
    pub(crate) fn enter(&mut self, entry: Entry)
        ensures waiting { (log : Log) → log.pending ≡ self.old.waiting →
            (log_step log entry).pending ≡ self.new.waiting }
        ensures txn { (before : ℕ → Option ℕ) → before (caller_of entry) ≡ self.old.txn →
            txn_after before entry (caller_of entry) ≡ self.new.txn }
    {
        match entry {
            Entry::Began(_, txn) => {
                self.waiting = None;
                self.txn = Some(txn);
            }
            Entry::Asked(_, op) => self.waiting = Some(op),
            Entry::Did(..) | Entry::Committed(..) | Entry::Aborted(_) => self.waiting = None,
            _ => {}
        }
    }
}

/// The state of each of 64 callers.
///
/// In a contract, `HaveNoted h desks` says that the entries `h` were entered in `desks`.
#[derive(Drop)]
pub struct Desks {
    table: Vec<Desk>,
    ghost all: { vec_len table ≡ 64 },
}

impl Desks {
    ghost use Rattle.txn_words.specs.declared.op.Op.{Op};
    ghost use Rattle.bad_entry.specs.Desks.{HaveNoted, txn_in, waiting_in};

    /// Returns the states of the callers before the first entry.
    ///
    /// # Errors
    ///
    /// `AllocError` if memory is refused.
    ///
    /// # Cost
    ///
    /// Time and memory for 64 callers.
    pub fn new(alloc: Global) -> Result<Desks, AllocError>
        ensures { IfOk result (HaveNoted []) }
    {
        let mut table = Vec::with_capacity(alloc, CALLERS)?;
        for _ in 0..CALLERS {
            table.push(Desk {
                waiting: None,
                txn: None,
            })?;
        }
        Ok(Desks { table })
    }

    /// The state of a caller.
    ///
    /// # Cost
    ///
    /// Constant time; takes no memory.
    pub fn at(&self, caller: u64) -> Desk
        requires { caller < 64 }
        ensures waiting { (h : List Entry) → HaveNoted h self.now →
            result.waiting ≡ waiting_in h caller }
        ensures txn { (h : List Entry) → HaveNoted h self.now → result.txn ≡ txn_in h caller }
    {
        self.table[caller as usize]
    }

    /// Updates the state of an entry's caller by the entry. The entry may be of any shape.
    ///
    /// # Cost
    ///
    /// Constant time; takes no memory.
    pub fn enter(&mut self, entry: Entry)
        requires { caller_of entry < 64 }
        ensures { (h : List Entry) → HaveNoted h self.old → HaveNoted (h ++ entry ∷ []) self.new }
    {
        let caller = entry.caller();
        self.table[caller as usize].enter(entry);
    }
}
