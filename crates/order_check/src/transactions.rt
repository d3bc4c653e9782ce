//! What is kept of a history: the accesses of its committed transactions, and the footprints of the
//! others. A transaction's accesses are those of its footprint when it commits. They are appended in
//! the order of the commits. If memory is refused, nothing changes.
ghost use Rattle.std.specs.Prelude.{◌≡◌, ◌<◌, [], Bool, List, IfOk, OnOk, OnErr, vec_len, if◌then◌else◌};
ghost use Rattle.txn_words.specs.declared.entry.Entry.{Entry};
ghost use Rattle.txn_words.specs.Kinds.{caller_of};
ghost use Rattle.txn_words.specs.Shape.{IsShaped};
ghost use Rattle.order_check.specs.Outcomes.{ArePlain};
ghost use Rattle.order_check.specs.PlainProps.{ArePlain-prop, AreBegun-prop};
ghost use Rattle.order_check.specs.Timing.{AreBegun};

use crate::access::Access;
use crate::gather::{add_accesses, first_torn};
use crate::naming::{name_at, named_edges, names_at};
use crate::options::Options;
use crate::outcome::{Outcome, judge};
use crate::verdict::{Reason, Verdict};
use crate::writers::writers_of;
use history_check::Callers;
use serial_check::Footprints;
use std::alloc::{AllocError, Global};
use txn_trace::Entry;

/// The number of callers.
const CALLERS: usize = 64;

/// What is kept of a history.
#[derive(Drop)]
pub(crate) struct Transactions {
    /// The footprints of the callers' transactions.
    pub(crate) footprints: Footprints,
    /// The transaction that each caller began last, at the index of the caller's number.
    pub(crate) newest: Vec<u64>,
    /// Whether real time counts.
    pub(crate) real_time: bool,
    /// The number of branches that a search may take.
    pub(crate) most_branches: u64,
    /// For each caller, how many transactions had committed when it began its newest one. If real
    /// time does not count, 0.
    pub(crate) begun: Vec<usize>,
    /// The committed transactions, in the order of their commits.
    pub(crate) committed: Vec<u64>,
    /// For each committed transaction, how many had committed when it began. If real time does not
    /// count, 0.
    pub(crate) since: Vec<usize>,
    /// The accesses of the committed transactions. They name each transaction by its index in
    /// `committed`.
    pub(crate) accesses: Vec<Access>,
    /// A committed transaction whose replies contradict one another.
    pub(crate) torn: Option<u64>,
    ghost all: { vec_len newest ≡ 64 },
    ghost all_begun: { vec_len begun ≡ 64 },
    ghost timing: { AreBegun (vec_len committed) since.items begun.items } by { AreBegun-prop (vec_len committed) since.items begun.items },
    ghost plain: { ArePlain (vec_len committed) accesses.items } by { ArePlain-prop (vec_len committed) accesses.items },
}

impl Transactions {
    ghost use Rattle.order_check.specs.Kept.{Shows, Stays, TakesIn, Commits};
    ghost use Rattle.order_check.specs.Verdicts.{IsVerdictIf, IsOfCommits};
    ghost use Rattle.serial_check.specs.Serializable.{IsSerializableByCommits};

    /// What is kept before the first entry.
    pub(crate) fn new(alloc: Global, options: Options) -> Result<Transactions, AllocError>
        ensures { IfOk result (Shows options.real_time []) }
    {
        Ok(Transactions {
            footprints: Footprints::new(alloc)?,
            newest: vec![in alloc; 0; CALLERS]?,
            real_time: options.real_time,
            most_branches: options.most_branches,
            begun: vec![in alloc; 0; CALLERS]?,
            committed: Vec::new(alloc),
            since: Vec::new(alloc),
            accesses: Vec::new(alloc),
            torn: None,
        })
    }

    /// Applies an entry of the right shape. `callers` are the callers before the entry.
    pub(crate) fn take_in(&mut self, callers: &Callers, entry: &Entry) -> Result<(), AllocError>
        requires { caller_of entry.now < 64 }
        ensures ok { OnOk result (TakesIn entry.now callers.now self.old self.new) }
        ensures err { OnErr result (Stays self.old self.new) }
    {
        if let Entry::Committed(caller, _) = *entry {
            return self.commit(caller);
        }
        self.footprints.take_in(callers, entry)?;
        if let Entry::Began(caller, txn) = *entry {
            self.newest[caller as usize] = txn;
            self.begun[caller as usize] = self.commits_that_count();
        }
        Ok(())
    }

    /// How many transactions have committed, or 0 if real time does not count.
    fn commits_that_count(&self) -> usize
        ensures { result ≡ (if self.now.real_time then vec_len self.now.committed else 0) }
    {
        if self.real_time {
            self.committed.len()
        } else {
            0
        }
    }

    /// Commits the caller's transaction.
    fn commit(&mut self, caller: u64) -> Result<(), AllocError>
        requires { caller < 64 }
        ensures ok { OnOk result (Commits caller self.old self.new) }
        ensures err { OnErr result (Stays self.old self.new) }
    {
        self.committed.reserve(1)?;
        self.since.reserve(1)?;
        let footprint = self.footprints.of_caller(caller);
        add_accesses(&mut self.accesses, self.committed.len(), footprint)?;
        let txn = self.newest[caller as usize];
        self.torn = first_torn(self.torn, footprint.is_torn, txn);
        self.committed.push_reserved(txn);
        self.since.push_reserved(self.begun[caller as usize]);
        self.footprints.end(caller);
        Ok(())
    }

    /// The verdict on a history of the right shape.
    pub(crate) fn verdict(&self, alloc: Global) -> Result<Verdict, AllocError>
        ensures verdict { (b : Bool) (h : List Entry) → IsShaped h → Shows b h self.now →
            IfOk result (IsVerdictIf b h) }
        ensures commits { (b : Bool) (h : List Entry) → Shows b h self.now →
            IsSerializableByCommits h → IfOk result (IsOfCommits h) }
    {
        if let Some(txn) = self.torn {
            return Ok(Verdict::NotSerializable(Reason::Torn(txn)));
        }
        let count = self.committed.len();
        let most_branches = self.most_branches as usize;
        match judge(alloc, most_branches, count, &self.since, &self.accesses)? {
            Outcome::Order(places) => {
                let order = names_at(alloc, &self.committed, &places)?;
                Ok(Verdict::Serializable(order))
            }
            Outcome::Unwritten(access) => {
                let txn = name_at(&self.committed, access.txn as u64);
                let reason = Reason::Unwritten(txn, access.key, access.need);
                Ok(Verdict::NotSerializable(reason))
            }
            Outcome::Impossible(access) => {
                let txn = name_at(&self.committed, access.txn as u64);
                let reason = Reason::Impossible(txn, access.key, access.need);
                Ok(Verdict::NotSerializable(reason))
            }
            Outcome::Cycle(edges) => {
                let cycle = named_edges(alloc, &self.committed, &edges)?;
                Ok(Verdict::NotSerializable(Reason::Cycle(cycle)))
            }
            Outcome::Ambiguous(edge) => {
                let version = (edge.key, edge.value);
                let writers = writers_of(alloc, &self.committed, &self.accesses, version)?;
                Ok(Verdict::Undecided(edge.key, edge.value, writers))
            }
        }
    }
}
