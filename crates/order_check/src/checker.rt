// PROMISES a-verdict-by-any-order-is-right: Checker::feed, verdict
//! The checker that is fed the entries of a history one after another, and judges it by any order
//! of its transactions. It has the callers, what is kept of the transactions, the number of entries
//! and the first entry of the wrong shape. It judges only when it is asked for its verdict.
ghost use Rattle.std.specs.Prelude.{◌≡◌, ◌<◌, ◌++◌, [], ◌∷◌, Bool, List, IfOk, OnOk, OnErr};
ghost use Rattle.txn_words.specs.Kinds.{caller_of};
ghost use Rattle.txn_words.specs.Shape.{IsShaped};
ghost use Rattle.txn_words.specs.declared.entry.Entry.{Entry};

use crate::options::Options;
use crate::transactions::Transactions;
use crate::verdict::{Reason, Verdict};
use history_check::Callers;
use std::alloc::{AllocError, Global};
use txn_trace::Entry;

/// A checker that is fed the entries of a history one after another.
///
/// In a contract, `IsFed real_time h checker` says that the checker judges with or without real time,
/// and was fed the entries `h`.
#[derive(Drop)]
pub struct Checker {
    pub(crate) callers: Callers,
    pub(crate) transactions: Transactions,
    /// The number of entries fed so far, without the first one of the wrong shape and all later
    /// ones.
    pub(crate) fed: u64,
    /// The index of the first entry of the wrong shape.
    pub(crate) misshapen: Option<u64>,
}

impl Checker {
    ghost use Rattle.history_check.specs.Callers.{HaveEntered};
    ghost use Rattle.serial_check.specs.Serializable.{IsSerializableByCommits};
    ghost use Rattle.order_check.specs.Fed.{IsFed};
    ghost use Rattle.order_check.specs.Verdicts.{IsVerdictIf, IsOfCommits};

    /// Returns a checker that was fed no entry yet.
    ///
    /// # Errors
    ///
    /// `AllocError` if memory is refused.
    ///
    /// # Cost
    ///
    /// Time and memory for 64 callers, so both are constant.
    pub fn new(alloc: Global, options: Options) -> Result<Checker, AllocError>
        ensures { IfOk result (IsFed options.real_time []) }
    {
        Ok(Checker {
            callers: Callers::new(alloc)?,
            transactions: Transactions::new(alloc, options)?,
            fed: 0,
            misshapen: None,
        })
    }

    /// Feeds the checker the next entry. The entry's caller must be below 64. After an entry of the
    /// wrong shape, feeding more entries changes nothing.
    ///
    /// # Errors
    ///
    /// `AllocError` if memory is refused, or if 2^64 - 1 entries were fed already. The entry is
    /// then not fed, and may be fed again.
    ///
    /// # Cost
    ///
    /// A Did or an Undone takes time in proportion to the logarithm of the number of keys that its
    /// transaction asked for. A Committed or an Aborted takes constant time for each of these keys,
    /// amortized. Any other entry takes amortized constant time. A Did and a Saved may take memory.
    /// A Committed takes memory for each key of its transaction.
    pub fn feed(&mut self, entry: &Entry) -> Result<(), AllocError>
        requires { caller_of entry.now < 64 }
        ensures ok { OnOk result ((b : Bool) (h : List Entry) →
            IsFed b h self.old → IsFed b (h ++ entry.now ∷ []) self.new) }
        ensures err { OnErr result ((b : Bool) (h : List Entry) →
            IsFed b h self.old → IsFed b h self.new) }
    {
        if self.misshapen.is_some() {
            return Ok(());
        }
        if !self.callers.has_shape(entry) {
            self.misshapen = Some(self.fed);
            return Ok(());
        }
        let next = self.fed.checked_add(1).ok_or(AllocError)?;
        self.callers.reserve(entry)?;
        self.transactions.take_in(&self.callers, entry)?;
        self.callers.enter(*entry);
        self.fed = next;
        Ok(())
    }

    /// Returns the verdict on the history that was fed. If the order of the commits is a serial
    /// order, the verdict is `Serializable` with this order.
    ///
    /// # Errors
    ///
    /// `AllocError` if memory is refused.
    ///
    /// # Cost
    ///
    /// Time and memory in proportion to the keys of the committed transactions, each counted once
    /// for each transaction that asked for it. The time is the expected one, since the keys are
    /// hashed. With real time also in proportion to the pairs of transactions that ran at the same
    /// time. A search for an order adds at most the time of 64 steps for each of its branches, and
    /// that for a shortest cycle at most the time in which 64 times as many edges are looked at.
    pub fn verdict(&self, alloc: Global) -> Result<Verdict, AllocError>
        ensures verdict { (b : Bool) (h : List Entry) → IsFed b h self.now →
            IfOk result (IsVerdictIf b h) }
        ensures commits { (b : Bool) (h : List Entry) → IsFed b h self.now →
            IsSerializableByCommits h → IfOk result (IsOfCommits h) }
    {
        match self.misshapen {
            Some(entry) => Ok(Verdict::NotSerializable(Reason::Shape(entry))),
            None => self.transactions.verdict(alloc),
        }
    }

    /// Returns the callers as they are after the entries fed so far. They are meaningful only if
    /// each entry has the right shape.
    ///
    /// # Cost
    ///
    /// Constant time; takes no memory.
    pub fn callers(&self) -> &Callers
        ensures { (b : Bool) (h : List Entry) → IsFed b h self.now → IsShaped h →
            HaveEntered h result.now }
    {
        &self.callers
    }
}
