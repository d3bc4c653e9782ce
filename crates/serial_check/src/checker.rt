// PROMISES a-verdict-by-the-order-of-commits-is-right: Checker::feed, verdict
//! The checker that judges a history by the order of its commits. Besides the `State`, the checker
//! keeps the number of entries and the first bad entry. After a bad entry the verdict no longer
//! changes. A transaction's replies are judged at its Committed entry. Before that entry, `misread`
//! and `is_torn` report whether the transaction could commit. These two calls change nothing.
ghost use Rattle.std.specs.Prelude.{◌≡◌, ℕ, ◌<◌, ◌++◌, [], ◌∷◌, List, IfOk, OnOk, OnErr, IfSome, IsNone, Some, true, false};
ghost use Rattle.txn_words.specs.Kinds.{caller_of};
ghost use Rattle.serial_check.specs.Verdicts.{IsVerdictOn};

use crate::commits::Misread;
use crate::state::State;
use history_check::{Callers, Rule, Verdict};
use std::alloc::{AllocError, Global};
use txn_trace::Entry;

/// A checker that is fed the entries of a history one after another, and keeps none of them.
///
/// In a contract, `IsFed h checker` says that the checker was fed the entries `h`.
#[derive(Drop)]
pub struct Checker {
    state: State,
    /// The number of entries fed so far, without the first bad one and all later ones.
    fed: u64,
    /// The first bad entry and the rule that it breaks.
    bad: Option<(u64, Rule)>,
}

impl Checker {
    ghost use Rattle.txn_trace.specs.History.{is_open};
    ghost use Rattle.txn_words.specs.Map.{get};
    ghost use Rattle.txn_trace.specs.Serial.{serial};
    ghost use Rattle.history_check.specs.Callers.{HaveEntered};
    ghost use Rattle.serial_check.specs.Commits.{IsMisread, IsTorn, FitsOrTorn, RunsSomewhere};
    ghost use Rattle.serial_check.specs.Fed.{IsFed};
    ghost use Rattle.serial_check.specs.Serializable.{IsSerializableByCommits, txn_in};

    /// Returns a checker that was fed no entry yet.
    ///
    /// # Errors
    ///
    /// `AllocError` if memory is refused.
    ///
    /// # Cost
    ///
    /// Time and memory for 64 callers, so both are constant.
    pub fn new(alloc: Global) -> Result<Checker, AllocError>
        ensures { IfOk result (IsFed []) }
    {
        let state = State::new(alloc)?;
        Ok(Checker {
            state,
            fed: 0,
            bad: None,
        })
    }

    /// Feeds the checker the next entry. The entry's caller must be below 64. After a bad entry,
    /// feeding more entries changes nothing.
    ///
    /// # Errors
    ///
    /// `AllocError` if memory is refused, or if 2^64 - 1 entries were fed already. The entry is
    /// then not fed, and may be fed again.
    ///
    /// # Cost
    ///
    /// A Did or an Undone takes time in proportion to the logarithm of the number of keys that its
    /// transaction asked for. A Committed takes, for each of these keys, time in proportion to the
    /// logarithm of the number of keys in the map. An Aborted takes constant time for each of these
    /// keys. Any other entry takes constant time. All times are amortized, since an entry may drop
    /// changes and savepoints.
    ///
    /// A Did takes memory, even if its operation changes nothing. So does a Saved, and so does a
    /// Committed that adds keys to the map. After the first bad entry a call takes constant time
    /// and no memory.
    pub fn feed(&mut self, entry: &Entry) -> Result<(), AllocError>
        requires { caller_of entry.now < 64 }
        ensures ok { OnOk result ((h : List Entry) →
            IsFed h self.old → IsFed (h ++ entry.now ∷ []) self.new) }
        ensures err { OnErr result ((h : List Entry) → IsFed h self.old → IsFed h self.new) }
    {
        if self.bad.is_some() {
            return Ok(());
        }
        let next = self.fed.checked_add(1).ok_or(AllocError)?;
        match self.state.take_in(entry)? {
            Some(rule) => self.bad = Some((self.fed, rule)),
            None => self.fed = next,
        }
        Ok(())
    }

    /// Returns the verdict on the history that was fed. `Illegal` names the first bad entry and the
    /// rule that it breaks. The rule is `Replies` if the entry has the right shape and is the
    /// Committed of a transaction with a wrong reply, else `Shape`.
    ///
    /// # Cost
    ///
    /// Constant time: one look at each of the 64 callers.
    pub fn verdict(&self) -> Verdict
        ensures { (h : List Entry) → IsFed h self.now → IsVerdictOn h result }
    {
        match self.bad {
            Some((entry, rule)) => Verdict::Illegal { entry, rule },
            None => Verdict::Legal {
                commits: self.state.callers.committed(),
                running: self.state.callers.running(),
            },
        }
    }

    /// Returns the callers as they are after the entries fed so far. They are meaningful only if no
    /// entry is bad. A caller's phase says which entries of the caller may follow.
    pub fn callers(&self) -> &Callers
        ensures { (h : List Entry) →
            IsFed h self.now → IsSerializableByCommits h → HaveEntered h result.now }
    {
        &self.state.callers
    }

    /// Returns the value of a key in the map that the committed transactions leave. The value is
    /// meaningful only if no entry is bad.
    ///
    /// # Cost
    ///
    /// Time in proportion to the logarithm of the number of keys in the map.
    pub fn value(&self, key: u64) -> Option<u64>
        ensures { (h : List Entry) →
            IsFed h self.now → IsSerializableByCommits h → result ≡ get (serial h) key }
    {
        self.state.commits.values.get(&key).copied()
    }

    /// Returns a key at which the open transaction of a caller read a value that is not the
    /// committed one. If the next entry were this transaction's Committed and had the right shape,
    /// it would be bad because of this key.
    ///
    /// The caller must be below 64. If an entry is bad, or if the caller has no open transaction,
    /// the result means nothing.
    ///
    /// Returns `None` if the transaction could commit. Also returns `None` if its replies
    /// contradict one another, so that it could commit on no map.
    ///
    /// # Cost
    ///
    /// For each key that the transaction asked for, time in proportion to the logarithm of the
    /// number of keys in the map.
    pub fn misread(&self, caller: u64) -> Option<Misread>
        requires { caller < 64 }
        ensures some { (h : List Entry) (t : ℕ) → IsFed h self.now → IsSerializableByCommits h →
            txn_in h caller ≡ Some t → is_open t h ≡ true → IfSome result (IsMisread h t) }
        ensures none { IsNone result → (h : List Entry) (t : ℕ) → IsFed h self.now →
            IsSerializableByCommits h → txn_in h caller ≡ Some t → is_open t h ≡ true →
            FitsOrTorn h t }
    {
        self.state.commits.misread(caller)
    }

    /// Returns true if the replies of a caller's open transaction contradict one another. Then no
    /// map gives the transaction all its replies, so it can only abort.
    ///
    /// The caller must be below 64. If an entry is bad, or if the caller has no open transaction,
    /// the result means nothing.
    ///
    /// # Cost
    ///
    /// Constant time. Takes no memory.
    pub fn is_torn(&self, caller: u64) -> bool
        requires { caller < 64 }
        ensures torn { result ≡ true → (h : List Entry) (t : ℕ) → IsFed h self.now →
            IsSerializableByCommits h → txn_in h caller ≡ Some t → is_open t h ≡ true → IsTorn h t }
        ensures whole { result ≡ false → (h : List Entry) (t : ℕ) → IsFed h self.now →
            IsSerializableByCommits h → txn_in h caller ≡ Some t → is_open t h ≡ true →
            RunsSomewhere h t }
    {
        self.state.commits.is_torn(caller)
    }
}
