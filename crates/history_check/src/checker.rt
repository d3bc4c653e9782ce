// PROMISES the-judge-of-histories: Checker::feed, verdict
//! The checker that is fed entry by entry. It has a state, the number of entries so far, and the
//! first bad entry. The state judges one entry, and the checker stores the verdict. Once an entry
//! breaks a rule, no later entry changes the verdict. If memory is refused, the entry can be fed
//! again.
ghost use Rattle.std.specs.Prelude.{◌≡◌, ℕ, ◌<◌, ◌++◌, [], ◌∷◌, List, IfOk, OnOk, OnErr};
ghost use Rattle.txn_words.specs.Kinds.{caller_of};
ghost use Rattle.txn_words.specs.declared.holder.Holder.{Holder};
ghost use Rattle.history_check.specs.Verdicts.{IsVerdictOn};

use crate::callers::Callers;
use crate::state::State;
use crate::verdict::{Rule, Verdict};
use std::alloc::{AllocError, Global};
use txn_trace::{Entry, Holder};

/// A checker that is fed the entries of a history one after another. It does not store the entries.
///
/// In a contract, `IsFed holder stripes h checker` says that the checker was fed the entries `h` of
/// a map with `stripes` stripes. `holder` says which callers a Busy entry may name.
#[derive(Drop)]
pub struct Checker {
    state: State,
    /// The number of entries that were fed before the first bad entry. If no entry is bad, the
    /// number of all entries that were fed.
    fed: u64,
    /// The index of the first bad entry and the rule that it breaks, if an entry is bad.
    bad: Option<(u64, Rule)>,
}

impl Checker {
    ghost use Rattle.txn_trace.specs.Legal.{IsLegal};
    ghost use Rattle.txn_words.specs.Map.{get};
    ghost use Rattle.txn_trace.specs.Now.{now};
    ghost use Rattle.history_check.specs.Callers.{HaveEntered};
    ghost use Rattle.history_check.specs.Fed.{IsFed};

    /// A checker before the first entry, for the history of a map with `stripes` stripes. `holder`
    /// says which callers a Busy entry may name.
    ///
    /// # Errors
    ///
    /// `AllocError` if memory is refused.
    ///
    /// # Cost
    ///
    /// Time and memory in proportion to the stripes, and for 64 callers and 1,021 empty maps.
    pub fn new(alloc: Global, stripes: u64, holder: Holder) -> Result<Checker, AllocError>
        requires { 0 < stripes }
        ensures { IfOk result (IsFed holder stripes []) }
    {
        let state = State::new(alloc, stripes, holder)?;
        Ok(Checker {
            state,
            fed: 0,
            bad: None,
        })
    }

    /// Feeds the checker the next entry, whose caller is below 64. Entries after the first bad one
    /// change nothing.
    ///
    /// # Errors
    ///
    /// `AllocError` if memory is refused, or if 2^64 - 1 entries were fed and none of them is bad.
    /// Then the entry was not fed, and can be fed again.
    ///
    /// # Cost
    ///
    /// Amortized time in proportion to the logarithm of the number of keys. A Committed or Aborted
    /// entry also takes time in proportion to the stripes that it gives back and to the
    /// transaction's standing changes. Only a Did entry (even one that changes nothing), an Undone
    /// entry or a Saved entry takes memory. After the first bad entry, a call takes constant time
    /// and no memory.
    #[inline(always)]
    pub fn feed(&mut self, entry: &Entry) -> Result<(), AllocError>
        requires { caller_of entry.now < 64 }
        ensures ok { OnOk result ((holder : Holder) (stripes : ℕ) (h : List Entry) →
            IsFed holder stripes h self.old → IsFed holder stripes (h ++ entry.now ∷ []) self.new) }
        ensures err { OnErr result ((holder : Holder) (stripes : ℕ) (h : List Entry) →
            IsFed holder stripes h self.old → IsFed holder stripes h self.new) }
    {
        if self.bad.is_some() {
            return Ok(());
        }
        let next = self.fed.checked_add(1).ok_or(AllocError)?;
        match self.state.take_in(entry)? {
            Some(rule) => self.bad = Some((self.fed, rule)),
            None => self.fed = next,
        }
        Ok(())
    }

    /// The verdict on the entries so far.
    ///
    /// # Cost
    ///
    /// Constant time: a look at each of 64 callers; takes no memory.
    pub fn verdict(&self) -> Verdict
        ensures { (holder : Holder) (stripes : ℕ) (h : List Entry) →
            IsFed holder stripes h self.now → IsVerdictOn holder stripes h result }
    {
        match self.bad {
            Some((entry, rule)) => Verdict::Illegal { entry, rule },
            None => Verdict::Legal {
                commits: self.state.callers.committed(),
                running: self.state.callers.running(),
            },
        }
    }

    /// The callers after the entries so far, provided that none of them is bad. A caller's phase
    /// says which entries of this caller may follow.
    ///
    /// # Cost
    ///
    /// Constant time; takes no memory.
    pub fn callers(&self) -> &Callers
        ensures { (holder : Holder) (stripes : ℕ) (h : List Entry) →
            IsFed holder stripes h self.now → IsLegal holder stripes h → HaveEntered h result.now }
    {
        &self.state.callers
    }

    /// The value of a key in the map as it is now, provided that no entry is bad. This is also the
    /// right reply to the next operation on the key.
    ///
    /// # Cost
    ///
    /// Time in proportion to the logarithm of the number of keys; takes no memory.
    pub fn value(&self, key: u64) -> Option<u64>
        ensures { (holder : Holder) (stripes : ℕ) (h : List Entry) →
            IsFed holder stripes h self.now → IsLegal holder stripes h → result ≡ get (now h) key }
    {
        self.state.map.values.get(key)
    }
}
