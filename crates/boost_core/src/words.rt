// PROMISES stripes-as-atomic-words: Core::with_words, ask_with, ask_held
//! A core whose stripes are atomic words that others keep: an operation is asked for with the right
//! to its stripe, or with the word that names the stripe's holder. `step`, in contrast, locks
//! stripes itself.
ghost use Rattle.std.specs.Prelude.{◌≡◌, ◌≢◌, ◌-◌, true, IfOk, IfErr};
ghost use Rattle.txn_words.specs.Map.{key_of};
ghost use Rattle.txn_trace.specs.Locks.{has_begun, stripe_of};
ghost use Rattle.boost_core.specs.Machine.{start_with_words};

use crate::claim::Claim;
use crate::machine::Core;
use crate::steps::CallerStep;
use key_locks::StripeRight;
use std::alloc::Global;
use txn_trace::{Answer, Limits, Op, Refusal, Step};

impl Core {
    ghost use Rattle.boost_core.specs.Machine.{Cursors};
    ghost use Rattle.boost_core.specs.Words.{Asks, ListsAsk, claim_of};

    /// A new core whose callers take the rights to their stripes elsewhere, by atomic words that
    /// say who holds each stripe. So an operation is asked for by `ask_with` or `ask_held`, and
    /// never by `step`, `run`, `put`, `put_if`, `take` or `get`. In its history a Busy entry names
    /// a caller that has begun a transaction, and may have ended it.
    ///
    /// # Errors
    ///
    /// `Refusal::NoMemory` if memory is refused.
    ///
    /// # Cost
    ///
    /// Time and memory in proportion to the callers, the stripes and the largest number of buckets.
    pub fn with_words(alloc: Global, limits: Limits) -> Result<Core, Refusal>
        ensures ok { IfOk result (λ core. core ≡ start_with_words limits) }
        ensures err { IfErr result (λ refusal. refusal ≡ Refusal.NoMemory) }
    {
        Core::make(alloc, limits, true)
    }

    /// Returns true if the stripes are atomic words that others keep. No step changes this.
    pub fn words(&self) -> bool
        ensures { result ≡ self.now.words }
    {
        self.words
    }

    /// Asks for an operation with the right to the stripe of its key, like the step `Ask` of a core
    /// whose stripes are not words.
    ///
    /// The answer is `Asked` or a refusal. The refusals are tested in this order: `NoSuchCaller`,
    /// `NotOpen`, `Leaving`, `OperationUnfinished`, `BadKey`, `NoMemory` for the history and the
    /// log, `StampsUsedUp`, `NoMemory` for the node, and `StaleWord` if the core has recorded
    /// another caller as the stripe's holder. A refusal leaves the state unchanged, except that
    /// `StaleWord` may use up a stamp.
    ///
    /// # Cost
    ///
    /// Amortized constant time; may take memory for the history, the log and a node.
    pub fn ask_with(&mut self, caller: u64, op: Op, right: &StripeRight) -> Answer
        requires words { self.old.words ≡ true }
        requires right { right.now ≡ stripe_of self.old.limits.stripes (key_of op) }
        ensures asks { Asks Claim.Right self.old (Step.Ask caller op) result self.new }
        ensures lists { ListsAsk Claim.Right self.old (Step.Ask caller op) result self.new }
        ensures cursors { Cursors self.old (Step.Ask caller op) result self.new }
        ensures limits { self.new.limits ≡ self.old.limits }
        ensures words { self.new.words ≡ true }
    {
        // The caller only shows that it has the right. The step does not use the stripe's number.
        let _stripe = right.stripe();
        self.call(caller, CallerStep::Ask(op, Claim::Right))
    }

    /// Asks for an operation with the word of its stripe, which names a caller. The word is the
    /// number of that caller plus one.
    ///
    /// The answer is `Busy` with the number of the caller that the word names, or a refusal. After
    /// `Busy` the asking caller is taking back all its changes (its phase is `LeavingToEnd`). The
    /// refusals are tested in this order: `NoSuchCaller`, `NotOpen`, `Leaving`,
    /// `OperationUnfinished`, `BadKey`, and `StaleWord` if the word names the asking caller or a
    /// caller that has never begun a transaction. A refusal leaves the state unchanged. No spare is
    /// taken, and the room for the entry was reserved when the transaction began.
    pub fn ask_held(&mut self, caller: u64, op: Op, word: u64) -> Answer
        requires words { self.old.words ≡ true }
        requires word { word ≢ 0 }
        ensures asks { Asks (claim_of self.old caller (word - 1)) self.old (Step.Ask caller op)
            result self.new }
        ensures lists { ListsAsk (claim_of self.old caller (word - 1)) self.old
            (Step.Ask caller op) result self.new }
        ensures cursors { Cursors self.old (Step.Ask caller op) result self.new }
        ensures limits { self.new.limits ≡ self.old.limits }
        ensures words { self.new.words ≡ true }
    {
        let claim = self.claim_of(caller, word - 1);
        self.call(caller, CallerStep::Ask(op, claim))
    }

    /// The claim of `caller` to a stripe whose word names `named`.
    fn claim_of(&self, caller: u64, named: u64) -> Claim
        ensures { result ≡ claim_of self.now caller named }
    {
        if named != caller && self.has_begun(named) {
            Claim::Held(named)
        } else {
            Claim::Stale
        }
    }

    /// Returns true if a caller has begun a transaction.
    fn has_begun(&self, caller: u64) -> bool
        ensures { result ≡ has_begun caller self.now.history }
    {
        match self.begun.get(caller as usize) {
            Some(begun) => *begun,
            None => false,
        }
    }
}
