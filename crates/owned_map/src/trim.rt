// PROMISES transactions-as-values: OwnedMap::trim
//! Cuts off a map's history, so that the map can be used without end in bounded memory.
//!
//! A trim makes a second core, which takes the place of the first. The new history begins with one
//! transaction, which puts all pairs.
ghost use Rattle.std.specs.Prelude.{◌≡◌, ◌≤◌, ◌+◌, ◌++◌, length, [], ◌∷◌, None, false, IfOk, IfErr, OnOk, OnErr};
ghost use Rattle.txn_words.specs.declared.entry.Entry.TheVariants as entries;
ghost use Rattle.txn_words.specs.declared.op.Op.TheVariants as ops;
ghost use Rattle.txn_words.specs.declared.step.Step.TheVariants as steps;
ghost use Rattle.txn_words.specs.Kinds.{is_commit};
ghost use Rattle.txn_words.specs.Map.{Map, get, insert};
ghost use Rattle.txn_trace.specs.Now.{now};
ghost use Rattle.txn_words.specs.Ordered.{ordered};
ghost use Rattle.txn_words.specs.Shape.{how_many};
ghost use Rattle.txn_words.specs.Sizes.{is_bad_key};
ghost use Rattle.owned_map.specs.Taken.{HasTakenKeys};
ghost use Rattle.boost_core.specs.Refusals.{MayLack};
ghost use Rattle.owned_map.specs.Trimmed.{IsFilling, IsNotTrimmed, IsTrimmed, LacksFor, filling, put_new as putting};

use crate::owned_map::OwnedMap;
use boost_core::Core;
use std::alloc::Global;
use std::mem;
use txn_trace::{Answer, Op, Refusal, Step};

impl OwnedMap {
    /// Cuts the history off. Returns the present core, whose history is legal, and replaces it with
    /// a new core that has the same limits and the same map. The new history begins with one
    /// committed transaction, in which caller 0 puts the pairs of the map, in the order of the
    /// list. So the new history is legal by itself. After its first transaction, the map has the
    /// content that the old history leaves. Transactions and commits are again numbered from 1.
    ///
    /// # Errors
    ///
    /// Each error leaves the map and its core unchanged.
    ///
    /// - `AlreadyOpen` if a caller has a transaction.
    /// - `NoMemory` if memory is refused.
    /// - `StampsUsedUp` if no stamp is left for a key in the new core. The map then has at least
    ///   2^63 keys.
    ///
    /// # Cost
    ///
    /// The cost of `new`, of a list of the pairs, and of a put for each pair. Besides the returned
    /// core, memory is taken for a core with the same pairs and a history of two entries for each
    /// pair. Until the call returns, the list of the pairs also takes memory.
    pub fn trim(&mut self, alloc: Global) -> Result<Core, Refusal>
        ensures old { IfOk result (λ core. core ≡ self.old.core) }
        ensures trimmed { OnOk result (IsTrimmed self.old.core self.new.core) }
        ensures err { OnErr result (self.new.core ≡ self.old.core) }
        ensures cause { IfErr result (λ refusal. IsNotTrimmed self.old.core refusal) }
    {
        if self.core.owed() != 0 {
            return Err(Refusal::AlreadyOpen);
        }
        let pairs = self.core.regular_list(alloc)?;
        let mut fresh = OwnedMap::new(alloc, self.core.limits())?;
        fresh.fill(pairs.as_slice())?;
        Ok(mem::replace(self, fresh).into_core())
    }

    /// Puts pairs into a new map, in one transaction.
    fn fill(&mut self, pairs: &[(u64, u64)]) -> Result<(), Refusal>
        requires blank { self.old.core.history ≡ [] }
        requires unused { self.old.core.stamp ≡ 0 }
        requires listed { (m : Map) × (pairs.now ≡ ordered m)
            × HasTakenKeys self.old.core.limits.half m }
        ensures ok { OnOk result (self.new.core.history ≡ filling pairs.now) }
        ensures map { OnOk result ((m : Map) → pairs.now ≡ ordered m
            → now self.new.core.history ≡ m) }
        ensures limits { self.new.core.limits ≡ self.old.core.limits }
        ensures lack { IfErr result (λ refusal. LacksFor (length pairs.now) refusal) }
    {
        self.begin_first()?;
        for pair in pairs {
            self.put_new(pair.0, pair.1)?;
        }
        self.commit_first();
        Ok(())
    }

    /// Begins the first transaction. Caller 0 exists and has no transaction, so the call fails only
    /// if memory is refused.
    fn begin_first(&mut self) -> Result<(), Refusal>
        requires blank { self.old.core.history ≡ [] }
        ensures ok { OnOk result (self.new.core.history ≡ entries.Began 0 1 ∷ []) }
        ensures only { OnOk result (IsFilling self.new.core) }
        ensures limits { self.new.core.limits ≡ self.old.core.limits }
        ensures stamp { OnOk result (self.new.core.stamp ≡ self.old.core.stamp) }
        ensures lack { IfErr result (λ refusal. refusal ≡ Refusal.NoMemory) }
    {
        // For the proof: the history is legal, and there is a caller 0.
        let _legal = self.core.trace();
        let _callers = self.core.limits().callers();
        match self.take_step(Step::Begin(0)) {
            Answer::Began(_) => Ok(()),
            Answer::Refused(refusal) => Err(refusal),
            _ => unreachable!(),
        }
    }

    /// Puts a pair whose key is new, and then grows the table if it has too few buckets. The limits
    /// accept the key, and no other caller holds its stripe. So the call fails only for lack of
    /// memory or stamps. It takes at most two stamps.
    #[tactic(auto, using(crate::proofs::FirstTransaction::only_puts))]
    fn put_new(&mut self, key: u64, value: u64) -> Result<(), Refusal>
        requires only { IsFilling self.old.core }
        requires fresh { get (now self.old.core.history) key ≡ None }
        requires taken { is_bad_key self.old.core.limits.half key ≡ false }
        ensures ok { OnOk result (self.new.core.history
            ≡ self.old.core.history ++ putting (key, value)) }
        ensures map { OnOk result (now self.new.core.history
            ≡ insert (now self.old.core.history) key value) }
        ensures only { OnOk result (IsFilling self.new.core) }
        ensures limits { self.new.core.limits ≡ self.old.core.limits }
        ensures stamp { OnOk result (self.new.core.stamp ≤ self.old.core.stamp + 2) }
        ensures lack { IfErr result (λ refusal. MayLack self.old.core
            (steps.Ask 0 (ops.Put key value)) refusal) }
    {
        // For the proof: the history is legal.
        let _legal = self.core.trace();
        match self.ask(0, Op::Put(key, value)) {
            Answer::Done(_) => {
                self.grow(0);
                Ok(())
            }
            Answer::Refused(refusal) => Err(refusal),
            _ => unreachable!(),
        }
    }

    /// Commits the first transaction. This takes no memory.
    #[tactic(auto, using(crate::proofs::FirstTransaction::only_commits))]
    fn commit_first(&mut self)
        requires only { IsFilling self.old.core }
        ensures ok { self.new.core.history ≡ self.old.core.history
            ++ entries.Committed 0 (how_many is_commit self.old.core.history + 1) ∷ [] }
        ensures map { now self.new.core.history ≡ now self.old.core.history }
        ensures limits { self.new.core.limits ≡ self.old.core.limits }
    {
        // For the proof: the history is legal.
        let _legal = self.core.trace();
        let Answer::Committed(_) = self.take_step(Step::Commit(0)) else {
            unreachable!();
        };
    }
}
