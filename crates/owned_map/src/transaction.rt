// PROMISES transactions-as-values: every call of `Transaction`
//! A transaction as a value: its operations, and its end.
//!
//! A transaction borrows the map, so no other call can be made on the map while the transaction is
//! open. Each call ensures `Keeps`, and so does a work of several calls. What a call does is said
//! once, of states of the core (`DoesOp`, `DoesSave` and `DoesBack` in `specs/Effects.antt`), and
//! lifted to the transaction (`Lifts`).
ghost use Rattle.std.specs.Prelude.{◌≡◌, ◌==◌, nat_eq, is_some, IfErr, IfOk, OnErr};
ghost use Rattle.std.specs.Option.{option_eq};
ghost use Rattle.txn_words.specs.declared.answer.Answer.TheVariants as answers;
ghost use Rattle.txn_words.specs.declared.step.Step.TheVariants as steps;
ghost use Rattle.txn_words.specs.Map.{count_of};
ghost use Rattle.txn_trace.specs.Now.{now};
ghost use Rattle.boost_core.specs.Machine.{Happens};
ghost use Rattle.owned_map.specs.Effects.{DoesBack, DoesOp, DoesSave, HasAborted, IsNotCommitted, Tells};
ghost use Rattle.owned_map.specs.Within.{IsCommitted, IsTakenBack};

use crate::owned_map::OwnedMap;
use txn_trace::{Op, Reply};
use txn_words::{Stop, Swapped};

/// An open transaction of a caller. It borrows the map. If the transaction is dropped before it is
/// committed, it is aborted: at every `?` and every early return its changes are taken back, and no
/// stripe stays held.
pub struct Transaction<'a> {
    pub(crate) map: &'a mut OwnedMap,
    pub(crate) caller: u64,
}

impl Transaction<'_> {
    ghost use Rattle.owned_map.specs.Keeps.{Lifts};

    /// Returns the value at a key, or `None` if the key is absent.
    ///
    /// # Errors
    ///
    /// Each error leaves the map unchanged. After `BadKey` or `NoMemory` the transaction can
    /// continue.
    ///
    /// - `Busy` if another caller's open transaction holds the key's stripe. This transaction can
    ///   then only be aborted.
    /// - `Refused` with `Leaving` if an earlier operation of this transaction was `Busy`.
    /// - `Refused` with `BadKey` if the limits allow only half keys and the key is 2^63 or more.
    /// - `Refused` with `NoMemory` if memory is refused.
    ///
    /// # Cost
    ///
    /// Time in proportion to the number of nodes from the nearest initialised bucket to the key's
    /// position. If the key is absent and the table has too few buckets, the call also takes up to
    /// four steps of the table. May take memory for the history, the log and the growth.
    pub fn get(&mut self, key: u64) -> Result<Reply, Stop>
        ensures { Lifts (DoesOp (Op.Get key)) self.old result self.new }
    {
        self.operate(Op::Get(key))
    }

    /// Returns true if the key is present.
    ///
    /// # Errors
    ///
    /// The errors of `get`.
    ///
    /// # Cost
    ///
    /// The cost of `get`.
    pub fn contains_key(&mut self, key: u64) -> Result<bool, Stop>
        ensures tells { Lifts (Tells (λ reply there. there ≡ is_some reply) (Op.Get key))
            self.old result self.new }
        ensures same { now self.new.map.now.core.history ≡ now self.old.map.now.core.history }
    {
        Ok(self.get(key)?.is_some())
    }

    /// Puts a value at a key, and returns the value that the key had before. If the key is new and
    /// the table has too few buckets, the table grows by a bucket.
    ///
    /// # Errors
    ///
    /// The errors of `get`, and `Refused` with `StampsUsedUp` if no stamp is left.
    ///
    /// # Cost
    ///
    /// The cost of `get`. May also take memory for a node.
    pub fn put(&mut self, key: u64, value: u64) -> Result<Reply, Stop>
        ensures { Lifts (DoesOp (Op.Put key value)) self.old result self.new }
    {
        self.operate(Op::Put(key, value))
    }

    /// Takes a key out, and returns the value that it had, or `None` if it was absent.
    ///
    /// # Errors
    ///
    /// The errors of `put`.
    ///
    /// # Cost
    ///
    /// The cost of `get`. May also take memory for a node.
    pub fn take(&mut self, key: u64) -> Result<Reply, Stop>
        ensures { Lifts (DoesOp (Op.Take key)) self.old result self.new }
    {
        self.operate(Op::Take(key))
    }

    /// Puts a value at a key if the key has the expected value. If `expected` is `None`, puts the
    /// value if the key is absent. Returns the value that the key had before. The new value was put
    /// exactly if the result equals `expected`.
    ///
    /// # Errors
    ///
    /// The errors of `put`.
    ///
    /// # Cost
    ///
    /// The cost of `put`.
    pub fn put_if(&mut self, key: u64, expected: Option<u64>, value: u64) -> Result<Reply, Stop>
        ensures { Lifts (DoesOp (Op.PutIf key expected value)) self.old result self.new }
    {
        self.operate(Op::PutIf(key, expected, value))
    }

    /// Does the same as `put_if`, but returns whether the value was put. This call is for work that
    /// need not know the old value.
    ///
    /// # Errors
    ///
    /// The errors of `put`.
    ///
    /// # Cost
    ///
    /// The cost of `put`.
    pub fn swap(&mut self, key: u64, expected: Option<u64>, value: u64) -> Result<Swapped, Stop>
        ensures { Lifts (Tells (λ had swapped. swapped.0 ≡ option_eq nat_eq had expected)
            (Op.PutIf key expected value)) self.old result self.new }
    {
        let had = self.put_if(key, expected, value)?;
        Ok(Swapped(had == expected))
    }

    /// Returns the number of keys of the map, including the changes of open transactions. Takes
    /// constant time.
    pub fn len(&self) -> u64
        ensures { result ≡ count_of (now self.now.map.now.core.history) }
    {
        self.map.len()
    }

    /// Returns true if the map, with the changes of open transactions, has no keys. Takes constant
    /// time.
    pub fn is_empty(&self) -> bool
        ensures { result ≡ (count_of (now self.now.map.now.core.history) == 0) }
    {
        self.map.is_empty()
    }

    /// The number of buckets of the table. Constant time.
    pub fn buckets(&self) -> u32
        ensures { result ≡ self.now.map.now.core.size }
    {
        self.map.buckets()
    }

    /// Sets a savepoint, and returns its level. The first savepoint has level 1.
    ///
    /// # Errors
    ///
    /// `Refused` with `NoMemory` if memory is refused, or with `Leaving` if an operation of this
    /// transaction was `Busy`. Nothing is changed.
    ///
    /// # Cost
    ///
    /// Amortized constant time. May take memory.
    #[tactic(auto, using(crate::proofs::Operations::lifted))]
    pub fn save(&mut self) -> Result<u64, Stop>
        ensures { Lifts DoesSave self.old result self.new }
    {
        let caller = self.caller;
        self.map.save(caller)
    }

    /// Takes back every change since a savepoint, newest first. The map then has the content that
    /// it had when the savepoint was set. That savepoint is kept, later ones are dropped, and
    /// stripes stay held. Level 0 is the beginning of the transaction.
    ///
    /// # Errors
    ///
    /// Each error leaves the map unchanged.
    ///
    /// - `Refused` with `NoSuchLevel` if the level is above the number of savepoints.
    /// - `Refused` with `NoMemory` if memory is refused.
    /// - `Refused` with `Leaving` if an operation of this transaction was `Busy`.
    ///
    /// # Cost
    ///
    /// A seek and an act for each change that is taken back, and a step for each savepoint that is
    /// dropped. May take memory for the history.
    #[tactic(auto, using(crate::proofs::Operations::lifted))]
    pub fn back(&mut self, level: u64) -> Result<(), Stop>
        ensures { Lifts (DoesBack level) self.old result self.new }
    {
        let caller = self.caller;
        self.map.back(caller, level)
    }

    /// Does an operation by a call of `OwnedMap::operate`.
    #[tactic(auto, using(crate::proofs::Operations::lifted))]
    fn operate(&mut self, op: Op) -> Result<Reply, Stop>
        ensures { Lifts (DoesOp op) self.old result self.new }
    {
        let caller = self.caller;
        self.map.operate(caller, op)
    }

    /// Commits the transaction, and returns its commit number. The first commit has number 1.
    ///
    /// # Errors
    ///
    /// `Refused` with `Leaving` if an operation was `Busy`. The transaction is then aborted.
    ///
    /// # Cost
    ///
    /// A step for each change, savepoint and stripe of the transaction. If the commit is refused,
    /// the cost of `abort`. Takes no memory.
    pub fn commit(self) -> Result<u64, Stop>
        ensures ok { IfOk result (λ place. IsCommitted self.entry.caller place
            self.entry.map.now.core self.exit.0.now.core) }
        ensures err { OnErr result (IsTakenBack self.entry.caller
            self.entry.map.now.core self.exit.0.now.core) }
        ensures did { IfOk result (λ place. Happens self.entry.map.now.core
            (steps.Commit self.entry.caller) (answers.Committed place) self.exit.0.now.core) }
        ensures stopped { IfErr result (λ stop. IsNotCommitted self.entry.caller
            self.entry.map.now.core stop self.exit.0.now.core) }
    {
        let Transaction { map, caller } = self;
        match map.commit(caller) {
            Ok(place) => Ok(place),
            Err(stop) => {
                let _aborted = map.abort(caller);
                Err(stop)
            }
        }
    }

    /// Aborts the transaction: takes back every change, newest first, and gives all stripes back.
    /// Dropping the transaction does the same.
    ///
    /// # Cost
    ///
    /// A seek and an act for each change, and a step for each savepoint and each stripe. Takes no
    /// memory.
    pub fn abort(self)
        ensures back { IsTakenBack self.entry.caller self.entry.map.now.core self.exit.0.now.core }
        ensures did { HasAborted self.entry.caller self.entry.map.now.core self.exit.0.now.core }
    {
        drop(self);
    }
}

impl Drop for Transaction<'_> {
    fn drop(self)
        ensures back { IsTakenBack self.entry.caller self.entry.map.now.core self.exit.0.now.core }
        ensures did { HasAborted self.entry.caller self.entry.map.now.core self.exit.0.now.core }
    {
        let Transaction { map, caller } = self;
        let _aborted = map.abort(caller);
    }
}
