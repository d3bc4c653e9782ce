// PROMISES transactions-as-values: OwnedMap::transact
//! The map: a core, how far its table has grown, and the calls that need both.
//!
//! Each call of `Transaction` makes a call of `OwnedMap`, which names the caller and has a contract
//! about states of the core. `grown` is the number of the next bucket to initialise. It rises only
//! after that bucket is initialised, so all buckets below it are initialised. No contract states
//! this.
ghost use Rattle.std.specs.Prelude.{◌≡◌, ◌==◌, ◌≤◌, ◌*◌, true, false, ℕ, ◌⊎◌, [], ◌∷◌, IfOk, IfErr, OnOk, OnErr, Ok, Err};
ghost use Rattle.txn_words.specs.Map.{count_of};
ghost use Rattle.txn_trace.specs.Now.{now};
ghost use Rattle.txn_words.specs.declared.answer.Answer.{Answer};
ghost use Rattle.txn_words.specs.declared.answer.Answer.TheVariants as answers;
ghost use Rattle.txn_words.specs.declared.step.Step.TheVariants as steps;
ghost use Rattle.boost_core.specs.Machine.{Happens, Move, Moves};
ghost use Rattle.boost_core.specs.State.{start};
ghost use Rattle.boost_core.specs.Plain.{Aborts, Helps, Operates};
ghost use Rattle.owned_map.specs.Effects.{DoesBack, DoesOp, DoesSave, HasAborted, HasBegun, IsNotCommitted, IsStopped};
ghost use Rattle.owned_map.specs.Taken.{asks_well};
ghost use Rattle.owned_map.specs.Within.{CanAbort, GoesOn, OnlyWorked, IsCommitted, IsGrown, IsRun, IsSameMap, IsTakenBack, OnlyDid, initialising};

use crate::transaction::Transaction;
use boost_core::Core;
use std::alloc::Global;
use txn_trace::{Answer, Limits, Op, Refusal, Reply, Step};
use txn_words::Stop;

/// Up to this number of initialised buckets, a table has one bucket for every two keys, so that
/// operations on a small table walk past few nodes.
const FEW_BUCKETS: u64 = 4096;

/// The number of keys for each initialised bucket of a large table. If it were smaller, the puts of
/// new keys would initialise more buckets. If it were larger, operations would walk past more
/// nodes.
const KEYS_A_BUCKET: u64 = 8;

/// A transactional map from `u64` to `u64` with one owner. The owner makes every call, on behalf of
/// any of the map's callers. Contracts see the map's core.
#[derive(Drop)]
pub struct OwnedMap {
    pub(crate) core: Core,
    // The next bucket to initialise: all below it are initialised.
    grown: u64,
    ghost ordinary: { core.words ≡ false },
    // No operation has asked for a key that the limits refuse.
    ghost taken: { asks_well core.limits.half core.history ≡ true },
}

impl OwnedMap {
    ghost use Rattle.owned_map.specs.Keeps.{Keeps};

    /// Returns a new map, without keys.
    ///
    /// # Errors
    ///
    /// `NoMemory` if memory is refused.
    ///
    /// # Cost
    ///
    /// Time and memory in proportion to the number of callers, the number of stripes and the
    /// largest number of buckets.
    pub fn new(alloc: Global, limits: Limits) -> Result<OwnedMap, Refusal>
        ensures ok { IfOk result (λ map. map.core ≡ start limits) }
        ensures err { IfErr result (λ refusal. refusal ≡ Refusal.NoMemory) }
    {
        let core = Core::new(alloc, limits)?;
        Ok(OwnedMap { core, grown: 1 })
    }

    /// Returns the number of keys of the map, including the changes of open transactions. Takes
    /// constant time.
    pub fn len(&self) -> u64
        ensures { result ≡ count_of (now self.now.core.history) }
    {
        self.core.count()
    }

    /// Returns true if the map, with the changes of open transactions, has no keys. Takes constant
    /// time.
    pub fn is_empty(&self) -> bool
        ensures { result ≡ (count_of (now self.now.core.history) == 0) }
    {
        self.core.count() == 0
    }

    /// The number of buckets of the table. Constant time.
    pub fn buckets(&self) -> u32
        ensures { result ≡ self.now.core.size }
    {
        self.core.size()
    }

    /// Returns the core, which gives access to the history, the map and the list. Takes constant
    /// time.
    pub fn core(&self) -> &Core
        ensures { result.now ≡ self.now.core }
    {
        &self.core
    }

    /// Consumes the map and returns its core. Takes constant time.
    pub fn into_core(self) -> Core
        ensures { result ≡ self.core }
    {
        let OwnedMap { core, grown: _ } = self;
        core
    }

    /// Begins a transaction for a caller, and returns the number of the transaction in the history.
    /// The transaction stays open until `commit` or `abort` ends it. This call and the following
    /// ones are for an owner that keeps transactions of several callers open. To run one work from
    /// its beginning to its end, call `transact`.
    ///
    /// # Errors
    ///
    /// Each error leaves the core unchanged.
    ///
    /// - `Refused` with `NoSuchCaller` if the map has no caller with this number.
    /// - `Refused` with `Leaving` if the caller has a transaction in which an operation was `Busy`.
    /// - `Refused` with `AlreadyOpen` if the caller has another transaction.
    /// - `Refused` with `NoMemory` if memory is refused.
    ///
    /// # Cost
    ///
    /// Amortized constant time. May take memory for the history.
    pub fn begin(&mut self, caller: u64) -> Result<u64, Stop>
        ensures ok { OnOk result (CanAbort caller (now self.old.core.history) self.new.core) }
        ensures same { now self.new.core.history ≡ now self.old.core.history }
        ensures beside { OnlyWorked caller self.old.core self.new.core }
        ensures began { OnOk result (HasBegun caller self.old.core self.new.core) }
        ensures did { IfOk result (λ transaction. Happens self.old.core (steps.Begin caller)
            (answers.Began transaction) self.new.core) }
        ensures stopped { IfErr result (λ stop. IsStopped self.old.core (steps.Begin caller) stop
            self.new.core) }
    {
        // For the proof: the history is legal.
        let _legal = self.core.trace();
        match self.take_step(Step::Begin(caller)) {
            Answer::Began(transaction) => Ok(transaction),
            Answer::Refused(refusal) => Err(Stop::Refused(refusal)),
            _ => unreachable!(),
        }
    }

    /// Does an operation in a caller's open transaction. If the key was absent and the table has too
    /// few buckets, the table then grows.
    ///
    /// # Errors
    ///
    /// Each error leaves the map unchanged.
    ///
    /// - `Busy` if another caller's open transaction holds the key's stripe. The transaction can then
    ///   only be aborted.
    /// - `Refused` with `NoSuchCaller` if the map has no caller with this number.
    /// - `Refused` with `NotOpen` if the caller has no transaction.
    /// - `Refused` with `Leaving` if an earlier operation of the transaction was `Busy`.
    /// - `Refused` with `BadKey` if the limits allow only half keys and the key is 2^63 or more.
    /// - `Refused` with `NoMemory` if memory is refused.
    /// - `Refused` with `StampsUsedUp` if no stamp is left. A get never needs one.
    ///
    /// # Cost
    ///
    /// The cost of `Transaction::get` or `Transaction::put`.
    pub fn operate(&mut self, caller: u64, op: Op) -> Result<Reply, Stop>
        ensures { DoesOp op caller self.old.core result self.new.core }
    {
        // For the proof: the history is legal.
        let _legal = self.core.trace();
        match self.ask(caller, op) {
            Answer::Done(reply) => {
                if reply.is_none() {
                    self.grow(caller);
                }
                Ok(reply)
            }
            Answer::Busy(holder) => Err(Stop::Busy { holder }),
            Answer::Refused(refusal) => Err(Stop::Refused(refusal)),
            _ => unreachable!(),
        }
    }

    /// Does an operation by calling the core's function for it.
    #[tactic(auto, using(crate::proofs::RefusedKeys::operated))]
    pub(crate) fn ask(&mut self, caller: u64, op: Op) -> Answer
        ensures { Operates self.old.core caller op result self.new.core }
    {
        match op {
            Op::Put(key, value) => self.core.put(caller, key, value),
            Op::Take(key) => self.core.take(caller, key),
            Op::Get(key) => self.core.get(caller, key),
            Op::PutIf(key, expected, value) => self.core.put_if(caller, key, expected, value),
        }
    }

    /// Sets a savepoint in a caller's open transaction, and returns its level.
    ///
    /// # Errors
    ///
    /// Those of `Transaction::save`, and `Refused` with `NoSuchCaller` or `NotOpen`. Each leaves the
    /// core unchanged.
    ///
    /// # Cost
    ///
    /// The cost of `Transaction::save`.
    pub fn save(&mut self, caller: u64) -> Result<u64, Stop>
        ensures { DoesSave caller self.old.core result self.new.core }
    {
        // For the proof: the history is legal.
        let _legal = self.core.trace();
        match self.take_step(Step::Save(caller)) {
            Answer::Saved(level) => Ok(level),
            Answer::Refused(refusal) => Err(Stop::Refused(refusal)),
            _ => unreachable!(),
        }
    }

    /// Takes back a caller's changes since a level was set, as `Transaction::back` does.
    ///
    /// # Errors
    ///
    /// Those of `Transaction::back`, and `Refused` with `NoSuchCaller` or `NotOpen`. Each leaves the
    /// core unchanged.
    ///
    /// # Cost
    ///
    /// The cost of `Transaction::back`.
    #[tactic(auto, using(crate::proofs::RefusedKeys::returned))]
    pub fn back(&mut self, caller: u64, level: u64) -> Result<(), Stop>
        ensures { DoesBack level caller self.old.core result self.new.core }
    {
        // For the proof: the history is legal before and after the call of `back`.
        let _before = self.core.trace();
        let answer = self.core.back(caller, level);
        let _legal = self.core.trace();
        match answer {
            Answer::Returned(_) => Ok(()),
            Answer::Refused(refusal) => Err(Stop::Refused(refusal)),
            _ => unreachable!(),
        }
    }

    /// Commits a caller's open transaction, and returns its commit number.
    ///
    /// # Errors
    ///
    /// Each error leaves the core unchanged: the transaction stays open.
    ///
    /// - `Refused` with `NoSuchCaller` if the map has no caller with this number.
    /// - `Refused` with `NotOpen` if the caller has no transaction.
    /// - `Refused` with `Leaving` if an operation of the transaction was `Busy`. It can then only be
    ///   aborted.
    ///
    /// # Cost
    ///
    /// A step for each change, savepoint and stripe of the transaction. Takes no memory.
    pub fn commit(&mut self, caller: u64) -> Result<u64, Stop>
        ensures ok { IfOk result (λ place. IsCommitted caller place self.old.core self.new.core) }
        ensures err { OnErr result (GoesOn caller self.old.core self.new.core) }
        ensures did { IfOk result (λ place. Happens self.old.core (steps.Commit caller)
            (answers.Committed place) self.new.core) }
        ensures stopped { IfErr result (λ stop. IsStopped self.old.core (steps.Commit caller) stop
            self.new.core) }
    {
        // For the proof: the history is legal.
        let _legal = self.core.trace();
        match self.take_step(Step::Commit(caller)) {
            Answer::Committed(place) => Ok(place),
            Answer::Refused(refusal) => Err(Stop::Refused(refusal)),
            _ => unreachable!(),
        }
    }

    /// Aborts a caller's open transaction: takes back every change, newest first, and gives back all
    /// stripes.
    ///
    /// # Errors
    ///
    /// `NoSuchCaller` if the map has no caller with this number, and `NotOpen` if the caller has no
    /// transaction. The core is then unchanged.
    ///
    /// # Cost
    ///
    /// A seek and an act for each change, and a step for each savepoint and each stripe. Takes no
    /// memory.
    #[tactic(auto, using(crate::proofs::Steps::taken_back_by, crate::proofs::RefusedKeys::aborted))]
    pub fn abort(&mut self, caller: u64) -> Result<(), Refusal>
        ensures back { IsTakenBack caller self.old.core self.new.core }
        ensures did { HasAborted caller self.old.core self.new.core }
        ensures aborted { OnOk result (Aborts self.old.core caller answers.Aborted self.new.core) }
        ensures refused { IfErr result (λ refusal. Aborts self.old.core caller
            (answers.Refused refusal) self.new.core) }
    {
        match self.core.abort(caller) {
            Answer::Aborted => Ok(()),
            Answer::Refused(refusal) => Err(refusal),
            _ => unreachable!(),
        }
    }

    /// Helps the table to grow beyond what it does by itself: doubles the table if it has more than
    /// two keys for each bucket and is not at its largest size, and initialises the bucket of a key,
    /// as `Core::help` does. No map needs this call.
    ///
    /// # Errors
    ///
    /// Those of `Core::help`. Buckets that were initialised before the error stay initialised.
    ///
    /// # Cost
    ///
    /// The cost of `Core::help`.
    #[tactic(auto, using(crate::proofs::RefusedKeys::helped))]
    pub fn help(&mut self, caller: u64, key: u64) -> Result<(), Refusal>
        ensures { Helps self.old.core caller key result self.new.core }
    {
        self.core.help(caller, key)
    }

    /// The number of buckets that should be initialised for the present keys.
    fn wanted(&self) -> u64
        ensures { 2 * result ≤ count_of (now self.now.core.history) }
    {
        let keys = self.core.count();
        let few = FEW_BUCKETS.min(keys / 2);
        let most = u64::from(self.core.limits().buckets());
        most.min(few.max(keys / KEYS_A_BUCKET))
    }

    /// If too few buckets are initialised, initialises the next one. If that bucket is not below
    /// the table's size, doubles the table first.
    pub(crate) fn grow(&mut self, caller: u64)
        ensures { IsGrown caller self.old.core self.new.core }
    {
        let bucket = self.grown;
        if bucket >= self.wanted() {
            return;
        }
        let buckets = u64::from(self.core.size());
        if bucket >= buckets {
            self.take_step(Step::Double(buckets));
        }
        if self.initialise(caller, bucket) {
            self.grown = bucket + 1;
        }
    }

    /// Takes the three steps that initialise a bucket. Returns whether the bucket is initialised. If
    /// `help` has initialised it before, the first answer is `Ready`, and the other two steps are
    /// refused.
    fn initialise(&mut self, caller: u64, bucket: u64) -> bool
        ensures { (sought linked stored : Answer) × Moves self.old.core (initialising caller bucket)
            (sought ∷ linked ∷ stored ∷ []) self.new.core }
    {
        let sought = self.take_step(Step::InitSeek(caller, bucket));
        self.take_step(Step::InitLink(caller));
        let stored = self.take_step(Step::InitStore(caller));
        sought == Answer::Ready || stored == Answer::Stored
    }

    /// Takes a step of the core.
    #[tactic(auto, using(crate::proofs::RefusedKeys::moved))]
    pub(crate) fn take_step(&mut self, step: Step) -> Answer
        ensures moves { Move self.old.core step result self.new.core }
        ensures event { Happens self.old.core step result self.new.core }
        ensures words { self.new.core.words ≡ self.old.core.words }
    {
        self.core.step(step)
    }

    /// Runs the work in a transaction of a caller, and then commits the transaction. If the work
    /// returns an error, the transaction is aborted and the error is returned. So a work takes
    /// everything back by returning an error of its own type.
    ///
    /// # Errors
    ///
    /// If an error is returned, the map is unchanged and nothing was committed. The error is the
    /// work's error, or one of these, converted to the work's error type:
    ///
    /// - `Refused` with `NoSuchCaller` if the map has no caller with this number.
    /// - `Refused` with `AlreadyOpen` if the caller has a transaction.
    /// - `Refused` with `NoMemory` if memory is refused.
    /// - `Refused` with `Leaving` if the work returned `Ok` although one of its operations was
    ///   `Busy`.
    ///
    /// # Cost
    ///
    /// The cost of a begin, of the work, and of a commit or an abort.
    pub fn transact<T: Drop, E: From<Stop> + Drop, F: Fn(&mut Transaction<'_>) -> Result<T, E>>(
        &mut self,
        caller: u64,
        work: F,
    ) -> Result<T, E>
        requires callable { F.IsAlwaysCallable work }
        requires keeps { (t : _) (r : _) (u : _) → F.post work t r u → Keeps t.now u.now }
        ensures ok { IfOk result (λ value. (t : _) × (u : _) × F.post work t (Ok value) u
            × IsRun caller self.old.core t.now.map.now.core u.now.map.now.core self.new.core
            × (t.now.caller ≡ caller) × HasBegun caller self.old.core t.now.map.now.core
            × (place : ℕ) × Happens u.now.map.now.core (steps.Commit caller)
            (answers.Committed place) self.new.core) }
        ensures err { OnErr result (IsSameMap caller self.old.core self.new.core) }
        ensures cause { IfErr result (λ error.
            ((stop : Stop) × E.from_gives stop error
            × IsStopped self.old.core (steps.Begin caller) stop self.new.core)
            ⊎ ((t : _) × (u : _) × (t.now.caller ≡ caller)
            × HasBegun caller self.old.core t.now.map.now.core × F.post work t (Err error) u
            × HasAborted caller u.now.map.now.core self.new.core)
            ⊎ ((t : _) × (u : _) × (t.now.caller ≡ caller)
            × HasBegun caller self.old.core t.now.map.now.core
            × (value : T) × F.post work t (Ok value) u
            × (stop : Stop) × E.from_gives stop error
            × IsNotCommitted caller u.now.map.now.core stop self.new.core)) }
        ensures only { OnlyDid caller self.old.core self.new.core }
    {
        self.begin(caller)?;
        let mut open = Transaction { map: self, caller };
        let value = work(&mut open)?;
        open.commit()?;
        Ok(value)
    }
}
