// PROMISES callers-in-threads: every call of a shared map
//! The calls that a caller of a shared map makes.
//!
//! Each call but `side` is a series of turns, each under one hold of the lock. A call adds to the
//! token's `seen` exactly the entries that the call's contract states. Before a call takes the
//! lock, the token may refuse the call (`refused_by`), with the first refusal in the call's list
//! that applies. The token is then unchanged. If the core gives an answer that is impossible in the
//! token's state, the call ends with `OutOfStep`. The token is then broken, and what the call has
//! done is not undone: `seen` keeps the entries that the call has added, and `close` compares them
//! with the history. Each call but `side` has these clauses. Those of an operation are the fields of
//! one clause, `DoesOp` in `specs/Calls.antt`:
//! - `ok`: if the call did what it was asked to do, the entries that it has added. `save` also has
//!   the clause `level`, about the number that it returns; `help` has `helped` and `bad_key`, about
//!   its holds and its refusal.
//! - `side`: in the same case, the call's effect on the side value.
//! - `claims`: in the same case, the rights to stripes that the token then has, and the word that
//!   the token has tried. An operation tries the word of its key's stripe, unless the token has the
//!   right, and gets the right if the word is free. The end of the transaction gives all rights
//!   back.
//! - `leaves`: the token after the call, even if the call was not done (`EndsCall` in
//!   `specs/Calls.antt`). Once the token is broken, every call is refused with `OutOfStep` and
//!   changes nothing.
ghost use Rattle.std.specs.Prelude.{◌≡◌, ◌↔◌, ℕ, ◌+◌, [], ◌∷◌, ◌++◌, length, None, Some, true};
ghost use Rattle.std.specs.Prelude.{false, Err, IfOk, IfErr, OnOk};
ghost use Rattle.txn_words.specs.declared.entry.Entry.TheVariants as entries;
ghost use Rattle.txn_words.specs.Shape.{Stance, stance_after};
ghost use Rattle.txn_words.specs.Sizes.{is_bad_key};
ghost use Rattle.txn_drive.specs.Made.{undone_by};
ghost use Rattle.locked_map.specs.Claims.{given_back};
ghost use Rattle.locked_map.specs.Noted.{last_txn};
ghost use Rattle.locked_map.specs.Ready.{refused_side};
ghost use Rattle.locked_map.specs.Tokens.{IsSameButSide};
ghost use Rattle.locked_map.specs.Calls.{DoesOp, EndsCall, WentOn};
ghost use Rattle.undo_log.specs.Sides.{HasLevel, IsBackAt, IsSameSide, IsSettled};

use crate::caller::Caller;
use crate::receipt::Receipt;
use crate::shared_map::SharedMap;
use boost_core::{Call, End};
use std::sync::Wait;
use std::sync::ledger::Ledger;
use txn_trace::{Answer, Op, Refusal, Reply};
use txn_words::Stop;
use undo_log::{Side, SideJob};

impl<L: Ledger> SharedMap<L> {
    /// Begins a transaction, and returns the transaction's number. The present side value becomes
    /// level 0 of the transaction, so a later abort takes back no earlier change.
    ///
    /// # Errors
    ///
    /// `Refused` with one of these, tested in this order. In all cases but the last, the
    /// transaction, if there is one, is unchanged.
    /// - `OutOfStep` if the token is broken.
    /// - `Leaving` if the caller is taking changes back.
    /// - `AlreadyOpen` if the caller has a transaction.
    /// - `NoMemory` if memory is refused.
    /// - `OutOfStep` if the core gives an answer that is impossible in the token's state. The token
    ///   is then broken, and what the call did is not undone.
    ///
    /// # Cost
    ///
    /// Takes one hold of the lock, which lasts amortized constant time, and constant time for each
    /// side job that is dropped. May take memory.
    pub fn begin<S: Side, R: Wait>(&self, rt: &R, me: &mut Caller<L, S>) -> Result<u64, Stop>
        ensures ok { IfOk result (λ txn. me.new.seen
            ≡ me.old.seen ++ entries.Began me.old.number txn ∷ []) }
        ensures side { OnOk result (IsSettled S.words_of me.old.side me.new.side) }
        ensures claims { OnOk result (me.new.claims ≡ me.old.claims) }
        ensures leaves { EndsCall S.words_of me.old Call.Begin result me.new }
    {
        match self.call(rt, me, Call::Begin)? {
            End::Answered(Answer::Began(txn)) => Ok(txn),
            _ => Err(Stop::Refused(Refusal::OutOfStep)),
        }
    }

    /// Puts a value at a key. Returns the key's old value, or `None` if the key was not there.
    ///
    /// # Errors
    ///
    /// `Refused` with one of the refusals below. The first five are tested before all else, in this
    /// order. In all cases but the last, the transaction is unchanged, except that it may now hold
    /// the key's stripe.
    /// - `OutOfStep` if the token is broken.
    /// - `NotOpen` if the caller has no transaction.
    /// - `Leaving` if the caller is taking changes back.
    /// - `OperationUnfinished` if an earlier operation has no reply yet.
    /// - `BadKey` if the key is 2^63 or more, and the limits allow only half keys.
    /// - `NoMemory` if memory is refused for one more right (no word was tried then) or for the
    ///   operation.
    /// - `StampsUsedUp` if no stamp is left.
    /// - `StaleWord` if, by the core's record, the word of the key's stripe names no caller that
    ///   may hold the stripe.
    /// - `OutOfStep` if the core gives an answer that is impossible in the token's state. The token
    ///   is then broken, and what the call did is not undone.
    ///
    /// `Busy` if the word of the key's stripe names another caller. The transaction is then
    /// aborted: all its changes are taken back, all its rights are given back, and the side value
    /// has the words that it had when the transaction began.
    ///
    /// # Cost
    ///
    /// Outside the lock, the call takes time in proportion to the number of the token's rights. It
    /// tries the stripe's word once, unless the token has the right to the stripe. Then it takes
    /// three holds of the lock. One of them seeks the position of the key. Each time a position no
    /// longer fits, it takes at most two more. If the key is busy, it also takes two holds for each
    /// change that is taken back and constant time for each savepoint, and runs each side job. May
    /// take memory.
    pub fn put<S: Side, R: Wait>(
        &self,
        rt: &R,
        me: &mut Caller<L, S>,
        key: u64,
        value: u64,
    ) -> Result<Reply, Stop>
        ensures { DoesOp S.words_of me.old (Op.Put key value) result me.new }
    {
        self.operate(rt, me, Op::Put(key, value))
    }

    /// Takes a key out. Returns its value, or `None` if the key was not there.
    ///
    /// # Errors
    ///
    /// Those of `put`.
    ///
    /// # Cost
    ///
    /// Outside the lock, the call takes time in proportion to the number of the token's rights. It
    /// tries the stripe's word once, unless the token has the right to the stripe. Then it takes
    /// three holds of the lock. One of them seeks the position of the key. Each time a position no
    /// longer fits, it takes at most two more. If the key is busy, it also takes two holds for each
    /// change that is taken back and constant time for each savepoint, and runs each side job. May
    /// take memory.
    pub fn take<S: Side, R: Wait>(
        &self,
        rt: &R,
        me: &mut Caller<L, S>,
        key: u64,
    ) -> Result<Reply, Stop>
        ensures { DoesOp S.words_of me.old (Op.Take key) result me.new }
    {
        self.operate(rt, me, Op::Take(key))
    }

    /// Puts a value at a key exactly if the key's old value is the expected one. `None` stands for
    /// a key that is not there. Returns the old value.
    ///
    /// # Errors
    ///
    /// Those of `put`.
    ///
    /// # Cost
    ///
    /// Outside the lock, the call takes time in proportion to the number of the token's rights. It
    /// tries the stripe's word once, unless the token has the right to the stripe. Then it takes
    /// three holds of the lock. One of them seeks the position of the key. Each time a position no
    /// longer fits, it takes at most two more. If the key is busy, it also takes two holds for each
    /// change that is taken back and constant time for each savepoint, and runs each side job. May
    /// take memory.
    pub fn put_if<S: Side, R: Wait>(
        &self,
        rt: &R,
        me: &mut Caller<L, S>,
        key: u64,
        expected: Option<u64>,
        value: u64,
    ) -> Result<Reply, Stop>
        ensures { DoesOp S.words_of me.old (Op.PutIf key expected value) result me.new }
    {
        self.operate(rt, me, Op::PutIf(key, expected, value))
    }

    /// Returns the value of a key, or `None` if the key is not there.
    ///
    /// # Errors
    ///
    /// `Refused` with one of the refusals below. The first five are tested before all else, in this
    /// order. In all cases but the last, the transaction is unchanged, except that it may now hold
    /// the key's stripe.
    /// - `OutOfStep` if the token is broken.
    /// - `NotOpen` if the caller has no transaction.
    /// - `Leaving` if the caller is taking changes back.
    /// - `OperationUnfinished` if an earlier operation has no reply yet.
    /// - `BadKey` if the key is 2^63 or more, and the limits allow only half keys.
    /// - `NoMemory` if memory is refused for one more right (no word was tried then) or for the
    ///   operation.
    /// - `StaleWord` if, by the core's record, the word of the key's stripe names no caller that
    ///   may hold the stripe.
    /// - `OutOfStep` if the core gives an answer that is impossible in the token's state. The token
    ///   is then broken, and what the call did is not undone.
    ///
    /// `Busy` if the word of the key's stripe names another caller. The transaction is then
    /// aborted: all its changes are taken back, all its rights are given back, and the side value
    /// has the words that it had when the transaction began.
    ///
    /// # Cost
    ///
    /// Outside the lock, the call takes time in proportion to the number of the token's rights. It
    /// tries the stripe's word once, unless the token has the right to the stripe. Then it takes
    /// three holds of the lock. One of them seeks the position of the key. Each time a position no
    /// longer fits, it takes at most two more. If the key is busy, it also takes two holds for each
    /// change that is taken back and constant time for each savepoint, and runs each side job. May
    /// take memory.
    pub fn get<S: Side, R: Wait>(
        &self,
        rt: &R,
        me: &mut Caller<L, S>,
        key: u64,
    ) -> Result<Reply, Stop>
        ensures { DoesOp S.words_of me.old (Op.Get key) result me.new }
    {
        self.operate(rt, me, Op::Get(key))
    }

    /// Sets a savepoint, and returns its number, which is the number of savepoints that the
    /// transaction now has. The present side value becomes one more level.
    ///
    /// # Errors
    ///
    /// `Refused` with one of these, tested in this order. In all cases but the last, the
    /// transaction is unchanged.
    /// - `OutOfStep` if the token is broken.
    /// - `NotOpen` if the caller has no transaction.
    /// - `Leaving` if the caller is taking changes back.
    /// - `OperationUnfinished` if an operation has no reply yet.
    /// - `NoMemory` if memory is refused.
    /// - `OutOfStep` if the core gives an answer that is impossible in the token's state. The token
    ///   is then broken, and what the call did is not undone.
    ///
    /// # Cost
    ///
    /// Takes one hold of the lock, which lasts amortized constant time. May take memory.
    pub fn save<S: Side, R: Wait>(&self, rt: &R, me: &mut Caller<L, S>) -> Result<u64, Stop>
        ensures ok { OnOk result (me.new.seen ≡ me.old.seen ++ entries.Saved me.old.number ∷ []) }
        ensures level { IfOk result (λ level. (s : Stance) → stance_after me.new.seen ≡ Some s
            → length s.kept ≡ level + 1) }
        ensures side { OnOk result (HasLevel S.words_of me.old.side me.new.side) }
        ensures claims { OnOk result (me.new.claims ≡ me.old.claims) }
        ensures leaves { EndsCall S.words_of me.old Call.Save result me.new }
    {
        match self.call(rt, me, Call::Save)? {
            End::Answered(Answer::Saved(_)) => Ok(me.levels()),
            _ => Err(Stop::Refused(Refusal::OutOfStep)),
        }
    }

    /// Goes back to a level, which is 0 or the number of a savepoint. All changes after the level
    /// are taken back, and all savepoints above the level are dropped. The side value gets back the
    /// words that it had at the level.
    ///
    /// # Errors
    ///
    /// `Refused` with one of these, tested in this order. In all cases but the last, the
    /// transaction is unchanged.
    /// - `OutOfStep` if the token is broken.
    /// - `NotOpen` if the caller has no transaction.
    /// - `Leaving` if the caller is taking changes back.
    /// - `OperationUnfinished` if an operation has no reply yet.
    /// - `NoSuchLevel` if the level is above the number of savepoints.
    /// - `OutOfStep` if the side value has no such level, because a save was made by `hold`. The
    ///   token is then broken.
    /// - `NoMemory` if memory is refused. Nothing has been taken back then.
    /// - `OutOfStep` if the core gives an answer that is impossible in the token's state. The token
    ///   is then broken, and what the call did is not undone.
    ///
    /// # Cost
    ///
    /// Takes three holds of the lock. Takes at most two more for each change that is taken back,
    /// and each time a position no longer fits. Runs each side job, and takes constant time for
    /// each savepoint above the level. May take memory, but only before anything is taken back.
    pub fn back<S: Side, R: Wait>(
        &self,
        rt: &R,
        me: &mut Caller<L, S>,
        level: u64,
    ) -> Result<(), Stop>
        ensures ok { OnOk result ((undone : ℕ) × (me.new.seen ≡ me.old.seen
            ++ (entries.Leave me.old.number (Some level) ∷ undone_by me.old.number undone
            ++ entries.Returned me.old.number level ∷ []))) }
        ensures side { OnOk result (IsBackAt S.words_of level me.old.side me.new.side) }
        ensures claims { OnOk result (me.new.claims ≡ me.old.claims) }
        ensures leaves { EndsCall S.words_of me.old (Call.Back level) result me.new }
    {
        match self.call(rt, me, Call::Back(level))? {
            End::Answered(Answer::Returned(_)) => Ok(()),
            _ => Err(Stop::Refused(Refusal::OutOfStep)),
        }
    }

    /// Commits the transaction, and returns the transaction's number and its commit number. From
    /// now on the present side value is level 0. All rights are given back, outside the lock.
    ///
    /// # Errors
    ///
    /// `Refused` with one of these, tested in this order. In all cases but the last, the
    /// transaction is unchanged.
    /// - `OutOfStep` if the token is broken.
    /// - `NotOpen` if the caller has no transaction.
    /// - `Leaving` if the caller is taking changes back.
    /// - `OperationUnfinished` if an operation has no reply yet.
    /// - `OutOfStep` if the core gives an answer that is impossible in the token's state. The token
    ///   is then broken, and what the call did is not undone.
    ///
    /// # Cost
    ///
    /// Takes one hold of the lock, for a time in proportion to the changes, the savepoints and the
    /// stripes of the transaction. Then takes constant time for each right and each side job. Takes
    /// no memory.
    pub fn commit<S: Side, R: Wait>(&self, rt: &R, me: &mut Caller<L, S>) -> Result<Receipt, Stop>
        ensures ok { IfOk result (λ receipt. (receipt.txn ≡ last_txn me.old.seen) × (me.new.seen
            ≡ me.old.seen ++ entries.Committed me.old.number receipt.place ∷ [])) }
        ensures side { OnOk result (IsSettled S.words_of me.old.side me.new.side) }
        ensures claims { OnOk result (me.new.claims ≡ given_back me.old.claims) }
        ensures leaves { EndsCall S.words_of me.old Call.Commit result me.new }
    {
        let txn = me.txn();
        match self.call(rt, me, Call::Commit)? {
            End::Answered(Answer::Committed(place)) => Ok(Receipt { txn, place }),
            _ => Err(Stop::Refused(Refusal::OutOfStep)),
        }
    }

    /// Aborts the transaction: takes back all its changes, and withdraws an operation that waits.
    /// The side value gets back the words that it had when the transaction began. All rights are
    /// given back, outside the lock.
    ///
    /// # Errors
    ///
    /// `Refused` with one of these, tested in this order. In all cases but the last, the
    /// transaction is unchanged.
    /// - `OutOfStep` if the token is broken.
    /// - `NotOpen` if the caller has no transaction.
    /// - `Leaving` if the caller is taking changes back.
    /// - `OutOfStep` if the core gives an answer that is impossible in the token's state. The token
    ///   is then broken, and what the call did is not undone.
    ///
    /// # Cost
    ///
    /// Takes three holds of the lock. Takes at most two more for each change that is taken back,
    /// and each time a position no longer fits. Runs each side job, and takes constant time for
    /// each savepoint and each right. Takes no memory but what the side jobs take.
    pub fn abort<S: Side, R: Wait>(&self, rt: &R, me: &mut Caller<L, S>) -> Result<(), Stop>
        ensures ok { OnOk result ((undone : ℕ) × (me.new.seen ≡ me.old.seen
            ++ (entries.Leave me.old.number None ∷ undone_by me.old.number undone
            ++ entries.Aborted me.old.number ∷ []))) }
        ensures side { OnOk result (IsBackAt S.words_of 0 me.old.side me.new.side) }
        ensures claims { OnOk result (me.new.claims ≡ given_back me.old.claims) }
        ensures leaves { EndsCall S.words_of me.old Call.Abort result me.new }
    {
        match self.call(rt, me, Call::Abort)? {
            End::Answered(Answer::Aborted) => Ok(()),
            _ => Err(Stop::Refused(Refusal::OutOfStep)),
        }
    }

    /// Helps the table to grow: doubles the table if it is full, and then initialises the bucket of
    /// a key, the bucket's ancestors first. No transaction is needed. The content and the history
    /// are unchanged.
    ///
    /// # Errors
    ///
    /// `Refused` with one of these. The transaction, if there is one, is unchanged. Buckets that
    /// were initialised before the refusal remain initialised.
    /// - `OutOfStep` if the token is broken.
    /// - `BadKey` if the key is 2^63 or more, and the limits allow only half keys.
    /// - `NoMemory` if memory is refused.
    /// - `StampsUsedUp` if no stamp is left.
    /// - `OutOfStep` if the core gives an answer that is impossible in the token's state. The token
    ///   is then broken.
    ///
    /// # Cost
    ///
    /// Takes one hold of the lock to double the table. Then takes holds for the key's bucket, and
    /// for each of its ancestors except bucket 0. A bucket that is initialised already takes one
    /// hold. Any other bucket takes three holds, and at most two more each time its position no
    /// longer fits. May take memory.
    #[tactic(auto, using(crate::proofs::Calling::help_bad_key))]
    pub fn help<S: Side, R: Wait>(
        &self,
        rt: &R,
        me: &mut Caller<L, S>,
        key: u64,
    ) -> Result<(), Stop>
        ensures ok { OnOk result (me.new.seen ≡ me.old.seen) }
        ensures helped { OnOk result (WentOn me.old (Call.Help key) End.Helped me.new) }
        ensures side { OnOk result (IsSameSide me.old.side me.new.side) }
        ensures bad_key { me.old.broken ≡ false → (result ≡ Err (Stop.Refused Refusal.BadKey))
            ↔ (is_bad_key me.old.limits.half key ≡ true) }
        ensures claims { OnOk result (me.new.claims ≡ me.old.claims) }
        ensures leaves { EndsCall S.words_of me.old (Call.Help key) result me.new }
    {
        // By the contract of `seen`, the rule of shape allows the entries of a token that is not
        // broken.
        let _seen = me.seen();
        match self.call(rt, me, Call::Help(key))? {
            End::Helped => Ok(()),
            _ => Err(Stop::Refused(Refusal::OutOfStep)),
        }
    }

    /// Changes the side value, and logs the job that takes the change back.
    ///
    /// The words of the present side value must be the job's `before`. The words of the value that
    /// `change` returns must be the job's `after`. No transaction is needed, but a change made
    /// outside of a transaction is never taken back. Nothing is added to `seen`.
    ///
    /// # Errors
    ///
    /// In both cases `change` was not called, nothing has changed, and `change` and `job` are
    /// returned with the error:
    /// - `OutOfStep` if the token is broken.
    /// - `NoMemory` if memory is refused.
    ///
    /// # Cost
    ///
    /// One call of `change`, and otherwise amortized constant time, without the lock. Takes memory
    /// only if there is no room for a change.
    pub fn side<S: Side, F: FnOnce(S) -> S>(
        &self,
        me: &mut Caller<L, S>,
        change: F,
        job: SideJob<S>,
    ) -> Result<(), (Refusal, F, SideJob<S>)>
        requires before { S.words_of me.old.side.value ≡ S.before job.job }
        requires callable { F.pre change me.old.side.value }
        requires after { (value : S) → F.post change me.old.side.value value
            → S.words_of value ≡ S.after job.job }
        ensures same { IsSameButSide me.old me.new }
        ensures sound { OnOk result (me.old.broken ≡ false) }
        ensures changed { OnOk result (F.post change me.old.side.value me.new.side.value) }
        ensures levels { me.new.side.levels ≡ me.old.side.levels }
        ensures changes { OnOk result (me.new.side.changes ≡ me.old.side.changes + 1) }
        ensures kept { me.new.side.kept ≡ me.old.side.kept }
        ensures err { IfErr result (λ e. (e.0 ≡ refused_side me.old.broken)
            × (e.1 ≡ change) × (e.2 ≡ job) × (me.new ≡ me.old)) }
    {
        me.change(change, job)
    }

    /// Does an operation.
    fn operate<S: Side, R: Wait>(
        &self,
        rt: &R,
        me: &mut Caller<L, S>,
        op: Op,
    ) -> Result<Reply, Stop>
        ensures { DoesOp S.words_of me.old op result me.new }
    {
        match self.call(rt, me, Call::Op(op))? {
            End::Answered(Answer::Done(reply)) => Ok(reply),
            _ => Err(Stop::Refused(Refusal::OutOfStep)),
        }
    }
}
