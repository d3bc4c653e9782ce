// PROMISES each-step-is-a-move-of-the-machine: put, put_if, take, get, help, back, abort
//! The plain calls: `put`, `put_if`, `take`, `get`, `help`, `back` and `abort`. Each of these calls
//! takes all its steps in a row, for one caller, so no step has the answer `Again`. Users who take
//! the steps of several callers in turn call `step` instead.
ghost use Rattle.std.specs.Prelude.{◌≡◌, true, false, nat_le};
ghost use Rattle.boost_core.specs.Plain.{outcome_of};

use crate::claim::Claim;
use crate::machine::Core;
use crate::steps::CallerStep;
use txn_drive::{Call, Drive, End, Turn};
use txn_trace::{Answer, Op, Refusal, Step};

impl Core {
    ghost use Rattle.boost_core.specs.Answers.{end_answer, is_at_end};
    ghost use Rattle.boost_core.specs.Plain.{Aborts, Ends, Helps, Operates, Returns};
    ghost use Rattle.boost_core.specs.Refusals.{has_job, is_leaving};
    ghost use Rattle.boost_core.specs.State.{stance_in};
    ghost use Rattle.boost_core.specs.Whole.{IsWhole};
    ghost use Rattle.txn_drive.specs.Drives.{sized_of, step_of};

    /// Puts a value at a key: asks, seeks and acts in a row, so the answer is never `Again`. The
    /// table does not double by itself. Without `help` or `Double` it is one long list, through
    /// which each seek walks.
    ///
    /// The answer is `Done` with the reply. If another caller holds the key's stripe, the answer is
    /// `Busy` instead. The caller is then taking back all its changes, and `abort` finishes this.
    /// If the ask is refused, the answer is the refusal, and the state is unchanged. The refusals
    /// are tested in this order: `NoSuchCaller`, `NotOpen`, `Leaving`, `OperationUnfinished`,
    /// `BadKey` if the limits have half keys and the key is 2^63 or more, `NoMemory` for the
    /// history and the log, `StampsUsedUp`, `NoMemory` for the node.
    ///
    /// # Cost
    ///
    /// Time in proportion to the number of nodes that the seek passes. The seek walks to the key's
    /// position from the dummy of the key's bucket, or of that bucket's nearest initialised
    /// ancestor. May take memory for the history, the log and a node.
    pub fn put(&mut self, caller: u64, key: u64, value: u64) -> Answer
        requires { self.old.words ≡ false }
        ensures operates { Operates self.old caller (Op.Put key value) result self.new }
        ensures words { self.new.words ≡ false }
    {
        self.operate(caller, Op::Put(key, value))
    }

    /// Puts a value at a key exactly if the key's value is the expected one. If `None` is expected,
    /// the key must be absent. Takes the same steps as `put`, with the same refusals. The reply is
    /// the value that the key had, so the value was put exactly if the reply equals `expected`.
    ///
    /// # Cost
    ///
    /// The cost of `put`.
    pub fn put_if(&mut self, caller: u64, key: u64, expected: Option<u64>, value: u64) -> Answer
        requires { self.old.words ≡ false }
        ensures operates { Operates self.old caller (Op.PutIf key expected value) result self.new }
        ensures words { self.new.words ≡ false }
    {
        self.operate(caller, Op::PutIf(key, expected, value))
    }

    /// Removes a key, by the same steps as `put` and with the same refusals.
    ///
    /// # Cost
    ///
    /// The cost of `put`.
    pub fn take(&mut self, caller: u64, key: u64) -> Answer
        requires { self.old.words ≡ false }
        ensures operates { Operates self.old caller (Op.Take key) result self.new }
        ensures words { self.new.words ≡ false }
    {
        self.operate(caller, Op::Take(key))
    }

    /// Looks up the value at a key, by the same steps as `put` and with the same refusals, except
    /// `StampsUsedUp` and `NoMemory` for the node.
    ///
    /// # Cost
    ///
    /// The cost of `put`, without the memory for a node.
    pub fn get(&mut self, caller: u64, key: u64) -> Answer
        requires { self.old.words ≡ false }
        ensures operates { Operates self.old caller (Op.Get key) result self.new }
        ensures words { self.new.words ≡ false }
    {
        self.operate(caller, Op::Get(key))
    }

    /// Goes back to a level, which is the number of a savepoint, or 0 for the beginning. Takes back
    /// every later change, newest first, and keeps the savepoint of that level. Stripes stay held.
    ///
    /// The answer is `Returned` with the level, or a refusal. A refusal leaves the state unchanged.
    /// The refusals are tested in this order: `NoSuchCaller`, `NotOpen`, `Leaving`,
    /// `OperationUnfinished`, `NoSuchLevel`, `NoMemory`.
    ///
    /// # Cost
    ///
    /// A seek and an act for each change that is taken back, and a step for each savepoint that is
    /// dropped; may take memory for the history.
    pub fn back(&mut self, caller: u64, level: u64) -> Answer
        ensures returns { Returns self.old caller level result self.new }
        ensures words { self.new.words ≡ self.old.words }
    {
        match self.call(caller, CallerStep::Back(level)) {
            Answer::Leaving => self.take_back(caller),
            answer => answer,
        }
    }

    /// Aborts: withdraws the waiting operation, takes back every change, newest first, gives back
    /// all stripes and closes the transaction. If the caller is already taking back all its
    /// changes, for instance after `Busy`, the call finishes this.
    ///
    /// The answer is `Aborted`, or a refusal. A refusal leaves the state unchanged. The refusals
    /// are tested in this order: `NoSuchCaller`, `NotOpen`, and `Leaving` if the caller is taking
    /// changes back to a level.
    ///
    /// # Cost
    ///
    /// A seek and an act for each change, and a step for each savepoint and each stripe; takes no
    /// memory.
    pub fn abort(&mut self, caller: u64) -> Answer
        ensures aborts { Aborts self.old caller result self.new }
        ensures words { self.new.words ≡ self.old.words }
    {
        if self.leaves_to_end(caller) {
            return self.take_back(caller);
        }
        match self.call(caller, CallerStep::Abort) {
            Answer::Leaving => self.take_back(caller),
            answer => answer,
        }
    }

    /// Helps the table to grow. Takes the steps of a drive's call `Help` in a row. First it doubles
    /// the table, if the table has more than two keys for each bucket and is not at its largest
    /// size. Then it initialises the bucket that the key has at the table's size, after the
    /// bucket's ancestors. `help` needs no transaction, and leaves the map and the history
    /// unchanged. No other plain call doubles a table: with the other plain calls alone, each seek
    /// walks one long list.
    ///
    /// # Errors
    ///
    /// If the table was doubled before the refusal, it stays doubled. Buckets that were initialised
    /// stay initialised.
    /// - `NoSuchHelper` if there is no caller with this number: nothing is done.
    /// - `BadKey` if the limits have half keys and the key is 2^63 or more: nothing is done.
    /// - `StampsUsedUp` if no stamp is left.
    /// - `NoMemory` if memory is refused or the list has no place left.
    ///
    /// # Cost
    ///
    /// One step to double, then one step for each bucket on the path that is initialised already,
    /// and three steps for each that is not. There are at most 16 buckets on the path to the key's
    /// bucket. The seek for a bucket takes time in proportion to the nodes that it passes. May take
    /// memory for each bucket's dummy and segment.
    pub fn help(&mut self, caller: u64, key: u64) -> Result<(), Refusal>
        ensures helps { Helps self.old caller key result self.new }
        ensures words { self.new.words ≡ self.old.words }
    {
        if caller >= u64::from(self.limits.callers()) {
            return Err(Refusal::NoSuchHelper);
        }
        let mut drive = Drive::new(caller, Call::Help(key), self.limits);
        while let Some(step) = self.next_step(&mut drive) {
            let answer = self.step(step);
            drive.told(answer);
        }
        outcome_of(drive.ended())
    }

    /// The drive's next step at the table's present size, if there is one.
    fn next_step(&self, drive: &mut Drive) -> Option<Step>
        ensures whole { IsWhole self.now }
        ensures drive { drive.new ≡ sized_of self.now.size drive.old }
        ensures step { result ≡ step_of drive.new }
    {
        match drive.turn(self.table.size()) {
            Turn::One(step) | Turn::Two(step, _) => Some(step),
            Turn::Ended(_) => None,
        }
    }

    /// Asks for an operation, seeks and acts.
    fn operate(&mut self, caller: u64, op: Op) -> Answer
        requires { self.old.words ≡ false }
        ensures operates { Operates self.old caller op result self.new }
        ensures words { self.new.words ≡ false }
    {
        match self.call(caller, CallerStep::Ask(op, Claim::Lock)) {
            Answer::Asked => {
                self.call(caller, CallerStep::Seek);
                self.call(caller, CallerStep::Act)
            }
            answer => answer,
        }
    }

    /// Takes back the changes that are still to be undone, newest first, and ends the undoing.
    fn take_back(&mut self, caller: u64) -> Answer
        requires leaves { is_leaving (stance_in self.old.history caller).phase ≡ true }
        requires within { nat_le self.old.limits.callers caller ≡ false }
        ensures ends { Ends self.old caller result self.new }
        ensures answer { result ≡ end_answer (stance_in self.old.history caller).phase }
        ensures words { self.new.words ≡ self.old.words }
    {
        while self.has_job(caller) {
            self.call(caller, CallerStep::Seek);
            self.call(caller, CallerStep::Act);
        }
        self.call(caller, CallerStep::Act)
    }

    /// Returns true if a caller has a change to take back.
    fn has_job(&self, caller: u64) -> bool
        ensures { result ≡ has_job (stance_in self.now.history caller) }
    {
        match self.sessions.get(caller as usize) {
            Some(session) => session.stance.has_job(),
            None => false,
        }
    }

    /// Returns true if a caller is taking back all its changes.
    fn leaves_to_end(&self, caller: u64) -> bool
        ensures value { result ≡ is_at_end (stance_in self.now.history caller).phase }
        ensures within { result ≡ true → nat_le self.now.limits.callers caller ≡ false }
    {
        match self.sessions.get(caller as usize) {
            Some(session) => session.leaves_to_end(),
            None => false,
        }
    }
}

/// The result of a call for help, given the end of its drive.
fn outcome_of(end: Option<End>) -> Result<(), Refusal>
    ensures { result ≡ outcome_of end }
{
    match end {
        Some(End::Refused(refusal)) => Err(refusal),
        _ => Ok(()),
    }
}
