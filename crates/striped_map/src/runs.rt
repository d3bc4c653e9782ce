//! Defines `Caller::run`, which runs a whole transaction by one call.
ghost use Rattle.striped_map.specs.Calls.{Operates};
ghost use Rattle.std.specs.Prelude.{◌≡◌, ◌≤◌, ℕ, List, Option, true, false, IfOk, IfErr, length, vec_len, OnOk};
ghost use Rattle.striped_map.specs.Runs.{Does, IsNotRun, IsRunTo, LieIn, Runs, is_miss};

use crate::caller::Caller;
use std::alloc::AllocError;
use txn_trace::{Op, Refusal, Reply};
use txn_words::Stop;

/// How a run came to its end.
#[derive(Clone, Copy, PartialEq, Eq)]
pub enum RunEnd {
    /// The transaction was committed. The value is what `Caller::commit` returns.
    Committed(Option<u64>),
    /// A `PutIf` found another value than it expects. The transaction was taken back.
    Missed,
}

/// Whether a run ends after this operation.
fn is_miss(strict: bool, op: Op, reply: Reply) -> bool
    ensures { result ≡ is_miss strict op reply }
{
    match op {
        Op::PutIf(_, expected, _) => strict && reply != expected,
        _ => false,
    }
}

/// The operations of a run, in order. A program that has operations in a form of its own implements
/// this for it, and runs them without a copy.
pub trait Operations {
    ghost use Rattle.std.specs.Prelude.{◌≡◌, ◌<◌, List, length, slice_get, Some};
    ghost use Rattle.txn_words.specs.declared.op.Op.{Op as AnOp};

    /// The operations.
    ghost ops_of: { Self → List AnOp };

    /// The number of operations.
    fn count(&self) -> usize
        ensures { result ≡ length (ops_of self.now) };

    /// The operation at a place.
    fn at(&self, place: usize) -> Op
        requires { place < length (ops_of self.now) }
        ensures { slice_get (ops_of self.now) place ≡ Some result };
}

/// A list of operations.
#[derive(Clone, Copy)]
struct Listed<'a> {
    ops: &'a [Op],
}

impl Operations for Listed<'_> {
    ghost ops_of = { λ listed. listed.ops.now };

    fn count(&self) -> usize {
        self.ops.len()
    }

    #[inline(always)]
    fn at(&self, place: usize) -> Op {
        self.ops[place]
    }
}

/// A form of a reply. A program that keeps replies in a form of its own implements this for it, and
/// gets them without a copy.
pub trait ReplyForm {
    ghost use Rattle.std.specs.Prelude.{◌≡◌, ℕ, Option};

    /// The reply in this form.
    ghost form: { Option ℕ → Self };

    /// Brings a reply into this form.
    fn of(reply: Reply) -> Self
        ensures { result ≡ form reply };
}

impl ReplyForm for Reply {
    ghost form = { λ reply. reply };

    #[inline(always)]
    fn of(reply: Reply) -> Reply {
        reply
    }
}

/// Makes the list at least so long.
#[inline(always)]
fn make_places(replies: &mut Vec<Reply>, count: usize) -> Result<(), AllocError>
    ensures { OnOk result (count ≤ vec_len replies.new) }
{
    if count <= replies.len() {
        return Ok(());
    }
    replies.resize(count, None)
}

impl Caller {
    /// Does an operation. There is an arm for each kind, because the compiler optimises each.
    #[inline(always)]
    fn operate_by_kind(&mut self, op: Op) -> Result<Reply, Stop>
        ensures map { self.new.map ≡ self.old.map }
        ensures does { Operates op self.old result self.new }
    {
        match op {
            Op::Put(key, value) => self.operate(Op::Put(key, value)),
            Op::Take(key) => self.operate(Op::Take(key)),
            Op::Get(key) => self.operate(Op::Get(key)),
            Op::PutIf(key, expected, value) => self.operate(Op::PutIf(key, expected, value)),
        }
    }

    /// Does these operations in the caller's transaction, up to the first that fails or ends the
    /// run. Writes the replies to the front of the array, and their number to `done`, which must be
    /// 0. Returns true if no operation ends the run.
    fn do_all<O: Operations, R: ReplyForm + Copy>(
        &mut self,
        ops: &O,
        strict: bool,
        replies: &mut [R],
        done: &mut usize,
    ) -> Result<bool, Stop>
        requires room { length (O.ops_of ops.now) ≤ length replies.old }
        requires none { done.old ≡ 0 }
        ensures map { self.new.map ≡ self.old.map }
        ensures open { OnOk result (self.old.is_open ≡ true → self.new.is_open ≡ true) }
        ensures few { done.new ≤ length (O.ops_of ops.now) }
        ensures does { (told : List (Option ℕ)) × LieIn R.form told replies.old replies.new done.new
            × Does strict (O.ops_of ops.now) told self.old result self.new }
    {
        for place in 0..ops.count() {
            let op = ops.at(place);
            let reply = self.operate_by_kind(op)?;
            replies[place] = R::of(reply);
            *done = place + 1;
            if is_miss(strict, op, reply) {
                return Ok(false);
            }
        }
        Ok(true)
    }

    /// Runs a whole transaction: begins it, does these operations one after the other, and commits.
    /// If `strict` is true, an `Op::PutIf` that finds another value than it expects ends the run.
    /// The transaction is then taken back, as it is if an operation is busy or refused. The list
    /// `replies` is cleared, and gets the reply of each operation that was done.
    ///
    /// # Errors
    ///
    /// - `Refused(AlreadyOpen)` if the caller is in a transaction. Nothing changes.
    /// - `Refused(NoMemory)` if memory is refused, for the replies, by `begin` or by an operation.
    /// - `Busy` if another caller held the stripe of an operation's key.
    ///
    /// Afterwards the caller is in no transaction, unless it was in one before.
    ///
    /// # Cost
    ///
    /// Those of `begin`, of the operations, and of `commit` or `abort`. May take memory for the
    /// replies.
    pub fn run(
        &mut self,
        ops: &[Op],
        strict: bool,
        replies: &mut Vec<Reply>,
    ) -> Result<RunEnd, Stop>
        ensures map { self.new.map ≡ self.old.map }
        ensures closed { self.old.is_open ≡ false → self.new.is_open ≡ false }
        ensures untouched { self.old.is_open ≡ true → replies.new ≡ replies.old }
        ensures few { self.old.is_open ≡ false → vec_len replies.new ≤ length ops.now }
        ensures ok { IfOk result (IsRunTo strict self.old self.new ops.now replies.new.items) }
        ensures err { IfErr result (IsNotRun strict self.old self.new ops.now replies.new.items) }
    {
        if self.is_open {
            return Err(Stop::Refused(Refusal::AlreadyOpen));
        }
        if make_places(replies, ops.len()).is_err() {
            replies.clear();
            return Err(Stop::Refused(Refusal::NoMemory));
        }
        let mut done = 0;
        let answer = self.run_each(&Listed { ops }, strict, replies.as_mut_slice(), &mut done);
        replies.truncate(done);
        answer
    }

    /// As `run`, for operations and replies in any form. Writes the replies to the front of the
    /// array, which must have room for them all, and their number to `done`. The rest of the array
    /// is unchanged. If the caller is in a transaction, `done` is 0.
    ///
    /// # Errors
    ///
    /// - `Refused(AlreadyOpen)` if the caller is in a transaction.
    /// - `Refused(NoMemory)` if memory is refused by `begin` or by an operation.
    /// - `Busy` if another caller held the stripe of an operation's key.
    ///
    /// # Cost
    ///
    /// Those of `begin`, of the operations, and of `commit` or `abort`, and a call of
    /// `Operations::at` and of `ReplyForm::of` for each operation.
    pub fn run_each<O: Operations, R: ReplyForm + Copy>(
        &mut self,
        ops: &O,
        strict: bool,
        replies: &mut [R],
        done: &mut usize,
    ) -> Result<RunEnd, Stop>
        requires room { length (O.ops_of ops.now) ≤ length replies.old }
        ensures map { self.new.map ≡ self.old.map }
        ensures closed { self.old.is_open ≡ false → self.new.is_open ≡ false }
        ensures untouched { self.old.is_open ≡ true → (replies.new ≡ replies.old) × (done.new ≡ 0) }
        ensures few { done.new ≤ length (O.ops_of ops.now) }
        ensures runs { (told : List (Option ℕ)) × LieIn R.form told replies.old replies.new done.new
            × Runs strict (O.ops_of ops.now) told self.old result self.new }
    {
        *done = 0;
        if self.is_open {
            return Err(Stop::Refused(Refusal::AlreadyOpen));
        }
        self.begin()?;
        match self.do_all(ops, strict, replies, done) {
            Ok(true) => Ok(RunEnd::Committed(self.commit()?)),
            Ok(false) => {
                let _ = self.abort();
                Ok(RunEnd::Missed)
            }
            Err(stop) => {
                let _ = self.abort();
                Err(stop)
            }
        }
    }
}
