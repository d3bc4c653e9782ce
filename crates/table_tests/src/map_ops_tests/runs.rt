//! Runs of steps on a table. Each row has a step and its answer. A step is one call, or a few calls
//! that share a job or a cursor. The answers, the order of the pairs and the change numbers were
//! worked out by hand. The contracts allow a step to fail for lack of memory even while memory is
//! free.
ghost use Rattle.std.specs.Prelude.{◌≡◌, true};
ghost use Rattle.txn_words.specs.Map.{Map, get};
ghost use Rattle.map_ops.specs.Jobs.{IsDue, key_of_job, spare_of_job};
ghost use Rattle.map_ops.specs.Changes.{OwnsIf};
ghost use Rattle.map_ops.specs.TableAt.{Follows, KeepsSpares};

use super::{
    apply, do_at_once, figures, finish, has_pairs, new_table, small_table, there_and_back,
};
use map_ops::{Act, Double, MapJob, SweepOutcome, Table, Undo};
use std::alloc::Global;
use std::process::Abort;
use std::test::Fail;
use txn_words::{Op, Refusal, Reply};

/// Replaces the table by a new one.
fn begin(alloc: Global, table: &mut Table) -> Result<Answer, Fail> {
    *table = new_table(alloc)?;
    Ok(Answer::Done)
}

/// Replaces the table by a new one of two buckets.
fn begin_small(alloc: Global, table: &mut Table) -> Result<Answer, Fail> {
    *table = small_table(alloc)?;
    Ok(Answer::Done)
}

/// A step of a run.
#[derive(Clone, Copy)]
enum Step {
    /// Makes a new table.
    Begin,
    /// Makes a new table of two buckets.
    BeginSmall,
    /// Does an operation.
    Do(Op),
    /// Does an operation, and takes it back.
    Return(Op),
    /// Does an operation, and takes it back at a cursor.
    ReturnAt(Op),
    /// Does an operation, and discards its job.
    Discard(Op),
    /// Prepares an operation, and withdraws it.
    Withdraw(Op),
    Sweep,
    Double(u64),
    /// Puts a value at a key, and keeps the job.
    Put(u64, u64),
    /// Takes back the newest of the puts whose jobs are kept.
    TakeBack,
    /// Takes the only key of the table, and then takes this change back.
    TakeThereAndBack(u64),
    /// Prepares and places a put. Then puts value 40 at key 4, reads the key of the prepared put,
    /// and does the prepared put. Keeps the jobs of both puts. The job of key 4 becomes the newest.
    PutLate(u64, u64),
    /// Looks at the newest of the jobs that are kept.
    Newest,
    /// Looks at the pairs.
    Pairs,
    /// Reads the size, the count and the change number.
    Read,
}

/// What a job does: the key that it changes, and the old value if the job restores one.
#[derive(Clone, Copy, PartialEq, Eq)]
enum Inverse {
    Unput(u64),
    Restore(u64, u64),
    Relink(u64, u64),
}

/// The answer to a step.
#[derive(Clone, Copy, PartialEq, Eq)]
enum Answer {
    Done,
    Reply(Reply),
    Withdrawn(Op, u64),
    /// The answer to `PutLate`. The first field is true if the cursor of the prepared put no longer
    /// fitted. The other fields are the replies to the put of key 4, to the read and to the
    /// prepared put, in this order.
    Late(bool, Reply, Reply, Reply),
    /// The reply to a take, and what its job does.
    Taken(Reply, Inverse),
    Job(Inverse),
    Swept(SweepOutcome),
    Double(Double),
    /// True if the pairs are as wanted.
    Pairs(&'static [(u64, u64)]),
    Figures(u32, u64, u64),
}

/// The answer to a step whose result is a reply.
fn replied(reply: Result<Reply, Refusal>) -> Result<Answer, Fail> {
    Ok(Answer::Reply(reply?))
}

/// Does an operation, and takes it back at a cursor.
fn back_at_a_cursor(table: &mut Table, op: Op) -> Result<Answer, Fail> {
    let (reply, job) = apply(table, op)?;
    let Some(job) = job else {
        return Err("no job".into());
    };
    let cursor = table.place_job(&job);
    match table.undo(job, cursor) {
        Undo::Undone => Ok(Answer::Reply(reply)),
        Undo::Again(_) => Err("the cursor does not fit".into()),
    }
}

/// Does an operation, and discards its job.
fn discarded(table: &mut Table, op: Op) -> Result<Answer, Fail> {
    let (reply, job) = apply(table, op)?;
    let Some(job) = job else {
        return Err("no job".into());
    };
    table.discard(job);
    Ok(Answer::Reply(reply))
}

/// Prepares an operation and withdraws it. Returns the operation that was prepared, and its key.
fn withdrawn(table: &mut Table, op: Op) -> Result<Answer, Fail> {
    let pending = table.prepare(op)?;
    let (op, key) = (pending.op(), pending.key().number());
    table.withdraw(pending);
    Ok(Answer::Withdrawn(op, key))
}

/// Returns true if the table's pairs, its content and its count are those of `wanted`.
fn has_answer(alloc: Global, table: &Table, wanted: Answer) -> Result<bool, Fail> {
    Ok(match wanted {
        Answer::Pairs(pairs) => has_pairs(alloc, table, pairs)?,
        _ => false,
    })
}

/// Puts a value at a key, and keeps the job.
fn put_with_job(
    table: &mut Table,
    jobs: &mut Vec<MapJob>,
    key: u64,
    value: u64,
) -> Result<Answer, Fail> {
    let (reply, job) = table.apply(Op::Put(key, value))?;
    jobs.push(job.ok_or("no job")?)?;
    Ok(Answer::Reply(reply))
}

/// Returns true if the job's key can have `value` right after the change that the job takes back.
/// After a put the key has a value, and after a take it has none.
fn is_due(value: Reply, job: &MapJob) -> bool
    ensures { (m : Map) → get m (key_of_job job.now) ≡ value → result ≡ true → IsDue m job.now }
{
    match job {
        MapJob::Unput(_) => value.is_some(),
        MapJob::Restore(_, _) => value.is_some(),
        MapJob::Relink(_, _, _) => value.is_none(),
    }
}

/// Takes a job's change back. Fails if `is_due` is false for the present value of the job's key.
fn take_back(table: &mut Table, job: MapJob) -> Result<Answer, Fail>
    requires { OwnsIf table.old (spare_of_job job) }
{
    let (value, _) = table.apply(Op::Get(job.key().number()))?;
    if !is_due(value, &job) {
        return Err("the job is not due".into());
    }
    table.take_back(job);
    Ok(Answer::Done)
}

/// Takes back the newest of the puts whose jobs are in `jobs`.
fn take_newest_back(table: &mut Table, jobs: &mut Vec<MapJob>) -> Result<Answer, Fail> {
    match jobs.pop().ok_or("no job")? {
        MapJob::Unput(key) => take_back(table, MapJob::Unput(key)),
        MapJob::Restore(key, old) => take_back(table, MapJob::Restore(key, old)),
        MapJob::Relink(_, _, _) => Err("a job of a take".into()),
    }
}

/// What a job does, as an `Inverse`.
fn inverse_of(job: &MapJob) -> Inverse {
    let key = job.key().number();
    match job {
        MapJob::Unput(_) => Inverse::Unput(key),
        MapJob::Restore(_, old) => Inverse::Restore(key, *old),
        MapJob::Relink(_, old, _) => Inverse::Relink(key, *old),
    }
}

/// What the newest of these jobs does.
fn newest_of(jobs: &[MapJob]) -> Result<Answer, Fail> {
    let job = jobs.last().ok_or("no job")?;
    Ok(Answer::Job(inverse_of(job)))
}

/// Takes the only key of the table, and then takes this change back.
fn take_there_and_back(alloc: Global, table: &mut Table, key: u64) -> Result<Answer, Fail> {
    let (reply, job) = apply(table, Op::Take(key))?;
    if !has_pairs(alloc, table, &[])? {
        return Err("a key is left".into());
    }
    let Some(job) = job else {
        return Err("no job".into());
    };
    let inverse = inverse_of(&job);
    table.take_back(job);
    Ok(Answer::Taken(reply, inverse))
}

/// Puts a value at a key by `apply`.
fn put(table: &mut Table, key: u64, value: u64) -> Result<(Reply, Option<MapJob>), Refusal>
    ensures spares { KeepsSpares table.old table.new }
    ensures follows { Follows table.old table.new }
{
    table.apply(Op::Put(key, value))
}

/// Reads a key by `apply`.
fn read(table: &mut Table, key: u64) -> Result<(Reply, Option<MapJob>), Refusal>
    ensures spares { KeepsSpares table.old table.new }
    ensures follows { Follows table.old table.new }
{
    table.apply(Op::Get(key))
}

/// Adds the job of a put to `jobs`. Fails if there is no job, or if the put did not put a new key.
fn keep_unput(jobs: &mut Vec<MapJob>, job: Option<MapJob>) -> Result<(), Fail> {
    let job = job.ok_or("no job")?;
    if !matches!(job, MapJob::Unput(_)) {
        return Err("another job".into());
    }
    jobs.push(job)?;
    Ok(())
}

/// Prepares and places a put. Then puts value 40 at key 4, reads the key of the prepared put, and
/// does the prepared put. Adds the jobs of both puts to `jobs`, the job of key 4 last.
fn put_late(
    table: &mut Table,
    jobs: &mut Vec<MapJob>,
    key: u64,
    value: u64,
) -> Result<Answer, Fail> {
    let pending = table.prepare(Op::Put(key, value))?;
    let cursor = table.place(&pending);
    let (other, newer) = put(table, 4, 40)?;
    let (there, _) = read(table, key)?;
    let (is_again, (own, job)) = match table.act(pending, cursor) {
        Act::Acted(reply, job) => (false, (reply, job)),
        Act::Again(pending) => (true, finish(table, pending)),
    };
    keep_unput(jobs, job)?;
    keep_unput(jobs, newer)?;
    Ok(Answer::Late(is_again, other, there, own))
}

/// Takes a step on the buckets, sweeps, or reads the figures.
fn take_bucket_step(table: &mut Table, step: Step) -> Result<Answer, Fail> {
    Ok(match step {
        Step::Double(seen) => Answer::Double(table.double(seen)),
        Step::Sweep => Answer::Swept(table.sweep()),
        Step::Read => {
            let (size, count, changes) = figures(table);
            Answer::Figures(size, count, changes)
        }
        _ => return Err("another step".into()),
    })
}

/// Takes a step.
fn take_step(
    alloc: Global,
    table: &mut Table,
    jobs: &mut Vec<MapJob>,
    step: Step,
) -> Result<Answer, Fail> {
    match step {
        Step::Begin => begin(alloc, table),
        Step::BeginSmall => begin_small(alloc, table),
        Step::Do(op) => replied(do_at_once(table, op)),
        Step::Return(op) => replied(there_and_back(table, op)),
        Step::ReturnAt(op) => back_at_a_cursor(table, op),
        Step::Discard(op) => discarded(table, op),
        Step::Withdraw(op) => withdrawn(table, op),
        Step::Put(key, value) => put_with_job(table, jobs, key, value),
        Step::TakeBack => take_newest_back(table, jobs),
        Step::TakeThereAndBack(key) => take_there_and_back(alloc, table, key),
        Step::PutLate(key, value) => put_late(table, jobs, key, value),
        Step::Newest => newest_of(jobs),
        other => take_bucket_step(table, other),
    }
}

/// Each row has a step and its answer. The steps `Begin` and `BeginSmall` begin a run on a new
/// table.
const STEPS: [(Step, Answer); 29] = [
    // Operations are done and taken back. The nodes are in the order 2, 1, 3. Keys 3 and 2 are put
    // and taken back, which marks their nodes. The seek for key 2 stops before the node of key 1,
    // so the node of key 3 stays linked until it is swept.
    (Step::Do(Op::Put(1, 10)), Answer::Reply(None)),
    (Step::Return(Op::Put(3, 30)), Answer::Reply(None)),
    (Step::Return(Op::Put(2, 20)), Answer::Reply(None)),
    (Step::Read, Answer::Figures(2, 1, 5)),
    (Step::Sweep, Answer::Swept(SweepOutcome::Swept)),
    (Step::Sweep, Answer::Swept(SweepOutcome::Swept)),
    (Step::Sweep, Answer::Swept(SweepOutcome::Clean)),
    (Step::Read, Answer::Figures(2, 1, 7)),
    (Step::Return(Op::Put(1, 11)), Answer::Reply(Some(10))),
    (Step::Return(Op::Take(1)), Answer::Reply(Some(10))),
    (
        Step::Return(Op::PutIf(1, Some(10), 12)),
        Answer::Reply(Some(10)),
    ),
    (
        Step::Return(Op::PutIf(1, None, 12)),
        Answer::Reply(Some(10)),
    ),
    (Step::Pairs, Answer::Pairs(&[(1, 10)])),
    // A withdrawn operation changes nothing. A change remains if its job is discarded.
    (
        Step::Withdraw(Op::Put(2, 20)),
        Answer::Withdrawn(Op::Put(2, 20), 2),
    ),
    (Step::Pairs, Answer::Pairs(&[(1, 10)])),
    (Step::Discard(Op::Take(1)), Answer::Reply(Some(10))),
    (Step::Pairs, Answer::Pairs(&[])),
    // A job is run at a cursor.
    (Step::ReturnAt(Op::Put(2, 20)), Answer::Reply(None)),
    (Step::Pairs, Answer::Pairs(&[])),
    // The cursor of key 3 still fits: its position is after key 1, and key 4 is put before key 1.
    (Step::Begin, Answer::Done),
    (Step::Do(Op::Put(1, 10)), Answer::Reply(None)),
    (Step::PutLate(3, 30), Answer::Late(false, None, None, None)),
    (Step::Pairs, Answer::Pairs(&[(4, 40), (1, 10), (3, 30)])),
    // A table doubles only with more than two keys for each bucket, and only up to its limit.
    (Step::Double(2), Answer::Double(Double::Light)),
    (Step::Do(Op::Put(2, 20)), Answer::Reply(None)),
    (Step::Do(Op::Put(5, 50)), Answer::Reply(None)),
    (Step::Double(2), Answer::Double(Double::Doubled(4))),
    (Step::BeginSmall, Answer::Done),
    (Step::Double(2), Answer::Double(Double::AtLimit)),
];

/// Three changes of one key, which are taken back newest first.
const APPLY_THEN_TAKE_BACK: [(Step, Answer); 10] = [
    (Step::Put(2, 20), Answer::Reply(None)),
    (Step::Newest, Answer::Job(Inverse::Unput(2))),
    (Step::Put(2, 21), Answer::Reply(Some(20))),
    (Step::Newest, Answer::Job(Inverse::Restore(2, 20))),
    (
        Step::TakeThereAndBack(2),
        Answer::Taken(Some(21), Inverse::Relink(2, 21)),
    ),
    (Step::Pairs, Answer::Pairs(&[(2, 21)])),
    (Step::TakeBack, Answer::Done),
    (Step::Pairs, Answer::Pairs(&[(2, 20)])),
    (Step::TakeBack, Answer::Done),
    (Step::Pairs, Answer::Pairs(&[])),
];

/// Key 4 is put at the position of key 2's cursor, so this cursor no longer fits.
const STALE_PENDING: [(Step, Answer); 8] = [
    (Step::PutLate(2, 20), Answer::Late(true, None, None, None)),
    (Step::Pairs, Answer::Pairs(&[(4, 40), (2, 20)])),
    (Step::Newest, Answer::Job(Inverse::Unput(4))),
    (Step::TakeBack, Answer::Done),
    (Step::Pairs, Answer::Pairs(&[(2, 20)])),
    (Step::Newest, Answer::Job(Inverse::Unput(2))),
    (Step::TakeBack, Answer::Done),
    (Step::Pairs, Answer::Pairs(&[])),
];

/// Takes these steps, and compares the answer to each step with the wanted one.
fn take_each(
    rt: &impl Abort,
    alloc: Global,
    table: &mut Table,
    jobs: &mut Vec<MapJob>,
    steps: &[(Step, Answer)],
) -> Result<(), Fail> {
    for (row, (step, answer)) in steps.iter().enumerate() {
        let is_right = match step {
            Step::Pairs => has_answer(alloc, table, *answer)?,
            _ => take_step(alloc, table, jobs, *step)? == *answer,
        };
        assert!(rt; is_right, "row {row}");
    }
    Ok(())
}

/// Takes these steps on a new table, and compares the answer to each step with the wanted one.
fn take_steps(rt: &impl Abort, alloc: Global, steps: &[(Step, Answer)]) -> Result<(), Fail> {
    let mut table = new_table(alloc).expect(rt, "a table");
    take_each(rt, alloc, &mut table, &mut Vec::new(alloc), steps)
}

#[test]
fn worked_runs(rt: HostRuntime) -> Result<(), Fail> {
    take_steps(&rt, rt.alloc(), &STEPS)
}

#[test]
fn apply_then_take_back(rt: HostRuntime) -> Result<(), Fail> {
    take_steps(&rt, rt.alloc(), &APPLY_THEN_TAKE_BACK)
}

#[test]
fn stale_pending(rt: HostRuntime) -> Result<(), Fail> {
    take_steps(&rt, rt.alloc(), &STALE_PENDING)
}
