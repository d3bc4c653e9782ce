//! Tests of `undo_log`: jobs that lower a count, a side value of four words, and refused
//! allocations. The contracts allow a log to refuse room even while memory is free. Room for the
//! first eight jobs of a log is never refused. Room for the ninth job may be refused. No log here
//! has more than nine jobs. The values were worked out by hand.
ghost use Rattle.std.specs.Prelude.{◌≡◌, length};

use std::alloc::Global;
use std::process::Abort;
use std::test::Fail;
use undo_log::{Side, SideJob, SideValue, UndoJob, UndoLog};

/// The job of a change that raised a count by one, to this number. The job lowers the count again.
#[derive(Drop)]
struct Raised(u64);

impl UndoJob for Raised {
    type World = u64;

    ghost use Rattle.std.specs.Prelude.{◌≡◌, ◌+◌, ◌<◌};

    ghost shows_after = { λ job count. (count ≡ job.0) × (0 < job.0) };

    ghost shows_before = { λ job count. count + 1 ≡ job.0 };

    ghost takes_back = { λ job old new. new + 1 ≡ old };

    fn run(self, count: u64) -> u64 {
        count - 1
    }
}

/// Returns true if an allocation is refused now.
fn is_refused(alloc: Global) -> bool {
    Box::new(alloc, 0).is_err()
}

/// Pushes the job with this number. If room for it is refused, asks once more. Returns true if the
/// job was pushed.
fn is_pushed(rt: &impl Abort, log: &mut UndoLog<Raised>, number: u64) -> bool {
    let jobs = log.len();
    if log.reserve_one().is_err() {
        assert!(rt; log.len() == jobs);
        if log.reserve_one().is_err() {
            assert!(rt; log.len() == jobs);
            return false;
        }
    }
    log.push_reserved(Raised(number));
    true
}

/// Makes a savepoint. If memory is refused, tries once more.
fn save(rt: &impl Abort, log: &mut UndoLog<Raised>) -> Option<usize> {
    let level = log.level();
    if let Ok(saved) = log.save() {
        return Some(saved);
    }
    assert!(rt; log.level() == level);
    log.save_room().ok()?;
    log.save().ok()
}

/// Removes the newest job above a level and runs it on `count`, which lowers the count by one.
/// Returns `None` if there is no such job, if the job's number is not `count`, or if `count` is 0.
fn run_newest(log: &mut UndoLog<Raised>, level: usize, count: u64) -> Option<u64> {
    if level > log.level() {
        return None;
    }
    let job = log.pop_above(level)?;
    if job.0 != count || count == 0 {
        return None;
    }
    Some(job.run(count))
}

/// The number of the newest job above a level.
fn newest_above(log: &UndoLog<Raised>, level: usize) -> Option<u64> {
    if level > log.level() {
        return None;
    }
    match log.newest_above(level) {
        Some(Raised(number)) => Some(*number),
        None => None,
    }
}

/// Drops the savepoints above a level. Fails if there is no such level, or if there is still a job
/// above it.
fn cut(log: &mut UndoLog<Raised>, level: usize) -> Result<(), Fail> {
    if level > log.level() || log.len() > log.kept(level) {
        return Err("jobs are left".into());
    }
    log.cut(level);
    Ok(())
}

/// The number of jobs that a level keeps, or `None` if there is no such level.
fn kept(log: &UndoLog<Raised>, level: usize) -> Option<usize> {
    if level > log.level() {
        return None;
    }
    Some(log.kept(level))
}

/// The level, the number of jobs, and whether the log is empty.
fn figures(log: &UndoLog<Raised>) -> (usize, usize, bool) {
    (log.level(), log.len(), log.is_empty())
}

/// Checks the number of jobs, and runs all jobs, newest first. Needs no memory.
fn take_back(rt: &impl Abort, log: &mut UndoLog<Raised>, jobs: u64) -> Result<(), Fail> {
    assert!(rt; log.len() as u64 == jobs);
    for expected in [9, 8, 7, 6, 5, 4, 3, 2, 1] {
        if expected <= jobs {
            assert!(rt;
                run_newest(log, 0, expected) == expected.checked_sub(1),
                "{expected}"
            );
        }
    }
    assert!(rt; run_newest(log, 0, 0).is_none());
    cut(log, 0)?;
    assert!(rt; figures(log) == (0, 0, true));
    Ok(())
}

/// Makes a log of eight jobs, which needs no memory. The contract says that all eight jobs are in
/// the log, and that the log has no room for a ninth.
fn eight_jobs(alloc: Global) -> UndoLog<Raised>
    ensures jobs { length result.jobs ≡ 8 }
    ensures room { result.room ≡ 0 }
{
    let mut log = UndoLog::new(alloc);
    for number in 1..9 {
        let Ok(()) = log.reserve_one() else {
            unreachable!();
        };
        log.push_reserved(Raised(number));
    }
    log
}

/// Returns the log of `eight_jobs`. Unlike `eight_jobs`, this function has no contract.
fn log_of_eight(alloc: Global) -> UndoLog<Raised> {
    eight_jobs(alloc)
}

/// This test is also run with allocations refused. The first allocation is for the ninth job.
#[test]
fn nine_undone_newest_first(rt: HostRuntime) -> Result<(), Fail> {
    undo_nine(&rt, rt.alloc(), &mut log_of_eight(rt.alloc()))
}

/// Pushes the ninth job, if memory is not refused. Then runs all jobs.
fn undo_nine(rt: &impl Abort, alloc: Global, log: &mut UndoLog<Raised>) -> Result<(), Fail> {
    if !is_pushed(rt, log, 9) {
        assert!(rt; is_refused(alloc));
        return take_back(rt, log, 8);
    }
    take_back(rt, log, 9)
}

/// An empty log.
fn empty_log(alloc: Global) -> UndoLog<Raised> {
    UndoLog::new(alloc)
}

/// Makes savepoints 1 and 2, if memory is not refused. Each savepoint raises the level by one.
/// Returns the number of savepoints that were made.
fn savepoints(rt: &impl Abort, alloc: Global, log: &mut UndoLog<Raised>) -> usize {
    for (before, number) in [(0, 1), (1, 2)] {
        match save(rt, log) {
            Some(saved) => assert!(rt; saved == number),
            None => {
                assert!(rt; log.level() == before);
                assert!(rt; is_refused(alloc));
                return before;
            }
        }
    }
    2
}

/// Returns from level 2 to level 1. One job was pushed before the two savepoints, and one after
/// them.
fn return_to_1(rt: &impl Abort, log: &mut UndoLog<Raised>) -> Result<(), Fail> {
    assert!(rt; figures(log) == (2, 2, false));
    assert!(rt; [kept(log, 0), kept(log, 1), kept(log, 2)] == [Some(0), Some(1), Some(1)]);
    assert!(rt; newest_above(log, 1) == Some(2));
    assert!(rt; run_newest(log, 1, 2) == Some(1));
    assert!(rt; newest_above(log, 1).is_none() && run_newest(log, 1, 1).is_none());
    cut(log, 1)?;
    assert!(rt; figures(log) == (1, 1, false));
    Ok(())
}

/// This test is also run with allocations refused. Only the savepoints allocate.
#[test]
fn a_savepoint_keeps_its_jobs(rt: HostRuntime) -> Result<(), Fail> {
    save_and_return(&rt, rt.alloc(), &mut empty_log(rt.alloc()))
}

/// Makes two savepoints, if memory is not refused, and returns to the first one.
fn save_and_return(rt: &impl Abort, alloc: Global, log: &mut UndoLog<Raised>) -> Result<(), Fail> {
    assert!(rt; is_pushed(rt, log, 1));
    if savepoints(rt, alloc, log) < 2 {
        return take_back(rt, log, 1);
    }
    assert!(rt; is_pushed(rt, log, 2));
    return_to_1(rt, log)
}

/// The tests' side value: four words.
#[derive(Drop)]
struct Register {
    words: [u64; 4],
}

/// The job that undoes a change of the words.
#[derive(Drop)]
struct WordsJob {
    before: [u64; 4],
    after: [u64; 4],
}

impl Side for Register {
    type Job = WordsJob;

    ghost words_of = { λ register. register.words };

    ghost before = { λ job. job.before };

    ghost after = { λ job. job.after };

    fn words(&self) -> [u64; 4]
        ensures { result ≡ self.now.words }
    {
        self.words
    }

    fn undo(self, job: WordsJob) -> Register {
        let words = job.before;
        Register { words }
    }
}

/// A register with these words.
fn a_register(words: [u64; 4]) -> Register
    ensures { result.words ≡ words }
{
    Register { words }
}

/// Sets the words. If memory is refused, tries once more. Returns `None` if memory is refused
/// again.
fn set(rt: &impl Abort, side: &mut SideValue<Register>, words: [u64; 4]) -> Option<()> {
    let before = side.words();
    let job = WordsJob {
        before,
        after: words,
    };
    let Err(refused) = side.change(|_| a_register(words), SideJob { job }) else {
        return Some(());
    };
    assert!(rt; side.words() == before);
    let (change, job) = refused.value;
    side.change(change, job).ok()
}

/// Makes a savepoint. If memory is refused, tries once more.
fn save_side(rt: &impl Abort, side: &mut SideValue<Register>) -> Option<usize> {
    let level = side.level();
    if let Ok(saved) = side.save() {
        return Some(saved);
    }
    assert!(rt; side.level() == level);
    side.save_room().ok()?;
    side.save().ok()
}

/// Goes back to a level, and returns the words at that level.
fn words_back(rt: &impl Abort, side: &mut SideValue<Register>, level: usize) -> [u64; 4] {
    assert!(rt; level <= side.level());
    side.back(level);
    assert!(rt; side.level() == level);
    side.words()
}

/// Makes a change, a savepoint and two more changes, and goes back to the savepoint. Returns the
/// words before and after going back, or `None` if a change or the savepoint is refused memory
/// twice.
fn words_there(rt: &impl Abort, side: &mut SideValue<Register>) -> Option<[[u64; 4]; 2]> {
    set(rt, side, [1, 0, 0, 0])?;
    assert!(rt; save_side(rt, side)? == 1);
    set(rt, side, [2, 0, 0, 0])?;
    set(rt, side, [3, 0, 0, 0])?;
    let there = side.words();
    assert!(rt; side.level() == 1);
    Some([there, words_back(rt, side, 1)])
}

/// A side value of zeros.
fn zeros(alloc: Global) -> SideValue<Register> {
    SideValue::new(alloc, a_register([0, 0, 0, 0]))
}

/// This test is also run with allocations refused. All changes that were made are taken back.
#[test]
fn side_value_returns(rt: HostRuntime) {
    go_and_return(&rt, rt.alloc(), &mut zeros(rt.alloc()));
}

/// Calls `words_there` and compares its words, unless memory was refused. Then goes back to level
/// 0, where all words must be 0.
fn go_and_return(rt: &impl Abort, alloc: Global, side: &mut SideValue<Register>) {
    match words_there(rt, side) {
        Some(words) => assert!(rt; words == [[3, 0, 0, 0], [1, 0, 0, 0]]),
        None => assert!(rt; is_refused(alloc)),
    }
    assert!(rt; side.level() <= 1);
    assert!(rt; words_back(rt, side, 0) == [0, 0, 0, 0]);
}

/// Sets the first word to 1, and then makes a savepoint. Returns true if both succeeded.
fn is_saved_at_1(rt: &impl Abort, side: &mut SideValue<Register>) -> bool {
    set(rt, side, [1, 0, 0, 0]).is_some() && save_side(rt, side).is_some()
}

/// Makes a change and a savepoint, and settles the value if `settles` is true. Then goes back to
/// level 0, where the words must be `left`. If the change or the savepoint is refused memory, the
/// words at level 0 must be the initial words.
fn return_to_0(
    rt: &impl Abort,
    alloc: Global,
    side: &mut SideValue<Register>,
    settles: bool,
    left: [u64; 4],
) {
    let is_done = is_saved_at_1(rt, side);
    if is_done && settles {
        side.settle();
        assert!(rt; side.level() == 0);
    }
    assert!(rt; side.level() <= 1);
    let words = words_back(rt, side, 0);
    if is_done {
        assert!(rt; words == left);
    } else {
        assert!(rt; is_refused(alloc) && words == [0, 0, 0, 0]);
    }
}

/// This test is also run with allocations refused.
#[test]
fn a_settled_value_stays(rt: HostRuntime) {
    let alloc = rt.alloc();
    return_to_0(&rt, alloc, &mut zeros(alloc), false, [0, 0, 0, 0]);
    return_to_0(&rt, alloc, &mut zeros(alloc), true, [1, 0, 0, 0]);
}
