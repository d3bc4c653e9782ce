//! Tests that run scripts on threads: in an order that a gate forces, in any order, and with memory
//! refused. `engines::runs` of `program_tests` runs scripts with any number of workers. By the contract of `run_scripts`, each script may be busy or refused.
//! Here a script that shares no stripe with another script must commit. If the order depends on the
//! threads, the checker only judges the history.
use crate::devices::{find_settled, is_refused, is_settled, judge};
use history_check::Verdict;
use std::alloc::{AllocError, Global};
use std::process::Abort;
use std::sync::Wait;
use std::sync::atomic::{AtomicBool, AtomicU64, Ordering};
use std::test::Fail;
use std::thread;
use std::thread::Threads;
use std::time::{Clock, Duration};
use thread_runs::{Gate, Open, Outcome, Ran, run_scripts};
use txn_words::{Action, Entry, Limits, Op, Refusal, Script, SmallEntry, Unpacked};

/// Runs scripts with this number of workers, on a map with this number of stripes. A script that
/// finds a stripe held is tried at most `tries` more times.
pub(crate) fn run<G: Gate, R: Threads + Wait + Sync>(
    rt: &R,
    alloc: Global,
    scripts: &[Script],
    workers: u64,
    stripes: u64,
    tries: u64,
    gate: &G,
) -> Result<Ran, Refusal> {
    if tries > 1000 {
        return Err(Refusal::Limit);
    }
    let limits = Limits::new(workers, stripes, 8)?;
    let count = limits.callers() as usize;
    run_scripts(rt, alloc, limits, scripts, count, tries, gate)
}

/// Makes one script from each of these lists of actions.
pub(crate) fn scripts_of(alloc: Global, lists: &[&[Action]]) -> Result<Vec<Script>, AllocError> {
    let mut scripts = Vec::new(alloc);
    for list in lists {
        scripts.push(Script::of_actions(alloc, list)?)?;
    }
    Ok(scripts)
}

pub(crate) const fn put(key: u64, value: u64) -> Action {
    Action::Op(Op::Put(key, value))
}

/// The greatest number of times that a flag is read. The reads are a millisecond apart.
const TURNS: u64 = 20_000;

/// Waits until a flag is set. The test fails if that takes too long.
pub(crate) fn await_flag<R: Abort + Clock>(rt: &R, flag: &AtomicBool) {
    for _ in 0..TURNS {
        if flag.load(Ordering::SeqCst) {
            return;
        }
        thread::sleep(rt, Duration::from_millis(1));
    }
    assert!(rt; false, "a flag is set in time");
}

/// The place at which a worker may be.
#[derive(Clone, Copy, PartialEq, Eq)]
enum Place {
    /// Before this action of a script.
    Action(usize),
    /// At the release of the lock with this number, counted from 0.
    Release(u64),
}

/// A gate at which worker 0 waits at `place` until script 1 is done. Worker 1 waits before the
/// action with the index `action` until worker 0 has reached `place`.
#[derive(Drop)]
struct Meeting<'a, R: Abort + Clock + Sync> {
    rt: &'a R,
    place: Place,
    action: usize,
    releases: AtomicU64,
    is_there: AtomicBool,
    is_done: AtomicBool,
}

/// Notes that worker 0 has reached its place, and waits until script 1 is done.
fn wait_there<R: Abort + Clock>(rt: &R, is_there: &AtomicBool, is_done: &AtomicBool) {
    is_there.store(true, Ordering::SeqCst);
    await_flag(rt, is_done);
}

impl<R: Abort + Clock + Sync> Gate for Meeting<'_, R> {
    fn before(&self, worker: usize, _script: usize, action: usize) {
        if worker == 0 && self.place == Place::Action(action) {
            wait_there(self.rt, &self.is_there, &self.is_done);
        }
        if worker == 1 && action == self.action {
            await_flag(self.rt, &self.is_there);
        }
    }

    fn done(&self, script: usize) {
        if script == 1 {
            self.is_done.store(true, Ordering::SeqCst);
        }
    }

    fn freed(&self, worker: usize) {
        if worker == 0 {
            let release = self.releases.fetch_add(1, Ordering::SeqCst);
            if self.place == Place::Release(release) {
                wait_there(self.rt, &self.is_there, &self.is_done);
            }
        }
    }
}

/// Returns the commit number of a script, if the script is committed and none of its operations
/// found a value at its key. Returns 0 otherwise.
fn place_of(outcome: &Outcome) -> u64 {
    match outcome {
        Outcome::Committed { place, replies, .. } if replies.iter().all(|r| r.is_none()) => *place,
        _ => 0,
    }
}

/// Makes a gate for a run.
fn gate_at<R: Abort + Clock + Sync>(rt: &R, place: Place, action: usize) -> Meeting<'_, R> {
    Meeting {
        rt,
        place,
        action,
        releases: AtomicU64::new(0),
        is_there: AtomicBool::new(false),
        is_done: AtomicBool::new(false),
    }
}

/// Runs two scripts with two workers. Worker 1 must commit first, while worker 0's transaction is
/// open.
fn meet<R: Threads + Wait + Abort + Clock + Sync>(
    rt: &R,
    alloc: Global,
    scripts: &[Script],
    place: Place,
    action: usize,
) -> Result<Ran, Refusal> {
    let gate = gate_at(rt, place, action);
    let ran = run(rt, alloc, scripts, 2, 8, 0, &gate)?;
    assert!(rt; ran.outcomes.iter().map(place_of).eq([2, 1]));
    Ok(ran)
}

/// Two scripts, each with its own two keys.
fn crossing_scripts(alloc: Global) -> Result<Vec<Script>, AllocError> {
    let first = [put(1, 10), put(2, 20)];
    let second = [put(3, 30), put(4, 40)];
    scripts_of(alloc, [first.as_slice(), second.as_slice()].as_slice())
}

/// Worker 1 waits before its second action until worker 0 is about to do its own second action. At
/// this place worker 0 waits until worker 1's script is done.
#[test]
fn crossing_gate(rt: HostRuntime) -> Result<(), Fail> {
    let scripts = crossing_scripts(rt.alloc())?;
    meet(&rt, rt.alloc(), scripts.as_slice(), Place::Action(1), 1)?;
    Ok(())
}

/// Worker 0 keeps a stripe until worker 1 has tried 1,001 times and found it held each time. Each
/// of these tries adds three entries, so the history needs far more room than was made before the
/// run.
#[test]
fn many_attempts(rt: HostRuntime) -> Result<(), Fail> {
    let alloc = rt.alloc();
    let first = [put(1, 10)];
    let second = [put(1, 11)];
    let lists = [first.as_slice(), second.as_slice()];
    let scripts = scripts_of(alloc, lists.as_slice())?;
    let gate = gate_at(&rt, Place::Action(1), 0);
    let ran = run(&rt, alloc, scripts.as_slice(), 2, 8, 1_000, &gate)?;
    assert!(rt; is_done_then_busy(ran.outcomes.as_slice()));
    assert_eq!(rt; ran.trace.len(), 3_007);
    assert!(rt; is_settled(alloc, ran.trace.as_slice(), 8)?);
    Ok(())
}

/// Returns true if the first script is committed and the second one is busy.
fn is_done_then_busy(outcomes: &[Outcome]) -> bool {
    matches!(outcomes, [Outcome::Committed { .. }, Outcome::Busy])
}

fn is_began(entry: &Entry) -> bool {
    matches!(entry, Entry::Began(..))
}

/// Worker 1's action waits for worker 0's third release of the lock. By then worker 0 has begun its
/// transaction, asked for its put, and sought the position of the put. So worker 1's put and commit
/// come between worker 0's question and the reply to it.
#[test]
fn step_between(rt: HostRuntime) -> Result<(), Fail> {
    let first = [put(2, 20)];
    let second = [put(4, 40)];
    let lists = [first.as_slice(), second.as_slice()];
    let scripts = scripts_of(rt.alloc(), lists.as_slice())?;
    let ran = meet(&rt, rt.alloc(), scripts.as_slice(), Place::Release(2), 0)?;
    let wanted = [
        Entry::Asked(0, Op::Put(2, 20)),
        Entry::Asked(1, Op::Put(4, 40)),
        Entry::Did(1, None),
        Entry::Committed(1, 1),
        Entry::Did(0, None),
        Entry::Committed(0, 2),
    ];
    let later = Unpacked::new(ran.trace.as_slice()).filter(|entry| !is_began(entry));
    assert!(rt; later.eq(wanted.iter().copied()));
    Ok(())
}

/// Makes the script with this number, of four hundred. The script puts its own key, takes it, and
/// puts it again.
fn script(alloc: Global, number: u64) -> Result<Script, AllocError> {
    let actions = [
        put(number, number),
        Action::Op(Op::Take(number)),
        put(number, number.wrapping_add(1)),
    ];
    Script::of_actions(alloc, &actions)
}

/// Returns the commit number of a script, if the script is committed with the replies that it must
/// have. Returns 0 otherwise.
fn own_place(number: u64, outcome: &Outcome) -> u64 {
    match outcome {
        Outcome::Committed { place, replies, .. }
            if replies.as_slice() == [None, Some(number), None].as_slice() => { *place }
        _ => 0,
    }
}

/// The commit numbers of all scripts, in rising order.
fn places(alloc: Global, ran: &Ran) -> Result<Vec<u64>, AllocError> {
    let mut places = Vec::new(alloc);
    for (number, outcome) in ran.outcomes.iter().enumerate() {
        places.push(own_place(number as u64, outcome))?;
    }
    places.sort()?;
    Ok(places)
}

/// Four workers run four hundred scripts. Each script is committed with the replies that it must
/// have. The commit numbers are 1 to 400.
#[test]
fn four_hundred_scripts(rt: HostRuntime) -> Result<(), Fail> {
    let alloc = rt.alloc();
    let mut scripts = Vec::new(alloc);
    for number in 0..400 {
        scripts.push(script(alloc, number)?)?;
    }
    let ran = run(&rt, alloc, scripts.as_slice(), 4, 4096, 0, &Open)?;
    assert_eq!(rt; ran.outcomes.len(), 400);
    assert!(rt; places(alloc, &ran)?.iter().copied().eq(1..401));
    let wanted = Verdict::Legal {
        commits: 400,
        running: 0,
    };
    assert_eq!(rt; judge(alloc, ran.trace.as_slice(), 4096)?, Some(wanted));
    Ok(())
}

/// Runs the scripts of `crossing_gate` with one worker. Returns `None` if memory or a thread is
/// refused.
fn ran_alone<R: Threads + Wait + Abort + Sync>(rt: &R, alloc: Global) -> Option<Ran> {
    let Ok(scripts) = crossing_scripts(alloc) else {
        return None;
    };
    match run(rt, alloc, scripts.as_slice(), 1, 8, 0, &Open) {
        Ok(ran) => Some(ran),
        Err(refusal) => {
            assert!(rt; matches!(refusal, Refusal::NoMemory | Refusal::NoThread));
            None
        }
    }
}

/// Returns true if a history is legal, with no transaction open at its end. If memory is refused to
/// the checker permanently, the history is taken as legal.
fn is_legal<R: Abort>(rt: &R, alloc: Global, trace: &[SmallEntry]) -> bool {
    assert!(rt; trace.iter().all(|entry| entry.caller() < 64));
    let Some(settled) = find_settled(alloc, trace) else {
        assert!(rt; is_refused(alloc));
        return true;
    };
    settled
}

fn is_done(outcome: &Outcome) -> bool {
    matches!(outcome, Outcome::Committed { .. })
}

fn is_refused_memory(outcome: &Outcome) -> bool {
    matches!(outcome, Outcome::Refused(Refusal::NoMemory))
}

/// Returns true if both scripts are committed. Checks that a script that is not committed was
/// refused memory, and that no transaction is open at the end.
fn is_whole<R: Abort>(rt: &R, alloc: Global, ran: &Ran) -> bool {
    let outcomes = ran.outcomes.as_slice();
    assert_eq!(rt; outcomes.len(), 2);
    for outcome in outcomes {
        assert!(rt; is_done(outcome) || is_refused_memory(outcome));
    }
    let done = outcomes.iter().filter(|outcome| is_done(outcome)).count();
    assert!(rt; is_legal(rt, alloc, ran.trace.as_slice()));
    assert!(rt; done < 2 || ran.trace.len() == 12);
    done == 2
}

/// Tests the state after a run that is refused memory by `tests/refused.sh`. One worker runs
/// the scripts again and again, until both are committed. `refused.sh` refuses at most eight
/// allocations in a row, or all allocations after some point. Eight refusals make at most eight
/// runs fail. So if the ninth run also fails, every allocation is refused.
#[test]
fn refused_memory_for_crossing_scripts(rt: HostRuntime) {
    for _ in 0..9 {
        if let Some(ran) = ran_alone(&rt, rt.alloc()) {
            if is_whole(&rt, rt.alloc(), &ran) {
                return;
            }
        }
    }
    assert!(rt; is_refused(rt.alloc()));
}
