//! These tests compare all calls that a gate gets, in their order, with tables made by hand. The
//! library's user writes the gate, so no contract counts these calls. `run_tests` has a gate that
//! forces an order. The gate of this module also notes its calls. If there are two workers, the
//! calls of each worker are compared separately.
use crate::run_tests::{await_flag, put, run, scripts_of};
use std::alloc::{AllocError, Global};
use std::process::Abort;
use std::sync::atomic::{AtomicBool, Ordering};
use std::sync::{Mutex, Wait};
use std::test::Fail;
use std::thread::Threads;
use std::time::Clock;
use thread_runs::Gate;
use txn_words::{Action, Op, Refusal, Script};

/// A call that a gate gets.
#[derive(Clone, Copy, Debug, PartialEq, Eq)]
enum Heard {
    /// A worker is about to do an action of a script.
    Before(usize, usize, usize),
    /// A script has its outcome.
    Done(usize),
    /// A worker has released the lock.
    Freed(usize),
}

impl Heard {
    /// The worker that made this call, in a run with this number of workers.
    fn worker(self, workers: usize) -> usize {
        match self {
            Heard::Before(worker, _, _) | Heard::Freed(worker) => worker,
            Heard::Done(script) if workers > 0 => script % workers,
            Heard::Done(_) => 0,
        }
    }
}

/// A gate that notes its calls. Worker 0 waits before its second action until worker 1 has done all
/// its scripts. Worker 1 waits before its first action until worker 0 has come to its second
/// action. So while an operation of one worker runs, the other worker does no operation.
#[derive(Drop)]
struct Listener<'a, R: Wait + Abort + Clock + Sync> {
    rt: &'a R,
    heard: Mutex<Vec<Heard>>,
    /// The index of the last script, which worker 1 does.
    last: usize,
    is_there: AtomicBool,
    is_done: AtomicBool,
}

impl<R: Wait + Abort + Clock + Sync> Gate for Listener<'_, R> {
    fn before(&self, worker: usize, script: usize, action: usize) {
        let call = Heard::Before(worker, script, action);
        let noted = self.heard.lock(self.rt).push(call);
        assert!(self.rt; noted.is_ok(), "memory");
        if worker == 0 && action == 1 {
            self.is_there.store(true, Ordering::SeqCst);
            await_flag(self.rt, &self.is_done);
        }
        if worker == 1 && action == 0 {
            await_flag(self.rt, &self.is_there);
        }
    }

    fn done(&self, script: usize) {
        let noted = self.heard.lock(self.rt).push(Heard::Done(script));
        assert!(self.rt; noted.is_ok(), "memory");
        if script == self.last {
            self.is_done.store(true, Ordering::SeqCst);
        }
    }

    fn freed(&self, worker: usize) {
        let noted = self.heard.lock(self.rt).push(Heard::Freed(worker));
        assert!(self.rt; noted.is_ok(), "memory");
    }
}

/// Runs the scripts, and returns the calls that the gate got. A script that finds a stripe held is
/// tried at most `tries` more times. A single worker does not wait. If there are two workers,
/// worker 1 must do the last script.
fn heard_of<R: Threads + Wait + Abort + Clock + Sync>(
    rt: &R,
    alloc: Global,
    scripts: &[Script],
    workers: u64,
    tries: u64,
) -> Result<Vec<Heard>, Refusal> {
    let listener = Listener {
        rt,
        heard: Mutex::new(Vec::new(alloc)),
        last: scripts.len().saturating_sub(1),
        is_there: AtomicBool::new(false),
        is_done: AtomicBool::new(workers < 2),
    };
    run(rt, alloc, scripts, workers, 8, tries, &listener)?;
    Ok(listener.heard.into_inner())
}

/// Returns those calls that this worker made.
fn own(
    alloc: Global,
    heard: &[Heard],
    worker: usize,
    workers: usize,
) -> Result<Vec<Heard>, AllocError> {
    let mut own = Vec::new(alloc);
    for &call in heard {
        if call.worker(workers) == worker {
            own.push(call)?;
        }
    }
    Ok(own)
}

/// Returns true if the gate got exactly the calls `wanted`, in this order. Each row has a call, and
/// the number of times that the gate must get it, one after the other.
fn is_heard(heard: &[Heard], wanted: &[(Heard, usize)]) -> bool {
    let mut rest = heard;
    for &(call, times) in wanted {
        for _ in 0..times {
            let Some((first, more)) = rest.split_first() else {
                return false;
            };
            if *first != call {
                return false;
            }
            rest = more;
        }
    }
    rest.is_empty()
}

/// In a run with two workers, returns true if this worker's calls are exactly `wanted`.
fn is_own(
    alloc: Global,
    heard: &[Heard],
    worker: usize,
    wanted: &[(Heard, usize)],
) -> Result<bool, AllocError> {
    let own = own(alloc, heard, worker, 2)?;
    Ok(is_heard(own.as_slice(), wanted))
}

/// A begin and a commit take one hold of the lock each, and an operation takes three. The abort
/// takes five holds: three, and two more for the change that it takes back.
#[test]
fn one_worker_is_heard(rt: HostRuntime) -> Result<(), Fail> {
    let first = [put(1, 10), Action::Op(Op::Get(9))];
    let second = [Action::Op(Op::Take(1)), Action::Abort];
    let lists = [first.as_slice(), second.as_slice()];
    let scripts = scripts_of(rt.alloc(), lists.as_slice())?;
    let heard = heard_of(&rt, rt.alloc(), scripts.as_slice(), 1, 0)?;
    let wanted = [
        (Heard::Freed(0), 1),
        (Heard::Before(0, 0, 0), 1),
        (Heard::Freed(0), 3),
        (Heard::Before(0, 0, 1), 1),
        (Heard::Freed(0), 3),
        (Heard::Before(0, 0, 2), 1),
        (Heard::Freed(0), 1),
        (Heard::Done(0), 1),
        (Heard::Freed(0), 1),
        (Heard::Before(0, 1, 0), 1),
        (Heard::Freed(0), 3),
        (Heard::Before(0, 1, 1), 1),
        (Heard::Freed(0), 5),
        (Heard::Done(1), 1),
    ];
    assert!(&rt; is_heard(heard.as_slice(), wanted.as_slice()));
    Ok(())
}

/// Worker 0 holds the stripe of key 1 until worker 1 has given up. An operation that finds a stripe
/// held also takes three holds of the lock: the question, a seek that finds no change to take back,
/// and the abort. The gate gets `Done` once for each script, after the last try of the script.
#[test]
fn second_try_is_heard(rt: HostRuntime) -> Result<(), Fail> {
    let first = [put(1, 10)];
    let second = [Action::Op(Op::Get(1))];
    let lists = [first.as_slice(), second.as_slice()];
    let scripts = scripts_of(rt.alloc(), lists.as_slice())?;
    let heard = heard_of(&rt, rt.alloc(), scripts.as_slice(), 2, 1)?;
    let holder = [
        (Heard::Freed(0), 1),
        (Heard::Before(0, 0, 0), 1),
        (Heard::Freed(0), 3),
        (Heard::Before(0, 0, 1), 1),
        (Heard::Freed(0), 1),
        (Heard::Done(0), 1),
    ];
    let refused = [
        (Heard::Freed(1), 1),
        (Heard::Before(1, 1, 0), 1),
        (Heard::Freed(1), 4),
        (Heard::Before(1, 1, 0), 1),
        (Heard::Freed(1), 3),
        (Heard::Done(1), 1),
    ];
    assert!(&rt; is_own(rt.alloc(), heard.as_slice(), 0, holder.as_slice())?);
    assert!(&rt; is_own(rt.alloc(), heard.as_slice(), 1, refused.as_slice())?);
    Ok(())
}
