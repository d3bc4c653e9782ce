//! Threads for callers: `in_threads` runs each caller in its own thread. Its argument of type
//! `Work` says what the callers do there. This module has no tests. `another` and `transfers`
//! call `in_threads`. The closure of a thread scope has no `assert!`, which would be slow to prove
//! there.
use crate::another::come_and_go;
use crate::transfers::{move_many, take_part};
use std::alloc::Global;
use std::process::Abort;
use std::sync::Wait;
use std::thread;
use std::thread::Threads;
use striped_map::Caller;

/// The work of each caller in its thread.
#[derive(Clone, Copy)]
pub(crate) enum Work {
    /// Makes callers, which move a sum, and drops them.
    ComesAndGoes(Global),
    /// Moves many sums between accounts.
    Moves,
    /// The caller at place 0 commits after a while. Meanwhile every other caller makes a transfer.
    TakesPart,
}

/// Does the work of the caller at this place.
fn do_work<R: Abort>(rt: &R, caller: &mut Caller, place: usize, what: Work) {
    match what {
        Work::ComesAndGoes(alloc) => come_and_go(rt, alloc, caller),
        Work::Moves => move_many(rt, caller, place as u64),
        Work::TakesPart => take_part(rt, caller, place),
    }
}

/// Fails the test if a thread has not started.
pub(crate) fn must_start<R: Abort>(rt: &R, has_started: bool) {
    assert!(rt; has_started, "a thread");
}

/// Runs each caller's work in its own thread.
pub(crate) fn in_threads<R: Threads + Wait + Abort + Sync>(
    rt: &R,
    callers: &mut [Caller],
    what: Work,
) {
    thread::scope(thread::scope_env(), rt, |scope| {
        for (place, caller) in callers.iter_mut().enumerate() {
            let started = scope.spawn(move || do_work(rt, caller, place, what));
            must_start(rt, started.is_ok());
        }
    });
}
