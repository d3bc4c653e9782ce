//! An observer of releases is notified exactly once for each hold of the lock. The observer's type
//! is the caller's own, so no contract can count the calls of the observer. The counts in the
//! tables were worked out by hand from the steps of each call.
use crate::devices::{Play, Shared, callers_in, play_with, run_heard};
use boost_core::Call;
use locked_map::{Caller, NoSide, OnRelease, Pass};
use std::alloc::Global;
use std::process::Abort;
use std::sync::Wait;
use std::sync::atomic::{AtomicU64, Ordering};
use std::sync::ledger::Ledger;
use std::test::Fail;
use txn_words::Op;

/// Counts releases.
#[derive(Drop)]
struct Count {
    releases: AtomicU64,
}

impl OnRelease for Count {
    fn on_release(&self) {
        self.releases.fetch_add(1, Ordering::SeqCst);
    }
}

/// Makes a call, and returns how often the call releases the lock.
fn releases_of<L: Ledger, R: Wait>(
    rt: &R,
    shared: &Shared<L>,
    me: &mut Caller<L, NoSide>,
    call: Call,
) -> u64 {
    let count = Count {
        releases: AtomicU64::new(0),
    };
    run_heard(rt, shared, me, call, &count);
    count.releases.load(Ordering::SeqCst)
}

/// Each row has a call of one caller, and the number of times that the call releases the lock. A
/// call that the caller's token refuses does not take the lock. The initialisation of a bucket
/// takes three holds of the lock, and so does an operation. Taking changes back takes three holds,
/// and two more for each change.
static RELEASES: [(Call, u64); 16] = [
    (Call::Commit, 0),
    (Call::Help(0), 1),
    (Call::Help(1), 4),
    (Call::Begin, 1),
    (Call::Begin, 0),
    (Call::Op(Op::Put(1, 10)), 3),
    (Call::Op(Op::Get(1)), 3),
    (Call::Save, 1),
    (Call::Op(Op::Put(3, 30)), 3),
    (Call::Back(1), 5),
    (Call::Back(2), 0),
    (Call::Op(Op::PutIf(1, Some(10), 11)), 3),
    (Call::Commit, 1),
    (Call::Begin, 1),
    (Call::Op(Op::Take(1)), 3),
    (Call::Abort, 5),
];

/// Makes room for 1,000 entries. Room for more entries than memory can hold is refused.
fn make_room<L: Ledger>(rt: &impl Abort, shared: &mut Shared<L>, me: &mut Caller<L, NoSide>) {
    assert!(rt; shared.map.reserve(1_000).is_ok());
    assert!(rt; shared.map.reserve(usize::MAX).is_err());
    assert!(rt; me.reserve(1_000).is_ok());
    assert!(rt; me.reserve(usize::MAX).is_err());
}

/// Makes the calls of `RELEASES`, and checks how often each one releases the lock.
fn releases_are<L: Ledger, R: Wait + Abort>(
    rt: &R,
    shared: &Shared<L>,
    me: &mut Caller<L, NoSide>,
) {
    for &(call, wanted) in &RELEASES {
        let releases = releases_of(rt, shared, me, call);
        assert!(rt; releases == wanted, "{call:?}");
    }
}

/// One caller makes room, and then the calls.
#[derive(Drop)]
struct OneEach;

impl Play for OneEach {
    fn play<L: Ledger, R: Wait + Abort>(
        &self,
        rt: &R,
        alloc: Global,
        shared: Shared<L>,
        passes: Vec<Pass<L>>,
    ) -> Result<(), Fail> {
        let mut shared = shared;
        let mut callers = callers_in(rt, alloc, passes);
        let Some(me) = callers.first_mut() else {
            panic!(rt; "caller 0");
        };
        make_room(rt, &mut shared, me);
        releases_are(rt, &shared, me);
        Ok(())
    }
}

#[test]
fn one_release_a_hold(rt: HostRuntime) -> Result<(), Fail> {
    play_with(&rt, rt.alloc(), 1, &OneEach)
}
