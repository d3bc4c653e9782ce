//! These tests drop a caller before the first call of a transaction, or after any later call of the
//! transaction. The contract of the drop says that the transaction is aborted and that its stripes
//! are given back. No contract says that the drop does nothing after this, or that another caller
//! then gets the stripes. Here caller 1 gets all stripes after the drop, finds only the pair that
//! was committed before the transaction, and makes the next commit.
use crate::calls::{Home, Line, asks, has_left, open, play};
use crate::values::{AFTER, CALLS, HOLDS, LETS_GO};
use crate::worked::{Ask, Told};
use std::process::Abort;

/// Caller 2 makes the calls `begins` and then the first `calls` calls of `CALLS`, and is dropped.
fn drop_after<R: Abort>(rt: &R, home: &mut Home, begins: &[Line], calls: usize) {
    play(rt, home, HOLDS);
    play(rt, home, LETS_GO);
    assert!(rt; calls <= CALLS.len());
    let mut second = home.callers.pop().expect(rt, "caller 2");
    asks(rt, &mut second, begins);
    asks(rt, &mut second, &CALLS[..calls]);
    drop(second);
    play(rt, home, AFTER);
    has_left(rt, &mut home.host, &[(1, 5)]);
}

#[test]
fn a_caller_that_is_dropped_at_any_point_leaves_nothing(rt: HostRuntime) {
    drop_after(&rt, &mut open(&rt, rt.alloc(), 4, 2), &[], 0);
    for calls in 0..21usize {
        let home = &mut open(&rt, rt.alloc(), 4, 2);
        drop_after(&rt, home, &[(Ask::Begin, Told::Done)], calls);
    }
}
