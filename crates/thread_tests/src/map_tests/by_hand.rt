//! These tests drive calls by hand, one hold of the lock at a time. `into_booked` takes the core
//! out of its lock. Each hold is then a call of the method `hold`. The ends of the calls and the
//! entries are those of `rows`.
ghost use Rattle.std.specs.Prelude.{◌≡◌};
ghost use Rattle.locked_map.specs.Tokens.{HasTried};

use super::rows::{BETWEEN, HISTORY};
use crate::devices::{Play, Shared, callers_in, has_seen, play_with};
use boost_core::{Call, Drive, End};
use locked_map::{Booked, Caller, NoSide, Pass};
use std::alloc::Global;
use std::process::Abort;
use std::sync::Wait;
use std::sync::ledger::Ledger;
use std::test::Fail;
use txn_words::{Entry, Op, Refusal};

/// Makes the holds of a call until the call has ended. Returns `None` if it has not ended after
/// nine holds.
fn drive<L: Ledger>(booked: &mut Booked<L>, me: &mut Caller<L, NoSide>, call: Call) -> Option<End>
    requires { HasTried me.old call }
{
    let mut drive = Drive::new(me.number(), call, me.limits());
    for _ in 0..9 {
        if let Some(end) = me.hold(booked, &mut drive) {
            return Some(end);
        }
    }
    None
}

/// Makes a call with `drive`, and returns the call's end. First makes the token ready.
fn end_of<L: Ledger>(
    booked: &mut Booked<L>,
    me: &mut Caller<L, NoSide>,
    call: Call,
) -> Result<Option<End>, Refusal> {
    me.make_ready(call)?;
    Ok(drive(booked, me, call))
}

/// The entries that caller 0 has seen after `BETWEEN`.
static FIRST: [Entry; 4] = [
    Entry::Began(0, 1),
    Entry::Asked(0, Op::Put(1, 10)),
    Entry::Did(0, None),
    Entry::Committed(0, 2),
];

/// Makes the calls of `BETWEEN`, and checks their ends and what the callers have seen.
fn take_turns<L: Ledger, R: Abort>(
    rt: &R,
    booked: &mut Booked<L>,
    callers: &mut [Caller<L, NoSide>],
) -> Result<(), Fail> {
    for &(place, call, wanted) in &BETWEEN {
        let me = callers.get_mut(place).ok_or("a caller")?;
        let end = end_of(booked, me, call)?;
        assert!(rt; end == Some(wanted), "caller {place}: {call:?}");
    }
    assert!(rt; has_seen(callers, 0, FIRST.as_slice()));
    assert!(rt; has_seen(callers, 1, &HISTORY[3..8]));
    Ok(())
}

/// Keys 1 and 9 have the same stripe. Caller 0 finds the stripe's word free, and caller 1 finds
/// that the word names caller 0.
struct ByTurns;

impl Play for ByTurns {
    fn play<L: Ledger, R: Wait + Abort>(
        &self,
        rt: &R,
        alloc: Global,
        shared: Shared<L>,
        passes: Vec<Pass<L>>,
    ) -> Result<(), Fail> {
        let mut callers = callers_in(rt, alloc, passes);
        let mut booked = shared.map.into_booked();
        take_turns(rt, &mut booked, callers.as_mut_slice())
    }
}

#[test]
fn calls_by_hand(rt: HostRuntime) -> Result<(), Fail> {
    play_with(&rt, rt.alloc(), 2, &ByTurns)
}
