//! Tests of the state after calls that are refused memory. `tests/refused.sh` refuses the
//! memory. Without this script, the tests are plain worked runs, whose ends were worked out by
//! hand. No contract says that a refused call leaves its caller unchanged, or that a call gets
//! memory as long as memory is free.
use super::rows::{BETWEEN, DONE, HAD, Row};
use crate::devices::{
    Play, Shared, TRIES, callers_of, closed_of, has_left, is_refused, play_where_made, run, seen_by,
};
use boost_core::{Call, Core, End};
use locked_map::{Caller, NoSide, Pass};
use std::alloc::Global;
use std::process::Abort;
use std::sync::Wait;
use std::sync::ledger::Ledger;
use std::test::Fail;
use txn_words::{Answer, Op, Refusal};

/// Makes a call, and makes it again while it is refused memory, `TRIES` times in all. Returns the
/// end of the last try. Checks that a try that is refused memory does not change the number of
/// entries that the caller has seen.
fn end_of<L: Ledger, R: Wait + Abort>(
    rt: &R,
    shared: &Shared<L>,
    me: &mut Caller<L, NoSide>,
    call: Call,
) -> End {
    let before = seen_by(me);
    for _ in 0..TRIES {
        let end = run(rt, shared, me, call);
        if end != End::Refused(Refusal::NoMemory) {
            return end;
        }
        assert_eq!(rt; seen_by(me), before);
    }
    End::Refused(Refusal::NoMemory)
}

/// Makes the calls, and stops at the first one that is refused memory in all of `TRIES` tries.
/// Returns false if there is such a call.
fn is_whole<L: Ledger, R: Wait + Abort>(
    rt: &R,
    alloc: Global,
    shared: &Shared<L>,
    callers: &mut [Caller<L, NoSide>],
    calls: &[Row],
) -> bool {
    for &(place, call, wanted) in calls {
        assert!(rt; place < callers.len());
        let end = end_of(rt, shared, &mut callers[place], call);
        if end == End::Refused(Refusal::NoMemory) {
            assert!(rt; is_refused(alloc));
            return false;
        }
        assert_eq!(rt; end, wanted, "caller {place}: {call:?}");
    }
    true
}

/// Aborts the transaction of each caller that has one. This needs no memory.
fn give_up<L: Ledger, R: Wait + Abort>(
    rt: &R,
    shared: &Shared<L>,
    callers: &mut [Caller<L, NoSide>],
) {
    for me in callers {
        let end = run(rt, shared, me, Call::Abort);
        assert!(rt;
            matches!(
                end,
                End::Answered(Answer::Aborted) | End::Refused(Refusal::NotOpen)
            ),
            "{end:?}"
        );
    }
}

/// A test that makes the calls, and stops at the first one that is refused memory in all tries. The
/// ends of the rows are those for which there is memory. Then all callers abort. If a call was
/// refused memory, the closed map has no key. Otherwise the map has one key, and its history has
/// `entries` entries.
#[derive(Drop)]
struct Refused {
    calls: &'static [Row],
    entries: usize,
}

/// Checks the core of the closed map. If `is_whole`, it must have one key, and `entries` entries in
/// its history. Otherwise it must have no key.
fn is_left<R: Abort>(rt: &R, alloc: Global, core: &Core, is_whole: bool, entries: usize) {
    assert!(rt; has_left(rt, alloc, core, u64::from(is_whole)));
    assert!(rt; !is_whole || core.trace().len() == entries);
}

impl Play for Refused {
    fn play<L: Ledger, R: Wait + Abort>(
        &self,
        rt: &R,
        alloc: Global,
        shared: Shared<L>,
        passes: Vec<Pass<L>>,
    ) -> Result<(), Fail> {
        let Ok(mut callers) = callers_of(alloc, passes) else {
            assert!(rt; is_refused(alloc));
            return Ok(());
        };
        let whole = is_whole(rt, alloc, &shared, callers.as_mut_slice(), self.calls);
        give_up(rt, &shared, callers.as_mut_slice());
        let closed = closed_of(rt, shared, callers);
        is_left(rt, alloc, &closed.core, whole, self.entries);
        Ok(())
    }
}

/// The calls of `busy_between_callers`.
static BETWEEN_CALLERS: Refused = Refused {
    calls: &BETWEEN,
    entries: 9,
};

#[test]
fn refused_memory_between_callers(rt: HostRuntime) -> Result<(), Fail> {
    play_where_made(&rt, rt.alloc(), 2, &BETWEEN_CALLERS)
}

/// Rows with each kind of call. One of them is a help that doubles the table and stores buckets.
static EACH_CALL: Refused = Refused {
    calls: &[
        (0, Call::Begin, End::Answered(Answer::Began(1))),
        (0, Call::Op(Op::PutIf(1, None, 10)), DONE),
        (0, Call::Save, End::Answered(Answer::Saved(1))),
        (0, Call::Op(Op::Put(2, 20)), DONE),
        (0, Call::Op(Op::Put(3, 30)), DONE),
        (0, Call::Op(Op::Put(4, 40)), DONE),
        (0, Call::Op(Op::Put(5, 50)), DONE),
        (1, Call::Help(3), End::Helped),
        (0, Call::Op(Op::Take(1)), HAD),
        (0, Call::Back(1), End::Answered(Answer::Returned(1))),
        (0, Call::Op(Op::Get(1)), HAD),
        (0, Call::Commit, End::Answered(Answer::Committed(1))),
    ],
    entries: 24,
};

#[test]
fn refused_memory_in_each_call(rt: HostRuntime) -> Result<(), Fail> {
    play_where_made(&rt, rt.alloc(), 2, &EACH_CALL)
}
