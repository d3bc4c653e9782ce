//! Calls that are made in the order of a table. Each call must have the end in the table. No
//! contract says that a call gets memory as long as memory is free, or that `help` grows the table
//! of the map. The ends were worked out by hand. `by_hand`, `cores`, `refused` and `threads` also
//! play rows. `runs` of `striped_tests` has the worked runs of this map.
use super::cores::step;
use crate::devices::{
    Play, Shared, callers_in, close, close_or_miss, closed_of, has_seen, is_history, is_settled,
    number_of, play_with, run, seen_by,
};
use boost_core::{Call, Core, End};
use locked_map::{Caller, Closed, NoSide, Pass, Stop};
use std::alloc::Global;
use std::process::Abort;
use std::sync::Wait;
use std::sync::ledger::Ledger;
use std::test::Fail;
use txn_words::{Answer, Entry, Op, Step};

/// Each row has the position of a caller, its call, and the end that the call must have.
pub(super) type Row = (usize, Call, End);

/// The end of an operation on a key that has no value.
pub(super) const DONE: End = End::Answered(Answer::Done(None));

/// The end of an operation on a key with the value 10.
pub(super) const HAD: End = End::Answered(Answer::Done(Some(10)));

/// Makes the calls of the rows, in order. Each call must have the row's end.
pub(super) fn play_rows<L: Ledger, R: Wait + Abort>(
    rt: &R,
    shared: &Shared<L>,
    callers: &mut [Caller<L, NoSide>],
    rows: &[Row],
) {
    for &(place, call, wanted) in rows {
        assert!(rt; place < callers.len());
        play_row(rt, shared, &mut callers[place], call, wanted);
    }
}

/// Makes the call of a row. The call must have the end `wanted`.
pub(super) fn play_row<L: Ledger, R: Wait + Abort>(
    rt: &R,
    shared: &Shared<L>,
    me: &mut Caller<L, NoSide>,
    call: Call,
    wanted: End,
) {
    let end = match call {
        Call::Help(key) => help(rt, shared, me, key),
        _ => run(rt, shared, me, call),
    };
    assert_eq!(rt; end, wanted, "caller {}: {call:?}", number_of(me));
}

/// Helps by the method `help`. `runs` of `striped_tests` calls the other methods.
fn help<L: Ledger, R: Wait>(
    rt: &R,
    shared: &Shared<L>,
    me: &mut Caller<L, NoSide>,
    key: u64,
) -> End {
    match shared.map.help(rt, me, key) {
        Ok(()) => End::Helped,
        Err(Stop::Busy { holder }) => End::Busy(holder),
        Err(Stop::Refused(refusal)) => End::Refused(refusal),
    }
}

/// Tries to close a map with caller 1 alone. This must return the map and caller 1, since caller 0
/// is missing. Then closes the map with both callers.
fn close_missing_caller<L: Ledger, R: Abort>(
    rt: &R,
    alloc: Global,
    shared: Shared<L>,
    mut callers: Vec<Caller<L, NoSide>>,
) -> Result<Closed<L, NoSide>, Fail> {
    let mut alone = Vec::new(alloc);
    alone.push(callers.pop().ok_or("caller 1")?)?;
    let Err(Some((shared, mut alone))) = close_or_miss(shared, alone) else {
        return Err("caller 0 is missing".into());
    };
    assert_eq!(rt; alone.len(), 1);
    let second = alone.pop().ok_or("caller 1 comes back")?;
    assert_eq!(rt; second.number(), 1);
    callers.push(second)?;
    close(shared, callers)
}

/// Caller 1 finds caller 0's stripe held, with its second call. It begins again, and both commit.
pub(super) const BETWEEN: [Row; 7] = [
    (0, Call::Begin, End::Answered(Answer::Began(1))),
    (0, Call::Op(Op::Put(1, 10)), DONE),
    (1, Call::Begin, End::Answered(Answer::Began(2))),
    (1, Call::Op(Op::Get(9)), End::Busy(0)),
    (1, Call::Begin, End::Answered(Answer::Began(3))),
    (1, Call::Commit, End::Answered(Answer::Committed(1))),
    (0, Call::Commit, End::Answered(Answer::Committed(2))),
];

/// The whole history. Caller 1 has seen the entries from index 3 to index 7.
pub(super) static HISTORY: [Entry; 9] = [
    Entry::Began(0, 1),
    Entry::Asked(0, Op::Put(1, 10)),
    Entry::Did(0, None),
    Entry::Began(1, 2),
    Entry::Busy(1, Op::Get(9), 0),
    Entry::Aborted(1),
    Entry::Began(1, 3),
    Entry::Committed(1, 1),
    Entry::Committed(0, 2),
];

/// Makes the calls of both callers.
fn play_between<L: Ledger, R: Wait + Abort>(
    rt: &R,
    shared: &Shared<L>,
    callers: &mut [Caller<L, NoSide>],
) {
    play_rows(rt, shared, callers, &BETWEEN[..4]);
    assert!(rt; has_seen(callers, 1, &HISTORY[3..6]));
    play_rows(rt, shared, callers, &BETWEEN[4..]);
}

struct BusyBetween;

impl Play for BusyBetween {
    fn play<L: Ledger, R: Wait + Abort>(
        &self,
        rt: &R,
        alloc: Global,
        shared: Shared<L>,
        passes: Vec<Pass<L>>,
    ) -> Result<(), Fail> {
        let mut callers = callers_in(rt, alloc, passes);
        play_between(rt, &shared, callers.as_mut_slice());
        match close_missing_caller(rt, alloc, shared, callers) {
            Ok(closed) => {
                counted_entries(rt, &closed);
                Ok(())
            }
            Err(fail) => Err(fail),
        }
    }
}

/// Checks that the history is `HISTORY`, that caller 0 saw four of its nine entries, and that
/// caller 1 saw the other five.
fn counted_entries<L: Ledger, R: Abort>(rt: &R, closed: &Closed<L, NoSide>) {
    assert!(rt; is_history(closed.core.trace(), HISTORY.as_slice()));
    assert_eq!(rt; closed.callers.len(), 2);
    for (place, count) in [(0, 4), (1, 5)] {
        let me = figures_of(closed.callers.as_slice(), place);
        assert_eq!(rt; me, Some((place as u64, count)));
    }
}

/// The number of the caller at a position, and the number of entries that it has seen.
fn figures_of<L: Ledger>(callers: &[Caller<L, NoSide>], place: usize) -> Option<(u64, usize)> {
    let me = callers.get(place)?;
    Some((number_of(me), seen_by(me)))
}

/// Caller 1 finds a stripe held by caller 0, begins again, and commits before caller 0. The map
/// then does not close without caller 0, and closes with both callers (see `close_missing_caller`
/// and `counted_entries`).
#[test]
fn busy_between_callers(rt: HostRuntime) -> Result<(), Fail> {
    play_with(&rt, rt.alloc(), 2, &BusyBetween)
}

/// Each value has the calls of a test, and the state of the core after the map is closed. `size` is
/// the number of the core's buckets. `list` has the core's keys with their values, in the order of
/// its list. `seeks` has the core's answers to a helper that seeks the position of a bucket's dummy
/// node.
#[derive(Drop)]
struct Worked {
    rows: &'static [Row],
    size: u32,
    list: &'static [(u64, u64)],
    seeks: &'static [(u64, Answer)],
}

/// Checks that the core of the closed map has a legal history, and the state that `worked` gives.
fn is_left<R: Abort>(rt: &R, alloc: Global, core: &mut Core, worked: &Worked) -> Result<(), Fail> {
    assert!(rt; is_settled(alloc, core.trace(), 8)?);
    assert!(rt; core.regular_list(alloc)?.as_slice() == worked.list);
    assert_eq!(rt; core.size(), worked.size);
    for &(bucket, wanted) in worked.seeks {
        let answer = step(core, Step::InitSeek(0, bucket));
        assert!(rt; answer == Some(wanted), "bucket {bucket}");
    }
    Ok(())
}

impl Play for Worked {
    fn play<L: Ledger, R: Wait + Abort>(
        &self,
        rt: &R,
        alloc: Global,
        shared: Shared<L>,
        passes: Vec<Pass<L>>,
    ) -> Result<(), Fail> {
        let mut callers = callers_in(rt, alloc, passes);
        play_rows(rt, &shared, callers.as_mut_slice(), self.rows);
        let mut closed = closed_of(rt, shared, callers);
        is_left(rt, alloc, &mut closed.core, self)
    }
}

static HELP_GROWS: Worked = Worked {
    rows: &[
        (0, Call::Begin, End::Answered(Answer::Began(1))),
        (0, Call::Op(Op::Put(1, 1)), DONE),
        (0, Call::Op(Op::Put(2, 2)), DONE),
        (0, Call::Op(Op::Put(3, 3)), DONE),
        (0, Call::Op(Op::Put(4, 4)), DONE),
        (0, Call::Op(Op::Put(5, 5)), DONE),
        (0, Call::Help(3), End::Helped),
        (0, Call::Commit, End::Answered(Answer::Committed(1))),
    ],
    size: 4,
    list: &[(4, 4), (2, 2), (1, 1), (5, 5), (3, 3)],
    seeks: &[(3, Answer::Ready), (2, Answer::Placed)],
};

/// A `help` that does nothing would meet its contract, but it fails this test.
#[test]
fn help_grows(rt: HostRuntime) -> Result<(), Fail> {
    play_with(&rt, rt.alloc(), 2, &HELP_GROWS)
}

static KEYS_OF_64_BITS: Worked = Worked {
    rows: &[
        (0, Call::Begin, End::Answered(Answer::Began(1))),
        (0, Call::Op(Op::Put(9_223_372_036_854_775_809, 11)), DONE),
        (0, Call::Op(Op::Put(1, 10)), DONE),
        (0, Call::Op(Op::PutIf(1, None, 12)), HAD),
        (0, Call::Op(Op::PutIf(1, Some(10), 12)), HAD),
        (0, Call::Op(Op::PutIf(2, None, 20)), DONE),
        (0, Call::Op(Op::PutIf(3, Some(5), 6)), DONE),
        (0, Call::Op(Op::Put(u64::MAX, 7)), DONE),
        (0, Call::Commit, End::Answered(Answer::Committed(1))),
    ],
    size: 2,
    list: &[
        (2, 20),
        (1, 12),
        (9_223_372_036_854_775_809, 11),
        (18_446_744_073_709_551_615, 7),
    ],
    seeks: &[],
};

/// Puts two keys that have the same split key, and makes conditional puts.
#[test]
fn keys_of_64_bits(rt: HostRuntime) -> Result<(), Fail> {
    play_with(&rt, rt.alloc(), 2, &KEYS_OF_64_BITS)
}
