//! Tests of `Caller::run`: operations that are done, a stripe that another caller holds, a caller
//! that is in a transaction, and a `PutIf` that ends the run, as the first or the last operation.
use crate::calls::{Home, leaves, open};
use std::alloc::Global;
use std::process::Abort;
use std::test::Fail;
use striped_map::{Caller, RunEnd, Stop};
use txn_words::{Op, Refusal, Reply};

/// A run: its operations, whether a `PutIf` may end it, its answer, and its replies.
type Row<'a> = (&'a [Op], bool, Result<RunEnd, Stop>, &'a [Reply]);

/// The answer of a run that was committed at this place.
fn at(place: u64) -> Result<RunEnd, Stop> {
    Ok(RunEnd::Committed(Some(place)))
}

const MISSED: Result<RunEnd, Stop> = Ok(RunEnd::Missed);

/// Makes the run of this row.
fn runs<R: Abort>(rt: &R, caller: &mut Caller, replies: &mut Vec<Reply>, row: Row<'_>) {
    let (ops, strict, wanted, given) = row;
    let found = caller.run(ops, strict, replies);
    assert!(rt; found == wanted && replies.as_slice() == given);
}

/// The first caller runs operations. The map then has the pair (1, 5).
fn put_first<R: Abort>(rt: &R, first: &mut Caller, replies: &mut Vec<Reply>) {
    let ops = [Op::Put(1, 5), Op::Get(1), Op::Take(2)];
    let row = (
        ops.as_slice(),
        false,
        at(1),
        [None, Some(5), None].as_slice(),
    );
    runs(rt, first, replies, row);
}

/// The second caller holds the stripe of key 1 while the first runs.
fn meet<R: Abort>(rt: &R, first: &mut Caller, second: &mut Caller, replies: &mut Vec<Reply>) {
    assert!(rt; second.begin().is_ok() && second.get(1) == Ok(Some(5)));
    let ops = [Op::Put(2, 7), Op::Put(1, 6)];
    let busy = (
        ops.as_slice(),
        true,
        Err(Stop::Busy { holder: 2 }),
        [None].as_slice(),
    );
    runs(rt, first, replies, busy);
    let already_open = Err(Stop::Refused(Refusal::AlreadyOpen));
    runs(rt, second, replies, (&[], false, already_open, &[None]));
    assert!(rt; second.commit() == Ok(Some(2)));
}

/// Runs that nobody meets. The map has the pair (1, 5) before and after them.
fn run_rows<R: Abort>(rt: &R, caller: &mut Caller, replies: &mut Vec<Reply>) {
    let rows: [Row<'_>; 4] = [
        (
            &[
                Op::PutIf(2, None, 7),
                Op::PutIf(1, Some(5), 6),
                Op::PutIf(1, Some(5), 8),
            ],
            true,
            MISSED,
            &[None, Some(5), Some(6)],
        ),
        (
            &[Op::PutIf(1, None, 6), Op::Put(1, 7)],
            true,
            MISSED,
            &[Some(5)],
        ),
        (
            &[Op::PutIf(2, Some(1), 7), Op::PutIf(1, None, 6), Op::Get(1)],
            false,
            at(3),
            &[None, Some(5), Some(5)],
        ),
        (&[], true, at(4), &[]),
    ];
    for row in rows {
        runs(rt, caller, replies, row);
    }
}

fn meet_in<R: Abort>(rt: &R, alloc: Global, home: &mut Home) {
    let replies = &mut Vec::new(alloc);
    if let [first, second] = home.callers.as_mut_slice() {
        put_first(rt, first, replies);
        meet(rt, first, second, replies);
        run_rows(rt, first, replies);
    }
    leaves(rt, home, &[(1, 5)]);
}

#[test]
fn whole_transactions_at_once(rt: HostRuntime) -> Result<(), Fail> {
    meet_in(&rt, rt.alloc(), &mut open(&rt, rt.alloc(), 4, 2));
    Ok(())
}
