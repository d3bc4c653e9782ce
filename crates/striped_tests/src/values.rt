//! Tests of `Transaction`: each call, each way to end a transaction, and a drop after any number of
//! calls; and of the calls of a caller that only the striped map has. The values of each row were
//! worked out by hand. `drops` makes the same calls by a caller.
use crate::calls::{Home, Line, leaves, open, play, play_to_the_end};
use crate::worked::{Ask, Map, NEW, NOT_OPEN, Row, Told, must_be, told_of};
use std::process::Abort;
use striped_map::{Caller, Stop, Transaction};
use txn_words::Op;

/// Does an operation.
fn operate(t: &mut Transaction<'_>, op: Op) -> Result<Told, Stop> {
    Ok(Told::Replied(match op {
        Op::Put(key, value) => t.put(key, value)?,
        Op::Take(key) => t.take(key)?,
        Op::Get(key) => t.get(key)?,
        Op::PutIf(key, expected, value) => t.put_if(key, expected, value)?,
    }))
}

/// Makes a call of a transaction.
fn make_call(t: &mut Transaction<'_>, what: Ask) -> Result<Told, Stop> {
    match what {
        Ask::Do(op) => operate(t, op),
        Ask::Has(key) => Ok(Told::Is(t.contains_key(key)?)),
        Ask::Swap(key, expected, value) => Ok(Told::Is(t.swap(key, expected, value)?.0)),
        Ask::Save => Ok(Told::Number(t.save()?)),
        Ask::Back(level) => {
            t.back(level)?;
            Ok(Told::Done)
        }
        Ask::Len => Ok(Told::Number(t.len()?)),
        Ask::Empty => Ok(Told::Is(t.is_empty()?)),
        Ask::Pairs => Ok(Told::Number(t.pairs()?.len() as u64)),
        Ask::PairsWith(key) => Ok(Told::Number(t.pairs_with(key)?.len() as u64)),
        Ask::Begin | Ask::Commit | Ask::Abort => Ok(Told::Unknown),
    }
}

/// Each row has a call and its answer. The map has the pair (1, 5) at first. `Empty`, `Len` and
/// `Pairs` take every stripe.
pub(crate) const CALLS: &[Line] = &[
    (Ask::Do(Op::Get(1)), Told::Replied(Some(5))),
    (Ask::Has(1), Told::Is(true)),
    (Ask::Has(2), Told::Is(false)),
    (Ask::Swap(1, None, 6), Told::Is(false)),
    (Ask::Swap(1, Some(6), 7), Told::Is(false)),
    (Ask::Swap(1, Some(5), 8), Told::Is(true)),
    (Ask::Swap(2, Some(5), 9), Told::Is(false)),
    (Ask::Swap(2, None, 20), Told::Is(true)),
    (Ask::Do(Op::Put(3, 30)), NEW),
    (Ask::PairsWith(7), Told::Number(1)),
    (Ask::Save, Told::Number(1)),
    (Ask::Do(Op::Take(1)), Told::Replied(Some(8))),
    (Ask::Do(Op::PutIf(2, Some(20), 21)), Told::Replied(Some(20))),
    (Ask::Do(Op::Take(2)), Told::Replied(Some(21))),
    (Ask::Do(Op::Take(3)), Told::Replied(Some(30))),
    (Ask::Empty, Told::Is(true)),
    (Ask::Back(1), Told::Done),
    (Ask::Empty, Told::Is(false)),
    (Ask::Len, Told::Number(3)),
    (Ask::Pairs, Told::Number(3)),
];

/// Makes the calls of the table on a transaction. Each must get the answer of its line.
fn ask_all<R: Abort>(rt: &R, t: &mut Transaction<'_>, lines: &[Line]) {
    for (line, &(what, due)) in lines.iter().enumerate() {
        must_be(
            rt,
            line,
            &what,
            &told_of(make_call(t, what), Home::FIRST),
            &due,
        );
    }
}

/// Commits or aborts a transaction, or drops it if there is no request.
fn end_so(t: Transaction<'_>, end: Option<Ask>) -> Result<Told, Stop> {
    match end {
        Some(Ask::Commit) => return Ok(t.commit()?.map_or(Told::Done, Told::Number)),
        Some(_) => t.abort(),
        None => drop(t),
    }
    Ok(Told::Done)
}

/// Begins a transaction, makes the calls of the table, and ends the transaction.
fn play_value<R: Abort>(
    rt: &R,
    caller: &mut Caller,
    lines: &[Line],
    end: Option<Ask>,
) -> Result<Told, Stop> {
    let mut t = Transaction::begin(caller)?;
    ask_all(rt, &mut t, lines);
    end_so(t, end)
}

/// Caller 1 puts the pair (1, 5), and holds its stripe.
pub(crate) const HOLDS: &[Row] = &[
    (0, Ask::Begin, Told::Done),
    (0, Ask::Do(Op::Put(1, 5)), NEW),
];

/// Caller 1 commits the pair, which frees the stripe.
pub(crate) const LETS_GO: &[Row] = &[(0, Ask::Commit, Told::Number(1))];

/// After caller 2's transaction, caller 1 finds (1, 5) as the only pair. No stripe is held.
pub(crate) const AFTER: &[Row] = &[
    (0, Ask::Begin, Told::Done),
    (0, Ask::Len, Told::Number(1)),
    (0, Ask::Do(Op::Get(1)), Told::Replied(Some(5))),
    (0, Ask::Commit, Told::Number(2)),
];

/// Caller 2 begins a transaction, makes the calls of the lines, and ends the transaction. The
/// answer to the end must be `due`.
fn play_second<R: Abort>(rt: &R, home: &mut Home, lines: &[Line], end: Option<Ask>, due: Told) {
    assert!(rt; 1 < home.callers.len());
    let ended = play_value(rt, &mut home.callers[1], lines, end);
    must_be(rt, lines.len(), &end, &told_of(ended, Home::FIRST), &due);
}

/// Caller 2 makes the first `calls` calls of `CALLS`. Then its transaction ends with `end`, which
/// takes the changes of these calls back.
fn taken_back<R: Abort>(rt: &R, home: &mut Home, calls: usize, end: Option<Ask>) {
    play(rt, home, HOLDS);
    play(rt, home, LETS_GO);
    assert!(rt; calls <= CALLS.len());
    play_second(rt, home, &CALLS[..calls], end, Told::Done);
    play(rt, home, AFTER);
    leaves(rt, home, &[(1, 5)]);
}

#[test]
fn a_drop_at_any_point_takes_every_change_back(rt: HostRuntime) {
    for calls in 0..21usize {
        taken_back(&rt, &mut open(&rt, rt.alloc(), 4, 2), calls, None);
    }
}

#[test]
fn an_abort_takes_every_change_back(rt: HostRuntime) {
    taken_back(&rt, &mut open(&rt, rt.alloc(), 4, 2), 20, Some(Ask::Abort));
}

/// Caller 2 makes all calls of `CALLS` and commits. The pairs that remain are checked.
fn play_committed<R: Abort>(rt: &R, home: &mut Home) {
    play(rt, home, HOLDS);
    play(rt, home, LETS_GO);
    play_second(rt, home, CALLS, Some(Ask::Commit), Told::Number(2));
    leaves(rt, home, &[(1, 8), (2, 20), (3, 30)]);
}

#[test]
fn a_commit_keeps_every_change(rt: HostRuntime) {
    play_committed(&rt, &mut open(&rt, rt.alloc(), 4, 2));
}

/// Caller 2 finds the stripe of key 1 held, so its transaction is over: the `Transaction` refuses
/// the next call, and can only be ended.
const BUSY: &[Line] = &[
    (Ask::Do(Op::Put(2, 20)), NEW),
    (Ask::Has(1), Told::Busy(0)),
    (Ask::Has(2), NOT_OPEN),
];

/// Caller 2 plays `BUSY` while caller 1 holds the stripe of key 1. Then caller 1 commits.
fn play_busy<R: Abort>(rt: &R, home: &mut Home) {
    play(rt, home, HOLDS);
    play_second(rt, home, BUSY, Some(Ask::Commit), NOT_OPEN);
    play_second(rt, home, BUSY, Some(Ask::Abort), Told::Done);
    play(rt, home, LETS_GO);
    play(rt, home, AFTER);
    leaves(rt, home, &[(1, 5)]);
}

#[test]
fn a_busy_transaction_is_over(rt: HostRuntime) {
    play_busy(&rt, &mut open(&rt, rt.alloc(), 4, 2));
}

/// A caller looks at the map and swaps, in two transactions. Only the first swap puts a value.
const LOOKS: &[Row] = &[
    (0, Ask::Begin, Told::Done),
    (0, Ask::Empty, Told::Is(true)),
    (0, Ask::Has(1), Told::Is(false)),
    (0, Ask::Swap(1, None, 6), Told::Is(true)),
    (0, Ask::Swap(1, None, 7), Told::Is(false)),
    (0, Ask::Pairs, Told::Number(1)),
    (0, Ask::Commit, Told::Number(1)),
    (0, Ask::Begin, Told::Done),
    (0, Ask::Empty, Told::Is(false)),
    (0, Ask::Has(1), Told::Is(true)),
    (0, Ask::Swap(1, None, 6), Told::Is(false)),
    (0, Ask::Swap(1, Some(7), 8), Told::Is(false)),
    (0, Ask::PairsWith(5), Told::Number(1)),
    (0, Ask::PairsWith(2), Told::Number(0)),
    (0, Ask::Commit, Told::Number(2)),
];

#[test]
fn a_caller_looks_and_swaps_as_its_transaction_does(rt: HostRuntime) {
    let home = &mut open(&rt, rt.alloc(), 4, 1);
    play_to_the_end(&rt, home, LOOKS, &[(1, 6)]);
}
