//! Tests at the limits of the map: stripes, callers, keys, values, savepoints and changes. They
//! also test the order of the pairs. `other_maps` plays some of the rows on other maps. Most rows
//! are made by loops, up to a hundred thousand of them. By the contracts, any call may be refused
//! memory. Here a call is refused only if its row says so.
use crate::calls::{Home, has_left, leaves, open, play, play_to_the_end};
use crate::worked::{Ask, Map, NEW, Row, Told, must_be, play_run};
use std::alloc::{AllocError, Global};
use std::process::Abort;
use std::test::Fail;
use striped_map::{Opening, Stop};
use txn_words::{Op, Refusal};

/// Opens a map with these numbers of stripes and callers, and room for this number of keys. Returns
/// the refusal, or `None` if the map is opened.
fn why_not(alloc: Global, stripes: usize, callers: usize, keys: usize) -> Option<Refusal> {
    let mut opening = Opening::new(stripes, callers);
    opening.keys = keys;
    opening.open(alloc).err()
}

/// Each row has the numbers of stripes, callers and keys. The last part is the refusal that a map
/// with these numbers gets, or `None` if it can be opened.
const ROOMS: &[(usize, usize, usize, Option<Refusal>)] = &[
    (1, 1, 0, None),
    (1, 0, 1, None),
    (1, 4096, 0, None),
    (4096, 4096, 100_000, None),
    (0, 1, 1, Some(Refusal::Limit)),
    (1, 4097, 0, Some(Refusal::Limit)),
    (4097, 1, 1, Some(Refusal::Limit)),
    (1, 4097, 18_446_744_073_709_551_615, Some(Refusal::Limit)),
    (1, 1, 18_446_744_073_709_551_615, Some(Refusal::NoMemory)),
    (1, 1, 9_223_372_036_854_775_807, Some(Refusal::NoMemory)),
    (4096, 1, 18_446_744_073_709_551_615, Some(Refusal::NoMemory)),
];

#[test]
fn room_for_keys(rt: HostRuntime) {
    for (row, &(stripes, callers, keys, wanted)) in ROOMS.iter().enumerate() {
        let found = why_not(rt.alloc(), stripes, callers, keys);
        must_be(&rt, row, &keys, &found, &wanted);
    }
}

/// The first of 4,096 callers finds a stripe held by the last.
const LAST_CALLER: &[Row] = &[
    (4095, Ask::Begin, Told::Done),
    (4095, Ask::Do(Op::Put(4095, 1)), NEW),
    (0, Ask::Begin, Told::Done),
    (0, Ask::Do(Op::Put(4094, 2)), NEW),
    (0, Ask::Do(Op::Get(8191)), Told::Busy(4095)),
    (4095, Ask::Do(Op::Get(4094)), NEW),
    (4095, Ask::Commit, Told::Number(1)),
];

#[test]
fn the_last_of_4096_callers_is_named_as_holder(rt: HostRuntime) {
    let home = &mut open(&rt, rt.alloc(), 4096, 4096);
    play_to_the_end(&rt, home, LAST_CALLER, &[(4095, 1)]);
}

/// Rows that do each operation on a key, with the values 0 and 2^64 - 1. At the end the key has the
/// value 0.
fn each_operation(key: u64) -> [Row; 11] {
    let (zero, most) = (Told::Replied(Some(0)), Told::Replied(Some(u64::MAX)));
    [
        (0, Ask::Do(Op::Get(key)), NEW),
        (0, Ask::Do(Op::Take(key)), NEW),
        (0, Ask::Do(Op::Put(key, 0)), NEW),
        (0, Ask::Do(Op::PutIf(key, None, 1)), zero),
        (0, Ask::Do(Op::PutIf(key, Some(0), u64::MAX)), zero),
        (0, Ask::Do(Op::PutIf(key, Some(0), 1)), most),
        (0, Ask::Do(Op::Get(key)), most),
        (0, Ask::Do(Op::Take(key)), most),
        (0, Ask::Do(Op::PutIf(key, Some(u64::MAX), 1)), NEW),
        (0, Ask::Do(Op::PutIf(key, None, u64::MAX)), NEW),
        (0, Ask::Do(Op::Put(key, 0)), most),
    ]
}

/// Does each operation on each of these keys, in one transaction. At the end each of them must have
/// the value 0.
pub(crate) fn play_keys<R: Abort, M: Map>(rt: &R, map: &mut M, keys: &[u64]) {
    play_run(rt, map, "begin", &[(0, Ask::Begin, Told::Done)]);
    for key in keys {
        play_run(rt, map, "each operation", &each_operation(*key));
    }
    play_run(rt, map, "commit", &[(0, Ask::Commit, Told::Number(1))]);
}

/// The keys 0, 2^63 and 2^64 - 1, with their neighbours.
pub(crate) const WIDEST: [u64; 7] = [
    0,
    1,
    9_223_372_036_854_775_807,
    9_223_372_036_854_775_808,
    9_223_372_036_854_775_809,
    18_446_744_073_709_551_614,
    18_446_744_073_709_551_615,
];

/// Does each operation on each of the widest keys.
fn play_widest<R: Abort>(rt: &R, home: &mut Home) {
    play_keys(rt, home, &WIDEST);
    leaves(rt, home, &WIDEST.map(|key| (key, 0)));
}

/// Plays the widest keys on maps with 1, 3 and 4,096 stripes.
#[test]
fn widest_keys(rt: HostRuntime) {
    for &stripes in &[1, 3, 4096usize] {
        play_widest(&rt, &mut open(&rt, rt.alloc(), stripes, 1));
    }
}

/// Sets a thousand savepoints. Before each, puts its level at key 1, and a new key.
fn save_a_thousand<R: Abort, M: Map>(rt: &R, map: &mut M) {
    for level in 1..1001u64 {
        let had = (level > 1).then_some(level - 1);
        let rows = [
            (0, Ask::Do(Op::Put(1, level)), Told::Replied(had)),
            (0, Ask::Do(Op::Put(10_000 + level, 1)), NEW),
            (0, Ask::Save, Told::Number(level)),
        ];
        play_run(rt, map, "a thousand savepoints", rows.as_slice());
    }
}

/// Rows that return to levels, and get the value of key 1 after each return.
const LEVELS: &[Row] = &[
    (0, Ask::Do(Op::Take(1)), Told::Replied(Some(1000))),
    (0, Ask::Back(1001), Told::Refused(Refusal::NoSuchLevel)),
    (0, Ask::Back(u64::MAX), Told::Refused(Refusal::NoSuchLevel)),
    (0, Ask::Do(Op::Get(1)), NEW),
    (0, Ask::Back(1000), Told::Done),
    (0, Ask::Do(Op::Get(1)), Told::Replied(Some(1000))),
    (0, Ask::Back(500), Told::Done),
    (0, Ask::Do(Op::Get(1)), Told::Replied(Some(500))),
    (0, Ask::Do(Op::Get(10_500)), Told::Replied(Some(1))),
    (0, Ask::Do(Op::Get(10_501)), NEW),
    (0, Ask::Back(501), Told::Refused(Refusal::NoSuchLevel)),
    (0, Ask::Save, Told::Number(501)),
    (0, Ask::Back(0), Told::Done),
    (0, Ask::Do(Op::Get(1)), NEW),
    (0, Ask::Do(Op::Get(10_001)), NEW),
    (0, Ask::Save, Told::Number(1)),
    (0, Ask::Commit, Told::Number(1)),
];

/// Sets a thousand savepoints, and returns to some of their levels.
pub(crate) fn play_savepoints<R: Abort, M: Map>(rt: &R, map: &mut M) {
    play_run(rt, map, "begin", &[(0, Ask::Begin, Told::Done)]);
    save_a_thousand(rt, map);
    play_run(rt, map, "levels", LEVELS);
}

#[test]
fn a_thousand_savepoints(rt: HostRuntime) {
    play_savepoints(&rt, &mut open(&rt, rt.alloc(), 1, 1));
}

/// Puts two pairs. Their keys are among the hundred thousand keys that are put later.
const FEW: &[Row] = &[
    (0, Ask::Begin, Told::Done),
    (0, Ask::Do(Op::Put(7, 70)), NEW),
    (0, Ask::Do(Op::Put(99_999, 9)), NEW),
    (0, Ask::Len, Told::Number(2)),
    (0, Ask::Commit, Told::Number(1)),
];

/// Begins a transaction, and puts the value `key + 1` at each key below 100,000.
fn put_100_000<R: Abort>(rt: &R, home: &mut Home) {
    play(rt, home, &[(0, Ask::Begin, Told::Done)]);
    for key in 0..100_000u64 {
        let had = match key {
            7 => Some(70),
            99_999 => Some(9),
            _ => None,
        };
        let row = (0, Ask::Do(Op::Put(key, key + 1)), Told::Replied(had));
        play(rt, home, &[row]);
    }
}

/// Aborts the puts of `put_100_000`. After the abort, only the pairs of `FEW` are there.
const PUTS_TAKEN_BACK: &[Row] = &[
    (0, Ask::Len, Told::Number(100_000)),
    (0, Ask::Abort, Told::Done),
    (0, Ask::Begin, Told::Done),
    (0, Ask::Len, Told::Number(2)),
    (0, Ask::Do(Op::Get(0)), NEW),
    (0, Ask::Do(Op::Get(7)), Told::Replied(Some(70))),
    (0, Ask::Do(Op::Get(99_999)), Told::Replied(Some(9))),
    (0, Ask::Abort, Told::Done),
];

/// Commits the puts of `put_100_000`. After the commit, all keys are there.
const PUTS_COMMITTED: &[Row] = &[
    (0, Ask::Commit, Told::Number(2)),
    (0, Ask::Begin, Told::Done),
    (0, Ask::Len, Told::Number(100_000)),
    (0, Ask::Do(Op::Get(0)), Told::Replied(Some(1))),
    (0, Ask::Do(Op::Get(7)), Told::Replied(Some(8))),
    (0, Ask::Do(Op::Get(49_999)), Told::Replied(Some(50_000))),
    (0, Ask::Do(Op::Get(99_999)), Told::Replied(Some(100_000))),
    (0, Ask::Do(Op::Get(100_000)), NEW),
    (0, Ask::Commit, Told::Number(3)),
];

/// Puts all keys, aborts, puts all keys once more, and commits.
fn play_puts<R: Abort>(rt: &R, home: &mut Home) {
    play(rt, home, FEW);
    put_100_000(rt, home);
    play(rt, home, PUTS_TAKEN_BACK);
    has_left(rt, &mut home.host, &[(7, 70), (99_999, 9)]);
    put_100_000(rt, home);
    play(rt, home, PUTS_COMMITTED);
}

/// One transaction makes a hundred thousand puts and aborts. The next one makes the same puts and
/// commits. The maps have 1 and 4,096 stripes.
#[test]
fn a_hundred_thousand_puts(rt: HostRuntime) {
    for &stripes in &[1, 4096usize] {
        play_puts(&rt, &mut open(&rt, rt.alloc(), stripes, 1));
    }
}

/// Puts 202 keys in an order that looks random: the lowest 101 and the highest 101. The value of
/// each low key is twice the key.
fn put_scattered<R: Abort>(rt: &R, home: &mut Home) {
    play(rt, home, &[(0, Ask::Begin, Told::Done)]);
    for place in 0..101u64 {
        let key = place * 37 % 101;
        let rows = [
            (0, Ask::Do(Op::Put(u64::MAX - key, key)), NEW),
            (0, Ask::Do(Op::Put(key, 2 * key)), NEW),
        ];
        play(rt, home, rows.as_slice());
    }
}

/// The pairs of `put_scattered`, in the order of their keys.
fn rising(alloc: Global) -> Result<Vec<(u64, u64)>, AllocError> {
    let mut pairs = Vec::new(alloc);
    for key in 0..101u64 {
        pairs.push((key, 2 * key))?;
    }
    for key in 0..101u64 {
        pairs.push((u64::MAX - 100 + key, 100 - key))?;
    }
    Ok(pairs)
}

/// Checks that the first caller reads exactly the pairs `wanted`, in this order.
fn sees<R: Abort>(rt: &R, home: &mut Home, wanted: &[(u64, u64)]) {
    assert!(rt; 0 < home.callers.len());
    let is_seen = match home.callers[0].pairs() {
        Ok(pairs) => pairs.as_slice() == wanted,
        Err(_) => false,
    };
    assert!(rt; is_seen);
}

/// Checks that the first caller reads the same pairs stripe by stripe: each once, by rising keys in
/// each stripe, and each in the stripe of its key.
fn sees_by_stripes<R: Abort>(rt: &R, home: &mut Home, wanted: &[(u64, u64)], stripes: u64) {
    assert!(rt; 0 < home.callers.len());
    let mut left = wanted.len();
    for stripe in 0..stripes {
        let found = home.callers[0].pairs_with(stripe);
        left = left.saturating_sub(all_of(rt, found, wanted, stripe, stripes));
    }
    assert!(rt; left == 0);
}

/// Checks that these are the wanted pairs in this stripe. Returns their number.
fn all_of<R: Abort>(
    rt: &R,
    found: Result<Vec<(u64, u64)>, Stop>,
    wanted: &[(u64, u64)],
    stripe: u64,
    stripes: u64,
) -> usize {
    let mut number = 0;
    if let Ok(pairs) = found {
        for &pair in wanted {
            if pair.0.checked_rem(stripes) == Some(stripe) {
                assert!(rt; pairs.get(number) == Some(&pair));
                number = number.saturating_add(1);
            }
        }
        assert!(rt; pairs.len() == number);
    }
    number
}

/// Puts the pairs. The caller sees them before the commit, and the host after it.
fn play_scattered<R: Abort>(rt: &R, home: &mut Home, wanted: &[(u64, u64)], stripes: usize) {
    put_scattered(rt, home);
    sees_by_stripes(rt, home, wanted, stripes as u64);
    sees(rt, home, wanted);
    play(rt, home, &[(0, Ask::Commit, Told::Number(1))]);
    has_left(rt, &mut home.host, wanted);
}

/// A read of all pairs returns them in the order of their keys, on any number of stripes. So does a
/// read of each stripe.
#[test]
fn pairs_rise(rt: HostRuntime) -> Result<(), Fail> {
    let wanted = rising(rt.alloc())?;
    for &stripes in &[1, 7, 64, 4096usize] {
        let home = &mut open(&rt, rt.alloc(), stripes, 1);
        play_scattered(&rt, home, wanted.as_slice(), stripes);
    }
    Ok(())
}
