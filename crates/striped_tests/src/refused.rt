//! In these tests memory is refused to calls. A refused call is made once more, and must then
//! answer as if nothing had been refused. A call that is refused twice ends the test with that
//! error. `tests/refused.sh` refuses the memory. Without this script, the tests are plain
//! worked runs.
use crate::calls::{Home, answer, counted, reads};
use crate::worked::{Ask, NEW, Row, Told, must_be};
use std::alloc::Global;
use std::process::Abort;
use std::test::Fail;
use striped_map::{Caller, Host, Opening, Stop};
use txn_words::{Op, Refusal};

/// Opens a map. Tries once more if memory is refused.
fn open_again(alloc: Global, opening: Opening) -> Result<Home, Refusal> {
    for _ in 0..2u64 {
        match opening.open(alloc) {
            Ok((host, callers)) => return Ok(Home { host, callers }),
            Err(Refusal::NoMemory) => {}
            Err(refusal) => return Err(refusal),
        }
    }
    Err(Refusal::NoMemory)
}

/// Makes a call, and makes it once more if it is refused memory.
fn answer_again(caller: &mut Caller, what: Ask) -> Result<Told, Refusal> {
    for _ in 0..2u64 {
        let told = answer(caller, what);
        if told != Told::Refused(Refusal::NoMemory) {
            return Ok(told);
        }
    }
    Err(Refusal::NoMemory)
}

/// Makes the call of each row, in order. A call that is refused memory is made once more. Its
/// answer must then be the row's answer.
fn play_again<R: Abort>(rt: &R, home: &mut Home, rows: &[Row]) -> Result<(), Refusal> {
    for (row, &(place, what, wanted)) in rows.iter().enumerate() {
        assert!(rt; place < home.callers.len());
        let told = answer_again(&mut home.callers[place], what)?;
        must_be(rt, row, &what, &told, &wanted);
    }
    Ok(())
}

/// Checks that the host reads exactly the pairs `left`. If the read is refused memory, makes it
/// once more.
fn has_left_again<R: Abort>(rt: &R, host: &mut Host, left: &[(u64, u64)]) -> Result<(), Refusal> {
    for _ in 0..2u64 {
        let is_left = reads(host, left);
        if is_left != Err(Stop::Refused(Refusal::NoMemory)) {
            assert!(rt; is_left == Ok(true));
            return Ok(());
        }
    }
    Err(Refusal::NoMemory)
}

/// Rows with each kind of call, except an abort.
const CALLS: &[Row] = &[
    (0, Ask::Begin, Told::Done),
    (0, Ask::Do(Op::PutIf(1, None, 10)), NEW),
    (0, Ask::Save, Told::Number(1)),
    (0, Ask::Do(Op::Put(1, 11)), Told::Replied(Some(10))),
    (0, Ask::Do(Op::Put(2, 20)), NEW),
    (0, Ask::Save, Told::Number(2)),
    (0, Ask::Do(Op::Take(1)), Told::Replied(Some(11))),
    (0, Ask::Len, Told::Number(1)),
    (0, Ask::Back(1), Told::Done),
    (0, Ask::Do(Op::Get(2)), NEW),
    (0, Ask::Len, Told::Number(1)),
    (0, Ask::Commit, Told::Number(1)),
];

/// Puts twenty keys, and takes half of them. The parts of the map that have no room at first must
/// grow for this.
fn grow<R: Abort>(rt: &R, home: &mut Home) -> Result<(), Refusal> {
    play_again(rt, home, &[(0, Ask::Begin, Told::Done)])?;
    for key in 10..30u64 {
        play_again(rt, home, &[(0, Ask::Do(Op::Put(key, key)), NEW)])?;
    }
    for key in 20..30u64 {
        let had = Told::Replied(Some(key));
        play_again(rt, home, &[(0, Ask::Do(Op::Take(key)), had)])?;
    }
    play_again(rt, home, &[(0, Ask::Len, Told::Number(11))])
}

/// Makes the calls of `CALLS` in one transaction, and those of `grow` in another. Then drops the
/// caller, which takes the second transaction back.
fn call_and_grow<R: Abort>(rt: &R, home: &mut Home) -> Result<(), Refusal> {
    play_again(rt, home, CALLS)?;
    grow(rt, home)?;
    home.callers.clear();
    has_left_again(rt, &mut home.host, &[(1, 10)])
}

/// Does `call_and_grow` in a map with one stripe, one caller and room for this number of keys.
fn play_with_room<R: Abort>(rt: &R, alloc: Global, keys: usize) -> Result<(), Refusal> {
    let mut opening = counted(1, 1);
    opening.keys = keys;
    call_and_grow(rt, &mut open_again(alloc, opening)?)
}

/// This test is also run with each allocation refused in turn.
#[test]
fn refused_memory(rt: HostRuntime) -> Result<(), Fail> {
    Ok(play_with_room(&rt, rt.alloc(), 0)?)
}

/// This test is also run with each allocation refused in turn.
#[test]
fn refused_memory_with_room(rt: HostRuntime) -> Result<(), Fail> {
    Ok(play_with_room(&rt, rt.alloc(), 22)?)
}
