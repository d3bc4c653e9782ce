//! Operations on a core whose stripes are words. The step `Ask` is not allowed on it, so this module
//! asks with the right to a stripe or with the stripe's word. The answers and the history were
//! worked out by hand.
use crate::devices::{is_history, limits_of, take_step};
use crate::histories::entries_of;
use boost_core::Core;
use key_locks::StripeRight;
use std::alloc::{AllocError, Global};
use std::process::Abort;
use std::test::Fail;
use txn_words::{Answer, Op, Refusal, Step};

/// A core for 3 callers, with 8 stripes that are words.
fn core_with_words(rt: &impl Abort, alloc: Global) -> Core {
    Core::with_words(alloc, limits_of(rt, 3, 8, 8)).expect(rt, "a core")
}

/// Asks for an operation with the right to its stripe, on a core with eight stripes.
fn ask_by_right(core: &mut Core, right: &StripeRight, caller: u64, op: Op) -> Result<Answer, Fail> {
    if !core.words() {
        return Err("stripes are no words".into());
    }
    if core.limits().stripes() != 8 || right.stripe() as u64 != op.key() % 8 {
        return Err("another stripe".into());
    }
    Ok(core.ask_with(caller, op, right))
}

/// Asks for an operation with the word of its stripe. Fails if the word says that the stripe is
/// free.
fn ask_by_word(core: &mut Core, caller: u64, op: Op, word: u64) -> Result<Answer, Fail> {
    if !core.words() {
        return Err("stripes are no words".into());
    }
    if word == 0 {
        return Err("a free word".into());
    }
    Ok(core.ask_held(caller, op, word))
}

/// A step, or an operation that is asked for with the right to its stripe or with the stripe's
/// word.
#[derive(Clone, Copy)]
enum Ask {
    Step(Step),
    Right(u64, Op),
    Word(u64, Op, u64),
}

fn answer(core: &mut Core, right: &StripeRight, ask: Ask) -> Result<Answer, Fail> {
    match ask {
        Ask::Step(step) => take_step(core, step),
        Ask::Right(caller, op) => ask_by_right(core, right, caller, op),
        Ask::Word(caller, op, word) => ask_by_word(core, caller, op, word),
    }
}

/// Caller 0 puts key 1 with the right to stripe 1. Then caller 1 asks for key 9, which has the same
/// stripe. If it asks with the right to the stripe, it is refused with `StaleWord`. If it asks with
/// a word that names caller 1 itself, or caller 2, which has never begun, it is also refused with
/// `StaleWord`. If the word names caller 0, the answer is `Busy`.
static ASKS: [(Ask, Answer); 11] = [
    (Ask::Step(Step::Begin(0)), Answer::Began(1)),
    (Ask::Right(0, Op::Put(1, 10)), Answer::Asked),
    (Ask::Step(Step::Seek(0)), Answer::Placed),
    (Ask::Step(Step::Act(0)), Answer::Done(None)),
    (Ask::Step(Step::Begin(1)), Answer::Began(2)),
    (
        Ask::Right(1, Op::Put(9, 90)),
        Answer::Refused(Refusal::StaleWord),
    ),
    (
        Ask::Word(1, Op::Get(9), 3),
        Answer::Refused(Refusal::StaleWord),
    ),
    (
        Ask::Word(1, Op::Get(9), 2),
        Answer::Refused(Refusal::StaleWord),
    ),
    (Ask::Word(1, Op::Get(9), 1), Answer::Busy(0)),
    (Ask::Step(Step::Act(1)), Answer::Aborted),
    (Ask::Step(Step::Commit(0)), Answer::Committed(1)),
];

const HISTORY_OF_ASKS: &str = r#"["began",0,1],["asked",0,"put",1,10],["did",0,null],
    ["began",1,2],["busy",1,"get",9,0],["aborted",1],["committed",0,1]"#;

fn asks_are(
    rt: &impl Abort,
    core: &mut Core,
    right: &StripeRight,
    rows: &[(Ask, Answer)],
) -> Result<(), Fail> {
    for (row, (ask, wanted)) in rows.iter().enumerate() {
        let answer = answer(core, right, *ask)?;
        assert_eq!(rt; answer, *wanted, "row {row}");
    }
    Ok(())
}

/// One right for each of eight stripes.
fn rights_of(alloc: Global) -> Result<Vec<StripeRight>, AllocError> {
    StripeRight::all(alloc, 8)
}

/// Makes the calls of `ASKS` with the right to stripe 1.
fn ask_all(rt: &impl Abort, alloc: Global, core: &mut Core) -> Result<(), Fail> {
    let rights = rights_of(alloc)?;
    let right = rights.get(1).ok_or("no right")?;
    asks_are(rt, core, right, &ASKS)
}

fn play(rt: &impl Abort, alloc: Global, core: &mut Core) -> Result<(), Fail> {
    ask_all(rt, alloc, core)?;
    let history = entries_of(alloc, HISTORY_OF_ASKS)?;
    assert!(rt; is_history(core, &history));
    Ok(())
}

#[test]
fn rights_and_words(rt: HostRuntime) -> Result<(), Fail> {
    let alloc = rt.alloc();
    play(&rt, alloc, &mut core_with_words(&rt, alloc))
}
