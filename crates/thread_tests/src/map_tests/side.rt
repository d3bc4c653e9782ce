//! These tests roll a side value back with its caller's transaction. The functions take any side
//! value that can be made from words. The test passes a `Register`. No contract says that a call
//! gets memory as long as memory is free. In this test each call must then get it. The words were
//! worked out by hand.
ghost use Rattle.std.specs.Prelude.{◌≡◌, [], ◌∷◌, IfSome};

use super::register::{OfWords, Register, RegisterJob};
use crate::devices::{Play, Shared, TRIES, close, has_left, is_refused, play_where_made, run};
use boost_core::{Call, End};
use locked_map::{Caller, Pass, Stop};
use std::alloc::Global;
use std::process::Abort;
use std::sync::Wait;
use std::sync::ledger::Ledger;
use std::test::Fail;
use txn_words::Refusal;
use undo_log::{Side, SideJob};

/// The number of entries that a caller has seen, and the words of its side value.
type Marks = (usize, [u64; 4]);

fn marks_of<L: Ledger, S: Side>(me: &Caller<L, S>) -> Marks {
    (me.seen().len(), me.words())
}

/// Makes a call, and makes it again while it is refused memory, `TRIES` times in all. Returns
/// `None` if every try is refused. Checks that a refused try leaves the caller's marks unchanged.
fn try_call<L: Ledger, S: Side, R: Wait + Abort>(
    rt: &R,
    shared: &Shared<L>,
    me: &mut Caller<L, S>,
    call: Call,
) -> Option<()> {
    let before = marks_of(me);
    for _ in 0..TRIES {
        let end = run(rt, shared, me, call);
        if let End::Answered(_) = end {
            return Some(());
        }
        assert_eq!(rt; end, End::Refused(Refusal::NoMemory));
        assert_eq!(rt; marks_of(me), before);
    }
    None
}

/// Changes the first word of the side value, whose other words are 0. If the change is refused
/// memory, checks that nothing has changed, and tries once more. Returns `None` if the second try
/// is refused too.
fn change<L: Ledger, S: OfWords, R: Abort>(
    rt: &R,
    shared: &Shared<L>,
    me: &mut Caller<L, S>,
    before: u64,
    after: u64,
    job: S::Job,
) -> Option<()>
    requires before { S.before job ≡ before ∷ 0 ∷ 0 ∷ 0 ∷ [] }
    requires after { S.after job ≡ after ∷ 0 ∷ 0 ∷ 0 ∷ [] }
{
    let marks = marks_of(me);
    assert!(rt; me.words() == [before, 0, 0, 0]);
    let to_after = move |_| S::of_words([after, 0, 0, 0]);
    let Err((refusal, to_after, job)) = shared.map.side(me, to_after, SideJob { job }) else {
        return Some(());
    };
    assert_eq!(rt; refusal, Refusal::NoMemory);
    assert_eq!(rt; marks_of(me), marks);
    if shared.map.side(me, to_after, job).is_ok() {
        return Some(());
    }
    assert_eq!(rt; marks_of(me), marks);
    None
}

/// Changes the first word from 0 to 1, sets a savepoint, changes the word twice more, and returns
/// to the savepoint. Returns the words before and after this return, or `None` if every try of a
/// call is refused memory.
fn words_there<L: Ledger, S: OfWords, R: Wait + Abort>(
    rt: &R,
    shared: &Shared<L>,
    me: &mut Caller<L, S>,
    first: S::Job,
    second: S::Job,
    third: S::Job,
) -> Option<[[u64; 4]; 2]>
    requires first { (S.before first ≡ 0 ∷ 0 ∷ 0 ∷ 0 ∷ []) × (S.after first ≡ 1 ∷ 0 ∷ 0 ∷ 0 ∷ []) }
    requires second { (S.before second ≡ 1 ∷ 0 ∷ 0 ∷ 0 ∷ [])
        × (S.after second ≡ 2 ∷ 0 ∷ 0 ∷ 0 ∷ []) }
    requires third { (S.before third ≡ 2 ∷ 0 ∷ 0 ∷ 0 ∷ []) × (S.after third ≡ 3 ∷ 0 ∷ 0 ∷ 0 ∷ []) }
{
    try_call(rt, shared, me, Call::Begin)?;
    change(rt, shared, me, 0, 1, first)?;
    try_call(rt, shared, me, Call::Save)?;
    change(rt, shared, me, 1, 2, second)?;
    change(rt, shared, me, 2, 3, third)?;
    let there = me.words();
    try_call(rt, shared, me, Call::Back(1))?;
    assert_eq!(rt; me.seen().len(), 4);
    Some([there, me.words()])
}

/// Aborts the transaction. The abort needs no memory, and it may be refused only if no transaction
/// is open. The words must then be those from before the transaction.
fn give_up<L: Ledger, S: Side, R: Wait + Abort>(
    rt: &R,
    shared: &Shared<L>,
    me: &mut Caller<L, S>,
    is_open: bool,
) {
    let aborted = shared.map.abort(rt, me);
    let is_not_open = aborted == Err(Stop::Refused(Refusal::NotOpen));
    assert!(rt;
        aborted == Ok(()) || (!is_open && is_not_open),
        "{aborted:?}"
    );
    assert_eq!(rt; me.words(), [0, 0, 0, 0]);
}

/// Makes a list with room for one caller. If memory is refused, asks for it once more. Returns
/// `None` if it is refused again.
fn room_for_one<T: Drop>(alloc: Global) -> Option<Vec<T>> {
    let mut list = Vec::new(alloc);
    if list.reserve(1).is_err() && list.reserve(1).is_err() {
        return None;
    }
    Some(list)
}

/// Closes a map, whose only caller has put no key. The list `callers` has room for this caller.
fn close_in<L: Ledger, S: Side, R: Abort>(
    rt: &R,
    alloc: Global,
    shared: Shared<L>,
    mut callers: Vec<Caller<L, S>>,
    me: Caller<L, S>,
) -> Result<(), Fail> {
    callers.push(me)?;
    let closed = close(shared, callers)?;
    assert!(rt; has_left(rt, alloc, &closed.core, 0));
    Ok(())
}

/// Closes the map of a caller that has put nothing, if there is memory for a list of callers.
fn close_alone<L: Ledger, S: Side, R: Abort>(
    rt: &R,
    alloc: Global,
    shared: Shared<L>,
    me: Caller<L, S>,
) -> Result<(), Fail> {
    match room_for_one(alloc) {
        Some(callers) => close_in(rt, alloc, shared, callers, me),
        None => {
            assert!(rt; is_refused(alloc));
            Ok(())
        }
    }
}

/// Runs `words_there` with a new caller. Then the caller aborts in any case. The closed map must
/// have no key.
fn there_and_back<L: Ledger, S: OfWords, R: Wait + Abort>(
    rt: &R,
    alloc: Global,
    shared: Shared<L>,
    pass: Pass<L>,
    first: S::Job,
    second: S::Job,
    third: S::Job,
) -> Result<(), Fail>
    requires first { (S.before first ≡ 0 ∷ 0 ∷ 0 ∷ 0 ∷ []) × (S.after first ≡ 1 ∷ 0 ∷ 0 ∷ 0 ∷ []) }
    requires second { (S.before second ≡ 1 ∷ 0 ∷ 0 ∷ 0 ∷ [])
        × (S.after second ≡ 2 ∷ 0 ∷ 0 ∷ 0 ∷ []) }
    requires third { (S.before third ≡ 2 ∷ 0 ∷ 0 ∷ 0 ∷ []) × (S.after third ≡ 3 ∷ 0 ∷ 0 ∷ 0 ∷ []) }
{
    let mut me = pass.caller(alloc, S::of_words([0, 0, 0, 0]));
    let words = words_there(rt, &shared, &mut me, first, second, third);
    match words {
        Some(words) => assert_eq!(rt; words, [[3, 0, 0, 0], [1, 0, 0, 0]]),
        None => assert!(rt; is_refused(alloc)),
    }
    give_up(rt, &shared, &mut me, words.is_some());
    close_alone(rt, alloc, shared, me)
}

/// Boxes a value, and tries once more if memory is refused. Returns `None` if memory is refused
/// again.
fn make_box<T: Drop>(alloc: Global, value: T) -> Option<Box<T>>
    ensures { IfSome result (λ block. block.value ≡ value) }
{
    match Box::new(alloc, value) {
        Ok(block) => Some(block),
        Err(refused) => Box::new(alloc, refused.value).ok(),
    }
}

/// A register with these words.
fn register(words: [u64; 4]) -> Register
    ensures { result.words ≡ words }
{
    Register { words }
}

/// Runs `there_and_back` with a register, whose jobs are boxed. If memory for a box is refused,
/// does nothing and returns `None`.
fn register_returns<L: Ledger, R: Wait + Abort>(
    rt: &R,
    alloc: Global,
    shared: Shared<L>,
    pass: Pass<L>,
) -> Option<Result<(), Fail>> {
    let to_zero = make_box(alloc, |_| register([0, 0, 0, 0]))?;
    let to_one = make_box(alloc, |_| register([1, 0, 0, 0]))?;
    let to_two = make_box(alloc, |_| register([2, 0, 0, 0]))?;
    let first = RegisterJob {
        before: [0, 0, 0, 0],
        after: [1, 0, 0, 0],
        run: to_zero,
    };
    let second = RegisterJob {
        before: [1, 0, 0, 0],
        after: [2, 0, 0, 0],
        run: to_one,
    };
    let third = RegisterJob {
        before: [2, 0, 0, 0],
        after: [3, 0, 0, 0],
        run: to_two,
    };
    let ended = there_and_back::<L, Register, R>(rt, alloc, shared, pass, first, second, third);
    Some(ended)
}

struct SideReturns;

impl Play for SideReturns {
    fn play<L: Ledger, R: Wait + Abort>(
        &self,
        rt: &R,
        alloc: Global,
        shared: Shared<L>,
        passes: Vec<Pass<L>>,
    ) -> Result<(), Fail> {
        let pass = passes.into_iter().next().ok_or("a pass")?;
        let Some(ended) = register_returns(rt, alloc, shared, pass) else {
            assert!(rt; is_refused(alloc));
            return Ok(());
        };
        ended
    }
}

/// `tests/refused.sh` may refuse memory to every try of a call. The caller then aborts.
#[test]
fn side_value_returns(rt: HostRuntime) -> Result<(), Fail> {
    play_where_made(&rt, rt.alloc(), 1, &SideReturns)
}
