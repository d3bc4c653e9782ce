//! Tests of a core's state after memory was refused. They are also run with memory refused: each
//! such run refuses one allocation, or one allocation and all later ones. The runs of `cores` fail
//! if memory is refused, but these tests continue. They compare numbers, which can be read without
//! memory. If there is memory for lists of the pairs, they also compare the pairs.
use crate::devices::{
    abort, core_if_made, limits_of, owed_by, pairs_of, sizes_of, step_is, take_step, trace_of,
};
use boost_core::Core;
use std::alloc::{AllocError, Global};
use std::process::Abort;
use std::test::Fail;
use txn_words::{Answer, Op, Refusal, Reply, Step};

/// The number of entries, the numbers of buckets and keys, and the number of entries owed. No
/// memory is needed to read them.
fn figures(core: &Core) -> (usize, (u32, u64), usize) {
    (trace_of(core).len(), sizes_of(core), owed_by(core))
}

/// The list of a core's pairs, or an error if there is no memory for the list.
type Pairs = Result<Vec<(u64, u64)>, AllocError>;

/// If there was memory for both lists, checks that they have the same pairs.
fn are_same(rt: &impl Abort, before: &Pairs, after: &Pairs) {
    if let (Ok(after), Ok(before)) = (after, before) {
        assert!(rt; after.as_slice() == before.as_slice());
    }
}

/// Takes a step on a core that has these pairs. If the step is refused memory, the core must be
/// unchanged, and the function returns false.
fn try_beside(
    rt: &impl Abort,
    alloc: Global,
    core: &mut Core,
    pairs: &Pairs,
    step: Step,
    wanted: Answer,
) -> Result<bool, Fail> {
    let before = figures(core);
    let answer = take_step(core, step)?;
    if answer != Answer::Refused(Refusal::NoMemory) {
        assert_eq!(rt; answer, wanted, "at {step:?}");
        return Ok(true);
    }
    assert!(rt; figures(core) == before);
    are_same(rt, pairs, &pairs_of(alloc, core));
    Ok(false)
}

/// Takes a step. If the step is refused memory, the core must be unchanged, and the function
/// returns false. The pairs are compared if there is memory for their lists.
fn try_step(
    rt: &impl Abort,
    alloc: Global,
    core: &mut Core,
    step: Step,
    wanted: Answer,
) -> Result<bool, Fail> {
    let pairs = pairs_of(alloc, core);
    try_beside(rt, alloc, core, &pairs, step, wanted)
}

/// Takes these steps. Stops at a step that is refused memory, and checks that this step has changed
/// nothing. Returns true if all steps were taken.
fn try_steps(
    rt: &impl Abort,
    alloc: Global,
    core: &mut Core,
    lines: &[(Step, Answer)],
) -> Result<bool, Fail> {
    for (step, wanted) in lines {
        if !try_step(rt, alloc, core, *step, *wanted)? {
            return Ok(false);
        }
    }
    Ok(true)
}

/// The steps by which a caller does an operation, with their answers.
fn steps_of(caller: u64, op: Op, reply: Reply) -> [(Step, Answer); 3] {
    [
        (Step::Ask(caller, op), Answer::Asked),
        (Step::Seek(caller), Answer::Placed),
        (Step::Act(caller), Answer::Done(reply)),
    ]
}

/// A caller begins and puts a key. Returns false if memory is refused.
fn begin_and_put(
    rt: &impl Abort,
    alloc: Global,
    core: &mut Core,
    caller: u64,
) -> Result<bool, Fail> {
    let next = caller.wrapping_add(1);
    let put = steps_of(caller, Op::Put(next, 10), None);
    Ok(
        try_step(rt, alloc, core, Step::Begin(caller), Answer::Began(next))?
            && try_steps(rt, alloc, core, &put)?,
    )
}

/// A caller puts its key once more and takes the key. Returns false if memory is refused.
fn put_and_take(
    rt: &impl Abort,
    alloc: Global,
    core: &mut Core,
    caller: u64,
) -> Result<bool, Fail> {
    let key = caller.wrapping_add(1);
    let put = steps_of(caller, Op::Put(key, 20), Some(10));
    let take = steps_of(caller, Op::Take(key), Some(20));
    Ok(try_steps(rt, alloc, core, &put)? && try_steps(rt, alloc, core, &take)?)
}

/// Five callers begin, and each changes one key three times. Returns false if memory is refused.
fn change_five(rt: &impl Abort, alloc: Global, core: &mut Core) -> Result<bool, Fail> {
    for caller in 0..5 {
        if !begin_and_put(rt, alloc, core, caller)? {
            return Ok(false);
        }
    }
    for caller in 0..5 {
        if !put_and_take(rt, alloc, core, caller)? {
            return Ok(false);
        }
    }
    Ok(true)
}

/// Checks that there are five keys. If there is memory for the list of pairs, also checks that each
/// key has this value.
fn has_five(rt: &impl Abort, alloc: Global, core: &Core, value: u64) {
    assert_eq!(rt; sizes_of(core), (2, 5));
    let wanted = [(4, value), (2, value), (1, value), (5, value), (3, value)];
    if let Ok(pairs) = pairs_of(alloc, core) {
        assert_eq!(rt; pairs.as_slice(), wanted.as_slice());
    }
}

/// Each of five callers takes back its newest change. Then each key must have the value `left`. If
/// `left` is `None`, there must be no key.
fn undo_five(
    rt: &impl Abort,
    alloc: Global,
    core: &mut Core,
    left: Option<u64>,
) -> Result<(), Fail> {
    for caller in 0..5 {
        step_is(rt, core, Step::Seek(caller), Answer::Placed)?;
        step_is(rt, core, Step::Act(caller), Answer::Undone)?;
    }
    match left {
        Some(value) => has_five(rt, alloc, core, value),
        None => assert_eq!(rt; sizes_of(core), (2, 0)),
    }
    Ok(())
}

/// Five callers begin to abort. Each of them then owes one entry less.
fn leave_five(rt: &impl Abort, core: &mut Core) -> Result<(), Fail> {
    assert_eq!(rt; owed_by(core), 25);
    for caller in 0..5 {
        step_is(rt, core, Step::Abort(caller), Answer::Leaving)?;
    }
    assert_eq!(rt; owed_by(core), 20);
    Ok(())
}

/// Five callers, which have taken back all their changes, end their transactions.
fn end_five(rt: &impl Abort, core: &mut Core) -> Result<(), Fail> {
    for caller in 0..5 {
        step_is(rt, core, Step::Act(caller), Answer::Aborted)?;
    }
    Ok(())
}

/// Each of five callers changes one key three times. Then the callers take their changes back in
/// turn. If memory is refused for a change, nothing is taken back.
fn change_and_undo_five(rt: &impl Abort, alloc: Global, core: &mut Core) -> Result<(), Fail> {
    if !change_five(rt, alloc, core)? {
        return Ok(());
    }
    leave_five(rt, core)?;
    undo_five(rt, alloc, core, Some(20))?;
    undo_five(rt, alloc, core, Some(10))?;
    undo_five(rt, alloc, core, None)?;
    end_five(rt, core)
}

/// Each caller below `callers` aborts, if it has a transaction. After this there must be no keys
/// and no owed entries. Needs no memory.
fn abort_all(rt: &impl Abort, core: &mut Core, callers: u64) {
    for caller in 0..callers {
        let answer = abort(core, caller);
        assert!(rt; answer == Answer::Aborted || answer == Answer::Refused(Refusal::NotOpen));
    }
    assert_eq!(rt; (sizes_of(core).1, owed_by(core)), (0, 0));
}

/// Runs `change_and_undo_five`. Then all five callers abort.
fn play_five(rt: &impl Abort, alloc: Global, core: &mut Core) -> Result<(), Fail> {
    change_and_undo_five(rt, alloc, core)?;
    abort_all(rt, core, 5);
    assert_eq!(rt; sizes_of(core).0, 2);
    Ok(())
}

/// If memory is refused, every caller aborts, since an abort needs no memory. If no core can be
/// made, nothing is tested.
#[test]
fn five_callers_undone(rt: HostRuntime) -> Result<(), Fail> {
    match core_if_made(rt.alloc(), limits_of(&rt, 5, 8, 8)) {
        Some(mut core) => play_five(&rt, rt.alloc(), &mut core),
        None => Ok(()),
    }
}

/// Takes these steps. A step that is refused memory is taken once more. Returns false if a step is
/// refused memory twice.
fn try_steps_twice(
    rt: &impl Abort,
    alloc: Global,
    core: &mut Core,
    lines: &[(Step, Answer)],
) -> Result<bool, Fail> {
    for (step, wanted) in lines {
        let is_taken = try_step(rt, alloc, core, *step, *wanted)?
            || try_step(rt, alloc, core, *step, *wanted)?;
        if !is_taken {
            return Ok(false);
        }
    }
    Ok(true)
}

/// Caller 0 begins and puts 129 keys. Returns false if a step is refused memory twice.
fn put_many(rt: &impl Abort, alloc: Global, core: &mut Core) -> Result<bool, Fail> {
    if !try_steps_twice(rt, alloc, core, &[(Step::Begin(0), Answer::Began(1))])? {
        return Ok(false);
    }
    for key in 0..129 {
        let put = steps_of(0, Op::Put(key, key), None);
        if !try_steps_twice(rt, alloc, core, &put)? {
            return Ok(false);
        }
    }
    Ok(true)
}

/// Steps that double the table to 128 buckets and store bucket 64, which is the first of the second
/// segment.
static SECOND_SEGMENT: [(Step, Answer); 12] = [
    (Step::Double(2), Answer::Doubled(4)),
    (Step::Double(4), Answer::Doubled(8)),
    (Step::Double(8), Answer::Doubled(16)),
    (Step::Double(16), Answer::Doubled(32)),
    (Step::Double(32), Answer::Doubled(64)),
    (Step::Double(64), Answer::Doubled(128)),
    (Step::Double(128), Answer::AtLimit),
    (
        Step::InitSeek(0, 96),
        Answer::Refused(Refusal::ParentMissing),
    ),
    (Step::InitSeek(0, 64), Answer::Placed),
    (Step::InitLink(0), Answer::Linked),
    (Step::InitStore(0), Answer::Stored),
    (Step::InitSeek(0, 64), Answer::Ready),
];

/// Checks that these are the pairs of the keys below 129, each with itself as value. A list has
/// keys below 256 in rising order of their eight bits read backwards: 0, 128, 64, 192, 32 and so
/// on.
fn are_many(rt: &impl Abort, pairs: &[(u64, u64)]) {
    let mut found = pairs.iter();
    for backwards in 0..256_u64 {
        let key = backwards.reverse_bits() >> 56;
        if key < 129 {
            assert_eq!(rt; found.next(), Some(&(key, key)));
        }
    }
    assert_eq!(rt; found.next(), None);
}

/// Checks the numbers of buckets and keys. If there is memory for the list of pairs, also checks
/// the pairs.
fn has_many(rt: &impl Abort, alloc: Global, core: &Core) {
    assert_eq!(rt; sizes_of(core), (128, 129));
    if let Ok(pairs) = pairs_of(alloc, core) {
        are_many(rt, &pairs);
    }
}

/// Puts the keys, stores bucket 64, and commits. If a step is refused memory twice, the caller
/// aborts instead.
fn fill_segments(rt: &impl Abort, alloc: Global, core: &mut Core) -> Result<(), Fail> {
    let is_done = put_many(rt, alloc, core)? && try_steps_twice(rt, alloc, core, &SECOND_SEGMENT)?;
    if !is_done {
        abort_all(rt, core, 1);
        return Ok(());
    }
    step_is(rt, core, Step::Commit(0), Answer::Committed(1))?;
    has_many(rt, alloc, core);
    Ok(())
}

/// Bucket 64 is the first of the second segment, so a step that stores this bucket needs memory. A
/// step that is refused is taken once more. If the second try is refused, the caller aborts, which
/// needs no memory.
#[test]
fn segments(rt: HostRuntime) -> Result<(), Fail> {
    match core_if_made(rt.alloc(), limits_of(&rt, 1, 8, 128)) {
        Some(mut core) => fill_segments(&rt, rt.alloc(), &mut core),
        None => Ok(()),
    }
}
