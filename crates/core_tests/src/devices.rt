//! The calls of a core. Each call is made in a function without a contract, so that a test has only
//! its own safety to prove. All modules that run a core share these functions, so each call is
//! proved once. Some calls require that the stripes are not words. Their functions check this
//! first, and the test fails if the stripes are words.
use boost_core::Core;
use std::alloc::{AllocError, Global};
use std::process::Abort;
use std::test::Fail;
use txn_words::{Answer, Entry, Limits, Op, Refusal, SmallEntry, Step, Unpacked};

/// Limits with these numbers of callers, stripes and buckets. The limits allow every key.
pub(crate) fn limits_of(rt: &impl Abort, callers: u64, stripes: u64, buckets: u64) -> Limits {
    Limits::new(callers, stripes, buckets).expect(rt, "limits in range")
}

/// A core for this number of callers, with 8 stripes and at most 8 buckets.
pub(crate) fn core_of(rt: &impl Abort, alloc: Global, callers: u64) -> Core {
    core_with(rt, alloc, limits_of(rt, callers, 8, 8))
}

/// A core with these limits.
pub(crate) fn core_with(rt: &impl Abort, alloc: Global, limits: Limits) -> Core {
    core_if_made(alloc, limits).expect(rt, "a core")
}

/// A core with these limits. If memory is refused, tries once more. Returns `None` if memory is
/// refused twice.
pub(crate) fn core_if_made(alloc: Global, limits: Limits) -> Option<Core> {
    match Core::new(alloc, limits) {
        Ok(core) => Some(core),
        Err(_) => Core::new(alloc, limits).ok(),
    }
}

/// Takes a step. If the step asks for an operation and the stripes are words, the test fails.
pub(crate) fn take_step(core: &mut Core, step: Step) -> Result<Answer, Fail> {
    if core.words() && matches!(step, Step::Ask(..)) {
        return Err("stripes are words".into());
    }
    Ok(core.step(step))
}

/// Does an operation with one plain call. If the stripes of the core are words, the test fails.
pub(crate) fn operate(core: &mut Core, caller: u64, op: Op) -> Result<Answer, Fail> {
    if core.words() {
        return Err("stripes are words".into());
    }
    match op {
        Op::Put(key, value) => Ok(core.put(caller, key, value)),
        Op::Take(key) => Ok(core.take(caller, key)),
        Op::Get(key) => Ok(core.get(caller, key)),
        Op::PutIf(key, expected, value) => Ok(core.put_if(caller, key, expected, value)),
    }
}

/// Takes these steps with one call of `run`. If the stripes of the core are words, the test fails.
pub(crate) fn run_steps(
    alloc: Global,
    core: &mut Core,
    steps: &[Step],
) -> Result<Vec<Answer>, Fail> {
    if core.words() {
        return Err("stripes are words".into());
    }
    Ok(core.run(alloc, steps)?)
}

/// Takes one step with a call of `run`.
pub(crate) fn run_step(alloc: Global, core: &mut Core, step: Step) -> Result<Answer, Fail> {
    let answers = run_steps(alloc, core, &[step])?;
    Ok(answers.first().copied().ok_or("no answer")?)
}

/// Goes back to a level.
pub(crate) fn back(core: &mut Core, caller: u64, level: u64) -> Answer {
    core.back(caller, level)
}

/// Aborts the caller's transaction. This needs no memory.
pub(crate) fn abort(core: &mut Core, caller: u64) -> Answer {
    core.abort(caller)
}

/// The caller calls for help with this key. The call may grow the table.
pub(crate) fn help(core: &mut Core, caller: u64, key: u64) -> Result<(), Refusal> {
    core.help(caller, key)
}

/// The numbers of buckets and of keys.
pub(crate) fn sizes_of(core: &Core) -> (u32, u64) {
    (core.size(), core.count())
}

/// The number of entries owed.
pub(crate) fn owed_by(core: &Core) -> usize {
    core.owed()
}

/// The history.
pub(crate) fn trace_of(core: &Core) -> &[SmallEntry] {
    core.trace()
}

/// Returns true if the core's history is `wanted`.
pub(crate) fn is_history(core: &Core, wanted: &[Entry]) -> bool {
    Unpacked::new(trace_of(core)).eq(wanted.iter().copied())
}

/// The pairs in the order of the list.
pub(crate) fn pairs_of(alloc: Global, core: &Core) -> Result<Vec<(u64, u64)>, AllocError> {
    core.regular_list(alloc)
}

/// Checks that the core's map has exactly these pairs.
pub(crate) fn has_map(
    rt: &impl Abort,
    alloc: Global,
    core: &Core,
    pairs: &[(u64, u64)],
) -> Result<(), Fail> {
    let map = core.map(alloc)?;
    assert_eq!(rt; map.len(), pairs.len());
    for (key, value) in pairs {
        assert_eq!(rt; map.get(key).copied(), Some(*value), "at {key}");
    }
    Ok(())
}

/// Takes a step. Its answer must be the wanted one.
pub(crate) fn step_is(
    rt: &impl Abort,
    core: &mut Core,
    step: Step,
    wanted: Answer,
) -> Result<(), Fail> {
    assert_eq!(rt; take_step(core, step)?, wanted, "at {step:?}");
    Ok(())
}
