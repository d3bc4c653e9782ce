//! Functions that the tests share. They open a map under its own ledger, make calls of the map, and
//! close it. `SharedMap::close` requires the number of the ledger's parts, which `Shared` keeps. So
//! a test that closes a map needs no clause for this number. Some functions are for tests with
//! refused memory. These functions ask for memory twice, or `TRIES` times.
ghost use Rattle.std.specs.Prelude.{◌≡◌, ◌<◌, true, All};
ghost use Rattle.txn_words.specs.Kinds.{caller_of};

use boost_core::{Call, Core, End};
use history_check::{Verdict, check};
use locked_map::{Caller, Closed, NoSide, OnRelease, Pass, SharedMap, Unclosed};
use std::alloc::{AllocError, Global};
use std::marker::{Brand, PhantomData};
use std::process::Abort;
use std::sync::Wait;
use std::sync::ledger::{Blank, Ledger};
use std::test::Fail;
use txn_words::{Entry, Holder, Limits, SmallEntry, Unpacked};
use undo_log::Side;

/// The number of a ledger's parts.
#[derive(Drop)]
struct Parts<L: Ledger> {
    count: u64,
    of: PhantomData<L>,
    ghost counted: { count ≡ L.parts },
}

/// A map, and the number of its ledger's parts. `SharedMap::close` requires this number.
#[derive(Drop)]
pub(crate) struct Shared<L: Ledger> {
    pub(crate) map: SharedMap<L>,
    parts: Parts<L>,
}

/// Opens a map. Returns the map and the passes of its callers, or `None` if memory is refused.
pub(crate) fn open<L: Ledger>(
    alloc: Global,
    blank: Blank,
    limits: Limits,
) -> Option<(Shared<L>, Vec<Pass<L>>)>
    requires name { blank.name ≡ L.name }
    requires parts { blank.parts ≡ L.parts }
    requires one_each { blank.parts ≡ limits.callers }
{
    let parts = Parts {
        count: u64::from(limits.callers()),
        of: PhantomData,
    };
    match SharedMap::<L>::new(alloc, blank, limits) {
        Ok((map, passes)) => Some((Shared { map, parts }, passes)),
        Err(_) => None,
    }
}

/// A test that runs on a new map.
pub(crate) trait Play {
    /// Runs the test on the map.
    fn play<L: Ledger, R: Wait + Abort>(
        &self,
        rt: &R,
        alloc: Global,
        shared: Shared<L>,
        passes: Vec<Pass<L>>,
    ) -> Result<(), Fail>;
}

/// Runs the test on a new map with 8 stripes and at most 8 buckets.
pub(crate) fn play_with<P: Play, R: Wait + Abort>(
    rt: &R,
    alloc: Global,
    callers: u64,
    what: &P,
) -> Result<(), Fail> {
    if is_played(rt, alloc, callers, what)? {
        return Ok(());
    }
    Err("no memory for a map".into())
}

/// Like `play_with`, but asks again if memory for the map is refused, `TRIES` times in all. If
/// memory is still refused then, the test does not run.
pub(crate) fn play_where_made<P: Play, R: Wait + Abort>(
    rt: &R,
    alloc: Global,
    callers: u64,
    what: &P,
) -> Result<(), Fail> {
    for _ in 0..TRIES {
        if is_played(rt, alloc, callers, what)? {
            return Ok(());
        }
    }
    assert!(rt; is_refused(alloc));
    Ok(())
}

/// Runs the test on a new map. If memory for the map is refused, returns false, and the test does
/// not run.
fn is_played<P: Play, R: Wait + Abort>(
    rt: &R,
    alloc: Global,
    callers: u64,
    what: &P,
) -> Result<bool, Fail> {
    let limits = Limits::new(callers, 8, 8)?;
    let blank = Blank::new(u64::from(limits.callers()));
    play_under::<Brand, P, R>(rt, alloc, blank, limits, what)
}

fn play_under<L: Ledger, P: Play, R: Wait + Abort>(
    rt: &R,
    alloc: Global,
    blank: Blank,
    limits: Limits,
    what: &P,
) -> Result<bool, Fail>
    requires name { blank.name ≡ L.name }
    requires parts { blank.parts ≡ L.parts }
    requires one_each { blank.parts ≡ limits.callers }
{
    let Some((shared, passes)) = open::<L>(alloc, blank, limits) else {
        return Ok(false);
    };
    what.play(rt, alloc, shared, passes)?;
    Ok(true)
}

/// How often a test asks for memory before it gives up. `tests/refused.py` refuses at most
/// eight allocations in a row, or one allocation and all later ones. So if all of these attempts
/// are refused memory, memory is refused permanently.
pub(crate) const TRIES: u64 = 9;

/// Returns true if memory is refused at this moment.
pub(crate) fn is_refused(alloc: Global) -> bool {
    Box::new(alloc, 0).is_err()
}

/// Makes a caller without a side value for each pass. If memory is refused, asks for it once more.
pub(crate) fn callers_of<L: Ledger>(
    alloc: Global,
    passes: Vec<Pass<L>>,
) -> Result<Vec<Caller<L, NoSide>>, AllocError> {
    let mut callers = Vec::new(alloc);
    if callers.reserve(passes.len()).is_err() {
        callers.reserve(passes.len())?;
    }
    for pass in passes {
        callers.push(pass.caller(alloc, NoSide))?;
    }
    Ok(callers)
}

/// Like `callers_of`, but for a test to which no memory is refused.
pub(crate) fn callers_in<L: Ledger, R: Abort>(
    rt: &R,
    alloc: Global,
    passes: Vec<Pass<L>>,
) -> Vec<Caller<L, NoSide>> {
    callers_of(alloc, passes).expect(rt, "callers")
}

/// The number of a caller.
pub(crate) fn number_of<L: Ledger, S: Side>(me: &Caller<L, S>) -> u64 {
    me.number()
}

/// The number of entries that a caller has seen.
pub(crate) fn seen_by<L: Ledger, S: Side>(me: &Caller<L, S>) -> usize {
    me.seen().len()
}

/// Returns true if the caller at the index `place` of the list has the number `place`, and has seen
/// exactly the entries `wanted`.
pub(crate) fn has_seen<L: Ledger>(
    callers: &[Caller<L, NoSide>],
    place: usize,
    wanted: &[Entry],
) -> bool {
    let Some(me) = callers.get(place) else {
        return false;
    };
    me.number() == place as u64 && is_history(me.seen(), wanted)
}

/// An observer of releases that does nothing.
struct Unheard;

impl OnRelease for Unheard {
    fn on_release(&self) {}
}

/// Makes a call with `SharedMap::run`, and with an observer that does nothing.
pub(crate) fn run<L: Ledger, S: Side, R: Wait>(
    rt: &R,
    shared: &Shared<L>,
    me: &mut Caller<L, S>,
    call: Call,
) -> End {
    run_heard(rt, shared, me, call, &Unheard)
}

/// Makes a call with `SharedMap::run`. The observer `hears` is notified each time the call releases
/// the lock.
pub(crate) fn run_heard<L: Ledger, S: Side, H: OnRelease, R: Wait>(
    rt: &R,
    shared: &Shared<L>,
    me: &mut Caller<L, S>,
    call: Call,
    hears: &H,
) -> End {
    shared.map.run(rt, me, call, hears)
}

/// The error of `close_or_miss`. If a caller is missing or was passed in twice, the error has the
/// map and the callers that were passed in. For any other reason the error is `None`.
pub(crate) type Missing<L, S> = Option<(Shared<L>, Vec<Caller<L, S>>)>;

/// Closes a map.
pub(crate) fn close_or_miss<L: Ledger, S: Side>(
    shared: Shared<L>,
    callers: Vec<Caller<L, S>>,
) -> Result<Closed<L, S>, Missing<L, S>> {
    let Shared { map, parts } = shared;
    if u64::from(map.limits().callers()) != parts.count {
        return Err(None);
    }
    match map.close(callers) {
        Ok(closed) => Ok(closed),
        Err(Unclosed::Missing(map, callers)) => Err(Some((Shared { map, parts }, callers))),
        Err(Unclosed::Differs(..)) => Err(None),
    }
}

/// Closes a map, and returns its parts. Fails if the map does not close.
pub(crate) fn close<L: Ledger, S: Side>(
    shared: Shared<L>,
    callers: Vec<Caller<L, S>>,
) -> Result<Closed<L, S>, Fail> {
    match close_or_miss(shared, callers) {
        Ok(closed) => Ok(closed),
        Err(_) => Err("closes".into()),
    }
}

/// Closes a map, and returns its parts. Panics if the map does not close.
pub(crate) fn closed_of<L: Ledger, R: Abort>(
    rt: &R,
    shared: Shared<L>,
    callers: Vec<Caller<L, NoSide>>,
) -> Closed<L, NoSide> {
    match close_or_miss(shared, callers) {
        Ok(closed) => closed,
        Err(_) => panic!(rt; "closes"),
    }
}

/// Returns the checker's verdict on a history for this number of stripes. Returns `None` if there
/// are no stripes, or if the history has a caller whose number the checker does not accept.
pub(crate) fn judge(
    alloc: Global,
    trace: &[SmallEntry],
    stripes: u64,
) -> Result<Option<Verdict>, AllocError> {
    let entries: Vec<Entry> = Unpacked::new(trace).collect(alloc)?;
    if stripes == 0 || !has_callers(entries.as_slice()) {
        return Ok(None);
    }
    Ok(Some(check(alloc, entries.as_slice(), stripes, Holder::Begun)?))
}

/// Returns true if the checker accepts the number of each entry's caller.
fn has_callers(trace: &[Entry]) -> bool
    ensures { result ≡ true → All (λ entry. caller_of entry < 64) trace.now }
{
    trace.iter().all(|entry| entry.caller() < 64)
}

/// Returns true if the history `trace` has exactly the entries `wanted`.
pub(crate) fn is_history(trace: &[SmallEntry], wanted: &[Entry]) -> bool {
    Unpacked::new(trace).eq(wanted.iter().copied())
}

/// Returns true if the checker finds a history for this number of stripes legal, and no transaction
/// is open at its end.
pub(crate) fn is_settled(
    alloc: Global,
    trace: &[SmallEntry],
    stripes: u64,
) -> Result<bool, AllocError> {
    let verdict = judge(alloc, trace, stripes)?;
    Ok(matches!(verdict, Some(Verdict::Legal { running: 0, .. })))
}

/// Returns what `is_settled` returns for a history for 8 stripes. Returns `None` if memory is
/// refused to the checker in all of `TRIES` attempts.
pub(crate) fn find_settled(alloc: Global, trace: &[SmallEntry]) -> Option<bool> {
    for _ in 0..TRIES {
        if let Ok(settled) = is_settled(alloc, trace, 8) {
            return Some(settled);
        }
    }
    None
}

/// Returns the list of a core's pairs. Returns `None` if memory for the list is refused in all of
/// `TRIES` attempts.
fn find_list(alloc: Global, core: &Core) -> Option<Vec<(u64, u64)>> {
    for _ in 0..TRIES {
        if let Ok(list) = core.regular_list(alloc) {
            return Some(list);
        }
    }
    None
}

/// Returns true if the core of a closed map has `keys` keys, and if its history is legal and ends
/// with no transaction open. If the core has a key, the key must be 1, with the value 10. If memory
/// is refused to the checker permanently, only the number of keys is compared. If memory is refused
/// permanently to the list of pairs, the key and its value are not compared.
pub(crate) fn has_left<R: Abort>(rt: &R, alloc: Global, core: &Core, keys: u64) -> bool {
    let trace = core.trace();
    let Some(settled) = find_settled(alloc, trace) else {
        assert!(rt; is_refused(alloc));
        return core.count() == keys;
    };
    let Some(list) = find_list(alloc, core) else {
        assert!(rt; is_refused(alloc));
        return core.count() == keys && settled;
    };
    let is_right = list.len() as u64 == keys && list.iter().all(|pair| *pair == (1, 10));
    core.count() == keys && settled && is_right
}
