//! The language of worked runs: what a caller is asked, what it tells, and rows of both. Any map
//! with the five calls of `Map` plays a run. `runs` has the runs that every map must pass. Most
//! functions that make calls have no contract, so a test that plays rows is proved within seconds.
use std::fmt::Debug;
use std::process::Abort;
use txn_words::{Op, Refusal, Reply, Stop};

/// A request to a caller: to begin or to end a transaction, or what a script's `Action` asks.
/// `Has` and the variants below it stand for calls that only the striped map has.
#[derive(Clone, Copy, Debug)]
pub(crate) enum Ask {
    Begin,
    Do(Op),
    Save,
    Back(u64),
    Commit,
    Abort,
    Has(u64),
    Swap(u64, Option<u64>, u64),
    Len,
    Empty,
    Pairs,
    PairsWith(u64),
}

/// The answer to a request: nothing, a reply, a number (a level, a count or the place of a commit),
/// yes or no, the place of the caller that holds the stripe, or why the call was refused. `Unknown`
/// says that there is no such call here.
#[derive(Clone, Copy, Debug, PartialEq, Eq)]
pub(crate) enum Told {
    Done,
    Replied(Reply),
    Number(u64),
    Is(bool),
    Busy(u64),
    Refused(Refusal),
    Unknown,
}

/// The reply to an operation on a key that had no value.
pub(crate) const NEW: Told = Told::Replied(None);

/// The answer to a call that needs a transaction.
pub(crate) const NOT_OPEN: Told = Told::Refused(Refusal::NotOpen);

/// Why the call of a caller that does not exist stops.
pub(crate) const NO_CALLER: Stop = Stop::Refused(Refusal::NoSuchCaller);

/// A row of a run: the place of a caller, counted from 0, the request to this caller, and the
/// answer that is due. What a comment calls caller 1 is the caller at place 0.
pub(crate) type Row = (usize, Ask, Told);

/// A map whose callers have places. Each call returns what the caller tells.
pub(crate) trait Map {
    /// The number of the caller at place 0. The map names the holders of stripes by their numbers.
    const FIRST: u64;

    /// Begins a transaction.
    fn begin(&mut self, place: usize) -> Result<Told, Stop>;

    /// Does an operation. If it is busy, the transaction is over afterwards.
    fn operate(&mut self, place: usize, op: Op) -> Result<Told, Stop>;

    /// Sets a savepoint. Returns its level.
    fn save(&mut self, place: usize) -> Result<Told, Stop>;

    /// Returns to a level.
    fn back(&mut self, place: usize, level: u64) -> Result<Told, Stop>;

    /// Commits, and returns the place of the commit, counted from 1; or aborts.
    fn end(&mut self, place: usize, commits: bool) -> Result<Told, Stop>;
}

/// What a caller tells if its call returns this. The caller at place 0 has the number `first`.
pub(crate) fn told_of(returned: Result<Told, Stop>, first: u64) -> Told {
    match returned {
        Ok(told) => told,
        Err(Stop::Busy { holder }) => Told::Busy(holder.wrapping_sub(first)),
        Err(Stop::Refused(refusal)) => Told::Refused(refusal),
    }
}

/// Makes the call that the request stands for.
fn call<M: Map>(map: &mut M, place: usize, what: Ask) -> Result<Told, Stop> {
    match what {
        Ask::Begin => map.begin(place),
        Ask::Do(op) => map.operate(place, op),
        Ask::Save => map.save(place),
        Ask::Back(level) => map.back(place, level),
        Ask::Commit => map.end(place, true),
        Ask::Abort => map.end(place, false),
        _ => Ok(Told::Unknown),
    }
}

/// Fails the test if what came is not what was due, and then prints the row: its number, what was
/// asked, what was due and what came. It is a separate function, since an `assert!` with a message
/// makes a longer function slow to prove.
pub(crate) fn must_be<R: Abort, A: Debug, T: PartialEq + Debug>(
    rt: &R,
    row: usize,
    asked: &A,
    came: &T,
    due: &T,
) {
    assert!(rt;
        came == due,
        "row {row}: {asked:?}: {due:?} was due, {came:?} came"
    );
}

/// A run on a new map with `STRIPES` stripes and `CALLERS` callers: its name, which says what must
/// be so, and its rows.
pub(crate) type Run = (&'static str, &'static [Row]);

/// The number of stripes of a map that plays a run. Keys that differ by it share a stripe.
pub(crate) const STRIPES: usize = 8;

/// The number of callers of a map that plays a run.
pub(crate) const CALLERS: usize = 3;

/// Plays the rows of the run with this name. Each answer must be the one that is due.
pub(crate) fn play_run<R: Abort, M: Map>(rt: &R, map: &mut M, name: &str, rows: &[Row]) {
    for (row, &(place, what, due)) in rows.iter().enumerate() {
        let came = told_of(call(map, place, what), M::FIRST);
        must_be(rt, row, &(name, place, what), &came, &due);
    }
}
