//! The striped map as a map that plays rows. All other modules of this crate use this one. `answer`
//! ensures only that the caller stays a caller of its map; most other functions have no contract,
//! so a test that plays rows is proved within seconds.
ghost use Rattle.std.specs.Prelude.{◌≡◌};

use crate::worked::{Ask, Map, NO_CALLER, Row, Told, must_be, told_of};
use std::alloc::Global;
use std::process::Abort;
use striped_map::{Caller, Host, Keep, Opening, Stop};
use txn_words::Op;

/// Does an operation.
fn operate(caller: &mut Caller, op: Op) -> Result<Told, Stop>
    ensures map { caller.new.map ≡ caller.old.map }
{
    Ok(Told::Replied(match op {
        Op::Put(key, value) => caller.put(key, value)?,
        Op::Take(key) => caller.take(key)?,
        Op::Get(key) => caller.get(key)?,
        Op::PutIf(key, expected, value) => caller.put_if(key, expected, value)?,
    }))
}

/// Makes a call that looks at the map. No other map has such calls.
fn look(caller: &mut Caller, what: Ask) -> Result<Told, Stop>
    ensures map { caller.new.map ≡ caller.old.map }
{
    match what {
        Ask::Has(key) => Ok(Told::Is(caller.contains_key(key)?)),
        Ask::Swap(key, expected, value) => Ok(Told::Is(caller.swap(key, expected, value)?.0)),
        Ask::Len => Ok(Told::Number(caller.len()?)),
        Ask::Empty => Ok(Told::Is(caller.is_empty()?)),
        Ask::Pairs => Ok(Told::Number(caller.pairs()?.len() as u64)),
        Ask::PairsWith(key) => Ok(Told::Number(caller.pairs_with(key)?.len() as u64)),
        _ => Ok(Told::Unknown),
    }
}

/// Makes the call that the request stands for. A commit is answered by its place, if the map keeps
/// its commits.
fn call(caller: &mut Caller, what: Ask) -> Result<Told, Stop>
    ensures map { caller.new.map ≡ caller.old.map }
{
    match what {
        Ask::Begin => caller.begin()?,
        Ask::Do(op) => return operate(caller, op),
        Ask::Save => return Ok(Told::Number(caller.save()?)),
        Ask::Back(level) => caller.back(level)?,
        Ask::Commit => return Ok(caller.commit()?.map_or(Told::Done, Told::Number)),
        Ask::Abort => caller.abort()?,
        _ => return look(caller, what),
    }
    Ok(Told::Done)
}

/// Makes a request to a caller, and returns the answer.
pub(crate) fn answer(caller: &mut Caller, what: Ask) -> Told
    ensures map { caller.new.map ≡ caller.old.map }
{
    told_of(call(caller, what), Home::FIRST)
}

/// A map: its host, and those of its callers that are not dropped yet.
#[derive(Drop)]
pub(crate) struct Home {
    pub(crate) host: Host,
    pub(crate) callers: Vec<Caller>,
}

/// Makes the call that the request stands for, by the caller at this place.
fn call_at(home: &mut Home, place: usize, what: Ask) -> Result<Told, Stop> {
    call(home.callers.get_mut(place).ok_or(NO_CALLER)?, what)
}

impl Map for Home {
    const FIRST: u64 = 1;

    fn begin(&mut self, place: usize) -> Result<Told, Stop> {
        call_at(self, place, Ask::Begin)
    }

    fn operate(&mut self, place: usize, op: Op) -> Result<Told, Stop> {
        call_at(self, place, Ask::Do(op))
    }

    fn save(&mut self, place: usize) -> Result<Told, Stop> {
        call_at(self, place, Ask::Save)
    }

    fn back(&mut self, place: usize, level: u64) -> Result<Told, Stop> {
        call_at(self, place, Ask::Back(level))
    }

    fn end(&mut self, place: usize, commits: bool) -> Result<Told, Stop> {
        call_at(self, place, if commits { Ask::Commit } else { Ask::Abort })
    }
}

/// How to open a map with these numbers of stripes and callers, which keeps its commits.
pub(crate) fn counted(stripes: usize, callers: usize) -> Opening {
    let mut opening = Opening::new(stripes, callers);
    opening.keep = Keep::Commits;
    opening
}

/// Opens a map.
pub(crate) fn open_as<R: Abort>(rt: &R, alloc: Global, opening: Opening) -> Home {
    let (host, callers) = opening.open(alloc).expect(rt, "a map");
    Home { host, callers }
}

/// Opens a new map with these numbers of stripes and callers, which keeps its commits.
pub(crate) fn open<R: Abort>(rt: &R, alloc: Global, stripes: usize, callers: usize) -> Home {
    open_as(rt, alloc, counted(stripes, callers))
}

/// A request to a caller or to a transaction, and the answer that is due.
pub(crate) type Line = (Ask, Told);

/// Makes the requests to a caller, in order. Each answer must be the one that is due.
pub(crate) fn asks<R: Abort>(rt: &R, caller: &mut Caller, lines: &[Line]) {
    for (line, &(what, due)) in lines.iter().enumerate() {
        must_be(rt, line, &what, &answer(caller, what), &due);
    }
}

/// Makes the request of each row to the row's caller, in order. Each answer must be the row's
/// answer.
pub(crate) fn play<R: Abort>(rt: &R, home: &mut Home, rows: &[Row]) {
    for (row, &(place, what, due)) in rows.iter().enumerate() {
        let came = told_of(call_at(home, place, what), Home::FIRST);
        must_be(rt, row, &(place, what), &came, &due);
    }
}

/// Returns true if the host reads exactly the pairs `left`, in this order.
pub(crate) fn reads(host: &mut Host, left: &[(u64, u64)]) -> Result<bool, Stop> {
    Ok(host.pairs()?.as_slice() == left)
}

/// Checks that the committed pairs are exactly `left`, in this order, and that no stripe is held.
pub(crate) fn has_left<R: Abort>(rt: &R, host: &mut Host, left: &[(u64, u64)]) {
    assert!(rt; matches!(reads(host, left), Ok(true)));
}

/// Drops all callers, and checks that the committed pairs are then exactly `left`.
pub(crate) fn leaves<R: Abort>(rt: &R, home: &mut Home, left: &[(u64, u64)]) {
    home.callers.clear();
    has_left(rt, &mut home.host, left);
}

/// Plays the rows, drops the callers, and checks the pairs that remain.
pub(crate) fn play_to_the_end<R: Abort>(
    rt: &R,
    home: &mut Home,
    rows: &[Row],
    left: &[(u64, u64)],
) {
    play(rt, home, rows);
    leaves(rt, home, left);
}
