//! The map with one owner and the map of threads as maps that play worked runs. The runs of each
//! are played, and the map is dropped, in one function: the drop of a core is slow to prove.
ghost use Rattle.std.specs.Prelude.{◌≡◌};

use crate::limits::{WIDEST, play_keys, play_savepoints};
use crate::runs::WORKED;
use crate::worked::{Ask, CALLERS, Map, NO_CALLER, Row, Run, STRIPES, Told, play_run};
use locked_map::{Caller, NoSide, SharedMap};
use owned_map::OwnedMap;
use std::alloc::Global;
use std::marker::Brand;
use std::process::Abort;
use std::sync::Wait;
use std::sync::ledger::{Blank, Ledger};
use std::test::Fail;
use txn_words::{Limits, Op, Refusal, Stop};

/// A map with one owner, who makes each call for a caller with a number.
#[derive(Drop)]
struct Owned {
    map: OwnedMap,
}

impl Map for Owned {
    const FIRST: u64 = 0;

    fn begin(&mut self, place: usize) -> Result<Told, Stop> {
        self.map.begin(place as u64)?;
        Ok(Told::Done)
    }

    /// The owner aborts a transaction that was busy; the other maps do so themselves.
    fn operate(&mut self, place: usize, op: Op) -> Result<Told, Stop> {
        let returned = self.map.operate(place as u64, op);
        if let Err(Stop::Busy { .. }) = returned {
            self.map.abort(place as u64)?;
        }
        Ok(Told::Replied(returned?))
    }

    fn save(&mut self, place: usize) -> Result<Told, Stop> {
        Ok(Told::Number(self.map.save(place as u64)?))
    }

    fn back(&mut self, place: usize, level: u64) -> Result<Told, Stop> {
        self.map.back(place as u64, level)?;
        Ok(Told::Done)
    }

    fn end(&mut self, place: usize, commits: bool) -> Result<Told, Stop> {
        if commits {
            return Ok(Told::Number(self.map.commit(place as u64)?));
        }
        self.map.abort(place as u64)?;
        Ok(Told::Done)
    }
}

/// The limits of a map that plays a run.
fn limits<R: Abort>(rt: &R) -> Limits
    ensures { result.callers ≡ 3 }
{
    Limits::new(CALLERS as u64, STRIPES as u64, 8).expect(rt, "limits in range")
}

/// The answer to an operation on a key of 2^63 or more, if the map takes only keys below 2^63.
const BAD: Told = Told::Refused(Refusal::BadKey);

/// Rows with operations on a key that is refused.
fn each_refused(key: u64) -> [Row; 5] {
    [
        (0, Ask::Do(Op::Get(key)), BAD),
        (0, Ask::Do(Op::Put(key, 0)), BAD),
        (0, Ask::Do(Op::Take(key)), BAD),
        (0, Ask::Do(Op::PutIf(key, None, 0)), BAD),
        (0, Ask::Do(Op::PutIf(key, Some(0), 1)), BAD),
    ]
}

/// Does each operation on the least and the greatest key below 2^63, and on keys from 2^63 on.
fn play_half_keys<R: Abort>(rt: &R, owned: &mut Owned) {
    let half = 9_223_372_036_854_775_808;
    play_keys(rt, owned, &[0, half - 1]);
    play_run(rt, owned, "begin", &[(0, Ask::Begin, Told::Done)]);
    for key in [half, u64::MAX] {
        play_run(rt, owned, "a key that is refused", &each_refused(key));
    }
    play_run(rt, owned, "commit", &[(0, Ask::Commit, Told::Number(2))]);
}

/// What is played on a map with one owner.
#[derive(Clone, Copy)]
enum Played {
    Worked(Run),
    Savepoints,
    Widest,
    HalfKeys,
}

/// Plays rows on a new map with one owner. Returns the number of its keys.
fn play_owned<R: Abort>(rt: &R, alloc: Global, limits: Limits, played: Played) -> u64 {
    let map = OwnedMap::new(alloc, limits).expect(rt, "a map");
    let mut owned = Owned { map };
    match played {
        Played::Worked((name, rows)) => play_run(rt, &mut owned, name, rows),
        Played::Savepoints => play_savepoints(rt, &mut owned),
        Played::Widest => play_keys(rt, &mut owned, &WIDEST),
        Played::HalfKeys => play_half_keys(rt, &mut owned),
    }
    owned.map.len()
}

#[test]
fn the_map_with_one_owner_passes_every_run(rt: HostRuntime) {
    for run in &WORKED {
        play_owned(&rt, rt.alloc(), limits(&rt), Played::Worked(*run));
    }
}

#[test]
fn the_map_with_one_owner_sets_a_thousand_savepoints(rt: HostRuntime) -> Result<(), Fail> {
    for limits in [Limits::new(1, 1, 2)?, Limits::new(64, 4096, 65536)?] {
        play_owned(&rt, rt.alloc(), limits, Played::Savepoints);
    }
    Ok(())
}

#[test]
fn the_map_with_one_owner_takes_every_key_or_only_half_keys(rt: HostRuntime) -> Result<(), Fail> {
    let limits = Limits::new(64, 4096, 65536)?;
    assert_eq!(rt; play_owned(&rt, rt.alloc(), limits, Played::Widest), 7);
    let limits = Limits::new(2, 8, 64)?.half_keys();
    assert_eq!(rt; play_owned(&rt, rt.alloc(), limits, Played::HalfKeys), 2);
    Ok(())
}

/// A map of threads with its callers, which all make their calls on this thread.
#[derive(Drop)]
struct Locked<'a, L: Ledger, R: Wait> {
    rt: &'a R,
    map: SharedMap<L>,
    callers: Vec<Caller<L, NoSide>>,
}

/// Does an operation.
fn operate<L: Ledger, R: Wait>(
    rt: &R,
    map: &SharedMap<L>,
    me: &mut Caller<L, NoSide>,
    op: Op,
) -> Result<Told, Stop> {
    Ok(Told::Replied(match op {
        Op::Put(key, value) => map.put(rt, me, key, value)?,
        Op::Take(key) => map.take(rt, me, key)?,
        Op::Get(key) => map.get(rt, me, key)?,
        Op::PutIf(key, expected, value) => map.put_if(rt, me, key, expected, value)?,
    }))
}

impl<L: Ledger, R: Wait> Map for Locked<'_, L, R> {
    const FIRST: u64 = 0;

    fn begin(&mut self, place: usize) -> Result<Told, Stop> {
        let me = self.callers.get_mut(place).ok_or(NO_CALLER)?;
        self.map.begin(self.rt, me)?;
        Ok(Told::Done)
    }

    fn operate(&mut self, place: usize, op: Op) -> Result<Told, Stop> {
        let me = self.callers.get_mut(place).ok_or(NO_CALLER)?;
        operate(self.rt, &self.map, me, op)
    }

    fn save(&mut self, place: usize) -> Result<Told, Stop> {
        let me = self.callers.get_mut(place).ok_or(NO_CALLER)?;
        Ok(Told::Number(self.map.save(self.rt, me)?))
    }

    fn back(&mut self, place: usize, level: u64) -> Result<Told, Stop> {
        let me = self.callers.get_mut(place).ok_or(NO_CALLER)?;
        self.map.back(self.rt, me, level)?;
        Ok(Told::Done)
    }

    fn end(&mut self, place: usize, commits: bool) -> Result<Told, Stop> {
        let me = self.callers.get_mut(place).ok_or(NO_CALLER)?;
        if commits {
            return Ok(Told::Number(self.map.commit(self.rt, me)?.place));
        }
        self.map.abort(self.rt, me)?;
        Ok(Told::Done)
    }
}

/// Plays a run on a new map of threads.
fn play_locked<L: Ledger, R: Wait + Abort>(rt: &R, alloc: Global, blank: Blank, run: Run)
    requires name { blank.name ≡ L.name }
    requires parts { blank.parts ≡ L.parts }
    requires one_each { blank.parts ≡ 3 }
{
    let (map, passes) = SharedMap::<L>::new(alloc, blank, limits(rt)).expect(rt, "a map");
    let mut callers = Vec::new(alloc);
    for pass in passes {
        callers
            .push(pass.caller(alloc, NoSide))
            .expect(rt, "memory");
    }
    play_run(rt, &mut Locked { rt, map, callers }, run.0, run.1);
}

/// Plays a run on a new map of threads, under a new ledger.
fn play_under<R: Wait + Abort>(rt: &R, alloc: Global, run: Run) {
    play_locked::<Brand, R>(rt, alloc, Blank::new(CALLERS as u64), run);
}

#[test]
fn the_map_of_threads_passes_every_run(rt: HostRuntime) {
    for run in &WORKED {
        play_under(&rt, rt.alloc(), *run);
    }
}
