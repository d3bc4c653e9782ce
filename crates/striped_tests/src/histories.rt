//! These tests run callers in threads, record their calls, merge the calls into one history, and
//! judge the history.
//!
//! All callers share one counter. A caller takes a first stamp from the counter before each of its
//! calls, and a second stamp after the call. The stamps decide where the entries of a call stand in
//! the history:
//!
//! - Begin, operation, savepoint and return to a level: at the second stamp of the call. The stripe
//!   of an operation is held at that time.
//! - Abort: at the first stamp of the call. The caller's stripes are still held at that time.
//! - Commit: at the greatest first stamp among this commit and all commits with lower places. A
//!   commit frees stripes, as an abort does, and commits must stand in the order of their places.
//!   All these stamps were taken before the atomic step of this commit.
//! - Operation that finds its stripe held: at the later one of two stamps. One is the first stamp
//!   of the call. The other is the second stamp of the first begin of the caller that holds the
//!   stripe.
use crate::calls::{Home, answer, open};
use crate::threads::must_start;
use crate::worked::{Ask, Told};
use history_check::{Checker, Verdict};
use std::alloc::{AllocError, Global};
use std::process::Abort;
use std::sync::Wait;
use std::sync::atomic::{AtomicU64, Ordering};
use std::thread;
use std::thread::Threads;
use striped_map::Caller;
use txn_words::{Entry, Holder, Op};

/// The transactions that the callers run in their threads.
#[derive(Clone, Copy)]
enum Plan {
    /// Each caller runs four transactions that look random.
    Drawn,
    /// Each caller has a hundred keys that no other caller has. For each key the caller runs one
    /// transaction, which puts the key, takes it and puts it again.
    Scripts,
}

impl Plan {
    /// How many transactions each caller runs.
    fn transactions(self) -> u64 {
        match self {
            Plan::Drawn => 4,
            Plan::Scripts => 100,
        }
    }
}

/// A call and its answer, with the stamps that were taken before and after the call.
#[derive(Clone, Copy)]
struct Noted {
    before: u64,
    after: u64,
    what: Ask,
    told: Told,
}

/// A caller that notes its calls.
#[derive(Drop)]
struct Recorder {
    caller: Caller,
    number: u64,
    dice: u64,
    log: Vec<Noted>,
}

impl Recorder {
    /// Makes a recorder for the caller at this place.
    fn new(alloc: Global, caller: Caller, place: usize, seed: u64) -> Recorder {
        let number = (place as u64).wrapping_add(1);
        Recorder {
            caller,
            number,
            dice: seed.wrapping_mul(64).wrapping_add(number),
            log: Vec::new(alloc),
        }
    }

    /// Returns a number below `sides` that looks random.
    fn roll(&mut self, sides: u64) -> u64 {
        let next = self.dice.wrapping_mul(6_364_136_223_846_793_005);
        self.dice = next.wrapping_add(1);
        (self.dice >> 33).checked_rem(sides).unwrap_or(0)
    }

    /// Picks a call within a transaction as if at random. Most calls are operations on one of 24
    /// keys.
    fn draw(&mut self) -> Ask {
        let (key, value) = (self.roll(24), self.roll(3));
        match self.roll(9) {
            0 | 1 => Ask::Do(Op::Put(key, value)),
            2 => Ask::Do(Op::Take(key)),
            3 => Ask::Do(Op::PutIf(key, Some(value), self.roll(3))),
            4 => Ask::Do(Op::PutIf(key, None, value)),
            5 => Ask::Save,
            6 => Ask::Back(value),
            _ => Ask::Do(Op::Get(key)),
        }
    }

    /// Makes a call and notes it. Returns false if the call was busy, which ends the transaction.
    fn ask(&mut self, clock: &AtomicU64, what: Ask) -> Result<bool, AllocError> {
        let before = clock.fetch_add(1, Ordering::SeqCst);
        let told = answer(&mut self.caller, what);
        let after = clock.fetch_add(1, Ordering::SeqCst);
        self.log.push(Noted {
            before,
            after,
            what,
            told,
        })?;
        Ok(!matches!(told, Told::Busy(_)))
    }

    /// Picks the call that ends a transaction: in one of five cases an abort, else a commit.
    fn draw_end(&mut self) -> Ask {
        match self.roll(5) {
            0 => Ask::Abort,
            _ => Ask::Commit,
        }
    }

    /// Runs a transaction whose calls look random.
    fn transact(&mut self, clock: &AtomicU64) -> Result<(), AllocError> {
        self.ask(clock, Ask::Begin)?;
        for _ in 0..self.roll(9) {
            let what = self.draw();
            if !self.ask(clock, what)? {
                return Ok(());
            }
            thread::yield_now();
        }
        let end = self.draw_end();
        self.ask(clock, end)?;
        Ok(())
    }

    /// Runs a transaction that puts the key, takes it, and puts it again. No other caller has this
    /// key.
    fn script(&mut self, clock: &AtomicU64, key: u64) -> Result<(), AllocError> {
        let calls = [
            Ask::Begin,
            Ask::Do(Op::Put(key, key)),
            Ask::Do(Op::Take(key)),
            Ask::Do(Op::Put(key, key.wrapping_add(1))),
            Ask::Commit,
        ];
        for what in calls {
            self.ask(clock, what)?;
        }
        Ok(())
    }

    /// Runs the caller's transaction with the number `place`, counted from 0, as the plan says.
    fn run_one(&mut self, clock: &AtomicU64, plan: Plan, place: u64) -> Result<(), AllocError> {
        match plan {
            Plan::Drawn => self.transact(clock),
            Plan::Scripts => {
                let first = self.number.wrapping_mul(100);
                self.script(clock, first.wrapping_add(place))
            }
        }
    }

    /// Runs all transactions of the plan.
    fn run<R: Abort>(&mut self, rt: &R, clock: &AtomicU64, plan: Plan) {
        for place in 0..plan.transactions() {
            let ran = self.run_one(clock, plan, place);
            assert!(rt; ran.is_ok());
        }
    }
}

/// Adds a recorder to a list.
fn add<R: Abort>(rt: &R, all: &mut Vec<Recorder>, one: Recorder) {
    let added = all.push(one);
    assert!(rt; added.is_ok());
}

/// Makes a recorder for each caller of a map.
fn recorders<R: Abort>(rt: &R, alloc: Global, home: Home, seed: u64) -> Vec<Recorder> {
    let mut all = Vec::new(alloc);
    for (place, caller) in home.callers.into_iter().enumerate() {
        add(rt, &mut all, Recorder::new(alloc, caller, place, seed));
    }
    all
}

/// Runs each caller in its own thread.
fn run_all<R: Threads + Wait + Abort + Sync>(
    rt: &R,
    all: &mut [Recorder],
    clock: &AtomicU64,
    plan: Plan,
) {
    thread::scope(thread::scope_env(), rt, |scope| {
        for one in all {
            let started = scope.spawn(move || one.run(rt, clock, plan));
            must_start(rt, started.is_ok());
        }
    });
}

/// Adds a caller's commits to the list. Each is noted with its place and its first stamp.
fn note_commits(commits: &mut Vec<(u64, u64)>, one: &Recorder) -> Result<(), AllocError> {
    for noted in &one.log {
        if let (Ask::Commit, Told::Number(place)) = (noted.what, noted.told) {
            commits.push((place, noted.before))?;
        }
    }
    Ok(())
}

/// Sorts commits by their places. Then sets the stamp of each commit to the greatest stamp among
/// this commit and the commits before it.
fn raise_stamps(commits: &mut Vec<(u64, u64)>) {
    commits.sort_unstable_by_key(|commit| commit.0);
    let mut latest = 0u64;
    for commit in commits.iter_mut() {
        latest = latest.max(commit.1);
        commit.1 = latest;
    }
}

/// An entry with its sort key: a stamp, then an order among the entries with the same stamp, then
/// the number of lines that were put before it.
type Line = ((u64, u64, usize), Entry);

/// Turns the callers' calls into entries, one caller after the other.
#[derive(Drop)]
struct Merge {
    /// The places of the commits, with their stamps.
    commits: Vec<(u64, u64)>,
    firsts: Vec<u64>,
    lines: Vec<Line>,
    caller: u64,
    standing: u64,
    levels: Vec<u64>,
}

/// Returns the stamp at a place, counted from 1. Returns `u64::MAX` if there is no such stamp.
fn stamp_at(stamps: &[u64], place: u64) -> u64 {
    let index = place.wrapping_sub(1) as usize;
    stamps.get(index).copied().unwrap_or(u64::MAX)
}

impl Merge {
    fn new(alloc: Global) -> Merge {
        Merge {
            commits: Vec::new(alloc),
            firsts: Vec::new(alloc),
            lines: Vec::new(alloc),
            caller: 0,
            standing: 0,
            levels: Vec::new(alloc),
        }
    }

    /// Adds an entry with its sort key to the lines.
    fn put(&mut self, stamp: u64, order: u64, entry: Entry) -> Result<(), AllocError> {
        let line = self.lines.len();
        self.lines.push(((stamp, order, line), entry))?;
        Ok(())
    }

    /// Puts the entry `first`, then one `Undone` for each change that is taken back, then the entry
    /// `last`. The transaction keeps its first `left` changes. All later changes that were not
    /// undone before are taken back.
    fn put_undone(
        &mut self,
        stamp: u64,
        first: Entry,
        left: u64,
        last: Entry,
    ) -> Result<(), AllocError> {
        self.put(stamp, 1, first)?;
        for _ in left..self.standing {
            self.put(stamp, 1, Entry::Undone(self.caller))?;
        }
        self.standing = left;
        self.put(stamp, 1, last)
    }

    /// Puts the entries of an operation.
    fn put_op(&mut self, noted: &Noted, op: Op) -> Result<(), AllocError> {
        let caller = self.caller;
        match noted.told {
            Told::Replied(reply) => {
                if op.changes(reply) {
                    self.standing = self.standing.wrapping_add(1);
                }
                self.put(noted.after, 0, Entry::Asked(caller, op))?;
                self.put(noted.after, 0, Entry::Did(caller, reply))
            }
            Told::Busy(place) => {
                let holder = place.wrapping_add(1);
                let stamp = noted.before.max(stamp_at(&self.firsts, holder));
                let busy = Entry::Busy(caller, op, holder);
                self.put_undone(stamp, busy, 0, Entry::Aborted(caller))
            }
            _ => Ok(()),
        }
    }

    /// Puts the entries of a savepoint, or of a return to `level`.
    fn put_level(&mut self, noted: &Noted, level: Option<u64>) -> Result<(), AllocError> {
        let caller = self.caller;
        let Some(level) = level else {
            self.levels.push(self.standing)?;
            return self.put(noted.after, 0, Entry::Saved(caller));
        };
        let left = match level {
            0 => 0,
            _ => stamp_at(&self.levels, level),
        };
        self.levels.truncate(level as usize);
        let leave = Entry::Leave(caller, Some(level));
        self.put_undone(noted.after, leave, left, Entry::Returned(caller, level))
    }

    /// Returns the stamp of the commit with this place.
    fn stamp_of(&self, place: u64) -> u64 {
        let index = place.wrapping_sub(1) as usize;
        match self.commits.get(index) {
            Some(commit) => commit.1,
            None => u64::MAX,
        }
    }

    /// Puts the entry of a begin.
    fn put_begin(&mut self, noted: &Noted) -> Result<(), AllocError> {
        self.standing = 0;
        self.levels.clear();
        self.put(noted.after, 0, Entry::Began(self.caller, 0))
    }

    /// Puts the entry of a commit.
    fn put_commit(&mut self, noted: &Noted) -> Result<(), AllocError> {
        let Told::Number(place) = noted.told else {
            return Ok(());
        };
        let stamp = self.stamp_of(place);
        self.put(stamp, place, Entry::Committed(self.caller, place))
    }

    /// Puts the entries of a call, unless it was refused.
    fn put_call(&mut self, noted: &Noted) -> Result<(), AllocError> {
        let caller = self.caller;
        if let Told::Refused(_) = noted.told {
            return Ok(());
        }
        match noted.what {
            Ask::Begin => self.put_begin(noted),
            Ask::Do(op) => self.put_op(noted, op),
            Ask::Save => self.put_level(noted, None),
            Ask::Back(level) => self.put_level(noted, Some(level)),
            Ask::Commit => self.put_commit(noted),
            Ask::Abort => {
                let leave = Entry::Leave(caller, None);
                self.put_undone(noted.before, leave, 0, Entry::Aborted(caller))
            }
            _ => Ok(()),
        }
    }

    /// Notes the stamp of a caller's first begin, and the caller's commits.
    fn note(&mut self, one: &Recorder) -> Result<(), AllocError> {
        let first = match one.log.first() {
            Some(noted) => noted.after,
            None => u64::MAX,
        };
        self.firsts.push(first)?;
        note_commits(&mut self.commits, one)
    }

    /// Notes the stamp of each caller's first begin, and the commits of all callers. Then raises
    /// the stamps of the commits.
    fn note_all(&mut self, all: &[Recorder]) -> Result<(), AllocError> {
        for one in all {
            self.note(one)?;
        }
        raise_stamps(&mut self.commits);
        Ok(())
    }

    /// Puts the entries of a caller.
    fn put_all(&mut self, one: &Recorder) -> Result<(), AllocError> {
        self.caller = one.number;
        for noted in &one.log {
            self.put_call(noted)?;
        }
        Ok(())
    }

    /// Puts the entries of all callers, and sorts them into one history.
    fn merge(&mut self, all: &[Recorder]) -> Result<(), AllocError> {
        self.note_all(all)?;
        for one in all {
            self.put_all(one)?;
        }
        self.lines.sort_unstable_by_key(|line| line.0);
        Ok(())
    }
}

/// Numbers the transactions, and feeds the entries to the checker. Stops and returns false at the
/// first entry whose caller has a number of 64 or more.
fn feed_all(checker: &mut Checker, lines: &[Line]) -> Result<bool, AllocError> {
    let mut begun = 0u64;
    for line in lines {
        let mut entry = line.1;
        if let Entry::Began(caller, _) = entry {
            begun = begun.wrapping_add(1);
            entry = Entry::Began(caller, begun);
        }
        if entry.caller() >= 64 {
            return Ok(false);
        }
        checker.feed(&entry)?;
    }
    Ok(true)
}

/// Returns how many transactions a history commits. Returns `None` if the history is not legal, if
/// it names a caller with a number of 64 or more, or if a transaction is open at its end.
fn commits_fed(checker: &mut Checker, lines: &[Line]) -> Result<Option<u64>, AllocError> {
    if !feed_all(checker, lines)? {
        return Ok(None);
    }
    match checker.verdict() {
        Verdict::Legal {
            commits,
            running: 0,
        } => Ok(Some(commits)),
        _ => Ok(None),
    }
}

/// Makes a checker, and returns what `commits_fed` returns. Returns `None` if there are no stripes.
fn commits_in(alloc: Global, stripes: u64, lines: &[Line]) -> Result<Option<u64>, AllocError> {
    if stripes == 0 {
        return Ok(None);
    }
    let mut checker = Checker::new(alloc, stripes, Holder::Begun)?;
    commits_fed(&mut checker, lines)
}

/// Merges the calls of these callers into one history, and returns what `commits_in` returns for
/// it.
fn commits_by(
    alloc: Global,
    stripes: u64,
    merge: &mut Merge,
    all: &[Recorder],
) -> Result<Option<u64>, AllocError> {
    merge.merge(all)?;
    commits_in(alloc, stripes, merge.lines.as_slice())
}

/// Runs the callers, and returns what `commits_by` returns for their calls.
fn run_and_judge<R: Threads + Wait + Abort + Sync>(
    rt: &R,
    alloc: Global,
    stripes: usize,
    all: &mut [Recorder],
    plan: Plan,
) -> Option<u64> {
    run_all(rt, all, &AtomicU64::new(1), plan);
    let commits = commits_by(alloc, stripes as u64, &mut Merge::new(alloc), all);
    commits.expect(rt, "memory")
}

/// Runs the callers of a new map as the plan says. Returns what `run_and_judge` returns.
fn commits_of<R: Threads + Wait + Abort + Sync>(
    rt: &R,
    alloc: Global,
    stripes: usize,
    callers: usize,
    seed: u64,
    plan: Plan,
) -> Option<u64> {
    let home = open(rt, alloc, stripes, callers);
    let mut all = recorders(rt, alloc, home, seed);
    run_and_judge(rt, alloc, stripes, all.as_mut_slice(), plan)
}

/// Makes a quarter of the thousand runs, on 8 stripes. The seed determines the number of callers,
/// which is 2 to 16. Each history must be legal.
fn run_quarter<R: Threads + Wait + Abort + Sync>(rt: &R, alloc: Global, quarter: u64) {
    for run in 0..250u64 {
        let seed = quarter.wrapping_mul(250).wrapping_add(run);
        let callers = 2 + (seed % 15) as usize;
        let commits = commits_of(rt, alloc, 8, callers, seed, Plan::Drawn);
        assert!(rt; commits.is_some(), "seed {seed}");
    }
}

/// The thousand runs are split into four tests. The reason is that a test may take at most a
/// minute, and that threads are slow on a machine that has other work.
#[test]
fn runs_0_to_249(rt: HostRuntime) {
    run_quarter(&rt, rt.alloc(), 0);
}

#[test]
fn runs_250_to_499(rt: HostRuntime) {
    run_quarter(&rt, rt.alloc(), 1);
}

#[test]
fn runs_500_to_749(rt: HostRuntime) {
    run_quarter(&rt, rt.alloc(), 2);
}

#[test]
fn runs_750_to_999(rt: HostRuntime) {
    run_quarter(&rt, rt.alloc(), 3);
}

/// Four callers commit a hundred transactions each. No caller finds a stripe held, and the places
/// of the commits are 1 to 400.
#[test]
fn four_hundred_scripts(rt: HostRuntime) {
    let commits = commits_of(&rt, rt.alloc(), 4096, 4, 0, Plan::Scripts);
    assert!(rt; commits == Some(400));
}
