//! The judge of histories for C: a checker, of `history_check` or of `serial_check`, behind a
//! handle of its own. C feeds it the entries one by one, as numbers, so the history need not come
//! from a map of this library. Invariant: the tag says whether the handle has a checker. If a feed
//! fails because memory is refused, the same entry may be fed again.
ghost use Rattle.std.specs.Prelude.{◌≡◌, ◌<◌, Some, None, IfSome, IsNone, true, is_some};
ghost use Rattle.boostmap_c.specs.Judges.{BeginsJudging, FedFront, Feeds, FeedsAll, FeedsEntry, Frees, TellsVerdict, verdict_of, way_for};
ghost use Rattle.boostmap_c.specs.Entries.{judged_entry};
ghost use Rattle.boostmap_c.specs.Referees.{has_stripes};

use crate::c_entry::CEntry;
use crate::handle::sends;
use crate::owned_pointer::OwnedPointer;
use crate::referee::{Referee, Way};
use crate::referee_pointer::RefereePointer;
use crate::status::{DONE, EMPTY, FULL, NO_ENTRY, refused};
use history_check::Verdict;
use std::alloc::Global;
use std::mem;
use txn_trace::{Holder, Refusal};

/// The tag of a handle with a checker: the bytes of "bmju".
const LIVE: u64 = 0x756a_6d62;

/// The handle of a judge in C's memory. It is all zeros, or owns a checker.
#[repr(C)]
#[derive(Drop)]
pub struct Judge {
    tag: u64,
    pub(crate) held: RefereePointer,
    ghost live: { tag ≡ 0x756a_6d62 → is_some held.referee ≡ true },
    ghost dead: { is_some held.referee ≡ true → tag ≡ 0x756a_6d62 },
}

/// The verdict on the entries so far.
#[repr(C)]
#[derive(Clone, Copy)]
pub struct CVerdict {
    /// 1 if no entry breaks a rule, else 0.
    pub is_legal: u64,
    /// If the history is legal, the number of committed transactions.
    pub commits: u64,
    /// If the history is legal, the number of callers that are in a transaction.
    pub running: u64,
    /// If the history is not legal, the index (from 0) of the first entry that breaks a rule.
    pub entry: u64,
    /// If the history is not legal, the rule that this entry breaks: 1 replies, 2 locks, 3 shape.
    pub rule: u64,
}

impl Judge {
    /// Returns true if the handle has a checker.
    fn is_live(&self) -> bool
        ensures { result ≡ is_some self.now.held.referee }
    {
        self.tag == LIVE
    }
}

/// If the handle has a checker, takes the checker out and leaves the handle all zeros. If it has
/// none, returns `None`.
fn open(alloc: Global, handle: &mut Judge) -> Option<Box<Referee, Global>>
    ensures some { IfSome result (λ referee. handle.old.held.referee ≡ Some referee.value) }
    ensures none { IsNone result → handle.old.held.referee ≡ None }
    ensures zeros { handle.new.held.referee ≡ None }
{
    if handle.tag != LIVE {
        return None;
    }
    let zeros = Judge {
        tag: 0,
        held: RefereePointer::null(),
    };
    let Judge { tag: _, held } = mem::replace(handle, zeros);
    Some(held.restore().into_box(alloc))
}

/// Puts a checker into a handle.
fn close(handle: &mut Judge, referee: Box<Referee, Global>)
    ensures { handle.new.held.referee ≡ Some referee.value }
{
    *handle = Judge {
        tag: LIVE,
        held: RefereePointer::erase(OwnedPointer::from_box(referee)),
    };
}

/// The rule that this number names, if there is such a rule for a map with this many stripes.
fn way_for(stripes: u64, number: u32) -> Option<Way>
    ensures value { result ≡ way_for stripes number }
    ensures stripes { IfSome result (λ way. has_stripes way stripes) }
{
    if number == 2 {
        return Some(Way::ByCommits);
    }
    if stripes == 0 {
        return None;
    }
    if number == 0 {
        return Some(Way::ByLocks(Holder::Now));
    }
    if number == 1 {
        return Some(Way::ByLocks(Holder::Begun));
    }
    None
}

/// The verdict as C reads it.
fn verdict_of(verdict: Verdict) -> CVerdict
    ensures { result ≡ verdict_of verdict }
{
    match verdict {
        Verdict::Legal { commits, running } => CVerdict {
            is_legal: 1,
            commits,
            running,
            entry: 0,
            rule: 0,
        },
        Verdict::Illegal { entry, rule } => CVerdict {
            is_legal: 0,
            commits: 0,
            running: 0,
            entry,
            rule: u64::from(rule.number()),
        },
    }
}

/// If C's numbers stand for an entry, feeds the entry. Returns the status.
fn feed_entry(referee: &mut Referee, entry: &CEntry) -> u32
    ensures { FeedsEntry (judged_entry entry.now) referee.old result referee.new }
{
    match entry.judged() {
        None => NO_ENTRY,
        Some(entry) => match referee.feed(&entry) {
            Ok(()) => DONE,
            Err(_) => refused(Refusal::NoMemory),
        },
    }
}

/// Feeds the entries in their order until a feed fails. Returns the number of entries that were
/// fed, and the status of the feed that failed, or `DONE` if none failed.
fn feed_front(referee: &mut Referee, entries: &[CEntry]) -> (usize, u32)
    ensures { FedFront entries.now referee.old result.1 result.0 referee.new }
{
    'feeds: for i in 0..entries.len() {
        let status = feed_entry(referee, &entries[i]);
        if status != DONE {
            return (i, status);
        }
    }
    (entries.len(), DONE)
}

/// Begins to judge the history of a map with this number of stripes. Rules 0 and 1 judge by locks.
/// Under rule 0, the caller that a Busy entry names must hold the stripe at that time. Under rule
/// 1, this caller must have begun a transaction before. Rule 2 judges by the order of commits, and
/// ignores the stripes.
///
/// # Errors
///
/// On an error the handle is unchanged. The status is 4 if the handle has a checker already, 38
/// (`Limit`) if there is no such rule or if a rule by locks is given 0 stripes, and 30 (`NoMemory`)
/// if memory is refused.
///
/// # Cost
///
/// The cost of the `new` of `history_check::Checker` or `serial_check::Checker`, and memory for the
/// checker.
#[unsafe(no_mangle)]
pub extern "C" fn boostmap_judge_new(
    alloc: Global,
    judge: &mut Judge,
    stripes: u64,
    rule: u32,
) -> u32
    ensures { BeginsJudging judge.old.held.referee stripes rule result judge.new.held.referee }
{
    if judge.is_live() {
        return FULL;
    }
    let Some(way) = way_for(stripes, rule) else {
        return refused(Refusal::Limit);
    };
    let Ok(referee) = Referee::new(alloc, stripes, way) else {
        return refused(Refusal::NoMemory);
    };
    let Ok(referee) = Box::new(alloc, referee) else {
        return refused(Refusal::NoMemory);
    };
    close(judge, referee);
    DONE
}

/// Feeds the judge the next entry. Entries after the first that breaks a rule change nothing.
///
/// # Errors
///
/// On an error the judge was fed nothing. The status is 3 if the handle has no checker, 8 if the
/// numbers stand for no entry with a caller below 64, and 30 (`NoMemory`) if memory is refused.
/// After 30 the entry may be fed again.
///
/// # Cost
///
/// The cost of the `feed` of `history_check::Checker` or `serial_check::Checker`.
#[unsafe(no_mangle)]
pub extern "C" fn boostmap_judge_feed(alloc: Global, judge: &mut Judge, entry: &CEntry) -> u32
    ensures { Feeds judge.old.held.referee entry.now result judge.new.held.referee }
{
    let Some(mut referee) = open(alloc, judge) else {
        return EMPTY;
    };
    let status = feed_entry(&mut referee, entry);
    close(judge, referee);
    status
}

/// Feeds the judge the entries of an array in their order, until a feed fails. The word is the
/// number of entries that were fed.
///
/// # Errors
///
/// If the handle has no checker, the status is 3 and no word is written. If a feed fails, the
/// status is that of `boostmap_judge_feed` for this entry, and the word is the entry's index.
///
/// # Cost
///
/// The cost of `boostmap_judge_feed` for each entry.
#[unsafe(no_mangle)]
pub extern "C" fn boostmap_judge_feed_all(
    alloc: Global,
    judge: &mut Judge,
    entries: &[CEntry],
    word: &mut u64,
) -> u32
    ensures { FeedsAll judge.old.held.referee entries.now result word.old word.new
        judge.new.held.referee }
{
    let Some(mut referee) = open(alloc, judge) else {
        return EMPTY;
    };
    let (count, status) = feed_front(&mut referee, entries);
    close(judge, referee);
    *word = count as u64;
    status
}

/// Writes the verdict on the entries so far.
///
/// # Errors
///
/// The status is 3 if the handle has no checker. Then nothing is written.
///
/// # Cost
///
/// A look at each of 64 callers; takes no memory.
#[unsafe(no_mangle)]
pub extern "C" fn boostmap_judge_verdict(
    alloc: Global,
    judge: &mut Judge,
    verdict: &mut CVerdict,
) -> u32
    ensures { TellsVerdict judge.old.held.referee result verdict.old verdict.new
        judge.new.held.referee }
{
    let Some(referee) = open(alloc, judge) else {
        return EMPTY;
    };
    *verdict = verdict_of(referee.verdict());
    close(judge, referee);
    DONE
}

/// Frees the checker. The handle is then all zeros.
///
/// # Errors
///
/// The status is 3 if the handle has no checker.
///
/// # Cost
///
/// Time in proportion to the stripes, the keys and the changes of open transactions; takes no
/// memory.
#[unsafe(no_mangle)]
pub extern "C" fn boostmap_judge_free(alloc: Global, judge: &mut Judge) -> u32
    ensures { Frees judge.old.held.referee result judge.new.held.referee }
{
    match open(alloc, judge) {
        Some(_referee) => DONE,
        None => EMPTY,
    }
}

/// A referee may go to another thread, and so may a handle that owns one.
pub(crate) fn sends_referee(referee: Referee) -> Referee
    ensures { result ≡ referee }
{
    sends(referee)
}
