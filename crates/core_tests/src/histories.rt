//! Histories that `history_check` judges, as a whole and entry by entry. The verdicts on the worked
//! histories were found by hand. The module `generated` draws more histories from a thousand seeds.
//! All verdicts are compared with those of the slow program in `plain`. The modules `verdicts`,
//! `orders` and `cycles` test the other judges.
mod cycles;
mod generated;
mod orders;
mod plain;
mod verdicts;

use Wanted::{Illegal, Legal};
use generated::{Draws, Way};
use history_check::{Checker, Rule, Verdict, check};
use std::alloc::{AllocError, Global};
use std::process::Abort;
use std::test::Fail;
use txn_files::read_history;
use txn_words::{Entry, Holder, Op};

/// The verdict that `check` returns.
fn checked(
    rt: &impl Abort,
    alloc: Global,
    entries: &[Entry],
    stripes: u64,
    holder: Holder,
) -> Result<Verdict, AllocError> {
    assert!(rt; 0 < stripes && entries.iter().all(|entry| entry.caller() < 64));
    check(alloc, entries, stripes, holder)
}

/// A checker before the first entry.
fn checker_of(
    rt: &impl Abort,
    alloc: Global,
    stripes: u64,
    holder: Holder,
) -> Result<Checker, AllocError> {
    assert!(rt; 0 < stripes);
    Checker::new(alloc, stripes, holder)
}

/// Feeds a checker one more entry.
fn feed(rt: &impl Abort, checker: &mut Checker, entry: &Entry) -> Result<(), AllocError> {
    assert!(rt; entry.caller() < 64);
    checker.feed(entry)
}

/// The verdict of a checker so far.
fn verdict_so_far(checker: &Checker) -> Verdict {
    checker.verdict()
}

/// The verdict of the plain program on the entries up to the one at `place`. `bad` is the first bad
/// entry of the whole history, if there is one.
fn plain_at(entries: &[Entry], place: usize, bad: Option<(usize, Rule)>) -> Verdict {
    match bad {
        Some(bad) if bad.0 <= place => plain::verdict(entries, Some(bad)),
        _ => plain::verdict(entries.get(..=place).unwrap_or(entries), None),
    }
}

/// Checks that the verdict on the first `count` of these entries is the wanted one.
fn says(rt: &impl Abort, said: Verdict, wanted: Verdict, entries: &[Entry], count: usize) {
    assert_eq!(rt; said, wanted, "of the first {count} of {entries:?}");
}

/// Checks that a checker that is fed entry by entry agrees with the plain program.
fn feed_each(
    rt: &impl Abort,
    checker: &mut Checker,
    entries: &[Entry],
    bad: Option<(usize, Rule)>,
) -> Result<(), AllocError> {
    for (i, entry) in entries.iter().enumerate() {
        feed(rt, checker, entry)?;
        let wanted = plain_at(entries, i, bad);
        says(rt, verdict_so_far(checker), wanted, entries, i + 1);
    }
    Ok(())
}

/// Feeds the entries to a new checker, and checks its verdict after each entry.
fn feed_new(
    rt: &impl Abort,
    alloc: Global,
    entries: &[Entry],
    bad: Option<(usize, Rule)>,
    stripes: u64,
    holder: Holder,
) -> Result<(), AllocError> {
    match checker_of(rt, alloc, stripes, holder) {
        Ok(mut checker) => feed_each(rt, &mut checker, entries, bad),
        Err(AllocError) => Err(AllocError),
    }
}

/// The verdict of the plain program. Checks that `check` gives the same verdict, and that a checker
/// that is fed entry by entry agrees after each entry.
fn judge(
    rt: &impl Abort,
    alloc: Global,
    entries: &[Entry],
    stripes: u64,
    holder: Holder,
) -> Result<Verdict, AllocError> {
    let bad = plain::first_bad(alloc, entries, stripes, holder)?;
    let expected = plain::verdict(entries, bad);
    let whole = checked(rt, alloc, entries, stripes, holder)?;
    says(rt, whole, expected, entries, entries.len());
    feed_new(rt, alloc, entries, bad, stripes, holder)?;
    Ok(expected)
}

/// A verdict: the numbers of commits and of open transactions of a legal history, or the first bad
/// entry of another history and the rule that it breaks.
#[derive(Clone, Copy)]
enum Wanted {
    Legal(u64, u64),
    Illegal(u64, Rule),
}

impl Wanted {
    fn verdict(self) -> Verdict {
        match self {
            Wanted::Legal(commits, running) => Verdict::Legal { commits, running },
            Wanted::Illegal(entry, rule) => Verdict::Illegal { entry, rule },
        }
    }
}

/// The entries of a history file whose entries have this text. The text has no fault, so an error
/// says that memory was refused.
pub(crate) fn entries_of(alloc: Global, text: &str) -> Result<Vec<Entry>, AllocError> {
    let file = format!(in alloc; "{{\"version\":3,\"stripes\":8,\"entries\":[{text}]}}")?;
    match read_history(alloc, file.as_bytes()) {
        Ok((_, entries, _)) => Ok(entries),
        Err(_) => Err(AllocError),
    }
}

/// A transaction that commits, a transaction whose change is taken back by an abort, and a reader.
const REPLIES: &str = r#"["began",0,1],["asked",0,"put",1,10],["did",0,null],["committed",0,1],
    ["began",1,2],["asked",1,"put",1,99],["did",1,10],["leave",1,null],["undone",1],["aborted",1],
    ["began",0,3],["asked",0,"get",1],["did",0,10],["committed",0,2]"#;

/// An entry that replaces the entry at one place of a history, if any.
type Change = Option<(usize, Entry)>;

/// The reply that the reader of `REPLIES` would have if the change had not been taken back.
const STALE_REPLY: Change = Some((12, Entry::Did(0, Some(99))));

/// Wrong replies to the second operation of `PUT_IF` and of `ONE_SPLIT_KEY`.
const NO_REPLY: Change = Some((4, Entry::Did(0, None)));

const OTHER_REPLY: Change = Some((4, Entry::Did(0, Some(11))));

/// An abort that does not take back its transaction's change.
const NOT_UNDONE: &str = r#"["began",0,1],["asked",0,"put",1,10],["did",0,null],["committed",0,1],
    ["began",1,2],["asked",1,"put",1,99],["did",1,10],["leave",1,null],["aborted",1]"#;

/// Two callers ask for keys 1 and 9. The keys have the same stripe if there are 8 stripes, and
/// different stripes if there are 16.
const ONE_STRIPE: &str = r#"["began",0,1],["asked",0,"get",1],["began",1,2],["asked",1,"get",9]"#;

/// A caller asks for a key of a stripe that another caller holds. The holder has changed a key of
/// this stripe, and its transaction has not ended.
const ON_A_CHANGE: &str = r#"["began",0,1],["asked",0,"put",1,10],["did",0,null],["began",1,2],
    ["asked",1,"get",9]"#;

/// A Busy entry that names a caller that has never begun.
const BUSY_BY_NOBODY: &str = r#"["began",0,1],["busy",0,"get",9,1]"#;

/// A Busy entry that names a caller whose transaction has ended.
const HOLDER_HAS_BEGUN: &str = r#"["began",0,1],["asked",0,"put",1,10],["did",0,null],
    ["committed",0,1],["began",1,2],["busy",1,"get",9,0]"#;

/// A Busy entry that names a caller without any entry.
const BUSY_AT_FIRST: &str = r#"["began",1,1],["busy",1,"get",9,0]"#;

/// A get whose reply is a value that was never put.
const INVENTED: &str = r#"["began",0,1],["asked",0,"get",5],["did",0,7],["leave",0,null]"#;

/// A transaction in which the first of two `PutIf`s is a change, and the second is not.
const PUT_IF: &str = r#"["began",0,1],["asked",0,"put_if",1,null,5],["did",0,null],
    ["asked",0,"put_if",1,4,6],["did",0,5],["leave",0,null],["undone",0],["aborted",0]"#;

/// The transaction of `PUT_IF`, but it takes two changes back, although it made only one.
const PUT_IF_UNDONE_TWICE: &str = r#"["began",0,1],["asked",0,"put_if",1,null,5],["did",0,null],
    ["asked",0,"put_if",1,4,6],["did",0,5],["leave",0,null],["undone",0],["undone",0],
    ["aborted",0]"#;

/// Keys 1 and 2^63 + 1, which differ only in their top bit.
const ONE_SPLIT_KEY: &str = r#"["began",0,1],["asked",0,"put",9223372036854775809,11],
    ["did",0,null],["asked",0,"put",1,10],["did",0,null],["asked",0,"put_if",1,10,12],["did",0,10],
    ["asked",0,"get",9223372036854775809],["did",0,11],["committed",0,1]"#;

/// A transaction that goes back to its first savepoint. Then it tries to go back to its second
/// savepoint, which no longer exists.
const WITH_SAVEPOINTS: &str = r#"["began",0,1],["asked",0,"put",1,10],["did",0,null],["saved",0],
    ["asked",0,"put",1,11],["did",0,10],["saved",0],["asked",0,"take",1],["did",0,11],
    ["leave",0,1],["undone",0],["undone",0],["returned",0,1],["asked",0,"get",1],["did",0,10],
    ["leave",0,2]"#;

/// Each row has a history, an entry that replaces the entry at one place (if any), the number of
/// stripes, and the wanted verdict.
type Row = (&'static str, Change, u64, Wanted);

/// Histories with their verdicts. A Busy entry must name a caller that holds the stripe at that
/// moment (`Holder::Now`).
static BY_HOLDERS_OF_NOW: [Row; 19] = [
    // Histories about replies, like `checker_replies` in `crates/txn_trace/proofs/Cases.antt`.
    (REPLIES, None, 8, Legal(2, 0)),
    (REPLIES, STALE_REPLY, 8, Illegal(12, Rule::Replies)),
    (NOT_UNDONE, None, 8, Illegal(8, Rule::Shape)),
    // Histories about locks.
    (ON_A_CHANGE, None, 8, Illegal(4, Rule::Locks)),
    (BUSY_BY_NOBODY, None, 8, Illegal(1, Rule::Locks)),
    // `holder_has_begun` of `crates/txn_trace/proofs/HolderCases.antt`. Its Busy entry names a
    // caller that no longer holds the stripe.
    (HOLDER_HAS_BEGUN, None, 8, Illegal(5, Rule::Locks)),
    // Forged histories.
    ("", None, 8, Legal(0, 0)),
    (r#"["undone",0]"#, None, 8, Illegal(0, Rule::Shape)),
    (
        r#"["began",0,1],["committed",0,2]"#,
        None,
        8,
        Illegal(1, Rule::Shape),
    ),
    (
        r#"["began",0,1],["leave",0,1]"#,
        None,
        8,
        Illegal(1, Rule::Shape),
    ),
    (INVENTED, None, 8, Illegal(2, Rule::Replies)),
    (ONE_STRIPE, None, 8, Illegal(3, Rule::Locks)),
    (ONE_STRIPE, None, 16, Legal(0, 2)),
    // `put_if_history` of `crates/txn_trace/proofs/WideCases.antt`, the same history with a wrong
    // reply, and the same history with two changes taken back.
    (PUT_IF, None, 8, Legal(0, 0)),
    (PUT_IF, NO_REPLY, 8, Illegal(4, Rule::Replies)),
    (PUT_IF_UNDONE_TWICE, None, 8, Illegal(7, Rule::Shape)),
    // Histories with keys that share a split key, and with savepoints.
    (ONE_SPLIT_KEY, None, 8, Legal(1, 0)),
    (ONE_SPLIT_KEY, OTHER_REPLY, 8, Illegal(4, Rule::Replies)),
    (WITH_SAVEPOINTS, None, 8, Illegal(15, Rule::Shape)),
];

/// Busy entries of caller 1 that name the caller itself, or a caller that does not exist.
const BY_ITSELF: Change = Some((1, Entry::Busy(1, Op::Get(9), 1)));

const BY_CALLER_64: Change = Some((1, Entry::Busy(1, Op::Get(9), 64)));

const BY_THE_LAST: Change = Some((1, Entry::Busy(1, Op::Get(9), u64::MAX)));

/// Histories with their verdicts. A Busy entry may name any other caller that has begun
/// (`Holder::Begun`). The first row is `holder_has_begun`. In the others a Busy entry names a
/// caller that has not begun, or the caller itself.
static BY_HOLDERS_THAT_HAVE_BEGUN: [Row; 5] = [
    (HOLDER_HAS_BEGUN, None, 8, Legal(1, 1)),
    (BUSY_AT_FIRST, None, 8, Illegal(1, Rule::Locks)),
    (BUSY_AT_FIRST, BY_ITSELF, 8, Illegal(1, Rule::Locks)),
    (BUSY_AT_FIRST, BY_CALLER_64, 8, Illegal(1, Rule::Locks)),
    (BUSY_AT_FIRST, BY_THE_LAST, 8, Illegal(1, Rule::Locks)),
];

/// Replaces an entry of a history.
fn replace(entries: &mut [Entry], change: Change) {
    if let Some((place, entry)) = change {
        if let Some(changed) = entries.get_mut(place) {
            *changed = entry;
        }
    }
}

fn judge_row(rt: &impl Abort, alloc: Global, holder: Holder, row: &Row) -> Result<(), AllocError> {
    let (history, change, stripes, wanted) = *row;
    let mut entries = entries_of(alloc, history)?;
    replace(entries.as_mut_slice(), change);
    let verdict = judge(rt, alloc, &entries, stripes, holder)?;
    says(rt, verdict, wanted.verdict(), &entries, entries.len());
    Ok(())
}

fn judge_rows(
    rt: &impl Abort,
    alloc: Global,
    holder: Holder,
    rows: &[Row],
) -> Result<(), AllocError> {
    for row in rows {
        judge_row(rt, alloc, holder, row)?;
    }
    Ok(())
}

#[test]
fn worked_histories(rt: HostRuntime) -> Result<(), Fail> {
    judge_rows(&rt, rt.alloc(), Holder::Now, &BY_HOLDERS_OF_NOW)?;
    judge_rows(&rt, rt.alloc(), Holder::Begun, &BY_HOLDERS_THAT_HAVE_BEGUN)?;
    Ok(())
}

/// Returns true if an allocation is refused now.
fn is_refused(alloc: Global) -> bool {
    Box::new(alloc, 0).is_err()
}

/// Makes a checker. If memory is refused, tries once more. Returns `None` if memory is refused
/// twice.
fn start_checker(rt: &impl Abort, alloc: Global) -> Option<Checker> {
    for _ in 0..2 {
        if let Ok(checker) = checker_of(rt, alloc, 8, Holder::Now) {
            return Some(checker);
        }
    }
    assert!(rt; is_refused(alloc));
    None
}

/// Feeds a checker an entry. If memory for the entry is refused, the verdict must be unchanged, and
/// the entry is fed once more. Returns true if the checker accepted the entry.
fn is_fed(rt: &impl Abort, checker: &mut Checker, entry: &Entry) -> bool {
    let before = verdict_so_far(checker);
    for _ in 0..2 {
        if feed(rt, checker, entry).is_ok() {
            return true;
        }
        assert_eq!(rt;
            verdict_so_far(checker),
            before,
            "a refused entry changes nothing"
        );
    }
    false
}

/// A checker has accepted `taken` entries, and was refused memory for the next entry. Instead of
/// that entry, feeds the checker an entry that no caller may add, which needs no memory. The
/// verdict must be that the new entry, which has number `taken`, is illegal.
fn end_refused(rt: &impl Abort, alloc: Global, checker: &mut Checker, taken: usize) {
    assert!(rt; is_refused(alloc));
    assert!(rt; feed(rt, checker, &Entry::Undone(63)).is_ok());
    let wanted = Verdict::Illegal {
        entry: taken as u64,
        rule: Rule::Shape,
    };
    assert_eq!(rt; verdict_so_far(checker), wanted);
}

/// The wanted verdict after the entry at `place`. Each row has the place of an entry, and the
/// verdict from that entry on.
fn verdict_at(rows: &[(usize, Wanted)], place: usize) -> Option<Verdict> {
    let mut found = None;
    for (first, verdict) in rows {
        if *first <= place {
            found = Some(verdict.verdict());
        }
    }
    found
}

/// Feeds a checker the entries, and compares its verdict after each entry. An entry that is refused
/// memory is fed once more. If it is refused again, the feeding ends with `end_refused`.
fn feed_rows(
    rt: &impl Abort,
    alloc: Global,
    checker: &mut Checker,
    entries: &[Entry],
    rows: &[(usize, Wanted)],
) {
    for (i, entry) in entries.iter().enumerate() {
        if !is_fed(rt, checker, entry) {
            return end_refused(rt, alloc, checker, i);
        }
        let verdict = Some(verdict_so_far(checker));
        assert!(rt; verdict == verdict_at(rows, i), "after entry {i}");
    }
}

/// The entries of this text. If memory is refused, tries once more. Returns `None` if memory is
/// refused twice.
fn entries_if_read(rt: &impl Abort, alloc: Global, text: &str) -> Option<Vec<Entry>> {
    for _ in 0..2 {
        if let Ok(entries) = entries_of(alloc, text) {
            return Some(entries);
        }
    }
    assert!(rt; is_refused(alloc));
    None
}

/// If there is memory for the entries and for a checker, feeds the entries of this text, with one
/// of them replaced, to a new checker, and checks its verdict after each entry.
fn feed_all(rt: &impl Abort, alloc: Global, text: &str, change: Change, rows: &[(usize, Wanted)]) {
    let Some(mut entries) = entries_if_read(rt, alloc, text) else {
        return;
    };
    replace(entries.as_mut_slice(), change);
    if let Some(mut checker) = start_checker(rt, alloc) {
        feed_rows(rt, alloc, &mut checker, &entries, rows);
    }
}

/// The verdicts on `REPLIES` with a stale last reply. Each row has the place of an entry, and the
/// verdict from that entry on.
const OF_STALE_REPLIES: [(usize, Wanted); 6] = [
    (0, Legal(0, 1)),
    (3, Legal(1, 0)),
    (4, Legal(1, 1)),
    (9, Legal(1, 0)),
    (10, Legal(1, 1)),
    (12, Illegal(12, Rule::Replies)),
];

/// This test is meant to be run with allocations refused. A refused entry changes nothing, and is
/// fed once more.
#[test]
fn fed_entry_by_entry(rt: HostRuntime) {
    feed_all(&rt, rt.alloc(), REPLIES, STALE_REPLY, &OF_STALE_REPLIES);
}

/// The verdicts on `WITH_SAVEPOINTS`.
const OF_SAVEPOINTS: [(usize, Wanted); 2] = [(0, Legal(0, 1)), (15, Illegal(15, Rule::Shape))];

/// This test is meant to be run with allocations refused. A refused entry changes nothing, and is
/// fed once more.
#[test]
fn fed_with_savepoints(rt: HostRuntime) {
    feed_all(&rt, rt.alloc(), WITH_SAVEPOINTS, None, &OF_SAVEPOINTS);
}

/// How many histories had each verdict.
#[derive(Default, Drop)]
struct Tally {
    legal: u64,
    replies: u64,
    locks: u64,
    shape: u64,
}

impl Tally {
    fn count(&mut self, verdict: Verdict) {
        let place = match verdict {
            Verdict::Legal { .. } => &mut self.legal,
            Verdict::Illegal { rule, .. } => match rule {
                Rule::Replies => &mut self.replies,
                Rule::Locks => &mut self.locks,
                Rule::Shape => &mut self.shape,
            },
        };
        *place = place.saturating_add(1);
    }
}

/// Judges a drawn history, which must be legal. Then spoils the history at one place, and returns
/// the verdict on the spoiled history.
fn judge_history(
    rt: &impl Abort,
    alloc: Global,
    draws: &mut Draws,
    history: &mut Vec<Entry>,
    stripes: u64,
    holder: Holder,
) -> Result<Verdict, AllocError> {
    let verdict = judge(rt, alloc, history, stripes, holder)?;
    assert!(rt; matches!(verdict, Verdict::Legal { .. }), "{history:?}");
    generated::spoil(draws, history)?;
    judge(rt, alloc, history, stripes, holder)
}

/// Draws a history from the seed, and judges it with `judge_history`. Returns the verdict on the
/// spoiled history.
fn judge_seed(
    rt: &impl Abort,
    alloc: Global,
    seed: u64,
    holder: Holder,
) -> Result<Verdict, AllocError> {
    let mut draws = Draws(seed);
    let stripes = draws.below(4).wrapping_add(1);
    let length = draws.below(31);
    let mut history = generated::history(alloc, &mut draws, Way::Locked(stripes, holder), length)?;
    judge_history(rt, alloc, &mut draws, &mut history, stripes, holder)
}

#[test]
fn agrees_with_the_plain_program(rt: HostRuntime) -> Result<(), Fail> {
    let alloc = rt.alloc();
    let mut tally = Tally::default();
    for seed in 0..1000 {
        tally.count(judge_seed(&rt, alloc, seed, Holder::Now)?);
        tally.count(judge_seed(&rt, alloc, seed, Holder::Begun)?);
    }
    assert!(rt; 500 < tally.legal, "legal: {}", tally.legal);
    assert!(rt; 100 < tally.replies, "rule 1: {}", tally.replies);
    assert!(rt; 100 < tally.locks, "rule 2: {}", tally.locks);
    assert!(rt; 300 < tally.shape, "rule 3: {}", tally.shape);
    Ok(())
}
