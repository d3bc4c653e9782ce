//! Worked histories that are judged by locks, by the order of commits, and by any order without and
//! with real time. All verdicts were found by hand. The checker of `serial_check` is also fed entry
//! by entry. Its verdict must be legal before the first bad entry, and must name that entry from
//! then on.
use super::Wanted::{self, Illegal, Legal};
use super::entries_of;
use history_check::Rule::{Locks, Replies, Shape};
use history_check::Verdict;
use order_check::{Checker as OrderChecker, Options};
use serial_check::Checker;
use std::alloc::{AllocError, Global};
use std::process::Abort;
use std::test::Fail;
use txn_words::{Entry, Holder};

/// Two transactions use key 1, each as if the other did not exist. The reader commits first.
const READS_BESIDE: &str = r#"["began",0,1],["began",1,2],["asked",0,"get",1],["did",0,null],
    ["asked",1,"put",1,10],["did",1,null],["committed",0,1],["committed",1,2]"#;

/// Two transactions use key 1. The writer commits first, so the value that the reader got is old.
const READS_STALE: &str = r#"["began",0,1],["began",1,2],["asked",0,"get",1],["did",0,null],
    ["asked",1,"put",1,10],["did",1,null],["committed",1,1],["committed",0,2]"#;

/// Each of two transactions reads what the other one writes.
const WRITE_SKEW: &str = r#"["began",0,1],["began",1,2],["asked",0,"get",1],["did",0,null],
    ["asked",0,"get",2],["did",0,null],["asked",1,"get",1],["did",1,null],["asked",1,"get",2],
    ["did",1,null],["asked",0,"put",1,10],["did",0,null],["asked",1,"put",2,20],["did",1,null],
    ["committed",0,1],["committed",1,2]"#;

/// Two transactions get a wrong reply. One of them aborts, and the other stays open.
const WRONG_BUT_ABORTED: &str = r#"["began",0,1],["asked",0,"get",1],["did",0,99],["leave",0,null],
    ["aborted",0],["began",1,2],["asked",1,"take",3],["did",1,7]"#;

/// A transaction reads a value that is not committed yet. By the time this transaction commits, the
/// value has been committed.
const RIGHT_LATER: &str = r#"["began",0,1],["began",1,2],["asked",0,"get",1],["did",0,10],
    ["asked",1,"put",1,10],["did",1,null],["committed",1,1],["committed",0,2]"#;

/// A transaction gets a wrong reply after a savepoint, and then goes back to the savepoint.
const WRONG_BUT_TAKEN_BACK: &str = r#"["began",0,1],["asked",0,"put",1,10],["did",0,null],
    ["saved",0],["asked",0,"get",1],["did",0,11],["leave",0,1],["returned",0,1],["committed",0,1]"#;

/// A transaction goes back to a savepoint and commits. Meanwhile another transaction writes and
/// aborts.
const BACK_TO_A_SAVEPOINT: &str = r#"["began",0,1],["asked",0,"put",1,10],["did",0,null],
    ["saved",0],["began",1,2],["asked",0,"put",2,20],["did",0,null],["asked",1,"put",1,11],
    ["did",1,null],["asked",0,"get",2],["did",0,20],["leave",0,1],["undone",0],["returned",0,1],
    ["asked",0,"get",2],["did",0,null],["committed",0,1],["leave",1,null],["undone",1],
    ["aborted",1]"#;

/// One transaction puts three keys. The next transaction takes the first key, overwrites the second
/// key and reads the third key. The last transaction reads an old value.
const NEW_KEYS: &str = r#"["began",0,1],["asked",0,"put",1,10],["did",0,null],
    ["asked",0,"put",2,20],["did",0,null],["asked",0,"put",3,30],["did",0,null],["committed",0,1],
    ["began",1,2],["asked",1,"take",1],["did",1,10],["asked",1,"put_if",2,20,21],["did",1,20],
    ["asked",1,"get",3],["did",1,30],["committed",1,2],["began",0,3],["asked",0,"get",1],
    ["did",0,null],["asked",0,"get",2],["did",0,20],["committed",0,3]"#;

/// The first transaction that commits must come last: a search that places it first goes back.
const LAST_COMES_FIRST: &str = r#"["began",0,1],["asked",0,"put",1,10],["did",0,null],
    ["committed",0,1],["began",0,2],["asked",0,"take",1],["did",0,11],["committed",0,2],
    ["began",0,3],["asked",0,"put",1,11],["did",0,null],["committed",0,3]"#;

/// Three transactions put the same value where the key was absent, and only one takes it.
const TOO_MANY_PUTS: &str = r#"["began",0,1],["asked",0,"put",1,10],["did",0,null],
    ["committed",0,1],["began",0,2],["asked",0,"put",1,10],["did",0,null],["committed",0,2],
    ["began",0,3],["asked",0,"put",1,10],["did",0,null],["committed",0,3],["began",0,4],
    ["asked",0,"take",1],["did",0,10],["committed",0,4]"#;

/// A transaction reads what was there before another one that had committed when it began.
const READS_OLD: &str = r#"["began",0,1],["asked",0,"put",1,10],["did",0,null],["committed",0,1],
    ["began",0,2],["asked",0,"get",1],["did",0,null],["committed",0,2]"#;

/// A history whose first commit has the number 2.
const NUMBERED_WRONG: &str = r#"["began",0,1],["committed",0,2]"#;

/// Each row has a history, its verdict by locks with 8 stripes, and its verdict by the order of
/// commits.
type Row = (&'static str, Wanted, Wanted);

static ROWS: [Row; 12] = [
    (READS_BESIDE, Illegal(4, Locks), Legal(2, 0)),
    (READS_STALE, Illegal(4, Locks), Illegal(7, Replies)),
    (WRITE_SKEW, Illegal(6, Locks), Illegal(15, Replies)),
    (WRONG_BUT_ABORTED, Illegal(2, Replies), Legal(0, 1)),
    (RIGHT_LATER, Illegal(3, Replies), Legal(2, 0)),
    (
        WRONG_BUT_TAKEN_BACK,
        Illegal(5, Replies),
        Illegal(8, Replies),
    ),
    (BACK_TO_A_SAVEPOINT, Illegal(7, Locks), Legal(1, 0)),
    (NEW_KEYS, Illegal(20, Replies), Illegal(21, Replies)),
    (LAST_COMES_FIRST, Illegal(6, Replies), Illegal(7, Replies)),
    (TOO_MANY_PUTS, Illegal(6, Replies), Illegal(7, Replies)),
    (READS_OLD, Illegal(6, Replies), Illegal(7, Replies)),
    (NUMBERED_WRONG, Illegal(1, Shape), Illegal(1, Shape)),
];

const NONE_IN_ORDER: &str = "Serializable([])";

const ONE_IN_ORDER: &str = "Serializable([1])";

const IN_ORDER: &str = "Serializable([1, 2])";

const IN_OTHER_ORDER: &str = "Serializable([2, 1])";

const BACKWARDS: &str = "Serializable([3, 2, 1])";

const CYCLE: &str = "NotSerializable(Cycle([";

const TORN: &str = "NotSerializable(Torn(1))";

const SECOND_IMPOSSIBLE: &str = "NotSerializable(Impossible(2,";

const THIRD_IMPOSSIBLE: &str = "NotSerializable(Impossible(3,";

const OF_WRONG_SHAPE: &str = "NotSerializable(Shape(1))";

/// Each row has a history, and the beginnings of its verdicts by any order, without and with real
/// time.
static ORDERS: [(&str, &str, &str); 12] = [
    (READS_BESIDE, IN_ORDER, IN_ORDER),
    (READS_STALE, IN_ORDER, IN_ORDER),
    (WRITE_SKEW, CYCLE, CYCLE),
    (WRONG_BUT_ABORTED, NONE_IN_ORDER, NONE_IN_ORDER),
    (RIGHT_LATER, IN_OTHER_ORDER, IN_OTHER_ORDER),
    (WRONG_BUT_TAKEN_BACK, TORN, TORN),
    (BACK_TO_A_SAVEPOINT, ONE_IN_ORDER, ONE_IN_ORDER),
    (NEW_KEYS, THIRD_IMPOSSIBLE, CYCLE),
    (LAST_COMES_FIRST, BACKWARDS, CYCLE),
    (TOO_MANY_PUTS, "Undecided(1,", SECOND_IMPOSSIBLE),
    (READS_OLD, IN_OTHER_ORDER, CYCLE),
    (NUMBERED_WRONG, OF_WRONG_SHAPE, OF_WRONG_SHAPE),
];

/// Checks that the judges by locks and by the order of commits give the verdicts of a row.
fn judge(rt: &impl Abort, alloc: Global, row: &Row) -> Result<(), AllocError> {
    let (text, by_locks, by_commits) = *row;
    let entries = entries_of(alloc, text)?;
    assert!(rt; entries.iter().all(|entry| entry.caller() < 64));
    let found = history_check::check(alloc, &entries, 8, Holder::Now)?;
    assert!(rt; found == by_locks.verdict(), "by locks: {text}");
    let found = serial_check::check(alloc, &entries)?;
    assert!(rt; found == by_commits.verdict(), "by commits: {text}");
    Ok(())
}

/// If memory is refused for a row, tries once more.
#[test]
fn have_both_verdicts(rt: HostRuntime) -> Result<(), Fail> {
    for row in &ROWS {
        if judge(&rt, rt.alloc(), row).is_err() {
            judge(&rt, rt.alloc(), row)?;
        }
    }
    Ok(())
}

/// Checks that the verdict by any order begins with this text.
fn judge_order(
    rt: &impl Abort,
    alloc: Global,
    entries: &[Entry],
    in_time: bool,
    wanted: &str,
) -> Result<(), AllocError> {
    let mut checker = OrderChecker::new(alloc, Options::new(in_time))?;
    for entry in entries {
        assert!(rt; entry.caller() < 64);
        checker.feed(entry)?;
    }
    let verdict = checker.verdict(alloc)?;
    let text = format!(in alloc; "{verdict:?}")?;
    assert!(rt; text.starts_with(wanted), "{entries:?}: {text}");
    Ok(())
}

#[test]
fn have_these_orders(rt: HostRuntime) -> Result<(), Fail> {
    let alloc = rt.alloc();
    for (text, wanted, in_time) in &ORDERS {
        let entries = entries_of(alloc, text)?;
        judge_order(&rt, alloc, &entries, false, wanted)?;
        judge_order(&rt, alloc, &entries, true, in_time)?;
    }
    Ok(())
}

/// Feeds a checker one entry. If memory is refused, tries once more.
fn feed(rt: &impl Abort, checker: &mut Checker, entry: &Entry) -> Result<(), AllocError> {
    assert!(rt; entry.caller() < 64);
    match checker.feed(entry) {
        Ok(()) => Ok(()),
        Err(_) => checker.feed(entry),
    }
}

/// Makes a checker. If memory is refused, tries once more.
fn checker_again(alloc: Global) -> Result<Checker, AllocError> {
    match Checker::new(alloc) {
        Ok(checker) => Ok(checker),
        Err(_) => Checker::new(alloc),
    }
}

/// The entries of this text. If memory is refused, tries once more.
fn entries_again(alloc: Global, text: &str) -> Result<Vec<Entry>, AllocError> {
    match entries_of(alloc, text) {
        Ok(entries) => Ok(entries),
        Err(_) => entries_of(alloc, text),
    }
}

/// Feeds the entries to a checker one by one, and checks its verdict after each entry.
fn feed_to(
    rt: &impl Abort,
    checker: &mut Checker,
    entries: &[Entry],
    wanted: Verdict,
) -> Result<(), AllocError> {
    for (i, entry) in entries.iter().enumerate() {
        feed(rt, checker, entry)?;
        assert!(rt;
            may_be(checker.verdict(), i, wanted),
            "at {i} of {entries:?}"
        );
    }
    assert!(rt; checker.verdict() == wanted, "{entries:?}");
    Ok(())
}

/// Returns true if `found` may be the verdict after the entry at `place`. `wanted` is the verdict
/// on the whole history. Before the first bad entry, `found` must be legal. From that entry on, it
/// must be `wanted`.
fn may_be(found: Verdict, place: usize, wanted: Verdict) -> bool {
    match wanted {
        Verdict::Illegal { entry, .. } if entry <= place as u64 => found == wanted,
        _ => matches!(found, Verdict::Legal { .. }),
    }
}

/// Feeds the history of a row to a new checker entry by entry.
fn feed_each(rt: &impl Abort, alloc: Global, row: &Row) -> Result<(), AllocError> {
    let entries = entries_again(alloc, row.0)?;
    match checker_again(alloc) {
        Ok(mut checker) => feed_to(rt, &mut checker, &entries, row.2.verdict()),
        Err(AllocError) => Err(AllocError),
    }
}

#[test]
fn fed_entry_by_entry(rt: HostRuntime) -> Result<(), Fail> {
    for row in &ROWS {
        feed_each(&rt, rt.alloc(), row)?;
    }
    Ok(())
}
