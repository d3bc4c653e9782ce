//! Step files, each with the report of `replay` for it. Each line of a run has steps, followed by
//! the answers to these steps. The file and the report are both made from these lines. The answers
//! were worked out by hand.

use super::{Command, Files, run_on};
use crate::devices::{Narrow, compare_ended};
use std::alloc::Global;
use std::process::Abort;
use std::sync::Wait;
use std::test::Fail;
use std::thread::Threads;

/// A file without steps, with a gap for the number of callers.
const EMPTY_FILE: &str = r#"{"version":1,"callers":@,"stripes":8,"buckets":8,"steps":[]}"#;

/// A step file with one transaction that commits.
pub const FIRST_COMMIT: &str =
    "{\"version\":1,\"callers\":2,\"stripes\":8,\"buckets\":8,\"steps\":[[\"begin\",0],[\"ask\",0,\
    \"put\",1,10],[\"seek\",0],[\"act\",0],[\"commit\",0]]}";

/// The file `FIRST_COMMIT` with gaps for the number of callers and for a step before the last.
const FIRST_COMMIT_OF: &str =
    "{\"version\":1,\"callers\":@,\"stripes\":8,\"buckets\":8,\"steps\":[[\"begin\",0],[\"ask\",0,\
    \"put\",1,10],[\"seek\",0],[\"act\",0],#[\"commit\",0]]}";

/// The file `FIRST_COMMIT` with gaps for the members before `stripes`, and for a step after the
/// first.
const MEMBERS_OF: &str =
    "{#,\"stripes\":8,\"buckets\":8,\"steps\":[[\"begin\",0],@[\"ask\",0,\"put\",1,10],\
    [\"seek\",0],[\"act\",0],[\"commit\",0]]}";

pub const FIRST_REPORT: &str =
    "began 1\nasked\nplaced\ndone none\ncommitted 1\nsize 2 count 1\n1 10\n";

/// Each row has similar step files, and the output of `replay` for them. `tests/files.tsv` has more
/// files that are refused.
pub const FILES: &[Files] = &[
    // Files without steps, and the steps of `examples/first_commit.json`.
    (EMPTY_FILE, "", "1 2", ("size 2 count 0\n", 0)),
    (FIRST_COMMIT_OF, "", "1 2", (FIRST_REPORT, 0)),
    // Bad input: a file that ends too early, a step with a text instead of a number, too many
    // callers or none.
    (
        "#",
        r#"{"version":1,"callers":2,"stripes":8,"buckets":8,"steps":[["begin",0],"#,
        "",
        ("refused 20\n", 3),
    ),
    (
        FIRST_COMMIT_OF,
        r#"["ask",0,"put","1",10],"#,
        "1 2",
        ("refused 21 step 4\n", 3),
    ),
    (FIRST_COMMIT_OF, "", "65 0", ("refused 22\n", 3)),
    // Wrong shapes: wrong numbers, a missing member, and an unknown version. If a file has both a
    // wrong step and too many callers, the fault is the wrong step. A member that does not belong
    // in a step file is skipped.
    (
        MEMBERS_OF,
        r#""version":1,"callers":-1
"version":1,"callers":2.0
"callers":2"#,
        "",
        ("refused 21\n", 3),
    ),
    (
        MEMBERS_OF,
        r#""version":7,"callers":2"#,
        "",
        ("refused 22\n", 3),
    ),
    (
        MEMBERS_OF,
        r#""version":1,"callers":65"#,
        r#"["sweep",0],"#,
        ("refused 21 step 1\n", 3),
    ),
    (
        MEMBERS_OF,
        r#""version":1,"callers":2,"note":null"#,
        "",
        (FIRST_REPORT, 0),
    ),
];

/// Steps that put five keys. Before the fifth key is put, the step `double` gets the answer
/// `light`. After the fifth key, `double` doubles the table.
const FIVE_KEYS: &str = r#"["begin",0] = began 1
["ask",0,"put",1,10],["seek",0],["act",0] = asked, placed, done none
["ask",0,"put",2,20],["seek",0],["act",0] = asked, placed, done none
["ask",0,"put",3,30],["seek",0],["act",0] = asked, placed, done none
["ask",0,"put",4,40],["seek",0],["act",0] = asked, placed, done none
["double",2] = light
["ask",0,"put",5,50],["seek",0],["act",0] = asked, placed, done none
["double",2] = doubled 4
["double",2] = moved 4
["double",4] = light"#;

/// Steps on keys that share a split key. A `put_if` puts only if the old value is the expected one.
const KEYS_OF_64_BITS: &str = r#"["begin",0] = began 1
["ask",0,"put",9223372036854775809,11],["seek",0],["act",0] = asked, placed, done none
["ask",0,"put",1,10],["seek",0],["act",0] = asked, placed, done none
["ask",0,"put_if",1,null,12],["seek",0],["act",0] = asked, placed, done 10
["ask",0,"put_if",1,10,12],["seek",0],["act",0] = asked, placed, done 10
["ask",0,"put_if",2,null,20],["seek",0],["act",0] = asked, placed, done none
["ask",0,"put_if",3,5,6],["seek",0],["act",0] = asked, placed, done none
["ask",0,"put",18446744073709551615,7],["seek",0],["act",0] = asked, placed, done none"#;

/// An abort takes back the five changes of `KEYS_OF_64_BITS`, whose other two operations change
/// nothing.
const FIVE_TAKEN_BACK: &str = r#"["abort",0] = leaving
["seek",0],["act",0] = placed, undone
["seek",0],["act",0] = placed, undone
["seek",0],["act",0] = placed, undone
["seek",0],["act",0] = placed, undone
["seek",0],["act",0] = placed, undone
["act",0] = aborted"#;

const ABORT_TAKES_BACK: &str = r#"["begin",0] = began 1
["ask",0,"put",1,10],["seek",0],["act",0] = asked, placed, done none
["abort",0] = leaving
["begin",0] = refused 6
["seek",0],["act",0] = placed, undone
["act",0] = aborted
["sweep"] = swept
["sweep"] = clean"#;

const BUSY_ABORTS: &str = r#"["begin",0] = began 1
["ask",0,"put",1,10],["seek",0],["act",0] = asked, placed, done none
["begin",1] = began 2
["ask",1,"get",9] = busy 0
["seek",1] = refused 8
["act",1] = aborted"#;

const STALE_CURSOR: &str = r#"["begin",0] = began 1
["begin",1] = began 2
["ask",0,"put",2,20] = asked
["seek",0] = placed
["ask",1,"put",4,40],["seek",1],["act",1] = asked, placed, done none
["act",0] = again
["act",0] = refused 7
["seek",0] = placed
["act",0] = done none
["commit",1] = committed 1
["commit",0] = committed 2"#;

const SAVEPOINTS: &str = r#"["begin",0] = began 1
["ask",0,"put",1,10],["seek",0],["act",0] = asked, placed, done none
["save",0] = saved 1
["ask",0,"put",1,11],["seek",0],["act",0] = asked, placed, done 10
["save",0] = saved 2
["ask",0,"take",1],["seek",0],["act",0] = asked, placed, done 11
["back",0,1] = leaving
["seek",0],["act",0] = placed, undone
["seek",0],["act",0] = placed, undone
["act",0] = returned 1
["ask",0,"get",1],["seek",0],["act",0] = asked, placed, done 10
["back",0,1] = leaving
["act",0] = returned 1
["ask",0,"get",1],["seek",0],["act",0] = asked, placed, done 10
["back",0,2] = refused 9
["back",0,0] = leaving
["seek",0],["act",0] = placed, undone
["act",0] = returned 0
["ask",0,"get",1],["seek",0],["act",0] = asked, placed, done none
["commit",0] = committed 1"#;

const ABORTED_TAKE_RESTORES: &str = r#"["begin",0] = began 1
["ask",0,"put",3,30],["seek",0],["act",0] = asked, placed, done none
["commit",0] = committed 1
["begin",0] = began 2
["ask",0,"take",3],["seek",0],["act",0] = asked, placed, done 30
["begin",1] = began 3
["ask",1,"get",3] = busy 0
["act",1] = aborted
["abort",0] = leaving
["seek",0],["act",0] = placed, undone
["act",0] = aborted
["begin",1] = began 4
["ask",1,"get",3],["seek",1],["act",1] = asked, placed, done 30
["commit",1] = committed 2"#;

const HALF_KEYS: &str = r#"["begin",0] = began 1
["ask",0,"put",9223372036854775807,7],["seek",0],["act",0] = asked, placed, done none
["ask",0,"put",3,30],["seek",0],["act",0] = asked, placed, done none
["ask",0,"put",9223372036854775808,1] = refused 1
["commit",0] = committed 1"#;

const MAXIMUM_SIZE: &str = r#"["double",4] = moved 2
["double",2] = at limit"#;

const REFUSALS_IN_ORDER: &str = r#"["begin",0] = began 1
["begin",0] = refused 4
["begin",2] = refused 2
["act",0] = refused 8
["ask",0,"put",1,10] = asked
["commit",0] = refused 5
["save",0] = refused 5
["abort",0] = leaving
["seek",0] = refused 8
["act",0] = aborted
["act",0] = refused 3"#;

/// Two helpers initialise buckets 1 and 3.
const INITIALISATION: &str = r#"["commit",0] = committed 1
["init_seek",0,3] = refused 11
["init_seek",0,4] = refused 10
["init_seek",2,3] = refused 12
["init_link",0] = refused 13
["init_seek",0,1] = placed
["init_link",0] = linked
["init_store",0] = stored
["init_seek",0,3] = placed
["init_seek",1,3] = placed
["init_link",0] = linked
["init_link",1] = again
["init_seek",1,3] = placed
["init_link",1] = present
["init_store",0] = stored
["init_store",1] = stored
["init_seek",1,3] = ready"#;

/// Each of five callers changes its own key three times. Then all callers leave.
const FIVE_CALLERS: &str = r#"["begin",0] = began 1
["ask",0,"put",1,10],["seek",0],["act",0] = asked, placed, done none
["begin",1] = began 2
["ask",1,"put",2,10],["seek",1],["act",1] = asked, placed, done none
["begin",2] = began 3
["ask",2,"put",3,10],["seek",2],["act",2] = asked, placed, done none
["begin",3] = began 4
["ask",3,"put",4,10],["seek",3],["act",3] = asked, placed, done none
["begin",4] = began 5
["ask",4,"put",5,10],["seek",4],["act",4] = asked, placed, done none
["ask",0,"put",1,20],["seek",0],["act",0] = asked, placed, done 10
["ask",0,"take",1],["seek",0],["act",0] = asked, placed, done 20
["ask",1,"put",2,20],["seek",1],["act",1] = asked, placed, done 10
["ask",1,"take",2],["seek",1],["act",1] = asked, placed, done 20
["ask",2,"put",3,20],["seek",2],["act",2] = asked, placed, done 10
["ask",2,"take",3],["seek",2],["act",2] = asked, placed, done 20
["ask",3,"put",4,20],["seek",3],["act",3] = asked, placed, done 10
["ask",3,"take",4],["seek",3],["act",3] = asked, placed, done 20
["ask",4,"put",5,20],["seek",4],["act",4] = asked, placed, done 10
["ask",4,"take",5],["seek",4],["act",4] = asked, placed, done 20
["abort",0],["abort",1] = leaving, leaving
["abort",2],["abort",3],["abort",4] = leaving, leaving, leaving"#;

/// Each of five callers takes one change back.
const FIVE_UNDONE: &str = r#"["seek",0],["act",0] = placed, undone
["seek",1],["act",1] = placed, undone
["seek",2],["act",2] = placed, undone
["seek",3],["act",3] = placed, undone
["seek",4],["act",4] = placed, undone"#;

const FIVE_ABORTED: &str = r#"["act",0],["act",1] = aborted, aborted
["act",2],["act",3],["act",4] = aborted, aborted, aborted"#;

/// The commit of caller 0, which is the first commit.
const COMMIT: &str = r#"["commit",0] = committed 1"#;

const FIVE_KEYS_REPORT: &str = "size 4 count 5\n4 40\n2 20\n1 10\n5 50\n3 30\n";

/// A step file: its name; its version and its numbers of callers and of buckets; its parts; and the
/// part of its report that follows the answers. Each line of a part has steps, then ` = `, and then
/// the answers to these steps.
type Run = (
    &'static str,
    [u64; 3],
    &'static [&'static str],
    &'static str,
);

const RUNS: &[Run] = &[
    (
        "keys_of_64_bits",
        [2, 1, 8],
        &[KEYS_OF_64_BITS, COMMIT],
        "size 2 count 4\n2 20\n1 12\n9223372036854775809 11\n18446744073709551615 7\n",
    ),
    (
        "taken_back",
        [2, 1, 8],
        &[KEYS_OF_64_BITS, FIVE_TAKEN_BACK],
        "size 2 count 0\n",
    ),
    (
        "doubling_after_five",
        [1, 2, 8],
        &[FIVE_KEYS, COMMIT],
        FIVE_KEYS_REPORT,
    ),
    (
        "abort_takes_back",
        [1, 2, 8],
        &[ABORT_TAKES_BACK],
        "size 2 count 0\n",
    ),
    (
        "busy_aborts",
        [1, 2, 8],
        &[BUSY_ABORTS],
        "size 2 count 1\n1 10\n",
    ),
    (
        "stale_cursor",
        [1, 2, 8],
        &[STALE_CURSOR],
        "size 2 count 2\n4 40\n2 20\n",
    ),
    ("savepoints", [1, 2, 8], &[SAVEPOINTS], "size 2 count 0\n"),
    (
        "aborted_take_restores",
        [1, 2, 8],
        &[ABORTED_TAKE_RESTORES],
        "size 2 count 1\n3 30\n",
    ),
    (
        "half_keys",
        [1, 2, 8],
        &[HALF_KEYS],
        "size 2 count 2\n3 30\n9223372036854775807 7\n",
    ),
    (
        "maximum_size",
        [1, 2, 2],
        &[MAXIMUM_SIZE],
        "size 2 count 0\n",
    ),
    (
        "refusals_in_order",
        [1, 2, 8],
        &[REFUSALS_IN_ORDER],
        "size 2 count 0\n",
    ),
    (
        "bucket_initialisation",
        [1, 2, 8],
        &[FIVE_KEYS, INITIALISATION],
        FIVE_KEYS_REPORT,
    ),
    (
        "five_callers_undone",
        [1, 5, 8],
        &[
            FIVE_CALLERS,
            FIVE_UNDONE,
            FIVE_UNDONE,
            FIVE_UNDONE,
            FIVE_ABORTED,
        ],
        "size 2 count 0\n",
    ),
];

/// Adds the steps of a part to `steps`, with a comma after those of each line. Adds the answers to
/// `report`.
fn add(steps: &mut String, report: &mut String, part: &str) -> Result<(), Fail> {
    for line in part.lines() {
        let (asked, answers) = line.split_once(" = ").ok_or("no answer")?;
        write!(steps, "{asked},")?;
        for answer in answers.split(", ") {
            writeln!(report, "{answer}")?;
        }
    }
    Ok(())
}

/// Adds the steps of all parts to `steps`, and their answers to `report`.
fn add_all(steps: &mut String, report: &mut String, parts: &[&str]) -> Result<(), Fail> {
    for part in parts {
        add(steps, report, part)?;
    }
    Ok(())
}

/// Makes the file of a run, and the report that `replay` must print for it.
fn texts_of(alloc: Global, run: Run) -> Result<(String, String), Fail> {
    let (_, [version, callers, buckets], parts, rest) = run;
    let mut steps = String::new(alloc);
    let mut report = String::new(alloc);
    add_all(&mut steps, &mut report, parts)?;
    report.push_str(rest)?;
    let steps = steps.trim_end_matches(',');
    let file = format!(in alloc;
        "{{\"version\":{version},\"callers\":{callers},\"stripes\":8,\"buckets\":{buckets},\
        \"steps\":[{steps}]}}"
    )?;
    Ok((file, report))
}

/// Runs `replay` on the file of a run, and compares the output with the run's report.
fn compare_report<T: Abort + Threads + Wait + Sync>(
    rt: &T,
    alloc: Global,
    run: Run,
) -> Result<(), Fail> {
    let (text, report) = texts_of(alloc, run)?;
    let input = &mut text.as_bytes();
    let ended = run_on(rt, alloc, Command::Replay, input, Narrow::whole());
    compare_ended(rt, &ended, (&report, "", 0), run.0);
    Ok(())
}

#[test]
fn reports(rt: HostRuntime) -> Result<(), Fail> {
    for run in RUNS {
        compare_report(&rt, rt.alloc(), *run)?;
    }
    Ok(())
}
