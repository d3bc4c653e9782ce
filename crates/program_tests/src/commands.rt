//! These tests run the program on a system in memory, with threads and without. They compare both
//! outputs and the status of each run. All texts were written by hand. By contract, `is_told` may
//! be false although standard error took the whole line. These tests require that `is_told` is then
//! true.

use crate::devices::{Desk, Ended, Narrow, compare_ended};
use boostmap_program::run;
use program_system::Ending;
use std::alloc::Global;
use std::io::ErrorKind;
use std::process::Abort;
use std::sync::Wait;
use std::thread::Threads;

/// A step file with one transaction that commits.
const STEPS: &str =
    "{\"version\":1,\"callers\":2,\"stripes\":8,\"buckets\":8,\"steps\":[[\"begin\",0],[\"ask\",0,\
    \"put\",1,10],[\"seek\",0],[\"act\",0],[\"commit\",0]]}";

const REPORT: &str = "began 1\nasked\nplaced\ndone none\ncommitted 1\nsize 2 count 1\n1 10\n";

/// A history file with one transaction that commits.
const LEGAL: &str =
    "{\"version\":1,\"stripes\":8,\"entries\":[[\"began\",0,1],[\"asked\",0,\"put\",1,10],\
    [\"did\",0,null],[\"committed\",0,1]]}";

const LEGAL_LINE: &str = "legal 1 commits 0 open\n";

/// The history `LEGAL` with a wrong reply: a value that no one put.
const ILLEGAL: &str =
    "{\"version\":1,\"stripes\":8,\"entries\":[[\"began\",0,1],[\"asked\",0,\"put\",1,10],\
    [\"did\",0,7],[\"committed\",0,1]]}";

/// A script file with one worker, which has one script.
const SCRIPT: &str =
    r#"{"version":1,"workers":1,"stripes":8,"buckets":8,"tries":0,"scripts":[[["put",1,10]]]}"#;

/// The line on standard error if a file cannot be opened.
const READ_FAILED: &str = "read failed\n";

const HISTORY: &str = "{\"entries\":[[\"began\",0,1],[\"asked\",0,\"put\",1,10],[\"did\",0,null],\
    [\"committed\",0,1]],\"stripes\":8,\"version\":1}\n";

const RUN_HISTORY: &str =
    "{\"entries\":[[\"began\",0,1],[\"asked\",0,\"put\",1,10],[\"did\",0,null],\
    [\"committed\",0,1]],\"stripes\":8,\"version\":3}\n";

const FILES: &[(&str, &str)] = &[
    ("steps.json", STEPS),
    ("legal.json", LEGAL),
    ("illegal.json", ILLEGAL),
    ("script.json", SCRIPT),
    ("empty.json", ""),
];

/// The whole usage, word for word.
const USAGE: &str = "usage: boostmap replay FILE | boostmap run FILE
       boostmap mix --seed N FILE | boostmap check FILE

  replay FILE        runs the steps of a file, and prints answers, size, count and pairs
  run FILE           runs the scripts of a file, one thread per worker, and prints the history
  mix --seed N FILE  runs the scripts of a file, interleaved by seed N, and prints the history
  check FILE         says whether a recorded history is legal, or which entry breaks which rule

FILE is the path of a file, and may be /dev/stdin.
N is a whole number from 0 to 18446744073709551615, in decimal digits.

Exit status: 0 all is well, 1 the history is illegal, 2 a usage error, 3 the file is refused,
4 no memory, no thread, a failed read or write, or out of step.
For 3 and 4, one line on standard error says why.

Example: boostmap check examples/checked.json
";

/// Runs the program on a system with these two writers.
fn run_at<T: Threads + Wait + Sync>(
    rt: &T,
    alloc: Global,
    desk: &Desk<'_>,
    writers: [Narrow; 2],
) -> Ended {
    let [mut output, mut errors] = writers;
    let Ending { status, is_told } = run(rt, alloc, desk, &mut output, &mut errors);
    Ended {
        output,
        errors,
        status,
        is_told,
    }
}

/// Runs the program without threads on this system.
fn run_unthreaded(alloc: Global, desk: &Desk<'_>) -> Ended {
    let (mut output, mut errors) = (Narrow::whole(), Narrow::whole());
    let Ending { status, is_told } = unthreaded_program::run(alloc, desk, &mut output, &mut errors);
    Ended {
        output,
        errors,
        status,
        is_told,
    }
}

/// Runs the program, and compares standard output, standard error and the status with `wanted`.
fn compare<T: Abort + Threads + Wait + Sync>(
    rt: &T,
    alloc: Global,
    desk: &Desk<'_>,
    wanted: (&str, &str, u8),
) {
    let ended = run_at(rt, alloc, desk, [Narrow::whole(), Narrow::whole()]);
    compare_ended(rt, &ended, wanted, desk.words);
}

/// Each row has a command line, the texts of standard output and standard error, and the
/// status.
type Run = (&'static str, &'static str, &'static str, u8);

const RUNS: &[Run] = &[
    ("boostmap ", "", USAGE, 2),
    ("boostmap replay steps.json", REPORT, "", 0),
    ("boostmap mix --seed 7 script.json", HISTORY, "", 0),
    ("boostmap check -- legal.json", LEGAL_LINE, "", 0),
    (
        "boostmap check illegal.json",
        "illegal entry 2 rule 1\n",
        "",
        1,
    ),
    ("bin/x run script.json", RUN_HISTORY, "", 0),
    ("boostmap run steps.json", "", "refused 21\n", 3),
    ("boostmap check empty.json", "", "refused 20\n", 3),
    ("boostmap run missing.json", "", READ_FAILED, 4),
];

/// Each line is a command line that is not valid. `tests/program.sh` has more of them.
const BAD_COMMAND_LINES: &str = "boostmap
boostmap steps.json
boostmap replay -x
boostmap repla steps.json
boostmap mix --seed steps.json
boostmap mix --seed -7 steps.json
boostmap mix --seed= steps.json
boostmap mix --seed 7 --seed 7 steps.json
boostmap help replay
boostmap -V";

#[test]
fn each_command_and_each_status(rt: HostRuntime) {
    for (words, output, errors, status) in RUNS {
        let wanted = (*output, *errors, *status);
        compare(&rt, rt.alloc(), &Desk::new(words, FILES), wanted);
    }
    for words in BAD_COMMAND_LINES.lines() {
        compare(&rt, rt.alloc(), &Desk::new(words, FILES), ("", USAGE, 2));
    }
}

/// Each row has a command line of the program without threads, both outputs, and the status.
const UNTHREADED_RUNS: &[Run] = &[
    ("boostmap replay steps.json", REPORT, "", 0),
    ("boostmap run script.json", "", "no thread\n", 4),
    ("boostmap run missing.json", "", READ_FAILED, 4),
];

#[test]
fn without_threads(rt: HostRuntime) {
    for (words, output, errors, status) in UNTHREADED_RUNS {
        let ended = run_unthreaded(rt.alloc(), &Desk::new(words, FILES));
        compare_ended(&rt, &ended, (*output, *errors, *status), words);
    }
}

/// Each row has the kind of an error, a pair, and a text. If reading the command line fails
/// with this kind, standard error and the status must be the pair. If opening the file fails with
/// this kind, standard error must be the last text.
const REFUSED: &[(ErrorKind, (&str, u8), &str)] = &[
    (ErrorKind::OutOfMemory, ("no memory\n", 4), "no memory\n"),
    (ErrorKind::InvalidData, (USAGE, 2), "read failed\n"),
];

#[test]
fn what_the_system_refuses(rt: HostRuntime) {
    for (kind, (of_words, status), of_open) in REFUSED {
        let mut desk = Desk::new("boostmap replay steps.json", FILES);
        desk.words_fail = Some(*kind);
        compare(&rt, rt.alloc(), &desk, ("", of_words, *status));
        desk.words_fail = None;
        desk.open_fails = Some(*kind);
        compare(&rt, rt.alloc(), &desk, ("", of_open, 4));
    }
}

/// A writer that takes this number of bytes, and then fails.
fn short(left: usize) -> Narrow {
    Narrow::new(left, Some(ErrorKind::StorageFull))
}

/// If standard output fails, that is a fault. If standard error fails, the status does not change.
#[test]
fn writers_that_fail(rt: HostRuntime) {
    let desk = Desk::new("boostmap replay steps.json", FILES);
    for left in 0..=REPORT.len() {
        let ended = run_at(&rt, rt.alloc(), &desk, [short(left), Narrow::whole()]);
        let printed = REPORT.get(..left).unwrap_or("no text");
        let is_whole = left == REPORT.len();
        let (line, status) = if is_whole {
            ("", 0)
        } else {
            ("write failed\n", 4)
        };
        compare_ended(&rt, &ended, (printed, line, status), REPORT);
    }
    let desk = Desk::new("boostmap replay missing.json", FILES);
    for left in 0..=READ_FAILED.len() {
        let ended = run_at(&rt, rt.alloc(), &desk, [Narrow::whole(), short(left)]);
        assert!(rt; ended.output.calls == 0 && ended.status == 4, "{left}");
        assert!(rt; ended.is_told == (left == READ_FAILED.len()), "{left}");
    }
}

/// This test is meant to be run with each allocation refused in turn. Either the call succeeds, or
/// only the line of the fault is written.
#[test]
fn refused_allocations(rt: HostRuntime) {
    let desk = Desk::new("boostmap check legal.json", FILES);
    let ended = run_at(&rt, rt.alloc(), &desk, [Narrow::whole(), Narrow::whole()]);
    let wanted = if ended.status == 0 {
        (LEGAL_LINE, "", 0)
    } else {
        ("", "no memory\n", 4)
    };
    compare_ended(&rt, &ended, wanted, "check");
}
