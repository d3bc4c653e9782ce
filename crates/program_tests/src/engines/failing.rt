//! Tests with readers and writers that fail at each call in turn, tests with refused memory, and
//! tests of the lines of faults. No contract counts the calls of a reader or a writer. The tests
//! check that no call is made after one has failed. If `tests/refused.sh` refuses memory, the
//! output must be empty or one of a few outputs that were worked out by hand.

use super::checks::{CHECKED, LEGAL};
use super::mixes::{EMPTY_SCRIPT, SHORT_HISTORY};
use super::replays::{FIRST_COMMIT, FIRST_REPORT};
use super::runs::{NO_ENTRIES, SHORT_RUN};
use super::{Command, run_on};
use crate::devices::{Endless, Narrow, Trickle, compare_ended};
use boostmap_engine::Fault;
use std::alloc::Global;
use std::io::ErrorKind;
use std::process::Abort;
use std::sync::Wait;
use std::test::Fail;
use std::thread::Threads;
use txn_files::{FileFault, Part};

/// Each row has a command, the text of a file, and the output of the command for this file.
type Printed = (Command, &'static str, &'static str);

const OF_EACH_COMMAND: &[Printed] = &[
    (Command::Replay, FIRST_COMMIT, FIRST_REPORT),
    (Command::Check, CHECKED, LEGAL),
    (Command::Mix(5), EMPTY_SCRIPT, SHORT_HISTORY),
    (Command::Run, EMPTY_SCRIPT, SHORT_RUN),
];

/// Each byte of the file is read once, each byte of the output is written once, and the end of the
/// file is read once.
#[test]
fn one_byte_at_a_time(rt: HostRuntime) {
    for (command, text, printed) in OF_EACH_COMMAND {
        let mut input = Trickle::new(text.as_bytes(), usize::MAX);
        let ended = run_on(&rt, rt.alloc(), *command, &mut input, Narrow::whole());
        compare_ended(&rt, &ended, (printed, "", 0), text);
        assert!(rt; input.calls == text.len() + 1, "{text}");
        assert!(rt; ended.output.calls == printed.len(), "{text}");
    }
}

/// A read that fails is not tried again, and nothing is written.
fn fail_reads<T: Abort + Threads + Wait + Sync>(rt: &T, alloc: Global, printed: Printed) {
    let (command, text, _) = printed;
    for fails_at in 0..=text.len() {
        let mut input = Trickle::new(text.as_bytes(), fails_at);
        let ended = run_on(rt, alloc, command, &mut input, Narrow::whole());
        compare_ended(rt, &ended, ("", "read failed\n", 4), text);
        assert!(rt;
            input.calls == fails_at + 1 && ended.output.calls == 0,
            "{fails_at}"
        );
    }
}

#[test]
fn failing_reads(rt: HostRuntime) {
    for printed in OF_EACH_COMMAND {
        fail_reads(&rt, rt.alloc(), *printed);
    }
}

/// A write that fails or that takes nothing is not tried again. Only the part of the line that
/// comes before the failing write is written.
fn fail_writes<T: Abort + Threads + Wait + Sync>(
    rt: &T,
    alloc: Global,
    printed: Printed,
    failure: Option<ErrorKind>,
) {
    let (command, text, line) = printed;
    for fails_at in 0..line.len() {
        let writer = Narrow::new(fails_at, failure);
        let ended = run_on(rt, alloc, command, &mut text.as_bytes(), writer);
        let wanted = line.get(..fails_at).unwrap_or("no text");
        compare_ended(rt, &ended, (wanted, "write failed\n", 4), text);
        assert!(rt; ended.output.calls == fails_at + 1, "{fails_at}");
    }
}

#[test]
fn failing_writes(rt: HostRuntime) {
    for printed in OF_EACH_COMMAND {
        fail_writes(&rt, rt.alloc(), *printed, None);
        fail_writes(&rt, rt.alloc(), *printed, Some(ErrorKind::Interrupted));
    }
}

#[test]
fn reads_no_more_than_shows_too_much(rt: HostRuntime) {
    let mut input = Endless { given: 0 };
    let ended = run_on(
        &rt,
        rt.alloc(),
        Command::Replay,
        &mut input,
        Narrow::whole(),
    );
    compare_ended(&rt, &ended, ("", "refused 22\n", 3), "endless");
    assert!(rt; input.given == 16_777_217 && ended.output.calls == 0);
}

/// Returns true if `text` is one of the texts `known`.
fn is_among(known: &[&str], text: &str) -> bool {
    known.iter().any(|one| *one == text)
}

/// Runs a command. Checks that it prints one of the texts `known`, or ends with a fault. With a
/// fault, nothing may be printed, and the fault must be that there is no memory or, for `run`, no
/// thread.
fn refuse_memory<T: Abort + Threads + Wait + Sync>(
    rt: &T,
    alloc: Global,
    command: Command,
    text: &str,
    known: &[&str],
) {
    let ended = run_on(rt, alloc, command, &mut text.as_bytes(), Narrow::whole());
    if ended.status == 0 {
        assert!(rt; is_among(known, ended.output.text()));
    } else {
        let line = ended.errors.text();
        let is_run = matches!(command, Command::Run);
        assert!(rt; line == "no memory\n" || is_run && line == "no thread\n");
        assert!(rt; ended.status == 4 && ended.output.calls == 0);
    }
}

/// Three reports of one transaction that commits. The first one is the whole report. The second one
/// is printed if the begin is refused memory, and the third one if the ask is refused memory.
const REPORTS: &[&str] = &[
    FIRST_REPORT,
    "refused 14\nrefused 3\nrefused 3\nrefused 3\nrefused 3\nsize 2 count 0\n",
    "began 1\nrefused 14\nrefused 8\nrefused 8\ncommitted 1\nsize 2 count 0\n",
];

/// This test is meant to be run with each allocation refused in turn. Either nothing is written, or
/// the report shows that the step that was refused memory has changed nothing.
#[test]
fn refused_allocations(rt: HostRuntime) {
    refuse_memory(&rt, rt.alloc(), Command::Replay, FIRST_COMMIT, REPORTS);
}

/// This test is meant to be run with each allocation refused in turn. Either the whole line is
/// written, or nothing.
#[test]
fn history_without_memory(rt: HostRuntime) {
    refuse_memory(&rt, rt.alloc(), Command::Check, CHECKED, &[LEGAL]);
}

/// A script file with one worker and two scripts. The first script sets a savepoint.
const TWO_SCRIPTS: &str =
    "{\"version\":1,\"workers\":1,\"stripes\":8,\"buckets\":8,\"tries\":0,\"scripts\":[[[\"put\",1,\
    10],[\"save\"]],[[\"get\",1]]]}";

/// The possible histories of `TWO_SCRIPTS`. The first one is the whole history. In each of the
/// others, one step was refused memory, which ended the step's script. This step is the begin, the
/// ask or the save of the first script, or the begin or the ask of the second script.
const TWO_SCRIPTS_HISTORIES: &[&str] = &[
    "{\"entries\":[[\"began\",0,1],[\"asked\",0,\"put\",1,10],[\"did\",0,null],[\"saved\",0],\
        [\"committed\",0,1],[\"began\",0,2],[\"asked\",0,\"get\",1],[\"did\",0,10],\
        [\"committed\",0,2]],\"stripes\":8,\"version\":1}\n",
    "{\"entries\":[[\"began\",0,1],[\"asked\",0,\"get\",1],[\"did\",0,null],[\"committed\",0,1]],\
        \"stripes\":8,\"version\":1}\n",
    "{\"entries\":[[\"began\",0,1],[\"leave\",0,null],[\"aborted\",0],[\"began\",0,2],[\"asked\",\
        0,\"get\",1],[\"did\",0,null],[\"committed\",0,1]],\"stripes\":8,\"version\":1}\n",
    "{\"entries\":[[\"began\",0,1],[\"asked\",0,\"put\",1,10],[\"did\",0,null],[\"leave\",0,\
        null],[\"undone\",0],[\"aborted\",0],[\"began\",0,2],[\"asked\",0,\"get\",1],[\"did\",0,\
        null],[\"committed\",0,1]],\"stripes\":8,\"version\":1}\n",
    "{\"entries\":[[\"began\",0,1],[\"asked\",0,\"put\",1,10],[\"did\",0,null],[\"saved\",0],\
        [\"committed\",0,1]],\"stripes\":8,\"version\":1}\n",
    "{\"entries\":[[\"began\",0,1],[\"asked\",0,\"put\",1,10],[\"did\",0,null],[\"saved\",0],\
        [\"committed\",0,1],[\"began\",0,2],[\"leave\",0,null],[\"aborted\",0]],\"stripes\":8,\
        \"version\":1}\n",
];

/// This test is meant to be run with each allocation refused in turn. Either nothing is written, or
/// a whole history. In this history, a script with a step that was refused memory has changed
/// nothing.
#[test]
fn mix_without_memory(rt: HostRuntime) {
    refuse_memory(
        &rt,
        rt.alloc(),
        Command::Mix(7),
        TWO_SCRIPTS,
        TWO_SCRIPTS_HISTORIES,
    );
}

/// This test is meant to be run with each allocation refused in turn. Either nothing is written, or
/// a whole history. If the script was refused memory, this history has no entries.
#[test]
fn run_without_memory(rt: HostRuntime) {
    let known = [SHORT_RUN, NO_ENTRIES];
    refuse_memory(&rt, rt.alloc(), Command::Run, EMPTY_SCRIPT, &known);
}

const LINES: &[(Fault, &str, u8)] = &[
    (Fault::Input(FileFault::NotJson), "refused 20", 3),
    (Fault::Input(FileFault::Member), "refused 21", 3),
    (
        Fault::Input(FileFault::Piece(Part::Step, 4)),
        "refused 21 step 4",
        3,
    ),
    (Fault::Input(FileFault::Limit), "refused 22", 3),
    (Fault::NoMemory, "no memory", 4),
    (Fault::NoThread, "no thread", 4),
    (Fault::Read, "read failed", 4),
    (Fault::Write, "write failed", 4),
    (Fault::OutOfStep, "out of step", 4),
];

/// The text, the message and the status of a fault.
fn line_of(alloc: Global, fault: &Fault) -> Result<(String, String, u8), Fail> {
    let message = fault.message().to_string(alloc)?;
    Ok((fault.to_string(alloc)?, message, fault.status()))
}

/// Checks that a fault has this line as its text and as its message, and this status.
fn has_line(
    rt: &impl Abort,
    alloc: Global,
    fault: &Fault,
    line: &str,
    status: u8,
) -> Result<(), Fail> {
    let (text, message, ended) = line_of(alloc, fault)?;
    let are_same = text.as_str() == line && message.as_str() == line;
    assert!(rt; are_same && ended == status, "{line}");
    Ok(())
}

/// Checks that the text and the message of a usage error are the same, and that the status is 2.
fn has_usage(rt: &impl Abort, alloc: Global) -> Result<(), Fail> {
    let (text, message, ended) = line_of(alloc, &Fault::Usage)?;
    assert!(rt; text.as_str() == message.as_str() && ended == 2);
    Ok(())
}

#[test]
fn lines_of_faults(rt: HostRuntime) -> Result<(), Fail> {
    for (fault, line, status) in LINES {
        has_line(&rt, rt.alloc(), fault, line, *status)?;
    }
    has_usage(&rt, rt.alloc())
}
