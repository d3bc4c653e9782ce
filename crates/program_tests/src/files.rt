//! Tests of step files, script files and history files. They compare the content of each good file,
//! and the first fault of each file that is refused. Each kind of file has a module with its table
//! and its contents. The tests of faults, of large files, of cut files and of refused memory are in
//! this file.

mod histories;
mod scripts;
mod steps;

use crate::devices::filled;
use crate::files::scripts::{ACTIONS_BEHIND, LONG_SCRIPT, SCRIPTS, SCRIPTS_BEHIND};
use crate::files::steps::{BEYOND_STEPS, FIRST_COMMIT, ONE_STEP};
use std::alloc::{AllocError, Global};
use std::process::Abort;
use std::test::Fail;
use txn_files::{FileFault, Part, read_history, read_scripts, read_steps};

/// A kind of file.
#[derive(Clone, Copy)]
enum Kind {
    Steps,
    Scripts,
    History,
}

/// Similar files of one kind: a frame, pieces, fillings, and the fault with which the files are
/// refused, or `None` if they are good. There is one file for each line of the pieces and each word
/// of the fillings. Blanks separate the words. The file is made from the frame in two steps: first
/// the line replaces each gap `#`, then the word replaces each gap `@`.
type Files = (&'static str, &'static str, &'static str, Option<FileFault>);

/// The fault with which a file is refused, or `None` if the file is good.
fn fault_of(alloc: Global, kind: Kind, bytes: &[u8]) -> Option<FileFault> {
    match kind {
        Kind::Steps => read_steps(alloc, bytes).err(),
        Kind::Scripts => read_scripts(alloc, bytes).err(),
        Kind::History => read_history(alloc, bytes).err(),
    }
}

/// Compares two faults.
fn same_fault(rt: &impl Abort, found: Option<FileFault>, wanted: Option<FileFault>, row: &str) {
    assert_eq!(rt; found, wanted, "{row}");
}

/// Checks that a file with this text has the fault `wanted`.
fn has_fault(rt: &impl Abort, alloc: Global, kind: Kind, text: &str, wanted: Option<FileFault>) {
    same_fault(rt, fault_of(alloc, kind, text.as_bytes()), wanted, text);
}

/// Checks the fault of each of these files.
fn compare_files(rt: &impl Abort, alloc: Global, kind: Kind, files: Files) -> Result<(), Fail> {
    let (frame, pieces, fillings, fault) = files;
    for piece in pieces.split('\n') {
        for filling in fillings.split(' ') {
            let text = filled(alloc, frame, piece, filling)?;
            has_fault(rt, alloc, kind, &text, fault);
        }
    }
    Ok(())
}

/// Checks the first fault of files of each kind. Faults are found in this order: length, JSON,
/// members, pieces, limits.
#[test]
fn faults_of_files(rt: HostRuntime) -> Result<(), Fail> {
    let tables = [
        (Kind::Steps, steps::FILES),
        (Kind::Scripts, scripts::FILES),
        (Kind::History, histories::FILES),
    ];
    for (kind, table) in tables {
        for files in table {
            compare_files(&rt, rt.alloc(), kind, *files)?;
        }
    }
    Ok(())
}

/// Each row has the kind of a large file, a frame, a number, three texts, and the file's fault. The
/// gap `#` of the frame is filled with the first text as often as the number says, then with the
/// second text once, then with the third text as often as with the first.
type Grown = (
    Kind,
    &'static str,
    usize,
    [&'static str; 3],
    Option<FileFault>,
);

const NOT_JSON: Option<FileFault> = Some(FileFault::NotJson);

const WRONG_STEP: Option<FileFault> = Some(FileFault::Piece(Part::Step, 0));

/// The first rows have nested values. A file may have at most 127 levels. The object of the file is
/// one of these levels, and the array of its steps is another. The other rows have many scripts or
/// actions. A file may have at most 10,000 scripts, and a script may have at most 10,000 actions.
/// If a file has too many scripts or actions and, behind them, a wrong script, the reported fault
/// is the wrong script.
const GROWN: &[Grown] = &[
    (Kind::Steps, "#", 200, ["[", "", "]"], NOT_JSON),
    (Kind::Steps, BEYOND_STEPS, 125, ["[", "0", "]"], None),
    (Kind::Steps, BEYOND_STEPS, 126, ["[", "0", "]"], None),
    (Kind::Steps, BEYOND_STEPS, 127, ["[", "0", "]"], NOT_JSON),
    (Kind::Steps, ONE_STEP, 125, ["[", "0", "]"], WRONG_STEP),
    (Kind::Steps, ONE_STEP, 126, ["[", "0", "]"], NOT_JSON),
    (Kind::Steps, ONE_STEP, 127, ["[", "0", "]"], NOT_JSON),
    (Kind::Steps, BEYOND_STEPS, 125, ["{\"\":", "0", "}"], None),
    (Kind::Steps, BEYOND_STEPS, 126, ["{\"\":", "0", "}"], None),
    (
        Kind::Steps,
        BEYOND_STEPS,
        127,
        ["{\"\":", "0", "}"],
        NOT_JSON,
    ),
    (Kind::Steps, ONE_STEP, 125, ["{\"\":", "0", "}"], WRONG_STEP),
    (Kind::Steps, ONE_STEP, 126, ["{\"\":", "0", "}"], NOT_JSON),
    (Kind::Steps, ONE_STEP, 127, ["{\"\":", "0", "}"], NOT_JSON),
    (Kind::Scripts, SCRIPTS, 9_999, ["[],", "[]", ""], None),
    (
        Kind::Scripts,
        SCRIPTS,
        10_000,
        ["[],", "[]", ""],
        Some(FileFault::Limit),
    ),
    (
        Kind::Scripts,
        LONG_SCRIPT,
        9_999,
        ["[\"save\"],", "[\"save\"]", ""],
        None,
    ),
    (
        Kind::Scripts,
        LONG_SCRIPT,
        10_000,
        ["[\"save\"],", "[\"save\"]", ""],
        Some(FileFault::Limit),
    ),
    (
        Kind::Scripts,
        SCRIPTS_BEHIND,
        10_000,
        ["[],", "[]", ""],
        Some(FileFault::Piece(Part::Script, 10_001)),
    ),
    (
        Kind::Scripts,
        ACTIONS_BEHIND,
        10_000,
        ["[\"save\"],", "[\"save\"]", ""],
        Some(FileFault::Piece(Part::Script, 1)),
    ),
];

/// Adds a text `count` times.
fn add_often(text: &mut String, count: usize, added: &str) -> Result<(), AllocError> {
    for _ in 0..count {
        text.push_str(added)?;
    }
    Ok(())
}

/// Adds the first text `count` times, the second text once, and the third text `count` times.
fn grow(text: &mut String, count: usize, texts: [&str; 3]) -> Result<(), AllocError> {
    add_often(text, count, texts[0])?;
    text.push_str(texts[1])?;
    add_often(text, count, texts[2])
}

/// The text of a large file.
fn grown(alloc: Global, frame: &str, count: usize, texts: [&str; 3]) -> Result<String, AllocError> {
    let mut piece = String::new(alloc);
    grow(&mut piece, count, texts)?;
    frame.replace(alloc, "#", &piece)
}

/// Checks the fault of a large file.
fn compare_grown(rt: &impl Abort, alloc: Global, row: Grown) -> Result<(), Fail> {
    let (kind, frame, count, texts, wanted) = row;
    let text = grown(alloc, frame, count, texts)?;
    has_fault(rt, alloc, kind, &text, wanted);
    Ok(())
}

/// Checks two files that have only spaces. The file `spaces` is one byte longer than a step file
/// may be. The file with one space fewer is not too long, but it is not JSON.
fn compare_spaces(rt: &impl Abort, alloc: Global, spaces: &[u8]) {
    let too_long = fault_of(alloc, Kind::Steps, spaces);
    same_fault(rt, too_long, Some(FileFault::Limit), "too long");
    let fewer = spaces.get(1..).unwrap_or(&[]);
    assert!(rt; fewer.len() == 16_777_216);
    same_fault(rt, fault_of(alloc, Kind::Steps, fewer), NOT_JSON, "spaces");
}

#[test]
fn large_files(rt: HostRuntime) -> Result<(), Fail> {
    for row in GROWN {
        compare_grown(&rt, rt.alloc(), *row)?;
    }
    compare_spaces(&rt, rt.alloc(), &vec![in rt.alloc(); b' '; 16_777_217]?);
    Ok(())
}

/// Returns the bytes with the byte at `place` replaced by 255. No text has a byte 255.
fn spoilt(alloc: Global, bytes: &[u8], place: usize) -> Result<Vec<u8>, Fail> {
    let mut spoilt = bytes.to_vec(alloc)?;
    *spoilt.get_mut(place).ok_or("short")? = 255;
    Ok(spoilt)
}

/// Checks that these bytes are not JSON.
fn is_no_json(rt: &impl Abort, alloc: Global, bytes: &[u8], row: &str) {
    same_fault(rt, fault_of(alloc, Kind::Steps, bytes), NOT_JSON, row);
}

/// Checks that no proper prefix of these bytes is JSON.
fn compare_cut(rt: &impl Abort, alloc: Global, bytes: &[u8]) -> Result<(), Fail> {
    for length in 0..bytes.len() {
        let cut = bytes.get(..length).ok_or("short")?;
        is_no_json(rt, alloc, cut, "cut");
    }
    Ok(())
}

/// A file that ends too early is not JSON. A file with a byte that no text has is not JSON either.
#[test]
fn cut_files(rt: HostRuntime) -> Result<(), Fail> {
    let bytes = FIRST_COMMIT.as_bytes();
    compare_cut(&rt, rt.alloc(), bytes)?;
    for place in [0, 3, 60] {
        let spoilt = spoilt(rt.alloc(), bytes, place)?;
        is_no_json(&rt, rt.alloc(), &spoilt, "spoilt");
    }
    is_no_json(&rt, rt.alloc(), &[34, 255, 34], "no text");
    Ok(())
}

/// A file of each kind. The step file has texts that are written with escapes.
const OF_EACH_KIND: [(Kind, &str); 3] = [
    (
        Kind::Steps,
        "{\"x\":[{\"\\n\":[1,\"\\t\"]},\"\\n\"],\"version\":1,\"callers\":1,\"stripes\":8,\
        \"buckets\":8,\"steps\":[[\"begin\",0],[\"\\u0061sk\",0,\"put\",1,10],[\"seek\",0],\
        [\"act\",0],[\"sweep\"],[\"commit\",0]]}",
    ),
    (
        Kind::Scripts,
        "{\"version\":1,\"workers\":1,\"stripes\":8,\"buckets\":8,\"tries\":1,\"scripts\":\
        [[[\"save\"],[\"put\",1,10],[\"back\",0],[\"abort\"],[\"get\",1]],[],[],[],[[\"get\",1]]]}",
    ),
    (
        Kind::History,
        "{\"version\":1,\"stripes\":8,\"entries\":[[\"began\",0,1],[\"saved\",0],[\"undone\",0],\
        [\"aborted\",0],[\"began\",0,2]]}",
    ),
];

/// Memory may be refused at any point. If it is refused, the fault is `NoMemory`. Otherwise there
/// is no fault.
#[test]
fn memory_refused(rt: HostRuntime) {
    for (kind, text) in OF_EACH_KIND {
        let fault = fault_of(rt.alloc(), kind, text.as_bytes());
        assert!(rt; fault.is_none() || fault == Some(FileFault::NoMemory));
    }
}
