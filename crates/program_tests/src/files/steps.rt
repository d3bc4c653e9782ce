//! Step files: the content of good files and the first fault of bad files, in tables made by hand.
//! The contract of `read_steps` says that it returns `file_of` of the bytes, unless memory is
//! refused. The tests check that the definition `file_of` is what `docs/FORMATS.md` describes.

use super::Files;
use std::alloc::Global;
use std::process::Abort;
use std::test::Fail;
use txn_files::{FileFault, Part, read_steps};
use txn_words::{Op, Step};

/// A step file with one transaction that puts one key.
pub const FIRST_COMMIT: &str =
    "{\"version\":1,\"callers\":2,\"stripes\":8,\"buckets\":8,\"steps\":[[\"begin\",0],[\"ask\",0,\
    \"put\",1,10],[\"seek\",0],[\"act\",0],[\"commit\",0]]}";

/// A file with every kind of step of version 1 that `FIRST_COMMIT` lacks. It has white space, the
/// least and the greatest numbers, members in another order, additional members, and a member that
/// is given twice.
const EVERY_STEP: &str =
    " { \"steps\" : [[\"abort\",18446744073709551615], [\"ask\",7,\"take\",0],\n[\"ask\",0,\"get\",\
    9223372036854775808],[\"ask\",1,\"put\",18446744073709551615,0],\n[\"save\",3],[\"back\",4,\
    2],[\"sweep\"],[\"init_seek\",5,6],[\"init_link\",7],[\"init_store\",8],[\"double\",9]],\
     \"note\" : null,\n\"buckets\":65536,\"stripes\":4096,\"callers\":64,\"version\":7,\
    \"version\":1,\"\":[{\"steps\":-1.5e3}]}\n";

const VERSION_2: &str =
    "{\"version\":2,\"callers\":1,\"stripes\":8,\"buckets\":8,\"steps\":[[\"ask\",0,\"put_if\",\
    9223372036854775809,null,11],[\"ask\",0,\"put_if\",1,10,12]]}";

/// Files with a gap for their steps.
const STEPS_OF_ONE: &str = r#"{"version":1,"callers":1,"stripes":8,"buckets":8,"steps":#}"#;

const STEPS_IN_VERSION: &str = r#"{"callers":1,"stripes":8,"buckets":8,"steps":#,"version":@}"#;

/// Files with a gap for one step.
const BETWEEN_STEPS: &str =
    r#"{"version":1,"callers":@,"stripes":8,"buckets":8,"steps":[["begin",0],#,["begin"]]}"#;

const BEHIND_A_SWEEP: &str =
    r#"{"version":1,"callers":1,"stripes":8,"buckets":8,"steps":[["sweep"],#,[0]]}"#;

pub const ONE_STEP: &str = r#"{"version":1,"callers":1,"stripes":8,"buckets":8,"steps":[#]}"#;

/// Files with one step, and with a gap for members.
const BEFORE_MEMBERS: &str =
    r#"{#"version":1,"callers":1,"stripes":8,"buckets":8,"steps":[["sweep"]]}"#;

const BEYOND_MEMBERS: &str =
    r#"{"version":1,"callers":1,"stripes":8,"buckets":8,"steps":[["sweep"]]#}"#;

/// Files with one step, and with a gap for the value of `x`. This member does not belong in a step
/// file.
const BEFORE_STEPS: &str =
    r#"{"x":#,"version":1,"callers":1,"stripes":8,"buckets":8,"steps":[["sweep"]]}"#;

pub const BEYOND_STEPS: &str =
    r#"{"version":1,"callers":1,"stripes":8,"buckets":8,"steps":[["sweep"]],"x":#}"#;

/// Values of members that are skipped.
const VALUES: &[&str] = &[
    "null",
    "true",
    "-0.0",
    "1e308",
    "18446744073709551616",
    r#""\u00e9\n""#,
    r#"{"version":2,"steps":null}"#,
    r#"[["begin",0]]"#,
];

/// Step files with the same content. There is one file for each piece: it is the frame with this
/// piece in its gap `#`.
#[derive(Clone, Copy)]
struct Read {
    frame: &'static str,
    pieces: &'static [&'static str],
    /// The numbers of callers, stripes and buckets, and true if only keys below 2^63 are allowed.
    sizes: (u32, u32, u32, bool),
    steps: &'static [Step],
}

const READ: &[Read] = &[
    Read {
        frame: FIRST_COMMIT,
        pieces: &[""],
        sizes: (2, 8, 8, true),
        steps: &[
            Step::Begin(0),
            Step::Ask(0, Op::Put(1, 10)),
            Step::Seek(0),
            Step::Act(0),
            Step::Commit(0),
        ],
    },
    Read {
        frame: EVERY_STEP,
        pieces: &[""],
        sizes: (64, 4096, 65536, true),
        steps: &[
            Step::Abort(u64::MAX),
            Step::Ask(7, Op::Take(0)),
            Step::Ask(0, Op::Get(9_223_372_036_854_775_808)),
            Step::Ask(1, Op::Put(u64::MAX, 0)),
            Step::Save(3),
            Step::Back(4, 2),
            Step::Sweep,
            Step::InitSeek(5, 6),
            Step::InitLink(7),
            Step::InitStore(8),
            Step::Double(9),
        ],
    },
    Read {
        frame: VERSION_2,
        pieces: &[""],
        sizes: (1, 8, 8, false),
        steps: &[
            Step::Ask(0, Op::PutIf(9_223_372_036_854_775_809, None, 11)),
            Step::Ask(0, Op::PutIf(1, Some(10), 12)),
        ],
    },
    PASSED_BEFORE,
    PASSED_BEYOND,
];

/// Files with a member that is skipped. In `PASSED_BEFORE` this member comes before the other
/// members, and in `PASSED_BEYOND` it comes after them.
const PASSED_BEFORE: Read = Read {
    frame: BEFORE_STEPS,
    pieces: VALUES,
    sizes: (1, 8, 8, true),
    steps: &[Step::Sweep],
};

const PASSED_BEYOND: Read = Read {
    frame: BEYOND_STEPS,
    pieces: VALUES,
    sizes: (1, 8, 8, true),
    steps: &[Step::Sweep],
};

/// The content of a step file, as `Read` has it.
fn content_of(alloc: Global, bytes: &[u8]) -> Result<((u32, u32, u32, bool), Vec<Step>), Fail> {
    let (limits, steps) = read_steps(alloc, bytes)?;
    let half_keys = limits.has_half_keys();
    let sizes = (
        limits.callers(),
        limits.stripes(),
        limits.buckets(),
        half_keys,
    );
    Ok((sizes, steps))
}

/// Puts this piece into the gap of the frame, reads the file, and compares its content with that of
/// `read`.
fn compare(rt: &impl Abort, alloc: Global, read: Read, piece: &str) -> Result<(), Fail> {
    let text = read.frame.replace(alloc, "#", piece)?;
    let (sizes, steps) = content_of(alloc, text.as_bytes())?;
    assert!(rt;
        sizes == read.sizes && steps.as_slice() == read.steps,
        "{text}"
    );
    Ok(())
}

/// An array of 500 objects that have a member `steps` inside.
fn nested_objects(alloc: Global) -> Result<String, Fail> {
    let objects = "{\"\":{\"steps\":[[0,{}]]}},".repeat(alloc, 500)?;
    Ok(format!(in alloc; "[{objects}[]]")?)
}

/// Compares the content of two files in which `piece` is the value of a skipped member.
fn compare_passed(rt: &impl Abort, alloc: Global, piece: &str) -> Result<(), Fail> {
    compare(rt, alloc, PASSED_BEFORE, piece)?;
    compare(rt, alloc, PASSED_BEYOND, piece)
}

#[test]
fn contents_of_step_files(rt: HostRuntime) -> Result<(), Fail> {
    for read in READ {
        for piece in read.pieces {
            compare(&rt, rt.alloc(), *read, piece)?;
        }
    }
    compare_passed(&rt, rt.alloc(), &nested_objects(rt.alloc())?)
}

/// Groups of step files. The files of a group have the same fault, or no fault.
/// `tests/files.tsv` has more files that are refused.
pub const FILES: &[Files] = &[
    // Members.
    (
        "#",
        r#"{{}}
{"version":1e999}"#,
        r#""stripes":8,"buckets":8,"steps":[]"#,
        Some(FileFault::NotJson),
    ),
    (
        "#",
        r#"null
"steps"
{"version":null,"callers":1,@}
{"version":1.0,"callers":1,@}
{"version":-1,"callers":1,@}
{"version":1e0,"callers":1,@}
{"version":-0,"callers":1,@}
{"version":18446744073709551616,"callers":1,@}
{"version":1,"callers":-1,@}
{"version":1,"callers":2.0,@}
{"version":1,"callers":[1],@}
{"version":1,"callers":1,@,"stripes":true}
{"version":1,"callers":1,@,"buckets":{}}
{"version":1,"callers":1,@,"steps":0}
{"version":7,"callers":1,@,"steps":null}"#,
        r#""stripes":8,"buckets":8,"steps":[]"#,
        Some(FileFault::Member),
    ),
    // A number too large for a float makes the file not JSON, wherever the number is.
    (
        "#",
        r#"{"version":1,"callers":1,"stripes":8,"buckets":-1e999,"steps":[]}
{"version":1,"callers":1,"stripes":8,"buckets":8,"steps":1e999}
{"version":1,"callers":1,"stripes":8,"buckets":8,"steps":[1e999]}
{"version":1,"callers":1,"stripes":8,"buckets":8,"steps":[["begin",0],["begin",1e999]]}"#,
        "",
        Some(FileFault::NotJson),
    ),
    // Wrong steps. If there are too many callers, this is found only after the steps are read.
    (
        BETWEEN_STEPS,
        r#"0
null
"begin"
{"begin":0}
[0]
[0,"begin"]
["sweep",[]]
["save"]
["back",0,1,2]
["init_link",0,3]
["init_store"]
["double",2,4]
["double","2"]
["ask",0,"put",1,10,1]
["ask",0,"take"]
["ask",0,"get",[1]]
["ask",0,["get",1]]"#,
        "1 65",
        Some(FileFault::Piece(Part::Step, 1)),
    ),
    // A step with more elements than any step has, and steps with elements of a kind that no step
    // has.
    (
        BEHIND_A_SWEEP,
        r#"["ask",0,"put",1,10,1,1,1,1]
["ask",0,"put",1,[10]]
["ask",0,"put",1,{"":10}]
["ask",true,"put",1,10]
[["sweep"]]"#,
        "",
        Some(FileFault::Piece(Part::Step, 1)),
    ),
    // Text that is not JSON is the first fault, even if it comes after a wrong step.
    (
        STEPS_OF_ONE,
        r#"[[0],["act",1e999]]"#,
        "",
        Some(FileFault::NotJson),
    ),
    // Wrong forms of `put_if`, which no version allows. Then a good `put_if`, which version 1 does
    // not allow, beside another wrong step.
    (
        STEPS_IN_VERSION,
        r#"[["ask",0,"put_if",1]]
[["ask",0,"put_if",1,true,12]]
[["ask",0,"put_if",1,-1,12]]
[["ask",0,"put_if",1,10,12,13]]
[["put_if",1,10,12]]"#,
        "1 2 3",
        Some(FileFault::Piece(Part::Step, 0)),
    ),
    (
        STEPS_IN_VERSION,
        r#"[["begin",0],["ask",0,"put_if",1,null,12],["start",0]]
[["begin",0],["start",0],["ask",0,"put_if",1,null,12]]"#,
        "1",
        Some(FileFault::Piece(Part::Step, 1)),
    ),
    (
        STEPS_IN_VERSION,
        r#"[["begin",0],["ask",0,"put_if",1,null,12],["start",0]]"#,
        "3",
        Some(FileFault::Piece(Part::Step, 2)),
    ),
    // If two members have the same name, the last one counts.
    (
        BEFORE_MEMBERS,
        r#""steps":0,
"steps":[["begin"]],
"version":7,"callers":null,"stripes":{},"buckets":1.5,"#,
        "",
        None,
    ),
    (
        BEYOND_MEMBERS,
        r#","steps":0
,"version":null
,"callers":null
,"stripes":"8"
,"buckets":[8]
,"\u0073teps":0"#,
        "",
        Some(FileFault::Member),
    ),
    (
        BEYOND_MEMBERS,
        r#","steps":[["sweep"],["begin"]]"#,
        "",
        Some(FileFault::Piece(Part::Step, 1)),
    ),
    (
        BEYOND_MEMBERS,
        r#","version":7"#,
        "",
        Some(FileFault::Limit),
    ),
    // A skipped value must be JSON too.
    (
        BEYOND_STEPS,
        r#"1e999
[1,-1e999]
{"y":[1e999]}
01
[1,]
"\ud800""#,
        "",
        Some(FileFault::NotJson),
    ),
];
