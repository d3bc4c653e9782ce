//! History files, each with the output of `check` for it. The test that plays them is in `engines`.
//! Most of the histories are worked examples of `txn_trace`, which proves their verdicts. The rows
//! test the rest: how a file is read, which entries its version allows, the line and the status.

use super::Files;
use super::mixes::ONE_HISTORY;

/// A legal history with three transactions: one commits, one aborts, and one reads `10`.
pub const CHECKED: &str =
    "{\"version\":1,\"stripes\":8,\"entries\":[[\"began\",0,1],[\"asked\",0,\"put\",1,10],\
    [\"did\",0,null],[\"committed\",0,1],[\"began\",1,2],[\"asked\",1,\"put\",1,99],[\"did\",1,10],\
    [\"leave\",1,null],[\"undone\",1],[\"aborted\",1],[\"began\",0,3],[\"asked\",0,\"get\",1],\
    [\"did\",0,10],[\"committed\",0,2]]}";

/// The history `CHECKED`, with one gap for the last reply, and one for the entry that takes the
/// aborted change back.
const CHECKED_OF: &str =
    "{\"version\":1,\"stripes\":8,\"entries\":[[\"began\",0,1],[\"asked\",0,\"put\",1,10],\
    [\"did\",0,null],[\"committed\",0,1],[\"began\",1,2],[\"asked\",1,\"put\",1,99],[\"did\",1,10],\
    [\"leave\",1,null],@[\"aborted\",1],[\"began\",0,3],[\"asked\",0,\"get\",1],\
    #,[\"committed\",0,2]]}";

pub const LEGAL: &str = "legal 2 commits 0 open\n";

/// Files with a gap for their entries.
const IN_VERSION: &str = r#"{"version":@,"stripes":8,"entries":[#]}"#;

const OF_SIXTEEN: &str = r#"{"version":1,"stripes":16,"entries":[#]}"#;

/// Each row has similar history files, and the output of `check` for them. `tests/files.tsv` has
/// files that are refused.
pub const FILES: &[Files] = &[
    // Histories with the replies of `checker_replies` in `crates/txn_trace/proofs/Cases.antt`, and
    // a history with a wrong entry.
    (CHECKED, "", "", (LEGAL, 0)),
    (
        CHECKED_OF,
        r#"["did",0,99]"#,
        r#"["undone",1],"#,
        ("illegal entry 12 rule 1\n", 1),
    ),
    (
        CHECKED_OF,
        r#"["did",0,10]"#,
        "",
        ("illegal entry 8 rule 3\n", 1),
    ),
    // Histories with stripes that are held.
    (
        IN_VERSION,
        r#"["began",0,1],["asked",0,"put",1,10],["did",0,null],["began",1,2],["asked",1,"get",9]"#,
        "1",
        ("illegal entry 4 rule 2\n", 1),
    ),
    (
        IN_VERSION,
        r#"["began",0,1],["busy",0,"get",9,1]"#,
        "1",
        ("illegal entry 1 rule 2\n", 1),
    ),
    // Forged histories.
    (IN_VERSION, "", "1", ("legal 0 commits 0 open\n", 0)),
    (
        IN_VERSION,
        r#"["undone",0]"#,
        "1",
        ("illegal entry 0 rule 3\n", 1),
    ),
    (
        IN_VERSION,
        r#"["began",0,1],["committed",0,2]
["began",0,1],["leave",0,1]"#,
        "1",
        ("illegal entry 1 rule 3\n", 1),
    ),
    (
        IN_VERSION,
        r#"["began",0,1],["asked",0,"get",5],["did",0,7],["leave",0,null]"#,
        "1",
        ("illegal entry 2 rule 1\n", 1),
    ),
    (
        IN_VERSION,
        r#"["began",0,1],["asked",0,"get",1],["began",1,2],["asked",1,"get",9]"#,
        "1",
        ("illegal entry 3 rule 2\n", 1),
    ),
    (
        OF_SIXTEEN,
        r#"["began",0,1],["asked",0,"get",1],["began",1,2],["asked",1,"get",9]"#,
        "",
        ("legal 0 commits 2 open\n", 0),
    ),
    (IN_VERSION, r#"["began",64,1]"#, "1", ("refused 22\n", 3)),
    // `put_if_history` of `crates/txn_trace/proofs/WideCases.antt`: a change by `put_if` is taken
    // back once. A `put_if` that changed nothing is not taken back.
    (
        IN_VERSION,
        "[\"began\",0,1],[\"asked\",0,\"put_if\",1,null,5],[\"did\",0,null],\
            [\"asked\",0,\"put_if\",1,4,6],[\"did\",0,5],[\"leave\",0,null],[\"undone\",0],\
            [\"aborted\",0]",
        "2",
        ("legal 0 commits 0 open\n", 0),
    ),
    (
        IN_VERSION,
        "[\"began\",0,1],[\"asked\",0,\"put_if\",1,null,5],[\"did\",0,null],\
            [\"asked\",0,\"put_if\",1,4,6],[\"did\",0,5],[\"leave\",0,null],[\"undone\",0],\
            [\"undone\",0],[\"aborted\",0]",
        "2",
        ("illegal entry 7 rule 3\n", 1),
    ),
    // `holder_has_begun` of `crates/txn_trace/proofs/HolderCases.antt`: a busy entry names a caller
    // that holds nothing now. Only version 3 allows this, and only if that caller has begun a
    // transaction before.
    (
        IN_VERSION,
        HELD_BEFORE,
        "3",
        ("legal 1 commits 1 open\n", 0),
    ),
    (
        IN_VERSION,
        HELD_BEFORE,
        "1 2",
        ("illegal entry 5 rule 2\n", 1),
    ),
    (
        IN_VERSION,
        r#"["began",1,1],["busy",1,"get",9,0]"#,
        "3",
        ("illegal entry 1 rule 2\n", 1),
    ),
    // The history of the test `mix_one_worker`.
    (ONE_HISTORY, "", "", ("legal 1 commits 0 open\n", 0)),
];

/// Entries of which the last one names a caller that held the stripe before.
const HELD_BEFORE: &str =
    "[\"began\",0,1],[\"asked\",0,\"put\",1,10],[\"did\",0,null],[\"committed\",0,1],\
    [\"began\",1,2],[\"busy\",1,\"get\",9,0]";
