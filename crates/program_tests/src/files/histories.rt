//! History files: their content, the text that is written for it, and the first fault of each file
//! that is refused. Only history files are also written, so one table tests both reading and
//! writing. The files and their entries were made by hand.

use super::Files;
use std::alloc::Global;
use std::process::Abort;
use std::test::Fail;
use txn_files::{FileFault, Part, history_text, read_history};
use txn_words::{Entry, Op};

/// A file with one gap for the number of stripes, and one for an entry.
const BETWEEN_ENTRIES: &str = r#"{"version":1,"stripes":@,"entries":[["began",64,1],#,["began"]]}"#;

/// A file with a gap for an entry.
const BEHIND_A_BEGIN: &str = r#"{"version":1,"stripes":8,"entries":[["began",0,1],#]}"#;

/// Each kind of entry.
const EVERY_ENTRY: &[Entry] = &[
    Entry::Began(0, 1),
    Entry::Saved(0),
    Entry::Asked(0, Op::Put(1, 10)),
    Entry::Did(0, None),
    Entry::Asked(0, Op::Take(2)),
    Entry::Did(0, Some(0xffff_ffff_ffff_ffff)),
    Entry::Asked(0, Op::Get(0x8000_0000_0000_0000)),
    Entry::Did(0, Some(0)),
    Entry::Leave(0, Some(1)),
    Entry::Undone(0),
    Entry::Returned(0, 1),
    Entry::Committed(0, 1),
    Entry::Busy(63, Op::Put(1, 20), 0),
    Entry::Busy(1, Op::Take(7), 63),
    Entry::Busy(1, Op::Get(0), 2),
    Entry::Leave(5, None),
    Entry::Aborted(5),
];

/// The text that is written for a history with the entries `EVERY_ENTRY`.
const EVERY_KIND: &str =
    "{\"entries\":[[\"began\",0,1],[\"saved\",0],[\"asked\",0,\"put\",1,10],[\"did\",0,null],\
    [\"asked\",0,\"take\",2],[\"did\",0,18446744073709551615],[\"asked\",0,\"get\",\
    9223372036854775808],[\"did\",0,0],[\"leave\",0,1],[\"undone\",0],[\"returned\",0,1],\
    [\"committed\",0,1],[\"busy\",63,\"put\",1,20,0],[\"busy\",1,\"take\",7,63],[\"busy\",1,\
    \"get\",0,2],[\"leave\",5,null],[\"aborted\",5]],\"stripes\":4096,\"version\":1}";

/// A file that has white space, members in another order, an additional member, and a member that
/// is given twice.
const ANY_ORDER: &str =
    " { \"entries\" : [ [ \"undone\" , 3 ] ],\n\"note\":null,\"stripes\":0,\"stripes\":1,\
    \"version\":1}\n";

const VERSION_2: &str = "{\"entries\":[[\"asked\",0,\"put_if\",1,null,5],\
    [\"asked\",0,\"put_if\",18446744073709551615,4,6],[\"busy\",1,\"put_if\",1,0,7,0],\
    [\"busy\",1,\"put_if\",2,null,8,63]],\"stripes\":8,\"version\":2}";

/// A file of version 3, which has the same shapes as version 2. Only history files have this
/// version.
const VERSION_3: &str =
    r#"{"entries":[["began",1,1],["busy",1,"put_if",2,null,8,0]],"stripes":8,"version":3}"#;

/// A history file, and its content.
#[derive(Clone, Copy)]
struct Read {
    text: &'static str,
    /// True if the text is exactly the one that is written for the history.
    is_written: bool,
    version: u64,
    stripes: u32,
    entries: &'static [Entry],
}

const READ: &[Read] = &[
    Read {
        text: EVERY_KIND,
        is_written: true,
        version: 1,
        stripes: 4096,
        entries: EVERY_ENTRY,
    },
    Read {
        text: ANY_ORDER,
        is_written: false,
        version: 1,
        stripes: 1,
        entries: &[Entry::Undone(3)],
    },
    Read {
        text: r#"{"entries":[],"stripes":1,"version":1}"#,
        is_written: true,
        version: 1,
        stripes: 1,
        entries: &[],
    },
    Read {
        text: VERSION_2,
        is_written: true,
        version: 2,
        stripes: 8,
        entries: &[
            Entry::Asked(0, Op::PutIf(1, None, 5)),
            Entry::Asked(0, Op::PutIf(u64::MAX, Some(4), 6)),
            Entry::Busy(1, Op::PutIf(1, Some(0), 7), 0),
            Entry::Busy(1, Op::PutIf(2, None, 8), 63),
        ],
    },
    Read {
        text: VERSION_3,
        is_written: true,
        version: 3,
        stripes: 8,
        entries: &[Entry::Began(1, 1), Entry::Busy(1, Op::PutIf(2, None, 8), 0)],
    },
];

/// The text that is written for a history.
fn text_of(alloc: Global, read: Read) -> Result<String, Fail> {
    Ok(history_text(alloc, read.version, read.stripes, read.entries)?)
}

/// Reads a history file, and compares its content with the row.
fn compare(rt: &impl Abort, alloc: Global, read: Read) -> Result<(), Fail> {
    let (stripes, entries, version) = read_history(alloc, read.text.as_bytes())?;
    assert!(rt;
        stripes == read.stripes && version == read.version,
        "{}",
        read.text
    );
    assert!(rt; entries.as_slice() == read.entries, "{}", read.text);
    Ok(())
}

/// Writes the history of the row, and compares the text with that of the row.
fn compare_text(rt: &impl Abort, alloc: Global, read: Read) -> Result<(), Fail> {
    let text = text_of(alloc, read)?;
    assert!(rt; text.as_str() == read.text, "{text}");
    Ok(())
}

#[test]
fn contents_of_histories(rt: HostRuntime) -> Result<(), Fail> {
    for read in READ {
        compare(&rt, rt.alloc(), *read)?;
        if read.is_written {
            compare_text(&rt, rt.alloc(), *read)?;
        }
    }
    Ok(())
}

/// Entries of each kind with a gap for a caller, and one with a gap for a holder.
const OF_CALLERS: &str = r#"["began",@,1]
["asked",@,"get",1]
["did",@,null]
["saved",@]
["leave",@,null]
["undone",@]
["returned",@,0]
["committed",@,1]
["busy",@,"get",1,0]
["busy",0,"get",1,@]
["aborted",@]"#;

/// Groups of history files. The files of a group have the same fault, or no fault.
/// `tests/files.tsv` has more files that are refused.
pub const FILES: &[Files] = &[
    (
        "#",
        r#"
{"version":1,"stripes":8,"entries":[]"#,
        "",
        Some(FileFault::NotJson),
    ),
    (
        "#",
        r#"{}
{"version":1,"stripes":8,"steps":[]}
{"version":null,"stripes":8,"entries":[]}
{"version":1,"stripes":8.0,"entries":[]}
{"version":1,"stripes":8,"entries":{}}
{"version":7,"stripes":0,"entries":null}
{"version":1,"stripes":-8,"entries":[0]}"#,
        "",
        Some(FileFault::Member),
    ),
    (
        "#",
        r#"{"version":0,"stripes":8,"entries":[]}
{"version":1,"stripes":4294967297,"entries":[]}"#,
        "",
        Some(FileFault::Limit),
    ),
    // The entry with index 1 is wrong. The caller of the first entry is also out of range, and so
    // is the number of stripes if the filling is 0. But ranges are checked only after all entries
    // are read, so the fault is that of the wrong entry.
    (
        BETWEEN_ENTRIES,
        r#"0
null
"saved"
{"saved":0}
[0]
[0,"saved"]
["saved",null]
["saved",-1]
["saved",0.0]
["saved",18446744073709551616]
["saved",0,0]
["Saved",0]
["began",0,1,1]
["asked",0]
["asked",0,"put",1,null]
["asked",0,"put",1,10,0]
["asked",0,"take"]
["asked",0,"get",null]
["asked",0,"save",1]
["asked",0,["get",1]]
["did",0,-1]
["did",0,null,null]
["did",null,0]
["leave",0,"1"]
["leave",0,1,1]
["returned",0]
["returned",0,1,1]
["committed",0,null]
["committed",0,1,1]
["busy",0,1]
["busy",0,"put",1,10]
["busy",0,"put",1,10,null]
["busy",0,"put",1,10,1,1]
["busy",0,"take",1]
["busy",0,"take",1,1,1]
["busy",0,"abort",1,1]
["aborted"]
["aborted",0,null]"#,
        "8 0",
        Some(FileFault::Piece(Part::Entry, 1)),
    ),
    // The numbers of callers and of holders must be below 64.
    (BEHIND_A_BEGIN, OF_CALLERS, "63", None),
    (
        BEHIND_A_BEGIN,
        OF_CALLERS,
        "64 18446744073709551615",
        Some(FileFault::Limit),
    ),
    // A number too large for a float makes the file not JSON, wherever the number is.
    (
        "#",
        r#"{"version":1e999,"stripes":8,"entries":[]}
{"version":1,"stripes":1e999,"entries":[]}
{"version":1,"stripes":8,"entries":1e999}
{"version":1,"stripes":8,"entries":[1e999]}
{"version":1,"stripes":8,"entries":[["began",0,1e999]]}
{"version":1,"stripes":8,"entries":[["began",0,1]],"x":[-1e999]}"#,
        "",
        Some(FileFault::NotJson),
    ),
    // Version 1 has no `put_if`.
    (
        BEHIND_A_BEGIN,
        r#"["busy",1,"put_if",2,null,8,63]"#,
        "",
        Some(FileFault::Piece(Part::Entry, 1)),
    ),
];
