//! The outcomes of scripts of which one aborts itself. No contract says that such a script has the
//! outcome aborted. A row has a script file, a history file, and the outcome of each script, which
//! was found by hand. The files are read as the program reads them.

use script_worker::{Outcome, outcomes};
use std::alloc::{AllocError, Global};
use std::test::Fail;
use txn_files::{read_packed_history, read_scripts};

/// Each row has a script file, a history file, and the wanted outcomes, separated by commas.
type Row = (&'static str, &'static str, &'static str);

/// A worker uses up the tries of its script. Its next script aborts at once.
const USED_UP_BEFORE_AN_ABORT: Row = (
    r#"{"version":1,"workers":2,"stripes":8,"buckets":8,"tries":1,
        "scripts":[[["put",1,1],["put",2,2]],[["put",1,9]],[["abort"]]]}"#,
    r#"{"version":3,"stripes":8,"entries":[["began",1,1],["asked",1,"put",1,9],["did",1,null],
        ["began",0,2],["busy",0,"put",1,1,1],["aborted",0],["began",0,3],["busy",0,"put",1,1,1],
        ["aborted",0],["began",0,4],["leave",0,null],["aborted",0],["committed",1,1]]}"#,
    "given up, committed 1 entry 12, aborted entry 11",
);

/// The first script goes back to a savepoint. The second script aborts after a call for help. The
/// third script has no actions.
const SAVEPOINT: Row = (
    r#"{"version":1,"workers":1,"stripes":8,"buckets":8,"tries":3,"scripts":[
        [["put",1,10],["put",2,20],["save"],["take",1],["get",9],["back",1],["get",1]],
        [["put",1,11],["help",3],["abort"],["get",7]],[]]}"#,
    r#"{"version":1,"stripes":8,"entries":[["began",0,1],["asked",0,"put",1,10],["did",0,null],
        ["asked",0,"put",2,20],["did",0,null],["saved",0],["asked",0,"take",1],["did",0,10],
        ["asked",0,"get",9],["did",0,null],["leave",0,1],["undone",0],["returned",0,1],
        ["asked",0,"get",1],["did",0,10],["committed",0,1],["began",0,2],["asked",0,"put",1,11],
        ["did",0,10],["leave",0,null],["undone",0],["aborted",0],["began",0,3],["committed",0,2]]}"#,
    "committed 1 entry 15, aborted entry 21, committed 2 entry 23",
);

/// The first script is refused, so its transaction has the entries of an abort. The last action of
/// the second script is an abort.
const REFUSED: Row = (
    r#"{"version":1,"workers":1,"stripes":8,"buckets":8,"tries":3,
        "scripts":[[["put",1,1],["back",7]],[["put",1,1],["abort"]]]}"#,
    r#"{"version":1,"stripes":8,"entries":[["began",0,1],["asked",0,"put",1,1],["did",0,null],
        ["leave",0,null],["undone",0],["aborted",0],["began",0,2],["asked",0,"put",1,1],
        ["did",0,null],["leave",0,null],["undone",0],["aborted",0]]}"#,
    "given up, aborted entry 11",
);

/// The outcomes as text.
fn text_of(alloc: Global, found: &[Outcome]) -> Result<String, AllocError> {
    let mut text = String::new(alloc);
    for outcome in found {
        if !text.is_empty() {
            text.push_str(", ")?;
        }
        write!(text, "{outcome}")?;
    }
    Ok(text)
}

/// The outcomes of a row as text, or `None` if a file or memory is refused.
fn told(alloc: Global, row: &Row) -> Option<String> {
    let (scripts, history, _) = *row;
    let work = read_scripts(alloc, scripts.as_bytes()).ok()?;
    let (_, entries, _) = read_packed_history(alloc, history.as_bytes()).ok()?;
    let found = outcomes(alloc, &work, &entries).ok()?;
    text_of(alloc, &found).ok()
}

#[test]
fn have_their_outcomes(rt: HostRuntime) -> Result<(), Fail> {
    let alloc = rt.alloc();
    for row in [USED_UP_BEFORE_AN_ABORT, SAVEPOINT, REFUSED] {
        let text = told(alloc, &row).ok_or("no outcomes")?;
        assert_eq!(rt; text.as_str(), row.2);
    }
    Ok(())
}
