//! Script files, each with the output of `run` for it. The history of one worker was worked out by
//! hand. The history of several workers depends on the threads. `check` must find it legal, with no
//! transaction open at its end. It must also have entries, although the contract allows an empty
//! history.

use super::mixes::{BAD_KEY, ONE_WORKER, WIDE_SCRIPT, judge};
use super::{Command, Files, run_on};
use crate::devices::Narrow;
use std::alloc::Global;
use std::sync::Wait;
use std::test::Fail;
use std::thread::Threads;

/// The history that `run` prints for an empty script.
pub const SHORT_RUN: &str =
    "{\"entries\":[[\"began\",0,1],[\"committed\",0,1]],\"stripes\":8,\"version\":3}\n";

/// The history that `run` prints if the script is refused memory.
pub const NO_ENTRIES: &str = "{\"entries\":[],\"stripes\":8,\"version\":3}\n";

/// Each row has similar script files, and the output of `run` for them.
pub const FILES: &[Files] = &[
    // The history of one worker is the one that `mix` prints, but with version 3.
    (
        ONE_WORKER,
        "",
        "",
        (
            "{\"entries\":[[\"began\",0,1],[\"asked\",0,\"put\",1,10],[\"did\",0,null],\
                [\"saved\",0],[\"asked\",0,\"take\",1],[\"did\",0,10],[\"leave\",0,1],[\"undone\",0],\
                [\"returned\",0,1],[\"committed\",0,1],[\"began\",0,2],[\"asked\",0,\"get\",1],\
                [\"did\",0,10],[\"leave\",0,null],[\"aborted\",0]],\"stripes\":8,\"version\":3}\n",
            0,
        ),
    ),
    // In a script file of version 2, every number may be a key. For such a file, `run` also prints
    // a history of version 3.
    (
        WIDE_SCRIPT,
        "",
        "",
        (
            "{\"entries\":[[\"began\",0,1],[\"asked\",0,\"put_if\",9223372036854775808,null,5],\
                [\"did\",0,null],[\"committed\",0,1]],\"stripes\":8,\"version\":3}\n",
            0,
        ),
    ),
    // A `help` for the key 2^63 is refused before it takes a step. Then the transaction aborts.
    (
        BAD_KEY,
        r#"["help",9223372036854775808]"#,
        "",
        (
            "{\"entries\":[[\"began\",0,1],[\"leave\",0,null],[\"aborted\",0]],\"stripes\":8,\
                \"version\":3}\n",
            0,
        ),
    ),
];

/// A script file whose scripts use the same two stripes. It has a gap for the number of workers.
const ANY_WORKERS: &str =
    "{\"version\":1,\"workers\":@,\"stripes\":2,\"buckets\":8,\"tries\":3,\"scripts\":[[[\"put\",1,\
    10],[\"put\",2,20]],[[\"put\",2,21],[\"take\",1]],[[\"get\",1],[\"save\"],[\"put\",3,30],\
    [\"back\",1]],[[\"take\",2],[\"help\",5]],[[\"put\",4,40],[\"abort\"]],[[\"get\",2]]]}";

/// Runs `run` on `ANY_WORKERS` with this number of workers, and returns its output.
fn run_workers<T: Threads + Wait + Sync>(
    rt: &T,
    alloc: Global,
    workers: &str,
) -> Result<Narrow, Fail> {
    let text = ANY_WORKERS.replace(alloc, "@", workers)?;
    Ok(
        run_on(
            rt,
            alloc,
            Command::Run,
            &mut text.as_bytes(),
            Narrow::whole(),
        )
        .output,
    )
}

/// With one to six workers, the history of `ANY_WORKERS` is legal and not empty, and no transaction
/// is open at its end.
#[test]
fn run_any_workers(rt: HostRuntime) -> Result<(), Fail> {
    for workers in "1 2 3 4 5 6 2 3 4 5 6 2 3 4 5 6 2 3 4 5 6".split(' ') {
        let history = run_workers(&rt, rt.alloc(), workers)?;
        judge(&rt, rt.alloc(), history.text());
        assert!(rt;
            history.text().starts_with("{\"entries\":[[\"began\","),
            "{workers}"
        );
    }
    Ok(())
}
