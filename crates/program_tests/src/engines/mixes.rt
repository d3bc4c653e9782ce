//! Script files, each with the output of `mix` for it. With one worker, every seed gives the same
//! history, which was worked out by hand. With three workers, each of 200 seeds must give the same
//! legal history in two runs. The history must not be empty, although the contract allows an empty
//! history if memory is refused.

use super::{Command, Files, compare_file, run_on};
use crate::devices::Narrow;
use std::alloc::Global;
use std::process::Abort;
use std::sync::Wait;
use std::thread::Threads;

/// A script file with one worker and two scripts. The second script aborts.
pub const ONE_WORKER: &str =
    "{\"version\":1,\"workers\":1,\"stripes\":8,\"buckets\":8,\"tries\":0,\"scripts\":[[[\"put\",1,\
    10],[\"save\"],[\"take\",1],[\"back\",1]],[[\"get\",1],[\"abort\"]]]}";

/// The history of `ONE_WORKER`.
pub const ONE_HISTORY: &str =
    "{\"entries\":[[\"began\",0,1],[\"asked\",0,\"put\",1,10],[\"did\",0,null],[\"saved\",0],\
    [\"asked\",0,\"take\",1],[\"did\",0,10],[\"leave\",0,1],[\"undone\",0],[\"returned\",0,1],\
    [\"committed\",0,1],[\"began\",0,2],[\"asked\",0,\"get\",1],[\"did\",0,10],[\"leave\",0,\
    null],[\"aborted\",0]],\"stripes\":8,\"version\":1}\n";

/// A script file with one worker and an empty script. Its history is short.
pub const EMPTY_SCRIPT: &str =
    r#"{"version":1,"workers":1,"stripes":8,"buckets":8,"tries":0,"scripts":[[]]}"#;

/// The history of `EMPTY_SCRIPT`.
pub const SHORT_HISTORY: &str =
    "{\"entries\":[[\"began\",0,1],[\"committed\",0,1]],\"stripes\":8,\"version\":1}\n";

/// A script file with one worker and one script. The first action of the script is a gap.
pub const BAD_KEY: &str =
    r#"{"version":1,"workers":1,"stripes":8,"buckets":8,"tries":0,"scripts":[[#,["put",1,1]]]}"#;

/// A script file of version 2, which may have the key 2^63 and the action `put_if`.
pub const WIDE_SCRIPT: &str =
    "{\"version\":2,\"workers\":1,\"stripes\":8,\"buckets\":8,\"tries\":0,\"scripts\":[[[\"put_if\",\
    9223372036854775808,null,5],[\"help\",9223372036854775808]]]}";

/// Each row has similar script files, and the output of `mix` for them. `tests/files.tsv` has files
/// that are refused.
pub const FILES: &[Files] = &[
    // The history of a script file of version 2 also has version 2.
    (
        WIDE_SCRIPT,
        "",
        "",
        (
            "{\"entries\":[[\"began\",0,1],[\"asked\",0,\"put_if\",9223372036854775808,null,5],\
                [\"did\",0,null],[\"committed\",0,1]],\"stripes\":8,\"version\":2}\n",
            0,
        ),
    ),
    // A `help` for the key 2^63 is refused before it takes a step. A `get` of this key is also
    // refused, and so is a return to a level that does not exist. After each of these refusals, the
    // transaction aborts.
    (
        BAD_KEY,
        r#"["help",9223372036854775808]
["get",9223372036854775808]
["back",1]"#,
        "",
        (
            "{\"entries\":[[\"began\",0,1],[\"leave\",0,null],[\"aborted\",0]],\"stripes\":8,\
                \"version\":1}\n",
            0,
        ),
    ),
];

/// A script file with three workers, whose scripts use the same two stripes.
const THREE_WORKERS: &str =
    "{\"version\":1,\"workers\":3,\"stripes\":2,\"buckets\":8,\"tries\":3,\"scripts\":[[[\"put\",1,\
    10],[\"put\",2,20]],[[\"put\",2,21],[\"take\",1]],[[\"get\",1],[\"save\"],[\"put\",3,30],\
    [\"back\",1]],[[\"take\",2],[\"help\",5]],[[\"put\",4,40],[\"abort\"]],[[\"get\",2]]]}";

/// The empty history. It is legal, and the contract allows it as a history of any scripts, but
/// `mix` must not print it.
const NOTHING: &str = "{\"entries\":[],\"stripes\":2,\"version\":1}\n";

/// Runs `mix` on `THREE_WORKERS` with this seed, and returns its output.
fn mix_three<T: Threads + Wait + Sync>(rt: &T, alloc: Global, seed: u64) -> Narrow {
    let input = &mut THREE_WORKERS.as_bytes();
    run_on(rt, alloc, Command::Mix(seed), input, Narrow::whole()).output
}

/// Checks that a history is legal, with no transaction open at its end.
pub fn judge<T: Abort + Threads + Wait + Sync>(rt: &T, alloc: Global, history: &str) {
    let ended = run_on(
        rt,
        alloc,
        Command::Check,
        &mut history.as_bytes(),
        Narrow::whole(),
    );
    let line = ended.output.text();
    assert!(rt; ended.status == 0 && line.starts_with("legal "), "{line}");
    assert!(rt; line.ends_with(" commits 0 open\n"), "{line}");
}

/// One worker gives the same history for every seed. This history is also among the files for
/// `check`.
#[test]
fn mix_one_worker(rt: HostRuntime) {
    for seed in [0, 1, 7, 199, u64::MAX] {
        compare_file(
            &rt,
            rt.alloc(),
            Command::Mix(seed),
            ONE_WORKER,
            (ONE_HISTORY, 0),
        );
    }
}

/// For each seed, both runs give the same history. This history is legal and not empty, and no
/// transaction is open at its end. Not all seeds give the same history.
#[test]
fn mix_any_seed(rt: HostRuntime) {
    let first = mix_three(&rt, rt.alloc(), 0);
    let mut differs = false;
    for seed in 0..200 {
        let history = mix_three(&rt, rt.alloc(), seed);
        let again = mix_three(&rt, rt.alloc(), seed);
        assert!(rt; history.text() == again.text(), "{seed}");
        assert!(rt; history.text() != NOTHING, "{seed}");
        judge(&rt, rt.alloc(), history.text());
        differs = differs || history.text() != first.text();
    }
    assert!(rt; differs);
}
