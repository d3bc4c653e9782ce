//! Script files: the content of good files and the first fault of bad files, in tables made by
//! hand. The contract of `read_scripts` says that it returns `scripts_of` of the bytes, unless
//! memory is refused. The tests check that the definition `scripts_of` is what `docs/FORMATS.md`
//! describes.

use super::Files;
use std::alloc::Global;
use std::process::Abort;
use std::test::Fail;
use txn_files::{FileFault, Part, Script, Scripts, read_scripts};
use txn_words::{Action, Op, PackedAction};

/// Four members of a script file.
const SIZES: &str = r#""version":1,"workers":1,"stripes":8,"buckets":8"#;

/// A file with one gap for its version and one for a script. Good scripts come before the second
/// gap, and a wrong script comes after it.
const BETWEEN_SCRIPTS: &str =
    "{\"version\":@,\"workers\":1,\"stripes\":2,\"buckets\":8,\"tries\":3,\"scripts\":[[],\
    [[\"get\",1]],#,[0]]}";

/// Files with a gap for scripts, or for the actions of a script. In the last two files, a wrong
/// script or action follows the gap.
pub const SCRIPTS: &str =
    r#"{"version":1,"workers":1,"stripes":2,"buckets":8,"tries":3,"scripts":[#]}"#;

pub const LONG_SCRIPT: &str =
    r#"{"version":1,"workers":1,"stripes":2,"buckets":8,"tries":3,"scripts":[[],[#]]}"#;

pub const SCRIPTS_BEHIND: &str =
    r#"{"version":7,"workers":1,"stripes":2,"buckets":8,"tries":3,"scripts":[#,[0],[]]}"#;

pub const ACTIONS_BEHIND: &str =
    r#"{"version":7,"workers":1,"stripes":2,"buckets":8,"tries":3,"scripts":[[],[#,["back"]],[]]}"#;

/// A script file with each kind of action of version 1.
const EVERY_ACTION: &str =
    "{\"version\":1,\"workers\":1,\"stripes\":2,\"buckets\":8,\"tries\":3,\"scripts\":[[[\"put\",1,\
    10],[\"take\",18446744073709551615],[\"get\",0]],[],[[\"save\"],[\"back\",1],[\"help\",\
    9223372036854775808],[\"abort\"],[\"save\"]]]}";

const VERSION_2: &str = "{\"version\":2,\"workers\":1,\"stripes\":2,\"buckets\":8,\"tries\":3,\
    \"scripts\":[[[\"save\"]],[[\"put_if\",1,null,10],[\"put_if\",18446744073709551615,10,12]]]}";

/// A script file, and its content.
#[derive(Clone, Copy)]
struct Read {
    text: &'static str,
    /// The numbers of callers, stripes, buckets and tries.
    sizes: (u32, u32, u32, u64),
    version: u64,
    half_keys: bool,
    scripts: &'static [&'static [Action]],
}

const READ: &[Read] = &[
    Read {
        text: EVERY_ACTION,
        sizes: (1, 2, 8, 3),
        version: 1,
        half_keys: true,
        scripts: &[
            &[
                Action::Op(Op::Put(1, 10)),
                Action::Op(Op::Take(0xffff_ffff_ffff_ffff)),
                Action::Op(Op::Get(0)),
            ],
            &[],
            &[
                Action::Save,
                Action::Back(1),
                Action::Help(0x8000_0000_0000_0000),
                Action::Abort,
                Action::Save,
            ],
        ],
    },
    Read {
        text: VERSION_2,
        sizes: (1, 2, 8, 3),
        version: 2,
        half_keys: false,
        scripts: &[
            &[Action::Save],
            &[
                Action::Op(Op::PutIf(1, None, 10)),
                Action::Op(Op::PutIf(u64::MAX, Some(10), 12)),
            ],
        ],
    },
];

/// The numbers of a script file, as `Read` has them.
fn numbers_of(work: &Scripts) -> ((u32, u32, u32, u64), u64, bool) {
    let limits = work.limits();
    let sizes = (
        limits.callers(),
        limits.stripes(),
        limits.buckets(),
        work.tries(),
    );
    (sizes, work.version(), limits.has_half_keys())
}

/// Returns true if the packed actions are exactly the wanted ones.
fn are_actions(packed: &[PackedAction], wanted: &[Action]) -> bool {
    packed.len() == wanted.len()
        && packed
            .iter()
            .zip(wanted)
            .all(|(packed, action)| packed.action() == *action)
}

/// Returns true if the scripts have exactly the wanted actions.
fn are_scripts(scripts: &[Script], wanted: &[&[Action]]) -> bool {
    scripts.len() == wanted.len()
        && scripts
            .iter()
            .zip(wanted)
            .all(|(script, actions)| are_actions(script.actions(), actions))
}

/// Makes a script from these actions. Returns how many actions the script says it has, and the
/// actions that `into_actions` returns.
fn given_back(alloc: Global, actions: &[Action]) -> Result<(usize, Vec<PackedAction>), Fail> {
    let script = Script::of_actions(alloc, actions)?;
    Ok((script.actions().len(), script.into_actions()))
}

/// Returns true if a script file has the content of the row.
fn has_content(work: &Scripts, read: &Read) -> bool {
    let wanted = (read.sizes, read.version, read.half_keys);
    numbers_of(work) == wanted && are_scripts(work.scripts(), read.scripts)
}

/// Reads a script file, and compares its content with the row.
fn compare(rt: &impl Abort, alloc: Global, read: &Read) -> Result<(), Fail> {
    let work = read_scripts(alloc, read.text.as_bytes())?;
    assert!(rt; has_content(&work, read), "version {}", read.version);
    Ok(())
}

/// Checks that a script made from these actions returns all of them.
fn gives_back(rt: &impl Abort, alloc: Global, wanted: &[Action]) -> Result<(), Fail> {
    let (count, actions) = given_back(alloc, wanted)?;
    assert!(rt; count == wanted.len() && are_actions(&actions, wanted));
    Ok(())
}

#[test]
fn contents_of_script_files(rt: HostRuntime) -> Result<(), Fail> {
    for read in READ {
        compare(&rt, rt.alloc(), read)?;
    }
    gives_back(&rt, rt.alloc(), &[Action::Save, Action::Back(0)])
}

/// Groups of script files. The files of a group have the same fault, or no fault.
/// `tests/files.tsv` has more files that are refused.
pub const FILES: &[Files] = &[
    (
        "#",
        r#"{}
{@,"tries":null,"scripts":[]}
{@,"tries":-1,"scripts":[]}
{@,"tries":0.5,"scripts":[]}
{@,"tries":0,"scripts":{}}
{@,"tries":0,"steps":[]}
{@,"tries":0,"scripts":[],"workers":"1"}
{@,"tries":0,"scripts":[],"stripes":[8]}
{@,"tries":0,"scripts":[],"buckets":8.0}
{@,"tries":0,"scripts":[],"version":true}
{@,"tries":1001,"scripts":null}"#,
        SIZES,
        Some(FileFault::Member),
    ),
    (
        "#",
        r#"{@,"tries":0,"scripts":[],"version":0}
{@,"tries":0,"scripts":[],"stripes":0}
{@,"tries":0,"scripts":[],"buckets":1}"#,
        SIZES,
        Some(FileFault::Limit),
    ),
    (
        "#",
        r#"{@,"note":null,"tries":0,"scripts":[]}
{@,"note":null,"tries":1000,"scripts":[]}"#,
        SIZES,
        None,
    ),
    // A version that is out of range is found only after the scripts are read.
    (
        BETWEEN_SCRIPTS,
        r#"null
"save"
{}
["save"]
[null]
[[0]]
[["Save"]]
[["save",null]]
[["back",null]]
[["back",-1]]
[["back",1,1]]
[["help","1"]]
[["help",1,1]]
[["begin"]]
[["put",1,null]]
[["put",0,"put",1,10]]
[["take",1,1]]
[["get",18446744073709551616]]
[["save"],["get",1],["get"]]
[["save"],["abort"],0]"#,
        "1 7",
        Some(FileFault::Piece(Part::Script, 2)),
    ),
    // A number too large for a float makes the file not JSON, wherever the number is.
    (
        "#",
        r#"{"version":1,"workers":1e999,"stripes":8,"buckets":8,"tries":0,"scripts":[]}"#,
        "",
        Some(FileFault::NotJson),
    ),
    (
        r#"{@,"tries":0,"scripts":#}"#,
        r#"1e999
[[1e999]]
[[["put",1e999,1]]]
[[["save"]]],"x":{"y":1e999}"#,
        SIZES,
        Some(FileFault::NotJson),
    ),
];
