//! Calls `audit` on two histories that are written out as entries. One is legal and the other is
//! not. They differ only in the last reply. Judging a history needs no map, so this example is
//! separate from the examples that run a map.
use samples::audit::is_legal;
use std::io;
use std::io::Print;
use txn_words::{Entry, Op};

/// The number of stripes of the map whose histories are judged.
const STRIPES: u64 = 8;

fn say<R: Print + AllocGlobal>(rt: &R, what: &str, history: &[Entry]) -> io::Result<()> {
    match is_legal(rt.alloc(), history, STRIPES)? {
        Some(true) => println!(rt; "{what}: legal"),
        Some(false) => println!(rt; "{what}: not legal"),
        None => println!(rt; "{what}: not known"),
    }
}

/// Judges a history in which caller 0 puts a value and caller 1 gets it, and prints whether the
/// history is legal. Then gives the get a different reply, and does the same again.
pub(crate) fn show<R: Print + AllocGlobal>(rt: &R) -> io::Result<()> {
    let mut history = [
        Entry::Began(0, 1),
        Entry::Asked(0, Op::Put(1, 10)),
        Entry::Did(0, None),
        Entry::Committed(0, 1),
        Entry::Began(1, 2),
        Entry::Asked(1, Op::Get(1)),
        Entry::Did(1, Some(10)),
    ];
    say(rt, "it got what was put", &history)?;
    history[6] = Entry::Did(1, Some(99));
    say(rt, "it got something else", &history)
}
