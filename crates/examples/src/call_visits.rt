//! Calls `visit_all`: four visitors put different values at the same key, all at once, and each gets
//! the value that it put, as `samples::visits` proves, which also starts the threads. This
//! module only calls it. The answers are in the order of the visits, so the output is the same in
//! each run.
use anyhow::Result;
use samples::visits::{Answer, Visit, visit_all};
use std::alloc::{AllocError, Global};
use std::collections::BTreeSet;
use std::io;
use std::io::Print;
use std::thread::Threads;
use txn_words::{Entry, Op};

/// The values that the visitors put.
const VISITS: [Visit; 4] = [
    Visit { key: 7, value: 70 },
    Visit { key: 7, value: 71 },
    Visit { key: 7, value: 72 },
    Visit { key: 7, value: 73 },
];

/// Prints the value that a visitor put and the value that the visitor got.
fn say<R: Print + AllocGlobal>(rt: &R, visit: Visit, answer: Answer) -> io::Result<()> {
    match answer {
        Ok(Some(got)) => println!(rt; "put {}, got {got}", visit.value),
        Ok(None) => println!(rt; "put {}, got none", visit.value),
        Err(stop) => println!(rt; "{stop:?}"),
    }
}

/// Prints the values that all visitors put and got, in the order of the visits.
fn say_all<R: Print + AllocGlobal>(rt: &R, answers: &[Answer]) -> io::Result<()> {
    for (visit, answer) in VISITS.iter().zip(answers.iter()) {
        say(rt, *visit, *answer)?;
    }
    Ok(())
}

/// How many keys the entries put.
fn keys_put(alloc: Global, history: &[Entry]) -> Result<usize, AllocError> {
    let mut keys = BTreeSet::new(alloc);
    for entry in history {
        if let Entry::Asked(_, Op::Put(key, _)) = *entry {
            keys.insert(key)?;
        }
    }
    Ok(keys.len())
}

/// Lets the visitors visit a new map. Prints what each visitor put and got, and then the number of
/// keys that the history puts.
pub(crate) fn show<R: Threads + Sync + Print + AllocGlobal>(rt: &R) -> Result<()> {
    let (history, answers) = visit_all(rt, rt.alloc(), 8, VISITS.as_slice())?;
    say_all(rt, answers.as_slice())?;
    println!(rt; "keys {}", keys_put(rt.alloc(), history.as_slice())?)?;
    Ok(())
}
