//! The texts of verdicts and rules, also as errors, and the texts of the errors that say why a call
//! on a map stopped. Each row has a value that was made by hand, and its text word for word, as the
//! programs print it.
use anyhow::Result;
use history_check::{Rule, Verdict};
use std::alloc::{AllocError, Global};
use std::fmt::Display;
use std::process::Abort;
use std::test::Fail;
use txn_words::{Refusal, Stop};

/// Checks that a value has this text.
fn prints(
    rt: &impl Abort,
    alloc: Global,
    value: impl Display + Drop,
    wanted: &str,
) -> Result<(), AllocError> {
    let text = value.to_string(alloc)?;
    assert_eq!(rt; text.as_str(), wanted);
    Ok(())
}

const LEGAL: Verdict = Verdict::Legal {
    commits: 2,
    running: 0,
};

const ILLEGAL: Verdict = Verdict::Illegal {
    entry: 502,
    rule: Rule::Replies,
};

#[test]
fn are_those_of_the_programs(rt: HostRuntime) -> Result<(), Fail> {
    let alloc = rt.alloc();
    prints(&rt, alloc, LEGAL, "legal 2 commits 0 open")?;
    prints(&rt, alloc, ILLEGAL, "illegal entry 502 rule 1")?;
    for (rule, number, text) in [
        (Rule::Replies, 1, "rule 1"),
        (Rule::Locks, 2, "rule 2"),
        (Rule::Shape, 3, "rule 3"),
    ] {
        assert_eq!(rt; rule.number(), number);
        prints(&rt, alloc, rule, text)?;
    }
    Ok(())
}

/// Returns a verdict as an error.
fn judged(verdict: Verdict) -> Result<()> {
    Err(verdict)?;
    Ok(())
}

/// Returns a rule as an error.
fn broken(rule: Rule) -> Result<()> {
    Err(rule)?;
    Ok(())
}

/// Refused memory, as the error of a call.
fn lacks_memory() -> Result<(), Stop> {
    Err(AllocError)?;
    Ok(())
}

/// The error of a call as an `anyhow` error.
fn stopped(outcome: Result<(), Stop>) -> Result<()> {
    outcome?;
    Ok(())
}

/// Checks that an outcome is an error with this text.
fn fails(
    rt: &impl Abort,
    alloc: Global,
    outcome: Result<()>,
    wanted: &str,
) -> Result<(), AllocError> {
    match outcome {
        Ok(()) => panic!(rt; "no error"),
        Err(error) => prints(rt, alloc, error, wanted),
    }
}

#[test]
fn are_those_of_errors(rt: HostRuntime) -> Result<(), Fail> {
    let alloc = rt.alloc();
    fails(&rt, alloc, judged(ILLEGAL), "illegal entry 502 rule 1")?;
    fails(&rt, alloc, broken(Rule::Locks), "rule 2")?;
    let busy = stopped(Err(Stop::Busy { holder: 10 }));
    fails(&rt, alloc, busy, "caller 10 held the stripe of the key")?;
    let closed = stopped(Err(Stop::Refused(Refusal::NotOpen)));
    fails(&rt, alloc, closed, "the caller has no open transaction")?;
    fails(&rt, alloc, stopped(lacks_memory()), "memory was refused")?;
    Ok(())
}
