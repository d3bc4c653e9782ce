//! Tests of `txn_words`, the vocabulary of transactions: numbers, texts, limits and stances. The
//! tables were written by hand and test what the definitions in its contracts mean. The contracts
//! allow a stance to refuse room for a savepoint. One test checks that the next try succeeds.
use std::alloc::{AllocError, Global};
use std::process::Abort;
use std::test::Fail;
use txn_words::{Answer, Entry, Limits, Op, Refusal, Stance, Step, answer_text};

/// Each row has an answer and its text.
const ANSWERS: [(Answer, &str); 26] = [
    (Answer::Began(1), "began 1"),
    (Answer::Asked, "asked"),
    (Answer::Busy(0), "busy 0"),
    (Answer::Placed, "placed"),
    (Answer::Again, "again"),
    (Answer::Done(None), "done none"),
    (Answer::Done(Some(0)), "done 0"),
    (
        Answer::Done(Some(0xffff_ffff_ffff_ffff)),
        "done 18446744073709551615",
    ),
    (Answer::Undone, "undone"),
    (Answer::Returned(0), "returned 0"),
    (Answer::Aborted, "aborted"),
    (Answer::Saved(2), "saved 2"),
    (Answer::Leaving, "leaving"),
    (Answer::Committed(10), "committed 10"),
    (Answer::Swept, "swept"),
    (Answer::Clean, "clean"),
    (Answer::Ready, "ready"),
    (Answer::Present, "present"),
    (Answer::Linked, "linked"),
    (Answer::Stored, "stored"),
    (Answer::Moved(2), "moved 2"),
    (Answer::AtLimit, "at limit"),
    (Answer::Light, "light"),
    (Answer::Doubled(65536), "doubled 65536"),
    (Answer::Refused(Refusal::BadKey), "refused 1"),
    (Answer::Refused(Refusal::StampsUsedUp), "refused 16"),
];

/// The text of an answer.
fn text_of(alloc: Global, answer: &Answer) -> Result<String, AllocError> {
    answer_text(alloc, answer)
}

/// Each row has a refusal, its number and its text.
const REFUSALS: [(Refusal, u64, &str); 22] = [
    (Refusal::BadKey, 1, "1"),
    (Refusal::NoSuchCaller, 2, "2"),
    (Refusal::NotOpen, 3, "3"),
    (Refusal::AlreadyOpen, 4, "4"),
    (Refusal::OperationUnfinished, 5, "5"),
    (Refusal::Leaving, 6, "6"),
    (Refusal::Unplaced, 7, "7"),
    (Refusal::NothingToSeek, 8, "8"),
    (Refusal::NoSuchLevel, 9, "9"),
    (Refusal::NoSuchBucket, 10, "10"),
    (Refusal::ParentMissing, 11, "11"),
    (Refusal::NoSuchHelper, 12, "12"),
    (Refusal::HelperOutOfOrder, 13, "13"),
    (Refusal::NoMemory, 14, "14"),
    (Refusal::OutOfStep, 15, "15"),
    (Refusal::StampsUsedUp, 16, "16"),
    (Refusal::CallersMissing, 17, "17"),
    (Refusal::NoThread, 18, "18"),
    (Refusal::StaleWord, 19, "19"),
    (Refusal::NotJson, 20, "20"),
    (Refusal::WrongShape, 21, "21"),
    (Refusal::Limit, 22, "22"),
];

/// A refusal's number and its text.
fn number_and_text(alloc: Global, refusal: Refusal) -> Result<(u64, String), AllocError> {
    Ok((refusal.number(), format!(in alloc; "{refusal}")?))
}

/// Checks that the answers have these texts.
fn answers_have_texts(
    rt: &impl Abort,
    alloc: Global,
    rows: &[(Answer, &str)],
) -> Result<(), AllocError> {
    for (answer, wanted) in rows {
        let text = text_of(alloc, answer)?;
        assert_eq!(rt; text.as_str(), *wanted);
    }
    Ok(())
}

/// Checks that the refusals have these numbers and texts.
fn refusals_have_numbers(
    rt: &impl Abort,
    alloc: Global,
    rows: &[(Refusal, u64, &str)],
) -> Result<(), AllocError> {
    for (refusal, wanted, words) in rows {
        let (number, text) = number_and_text(alloc, *refusal)?;
        assert_eq!(rt; number, *wanted, "of {text}");
        assert_eq!(rt; text.as_str(), *words);
    }
    Ok(())
}

#[test]
fn numbers_and_texts(rt: HostRuntime) -> Result<(), Fail> {
    answers_have_texts(&rt, rt.alloc(), &ANSWERS)?;
    refusals_have_numbers(&rt, rt.alloc(), &REFUSALS)?;
    Ok(())
}

/// Makes limits with these numbers of callers, stripes and buckets. Returns the numbers that the
/// limits report.
fn numbers_of(callers: u64, stripes: u64, buckets: u64) -> Result<(u64, u64, u64), Refusal> {
    let limits = Limits::new(callers, stripes, buckets)?;
    Ok((
        u64::from(limits.callers()),
        u64::from(limits.stripes()),
        u64::from(limits.buckets()),
    ))
}

/// Numbers of callers, stripes and buckets that limits may have.
const IN_RANGE: [(u64, u64, u64); 3] = [(2, 8, 8), (1, 1, 2), (64, 4096, 65536)];

/// Numbers of callers, stripes and buckets that limits may not have.
const OUT_OF_RANGE: [(u64, u64, u64); 10] = [
    (0, 8, 8),
    (65, 8, 8),
    (1, 0, 8),
    (1, 4097, 8),
    (1, 8, 0),
    (1, 8, 1),
    (1, 8, 6),
    (1, 8, 65535),
    (1, 8, 131072),
    (1, 0x1_0000_0001, 8),
];

/// A stance with an open transaction.
fn open_stance(rt: &impl Abort, alloc: Global) -> Stance {
    let mut stance = Stance::new(alloc);
    assert!(rt; stance.standing() == 0);
    assert!(rt; stance.enter(Entry::Began(0, 1)));
    stance
}

/// How a get of this key is refused at a stance with an open transaction. The first refusal is for
/// limits that allow every key, and the second is for limits that allow only half keys.
fn refusals_of_key(
    stance: &Stance,
    key: u64,
) -> Result<(Option<Refusal>, Option<Refusal>), Refusal> {
    let every = Limits::new(2, 8, 8)?;
    let ask = Step::Ask(0, Op::Get(key));
    Ok((
        stance.refusal(every, ask),
        stance.refusal(every.half_keys(), ask),
    ))
}

/// Each row has a key, and how a get of this key is refused if the limits allow only half keys.
const KEYS: [(u64, Option<Refusal>); 3] = [
    (0x7fff_ffff_ffff_ffff, None),
    (0x8000_0000_0000_0000, Some(Refusal::BadKey)),
    (0xffff_ffff_ffff_ffff, Some(Refusal::BadKey)),
];

/// Makes limits with the numbers of each row. If `are_in_range` is true, this must succeed.
/// Otherwise the numbers must be refused.
fn limits_are(rt: &impl Abort, rows: &[(u64, u64, u64)], are_in_range: bool) {
    for (callers, stripes, buckets) in rows {
        let numbers = numbers_of(*callers, *stripes, *buckets);
        let wanted = if are_in_range {
            Ok((*callers, *stripes, *buckets))
        } else {
            Err(Refusal::Limit)
        };
        assert_eq!(rt; numbers, wanted, "{callers}, {stripes}, {buckets}");
    }
}

/// For each row, checks how a get of its key is refused. Limits that allow every key must not
/// refuse it.
fn keys_are(
    rt: &impl Abort,
    stance: &Stance,
    rows: &[(u64, Option<Refusal>)],
) -> Result<(), Refusal> {
    for (key, half) in rows {
        assert_eq!(rt;
            refusals_of_key(stance, *key)?,
            (None, *half),
            "of key {key}"
        );
    }
    Ok(())
}

#[test]
fn limits_and_keys(rt: HostRuntime) -> Result<(), Fail> {
    limits_are(&rt, &IN_RANGE, true);
    limits_are(&rt, &OUT_OF_RANGE, false);
    let stance = open_stance(&rt, rt.alloc());
    keys_are(&rt, &stance, &KEYS)?;
    Ok(())
}

/// The number of savepoints.
fn levels_of(stance: &Stance) -> u64 {
    stance.levels()
}

/// Makes room for a savepoint and sets it.
fn save(rt: &impl Abort, stance: &mut Stance) -> Result<(), AllocError> {
    stance.reserve_level()?;
    assert!(rt; stance.standing() == 0);
    assert!(rt; stance.enter(Entry::Saved(0)));
    Ok(())
}

/// This test is meant to be run with each allocation refused in turn. A refusal leaves the stance
/// unchanged, and the next try succeeds.
#[test]
fn savepoints_without_memory(rt: HostRuntime) -> Result<(), Fail> {
    save_nine(&rt, &mut open_stance(&rt, rt.alloc()))
}

/// Sets nine savepoints.
fn save_nine(rt: &impl Abort, stance: &mut Stance) -> Result<(), Fail> {
    for level in 0..9 {
        assert_eq!(rt; levels_of(stance), level);
        if save(rt, stance).is_err() {
            assert_eq!(rt; levels_of(stance), level, "no memory, no savepoint");
            save(rt, stance)?;
        }
    }
    assert_eq!(rt; levels_of(stance), 9);
    Ok(())
}
