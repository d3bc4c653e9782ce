//! The worked runs that every map must pass, and a run of the striped map alone. All answers were
//! worked out by hand, from the rules of ANSWERS and of the words of `txn_words`. By the contracts,
//! any call may be refused memory, or be busy although the stripe is free. Here a call is refused
//! or busy only if its row says so.
use crate::calls::{open, play_to_the_end};
use crate::worked::Ask::{Abort, Back, Begin, Commit, Do, Empty, Len, Save};
use crate::worked::Told::{Busy, Done, Is, Number, Refused, Replied};
use crate::worked::{CALLERS, NEW, NOT_OPEN, Row, Run, STRIPES, Told, play_run};
use txn_words::Op::{Get, Put, PutIf, Take};
use txn_words::Refusal::{AlreadyOpen, NoSuchLevel};

/// The replies to operations on keys that had the values 10, 11 and 20.
const TEN: Told = Replied(Some(10));

const ELEVEN: Told = Replied(Some(11));

const TWENTY: Told = Replied(Some(20));

/// The answer to a return to a level that does not exist.
const NO_LEVEL: Told = Refused(NoSuchLevel);

/// The runs. The map is new and has eight stripes, so keys 1, 9 and 17 share a stripe.
pub(crate) static WORKED: [Run; 11] = [
    (
        "an_operation_replies_with_the_value_before_it",
        &[
            (0, Begin, Done),
            (0, Do(Get(1)), NEW),
            (0, Do(Take(1)), NEW),
            (0, Do(Put(1, 10)), NEW),
            (0, Do(Put(1, 11)), TEN),
            (0, Do(Get(1)), ELEVEN),
            (0, Do(Take(1)), ELEVEN),
            (0, Do(Get(1)), NEW),
            (0, Do(Put(1, 20)), NEW),
            (0, Commit, Number(1)),
            (1, Begin, Done),
            (1, Do(Get(1)), TWENTY),
            (1, Commit, Number(2)),
        ],
    ),
    (
        "put_if_puts_only_if_the_value_is_the_expected_one",
        &[
            (0, Begin, Done),
            (0, Do(PutIf(1, Some(10), 12)), NEW),
            (0, Do(PutIf(1, None, 10)), NEW),
            (0, Do(PutIf(1, None, 12)), TEN),
            (0, Do(PutIf(1, Some(11), 12)), TEN),
            (0, Do(PutIf(1, Some(10), 11)), TEN),
            (0, Do(Get(1)), ELEVEN),
        ],
    ),
    (
        "keys_share_a_stripe_if_they_leave_the_same_remainder",
        &[
            (0, Begin, Done),
            (0, Do(Put(1, 10)), NEW),
            (0, Do(Put(9, 20)), NEW),
            (1, Begin, Done),
            (1, Do(Get(2)), NEW),
            (1, Do(Get(8)), NEW),
            (1, Do(Get(17)), Busy(0)),
            (0, Do(Get(1)), TEN),
            (0, Do(Get(9)), TWENTY),
        ],
    ),
    (
        "busy_aborts_and_names_the_holder",
        &[
            (2, Begin, Done),
            (2, Do(Put(1, 10)), NEW),
            (1, Begin, Done),
            (1, Do(Get(2)), NEW),
            (0, Begin, Done),
            (0, Do(Get(9)), Busy(2)),
            (0, Do(Get(3)), NOT_OPEN),
            (0, Begin, Done),
            (0, Do(Put(2, 20)), Busy(1)),
            (0, Begin, Done),
            (0, Commit, Number(1)),
            (2, Do(Get(1)), TEN),
            (2, Commit, Number(2)),
        ],
    ),
    (
        "busy_takes_every_change_back_and_frees_every_stripe",
        &[
            (0, Begin, Done),
            (0, Do(Put(1, 10)), NEW),
            (0, Commit, Number(1)),
            (1, Begin, Done),
            (1, Do(Get(3)), NEW),
            (0, Begin, Done),
            (0, Do(Put(1, 11)), TEN),
            (0, Do(Put(2, 20)), NEW),
            (0, Do(PutIf(3, None, 30)), Busy(1)),
            (2, Begin, Done),
            (2, Do(Get(1)), TEN),
            (2, Do(Get(2)), NEW),
        ],
    ),
    (
        "commit_and_abort_free_every_stripe_and_a_return_frees_none",
        &[
            (0, Begin, Done),
            (0, Save, Number(1)),
            (0, Do(Put(1, 10)), NEW),
            (0, Back(1), Done),
            (1, Begin, Done),
            (1, Do(Get(9)), Busy(0)),
            (0, Abort, Done),
            (1, Begin, Done),
            (1, Do(Put(9, 11)), NEW),
            (0, Begin, Done),
            (0, Do(Get(1)), Busy(1)),
            (1, Commit, Number(1)),
            (0, Begin, Done),
            (0, Do(Get(1)), NEW),
            (0, Do(Get(9)), ELEVEN),
        ],
    ),
    (
        "an_abort_takes_every_change_back",
        &[
            (0, Begin, Done),
            (0, Do(Put(1, 10)), NEW),
            (0, Commit, Number(1)),
            (1, Begin, Done),
            (1, Do(Take(1)), TEN),
            (1, Save, Number(1)),
            (1, Do(Put(1, 11)), NEW),
            (1, Do(PutIf(2, None, 20)), NEW),
            (1, Abort, Done),
            (0, Begin, Done),
            (0, Do(Get(1)), TEN),
            (0, Do(Get(2)), NEW),
        ],
    ),
    (
        "a_return_takes_back_what_came_after_its_level",
        &[
            (0, Begin, Done),
            (0, Do(Put(1, 10)), NEW),
            (0, Save, Number(1)),
            (0, Do(Put(1, 11)), TEN),
            (0, Do(Put(2, 20)), NEW),
            (0, Save, Number(2)),
            (0, Do(Take(1)), ELEVEN),
            (0, Do(PutIf(2, Some(20), 21)), TWENTY),
            (0, Back(2), Done),
            (0, Do(Get(1)), ELEVEN),
            (0, Do(Take(2)), TWENTY),
            (0, Back(2), Done),
            (0, Do(Get(2)), TWENTY),
            (0, Back(1), Done),
            (0, Do(Get(1)), TEN),
            (0, Do(Get(2)), NEW),
            (0, Save, Number(2)),
            (0, Back(0), Done),
            (0, Do(Get(1)), NEW),
            (0, Save, Number(1)),
        ],
    ),
    (
        "a_return_to_a_missing_level_is_refused_and_changes_nothing",
        &[
            (0, Begin, Done),
            (0, Back(1), NO_LEVEL),
            (0, Do(Put(1, 10)), NEW),
            (0, Save, Number(1)),
            (0, Do(Put(1, 11)), TEN),
            (0, Back(2), NO_LEVEL),
            (0, Back(u64::MAX), NO_LEVEL),
            (0, Do(Get(1)), ELEVEN),
            (0, Back(0), Done),
            (0, Back(1), NO_LEVEL),
            (0, Do(Get(1)), NEW),
        ],
    ),
    (
        "without_a_transaction_each_call_is_refused",
        &[
            (0, Do(Get(1)), NOT_OPEN),
            (0, Do(Put(1, 10)), NOT_OPEN),
            (0, Do(Take(1)), NOT_OPEN),
            (0, Do(PutIf(1, None, 10)), NOT_OPEN),
            (0, Save, NOT_OPEN),
            (0, Back(0), NOT_OPEN),
            (0, Commit, NOT_OPEN),
            (0, Abort, NOT_OPEN),
            (0, Begin, Done),
            (0, Commit, Number(1)),
            (0, Do(Get(1)), NOT_OPEN),
            (0, Begin, Done),
            (0, Abort, Done),
            (0, Commit, NOT_OPEN),
        ],
    ),
    (
        "a_second_begin_is_refused_and_the_transaction_goes_on",
        &[
            (0, Begin, Done),
            (0, Do(Put(1, 10)), NEW),
            (0, Begin, Refused(AlreadyOpen)),
            (0, Do(Get(1)), TEN),
            (0, Commit, Number(1)),
        ],
    ),
];

#[test]
fn the_striped_map_passes_every_run(rt: HostRuntime) {
    for (name, rows) in &WORKED {
        play_run(
            &rt,
            &mut open(&rt, rt.alloc(), STRIPES, CALLERS),
            name,
            rows,
        );
    }
}

/// On a map with three stripes. Caller 1 holds one of them, and all from its `Empty` to its commit.
const COUNTED: &[Row] = &[
    (0, Len, NOT_OPEN),
    (0, Begin, Done),
    (0, Do(Put(1, 10)), NEW),
    (1, Begin, Done),
    (1, Len, Busy(0)),
    (1, Do(Get(2)), NOT_OPEN),
    (0, Empty, Is(false)),
    (1, Begin, Done),
    (1, Do(Get(0)), Busy(0)),
    (1, Begin, Done),
    (1, Do(Get(2)), Busy(0)),
    (0, Len, Number(1)),
    (0, Commit, Number(1)),
    (1, Begin, Done),
    (1, Len, Number(1)),
    (1, Commit, Number(2)),
];

#[test]
fn len_and_is_empty_take_every_stripe_or_are_busy(rt: HostRuntime) {
    let home = &mut open(&rt, rt.alloc(), 3, 2);
    play_to_the_end(&rt, home, COUNTED, &[(1, 10)]);
}
