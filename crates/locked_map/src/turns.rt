//! The turns of a drive on the core. One function, `take`, takes a step on the core, adds its
//! entries to `seen`, counts them in the book, and gives the drive the answer. So the core, `seen`,
//! the book and the drive all get every step. `Caller::hold` tests the token before and after. Room
//! for the entries of a turn is made before its first step. If memory for the room is refused, the
//! core, the entries and the drive are unchanged.
ghost use Rattle.std.specs.Prelude.{◌≡◌, ℕ, true, false, Some, List, [], is_some};
ghost use Rattle.txn_words.specs.declared.entry.Entry.{Entry};
ghost use Rattle.txn_words.specs.declared.refusal.Refusal.{Refusal};
ghost use Rattle.txn_words.specs.Entries.{entries_of};
ghost use Rattle.txn_words.specs.Shape.{stance_after};
ghost use Rattle.txn_words.specs.Sizes.{Sizes};
ghost use Rattle.txn_drive.specs.Drives.{step_of, turn_of};
ghost use Rattle.txn_drive.specs.Made.{made};
ghost use Rattle.locked_map.specs.Noted.{HasRoomFor};
ghost use Rattle.locked_map.specs.Suits.{may_refuse, IsSized, IsInStep};
ghost use Rattle.locked_map.specs.Holds.{MayTake, TakesOneStep, TurnTaken, IsUnderway};

use crate::booked::Booked;
use crate::claims::Claims;
use crate::seen::Seen;
use boost_core::{Drive, Turn};
use std::sync::ledger::Ledger;
use txn_trace::{Answer, Step};

/// Makes room for what the turn may add, and takes the turn. If memory for the room is refused,
/// takes no step and returns false. Otherwise returns true. An operation takes the steps `Ask`,
/// `Seek` and `Act`. Each of these steps has its own arm, so that `take_one` is compiled separately
/// for it.
pub(crate) fn take_turn<L: Ledger>(
    seen: &mut Seen<L>,
    claims: &Claims,
    booked: &mut Booked<L>,
    drive: &mut Drive,
    turn: Turn,
) -> bool
    requires turn { turn ≡ turn_of drive.old }
    requires may { MayTake claims.now booked.old.core seen.old.entries drive.old }
    ensures { TurnTaken claims.now.tried booked.old.core seen.old.entries drive.old turn
        result booked.new.core seen.new.entries drive.new }
{
    match turn {
        Turn::One(step) => match step {
            Step::Ask(caller, op) => take_one(seen, claims, booked, drive, Step::Ask(caller, op)),
            Step::Seek(caller) => take_one(seen, claims, booked, drive, Step::Seek(caller)),
            Step::Act(caller) => take_one(seen, claims, booked, drive, Step::Act(caller)),
            _ => take_one(seen, claims, booked, drive, step),
        },
        Turn::Two(..) => take_pair(seen, claims, booked, drive),
        Turn::Ended(_) => true,
    }
}

/// Takes a turn of one step. This function is compiled again for each kind of step it is called
/// with.
#[inline(always)]
fn take_one<L: Ledger>(
    seen: &mut Seen<L>,
    claims: &Claims,
    booked: &mut Booked<L>,
    drive: &mut Drive,
    step: Step,
) -> bool
    requires turn { Turn.One step ≡ turn_of drive.old }
    requires may { MayTake claims.now booked.old.core seen.old.entries drive.old }
    ensures { TurnTaken claims.now.tried booked.old.core seen.old.entries drive.old
        (Turn.One step) result booked.new.core seen.new.entries drive.new }
{
    // By the contract of `entries`, `seen` has room for all entries that are owed.
    let _seen = seen.entries();
    if seen.reserve(step).is_err() {
        return false;
    }
    take(seen, claims, booked, drive, step);
    true
}

/// Takes the drive's next turn, which has two steps. The steps are not passed as arguments, since
/// the calling function would then keep both of them on its stack in each hold.
#[inline(never)]
fn take_pair<L: Ledger>(
    seen: &mut Seen<L>,
    claims: &Claims,
    booked: &mut Booked<L>,
    drive: &mut Drive,
) -> bool
    requires two { (first : Step) × (second : Step) × (Turn.Two first second ≡ turn_of drive.old) }
    requires may { MayTake claims.now booked.old.core seen.old.entries drive.old }
    ensures { TurnTaken claims.now.tried booked.old.core seen.old.entries drive.old
        (turn_of drive.old) result booked.new.core seen.new.entries drive.new }
{
    let mut shown = *drive;
    match shown.turn(0) {
        Turn::Two(first, second) => take_two(seen, claims, booked, drive, first, second),
        _ => unreachable!(),
    }
}

/// Takes a turn of two steps. The second step is taken only if the answer to the first was
/// `Placed`.
fn take_two<L: Ledger>(
    seen: &mut Seen<L>,
    claims: &Claims,
    booked: &mut Booked<L>,
    drive: &mut Drive,
    first: Step,
    second: Step,
) -> bool
    requires turn { Turn.Two first second ≡ turn_of drive.old }
    requires may { MayTake claims.now booked.old.core seen.old.entries drive.old }
    ensures { TurnTaken claims.now.tried booked.old.core seen.old.entries drive.old
        (Turn.Two first second) result booked.new.core seen.new.entries drive.new }
{
    // By the contract of `entries`, `seen` has room for all entries that are owed.
    let _seen = seen.entries();
    if seen.reserve(second).is_err() {
        return false;
    }
    if let Answer::Placed = take(seen, claims, booked, drive, first) {
        take(seen, claims, booked, drive, second);
    }
    true
}

/// Takes a step on the core. There must be room for what the step adds. Adds the step's entries to
/// `seen`, counts them in the book, and gives the drive the answer.
#[inline(always)]
#[tactic(auto, using(crate::proofs::Claiming::tried_step))]
fn take<L: Ledger>(
    seen: &mut Seen<L>,
    claims: &Claims,
    booked: &mut Booked<L>,
    drive: &mut Drive,
    step: Step,
) -> Answer
    requires step { step_of drive.old ≡ Some step }
    requires may { MayTake claims.now booked.old.core seen.old.entries drive.old }
    requires room { HasRoomFor seen.old step }
    ensures takes { TakesOneStep claims.now.tried booked.old.core seen.old.entries drive.old step
        result
        booked.new.core seen.new.entries drive.new }
    ensures limits { booked.new.core.limits ≡ booked.old.core.limits }
    ensures whose { (drive.new.caller ≡ drive.old.caller) × (drive.new.call ≡ drive.old.call) }
    ensures same { entries_of step result ≡ [] → seen.new ≡ seen.old }
    ensures in_step { (limits : Sizes) (c : ℕ) → IsSized booked.old.core.size drive.old.phase
        → IsInStep booked.old.core limits c seen.old.entries drive.old
        → IsInStep booked.new.core limits c seen.new.entries drive.new }
    ensures goes { (base : List Entry) → IsUnderway base seen.old.entries drive.old
        → IsUnderway base seen.new.entries drive.new }
{
    let Booked {
        core,
        book,
        none: _,
    } = booked;
    // By the contracts of `trace` and `callers`, the history is legal before and after the step,
    // and each caller's number fits into a small entry.
    let _before = core.trace();
    let answer = claims.step(core, step);
    let _after = core.trace();
    let _fits = core.limits().callers();
    seen.note(book, step, answer);
    // By the contract of `entries`, there are fewer than 2^63 entries.
    let _seen = seen.entries();
    drive.told(answer);
    answer
}
