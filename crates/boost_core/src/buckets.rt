//! The steps that belong to no caller: sweeps, the three steps of a bucket's initialisation, and
//! doubling. Each is one call of the table, whose outcome is converted to an answer. They add no
//! entry.
ghost use Rattle.std.specs.Prelude.{◌≡◌, ◌≤◌};
ghost use Rattle.map_ops.specs.TableAt.{table_changes, Follows};
ghost use Rattle.boost_core.specs.Serves.{Serves, doubled, linked, answer_to_seek, stored, swept};

use crate::steps::HelperStep;
use map_ops::{Double, InitLink, InitSeek, SweepOutcome, Table};
use txn_trace::{Answer, Refusal};

/// Takes a step that belongs to no caller.
#[inline(always)]
pub(crate) fn serve(step: HelperStep, table: &mut Table) -> Answer
    ensures serves { Serves step table.old result table.new }
    ensures rises { table_changes table.old ≤ table_changes table.new }
    ensures follows { Follows table.old table.new }
{
    match step {
        HelperStep::Sweep => swept_answer(table.sweep()),
        HelperStep::InitSeek(helper, bucket) => sought_answer(table.init_seek(helper, bucket)),
        HelperStep::InitLink(helper) => linked_answer(table.init_link(helper)),
        HelperStep::InitStore(helper) => stored_answer(table.init_store(helper)),
        HelperStep::Double(seen) => doubled_answer(table.double(seen)),
    }
}

fn swept_answer(outcome: SweepOutcome) -> Answer
    ensures { result ≡ swept outcome }
{
    match outcome {
        SweepOutcome::Swept => Answer::Swept,
        SweepOutcome::Clean => Answer::Clean,
    }
}

fn sought_answer(outcome: Result<InitSeek, Refusal>) -> Answer
    ensures { result ≡ answer_to_seek outcome }
{
    match outcome {
        Ok(InitSeek::Ready) => Answer::Ready,
        Ok(InitSeek::Placed) => Answer::Placed,
        Err(refusal) => Answer::Refused(refusal),
    }
}

fn linked_answer(outcome: Result<InitLink, Refusal>) -> Answer
    ensures { result ≡ linked outcome }
{
    match outcome {
        Ok(InitLink::Again) => Answer::Again,
        Ok(InitLink::Present) => Answer::Present,
        Ok(InitLink::Linked) => Answer::Linked,
        Err(refusal) => Answer::Refused(refusal),
    }
}

fn stored_answer(outcome: Result<(), Refusal>) -> Answer
    ensures { result ≡ stored outcome }
{
    match outcome {
        Ok(()) => Answer::Stored,
        Err(refusal) => Answer::Refused(refusal),
    }
}

fn doubled_answer(outcome: Double) -> Answer
    ensures { result ≡ doubled outcome }
{
    match outcome {
        Double::Moved(size) => Answer::Moved(u64::from(size)),
        Double::AtLimit => Answer::AtLimit,
        Double::Light => Answer::Light,
        Double::Doubled(size) => Answer::Doubled(u64::from(size)),
    }
}
