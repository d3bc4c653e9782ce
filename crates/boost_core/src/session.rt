//! A caller's side of the core: stance, waiting operation, cursor and log. A cursor belongs to the
//! waiting operation or to the newest change, so one field serves both. The steps that a side takes
//! are in `operations.rt` and `transactions.rt`.
ghost use Rattle.std.specs.Prelude.{◌≡◌, ◌+◌, ◌≤◌, ◌<◌, true, None, is_some, length};

use crate::counts::Counts;
use crate::steps::CallerStep;
use key_locks::KeyLocks;
use map_ops::{Cursor, MapJob, Pending, Table};
use std::alloc::Global;
use txn_trace::{Answer, Phase, Stance, Step};
use undo_log::UndoLog;

/// A caller: its stance, its waiting operation, the cursor for this operation or for its newest
/// change, and its log.
#[derive(Drop)]
pub struct Session {
    pub(crate) stance: Stance,
    pub(crate) pending: Option<Pending>,
    pub(crate) cursor: Option<Cursor>,
    pub(crate) log: UndoLog<MapJob>,
}

impl Session {
    ghost use Rattle.boost_core.specs.Sessions.{IsIdle, MayTakeStep, HasEffect, KeepsPlaced, level_of, reach};
    ghost use Rattle.boost_core.specs.Answers.{is_at_end};
    ghost use Rattle.boost_core.specs.Refusals.{lacks_in};
    ghost use Rattle.map_ops.specs.TableAt.{table_changes};

    /// A caller without a transaction.
    pub(crate) fn new(alloc: Global) -> Session
        ensures { IsIdle result }
    {
        Session {
            stance: Stance::new(alloc),
            pending: None,
            cursor: None,
            log: UndoLog::new(alloc),
        }
    }

    /// Returns true if this step needs a cursor that the caller does not have.
    #[inline(always)]
    pub(crate) fn lacks_cursor(&self, step: Step) -> bool
        ensures { result ≡ lacks_in self.now.stance.stance (is_some self.now.cursor) step }
    {
        match step {
            Step::Act(_) => self.stance.has_target() && !self.cursor.is_some(),
            _ => false,
        }
    }

    /// Returns true if the caller is taking back all its changes.
    pub(crate) fn leaves_to_end(&self) -> bool
        ensures { result ≡ is_at_end self.now.stance.stance.phase }
    {
        matches!(self.stance.phase(), Phase::LeavingToEnd)
    }

    /// The level to which the caller takes its changes back; 0 in every phase but `LeavingTo`.
    pub(crate) fn level(&self) -> usize
        ensures { result ≡ level_of self.now.stance.stance.phase }
    {
        match self.stance.phase() {
            Phase::LeavingTo(level) => level as usize,
            _ => 0,
        }
    }

    /// Takes a step of this caller that no test refuses. The stance is unchanged except for its room,
    /// because the step's entry is added to the stance afterwards.
    #[inline(always)]
    pub(crate) fn answer(
        &mut self,
        caller: u64,
        step: CallerStep,
        stripes: u64,
        counts: Counts,
        table: &mut Table,
        locks: &mut KeyLocks,
    ) -> Answer
        requires { MayTakeStep stripes counts caller step (reach self.old table.old locks.old) }
        ensures does { HasEffect stripes counts caller step (reach self.old table.old locks.old)
            result (reach self.new table.new locks.new) }
        ensures rises { table_changes table.old ≤ table_changes table.new }
        ensures placed { KeepsPlaced table.old table.new }
    {
        match step {
            CallerStep::Begin => Answer::Began(counts.began + 1),
            CallerStep::Ask(op, claim) => {
                let stripe = op.key() % stripes;
                self.ask_by(claim, caller as usize, stripe as usize, op, table, locks)
            }
            CallerStep::Seek => self.seek(table),
            CallerStep::Act => self.act(caller as usize, table, locks),
            CallerStep::Save => self.save(),
            CallerStep::Back(_) => self.drop_cursor(),
            CallerStep::Commit => {
                self.settle(table);
                locks.release_all(caller as usize);
                Answer::Committed(counts.committed + 1)
            }
            CallerStep::Abort => self.withdraw(table),
        }
    }
}
