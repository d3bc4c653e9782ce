//! The steps that divide and end a transaction: they set a savepoint, empty the log at a commit,
//! and drop the cursor and the waiting operation of a caller that leaves. Unlike the steps in
//! `operations.rt` they change no key. Only `save` takes memory. `settle` takes time in proportion
//! to the jobs and savepoints.
ghost use Rattle.std.specs.Prelude.{◌≡◌, None};

use crate::session::Session;
use map_ops::Table;
use txn_trace::{Answer, Refusal};

impl Session {
    ghost use Rattle.boost_core.specs.Sessions.{CanSettle, Saves, SettlesIn, WithdrawsIn, spare_if};
    ghost use Rattle.map_ops.specs.Changes.{OwnsIf};

    /// Sets a savepoint in the log, and makes room for it in the stance.
    pub(crate) fn save(&mut self) -> Answer
        ensures { Saves self.old result self.new }
    {
        if self.stance.reserve_level().is_err() {
            return Answer::Refused(Refusal::NoMemory);
        }
        match self.log.save() {
            Ok(level) => Answer::Saved(level as u64),
            Err(_) => Answer::Refused(Refusal::NoMemory),
        }
    }

    /// Starts the return to a level: drops the caller's cursor, if there is one.
    pub(crate) fn drop_cursor(&mut self) -> Answer
        ensures answer { result ≡ Answer.Leaving }
        ensures becomes { self.new ≡ record self.old { cursor = None } }
    {
        self.cursor = None;
        Answer::Leaving
    }

    /// Starts an abort: gives up the caller's cursor and its waiting operation, if there are any.
    pub(crate) fn withdraw(&mut self, table: &mut Table) -> Answer
        requires { OwnsIf table.old (spare_if self.old.pending) }
        ensures answer { result ≡ Answer.Leaving }
        ensures withdraws { WithdrawsIn self.old table.old self.new table.new }
    {
        self.cursor = None;
        if let Some(pending) = self.pending.take() {
            table.withdraw(pending);
        }
        Answer::Leaving
    }

    /// Drops all jobs and savepoints of the caller.
    pub(crate) fn settle(&mut self, table: &mut Table)
        requires { CanSettle self.old table.old }
        ensures { SettlesIn self.old table.old self.new table.new }
    {
        while let Some(job) = self.log.pop_above(0) {
            table.discard(job);
        }
        self.log.cut(0);
    }
}
