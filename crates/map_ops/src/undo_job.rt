//! Implements `UndoJob`, the trait of the jobs of an undo log, for the jobs of the table. The log's
//! world is the table. Only this module uses the crate `undo_log`, which knows nothing of tables.
//! Running a job costs a seek and one change at the position of the job's key, and takes no memory.
use crate::job::MapJob;
use crate::table::Table;
use undo_log::UndoJob;

impl UndoJob for MapJob {
    ghost use Rattle.map_ops.specs.Changes.{RunsJob, ShowsAfter, ShowsBefore};

    type World = Table;

    ghost shows_after = { ShowsAfter };

    ghost shows_before = { ShowsBefore };

    ghost takes_back = { λ job old new. RunsJob old new job };

    fn run(self, world: Table) -> Table {
        let mut table = world;
        table.take_back(self);
        table
    }
}
