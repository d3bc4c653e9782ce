//! The trait for the inverse of a change: the state of the world before and after the change, and
//! the law that `run` obeys. A log stores jobs and runs none, so a log needs no world. The world of
//! the map's jobs is the table, and the world of a side value's jobs is the value itself. The cost
//! of a run is not bounded.
/// The inverse of one change, which is run at most once.
///
/// The contract of `run` is its law. A job names two states: the one before its change and the one
/// after its change. `run` takes a world in the state after the change, and returns a world in the
/// state before the change. `takes_back` says what differs between the two worlds, and that
/// everything else is the same. A job that is no longer needed is dropped.
pub trait UndoJob: Drop {
    /// The world that was changed, such as a table of nodes.
    type World;

    /// The state of the world is the one that the job names as the state after its change.
    ghost shows_after: { Self → Self.World → Type 0 };

    /// The state of the world is the one that the job names as the state before its change.
    ghost shows_before: { Self → Self.World → Type 0 };

    /// The second world is the first world without the job's change, and everything else is the
    /// same in both.
    ghost takes_back: { Self → Self.World → Self.World → Type 0 };

    /// Takes the change back. The job's type determines the cost.
    fn run(self, world: Self::World) -> Self::World
        requires { shows_after self world }
        ensures before { shows_before self result }
        ensures back { takes_back self world result };
}
