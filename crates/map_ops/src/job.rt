//! The inverses of changes: take out, write back, put back. They have a type of their own, apart
//! from `Op`, because the inverse of a put depends on whether the key had a value. A job that puts
//! a key back owns the node for it, so that running the job never takes memory.
ghost use Rattle.std.specs.Prelude.{◌≡◌};

use node_list::Unfilled;
use split_key::Key;

/// The inverse of one change: it takes the change back, whatever has changed at other keys since
/// then (an inverse method call in the sense of Herlihy and Koskinen 2008). A `Relink` owns a spare
/// of the table, so that running it needs no memory.
#[derive(Debug, Drop)]
pub enum MapJob {
    /// Takes out the value that was put at the key.
    Unput(Key),
    /// Gives the key the value that it had.
    Restore(Key, u64),
    /// Puts the key back with the value that it had, with this spare.
    Relink(Key, u64, Unfilled),
}

impl MapJob {
    ghost use Rattle.map_ops.specs.Jobs.{key_of_job, spare_of_job};

    /// The key of the change.
    pub fn key(&self) -> Key
        ensures { result ≡ key_of_job self.now }
    {
        match self {
            MapJob::Unput(key) => *key,
            MapJob::Restore(key, _) => *key,
            MapJob::Relink(key, _, _) => *key,
        }
    }

    /// The spare of the job, if it owns one.
    pub(crate) fn into_spare(self) -> Option<Unfilled>
        ensures { result ≡ spare_of_job self }
    {
        match self {
            MapJob::Relink(_, _, spare) => Some(spare),
            MapJob::Unput(_) => None,
            MapJob::Restore(_, _) => None,
        }
    }
}
