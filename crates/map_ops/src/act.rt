//! What `act` and `undo` return: either the call is done, or the cursor no longer fits and the
//! argument is returned. Both types are enums, so that a value that owns a spare cannot be lost
//! when the cursor does not fit. No value of these types can be copied. So until a spare is used,
//! it has exactly one owner: an operation or a job.
use crate::job::MapJob;
use crate::pending::Pending;
use txn_words::Reply;

/// What `Table::act` returns.
#[derive(Debug, Drop)]
pub enum Act {
    /// The operation is done. The fields are its reply and, if the operation is a change, the job
    /// that takes the change back.
    Acted(Reply, Option<MapJob>),
    /// The cursor no longer fits. Nothing has changed, and the operation is returned.
    Again(Pending),
}

/// What `Table::undo` returns.
#[derive(Debug, Drop)]
pub enum Undo {
    /// The change is taken back.
    Undone,
    /// The cursor no longer fits. Nothing has changed, and the job is returned.
    Again(MapJob),
}
