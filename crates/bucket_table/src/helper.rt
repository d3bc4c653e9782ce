//! Helpers: the callers that initialise buckets. Between two steps a helper is idle, has a cursor
//! for a dummy, or has a dummy that it has not stored yet. `buckets.rt` reads this state only by
//! `seeking` and `holding`, so only these two methods refuse a step that comes out of order.
ghost use Rattle.std.specs.Prelude.{◌≡◌};

use crate::answer::InitRefusal;
use list_steps::Cursor;
use node_list::NodeRef;

/// The state of a helper.
#[derive(Clone, Copy, Debug)]
pub enum Helper {
    /// The helper has no bucket.
    Idle,
    /// The helper has a cursor for the dummy of this bucket.
    Seeking(u32, Cursor),
    /// The helper has the linked dummy of this bucket, and has not stored it yet.
    Holding(u32, NodeRef),
}

impl Helper {
    ghost use Rattle.bucket_table.specs.Helpers.{seeking_of, holding_of};

    /// The helper's bucket and cursor, or `HelperOutOfOrder` if it has no cursor.
    pub(crate) fn seeking(&self) -> Result<(u32, Cursor), InitRefusal>
        ensures { result ≡ seeking_of self.now }
    {
        match self {
            Helper::Seeking(bucket, cursor) => Ok((*bucket, *cursor)),
            Helper::Idle | Helper::Holding(_, _) => Err(InitRefusal::HelperOutOfOrder),
        }
    }

    /// The helper's bucket and dummy, or `HelperOutOfOrder` if it has no dummy.
    pub(crate) fn holding(&self) -> Result<(u32, NodeRef), InitRefusal>
        ensures { result ≡ holding_of self.now }
    {
        match self {
            Helper::Holding(bucket, dummy) => Ok((*bucket, *dummy)),
            Helper::Idle | Helper::Seeking(_, _) => Err(InitRefusal::HelperOutOfOrder),
        }
    }
}
