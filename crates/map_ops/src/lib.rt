//! A split-ordered hash table whose operations are those of a plain map, and whose changes each
//! have an inverse.
//!
//! A contract sees a `Table` as its list of nodes and its buckets, and derives the `content`, a
//! finite map, and `regular`, the list of its pairs. In every `Table` the sort keys rise strictly,
//! the list has the content's pairs in their order, each initialised bucket names its linked dummy,
//! and none is initialised before its parent.
//!
//! - `apply` does an operation as on the map, and returns a `MapJob` exactly if it was a change.
//! - `take_back` restores the value that the job's key had before, and leaves every other key as it
//!   is now (Herlihy and Koskinen, "Transactional Boosting", 2008). The key must be as the change
//!   left it: present after a put, absent after a take.
//! - `prepare`, `place` and `act` do an operation in steps, `place_job` and `undo` take one back.
//!   If the cursor's nodes are no longer unmarked neighbours, `Again` is returned and nothing is
//!   lost.
//! - `law`: an operation and then its job change nothing; jobs of different keys may run in either
//!   order.
//!
//! All other calls leave content and pairs unchanged. A prepared operation owns the node that it
//! may need, and a take passes its node on to its job. So taking a change back needs no memory.
//! Calls take constant time and no memory unless they say otherwise.
//!
//! Only tested: with enough memory, no call returns "no memory".
#![tactic(auto)]

mod act;
mod change;
mod job;
pub mod law;
mod listing;
mod pending;
mod refusals;
mod table;
mod undo_job;

pub use act::{Act, Undo};
pub use bucket_table::{Double, InitLink, InitSeek};
pub use job::MapJob;
pub use list_steps::{Cursor, SweepOutcome};
pub use node_list::Unfilled;
pub use pending::Pending;
pub use split_key::Key;
pub use table::Table;
