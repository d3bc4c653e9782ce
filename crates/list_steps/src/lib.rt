//! Steps on a list of nodes, at positions found by earlier seeks. Nodes are marked before they are
//! unlinked (Harris, "A Pragmatic Implementation of Non-Blocking Linked-Lists", 2001). One step
//! seeks a position, and a later step acts there. It tests whether other callers changed the
//! position in between. No two steps run at once.
//!
//! ```text
//! dummy 0 -> key 4 -> key 2 -> end      a cursor for key 2's sort key: pred is key 4, cur is key 2
//! ```
//!
//! A `Cursor` notes the sort key sought, two nodes with their stamps, and the list's change number.
//! `pred` is the last unmarked node below the sort key, `cur` the first unmarked node not below it,
//! or the end. A cursor *fits* if `pred` is still linked and unmarked, the next node is still `cur`
//! and unmarked, and both have the noted stamps. `look` returns `Again` exactly if it does not fit.
//! Any old cursor may be passed in, since each change of the list keeps it safe (`IsPlaced`, the
//! lemma `still_placed`). `link_at`, `mark_at` and `swap_at` rely on the answer of `look`.
//!
//! A contract sees the list as in `node_list`, and its content as `pairs`: the key and value of
//! each regular, unmarked node, in order. Linking a regular node adds a pair, marking a node
//! removes one, and a swap changes a value. Seeks, sweeps and linking a dummy leave the content
//! unchanged.
//!
//! Calls take no memory. All but seeks and sweeps take constant time.
#![tactic(auto)]

mod at_cursor;
mod cursor;
mod search;
mod steps;
mod sweeps;

pub use at_cursor::{link, mark, swap};
pub use cursor::{Again, Cursor};
pub use search::seek;
pub use steps::{link_at, look, mark_at, swap_at};
pub use sweeps::{SweepOutcome, sweep, sweep_from};
