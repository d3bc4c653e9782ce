//! Turns a caller's calls into the steps that are taken from the request for a call to the call's
//! end.
//!
//! A call is a list of steps, taken in turns of one step or two. On a map that threads share, each
//! turn takes the lock and frees it. A drive says which step is next, receives the answer, and
//! finally says how the call ended. It takes no lock, no memory and no step itself. An operation is
//! asked for, its position is sought, and a step acts there; if the position no longer fits, it is
//! sought again. A call that goes back takes back one change after the other. A helper initialises
//! a bucket after the bucket's ancestors.
//!
//! A contract sees a drive as a caller, a call and a phase. `turn_of` and `told_of` of
//! `specs/Drives.antt` define the turn of a phase and the phase after an answer. Proved:
//!
//! - `turn` and `told` follow these definitions;
//! - the entries that a drive has added to the history are a function of the drive (`made`);
//! - each answer adds the entries of the answered step to them;
//! - the entries of an ended drive are those of its end (`IsMade`);
//! - each bucket on a helper's path follows its parent (`laws::ways`).
//!
//! Calls take constant time and no memory. The search for a helper's next bucket takes up to 32
//! rounds.
#![tactic(auto)]

mod call;
mod drive;
mod end;
pub mod laws;
mod phase;
mod turn;
mod way;

pub use call::Call;
pub use drive::Drive;
pub use end::End;
pub use phase::{Phase, Work};
pub use turn::Turn;
pub use way::Way;
