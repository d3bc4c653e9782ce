//! The vocabulary of transactions on a map: operations, scripts, steps and their answers, refusals,
//! limits, the entries of a history, a caller's stance, the finite maps that operations act on, and
//! why a call of a transaction stopped.
//!
//! `txn_trace`, which uses this crate, defines what a history means. So a crate that only names
//! operations, entries or refusals needs none of the laws of histories.
//!
//! The functions of this crate compute what the crates that use it have in common: limits and
//! texts, the entry that a step adds to a history, packed actions, entries and steps, the room in a
//! history that an operation or a step needs, and a caller's stance. A call takes constant time and
//! no memory unless its comment says otherwise.
#![tactic(auto)]

mod action;
mod answer;
mod entry;
mod holder;
mod limits;
mod op;
mod packed_action;
mod packed_entry;
mod packed_step;
mod refusal;
mod script;
mod small_entry;
mod stance;
mod step;
mod stop;
mod swapped;

pub use action::Action;
pub use answer::{Answer, answer_text};
pub use entry::Entry;
pub use holder::Holder;
pub use limits::Limits;
pub use op::{Op, Reply};
pub use packed_action::PackedAction;
pub use packed_step::PackedStep;
pub use refusal::Refusal;
pub use script::{Script, Scripts};
pub use small_entry::{SmallEntry, Unpacked};
pub use stance::{Phase, Stance};
pub use step::{Step, entry_of};
pub use stop::Stop;
pub use swapped::Swapped;
