//! A transactional map that callers in several threads share: one core under one lock.
//!
//! - A *token*, `Caller`, is one caller. `SharedMap::new` makes a `Pass` for each number, which makes
//!   the one token with it. A token keeps the entries that its calls have added (`seen`), and a side
//!   value that is taken back with its transaction.
//! - A *hold* is one turn of a call, one or two steps of the core, under one hold of the lock. Others
//!   may take steps between two holds, even of an abort.
//! - An operation first tries the *word* of its key's stripe, an atomic word outside the lock. If it
//!   was free, the token has the *right* to the stripe until its transaction has ended. If not, the
//!   operation is busy with the caller that the word names.
//! - Between holds a token knows of the core only its own entries. An answer that contradicts them
//!   ends this call and each later one with `OutOfStep`.
//! - `SharedMap::close` takes all tokens back and compares the history with them. If it returns `Ok`,
//!   the history is legal, and its entries are exactly those that the tokens have seen: a ledger
//!   (std's `sync::ledger`) counts them.
//!
//! No clause says that a call returns, or that two threads ran at once. Calls take constant time and
//! no memory unless they say otherwise.
//!
//! Only tested (`thread_tests`), since no contract sees through the lock: a hold is on the core
//! under the lock and takes at most one turn (`rows`, `releases`, `step_between`); a new map's core
//! is new, with its limits, and `close` returns it with its marked nodes (`cores`); `help`
//! initialises its key's bucket (`rows::help_grows`); an observer is called once a hold
//! (`releases::one_release_a_hold`); with enough memory no call fails (`rows::keys_of_64_bits`,
//! `tests/limits.sh`).
#![tactic(auto)]

mod booked;
mod caller;
mod calls;
mod claims;
mod close;
mod closed;
mod ends;
mod no_side;
mod pass;
mod receipt;
mod seen;
mod shared_map;
mod turns;
mod unclosed;

pub use booked::Booked;
pub use caller::Caller;
pub use closed::Closed;
pub use no_side::{NoJob, NoSide};
pub use pass::Pass;
pub use receipt::Receipt;
pub use shared_map::{OnRelease, SharedMap};
pub use txn_words::Stop;
pub use unclosed::Unclosed;
