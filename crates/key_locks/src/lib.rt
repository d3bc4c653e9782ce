//! Key locks: the abstract locks of boosted transactions, one for each group of keys (Herlihy and
//! Koskinen, "Transactional Boosting", 2008).
//!
//! Keys are distributed over stripes. A transaction takes the stripe of each key that it works on,
//! and keeps it until it ends, since operations on one key may not commute. A stripe has at most
//! one holder, a caller whose number is below 64. If another caller asks for it, the lock call
//! returns the holder at once: a caller never waits.
//!
//! The model is the list of the stripes' holders. Each caller's stripes are chained through the
//! stripes themselves, from the newest to the oldest:
//!
//! ```text
//!  newest   caller 0: 6      caller 1: 2
//!
//!  stripe    0     1     2     3     4     5     6     7
//!  holder    -     0     1     -     0     -     0     -
//!  older     -     -     -     -     1     -     4     -       caller 0 holds 6, then 4, then 1
//! ```
//!
//! So a lock takes constant time, and a release time in proportion to the caller's stripes. All
//! memory is taken when the stripes are made. Calls take constant time and no memory unless they
//! say otherwise.
//!
//! `StripeRight` is the right to a stripe as a value, for stripes that are not in a `KeyLocks`;
//! `StripeRight::all` makes one for each stripe.
//!
//! Proved: a lock is granted exactly if no other caller holds the stripe; otherwise the result
//! names that holder. Each contract says which caller holds each stripe afterwards.
//!
//! Only tested: with enough memory, no call returns "no memory".
#![tactic(auto)]

mod key_locks;
mod lock_answer;
mod packed;
mod stripe_right;

pub use key_locks::{CALLERS, KeyLocks};
pub use lock_answer::LockAnswer;
pub use stripe_right::StripeRight;
