//! Key words: atomic words that stand for the stripes of a shared map. Callers in many threads take
//! and give back stripes without waiting.
//!
//! A thread acts through a seat (`KeySeat`), which has a number. A stripe's word is 0 if the stripe
//! is free, and `n + 1` if seat `n` holds it. Each stripe has one right, which lies in the stripe's
//! slot while no seat holds the stripe. A take is one compare-exchange of the word from 0. If the
//! stripe was free, the take returns the right. Otherwise it returns the word, which names the
//! holder. A give puts the right back into the slot and stores 0.
//!
//! A rule holds between any two atomic steps of any threads. By it a stripe is held by at most one
//! seat (`held_once`), which is the seat that its word names, and its slot has the right exactly if
//! the word is 0. So only one seat at a time gets the right. A take names a seat only if that seat
//! has taken the stripe before. It is not proved that a take ever succeeds. Calls take constant
//! time and no memory unless they say otherwise.
//!
//! Only tested: eight threads take and give 64 words, 100,000 times each.
#![tactic(auto)]

mod law;
mod rights;
mod rule;
mod seat;
mod slots;
mod taken;
mod view;
mod words;

pub use key_locks::StripeRight;
pub use law::held_once;
pub use rights::Rights;
pub use seat::KeySeat;
pub use taken::{Taken, Tried};
pub use view::View;
pub use words::KeyWords;
