//! Transactions on the striped map that wait between their tries. `Caller::transact` of
//! `striped_map` yields the thread between two tries, which needs no handle. With the handle
//! `Wait`, `transact` of this crate yields at first and then sleeps, each time twice as long, less a
//! drawn part: a thread that only yields takes the processor from the thread that holds the stripe.
//! `Retry` says how often a transaction is begun again, and how long a sleep may be.
//!
//! Proved: each try before the last one was a transaction that was busy and was taken back, the last
//! one committed or failed, and `Busy` is returned only if all tries are used up. Nothing is proved
//! of the time. Tested: two callers do not sleep alike.
#![tactic(auto)]

mod attempts;
mod retry;

pub use attempts::transact;
pub use retry::Retry;
