//! A judge of recorded histories by the order of their commits.
//!
//! A history is serializable in this order (`IsSerializableByCommits`) if each transaction that
//! commits has the same replies as if it ran alone on the map that the earlier commits leave, and
//! all entries have the right shape. There is no rule of locks, and other transactions
//! may have read anything. So this judges stores whose readers share locks, and stores that
//! validate at the commit.
//!
//! No transaction is run again. The checker keeps a *footprint* of each caller's transaction, with
//! two values for each key that it asked for:
//!
//! - `need`, its first reply there: the value that the key must have before the transaction;
//! - `now`, the value that it sees there after its changes. Each later reply must be `now`.
//!
//! If one is not, no map gives the transaction its replies. Otherwise a map does exactly if it has
//! the value `need` at each key. At a Committed each `need` is compared with the committed map,
//! which then gets the values `now` (Kung and Robinson, "On Optimistic Methods for Concurrency
//! Control", 1981).
//!
//! Memory: the committed map, and the keys, savepoints and standing changes of open transactions.
//! Calls take constant time and no memory unless they say otherwise.
//!
//! Proved: `check`, `check_packed` and `Checker` return the `verdict`, which is legal exactly if
//! `IsSerializableByCommits` holds. A history that is legal by locks is so too (`serializable`).
#![tactic(auto)]

mod checker;
mod commits;
mod footprint;
mod footprints;
mod history;
mod laws;
mod state;

pub use checker::Checker;
pub use commits::Misread;
pub use footprint::{Cell, Footprint};
pub use footprints::Footprints;
pub use history::{check, check_packed};
pub use laws::serializable;
