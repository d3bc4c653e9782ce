//! Samples to copy: each module calls a library of this repository, and proves what comes of it.
//!
//! In `bank` and `accounts` a key is an account, and its value is the account's balance.
//!
//! | Module | Calls | Proved |
//! |---|---|---|
//! | `bank` | `owned_map` | a transfer between two accounts, or nothing, of one caller |
//! | `accounts` | `striped_map` | the same, whatever other callers do in their threads |
//! | `visits` | `striped_map`, `Threads` | what visitors in threads got, and the history of it |
//! | `audit` | `history_check` | whether a history is legal |
#![tactic(auto)]

pub mod accounts;
pub mod audit;
pub mod bank;
pub mod visits;
