//! Tests of `txn_words` (the vocabulary of transactions), `txn_drive` (drives), `script_worker`
//! (workers, and what became of scripts), `history_check`, `serial_check` and `order_check` (the
//! judges of histories), `boost_core` (the core) and `owned_map` (transactions as values).
//!
//! Each call of a library is made in one small function without a contract. A test that uses these
//! functions has only its own safety to prove.
#![tactic(auto)]

#[cfg(test)]
mod cores;
#[cfg(test)]
mod devices;
#[cfg(test)]
mod drives;
#[cfg(test)]
mod histories;
#[cfg(test)]
mod outcomes;
#[cfg(test)]
mod owned;
#[cfg(test)]
mod texts;
#[cfg(test)]
mod traces;
#[cfg(test)]
mod workers;
