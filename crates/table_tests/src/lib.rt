//! Tests of the crates that make up the table. Each has one module here:
//! `split_key`, `node_list`, `list_steps`, `bucket_table`, `undo_log`, `map_ops`, and the two
//! maps of `stripe_shard`.
//!
//! The tests cover what no contract says: that each call succeeds while memory is free, the state
//! after a refused allocation, and the values in worked runs. Many library calls are made by
//! functions that have no contract, so the tests that call these functions have little to prove.
#![tactic(auto)]

#[cfg(test)]
mod bucket_table_tests;
#[cfg(test)]
mod draws;
#[cfg(test)]
mod list_steps_tests;
#[cfg(test)]
mod map_ops_tests;
#[cfg(test)]
mod node_list_tests;
#[cfg(test)]
mod probe_map_tests;
#[cfg(test)]
mod split_key_tests;
#[cfg(test)]
mod stripe_shard_tests;
#[cfg(test)]
mod undo_log_tests;
