//! Tests of the crates from files to the program: `files` tests `txn_files`, `pieces` tests
//! `piece_files`, `engines` and `mixes` test `boostmap_engine` and the engine of `run`, and
//! `commands` tests `command_line`, `unthreaded_program` and `boostmap_program`.
//!
//! Each call of a tested crate is in a small function without a contract, which keeps the proofs of
//! the tests short.
#![tactic(auto)]

#[cfg(test)]
mod commands;
#[cfg(test)]
mod devices;
#[cfg(test)]
mod engines;
#[cfg(test)]
mod files;
#[cfg(test)]
mod mixes;
#[cfg(test)]
mod pieces;
