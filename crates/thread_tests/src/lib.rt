//! Tests of the values that callers in threads share: the map under its lock, the scripts that
//! threads run on the map, and the locks and words of the map's stripes.
//!
//! Small functions without a contract make the calls of the libraries, so that a test has only its
//! own safety to prove.
#![tactic(auto)]

#[cfg(test)]
mod devices;
#[cfg(test)]
mod gate_tests;
#[cfg(test)]
mod lock_tests;
#[cfg(test)]
mod map_tests;
#[cfg(test)]
mod run_tests;
#[cfg(test)]
mod word_tests;
