//! The result of `close`: the core and the callers, in one value, so that neither is dropped by
//! mistake. The fields are public, so code can also make a `Closed` from other parts. Only the
//! contract of `close` promises that the history is legal and has exactly the callers' entries.
use crate::caller::Caller;
use boost_core::Core;
use std::sync::ledger::Ledger;
use undo_log::Side;

/// The parts of a map that was closed.
#[derive(Drop)]
pub struct Closed<L: Ledger, S: Side> {
    /// The core. Each caller's own entries in its history are those that the caller saw.
    pub core: Core,
    /// The callers, as they were passed in.
    pub callers: Vec<Caller<L, S>>,
}
