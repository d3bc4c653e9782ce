//! The result of a run of scripts: an outcome for each script, and the history. The outcomes are in
//! the order of the scripts, whichever worker ran them. Outcomes and history are returned as one
//! value, since an outcome is true only of this history: it names a transaction by its number in
//! the history.
use crate::outcome::Outcome;
use txn_trace::SmallEntry;

/// The result of a run.
#[derive(Debug, Drop)]
pub struct Ran {
    /// The outcome of each script, in the scripts' order.
    pub outcomes: Vec<Outcome>,
    /// The history of the run, packed. `txn_trace::Unpacked` iterates over its entries.
    pub trace: Vec<SmallEntry>,
}
