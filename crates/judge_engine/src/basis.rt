//! The choice of rules for `watch`. A history file states its stripes and its version. The lines
//! that `watch` reads state neither, so the command line chooses. Each function that takes a
//! `Basis` requires that `Locks` has at least one stripe (`HasStripes`).

use txn_trace::Holder;

/// The rules by which a history is judged.
#[derive(Clone, Copy, Debug, PartialEq, Eq)]
pub enum Basis {
    /// By exclusive locks: a history is legal if `IsLegal` of `txn_trace` holds of it.
    Locks {
        /// The number of stripes among which the keys are divided.
        stripes: u64,
        /// Which caller a Busy entry may name.
        holder: Holder,
    },
    /// By the order of commits: a history is legal if `IsSerializableByCommits` of `serial_check`
    /// holds of it.
    Commits,
}
