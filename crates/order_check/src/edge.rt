//! Why one transaction must come before another.

/// Why a transaction must come before another one.
#[derive(Clone, Copy, Debug, PartialEq, Eq)]
pub enum Kind {
    /// The other one reads what the first one writes.
    Read,
    /// The other one replaces what the first one reads.
    Replaced,
    /// The first one had committed when the other one began. Only where real time counts.
    Began,
}

/// A transaction that must come before another one, and why.
#[derive(Clone, Copy, Debug, PartialEq, Eq)]
pub struct Edge {
    /// The transaction that must come first.
    pub from: u64,
    /// Why it must come first.
    pub kind: Kind,
    /// The key at which it must come first, or 0 by real time.
    pub key: u64,
    /// The value of the key that it writes or reads, or `None` by real time.
    pub value: Option<u64>,
}
