//! What a transaction needs and leaves at a key.

/// What a transaction needs and leaves at a key that it asked for.
#[derive(Clone, Copy, Debug, PartialEq, Eq)]
pub(crate) struct Access {
    /// The transaction.
    pub(crate) txn: usize,
    /// The key.
    pub(crate) key: u64,
    /// The value that the key must have before the transaction.
    pub(crate) need: Option<u64>,
    /// The value that the transaction leaves.
    pub(crate) left: Option<u64>,
    /// The index of the access that writes the value that it needs, or `None` if the key is as it
    /// was at the beginning.
    pub(crate) source: Option<usize>,
}
