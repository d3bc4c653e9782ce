//! The two rules that say which caller a Busy entry may name. The rule of locks takes one of these
//! two rules as a parameter. So one definition of legal histories serves two kinds of maps: those
//! that record an entry at the moment when they test the stripe, and those that record the entry
//! later.

/// The rule that says which caller a Busy entry may name as the holder of the stripe. Under both
/// rules the holder is not the entry's own caller.
#[derive(Clone, Copy, Debug, PartialEq, Eq)]
pub enum Holder {
    /// The holder is a caller whose open transaction has asked for a key of the stripe. Use this
    /// rule if the stripe is tested and the entry recorded at the same moment.
    Now,
    /// The holder is a caller that has begun a transaction before, whether or not that transaction
    /// has ended. Use this rule if the stripe is tested first and the entry recorded later, since
    /// the holder's transaction may end in between.
    Begun,
}
