//! The view of a seat, which the rule of the words compares with the words. It is a type of its
//! own, because only the rule needs it and no program does. An atomic step never changes a view's
//! number. Its count and its notes only grow, and its list of stripes changes when the seat takes
//! or gives a stripe.
use std::collections::LinkedList;

/// A seat's view. It exists only in proofs, and no value of it is made.
pub struct View {
    /// The seat's number.
    pub number: u64,
    /// How many seats have been made, if this is the view of seat 0.
    pub made: u64,
    /// The stripes that the seat holds, the newest first.
    pub held: LinkedList<u64>,
    /// The words that the seat's takes saw, each with its stripe; the newest last.
    pub notes: LinkedList<(u64, u64)>,
}
