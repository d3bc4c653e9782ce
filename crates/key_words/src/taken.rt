//! What takes return: `Taken` for a caller that takes a single stripe, and `Tried` for a caller
//! that keeps its rights in a list. After a success, `Taken` has the stripe's right, and `Tried`
//! has the position of the right. After a failure, both have the word that the take saw. That word
//! names the seat that held the stripe at the atomic step. The seat may have given the stripe back
//! since.
use key_locks::StripeRight;

/// The result of taking a single stripe.
#[derive(Debug, Drop)]
pub enum Taken {
    /// The stripe was free, and the seat holds it now. This is the stripe's right.
    Granted(StripeRight),
    /// The stripe was held. The field is the stripe's word: the number of the seat that held it,
    /// plus 1.
    Held(u64),
}

/// The result of a take by a caller that keeps its rights in a list.
#[derive(Clone, Copy, Debug, PartialEq, Eq)]
pub enum Tried {
    /// The seat holds the stripe. The field is the position of the stripe's right in the list.
    Mine(usize),
    /// Another seat held the stripe. The field is the stripe's word: that seat's number, plus 1.
    Another(u64),
}
