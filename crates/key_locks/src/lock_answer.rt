//! The answer of a lock: granted, or the caller that holds the stripe. It is not a `bool`, since
//! the history names that holder in its entry `Busy`. Neither answer makes the caller wait. A held
//! stripe is granted to its holder again. Any other caller is refused at once, and nothing changes.
/// The answer to a caller that asks for a stripe.
#[derive(Clone, Copy, Debug, PartialEq, Eq)]
pub enum LockAnswer {
    /// The caller holds the stripe: it took the stripe now, or held it before.
    Granted,
    /// Another caller, with this number, holds the stripe.
    Busy(usize),
}
