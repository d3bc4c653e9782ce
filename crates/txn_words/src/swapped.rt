//! The result of a swap: whether the new value was put in place of the expected one. It is a type
//! of its own, so that a caller reads `Swapped(false)` and not `false`. It is not part of `Stop`,
//! since a swap that finds another value is no error: such a swap changes nothing, and the
//! transaction continues.

/// True if the new value was put. This is so if the key had the expected value, or if the key was
/// expected to be absent and was absent.
#[derive(Clone, Copy, Debug, PartialEq, Eq)]
pub struct Swapped(pub bool);
