//! How a run of a program ended.

/// How a run of a program ended.
#[derive(Clone, Copy, Debug, PartialEq, Eq)]
pub struct Ending {
    /// The exit status.
    pub status: u8,
    /// Whether standard error took the whole message. Also true if there is no message.
    pub is_told: bool,
}
