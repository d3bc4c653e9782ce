//! How a checker judges.
ghost use Rattle.std.specs.Prelude.{◌≡◌};

/// How a checker judges.
#[derive(Clone, Copy, Debug, PartialEq, Eq)]
pub struct Options {
    /// Whether the history must be strictly serializable.
    pub real_time: bool,
    /// How often a search for an order may go back to a choice and take the next one.
    pub most_branches: u64,
}

impl Options {
    /// With or without real time, and with 10,000 branches.
    pub fn new(real_time: bool) -> Options
        ensures { result ≡ record { real_time = real_time; most_branches = 10000 } }
    {
        Options {
            real_time,
            most_branches: 10_000,
        }
    }
}
