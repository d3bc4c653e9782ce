//! What a map keeps of its history.
ghost use Rattle.std.specs.Prelude.{◌≡◌};
ghost use Rattle.striped_map.specs.Rule.{most};

/// What a map keeps of its history. This is fixed when the map is opened (`Opening`). One word of
/// the map counts what is kept, modulo 2^64 (`measure` in `specs/Rule.antt`).
#[derive(Clone, Copy, Debug, Default, PartialEq, Eq)]
pub enum Keep {
    /// Nothing. Callers that use different stripes then write no common word.
    #[default]
    Nothing,
    /// The number of commits. A commit then returns its place among all commits.
    Commits,
    /// Each caller's own entries, each with its position in the history. When all callers are merged
    /// or dropped, the host hands the history out (`Host::history`).
    Entries,
}

impl Keep {
    /// How many numbers a map gives out that keeps this. The host has the number 0, and each caller
    /// has another.
    pub(crate) fn most(self) -> u64
        ensures { result ≡ most self }
    {
        match self {
            Keep::Nothing => 1 << 62,
            Keep::Commits => 1 << 62,
            Keep::Entries => 1 << 16,
        }
    }

    /// How many places the shelf of a map has that keeps this: one for each number that the map
    /// gives out, if it keeps its entries.
    pub(crate) fn places(self) -> usize {
        match self {
            Keep::Entries => 1 << 16,
            _ => 0,
        }
    }
}
