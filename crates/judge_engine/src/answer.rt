//! The answer of a command, which decides the exit status of the program.
ghost use Rattle.std.specs.Prelude.{◌≡◌};
ghost use Rattle.judge_engine.specs.Answers.{answer_if, status_after};

/// The answer of a command.
#[derive(Clone, Copy, Debug, PartialEq, Eq)]
pub enum Answer {
    /// All is well: the history is legal or serializable, or each script that was given up has an
    /// abort.
    Yes,
    /// The opposite.
    No,
    /// Nobody knows: the history may be serializable or not.
    Undecided,
}

impl Answer {
    /// The exit status of the program: 0 for `Yes`, 1 for `No` and 5 for `Undecided`.
    ///
    /// # Cost
    ///
    /// Constant time; takes no memory.
    pub fn status(self) -> u8
        ensures { result ≡ status_after self }
    {
        match self {
            Answer::Yes => 0,
            Answer::No => 1,
            Answer::Undecided => 5,
        }
    }
}

impl From<bool> for Answer {
    ghost from_gives = { λ well answer. answer ≡ answer_if well };

    fn from(well: bool) -> Answer {
        if well { Answer::Yes } else { Answer::No }
    }
}
