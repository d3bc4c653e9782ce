//! The verdict on a history and the rule that an entry breaks, with the texts that `check` prints.
//! The judge by locks and the judge by the order of commits both return a `Verdict`, so this module
//! uses neither judge. Proved: each text is as `specs/Verdicts.antt` defines it.
ghost use Rattle.std.specs.Prelude.{◌≡◌, IfOk, string_bytes};
ghost use Rattle.history_check.specs.Verdicts.{number_of, says_legal, verdict_line};

use std::alloc::{AllocError, Global};
use std::error::Error;
use std::fmt;

/// A rule that an entry of a history may break. It is printed with its number, such as `rule 1`.
#[derive(Clone, Copy, Debug, PartialEq, Eq)]
pub enum Rule {
    /// Each open transaction has the same replies as if it ran alone on the map that results from
    /// the committed transactions. This includes the replies of operations that it has taken back.
    /// The judge by the order of commits applies this rule only to a transaction that commits.
    Replies = 1,
    /// A stripe of keys belongs to at most one open transaction at a time. An Asked entry finds no
    /// other holder. A Busy entry names another caller, which holds the stripe or has begun a
    /// transaction. `Holder` says which of the two is required.
    Locks = 2,
    /// Each caller's entries have the right shape (`row` of `txn_words`), and transactions and
    /// commits are numbered from 1.
    Shape = 3,
}

impl Rule {
    /// The rule's number, from 1 to 3.
    ///
    /// # Cost
    ///
    /// Constant time; takes no memory.
    pub fn number(self) -> u8
        ensures { result ≡ number_of self }
    {
        self as u8
    }
}

impl fmt::Display for Rule {
    ghost use Rattle.std.specs.Prelude.{Some};
    ghost use Rattle.history_check.specs.Verdicts.{rule_words};

    ghost output = { λ rule. Some (rule_words rule) };

    fn fmt<W: fmt::Write>(&self, f: &mut fmt::Formatter<W>) -> fmt::Result {
        write!(f, "rule {}", self.number())
    }
}

impl Error for Rule {}

/// The judgement of a history. It is printed as `legal 2 commits 0 open`, or as `illegal entry 12
/// rule 1`.
#[derive(Clone, Copy, Debug, PartialEq, Eq)]
pub enum Verdict {
    /// No entry breaks a rule.
    Legal {
        /// How many transactions are committed.
        commits: u64,
        /// How many callers are in a transaction at the end.
        running: u64,
    },
    /// An entry breaks a rule.
    Illegal {
        /// The index, from 0, of the first entry that breaks a rule.
        entry: u64,
        /// The first rule that the entry breaks, in the order shape, replies, locks.
        rule: Rule,
    },
}

impl Verdict {
    /// Whether the verdict says that the history is legal.
    ///
    /// # Cost
    ///
    /// Constant time; takes no memory.
    pub fn is_legal(self) -> bool
        ensures { result ≡ says_legal self }
    {
        matches!(self, Verdict::Legal { .. })
    }

    /// The line that gives the verdict: its text, and a line feed.
    ///
    /// # Errors
    ///
    /// `AllocError` if memory is refused.
    ///
    /// # Cost
    ///
    /// Time and memory in proportion to the line, which has at most 61 bytes.
    pub fn line(self, alloc: Global) -> Result<String, AllocError>
        ensures { IfOk result (λ line. string_bytes line ≡ verdict_line self) }
    {
        let mut line = String::new(alloc);
        writeln!(line, "{self}")?;
        Ok(line)
    }
}

impl fmt::Display for Verdict {
    ghost use Rattle.std.specs.Prelude.{Some};
    ghost use Rattle.history_check.specs.Verdicts.{verdict_words};

    ghost output = { λ verdict. Some (verdict_words verdict) };

    fn fmt<W: fmt::Write>(&self, f: &mut fmt::Formatter<W>) -> fmt::Result {
        match *self {
            Verdict::Legal { commits, running } => {
                write!(f, "legal {commits} commits {running} open")
            }
            Verdict::Illegal { entry, rule } => write!(f, "illegal entry {entry} {rule}"),
        }
    }
}

impl Error for Verdict {}
