//! Keys have a type of their own, so a key is not mistaken for a position, a bucket or a value.
//! Half keys are the keys below 2^63. A map whose limits come from a file of version 1 takes only
//! half keys. No two half keys share a split key.
ghost use Rattle.std.specs.Prelude.{◌≡◌, ℕ, ◌<◌, ◌≤◌, ◌^◌, MatchResult};
ghost use Rattle.split_key.specs.Text.{bad_key_text};

use std::fmt;
use std::fmt::Display;
use std::marker::Model;

/// The bound of half keys: each half key is below this number.
pub(crate) const HALF: u64 = 1 << 63;

/// A key of the table: any number of 64 bits. A contract sees it as that number.
#[derive(Clone, Copy, Debug, PartialEq, Eq)]
pub struct Key {
    number: u64,
}

impl Model for Key {
    ghost Value = { ℕ };

    ghost view = { λ key. key.number };

    ghost invariant = { λ key. key.number < 2 ^ 64 };

    ghost inverse = { λ number. record { number = number } };
}

/// The error for a number that is not a half key, since it is 2^63 or more. The error is printed as
/// `a key is a number below 2^63`.
#[derive(Clone, Copy, Debug, PartialEq, Eq)]
pub struct BadKey;

impl Display for BadKey {
    ghost use Rattle.std.specs.Prelude.{Some};

    ghost output = { λ _. Some bad_key_text };

    fn fmt<W: fmt::Write>(&self, f: &mut fmt::Formatter<W>) -> fmt::Result {
        f.write_str("a key is a number below 2^63")
    }
}

impl std::error::Error for BadKey {}

impl Key {
    /// The key with this number.
    pub fn new(number: u64) -> Key
        ensures { result ≡ number }
    {
        Key { number }
    }

    /// The key with this number, if it is a half key.
    ///
    /// # Errors
    ///
    /// `BadKey` if the number is 2^63 or more.
    pub fn half(number: u64) -> Result<Key, BadKey>
        ensures { MatchResult result
            (λ key. (key ≡ number) × (number < 2 ^ 63))
            (λ _. 2 ^ 63 ≤ number) }
    {
        if number < HALF {
            Ok(Key { number })
        } else {
            Err(BadKey)
        }
    }

    /// The key's number.
    pub fn number(self) -> u64
        ensures { result ≡ self }
    {
        self.number
    }
}
