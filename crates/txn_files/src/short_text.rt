//! A short text on the stack, which is written from its end to its start: each `put` writes in
//! front of the existing text. The last digit of a number is computed first, so no digit has to be
//! moved. The `put` functions do not test for room, since their contracts require it.
ghost use Rattle.std.specs.Prelude.{◌≡◌, ◌+◌, ◌≤◌, [], ◌++◌, length, decimal};

use itoa::write_digits;
use std::marker::Model;
use std::str::from_utf8_unchecked;

/// A text of at most 160 bytes. In contracts its value is the list of its bytes.
#[derive(Drop)]
pub(crate) struct ShortText {
    bytes: [u8; 160],
    start: usize,
}

impl Model for ShortText {
    ghost use Rattle.std.specs.Prelude.{ℕ, List, ◌≤◌, drop};
    ghost use Rattle.std.specs.Str.{IsUtf8};

    ghost Value = { List ℕ };

    ghost view = { λ s. drop s.start s.bytes };

    ghost invariant = { λ s. (s.start ≤ 160) × ∥ IsUtf8 (drop s.start s.bytes) ∥₁ };
}

impl ShortText {
    /// An empty text.
    pub(crate) fn new() -> ShortText
        ensures { result ≡ [] }
    {
        ShortText {
            bytes: [0; 160],
            start: 160,
        }
    }

    /// Makes the text empty.
    #[inline(always)]
    pub(crate) fn clear(&mut self)
        ensures { self.new ≡ [] }
    {
        self.start = 160;
    }

    /// Puts a word in front of the text.
    #[inline(always)]
    pub(crate) fn put(&mut self, word: &str)
        requires { length word.now + length self.old ≤ 160 }
        ensures { self.new ≡ word.now ++ self.old }
    {
        let end = self.start;
        let start = end - word.len();
        self.bytes[start..end].copy_from_slice(word.as_bytes());
        self.start = start;
    }

    /// Puts the decimal digits of a number in front of the text. There are at most twenty digits.
    #[inline(always)]
    pub(crate) fn put_number(&mut self, number: u64)
        requires { 20 + length self.old ≤ 160 }
        ensures digits { self.new ≡ decimal number ++ self.old }
        ensures few { length self.new ≤ 20 + length self.old }
    {
        self.start = write_digits(number, &mut self.bytes, self.start);
    }

    /// The text.
    #[inline(always)]
    pub(crate) fn text(&self) -> &str
        ensures { result.now ≡ self.now }
    {
        unsafe { from_utf8_unchecked(&self.bytes[self.start..]) }
    }
}
