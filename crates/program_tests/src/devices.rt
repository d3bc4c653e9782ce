//! Parts that the tests of the engines and those of the commands share: texts with gaps, readers
//! and writers that fail at a given call, and a system in memory. A reader or a writer takes no
//! memory. So a test that is refused memory can still compare all that was written.

use program_system::System;
use std::alloc::{AllocError, Global};
use std::io;
use std::io::{ErrorKind, Read, Write};
use std::process::Abort;
use std::test::Fail;

/// Returns the frame, in which first each gap `#` is replaced by the piece, and then each gap `@`
/// by the filling.
pub fn filled(alloc: Global, frame: &str, piece: &str, filling: &str) -> Result<String, Fail> {
    let text = frame.replace(alloc, "#", piece)?;
    Ok(text.replace(alloc, "@", filling)?)
}

/// A reader that gives one byte for each call, and fails at the call `fails_at`, counted from 0.
#[derive(Clone, Copy)]
pub struct Trickle<'a> {
    rest: &'a [u8],
    /// The number of calls so far.
    pub calls: usize,
    fails_at: usize,
}

impl<'a> Trickle<'a> {
    /// A reader of these bytes.
    pub fn new(rest: &'a [u8], fails_at: usize) -> Trickle<'a> {
        Trickle {
            rest,
            calls: 0,
            fails_at,
        }
    }
}

impl Read for Trickle<'_> {
    fn read(&mut self, buf: &mut [u8]) -> io::Result<usize> {
        let call = self.calls;
        self.calls = call.saturating_add(1);
        if call == self.fails_at {
            return Err(ErrorKind::Interrupted.into());
        }
        let Some((first, rest)) = self.rest.split_first() else {
            return Ok(0);
        };
        if buf.is_empty() {
            return Ok(0);
        }
        buf[0] = *first;
        self.rest = rest;
        Ok(1)
    }
}

/// A reader that fills the whole buffer at each call, and never ends.
#[derive(Clone, Copy)]
pub struct Endless {
    /// The number of bytes given so far.
    pub given: usize,
}

impl Read for Endless {
    fn read(&mut self, buf: &mut [u8]) -> io::Result<usize> {
        self.given = self.given.saturating_add(buf.len());
        Ok(buf.len())
    }
}

/// How many bytes a writer keeps at most.
const PAGE: usize = 8192;

/// A writer that takes one byte for each call. At the call `fails_at`, counted from 0, it fails or
/// takes nothing. It needs no memory.
#[derive(Clone, Copy)]
pub struct Narrow {
    page: [u8; PAGE],
    len: usize,
    /// The number of calls so far.
    pub calls: usize,
    fails_at: usize,
    /// The error that the call number `fails_at` returns. If it is `None`, this call succeeds but
    /// takes nothing.
    failure: Option<ErrorKind>,
}

impl Narrow {
    /// A writer that has taken nothing.
    pub fn new(fails_at: usize, failure: Option<ErrorKind>) -> Narrow {
        Narrow {
            page: [0; PAGE],
            len: 0,
            calls: 0,
            fails_at,
            failure,
        }
    }

    /// A writer that has taken nothing, and does not fail before its page is full.
    pub fn whole() -> Narrow {
        Narrow::new(usize::MAX, None)
    }

    /// The bytes that the writer has taken.
    pub fn text(&self) -> &str {
        let taken = &self.page[..self.len.min(PAGE)];
        std::str::from_utf8(taken).unwrap_or("no text")
    }
}

impl Write for Narrow {
    fn write(&mut self, buf: &[u8]) -> io::Result<usize> {
        let call = self.calls;
        self.calls = call.saturating_add(1);
        if call == self.fails_at {
            return self.failure.map_or(Ok(0), |kind| Err(kind.into()));
        }
        let (Some(first), Some(place)) = (buf.first(), self.page.get_mut(self.len)) else {
            return Ok(0);
        };
        *place = *first;
        self.len += 1;
        Ok(1)
    }

    fn flush(&mut self) -> io::Result<()> {
        Ok(())
    }
}

/// How a command ended.
#[derive(Clone, Copy)]
pub struct Ended {
    /// The bytes on standard output.
    pub output: Narrow,
    /// The bytes on standard error.
    pub errors: Narrow,
    pub status: u8,
    /// True if standard error took the whole message.
    pub is_told: bool,
}

/// Compares standard output, standard error and the status with `wanted`. Checks that standard
/// error took the whole message.
pub fn compare_ended(rt: &impl Abort, ended: &Ended, wanted: (&str, &str, u8), row: &str) {
    let (output, errors, status) = wanted;
    assert_eq!(rt; ended.output.text(), output, "{row}");
    assert!(rt; ended.errors.text() == errors, "{row}");
    assert!(rt; ended.status == status && ended.is_told, "{row}");
}

/// A system in memory, with a command line and with files. Any other file is missing.
#[derive(Clone, Copy)]
pub struct Desk<'a> {
    /// The command line, with blanks between its words.
    pub words: &'a str,
    /// The files: names and bytes.
    pub files: &'a [(&'a str, &'a str)],
    /// If this is set, reading the words fails with this error.
    pub words_fail: Option<ErrorKind>,
    /// If this is set, opening a file fails with this error.
    pub open_fails: Option<ErrorKind>,
}

impl<'a> Desk<'a> {
    /// A system with these words and files, in which nothing fails.
    pub fn new(words: &'a str, files: &'a [(&'a str, &'a str)]) -> Desk<'a> {
        Desk {
            words,
            files,
            words_fail: None,
            open_fails: None,
        }
    }
}

/// Splits the text at its blanks, and adds each word to the list.
fn push_words(alloc: Global, words: &mut Vec<String>, text: &str) -> Result<(), AllocError> {
    for word in text.split(' ') {
        words.push(word.to_string(alloc)?)?;
    }
    Ok(())
}

impl<'a> System for Desk<'a> {
    type Input = &'a [u8];

    fn words(&self, alloc: Global) -> io::Result<Vec<String>> {
        if let Some(kind) = self.words_fail {
            return Err(kind.into());
        }
        let mut words = Vec::new(alloc);
        push_words(alloc, &mut words, self.words)?;
        Ok(words)
    }

    fn open(&self, name: &str) -> io::Result<&'a [u8]> {
        if let Some(kind) = self.open_fails {
            return Err(kind.into());
        }
        for (known, text) in self.files {
            if *known == name {
                return Ok(text.as_bytes());
            }
        }
        Err(ErrorKind::NotFound.into())
    }
}
