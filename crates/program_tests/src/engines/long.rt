//! Tests of histories whose text is longer than one of the pieces in which `mix` writes it. The
//! expected text is made by a rule. One script puts 1 at key 0 again and again. So the reply to each
//! put but the first is 1.

use boostmap_engine::{Fault, mix};
use std::alloc::{AllocError, Global};
use std::io;
use std::io::Write;
use std::process::Abort;
use std::test::Fail;

/// A number of puts whose history fills two pieces and a part of a third.
const MANY: u64 = 4000;

/// A writer that compares the bytes that it takes with a text. It takes at most `most` bytes in
/// each call. In the call `fails_at`, counted from 0, it takes none.
#[derive(Drop)]
struct Expecting<'a> {
    /// The part of the text that the writer has not taken yet.
    rest: &'a [u8],
    /// True if all bytes that the writer has taken were those of the text.
    is_right: bool,
    most: usize,
    calls: usize,
    fails_at: usize,
}

impl<'a> Expecting<'a> {
    fn new(text: &'a str, most: usize, fails_at: usize) -> Expecting<'a> {
        Expecting {
            rest: text.as_bytes(),
            is_right: true,
            most,
            calls: 0,
            fails_at,
        }
    }
}

impl Write for Expecting<'_> {
    fn write(&mut self, buf: &[u8]) -> io::Result<usize> {
        let call = self.calls;
        self.calls = call.saturating_add(1);
        if call == self.fails_at {
            return Ok(0);
        }
        let count = buf.len().min(self.most);
        let (taken, wanted) = (buf.get(..count), self.rest.get(..count));
        self.is_right = self.is_right && taken == wanted;
        self.rest = self.rest.get(count..).unwrap_or(&[]);
        Ok(count)
    }

    fn flush(&mut self) -> io::Result<()> {
        Ok(())
    }
}

/// The file with one script that makes `MANY` puts.
fn script_file(alloc: Global) -> Result<String, AllocError> {
    let mut text = String::new(alloc);
    text.push_str("{\"version\":1,\"workers\":1,\"stripes\":8,\"buckets\":8,\"tries\":0,")?;
    text.push_str("\"scripts\":[[[\"put\",0,1]")?;
    for _ in 1..MANY {
        text.push_str(",[\"put\",0,1]")?;
    }
    text.push_str("]]}")?;
    Ok(text)
}

/// The line that `mix` prints for the file that `script_file` makes.
fn history_line(alloc: Global) -> Result<String, AllocError> {
    let mut text = String::new(alloc);
    text.push_str("{\"entries\":[[\"began\",0,1],[\"asked\",0,\"put\",0,1],[\"did\",0,null]")?;
    for _ in 1..MANY {
        text.push_str(",[\"asked\",0,\"put\",0,1],[\"did\",0,1]")?;
    }
    text.push_str(",[\"committed\",0,1]],\"stripes\":8,\"version\":1}\n")?;
    Ok(text)
}

/// Runs `mix` on a file, with a writer that expects a text.
fn mixed<'a>(
    alloc: Global,
    file: &str,
    writer: Expecting<'a>,
) -> (Result<(), Fault>, Expecting<'a>) {
    let mut output = writer;
    let result = mix(alloc, 7, &mut file.as_bytes(), &mut output);
    (result, output)
}

/// Checks that the whole line is written if the writer takes at most `most` bytes at a time.
fn compare_whole(rt: &impl Abort, alloc: Global, file: &str, line: &str, most: usize) {
    let (result, output) = mixed(alloc, file, Expecting::new(line, most, usize::MAX));
    let is_whole = result.is_ok() && output.is_right && output.rest.is_empty();
    assert!(rt; is_whole, "{most}");
}

/// Checks that the writes before the failing one wrote the beginning of the line, and that no write
/// follows the failing one.
fn compare_failed(rt: &impl Abort, alloc: Global, file: &str, line: &str, fails_at: usize) {
    let (result, output) = mixed(alloc, file, Expecting::new(line, 10_000, fails_at));
    let is_told = matches!(result, Err(Fault::Write)) && output.is_right;
    assert!(rt;
        is_told && output.calls == fails_at.saturating_add(1),
        "{fails_at}"
    );
}

#[test]
fn long_lines_in_small_writes(rt: HostRuntime) -> Result<(), Fail> {
    let file = script_file(rt.alloc())?;
    let line = history_line(rt.alloc())?;
    for most in [1, 10_000, 65_375, usize::MAX] {
        compare_whole(&rt, rt.alloc(), &file, &line, most);
    }
    for fails_at in 0..line.len() / 10_000 {
        compare_failed(&rt, rt.alloc(), &file, &line, fails_at);
    }
    Ok(())
}
