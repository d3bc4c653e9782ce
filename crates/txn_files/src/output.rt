//! Writes a whole text, or only a proper prefix of it if the writer fails. Programs write by this
//! function, so one proof says what a failed write leaves.
ghost use Rattle.std.specs.Prelude.{OnOk, OnErr};
ghost use Rattle.std.specs.Io.KnownBytes.{Appends};
ghost use Rattle.txn_files.specs.Output.{AppendsPart};

use std::io::Write;

/// A write failed, or took none of the bytes.
#[derive(Clone, Copy, Debug, PartialEq, Eq)]
pub struct Unwritten;

/// Writes the whole text.
///
/// # Errors
///
/// `Unwritten` if the writer fails or takes no bytes. Then the writer is not called again, and a
/// proper prefix of the text is written.
///
/// # Cost
///
/// One call of the writer for each part of the text that it takes. Takes no memory.
pub fn write_text<W: Write>(output: &mut W, text: &[u8]) -> Result<(), Unwritten>
    ensures ok { OnOk result (Appends (W.contents output.old) (W.contents output.new) text.now) }
    ensures err { OnErr result (AppendsPart (W.contents output.old)
        (W.contents output.new) text.now) }
{
    let mut done = 0;
    while done < text.len() {
        match output.write(&text[done..]) {
            Ok(0) => return Err(Unwritten),
            Ok(count) => done += count,
            Err(_) => return Err(Unwritten),
        }
    }
    Ok(())
}
