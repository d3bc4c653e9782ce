//! Skips values. They are tested to be JSON, and nothing of them is kept. The kind of file does not
//! matter, so the same loops serve all kinds. The functions call each other as deeply as the value
//! nests, and `depth` bounds how deeply it may nest.

ghost use Rattle.std.specs.Prelude.{◌≡◌, ◌∷◌, ◌<◌, ◌≤◌, length, Some, None, OnOk, OnErr};
ghost use Rattle.json.specs.Reads.{token_of};
ghost use Rattle.serde_json.specs.Data.{Data, Items, Members};
ghost use Rattle.piece_files.specs.Tokens.{value_at, items_at, members_at};

use crate::numeral::number_in_text;
use json::{Invalid, Reader, Token};

/// Skips the value that begins with `token`, which was already taken from the reader. The reader is
/// then just after the value.
///
/// # Errors
///
/// `Invalid` if the token and the text after it are no value of JSON, if arrays and objects in it
/// nest deeper than `depth`, or if a number is too large for a float. After an error, the reader
/// may be anywhere in the text.
///
/// # Cost
///
/// Time in proportion to the text that is skipped; takes no memory.
#[cycle(pass)]
pub fn pass_value(token: Token<'_>, reader: &mut Reader<'_>, depth: usize) -> Result<(), Invalid>
    ensures ok { OnOk result ((d : Data)
        × (value_at depth (token_of token.entry ∷ reader.old) ≡ Some (d, reader.new))) }
    ensures err { OnErr result (value_at depth (token_of token.entry ∷ reader.old) ≡ None) }
    ensures shorter { OnOk result (length reader.new ≤ length reader.old) }
{
    match token {
        Token::String(_) | Token::Bool(_) | Token::Null => Ok(()),
        Token::Number(text) => match number_in_text(text) {
            Some(_) => Ok(()),
            None => Err(Invalid),
        },
        Token::EndObject | Token::EndArray | Token::Key(_) | Token::Bad => Err(Invalid),
        Token::BeginArray => {
            if depth == 0 {
                return Err(Invalid);
            }
            pass_items(reader, depth - 1)
        }
        Token::BeginObject => {
            if depth == 0 {
                return Err(Invalid);
            }
            pass_members(reader, depth - 1)
        }
    }
}

/// Skips the remaining elements of an array, and the bracket that closes it.
#[cycle(pass)]
fn pass_items(reader: &mut Reader<'_>, depth: usize) -> Result<(), Invalid>
    ensures ok { OnOk result ((ds : Items) × (items_at depth reader.old ≡ Some (ds, reader.new))) }
    ensures err { OnErr result (items_at depth reader.old ≡ None) }
    ensures shorter { OnOk result (length reader.new < length reader.old) }
{
    'items: while !reader.take_end_array() {
        let token = reader.next().ok_or(Invalid)?;
        pass_value(token, reader, depth)?;
    }
    Ok(())
}

/// Skips the remaining members of an object, and the brace that closes it.
#[cycle(pass)]
fn pass_members(reader: &mut Reader<'_>, depth: usize) -> Result<(), Invalid>
    ensures ok { OnOk result ((ms : Members)
        × (members_at depth reader.old ≡ Some (ms, reader.new))) }
    ensures err { OnErr result (members_at depth reader.old ≡ None) }
    ensures shorter { OnOk result (length reader.new < length reader.old) }
{
    'members: while let Some(_) = reader.next_key()? {
        let token = reader.next().ok_or(Invalid)?;
        pass_value(token, reader, depth)?;
    }
    Ok(())
}
