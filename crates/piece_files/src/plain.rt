//! Plain values: null, texts, and whole numbers below 2^64. Only plain values are kept as elements.
//! Any other value is skipped, and the array that contains it is then not plain. An element takes
//! no memory: an `ArrayVec` has room for a fixed number of elements, and a text stays in the file
//! or in the scratch memory of the reader.

ghost use Rattle.std.specs.Prelude.{◌≡◌, ◌∷◌, ◌<◌, ◌≤◌, List, length, Some, None, option_map, IfOk, OnOk, OnErr};
ghost use Rattle.json.specs.Reads.{token_of};
ghost use Rattle.serde_json.specs.Data.{Data};
ghost use Rattle.piece_files.specs.Elements.{whole_number};
ghost use Rattle.piece_files.specs.Plain.{data_of};
ghost use Rattle.piece_files.specs.Tokens.{value_at, items_at, items_from, IsPlain, AreElements};

use crate::numeral::number_in_text;
use crate::passing::pass_value;
use arrayvec::ArrayVec;
use json::{Invalid, Reader, Token};

/// A plain value: null, a text, or a whole number. A text is borrowed from where it was read.
#[derive(Clone, Copy, Debug, Drop, Default)]
pub enum Plain<'a> {
    /// Null.
    #[default]
    Null,
    /// A text.
    Text(&'a str),
    /// A whole number.
    Number(u64),
}

impl Plain<'_> {
    /// The number, or `None` if the value is no number.
    pub(crate) fn number(self) -> Option<u64>
        ensures { result ≡ whole_number (data_of self.entry) }
    {
        match self {
            Plain::Number(number) => Some(number),
            Plain::Null | Plain::Text(_) => None,
        }
    }
}

/// Reads the value that begins with `token`, which was already taken from the reader. Returns
/// `None` if the value is not plain.
#[inline(always)]
pub(crate) fn plain_value<'a>(
    token: Token<'a>,
    reader: &mut Reader<'_>,
    depth: usize,
) -> Result<Option<Plain<'a>>, Invalid>
    ensures ok { IfOk result (λ found. (d : Data)
        × (value_at depth (token_of token.entry ∷ reader.old) ≡ Some (d, reader.new))
        × IsPlain found d) }
    ensures err { OnErr result (value_at depth (token_of token.entry ∷ reader.old) ≡ None) }
    ensures shorter { OnOk result (length reader.new ≤ length reader.old) }
{
    match token {
        Token::Null => Ok(Some(Plain::Null)),
        Token::String(text) => Ok(Some(Plain::Text(text))),
        Token::Number(text) => match number_in_text(text) {
            Some(Some(number)) => Ok(Some(Plain::Number(number))),
            Some(None) => Ok(None),
            None => Err(Invalid),
        },
        Token::Bool(_)
        | Token::BeginArray
        | Token::BeginObject
        | Token::EndObject
        | Token::EndArray
        | Token::Key(_)
        | Token::Bad => {
            pass_value(token, reader, depth)?;
            Ok(None)
        }
    }
}

/// Reads the elements of an array into `elements`, in place of what is there. The array's opening
/// bracket was already taken from the reader. Returns `true` if there are at most `MOST` elements,
/// and each of them is null, a text, or a whole number below 2^64. Otherwise, returns `false`, and
/// `elements` has some of the elements. In both cases the reader is then just after the bracket
/// that closes the array.
///
/// # Errors
///
/// `Invalid` if the tokens are not the rest of an array, if arrays and objects in it nest deeper
/// than `depth`, or if a number is too large for a float. After an error, the reader may be
/// anywhere in the text.
///
/// # Cost
///
/// Time in proportion to the text that is read. Takes no memory, since a text stays where it was
/// read.
#[inline(always)]
pub fn plain_elements<'a, const MOST: usize>(
    reader: &mut Reader<'a>,
    depth: usize,
    elements: &mut ArrayVec<Plain<'a>, MOST>,
) -> Result<bool, Invalid>
    ensures ok { IfOk result (λ are_plain. (ds : List Data)
        × (items_at depth reader.old ≡ Some (items_from ds, reader.new))
        × AreElements MOST are_plain elements.new.items ds) }
    ensures err { OnErr result (items_at depth reader.old ≡ None) }
    ensures shorter { OnOk result (length reader.new < length reader.old) }
{
    elements.clear();
    let mut are_plain = true;
    'elements: while !reader.take_end_array() {
        let token = reader.next().ok_or(Invalid)?;
        let element = plain_value(token, reader, depth)?;
        match element {
            Some(value) => {
                if elements.len() < MOST {
                    elements.push(value);
                } else {
                    are_plain = false;
                }
            }
            None => are_plain = false,
        }
    }
    Ok(are_plain)
}
