//! Reads the pieces of an array, one after the other. One loop serves all kinds of pieces, and a
//! trait says what the pieces of a kind are. `plain_pieces` leaves each array that has a fault to
//! this loop. Pieces beyond the limit are counted, but not kept.

ghost use Rattle.std.specs.Prelude.{◌≡◌, ℕ, ◌+◌, ◌^◌, ◌∷◌, ◌<◌, ◌≤◌, List, length, Bool, true, Option, Some, None, Err, MatchResult, IfOk, IfSome, OnErr, OnOk, drop, option_and_then};
ghost use Rattle.json.specs.Token.{Token as SpecToken};
ghost use Rattle.json.specs.Lex.{after_value};
ghost use Rattle.json.specs.Reads.{token_of};
ghost use Rattle.serde_json.specs.Data.{Data};
ghost use Rattle.piece_files.specs.Elements.{elements_of};
ghost use Rattle.piece_files.specs.Pieces.{old_of, pieces_from};
ghost use Rattle.piece_files.specs.PlainBytes.{Begin, tokens_at};
ghost use Rattle.piece_files.specs.Tokens.{value_at, items_at, items_from, FindsBoth};
ghost use Rattle.piece_files.specs.declared.part.Part.{Part};
ghost use Rattle.piece_files.specs.declared.stop.Stop.TheVariants.{NotJson, NoMemory};

use crate::part::Part;
use crate::passing::pass_value;
use crate::stop::Stop;
use json::{Reader, Token};
use std::alloc::{AllocError, Global};

/// A kind of pieces. A file has an array of pieces of one kind. Each piece is itself an array, and
/// its elements say what it is. No value of a `PieceKind` is ever made: it is only used as a type
/// argument.
pub trait PieceKind {
    /// A piece of this kind.
    type Piece: Drop;

    /// The piece of version 2 that has these elements, if there is one.
    ghost of: { List Data → Option Self.Piece };

    /// Whether version 1 has this piece too.
    ghost is_old: { Self.Piece → Bool };

    /// The name that a fault uses for pieces of this kind.
    ghost part: { Part };

    /// How many pieces a file may have.
    ghost most: { ℕ };

    /// Whether reading a piece may take memory.
    ghost takes_memory: { Bool };

    /// The name that a fault uses for pieces of this kind. Constant time.
    fn part() -> Part
        ensures { result ≡ part };

    /// Whether version 1 has this piece too.
    ///
    /// # Cost
    ///
    /// The time depends on the kind. It is at most in proportion to the length of the piece.
    fn is_old(piece: &Self::Piece) -> bool
        ensures { result ≡ is_old piece.now };

    /// The greatest number of pieces in a file. No more are kept; further pieces are only counted.
    /// Constant time.
    fn most() -> usize
        ensures { result ≡ most };

    /// Reads the elements of a piece, after the bracket that opens their array, and returns the
    /// piece. Returns `None` if no piece of this kind has these elements in version 2. In both
    /// cases the reader is then just after the bracket that closes the array.
    ///
    /// # Errors
    ///
    /// `NotJson` if the tokens are not the rest of an array, if arrays and objects in it nest
    /// deeper than `depth`, or if a number is too large for a float. `NoMemory` if memory is
    /// refused, which can happen only if `takes_memory` is true for the kind. After an error, the
    /// reader may be anywhere in the text.
    ///
    /// # Cost
    ///
    /// Depends on the kind.
    fn read(
        alloc: Global,
        reader: &mut Reader<'_>,
        depth: usize,
    ) -> Result<Option<Self::Piece>, Stop>
        ensures ok { IfOk result (λ piece. (ds : List Data)
            × (items_at depth reader.old ≡ Some (items_from ds, reader.new))
            × (piece ≡ of ds)) }
        ensures err { result ≡ Err NotJson → items_at depth reader.old ≡ None }
        ensures memory { result ≡ Err NoMemory → takes_memory ≡ true }
        ensures shorter { OnOk result (length reader.new < length reader.old) };

    /// Reads the elements of a piece in plain form, and returns the piece. At the call, `at` is the
    /// place of the first element, after the bracket that opens the array. Afterwards, `at` is just
    /// after the bracket that closes the array. Returns `None` if no piece is there, or if the
    /// elements have no plain form. Then `at` may be anywhere, and `read` must read the elements
    /// again. A kind may always return `None`.
    ///
    /// # Errors
    ///
    /// `AllocError` if memory is refused, which can happen only if `takes_memory` is true for the
    /// kind.
    ///
    /// # Cost
    ///
    /// Depends on the kind.
    fn read_plain(
        alloc: Global,
        text: &str,
        at: &mut usize,
        depth: usize,
    ) -> Result<Option<Self::Piece>, AllocError>
        requires { at.old ≤ length text.now }
        ensures place { IfOk result (λ found. IfSome found (λ piece.
            (at.old < at.new) × (at.new ≤ length text.now))) }
        ensures piece { IfOk result (λ found. IfSome found (λ piece. (ds : List Data)
            × Begin depth (drop at.old text.now) ds (tokens_at after_value (drop at.new text.now))
            × (Some piece ≡ of ds))) }
        ensures memory { OnErr result (takes_memory ≡ true) };
}

/// The pieces at the front of an array, up to the first element that is no piece.
#[derive(Drop)]
pub struct Pieces<P> {
    /// The pieces in their order, but at most as many as a file may have.
    pub pieces: Vec<P>,
    /// How many pieces the array begins with, including those that are not kept.
    pub count: usize,
    /// Whether all elements of the array are pieces.
    pub are_all: bool,
    /// The index of the first piece that version 1 lacks, if there is one.
    pub first_new: Option<usize>,
}

/// Reads the piece that begins with `token`, which was already taken from the reader. Returns
/// `None` if the value is no piece.
fn piece_in<K: PieceKind>(
    alloc: Global,
    token: Token<'_>,
    reader: &mut Reader<'_>,
    depth: usize,
) -> Result<Option<K::Piece>, Stop>
    ensures ok { IfOk result (λ piece. (d : Data)
        × (value_at depth (token_of token.entry ∷ reader.old) ≡ Some (d, reader.new))
        × (piece ≡ option_and_then K.of (elements_of d))) }
    ensures err { result ≡ Err NotJson → value_at depth (token_of token.entry ∷ reader.old) ≡ None }
    ensures memory { result ≡ Err NoMemory → K.takes_memory ≡ true }
    ensures shorter { OnOk result (length reader.new ≤ length reader.old) }
{
    match token {
        Token::BeginArray => {
            if depth == 0 {
                return Err(Stop::NotJson);
            }
            K::read(alloc, reader, depth - 1)
        }
        Token::BeginObject
        | Token::EndObject
        | Token::EndArray
        | Token::Key(_)
        | Token::String(_)
        | Token::Number(_)
        | Token::Bool(_)
        | Token::Null
        | Token::Bad => {
            pass_value(token, reader, depth)?;
            Ok(None)
        }
    }
}

/// The count plus one, or `NoMemory` if that is 2^64. So many pieces never fit into memory.
fn next_count(count: usize) -> Result<usize, Stop>
    ensures { MatchResult result
        (λ next. (next ≡ count + 1) × (next < 2 ^ 64))
        (λ stop. stop ≡ NoMemory) }
{
    count.checked_add(1).ok_or(Stop::NoMemory)
}

/// Reads the pieces of an array, whose opening bracket was already taken from the reader. The
/// reader is then just after the bracket that closes the array.
///
/// # Errors
///
/// `NotJson` if the tokens are not the rest of an array, if arrays and objects in it nest deeper
/// than `depth`, or if a number is too large for a float. `NoMemory` if memory is refused. After an
/// error, the reader may be anywhere in the text.
///
/// # Cost
///
/// Time in proportion to the text that is read, if `K::read` and `K::is_old` take time in
/// proportion to what they read. Takes memory for the pieces that are kept, and what `K::read`
/// takes.
pub fn pieces_in<K: PieceKind>(
    alloc: Global,
    reader: &mut Reader<'_>,
    depth: usize,
) -> Result<Pieces<K::Piece>, Stop>
    ensures ok { IfOk result (λ found. (ds : List Data)
        × (items_at depth reader.old ≡ Some (items_from ds, reader.new))
        × FindsBoth K.part K.most found
        (pieces_from (old_of K.is_old K.of) K.part 0 ds) (pieces_from K.of K.part 0 ds)) }
    ensures range { IfOk result (λ found. found.count < 2 ^ 64) }
    ensures err { result ≡ Err NotJson → items_at depth reader.old ≡ None }
    ensures shorter { OnOk result (length reader.new < length reader.old) }
{
    let most = K::most();
    let mut pieces = Vec::new(alloc);
    let mut count = 0;
    let mut are_all = true;
    let mut first_new = None;
    'pieces: while !reader.take_end_array() {
        let token = reader.next().ok_or(Stop::NotJson)?;
        let read = piece_in::<K>(alloc, token, reader, depth)?;
        match read {
            Some(piece) => {
                if are_all {
                    first_new = first_new.or((!K::is_old(&piece)).then_some(count));
                    if count < most {
                        pieces.push(piece)?;
                    }
                    count = next_count(count)?;
                }
            }
            None => are_all = false,
        }
    }
    Ok(Pieces {
        pieces,
        count,
        are_all,
        first_new,
    })
}
