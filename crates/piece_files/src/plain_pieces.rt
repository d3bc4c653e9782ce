//! Reads pieces in plain form, one after the other. One loop serves all kinds of pieces. This
//! reader gives up if there is no piece, if an element is no piece in plain form, or if there are
//! more pieces than the kind keeps. Then the reader of JSON decides.
ghost use Rattle.std.specs.Prelude.{◌≡◌, ◌^◌, ◌<◌, ◌≤◌, List, length, drop, Some, IfOk, IfSome, option_and_then};
ghost use Rattle.json.specs.Lex.{after_value};
ghost use Rattle.serde_json.specs.Data.{Data};
ghost use Rattle.piece_files.specs.Elements.{elements_of};
ghost use Rattle.piece_files.specs.Pieces.{old_of, pieces_from};
ghost use Rattle.piece_files.specs.PlainBytes.{Begin, IsValue, tokens_at};
ghost use Rattle.piece_files.specs.Tokens.{FindsBoth};

use crate::piece::{PieceKind, Pieces};
use crate::plain_bytes::{after_bracket, after_comma, after_open};
use std::alloc::{AllocError, Global};

/// The number of pieces for which room is made before the first piece is read. Most arrays have no
/// more pieces than this. Making more room several times costs more than reading a few pieces.
const FIRST_ROOM: usize = 16;

/// Reads the piece at the place `at`, which moves to just after the piece. Returns `None` if no
/// piece in plain form is there.
#[inline(always)]
fn piece_at<K: PieceKind>(
    alloc: Global,
    text: &str,
    at: &mut usize,
    depth: usize,
) -> Result<Option<K::Piece>, AllocError>
    requires { at.old ≤ length text.now }
    ensures place { IfOk result (λ found. IfSome found (λ piece.
        (at.old < at.new) × (at.new ≤ length text.now))) }
    ensures piece { IfOk result (λ found. IfSome found (λ piece. (d : Data)
        × IsValue depth (drop at.old text.now) d (drop at.new text.now)
        × (Some piece ≡ option_and_then K.of (elements_of d)))) }
{
    if depth == 0 {
        return Ok(None);
    }
    let Some(start) = after_open(text.as_bytes(), *at) else {
        return Ok(None);
    };
    *at = start;
    K::read_plain(alloc, text, at, depth - 1)
}

/// Reads the pieces of an array, whose first is at the place `at`. `at` moves to just after the
/// array. Returns `None` if there is no piece, if there are more than the kind keeps, if an element
/// is no piece, or if the array has no plain form. `at` may then be anywhere.
///
/// # Errors
///
/// `AllocError` if memory is refused.
///
/// # Cost
///
/// Time in proportion to the text that is read, if `K::read_plain` and `K::is_old` take time in
/// proportion to what they read. Takes memory for the pieces, or for 16 pieces if there are fewer,
/// and what `K::read_plain` takes.
pub fn pieces_at<K: PieceKind>(
    alloc: Global,
    text: &str,
    at: &mut usize,
    depth: usize,
) -> Result<Option<Pieces<K::Piece>>, AllocError>
    requires { at.old ≤ length text.now }
    ensures place { IfOk result (λ found. IfSome found (λ pieces.
        (at.old < at.new) × (at.new ≤ length text.now))) }
    ensures pieces { IfOk result (λ found. IfSome found (λ pieces. (ds : List Data)
        × Begin depth (drop at.old text.now) ds (tokens_at after_value (drop at.new text.now))
        × FindsBoth K.part K.most pieces
        (pieces_from (old_of K.is_old K.of) K.part 0 ds) (pieces_from K.of K.part 0 ds))) }
    ensures range { IfOk result (λ found. IfSome found (λ pieces. pieces.count < 2 ^ 64)) }
{
    let most = K::most();
    let bytes = text.as_bytes();
    let mut pieces = Vec::with_capacity(alloc, FIRST_ROOM)?;
    let mut first_new = None;
    let mut here = *at;
    'pieces: while let Some(piece) = piece_at::<K>(alloc, text, &mut here, depth)? {
        let count = pieces.len();
        if count >= most {
            return Ok(None);
        }
        first_new = first_new.or((!K::is_old(&piece)).then_some(count));
        pieces.push(piece)?;
        let Some(next) = after_comma(bytes, here) else {
            let Some(end) = after_bracket(bytes, here) else {
                return Ok(None);
            };
            *at = end;
            return Ok(Some(Pieces {
                count: pieces.len(),
                pieces,
                are_all: true,
                first_new,
            }));
        };
        here = next;
    }
    Ok(None)
}
