//! Reads the members of a file in plain form, one after the other. This module finds what `members`
//! finds, but it reads bytes instead of tokens, and it reports no fault. If the text has another
//! form, or a wrong piece, the reader of JSON reads the whole text from its start.
ghost use Rattle.std.specs.Prelude.{◌≡◌, ◌∷◌, ◌<◌, ◌≤◌, true, length, drop, Some, IfOk, IfSome};
ghost use Rattle.serde_json.specs.Data.{Data, Members, object, put};
ghost use Rattle.serde_json.specs.Read.{read};
ghost use Rattle.piece_files.specs.Files.{are_apart, names_of};
ghost use Rattle.piece_files.specs.Members.{AreFound, ArePiecesOf, kind_named};
ghost use Rattle.piece_files.specs.PlainBytes.{IsValue};

use crate::members::{Found, MAX_DEPTH, Names, nothing_found, place_of};
use crate::piece::{PieceKind, Pieces};
use crate::plain::Plain;
use crate::plain_bytes::{
    after_comma, after_open, after_open_brace, is_last_brace, key_at, plain_at,
};
use crate::plain_pieces::pieces_at;
use std::alloc::{AllocError, Global};

/// Reads the array of pieces at the place `at`, which moves to just after the array. Returns `None`
/// if no array in plain form is there.
fn array_at<K: PieceKind>(
    alloc: Global,
    text: &str,
    at: &mut usize,
) -> Result<Option<Pieces<K::Piece>>, AllocError>
    requires { at.old ≤ length text.now }
    ensures place { IfOk result (λ found. IfSome found (λ pieces.
        (at.old < at.new) × (at.new ≤ length text.now))) }
    ensures pieces { IfOk result (λ found. IfSome found (λ pieces. (d : Data)
        × IsValue 126 (drop at.old text.now) d (drop at.new text.now)
        × ArePiecesOf K.of K.is_old K.part K.most (Some pieces) d)) }
{
    let Some(start) = after_open(text.as_bytes(), *at) else {
        return Ok(None);
    };
    *at = start;
    pieces_at::<K>(alloc, text, at, MAX_DEPTH - 2)
}

/// Reads one more member into `found`. Its key is `key`, and its value is at the place `at`.
/// Returns `true` if the value has plain form; `at` then moves to just after the value.
fn take_plain_member<K: PieceKind, const N: usize>(
    found: &mut Found<K::Piece, N>,
    names: Names<'_>,
    alloc: Global,
    key: &str,
    text: &str,
    at: &mut usize,
) -> Result<bool, AllocError>
    requires place { at.old ≤ length text.now }
    requires many { length names.numbers.now ≡ N }
    requires apart { are_apart (names_of (kind_named names K.of K.is_old K.part K.most)) ≡ true }
    ensures place { IfOk result (λ is_taken. is_taken ≡ true →
        (at.old < at.new) × (at.new ≤ length text.now)) }
    ensures taken { let kind = kind_named names.entry K.of K.is_old K.part K.most in
        IfOk result (λ is_taken. is_taken ≡ true → (d : Data)
        × IsValue 126 (drop at.old text.now) d (drop at.new text.now)
        × ((ms : Members)
        → AreFound kind found.old.version found.old.numbers found.old.pieces ms
        → AreFound kind found.new.version found.new.numbers found.new.pieces
        (put key.now d ms))) }
{
    if key == names.pieces {
        let Some(pieces) = array_at::<K>(alloc, text, at)? else {
            return Ok(false);
        };
        found.pieces = Some(pieces);
        return Ok(true);
    }
    let Some((value, end)) = plain_at(text, *at) else {
        return Ok(false);
    };
    *at = end;
    let number = value.number();
    if key == "version" {
        found.version = number;
    } else if let Some(place) = place_of(names.numbers, key) {
        found.numbers[place] = number;
    }
    Ok(true)
}

/// What is found in the members of a text that is an object. Returns `None` if the text has no
/// plain form.
pub(crate) fn plain_members_in<K: PieceKind, const N: usize>(
    alloc: Global,
    text: &str,
    names: Names<'_>,
) -> Result<Option<Found<K::Piece, N>>, AllocError>
    requires few { N ≤ 64 }
    requires many { length names.numbers.now ≡ N }
    requires apart { are_apart (names_of (kind_named names K.of K.is_old K.part K.most)) ≡ true }
    ensures { IfOk result (λ found. IfSome found (λ found. (ms : Members)
        × (read text.now ≡ Some (object ms))
        × AreFound (kind_named names.entry K.of K.is_old K.part K.most)
        found.version found.numbers found.pieces ms)) }
{
    let bytes = text.as_bytes();
    let Some(start) = after_open_brace(bytes) else {
        return Ok(None);
    };
    let mut found = nothing_found::<K::Piece, N>();
    let mut at = start;
    'members: while let Some((key, value)) = key_at(text, at) {
        at = value;
        if !take_plain_member::<K, N>(&mut found, names, alloc, key, text, &mut at)? {
            return Ok(None);
        }
        let Some(next) = after_comma(bytes, at) else {
            return if is_last_brace(bytes, at) {
                Ok(Some(found))
            } else {
                Ok(None)
            };
        };
        at = next;
    }
    Ok(None)
}
