//! Reads the members of a file, one after the other. Members that belong to the kind of file are
//! kept, and all others are skipped. The module `plain_members` tries to read each text first. If
//! it gives up, the reader of JSON reads the text from its start and decides. So a text is read at
//! most twice.

ghost use Rattle.std.specs.Prelude.{◌≡◌, ◌∷◌, ◌≤◌, ◌<◌, true, false, map, length, replicate, Option, Some, None, Ok, Err, IfOk, OnOk, OnErr, MatchResult, codes};
ghost use Rattle.json.specs.Reads.{token_of};
ghost use Rattle.serde_json.specs.Data.{Data, Members, no_members, put};
ghost use Rattle.serde_json.specs.Read.{max_depth, read};
ghost use Rattle.std.specs.Str.{bytes_eq};
ghost use Rattle.std.specs.List.{position};
ghost use Rattle.piece_files.specs.Elements.{whole_number};
ghost use Rattle.piece_files.specs.Faults.{FailsAs, or_fault};
ghost use Rattle.piece_files.specs.Json.{json_of};
ghost use Rattle.piece_files.specs.Members.{members_within, ArePiecesOf, AreFound, kind_named};
ghost use Rattle.piece_files.specs.Files.{names_of, are_apart};
ghost use Rattle.piece_files.specs.Tokens.{value_at, members_at};
ghost use Rattle.piece_files.specs.declared.file_fault.FileFault.TheVariants.{NotJson as NoJson};
ghost use Rattle.piece_files.specs.declared.stop.Stop.TheVariants.{NotJson};

use crate::file_fault::FileFault;
use crate::passing::pass_value;
use crate::piece::{PieceKind, Pieces, pieces_in};
use crate::plain::plain_value;
use crate::plain_members::plain_members_in;
use crate::stop::Stop;
use json::{Invalid, Reader, Scratch, Token};
use std::alloc::Global;

/// How deep arrays and objects may nest.
pub const MAX_DEPTH: usize = 127;

/// The names of a file's members, besides `version`.
#[derive(Clone, Copy)]
pub(crate) struct Names<'a> {
    /// The names of the numbers, in the order of `Found::numbers`.
    pub(crate) numbers: &'a [&'a str],
    /// The name of the array of pieces.
    pub(crate) pieces: &'a str,
}

/// What was found in a file's members. If two members have the same name, the last one counts.
#[derive(Drop)]
pub(crate) struct Found<P, const N: usize> {
    pub(crate) version: Option<u64>,
    pub(crate) numbers: [Option<u64>; N],
    pub(crate) pieces: Option<Pieces<P>>,
}

/// The state before any member is read, in which nothing is found.
pub(crate) fn nothing_found<P, const N: usize>() -> Found<P, N>
    requires { N ≤ 64 }
    ensures version { result.version ≡ None }
    ensures numbers { result.numbers ≡ replicate N None }
    ensures pieces { result.pieces ≡ None }
{
    Found {
        version: None,
        numbers: [None; N],
        pieces: None,
    }
}

/// Reads the number that begins with `token`, which was already taken from the reader. Returns
/// `None` if the value is no whole number below 2^64.
fn number_member(
    token: Token<'_>,
    reader: &mut Reader<'_>,
    depth: usize,
) -> Result<Option<u64>, Invalid>
    ensures ok { IfOk result (λ found. (d : Data)
        × (value_at depth (token_of token.entry ∷ reader.old) ≡ Some (d, reader.new))
        × (found ≡ whole_number d)) }
    ensures err { OnErr result (value_at depth (token_of token.entry ∷ reader.old) ≡ None) }
    ensures shorter { OnOk result (length reader.new ≤ length reader.old) }
{
    match plain_value(token, reader, depth)? {
        Some(value) => Ok(value.number()),
        None => Ok(None),
    }
}

/// Reads the pieces of the array that begins with `token`, which was already taken from the reader.
/// Returns `None` if the value is no array.
fn pieces_member<K: PieceKind>(
    alloc: Global,
    token: Token<'_>,
    reader: &mut Reader<'_>,
    depth: usize,
) -> Result<Option<Pieces<K::Piece>>, Stop>
    ensures ok { IfOk result (λ found. (d : Data)
        × (value_at depth (token_of token.entry ∷ reader.old) ≡ Some (d, reader.new))
        × ArePiecesOf K.of K.is_old K.part K.most found d) }
    ensures err { result ≡ Err NotJson → value_at depth (token_of token.entry ∷ reader.old) ≡ None }
    ensures shorter { OnOk result (length reader.new ≤ length reader.old) }
{
    match token {
        Token::BeginArray => {
            if depth == 0 {
                return Err(Stop::NotJson);
            }
            Ok(Some(pieces_in::<K>(alloc, reader, depth - 1)?))
        }
        Token::BeginObject
        | Token::EndObject
        | Token::EndArray
        | Token::Key(_)
        | Token::String(_)
        | Token::Number(_)
        | Token::Bool(_)
        | Token::Null
        | Token::Bad => {
            pass_value(token, reader, depth)?;
            Ok(None)
        }
    }
}

/// The index of the first of the names that is `key`.
pub(crate) fn place_of(names: &[&str], key: &str) -> Option<usize>
    ensures { result ≡ position (λ name. bytes_eq name.now key.now) names.now }
{
    names.iter().position(|name| *name == key)
}

/// Reads one more member into `found`. The member's key is `key`, and its value begins with
/// `token`, which was already taken from the reader.
fn take_member<K: PieceKind, const N: usize>(
    found: &mut Found<K::Piece, N>,
    names: Names<'_>,
    alloc: Global,
    key: &str,
    token: Token<'_>,
    reader: &mut Reader<'_>,
    depth: usize,
) -> Result<(), Stop>
    requires many { length names.numbers.now ≡ N }
    requires apart { are_apart (names_of (kind_named names K.of K.is_old K.part K.most)) ≡ true }
    ensures ok { let kind = kind_named names.entry K.of K.is_old K.part K.most in
        OnOk result ((d : Data)
        × (value_at depth (token_of token.entry ∷ reader.old) ≡ Some (d, reader.new))
        × ((ms : Members)
        → AreFound kind found.old.version found.old.numbers found.old.pieces ms
        → AreFound kind found.new.version found.new.numbers found.new.pieces
        (put key.now d ms))) }
    ensures err { result ≡ Err NotJson → value_at depth (token_of token.entry ∷ reader.old) ≡ None }
    ensures shorter { OnOk result (length reader.new ≤ length reader.old) }
{
    if key == "version" {
        found.version = number_member(token, reader, depth)?;
    } else if key == names.pieces {
        found.pieces = pieces_member::<K>(alloc, token, reader, depth)?;
    } else if let Some(place) = place_of(names.numbers, key) {
        found.numbers[place] = number_member(token, reader, depth)?;
    } else {
        pass_value(token, reader, depth)?;
    }
    Ok(())
}

/// Reads all members of an object into `found`. The object's opening brace was already taken from
/// the reader.
fn take_members<K: PieceKind, const N: usize>(
    found: &mut Found<K::Piece, N>,
    names: Names<'_>,
    alloc: Global,
    reader: &mut Reader<'_>,
    depth: usize,
) -> Result<(), Stop>
    requires many { length names.numbers.now ≡ N }
    requires apart { are_apart (names_of (kind_named names K.of K.is_old K.part K.most)) ≡ true }
    requires nothing { AreFound (kind_named names K.of K.is_old K.part K.most)
        found.old.version found.old.numbers found.old.pieces no_members }
    ensures ok { OnOk result ((ms : Members)
        × (members_at depth reader.old ≡ Some (ms, reader.new))
        × AreFound (kind_named names.entry K.of K.is_old K.part K.most)
        found.new.version found.new.numbers found.new.pieces ms) }
    ensures err { result ≡ Err NotJson → members_at depth reader.old ≡ None }
{
    'members: while let Some(key) = reader.next_key()? {
        let token = reader.next().ok_or(Stop::NotJson)?;
        take_member::<K, N>(found, names, alloc, key, token, reader, depth)?;
    }
    Ok(())
}

/// Reads a value. If it is an object, all its members are read into `found`.
fn take_value<K: PieceKind, const N: usize>(
    found: &mut Found<K::Piece, N>,
    names: Names<'_>,
    alloc: Global,
    reader: &mut Reader<'_>,
) -> Result<(), Stop>
    requires many { length names.numbers.now ≡ N }
    requires apart { are_apart (names_of (kind_named names K.of K.is_old K.part K.most)) ≡ true }
    requires nothing { AreFound (kind_named names K.of K.is_old K.part K.most)
        found.old.version found.old.numbers found.old.pieces no_members }
    ensures ok { OnOk result ((d : Data)
        × (value_at max_depth reader.old ≡ Some (d, reader.new))
        × AreFound (kind_named names.entry K.of K.is_old K.part K.most)
        found.new.version found.new.numbers found.new.pieces (members_within d)) }
    ensures err { result ≡ Err NotJson → value_at max_depth reader.old ≡ None }
{
    let token = reader.next().ok_or(Stop::NotJson)?;
    match token {
        Token::BeginObject => take_members::<K, N>(found, names, alloc, reader, MAX_DEPTH - 1),
        Token::BeginArray
        | Token::EndObject
        | Token::EndArray
        | Token::Key(_)
        | Token::String(_)
        | Token::Number(_)
        | Token::Bool(_)
        | Token::Null
        | Token::Bad => {
            pass_value(token, reader, MAX_DEPTH)?;
            Ok(())
        }
    }
}

/// What the reader of JSON finds in the members of a text. A text that is no object has no members.
fn indexed_members_in<K: PieceKind, const N: usize>(
    alloc: Global,
    text: &str,
    names: Names<'_>,
) -> Result<Found<K::Piece, N>, FileFault>
    requires few { N ≤ 64 }
    requires many { length names.numbers.now ≡ N }
    requires apart { are_apart (names_of (kind_named names K.of K.is_old K.part K.most)) ≡ true }
    ensures { MatchResult result
        (λ found. (d : Data) × (read text.now ≡ Some d)
        × AreFound (kind_named names.entry K.of K.is_old K.part K.most)
        found.version found.numbers found.pieces (members_within d))
        (λ fault. FailsAs fault (or_fault NoJson (read text.now))) }
{
    let mut found = nothing_found::<K::Piece, N>();
    let mut scratch = Scratch::new(alloc);
    let mut reader = Reader::new(text, &mut scratch)?;
    match take_value::<K, N>(&mut found, names, alloc, &mut reader) {
        Ok(()) => {
            if reader.next().is_none() {
                Ok(found)
            } else {
                Err(FileFault::NotJson)
            }
        }
        Err(Stop::NotJson) => Err(FileFault::NotJson),
        Err(Stop::NoMemory) => Err(FileFault::NoMemory),
    }
}

/// What is found in the members of a text. A text that is no object has no members. A text in plain
/// form is read straight from its bytes.
pub(crate) fn members_in<K: PieceKind, const N: usize>(
    alloc: Global,
    text: &str,
    names: Names<'_>,
) -> Result<Found<K::Piece, N>, FileFault>
    requires few { N ≤ 64 }
    requires many { length names.numbers.now ≡ N }
    requires apart { are_apart (names_of (kind_named names K.of K.is_old K.part K.most)) ≡ true }
    ensures { MatchResult result
        (λ found. (d : Data) × (read text.now ≡ Some d)
        × AreFound (kind_named names.entry K.of K.is_old K.part K.most)
        found.version found.numbers found.pieces (members_within d))
        (λ fault. FailsAs fault (or_fault NoJson (read text.now))) }
{
    let plain = plain_members_in::<K, N>(alloc, text, names)?;
    match plain {
        Some(found) => Ok(found),
        None => indexed_members_in::<K, N>(alloc, text, names),
    }
}
