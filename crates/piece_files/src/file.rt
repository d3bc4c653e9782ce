//! Reads a whole file: its version, its numbers and its pieces, found by the names of its members.
//! This module alone decides which fault is reported if a file has several, and it alone tests the
//! length of a file and its version. The module `members` only reports what a text contains, or
//! that it is not JSON, or that memory was refused.

ghost use Rattle.std.specs.Prelude.{◌≡◌, ◌∷◌, ◌≤◌, List, length, take, map, true, Option, Some, Result, Ok, Err, MatchResult};
ghost use Rattle.std.specs.Str.{IsUtf8};
ghost use Rattle.piece_files.specs.Faults.{FailsAs, Gives, or_fault};
ghost use Rattle.piece_files.specs.Files.{FileKind, version, are_apart, all_of, contents_from, contents, is_version};
ghost use Rattle.piece_files.specs.Json.{max_bytes};
ghost use Rattle.piece_files.specs.Members.{FindsIn};
ghost use Rattle.piece_files.specs.Pieces.{in_version};
ghost use Rattle.piece_files.specs.declared.file_fault.FileFault.{FileFault};
ghost use Rattle.piece_files.specs.declared.file_fault.FileFault.TheVariants.{NoMemory};

use crate::file_fault::FileFault;
use crate::members::{Found, Names, members_in};
use crate::piece::{PieceKind, Pieces};
use std::alloc::Global;

/// The greatest length of a file, in bytes.
pub const MAX_BYTES: usize = 16_777_216;

/// All the numbers. Returns `None` if one of them was not found.
fn all_numbers<const N: usize>(found: [Option<u64>; N]) -> Option<[u64; N]>
    ensures { result ≡ all_of found.entry }
{
    let mut numbers = [0; N];
    'numbers: for i in 0..N {
        numbers[i] = found[i]?;
    }
    Some(numbers)
}

/// The last version of a file that can be read.
const MAX_VERSION: u64 = 3;

/// Whether files of this version can be read.
fn is_version(version: u64) -> bool
    ensures { result ≡ is_version version }
{
    1 <= version && version <= MAX_VERSION
}

/// The pieces that were found in a member. Returns a fault if the member is missing, or if one of
/// its elements is no piece of this version.
fn pieces_found<K: PieceKind>(
    found: Option<Pieces<K::Piece>>,
    version: u64,
) -> Result<Pieces<K::Piece>, FileFault>
    ensures { (old new : Result (List K.Piece) FileFault)
        → FindsIn K.part K.most found old new → MatchResult result
        (λ p. (all : List K.Piece) × (in_version version old new ≡ Ok all)
        × (p.count ≡ length all) × (p.pieces.items ≡ take K.most all))
        (λ fault. FailsAs fault (in_version version old new)) }
{
    let pieces = found.ok_or(FileFault::Member)?;
    if version == 1 {
        if let Some(index) = pieces.first_new {
            return Err(FileFault::Piece(K::part(), index));
        }
    }
    if pieces.are_all {
        Ok(pieces)
    } else {
        Err(FileFault::Piece(K::part(), pieces.count))
    }
}

/// The version, the numbers and the pieces, from what was found in the members.
fn contents_found<K: PieceKind, const N: usize>(
    found: Found<K::Piece, N>,
) -> Result<(u64, [u64; N], Vec<K::Piece>), FileFault>
    ensures { (old new : Result (List K.Piece) FileFault)
        → FindsIn K.part K.most found.pieces old new
        → Gives (λ file. (file.0, file.1, file.2.items)) result
        (contents_from K.most found.version (all_of found.numbers) old new) }
{
    let version = found.version.ok_or(FileFault::Member)?;
    let numbers = all_numbers(found.numbers).ok_or(FileFault::Member)?;
    let found = pieces_found::<K>(found.pieces, version)?;
    if is_version(version) && found.count <= K::most() {
        Ok((version, numbers, found.pieces))
    } else {
        Err(FileFault::Limit)
    }
}

/// Reads the version, the numbers and the pieces of a file of version 1 to 3. Such a file is an
/// object in JSON. The member `version` holds the version. Each name in `numbers` is the name of a
/// member with a number. The argument `pieces` is the name of the member with the array of pieces.
///
/// Other members of the object are skipped. If a member is given more than once, the last one
/// counts. A number is written without a sign, a fraction or an exponent, and is below 2^64.
///
/// # Errors
///
/// The first of these that applies, in this order:
///
/// - `Limit` if there are more than 16,777,216 bytes.
/// - `NotJson` if the bytes are not UTF-8 or not JSON, if arrays and objects nest deeper than 127,
///   or if a number is too large for a float.
/// - `Member` if the value is no object, or if a member is missing or of the wrong kind.
/// - `Piece` if an element of the array is no piece, or if the file is of version 1 and an element
///   is no piece of version 1. The fault names the first such element.
/// - `Limit` if the version is not 1 to 3, or if there are more than `K::most()` pieces.
///
/// `NoMemory` if memory is refused. It can take the place of any other result, except the errors
/// for too many bytes and for bytes that are not UTF-8.
///
/// # Cost
///
/// Time in proportion to the number of bytes, if `K::read`, `K::read_plain` and `K::is_old` take
/// time in proportion to what they read. Takes memory for the pieces, or for 16 pieces if there are
/// fewer, and what `K::read` and `K::read_plain` take. A file that is not in plain form also takes
/// scratch memory of its whole length.
pub fn read_file<'n, K: PieceKind, const N: usize>(
    alloc: Global,
    bytes: &[u8],
    numbers: &'n [&'n str],
    pieces: &'n str,
) -> Result<(u64, [u64; N], Vec<K::Piece>), FileFault>
    requires few { N ≤ 64 }
    requires many { length numbers.now ≡ N }
    requires apart { are_apart (version ∷ pieces.now ∷ map (λ name. name.now) numbers.now) ≡ true }
    ensures memory { result ≡ Err NoMemory → (length bytes.now ≤ max_bytes) × IsUtf8 bytes.now }
    ensures contents { let kind : FileKind K.Piece = record {
      numbers = map (λ name. name.now) numbers.now;
      pieces = pieces.now;
      of = K.of;
      is_old = K.is_old;
      part = K.part;
      most = K.most;
    } in
        Gives (λ file. (file.0, file.1, file.2.items)) result (contents kind bytes.now) }
{
    if bytes.len() > MAX_BYTES {
        return Err(FileFault::Limit);
    }
    let Ok(text) = std::str::from_utf8(bytes) else {
        return Err(FileFault::NotJson);
    };
    let found = members_in::<K, N>(alloc, text, Names { numbers, pieces })?;
    contents_found::<K, N>(found)
}
