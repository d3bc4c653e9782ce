//! Kinds of pieces whose elements are plain values. Such a kind says which elements make a piece.
//! Both readers, that of JSON and that of the plain form, are written here once for all of them.
ghost use Rattle.std.specs.Prelude.{◌≡◌, ℕ, List, Bool, Option, None, map, false};
ghost use Rattle.serde_json.specs.Data.{Data};
ghost use Rattle.piece_files.specs.Plain.{data_of};
ghost use Rattle.piece_files.specs.Tokens.{are_plain};
ghost use Rattle.piece_files.specs.declared.part.Part.{Part};

use crate::part::Part;
use crate::piece::PieceKind;
use crate::plain::{Plain, plain_elements};
use crate::plain_array::elements_at;
use crate::stop::Stop;
use arrayvec::ArrayVec;
use json::Reader;
use std::alloc::{AllocError, Global};

/// The most elements that a piece of a `FlatKind` has.
pub const MAX_ELEMENTS: usize = 7;

/// A kind of pieces that have at most seven elements, all of which are plain. `Flat` makes a
/// `PieceKind` of it. No value of a `FlatKind` is ever made: it is only used as a type argument.
pub trait FlatKind {
    /// A piece of this kind.
    type Piece: Drop;

    /// The piece of version 2 that has these elements, if there is one.
    ghost of: { List Data → Option Self.Piece };

    /// Whether version 1 has this piece too.
    ghost is_old: { Self.Piece → Bool };

    /// The name that a fault uses for pieces of this kind.
    ghost part: { Part };

    /// How many pieces a file may have.
    ghost most: { ℕ };

    /// The name that a fault uses for pieces of this kind. Constant time.
    fn part() -> Part
        ensures { result ≡ part };

    /// Whether version 1 has this piece too. Constant time.
    fn is_old(piece: &Self::Piece) -> bool
        ensures { result ≡ is_old piece.now };

    /// The greatest number of pieces in a file. Constant time.
    fn most() -> usize
        ensures { result ≡ most };

    /// The piece that has these elements, if there is one.
    ///
    /// # Cost
    ///
    /// Constant time; takes no memory.
    fn of(elements: &[Plain<'_>]) -> Option<Self::Piece>
        ensures { result ≡ of (map data_of elements.now) };

    /// States that no piece has an element that is not plain, or more than seven elements. Does
    /// nothing.
    fn others_make_none()
        ensures { (ds : List Data) → are_plain 7 ds ≡ false → of ds ≡ None };
}

/// The pieces of the kind `K`, as `read_file` takes a kind. No value of this type is ever made.
pub struct Flat<K: FlatKind> {
    _kind: K,
}

impl<K: FlatKind> PieceKind for Flat<K> {
    type Piece = K::Piece;

    ghost of = { K.of };

    ghost is_old = { K.is_old };

    ghost part = { K.part };

    ghost most = { K.most };

    ghost takes_memory = { false };

    #[inline(always)]
    fn part() -> Part {
        K::part()
    }

    #[inline(always)]
    fn is_old(piece: &K::Piece) -> bool {
        K::is_old(piece)
    }

    #[inline(always)]
    fn most() -> usize {
        K::most()
    }

    fn read(
        _alloc: Global,
        reader: &mut Reader<'_>,
        depth: usize,
    ) -> Result<Option<K::Piece>, Stop> {
        let mut elements = ArrayVec::<Plain<'_>, MAX_ELEMENTS>::new();
        if plain_elements(reader, depth, &mut elements)? {
            Ok(K::of(&elements))
        } else {
            K::others_make_none();
            Ok(None)
        }
    }

    #[inline(always)]
    fn read_plain(
        _alloc: Global,
        text: &str,
        at: &mut usize,
        _depth: usize,
    ) -> Result<Option<K::Piece>, AllocError> {
        let mut elements = ArrayVec::<Plain<'_>, MAX_ELEMENTS>::new();
        let Some(end) = elements_at(text, *at, &mut elements) else {
            return Ok(None);
        };
        *at = end;
        Ok(K::of(&elements))
    }
}
