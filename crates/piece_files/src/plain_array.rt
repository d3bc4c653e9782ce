//! Reads arrays of plain values straight from their bytes into an array of fixed size. The bytes
//! must be in plain form. No memory is taken. The same loop reads a piece within a file, and a
//! piece that is a line of its own. An array in any other form is left to the reader of JSON, which
//! also decides on faults.
ghost use Rattle.std.specs.Prelude.{◌≡◌, ◌<◌, ◌≤◌, ℕ, true, length, drop, map, Some, IfSome};
ghost use Rattle.json.specs.Lex.{after_value};
ghost use Rattle.serde_json.specs.Data.{array};
ghost use Rattle.serde_json.specs.Read.{read};
ghost use Rattle.piece_files.specs.Plain.{data_of};
ghost use Rattle.piece_files.specs.PlainBytes.{Begin, tokens_at};
ghost use Rattle.piece_files.specs.Tokens.{items_from};

use crate::plain::Plain;
use crate::plain_bytes::{after_bracket, after_comma, after_open, is_over, plain_at};
use arrayvec::ArrayVec;

/// Reads the elements of an array into `elements`, in place of what is there. The first element is
/// at `start`. Returns where the array ends. Returns `None` if there is no element, if there are
/// more than `MOST`, or if the array has no plain form. After `None`, `elements` may have the first
/// elements of the array.
///
/// # Cost
///
/// Time in proportion to the text that is read; takes no memory.
#[inline(always)]
pub fn elements_at<'a, const MOST: usize>(
    text: &'a str,
    start: usize,
    elements: &mut ArrayVec<Plain<'a>, MOST>,
) -> Option<usize>
    requires { start ≤ length text.now }
    ensures place { IfSome result (λ end. (start < end) × (end ≤ length text.now)) }
    ensures elements { IfSome result (λ end. (depth : ℕ) →
        Begin depth (drop start text.now) (map data_of elements.new.items)
        (tokens_at after_value (drop end text.now))) }
{
    elements.clear();
    let bytes = text.as_bytes();
    let mut at = start;
    'elements: while let Some((element, end)) = plain_at(text, at) {
        if elements.len() == MOST {
            return None;
        }
        elements.push(element);
        let Some(next) = after_comma(bytes, end) else {
            return after_bracket(bytes, end);
        };
        at = next;
    }
    None
}

/// Reads the elements of a text that is one array into `elements`, in place of what is there.
/// Returns `true` if the text is an array in plain form with 1 to `MOST` elements, and no white
/// space is before its opening bracket. Otherwise, returns `false`, and may have changed
/// `elements`.
///
/// # Cost
///
/// Time in proportion to the text; takes no memory.
#[tactic(auto, using(crate::proofs::PlainLemmas::array_read))]
pub fn whole_array<'a, const MOST: usize>(
    text: &'a str,
    elements: &mut ArrayVec<Plain<'a>, MOST>,
) -> bool
    ensures { result ≡ true →
        read text.now ≡ Some (array (items_from (map data_of elements.new.items))) }
{
    let bytes = text.as_bytes();
    let Some(start) = after_open(bytes, 0) else {
        return false;
    };
    let Some(end) = elements_at(text, start, elements) else {
        return false;
    };
    is_over(bytes, end)
}
