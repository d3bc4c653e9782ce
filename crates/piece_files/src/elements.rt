//! Functions that take the elements of an array from the front of a slice, one after the other. The
//! readers of pieces use them, and so need not look at tokens. Each function takes constant time
//! and no memory. It returns `None` if the elements do not have the form that the function expects.

ghost use Rattle.std.specs.Prelude.{◌≡◌, map, option_map};
ghost use Rattle.piece_files.specs.Plain.{data_of};
ghost use Rattle.piece_files.specs.Elements.{number_at, leading_text, optional_at, one_of, two_of, ends_here};
ghost use Rattle.piece_files.specs.Elements.{optional_of};

use crate::plain::Plain;

/// Returns the first element, which must be a whole number below 2^64, and the elements after it.
/// Returns `None` if there is no element, or if the first is no such number.
///
/// # Cost
///
/// Constant time; takes no memory.
#[tactic(auto, unfolding(crate::specs::Elements::number_at))]
pub fn number_in<'v, 'a>(values: &'v [Plain<'a>]) -> Option<(u64, &'v [Plain<'a>])>
    ensures { option_map (λ x. (x.0, map data_of x.1.now)) result
        ≡ number_at (map data_of values.now) }
{
    let (first, rest) = values.split_first()?;
    match *first {
        Plain::Number(number) => Some((number, rest)),
        Plain::Null | Plain::Text(_) => None,
    }
}

/// Returns the first element, which must be a text, and the elements after it. Returns `None` if
/// there is no element, or if the first is no text.
///
/// # Cost
///
/// Constant time; takes no memory.
#[tactic(auto, unfolding(crate::specs::Elements::leading_text))]
pub fn word_in<'v, 'a>(values: &'v [Plain<'a>]) -> Option<(&'a str, &'v [Plain<'a>])>
    ensures { option_map (λ x. (x.0.now, map data_of x.1.now)) result
        ≡ leading_text (map data_of values.now) }
{
    let (first, rest) = values.split_first()?;
    match *first {
        Plain::Text(word) => Some((word, rest)),
        Plain::Null | Plain::Number(_) => None,
    }
}

/// Returns the only element, which must be a whole number below 2^64. Returns `None` if there is
/// not exactly one element, or if the element is no such number.
///
/// # Cost
///
/// Constant time; takes no memory.
#[tactic(auto, unfolding(crate::specs::Elements::one_of))]
pub fn one_in(values: &[Plain<'_>]) -> Option<u64>
    ensures { result ≡ one_of (map data_of values.now) }
{
    let (number, rest) = number_in(values)?;
    if rest.is_empty() { Some(number) } else { None }
}

/// Returns `Some` if there is no element, else `None`.
///
/// # Cost
///
/// Constant time; takes no memory.
#[tactic(auto, unfolding(crate::specs::Elements::ends_here))]
pub fn end_in(values: &[Plain<'_>]) -> Option<()>
    ensures { result ≡ ends_here (map data_of values.now) }
{
    if values.is_empty() { Some(()) } else { None }
}

/// Returns the first element, and the elements after it. The first element must be a whole number
/// below 2^64 or `null`. For `null`, the number in the result is `None`. If there is no element, or
/// if the first is any other value, the whole result is `None`.
///
/// # Cost
///
/// Constant time; takes no memory.
#[tactic(auto, unfolding(crate::specs::Elements::optional_at))]
pub fn leading_optional_in<'v, 'a>(
    values: &'v [Plain<'a>],
) -> Option<(Option<u64>, &'v [Plain<'a>])>
    ensures { option_map (λ x. (x.0, map data_of x.1.now)) result
        ≡ optional_at (map data_of values.now) }
{
    let (first, rest) = values.split_first()?;
    match *first {
        Plain::Null => Some((None, rest)),
        Plain::Number(number) => Some((Some(number), rest)),
        Plain::Text(_) => None,
    }
}

/// Returns the only element, which must be a whole number below 2^64 or `null`. Returns
/// `Some(None)` for `null`. Returns `None` if there is not exactly one element, or if the element
/// is any other value.
///
/// # Cost
///
/// Constant time; takes no memory.
#[tactic(auto, unfolding(crate::specs::Elements::optional_of))]
pub fn optional_in(values: &[Plain<'_>]) -> Option<Option<u64>>
    ensures { result ≡ optional_of (map data_of values.now) }
{
    let (value, rest) = leading_optional_in(values)?;
    if rest.is_empty() { Some(value) } else { None }
}

/// Returns the two elements in their order. Both must be whole numbers below 2^64. Returns `None`
/// if the elements are not exactly two such numbers.
///
/// # Cost
///
/// Constant time; takes no memory.
#[tactic(auto, unfolding(crate::specs::Elements::two_of))]
pub fn two_in(values: &[Plain<'_>]) -> Option<(u64, u64)>
    ensures { result ≡ two_of (map data_of values.now) }
{
    let (first, rest) = number_in(values)?;
    let second = one_in(rest)?;
    Some((first, second))
}
