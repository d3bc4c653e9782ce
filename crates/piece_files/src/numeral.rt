//! Computes the value of a number from its text in JSON, if this value is a whole number below
//! 2^64. Nearly all numbers in a file have at most 19 digits, and one short loop reads them. All
//! other numbers are read by `fast_float`, which no other module of this crate uses. The functions
//! take time in proportion to the text, and no memory.

ghost use Rattle.std.specs.Prelude.{◌≡◌, false, option_map, IfSome};
ghost use Rattle.std.specs.Prelude as prelude;
ghost use Rattle.fast_float.specs.Text.{scan};
ghost use Rattle.serde_json.specs.Find.{as_u64};
ghost use Rattle.serde_json.specs.Read.{float_of, number_from, number_of};
ghost use Rattle.std.specs.Str.Parse.{IsNumeral, digits_value};

use fast_float::Numeral;

/// Every number with this many digits is below 2^64, but not every number with one digit more.
const FEW: usize = 19;

/// The value of a text that consists of 1 to `FEW` digits. Returns `None` for any other text, even
/// if it is a number.
#[inline(always)]
fn few_digits_in(bytes: &[u8]) -> Option<u64>
    ensures { IfSome result (λ number.
        IsNumeral 10 bytes.now × (number ≡ digits_value 10 bytes.now)) }
{
    if bytes.is_empty() || bytes.len() > FEW {
        return None;
    }
    let mut number = 0;
    for byte in bytes {
        if !byte.is_ascii_digit() {
            return None;
        }
        number = number * 10 + u64::from(*byte - b'0');
    }
    Some(number)
}

/// Reads a number that is no whole number below 2^64. Returns `None` if it is too large for a
/// float, else `Some(None)`.
#[cold]
#[inline(never)]
fn float_in(is_negative: bool, bytes: &[u8]) -> Option<Option<u64>>
    ensures { result ≡ option_map as_u64 (float_of is_negative (scan bytes.now)) }
{
    let float = Numeral::scan(bytes).to_float::<f64>(is_negative);
    if float.is_finite() { Some(None) } else { None }
}

/// The value of a number whose text has no sign. Returns `None` if the number is too large for a
/// float. Returns `Some(None)` if it has a fraction or an exponent, or is 2^64 or more.
#[inline(always)]
fn unsigned_in(bytes: &[u8]) -> Option<Option<u64>>
    ensures { result ≡ option_map as_u64 (number_from prelude.false (scan bytes.now)) }
{
    if let Some(number) = few_digits_in(bytes) {
        return Some(Some(number));
    }
    match Numeral::scan(bytes).to_u64() {
        Some(number) => Some(Some(number)),
        None => float_in(false, bytes),
    }
}

/// The value of a negative number, whose text is given without the minus sign. Returns `None` if
/// the number is out of range of a float, else `Some(None)`.
#[cold]
#[inline(never)]
fn negative_in(bytes: &[u8]) -> Option<Option<u64>>
    ensures { result ≡ option_map as_u64 (number_from prelude.true (scan bytes.now)) }
{
    if let Some(number) = Numeral::scan(bytes).to_i64(true)
        && number < 0
    {
        return Some(None);
    }
    float_in(true, bytes)
}

/// The value of a number's text. Returns `None` if the number is too large for a float. Returns
/// `Some(None)` if it has a minus sign, a fraction or an exponent, or is 2^64 or more.
#[inline(always)]
pub(crate) fn number_in_text(text: &str) -> Option<Option<u64>>
    ensures { result ≡ option_map as_u64 (number_of text.now) }
{
    let bytes = text.as_bytes();
    let Some((first, digits)) = bytes.split_first() else {
        return unsigned_in(bytes);
    };
    if *first == b'-' {
        negative_in(digits)
    } else {
        unsigned_in(bytes)
    }
}
