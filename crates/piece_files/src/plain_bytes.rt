//! JSON in plain form, read straight from its bytes: white space, commas and brackets, keys, and
//! plain values. In plain form a text has no escapes, and a number has at most 19 digits. The
//! functions here make no index of the bytes, unlike the reader of the crate `json`, which makes an
//! index of 4,096 bytes at a time. If the input is not in plain form, some function here returns
//! `None` or `false`. Then the reader of the crate `json` reads the input.
ghost use Rattle.std.specs.Prelude.{◌≡◌, ◌+◌, ◌∷◌, ◌<◌, ◌≤◌, [], ℕ, true, length, take, drop, get_or, IfSome};
ghost use Rattle.std.specs.List.{All};
ghost use Rattle.std.specs.Str.Parse.{AllDigits, digits_value};
ghost use Rattle.json.specs.Lex.{between, lex, token};
ghost use Rattle.json.specs.Token as tokens;
ghost use Rattle.json.specs.Run.{is_plain};
ghost use Rattle.json.specs.Word.{is_space};
ghost use Rattle.serde_json.specs.Data.{null, number, unsigned};
ghost use Rattle.piece_files.specs.Plain.{data_of};
ghost use Rattle.piece_files.specs.PlainBytes.{PassesSpace, Comma, Closes, Finishes, OpensArray, OpensObject, IsValue, IsKey};

use crate::plain::Plain;

/// Every number with this many digits is below 2^64, but not every number with one digit more.
const FEW: usize = 19;

/// Whether a byte is white space in JSON.
#[inline(always)]
pub fn is_space(byte: u8) -> bool
    ensures { result ≡ is_space byte }
{
    byte == b' ' || byte == b'\t' || byte == b'\n' || byte == b'\r'
}

/// The end of the white space that begins at `start`; `start` itself if there is none.
#[inline(always)]
fn spaces_end(bytes: &[u8], start: usize) -> usize
    requires { start ≤ length bytes.now }
    ensures place { (start ≤ result) × (result ≤ length bytes.now) }
    ensures spaces { PassesSpace (drop start bytes.now) (drop result bytes.now) }
{
    let mut at = start;
    'spaces: while at < bytes.len() && is_space(bytes[at]) {
        at += 1;
    }
    at
}

/// Whether `byte` is at the place `at`.
#[inline(always)]
fn is_at(bytes: &[u8], at: usize, byte: u8) -> bool
    ensures { result ≡ true
        → (at < length bytes.now) × (drop at bytes.now ≡ byte ∷ drop (at + 1) bytes.now) }
{
    at < bytes.len() && bytes[at] == byte
}

/// Whether nothing but white space follows the place `at`.
#[tactic(auto, using(crate::proofs::PlainLemmas::all_passed))]
pub(crate) fn is_over(bytes: &[u8], at: usize) -> bool
    requires { at ≤ length bytes.now }
    ensures { result ≡ true → PassesSpace (drop at bytes.now) [] }
{
    spaces_end(bytes, at) == bytes.len()
}

/// The place after the next comma and the white space around it. Returns `None` if no comma is
/// next.
#[inline(always)]
pub(crate) fn after_comma(bytes: &[u8], at: usize) -> Option<usize>
    requires { at ≤ length bytes.now }
    ensures place { IfSome result (λ next. (at < next) × (next ≤ length bytes.now)) }
    ensures comma { IfSome result (λ next. Comma (drop at bytes.now) (drop next bytes.now)) }
{
    let comma = spaces_end(bytes, at);
    if !is_at(bytes, comma, b',') {
        return None;
    }
    Some(spaces_end(bytes, comma + 1))
}

/// The place after the next closing bracket of an array. Returns `None` if no such bracket is next.
#[inline(always)]
pub(crate) fn after_bracket(bytes: &[u8], at: usize) -> Option<usize>
    requires { at ≤ length bytes.now }
    ensures place { IfSome result (λ end. (at < end) × (end ≤ length bytes.now)) }
    ensures bracket { IfSome result (λ end. Closes (drop at bytes.now) (drop end bytes.now)) }
{
    let bracket = spaces_end(bytes, at);
    if !is_at(bytes, bracket, b']') {
        return None;
    }
    Some(bracket + 1)
}

/// Whether the closing brace of an object is next, with nothing but white space after it.
#[tactic(auto, using(crate::proofs::PlainLemmas::finishing))]
pub(crate) fn is_last_brace(bytes: &[u8], at: usize) -> bool
    requires { at ≤ length bytes.now }
    ensures { result ≡ true → Finishes (drop at bytes.now) }
{
    let brace = spaces_end(bytes, at);
    if !is_at(bytes, brace, b'}') {
        return false;
    }
    is_over(bytes, brace + 1)
}

/// The place of an array's first element, if the array's opening bracket is at the place `at`.
#[inline(always)]
#[tactic(auto, using(crate::proofs::PlainLemmas::opening))]
pub(crate) fn after_open(bytes: &[u8], at: usize) -> Option<usize>
    ensures place { IfSome result (λ start. (at < start) × (start ≤ length bytes.now)) }
    ensures array { IfSome result (λ start. OpensArray (drop at bytes.now) (drop start bytes.now)) }
{
    if !is_at(bytes, at, b'[') {
        return None;
    }
    Some(spaces_end(bytes, at + 1))
}

/// The place of the first member, if the opening brace of an object is next. White space may
/// precede the brace.
#[tactic(auto, using(crate::proofs::PlainLemmas::opening_object))]
pub(crate) fn after_open_brace(bytes: &[u8]) -> Option<usize>
    ensures place { IfSome result (λ start. start ≤ length bytes.now) }
    ensures object { IfSome result (λ start. OpensObject bytes.now (drop start bytes.now)) }
{
    let brace = spaces_end(bytes, 0);
    if !is_at(bytes, brace, b'{') {
        return None;
    }
    Some(spaces_end(bytes, brace + 1))
}

/// Whether a byte may stand for itself in a text.
#[inline(always)]
fn is_plain(byte: u8) -> bool
    ensures { result ≡ is_plain byte }
{
    byte != b'"' && byte != b'\\' && byte >= b' '
}

/// The number of bytes at the front that stand for themselves in a text, up to the first that does
/// not.
#[inline(always)]
fn plain_len(bytes: &[u8]) -> usize
    ensures few { result ≤ length bytes.now }
    ensures plain { All (λ byte. is_plain byte ≡ true) (take result bytes.now) }
{
    let mut len = 0;
    'plain: while len < bytes.len() && is_plain(bytes[len]) {
        len += 1;
    }
    len
}

/// The value of the digits at the front, and how many digits were read. At most 19 digits are read.
#[inline(always)]
fn digits_in(bytes: &[u8]) -> (u64, usize)
    ensures few { result.1 ≤ length bytes.now }
    ensures digits { AllDigits 10 (take result.1 bytes.now) }
    ensures value { result.0 ≡ digits_value 10 (take result.1 bytes.now) }
{
    let mut number = 0;
    let mut len = 0;
    'digits: while len < bytes.len() && len < FEW && bytes[len].is_ascii_digit() {
        number = number * 10 + u64::from(bytes[len] - b'0');
        len += 1;
    }
    (number, len)
}

/// The value of the digits at a place, and the place after them. At most 19 digits are read.
/// Returns `None` if there is no digit, or if there are several and the first is 0.
#[inline(always)]
fn number_at(bytes: &[u8], at: usize) -> Option<(u64, usize)>
    requires { at ≤ length bytes.now }
    ensures place { IfSome result (λ found. (at < found.1) × (found.1 ≤ length bytes.now)) }
    ensures value { IfSome result (λ found. (depth : ℕ) →
        IsValue depth (drop at bytes.now) (number (unsigned found.0)) (drop found.1 bytes.now)) }
{
    let (number, len) = digits_in(&bytes[at..]);
    if len == 0 || (len > 1 && bytes[at] == b'0') {
        return None;
    }
    Some((number, at + len))
}

/// The place after `null`, if `null` is at the place `at`.
#[inline(always)]
fn null_at(bytes: &[u8], at: usize) -> Option<usize>
    requires { at ≤ length bytes.now }
    ensures place { IfSome result (λ end. (at < end) × (end ≤ length bytes.now)) }
    ensures value { IfSome result (λ end. (depth : ℕ) →
        IsValue depth (drop at bytes.now) null (drop end bytes.now)) }
{
    if bytes.len() - at < 4
        || bytes[at] != b'n'
        || bytes[at + 1] != b'u'
        || bytes[at + 2] != b'l'
        || bytes[at + 3] != b'l'
    {
        return None;
    }
    Some(at + 4)
}

/// The text at a place, and the place after it. Returns `None` if no text in plain form is there.
#[inline(always)]
fn text_at(text: &str, at: usize) -> Option<(&str, usize)>
    ensures place { IfSome result (λ found. (at < found.1) × (found.1 ≤ length text.now)) }
    ensures value { IfSome result (λ found. lex between (drop at text.now)
        ≡ token (tokens.string found.0.now) ∷ lex between (drop found.1 text.now)) }
{
    let bytes = text.as_bytes();
    if at >= bytes.len() || bytes[at] != b'"' {
        return None;
    }
    let start = at + 1;
    let end = start + plain_len(&bytes[start..]);
    if end == bytes.len() || bytes[end] != b'"' {
        return None;
    }
    Some((&text[start..end], end + 1))
}

/// The plain value at a place, and the place after it. The caller must test whether the bytes after
/// it may follow a value: for `1.5` this returns the value 1, and `.5` may not follow a value.
#[inline(always)]
pub(crate) fn plain_at(text: &str, at: usize) -> Option<(Plain<'_>, usize)>
    requires { at ≤ length text.now }
    ensures place { IfSome result (λ found. (at < found.1) × (found.1 ≤ length text.now)) }
    ensures value { IfSome result (λ found. (depth : ℕ) →
        IsValue depth (drop at text.now) (data_of found.0) (drop found.1 text.now)) }
{
    if let Some((word, end)) = text_at(text, at) {
        return Some((Plain::Text(word), end));
    }
    let bytes = text.as_bytes();
    if let Some((number, end)) = number_at(bytes, at) {
        return Some((Plain::Number(number), end));
    }
    let end = null_at(bytes, at)?;
    Some((Plain::Null, end))
}

/// The key at a place, and the place of the member's value. Returns `None` if no key in plain form
/// is there.
#[tactic(auto, using(crate::proofs::PlainLemmas::key_is))]
pub(crate) fn key_at(text: &str, at: usize) -> Option<(&str, usize)>
    requires { at ≤ length text.now }
    ensures place { IfSome result (λ found. (at < found.1) × (found.1 ≤ length text.now)) }
    ensures key { IfSome result (λ found.
        IsKey (drop at text.now) found.0.now (drop found.1 text.now)) }
{
    let (key, end) = text_at(text, at)?;
    let bytes = text.as_bytes();
    let colon = spaces_end(bytes, end);
    if !is_at(bytes, colon, b':') {
        return None;
    }
    Some((key, spaces_end(bytes, colon + 1)))
}
