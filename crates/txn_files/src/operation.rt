//! Reads and writes an operation as elements of an array in JSON. Step files, script files and
//! history files share this module, so an operation has the same form in all of them. Reading takes
//! constant time and no memory. The written elements take at most 80 bytes.

ghost use Rattle.std.specs.Prelude.{◌≡◌, ◌+◌, ◌≤◌, ◌++◌, length, map, option_map};
ghost use Rattle.std.specs.List.{join_with_byte};
ghost use Rattle.piece_files.specs.Plain.{data_of};
ghost use Rattle.txn_files.specs.HistoryText.{comma};
ghost use Rattle.txn_files.specs.Operations.{is_old_op, op_at, op_of, put_if_at, elements_of_op};

use crate::short_text::ShortText;
use piece_files::{Plain, leading_optional_in, number_in, word_in};
use txn_words::Op;

/// Reads the first two elements as the expected value and the new value of a `put_if` with this
/// key. Returns this `put_if`, and the elements after the first two.
#[tactic(auto, unfolding(crate::specs::Operations::put_if_at))]
fn leading_put_if_in<'v, 'a>(key: u64, values: &'v [Plain<'a>]) -> Option<(Op, &'v [Plain<'a>])>
    ensures { option_map (λ x. (x.0, map data_of x.1.now)) result
        ≡ put_if_at key (map data_of values.now) }
{
    let (expected, rest) = leading_optional_in(values)?;
    number_in(rest).map(|(value, rest)| (Op::PutIf(key, expected, value), rest))
}

/// Reads the operation at the start of the elements. Returns the operation, and the elements after
/// it.
///
/// # Cost
///
/// Constant time; takes no memory.
#[inline(always)]
#[tactic(auto, unfolding(crate::specs::Operations::op_at))]
pub fn leading_op_in<'v, 'a>(values: &'v [Plain<'a>]) -> Option<(Op, &'v [Plain<'a>])>
    ensures { option_map (λ x. (x.0, map data_of x.1.now)) result ≡ op_at (map data_of values.now) }
{
    let (name, rest) = word_in(values)?;
    let (key, rest) = number_in(rest)?;
    match name {
        "put" => number_in(rest).map(|(value, rest)| (Op::Put(key, value), rest)),
        "take" => Some((Op::Take(key), rest)),
        "get" => Some((Op::Get(key), rest)),
        "put_if" => leading_put_if_in(key, rest),
        _ => None,
    }
}

/// Reads an operation from these elements. Returns `None` if the elements are not exactly one
/// operation.
///
/// # Cost
///
/// Constant time; takes no memory.
#[inline(always)]
#[tactic(auto, unfolding(crate::specs::Operations::op_of))]
pub fn op_in(values: &[Plain<'_>]) -> Option<Op>
    ensures { result ≡ op_of (map data_of values.now) }
{
    match leading_op_in(values)? {
        (op, []) => Some(op),
        _ => None,
    }
}

/// Returns true if version 1 of the files has this operation too.
///
/// # Cost
///
/// Constant time; takes no memory.
pub fn is_old_op(op: Op) -> bool
    ensures { result ≡ is_old_op op }
{
    !matches!(op, Op::PutIf(..))
}

/// Puts the elements of an operation in front of a text. Commas separate the elements.
#[inline(always)]
pub(crate) fn put_op(buffer: &mut ShortText, op: Op)
    requires { 80 + length buffer.old ≤ 160 }
    ensures text { buffer.new ≡ join_with_byte comma (elements_of_op op) ++ buffer.old }
    ensures short { length buffer.new ≤ 80 + length buffer.old }
{
    match op {
        Op::Put(key, value) => {
            buffer.put_number(value);
            buffer.put(",");
            buffer.put_number(key);
            buffer.put("\"put\",");
        }
        Op::Take(key) => {
            buffer.put_number(key);
            buffer.put("\"take\",");
        }
        Op::Get(key) => {
            buffer.put_number(key);
            buffer.put("\"get\",");
        }
        Op::PutIf(key, None, value) => {
            buffer.put_number(value);
            buffer.put(",null,");
            buffer.put_number(key);
            buffer.put("\"put_if\",");
        }
        Op::PutIf(key, Some(expected), value) => {
            buffer.put_number(value);
            buffer.put(",");
            buffer.put_number(expected);
            buffer.put(",");
            buffer.put_number(key);
            buffer.put("\"put_if\",");
        }
    }
}
