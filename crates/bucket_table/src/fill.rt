//! Vectors filled with one value: the idle helpers of a new table, and the entries of a new
//! segment. The function takes any value, so one loop and one proof serve both.
ghost use Rattle.std.specs.Prelude.{◌≡◌, replicate, IfOk};

use std::alloc::{AllocError, Global};

/// A vector of `count` copies of `value`. Takes time in proportion to its length.
pub(crate) fn vec_of<T: Copy>(alloc: Global, count: u32, value: T) -> Result<Vec<T>, AllocError>
    ensures { IfOk result (λ items. items.items ≡ replicate count value) }
{
    let mut items = Vec::with_capacity(alloc, count as usize)?;
    for _ in 0..count {
        items.push(value)?;
    }
    Ok(items)
}
