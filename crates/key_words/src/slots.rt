//! The slots of the stripes, before the words are made. Each right is moved into its stripe's slot.
//! If memory for the words is refused, each right is moved out again, so that none is lost. Moving
//! the rights out takes no memory, because the list of rights keeps its room while it is empty.
ghost use Rattle.std.specs.Prelude.{◌≡◌, ◌≤◌, [], IfOk, vec_len, vec_capacity};
ghost use Rattle.key_locks.specs.Rights.{AreAll};
ghost use Rattle.key_words.specs.Slots.{AreLaid};

use crate::rule::Slot;
use key_locks::StripeRight;
use std::alloc::{AllocError, Global};

/// A list of `count` slots, each empty.
pub(crate) fn empty_slots(alloc: Global, count: usize) -> Result<Vec<Slot>, AllocError>
    ensures { IfOk result (λ slots. vec_len slots ≡ count) }
{
    let mut slots = Vec::with_capacity(alloc, count)?;
    for _ in 0..count {
        slots.push(None)?;
    }
    Ok(slots)
}

/// Moves each right into its stripe's slot.
pub(crate) fn lay(rights: &mut Vec<StripeRight>, slots: &mut Vec<Slot>)
    requires wide { vec_len slots.old ≡ vec_len rights.old }
    requires rights { AreAll (vec_len rights.old) rights.old.items }
    ensures slots { AreLaid (vec_len rights.old) slots.new.items }
    ensures rights { (rights.new.items ≡ []) × (vec_capacity rights.new ≡ vec_capacity rights.old) }
{
    while let Some(right) = rights.pop() {
        slots[rights.len()] = Some(right);
    }
}

/// Moves each right out of its stripe's slot.
pub(crate) fn lift(slots: &mut Vec<Slot>, rights: &mut Vec<StripeRight>)
    requires empty { rights.old.items ≡ [] }
    requires room { vec_len slots.old ≤ vec_capacity rights.old }
    requires slots { AreLaid (vec_len slots.old) slots.old.items }
    ensures { AreAll (vec_len slots.old) rights.new.items }
{
    for stripe in 0..slots.len() {
        if let Some(right) = slots[stripe].take() {
            rights.push_reserved(right);
        }
    }
}
