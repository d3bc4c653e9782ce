// PROMISES stripes-as-atomic-words: StripeRight::all
//! The right to a stripe is a value that cannot be copied, so no stripe can have two holders. It is
//! for maps whose callers do not take their stripes from a `KeyLocks`, and it takes one word. All
//! rights to a map's stripes are made at once. After that, a right only moves from one owner to
//! another.
ghost use Rattle.std.specs.Prelude.{◌≡◌, IfOk};
ghost use Rattle.key_locks.specs.Rights.{AreAll};

use std::alloc::{AllocError, Global};
use std::marker::Model;

/// The right to one stripe: whoever has it holds the stripe. It cannot be copied. Contracts see the
/// stripe's number.
#[derive(Debug, Drop)]
pub struct StripeRight {
    stripe: usize,
}

impl Model for StripeRight {
    ghost use Rattle.std.specs.Prelude.{ℕ};

    ghost Value = { ℕ };

    ghost view = { λ right. right.stripe };
}

impl StripeRight {
    /// Makes one right for each of this many stripes, in the order of the stripes' numbers.
    ///
    /// # Errors
    ///
    /// `AllocError` if memory is refused.
    ///
    /// # Cost
    ///
    /// Time and memory in proportion to the number of stripes.
    pub fn all(alloc: Global, stripes: usize) -> Result<Vec<StripeRight>, AllocError>
        ensures { IfOk result (λ rights. AreAll stripes rights.items) }
    {
        let mut rights = Vec::with_capacity(alloc, stripes)?;
        for stripe in 0..stripes {
            rights.push(StripeRight { stripe })?;
        }
        Ok(rights)
    }

    /// The stripe's number.
    pub fn stripe(&self) -> usize
        ensures { result ≡ self.now }
    {
        self.stripe
    }
}
