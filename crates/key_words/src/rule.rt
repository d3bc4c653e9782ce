//! The rule of the words, and a type for each step that keeps the rule. `Take`, `Bring` and `Free`
//! are steps on a word, and `AddSeat` makes a new seat. The code of `words` takes the steps, and
//! names the type of each. No value of these types is ever made, so the rule costs nothing at run
//! time.
ghost use Rattle.std.specs.Prelude.{[]};
ghost use Rattle.key_words.specs.Rule.{IsOrderly, view};
ghost use Rattle.key_words.specs.Steps.{brought, elder, freed, newborn, took};

use crate::view::View;
use atomic_table::{Play, Split, TableRule};
use key_locks::StripeRight;

/// Where a stripe's right is kept while no seat holds the stripe.
pub(crate) type Slot = Option<StripeRight>;

/// The rule of the words, `IsOrderly`.
pub(crate) struct Order;

impl TableRule<Slot, View, ()> for Order {
    ghost holds = { λ _. IsOrderly };

    ghost first = { λ _. view 0 1 [] [] };
}

/// A compare-exchange of a stripe's word, from 0 to the word that names the seat. If the word was
/// 0, the seat gets the stripe's slot.
pub(crate) struct Take;

impl Play<Slot, View> for Take {
    ghost then = { took };
}

/// A load. After it, the stripe's slot is the first of the seat's slots.
pub(crate) struct Bring;

impl Play<Slot, View> for Bring {
    ghost then = { brought };
}

/// A store of 0. The first of the seat's slots returns to the table.
pub(crate) struct Free;

impl Play<Slot, View> for Free {
    ghost then = { freed };
}

/// A step that makes one more seat, with the next number.
pub(crate) struct AddSeat;

impl Split<View> for AddSeat {
    ghost left = { elder };

    ghost right = { newborn };
}
