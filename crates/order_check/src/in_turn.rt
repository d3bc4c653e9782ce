//! Runs accesses in the order of their list. This is the check that the order of commits is a serial
//! order.
ghost use Rattle.std.specs.Prelude.{◌≡◌, ◌↔◌, IfOk, IsTrue};
ghost use Rattle.order_check.specs.Footprints.{no_values};
ghost use Rattle.order_check.specs.InTurn.{RunInTurn, value_in};

use crate::access::Access;
use std::alloc::{AllocError, Global};
use std::collections::HashMap;

/// Returns true if each access finds the value that it needs, when the accesses run in the order of
/// the list, from no values.
pub(crate) fn run_in_turn(alloc: Global, accesses: &[Access]) -> Result<bool, AllocError>
    ensures { IfOk result (λ right. IsTrue right ↔ RunInTurn no_values accesses.now) }
{
    let mut values = HashMap::new(alloc);
    for access in accesses {
        if value_in(&values, access.key) != access.need {
            return Ok(false);
        }
        values.insert(access.key, access.left)?;
    }
    Ok(true)
}

/// The value at a key.
fn value_in(values: &HashMap<u64, Option<u64>>, key: u64) -> Option<u64>
    ensures { result ≡ value_in values.now key }
{
    match values.get(&key) {
        Some(value) => *value,
        None => None,
    }
}
