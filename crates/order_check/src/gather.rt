//! Gathers the accesses of a transaction that commits, from its footprint.
ghost use Rattle.std.specs.Prelude.{◌≡◌, ◌++◌, List, OnOk, OnErr};
ghost use Rattle.std.specs.Ordering.{nat_cmp};
ghost use Rattle.std.specs.BTreeMap.{IsOrdered};
ghost use Rattle.order_check.specs.declared.access.Access.{Access};
ghost use Rattle.order_check.specs.Accesses.{accesses_of, first_torn};

use crate::access::Access;
use serial_check::Footprint;
use std::alloc::AllocError;

/// The first torn transaction, after one more transaction.
pub(crate) fn first_torn(before: Option<u64>, is_torn: bool, txn: u64) -> Option<u64>
    ensures { result ≡ first_torn before is_torn txn }
{
    if before.is_none() && is_torn {
        Some(txn)
    } else {
        before
    }
}

/// Adds the accesses of a footprint. If memory is refused, there are none more.
pub(crate) fn add_accesses(
    accesses: &mut Vec<Access>,
    txn: usize,
    footprint: &Footprint,
) -> Result<(), AllocError>
    ensures ok { OnOk result (accesses.new.items
        ≡ accesses.old.items ++ accesses_of txn footprint.now.cells.entries) }
    ensures err { OnErr result (accesses.new.items ≡ accesses.old.items) }
    ensures ordered { IsOrdered nat_cmp footprint.now.cells }
{
    let before = accesses.len();
    let pushed = push_accesses(accesses, txn, footprint);
    if pushed.is_err() {
        accesses.truncate(before);
    }
    pushed
}

/// Adds the accesses of a footprint. If memory is refused, there may be some more.
fn push_accesses(
    accesses: &mut Vec<Access>,
    txn: usize,
    footprint: &Footprint,
) -> Result<(), AllocError>
    ensures ok { OnOk result (accesses.new.items
        ≡ accesses.old.items ++ accesses_of txn footprint.now.cells.entries) }
    ensures err { OnErr result ((more : List Access)
        × (accesses.new.items ≡ accesses.old.items ++ more)) }
    ensures ordered { IsOrdered nat_cmp footprint.now.cells }
{
    for (key, cell) in &footprint.cells {
        accesses.push(Access {
            txn,
            key: *key,
            need: cell.need,
            left: cell.now,
            source: None,
        })?;
    }
    Ok(())
}
