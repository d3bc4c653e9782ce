//! The transactions that write a value.
ghost use Rattle.std.specs.Prelude.{◌≡◌, IfOk, map};
ghost use Rattle.std.specs.List.{filter};
ghost use Rattle.order_check.specs.Named.{name_at};
ghost use Rattle.order_check.specs.Writers.{does_write, named_by};

use crate::access::Access;
use crate::naming::name_at;
use crate::table::Version;
use std::alloc::{AllocError, Global};

/// The numbers of the transactions whose accesses write the value, in the order of the accesses.
/// `names` has the number of each transaction.
pub(crate) fn writers_of(
    alloc: Global,
    names: &[u64],
    accesses: &[Access],
    version: Version,
) -> Result<Vec<u64>, AllocError>
    ensures { IfOk result (λ writers. writers.items
        ≡ map (named_by names.now) (filter (does_write version) accesses.now)) }
{
    let mut writers = Vec::new(alloc);
    for access in accesses {
        if is_writer(access, version) {
            writers.push(name_at(names, access.txn as u64))?;
        }
    }
    Ok(writers)
}

/// Whether the access writes the value.
fn is_writer(access: &Access, version: Version) -> bool
    ensures { result ≡ does_write version access.now }
{
    access.key == version.0 && access.left == version.1 && access.need != access.left
}
