//! Tests of `map_ops`. This file has the table calls that several of the modules share. The module
//! `runs` has worked runs, and `refused` has refused allocations. The contracts allow a call to fail for lack of memory even while memory is free.
ghost use Rattle.std.specs.Prelude.{IfOk, IfSome};
ghost use Rattle.map_ops.specs.Changes.{OwnsIf, ShowsAfter};

mod refused;
mod runs;

use map_ops::{Act, MapJob, Pending, Table};
use std::alloc::{AllocError, Global};
use std::collections::BTreeMap;
use txn_words::{Op, Refusal, Reply};

/// A table of at most eight buckets and two helpers.
fn new_table(alloc: Global) -> Result<Table, AllocError> {
    Table::new(alloc, 8, 2)
}

/// A table of two buckets that cannot grow, and one helper.
fn small_table(alloc: Global) -> Result<Table, AllocError> {
    Table::new(alloc, 2, 1)
}

/// The size, the count and the change number of a table. This call needs no memory.
fn figures(table: &Table) -> (u32, u64, u64) {
    (table.size(), table.count(), table.changes())
}

/// Does an operation.
fn apply(table: &mut Table, op: Op) -> Result<(Reply, Option<MapJob>), Refusal>
    ensures { IfOk result (λ done. IfSome done.1 (λ job. ShowsAfter job table.new)) }
{
    table.apply(op)
}

/// Does an operation, and drops its job.
fn do_at_once(table: &mut Table, op: Op) -> Result<Reply, Refusal> {
    let (reply, _) = table.apply(op)?;
    Ok(reply)
}

/// Does an operation and takes it back.
fn there_and_back(table: &mut Table, op: Op) -> Result<Reply, Refusal> {
    let (reply, job) = apply(table, op)?;
    if let Some(job) = job {
        table.take_back(job);
    }
    Ok(reply)
}

/// The pairs of a table. If memory is refused, tries once more.
fn pairs_of(alloc: Global, table: &Table) -> Result<Vec<(u64, u64)>, AllocError> {
    match table.regular_list(alloc) {
        Ok(pairs) => Ok(pairs),
        Err(AllocError) => table.regular_list(alloc),
    }
}

/// The content of a table. If memory is refused, tries once more.
fn content_of(alloc: Global, table: &Table) -> Result<BTreeMap<u64, u64>, AllocError> {
    match table.content(alloc) {
        Ok(content) => Ok(content),
        Err(AllocError) => table.content(alloc),
    }
}

/// Returns true if the content has exactly these pairs.
fn has_each(content: &BTreeMap<u64, u64>, wanted: &[(u64, u64)]) -> bool {
    for (key, value) in wanted {
        if content.get(key).copied() != Some(*value) {
            return false;
        }
    }
    content.len() == wanted.len()
}

/// Returns true if the table's list of pairs is `wanted`, its content has the same pairs, and its
/// count is the number of these pairs.
fn has_pairs(alloc: Global, table: &Table, wanted: &[(u64, u64)]) -> Result<bool, AllocError> {
    let is_whole = has_each(&content_of(alloc, table)?, wanted);
    let is_counted = figures(table).1 == wanted.len() as u64;
    Ok(is_whole && is_counted && pairs_of(alloc, table)?.as_slice() == wanted)
}

/// Does a prepared operation.
fn finish(table: &mut Table, pending: Pending) -> (Reply, Option<MapJob>)
    requires { OwnsIf table.old pending.spare }
{
    let cursor = table.place(&pending);
    match table.act(pending, cursor) {
        Act::Acted(reply, job) => (reply, job),
        Act::Again(_) => unreachable!(),
    }
}
