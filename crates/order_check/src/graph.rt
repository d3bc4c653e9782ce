//! The edges of each transaction.
ghost use Rattle.std.specs.Prelude.{◌≡◌, ◌<◌, length, vec_len, OnOk, IfOk, true};
ghost use Rattle.order_check.specs.Growth.{Adds, AreEmpty};

use crate::link::Link;
use std::alloc::{AllocError, Global};

/// No edges for each of so many transactions, with room for so many of each.
pub(crate) fn no_edges(
    alloc: Global,
    count: usize,
    rooms: &[usize],
) -> Result<Vec<Vec<Link>>, AllocError>
    ensures { IfOk result (λ graph. AreEmpty count graph.items) }
{
    let mut graph = Vec::with_capacity(alloc, count)?;
    for txn in 0..count {
        graph.push(Vec::with_capacity(alloc, room_at(rooms, txn))?)?;
    }
    Ok(graph)
}

/// The room of a transaction.
fn room_at(rooms: &[usize], txn: usize) -> usize {
    match rooms.get(txn) {
        Some(room) => *room,
        None => 0,
    }
}

/// Adds an edge to a transaction.
pub(crate) fn add(graph: &mut Vec<Vec<Link>>, to: usize, edge: Link) -> Result<(), AllocError>
    requires { to < vec_len graph.old }
    ensures { OnOk result (Adds edge to graph.old.items graph.new.items) }
{
    graph[to].push(edge)?;
    Ok(())
}
