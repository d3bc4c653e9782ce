//! Names transactions by their numbers in place of their places in a list.
ghost use Rattle.std.specs.Prelude.{◌≡◌, IfOk, map};
ghost use Rattle.order_check.specs.Named.{name_at, named_edge};

use crate::edge::Edge;
use std::alloc::{AllocError, Global};

/// The number at a place of the list. The place must be in the list.
pub(crate) fn name_at(names: &[u64], place: u64) -> u64
    ensures { result ≡ name_at names.now place }
{
    match names.get(place as usize) {
        Some(name) => *name,
        None => 0,
    }
}

/// The numbers at these places.
pub(crate) fn names_at(
    alloc: Global,
    names: &[u64],
    places: &[usize],
) -> Result<Vec<u64>, AllocError>
    ensures { IfOk result (λ named. named.items ≡ map (name_at names.now) places.now) }
{
    let mut named = Vec::with_capacity(alloc, places.len())?;
    for place in places {
        named.push(name_at(names, *place as u64))?;
    }
    Ok(named)
}

/// The edges, each with the number of its transaction.
pub(crate) fn named_edges(
    alloc: Global,
    names: &[u64],
    edges: &[Edge],
) -> Result<Vec<Edge>, AllocError>
    ensures { IfOk result (λ named. named.items ≡ map (named_edge names.now) edges.now) }
{
    let mut named = Vec::with_capacity(alloc, edges.len())?;
    for edge in edges {
        named.push(Edge {
            from: name_at(names, edge.from),
            kind: edge.kind,
            key: edge.key,
            value: edge.value,
        })?;
    }
    Ok(named)
}
