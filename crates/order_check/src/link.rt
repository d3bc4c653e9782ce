//! Edges as the graph keeps them. A link is smaller than an edge, so that more fit into a cache.
ghost use Rattle.std.specs.Prelude.{◌≡◌, IfOk, map};
ghost use Rattle.order_check.specs.Joined.{edge_of, version_of};

use crate::access::Access;
use crate::edge::{Edge, Kind};
use crate::table::Version;
use std::alloc::{AllocError, Global};

/// An edge of the graph. Its key is that of the access that gives it, and its value the one that
/// this access needs.
#[derive(Clone, Copy)]
pub(crate) struct Link {
    /// The transaction that must come first.
    pub(crate) from: usize,
    /// Why it must come first.
    pub(crate) kind: Kind,
    /// The index of the access that gives the edge, or 0 by real time.
    pub(crate) index: usize,
}

/// The key and the value of a link's edge.
pub(crate) fn version_of(accesses: &[Access], link: &Link) -> Version
    ensures { result ≡ version_of accesses.now link.now }
{
    if let Kind::Began = link.kind {
        return (0, None);
    }
    match accesses.get(link.index) {
        Some(access) => (access.key, access.need),
        None => (0, None),
    }
}

/// The edge that a link stands for.
pub(crate) fn edge_of(accesses: &[Access], link: &Link) -> Edge
    ensures { result ≡ edge_of accesses.now link.now }
{
    let (key, value) = version_of(accesses, link);
    Edge {
        from: link.from as u64,
        kind: link.kind,
        key,
        value,
    }
}

/// The edges that links stand for.
pub(crate) fn edges_of(
    alloc: Global,
    accesses: &[Access],
    links: &[Link],
) -> Result<Vec<Edge>, AllocError>
    ensures { IfOk result (λ edges. edges.items ≡ map (edge_of accesses.now) links.now) }
{
    let mut edges = Vec::with_capacity(alloc, links.len())?;
    for link in links {
        edges.push(edge_of(accesses, link))?;
    }
    Ok(edges)
}
