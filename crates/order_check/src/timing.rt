//! Edges of real time. A transaction comes after those that had committed when it began. Most of
//! these edges follow from two others, and are left out: there is a transaction between, which began
//! after the first one had committed, and had committed when the second one began. So a transaction
//! has about as many edges as callers run at the same time.
ghost use Rattle.std.specs.Prelude.{◌≡◌, ◌<◌, length, vec_len, OnOk};
ghost use Rattle.order_check.specs.Timing.{AddsTimes, AreTimed, IsTiming, since_in, time_edge};

use crate::edge::Kind;
use crate::graph::add;
use crate::link::Link;
use std::alloc::{AllocError, Global};

/// Adds the edges of real time that do not follow from others. `since` says of each transaction how
/// many had committed when it began.
pub(crate) fn add_times(
    alloc: Global,
    graph: &mut Vec<Vec<Link>>,
    since: &[usize],
) -> Result<(), AllocError>
    requires { IsTiming (vec_len graph.old) since.now }
    ensures { OnOk result (AreTimed (since_in since.now) graph.old.items graph.new.items) }
{
    // For each number of commits, how many transactions had committed when one of the first so many
    // began. These come before it by other edges.
    let mut covered = Vec::new(alloc);
    covered.push(0)?;
    for txn in 0..since.len() {
        let end = since[txn];
        add_between(graph, covered[end], end, txn)?;
        covered.push(covered[txn].max(end))?;
    }
    Ok(())
}

/// Adds an edge of real time from each transaction from `start` on, up to `end`.
fn add_between(
    graph: &mut Vec<Vec<Link>>,
    start: usize,
    end: usize,
    to: usize,
) -> Result<(), AllocError>
    requires { to < vec_len graph.old }
    ensures { OnOk result (AddsTimes start end to graph.old.items graph.new.items) }
{
    for from in start..end {
        add(graph, to, time_edge(from))?;
    }
    Ok(())
}

/// An edge of real time from a transaction.
pub(crate) fn time_edge(from: usize) -> Link
    ensures { result ≡ time_edge from }
{
    Link {
        from,
        kind: Kind::Began,
        index: 0,
    }
}
