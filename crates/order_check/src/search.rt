//! A search for an order that keeps all edges, or for a cycle of edges.
ghost use Rattle.std.specs.Prelude.{◌≡◌, ℕ, ◌<◌, length, IfOk, OnOk, reverse, true, false, [], List};
ghost use Rattle.order_check.specs.Graphs.{AreInRange, IsFound, IsRing, HasEdge};
ghost use Rattle.order_check.specs.Search.{IsSearch, IsStuck, StaysVisited};

use crate::link::Link;
use std::alloc::{AllocError, Global};

/// An order, or a cycle.
#[derive(Drop)]
pub(crate) enum Found {
    /// Each transaction once, and after all that must come before it.
    Order(Vec<usize>),
    /// Each edge leads to the transaction from which the next one comes, and the last edge leads to
    /// the transaction from which the first one comes.
    Cycle(Vec<Link>),
}

/// How far the search has come with a transaction.
#[derive(Clone, Copy, PartialEq, Eq)]
pub(crate) enum Mark {
    /// Not visited.
    New,
    /// Visited, and not yet in the order.
    Open,
    /// In the order.
    Done,
}

/// What the search knows of a transaction.
#[derive(Clone, Copy)]
pub(crate) struct Visit {
    pub(crate) mark: Mark,
    /// How many of its edges were followed.
    pub(crate) next: usize,
}

/// Finds an order that keeps all edges, or a cycle of edges.
///
/// # Errors
///
/// `AllocError` if memory is refused.
///
/// # Cost
///
/// Time and memory in proportion to the number of transactions and edges.
pub(crate) fn find_order(alloc: Global, graph: &[Vec<Link>]) -> Result<Found, AllocError>
    requires { AreInRange graph.now }
    ensures { IfOk result (IsFound (HasEdge graph.now) graph.now) }
{
    let unvisited = Visit {
        mark: Mark::New,
        next: 0,
    };
    let mut visits = vec![in alloc; unvisited; graph.len()]?;
    let mut path = Vec::new(alloc);
    let mut order = Vec::with_capacity(alloc, graph.len())?;
    for root in 0..graph.len() {
        if let Mark::New = visits[root].mark {
            path.push(root)?;
            visits[root].mark = Mark::Open;
            if !follow(graph, &mut visits, &mut path, &mut order)? {
                return Ok(Found::Cycle(circle(alloc, graph, &visits, &path)?));
            }
        }
    }
    Ok(Found::Order(order))
}

/// Follows edges until no transaction is open, and returns true. If an edge comes from an open
/// transaction, stops before this edge and returns false.
fn follow(
    graph: &[Vec<Link>],
    visits: &mut Vec<Visit>,
    path: &mut Vec<usize>,
    order: &mut Vec<usize>,
) -> Result<bool, AllocError>
    requires range { AreInRange graph.now }
    requires keeps { IsSearch graph.now visits.old.items path.old.items order.old.items }
    ensures keeps { OnOk result (IsSearch graph.now visits.new.items path.new.items order.new.items) }
    ensures visited { OnOk result (StaysVisited visits.old.items visits.new.items) }
    ensures ended { IfOk result (λ ended. ended ≡ true → path.new.items ≡ []) }
    ensures stuck { IfOk result (λ ended. ended ≡ false → IsStuck graph.now visits.new.items path.new.items) }
{
    while !path.is_empty() {
        let top = path[path.len() - 1];
        let at = visits[top].next;
        if at == graph[top].len() {
            order.push(top)?;
            path.pop();
            visits[top].mark = Mark::Done;
        } else {
            let from = graph[top][at].from;
            match visits[from].mark {
                Mark::New => {
                    path.push(from)?;
                    visits[from].mark = Mark::Open;
                }
                Mark::Done => visits[top].next = at + 1,
                Mark::Open => return Ok(false),
            }
        }
    }
    Ok(true)
}

/// The edges in a circle that `follow` met.
fn circle(
    alloc: Global,
    graph: &[Vec<Link>],
    visits: &[Visit],
    path: &[usize],
) -> Result<Vec<Link>, AllocError>
    requires range { AreInRange graph.now }
    requires keeps { (order : List ℕ) × IsSearch graph.now visits.now path.now order }
    requires stuck { IsStuck graph.now visits.now path.now }
    ensures { IfOk result (λ edges. IsRing (HasEdge graph.now) edges.items) }
{
    let count = path.len();
    let top = path[count - 1];
    let start = graph[top][visits[top].next].from;
    let mut edges = Vec::new(alloc);
    for back in 0..count {
        let u = path[count - 1 - back];
        let edge = graph[u][visits[u].next];
        edges.push(edge)?;
        if u == start {
            return Ok(edges);
        }
    }
    Ok(edges)
}
