//! A shortest cycle, in place of the one that a search by depth found.
//!
//! A walk goes from a transaction to those that must come before it, the nearest ones first (Moore,
//! "The Shortest Path through a Maze", 1959). The edge by which it comes back closes a shortest
//! cycle through this transaction. A walk goes only as far as a cycle can still be shorter than the
//! best one so far. The first walks begin at the cycle that was found, and the others at each
//! transaction in turn, until all have looked at a million edges, or at four times as many as there
//! are.
//!
//! A walk also takes the edges of real time that the graph leaves out, as they follow from others.
//!
//! Proved: the edges are a cycle. That it is a shortest one is only tested: the edges of each cycle
//! are read back and tested one by one, so that no proof speaks of the walks.
ghost use Rattle.std.specs.Prelude.{◌≡◌, ◌<◌, IfOk, IfSome};
ghost use Rattle.order_check.specs.Graphs.{AreInRange, HasEdge, IsRing, IsFound};
ghost use Rattle.order_check.specs.Timing.{Leads, since_in, time_edge};

use crate::edge::Kind;
use crate::link::Link;
use crate::search::{Found, find_order};
use crate::timing::time_edge;
use std::alloc::{AllocError, Global};

/// The length of a cycle, or of a way. Of two of one length the lesser has no edge of real time.
#[derive(Clone, Copy, PartialEq, Eq, PartialOrd, Ord)]
struct Cost {
    edges: usize,
    is_timed: bool,
}

/// One of the edges that lead to a transaction.
#[derive(Clone, Copy)]
struct Place {
    to: usize,
    /// Its index in the graph, or `None` if it is of real time alone.
    index: Option<usize>,
}

/// How a walk came to a transaction.
#[derive(Clone, Copy)]
struct Reach {
    /// The number of this walk, or 0 if no walk came here yet.
    walk: usize,
    cost: Cost,
    /// The edge by which it came.
    by: Place,
}

/// A search for the least cycle.
#[derive(Drop)]
struct Walks {
    /// The number of the walk.
    walk: usize,
    /// The transaction from which it began.
    start: usize,
    /// How each transaction was reached last.
    reaches: Vec<Reach>,
    /// The transactions that the walk reached, in this order.
    queue: Vec<usize>,
    /// The walk has reached so many of the first transactions, by edges of real time.
    covered: usize,
    /// The least cost of a cycle so far.
    least: Cost,
    /// The edge from `start` that closes the cycle of this cost, if this walk has found it.
    closing: Option<Place>,
    /// How many edges may still be looked at.
    left: usize,
}

/// Finds an order that keeps all edges, or a cycle of edges, also of real time. `since` says of each
/// transaction how many had committed when it began. The cycle is a shortest one, if the walks may
/// look at as many edges as that takes. It has an edge of real time only if each cycle of its length
/// that they find has one.
///
/// # Errors
///
/// `AllocError` if memory is refused.
///
/// # Cost
///
/// Time and memory in proportion to the number of transactions and edges: the walks look at four
/// times as many, or at a million.
pub(crate) fn find_shortest(
    alloc: Global,
    graph: &[Vec<Link>],
    since: &[usize],
) -> Result<Found, AllocError>
    requires { AreInRange graph.now }
    ensures { IfOk result (IsFound (Leads (since_in since.now) graph.now) graph.now) }
{
    match find_order(alloc, graph)? {
        Found::Order(order) => Ok(Found::Order(order)),
        Found::Cycle(edges) => Ok(Found::Cycle(shorten(alloc, graph, since, edges)?)),
    }
}

/// The least cycle that the walks find, or the one that was found.
fn shorten(
    alloc: Global,
    graph: &[Vec<Link>],
    since: &[usize],
    found: Vec<Link>,
) -> Result<Vec<Link>, AllocError>
    requires { IsRing (HasEdge graph.now) found.items }
    ensures { IfOk result (λ edges. IsRing (Leads (since_in since.now) graph.now) edges.items) }
{
    let mut walks = Walks::new(alloc, graph, cost_of(&found))?;
    let mut shortest = None;
    for turn in 0..found.len().saturating_add(graph.len()) {
        if walks.is_over() {
            break;
        }
        walks.walk(graph, since, start_at(&found, turn))?;
        if let Some(edges) = walks.cycle(alloc, graph, since)? {
            shortest = Some(edges);
        }
    }
    match shortest {
        Some(edges) => Ok(edges),
        None => Ok(found),
    }
}

/// The cost of a cycle.
fn cost_of(edges: &[Link]) -> Cost {
    Cost {
        edges: edges.len(),
        is_timed: edges.iter().any(|edge| edge.kind == Kind::Began),
    }
}

/// Where the walk of this turn begins: first at the edges of the cycle, then at each transaction.
fn start_at(found: &[Link], turn: usize) -> usize {
    match found.get(turn) {
        Some(edge) => edge.from,
        None => turn.saturating_sub(found.len()),
    }
}

/// The number of edges that the walks may look at: four times as many as one walk looks at, or a
/// million.
fn most_looks(graph: &[Vec<Link>]) -> usize {
    let mut looks: usize = 0;
    for row in graph {
        looks = looks.saturating_add(row.len().saturating_add(2));
    }
    looks.saturating_mul(4).max(1_000_000)
}

impl Walks {
    /// No walk yet. There is a cycle of this cost.
    fn new(alloc: Global, graph: &[Vec<Link>], least: Cost) -> Result<Walks, AllocError> {
        let nowhere = Reach {
            walk: 0,
            cost: least,
            by: Place { to: 0, index: None },
        };
        Ok(Walks {
            walk: 0,
            start: 0,
            reaches: vec![in alloc; nowhere; graph.len()]?,
            queue: Vec::new(alloc),
            covered: 0,
            least,
            closing: None,
            left: most_looks(graph),
        })
    }

    /// Whether no further walk is to be taken. No cycle has fewer than two edges.
    fn is_over(&self) -> bool {
        self.left == 0 || (self.least.edges <= 2 && !self.least.is_timed)
    }

    /// Walks from a transaction, and notes the edge that closes a cycle of a lesser cost.
    fn walk(
        &mut self,
        graph: &[Vec<Link>],
        since: &[usize],
        start: usize,
    ) -> Result<(), AllocError> {
        let nothing = Cost {
            edges: 0,
            is_timed: false,
        };
        let nowhere = Place {
            to: start,
            index: None,
        };
        self.walk = self.walk.saturating_add(1);
        self.start = start;
        self.covered = 0;
        self.closing = None;
        self.queue.clear();
        self.reach(start, nothing, nowhere)?;
        for turn in 0..graph.len() {
            let Some(to) = self.queue.get(turn) else {
                return Ok(());
            };
            let to = *to;
            let cost = self.cost_to(to);
            if cost.edges >= self.least.edges {
                return Ok(());
            }
            self.follow(graph, to, cost)?;
            self.follow_time(since, to, cost)?;
        }
        Ok(())
    }

    /// The cost of the way to the transaction.
    fn cost_to(&self, txn: usize) -> Cost {
        match self.reaches.get(txn) {
            Some(reach) => reach.cost,
            None => self.least,
        }
    }

    /// The edge by which a walk reached the transaction last.
    fn edge_to(&self, txn: usize) -> Place {
        match self.reaches.get(txn) {
            Some(reach) => reach.by,
            None => Place {
                to: txn,
                index: None,
            },
        }
    }

    /// Follows the edges to a transaction, to which the way has this cost.
    fn follow(&mut self, graph: &[Vec<Link>], to: usize, cost: Cost) -> Result<(), AllocError> {
        let Some(row) = graph.get(to) else {
            return Ok(());
        };
        self.left = self.left.saturating_sub(row.len().saturating_add(1));
        for (index, edge) in row.iter().enumerate() {
            let place = Place {
                to,
                index: Some(index),
            };
            self.meet(edge.from, longer(cost, edge.kind), place)?;
        }
        Ok(())
    }

    /// Follows the edges of real time to a transaction. They come from all transactions up to one,
    /// so that no edge is followed to a transaction that was reached by another one.
    fn follow_time(&mut self, since: &[usize], to: usize, cost: Cost) -> Result<(), AllocError> {
        let end = match since.get(to) {
            Some(end) => *end,
            None => 0,
        };
        let place = Place { to, index: None };
        self.left = self.left.saturating_sub(end.saturating_sub(self.covered));
        for from in self.covered..end {
            self.meet(from, longer(cost, Kind::Began), place)?;
        }
        self.covered = self.covered.max(end);
        Ok(())
    }

    /// Takes an edge that comes from a transaction, if it closes a cycle of a lesser cost, or if it
    /// is on the way to one.
    fn meet(&mut self, from: usize, cost: Cost, by: Place) -> Result<(), AllocError> {
        if from == self.start {
            if cost < self.least {
                self.least = cost;
                self.closing = Some(by);
            }
            Ok(())
        } else if cost.edges < self.least.edges {
            self.reach(from, cost, by)
        } else {
            Ok(())
        }
    }

    /// Reaches a transaction, if the walk has not reached it at this cost.
    fn reach(&mut self, txn: usize, cost: Cost, by: Place) -> Result<(), AllocError> {
        let Some(reach) = self.reaches.get_mut(txn) else {
            return Ok(());
        };
        if reach.walk != self.walk {
            self.queue.push(txn)?;
        } else if reach.cost <= cost {
            return Ok(());
        }
        *reach = Reach {
            walk: self.walk,
            cost,
            by,
        };
        Ok(())
    }

    /// The cycle that the walk closed, from the edge that closed it on.
    fn cycle(
        &self,
        alloc: Global,
        graph: &[Vec<Link>],
        since: &[usize],
    ) -> Result<Option<Vec<Link>>, AllocError>
        ensures { IfOk result (λ found. IfSome found
            (λ edges. IsRing (Leads (since_in since.now) graph.now) edges.items)) }
    {
        let Some(closing) = self.closing else {
            return Ok(None);
        };
        let mut place = closing;
        let mut from = self.start;
        let mut edges = Vec::new(alloc);
        for _ in 0..graph.len() {
            let Some(edge) = edge_at(graph, since, place, from) else {
                return Ok(None);
            };
            edges.push(edge)?;
            from = place.to;
            if from == self.start {
                return Ok(Some(edges));
            }
            place = self.edge_to(from);
        }
        Ok(None)
    }
}

/// The cost with one more edge of this kind.
fn longer(cost: Cost, kind: Kind) -> Cost {
    Cost {
        edges: cost.edges.saturating_add(1),
        is_timed: cost.is_timed || kind == Kind::Began,
    }
}

/// The edge in this place, if there is one and it comes from this transaction.
fn edge_at(graph: &[Vec<Link>], since: &[usize], place: Place, from: usize) -> Option<Link>
    ensures { IfSome result (λ l. (l.from ≡ from)
        × Leads (since_in since.now) graph.now l place.to) }
{
    match place.index {
        Some(index) => listed_edge(graph, place.to, index, from),
        None => edge_of_time(since, place.to, from),
    }
}

/// The edge with this index to a transaction, if there is one and it comes from this other one.
fn listed_edge(graph: &[Vec<Link>], to: usize, index: usize, from: usize) -> Option<Link>
    ensures { IfSome result (λ l. (l.from ≡ from) × HasEdge graph.now l to) }
{
    let row = graph.get(to)?;
    match row.get(index) {
        Some(edge) if edge.from == from => Some(*edge),
        _ => None,
    }
}

/// The edge of real time from one transaction to another, if there is one.
fn edge_of_time(since: &[usize], to: usize, from: usize) -> Option<Link>
    ensures { IfSome result (λ l. (l ≡ time_edge from) × (from < since_in since.now to)) }
{
    match since.get(to) {
        Some(end) if from < *end => Some(time_edge(from)),
        _ => None,
    }
}
