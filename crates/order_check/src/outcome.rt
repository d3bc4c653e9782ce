//! The judge: finds an order of transactions, or shows why there is none.
ghost use Rattle.std.specs.Prelude.{◌≡◌, IfOk, IfSome, IsNone, true, false};
ghost use Rattle.std.specs.List.{All};
ghost use Rattle.order_check.specs.Outcomes.{AreAccesses, AreCertain, AreOnce, ArePlain};
ghost use Rattle.order_check.specs.Outcomes.{IsInTurn, IsOutcome, IsOnce, IsRepeated, is_once};
ghost use Rattle.std.specs.List.{range_with_len};
ghost use Rattle.order_check.specs.Footprints.{no_values};
ghost use Rattle.order_check.specs.InTurn.{RunInTurn};
ghost use Rattle.order_check.specs.Timing.{IsTiming, since_in};

use crate::access::Access;
use crate::choice::{Choice, choose_sources, find_sources};
use crate::edge::{Edge, Kind};
use crate::edges::make_graph;
use crate::exclusion::find_impossible;
use crate::in_turn::run_in_turn;
use crate::link::{Link, edge_of, edges_of, version_of};
use crate::replacers::make_replacers;
use crate::search::Found;
use crate::shortest::find_shortest;
use crate::table::{Doer, Version, make_writers};
use std::alloc::{AllocError, Global};
use std::collections::HashMap;

/// What the judge found.
#[derive(Drop)]
pub(crate) enum Outcome {
    /// In this order each transaction finds what it needs.
    Order(Vec<usize>),
    /// There is no order: no transaction writes the value that this access needs.
    Unwritten(Access),
    /// There is no order: in each order these edges would go forward, and they form a circle.
    Cycle(Vec<Edge>),
    /// There is no order: in none does this access get what it needs.
    Impossible(Access),
    /// The judge does not know. It found a circle with this edge, but the value of the edge comes
    /// more than once.
    Ambiguous(Edge),
}

/// Judges the accesses of so many transactions. Their sources mean nothing, and are chosen. `since`
/// says of each transaction how many of them had committed when it began, or 0 if real time does not
/// count. If the transactions find what they need in the order of their numbers, this order is the
/// outcome. A search for another order takes at most so many branches.
pub(crate) fn judge(
    alloc: Global,
    most_branches: usize,
    count: usize,
    since: &[usize],
    accesses: &[Access],
) -> Result<Outcome, AllocError>
    requires plain { ArePlain count accesses.now }
    requires timing { IsTiming count since.now }
    ensures outcome { IfOk result (IsOutcome count (since_in since.now) accesses.now) }
    ensures in_turn { RunInTurn no_values accesses.now → IfOk result (IsInTurn count) }
{
    if run_in_turn(alloc, accesses)? {
        return Ok(Outcome::Order(places(alloc, count)?));
    }
    judge_out_of_turn(alloc, most_branches, count, since, accesses)
}

/// The numbers of so many transactions, in rising order.
fn places(alloc: Global, count: usize) -> Result<Vec<usize>, AllocError>
    ensures { IfOk result (λ order. order.items ≡ range_with_len 0 count) }
{
    let mut order = Vec::with_capacity(alloc, count)?;
    for place in 0..count {
        order.push(place)?;
    }
    Ok(order)
}

/// Judges the accesses by a graph, and by a search where the graph does not tell.
fn judge_out_of_turn(
    alloc: Global,
    most_branches: usize,
    count: usize,
    since: &[usize],
    accesses: &[Access],
) -> Result<Outcome, AllocError>
    requires plain { ArePlain count accesses.now }
    requires timing { IsTiming count since.now }
    ensures { IfOk result (IsOutcome count (since_in since.now) accesses.now) }
{
    match judge_plain(alloc, count, since, accesses)? {
        Outcome::Ambiguous(edge) => judge_found(alloc, most_branches, count, since, accesses, edge),
        outcome => Ok(outcome),
    }
}

/// Judges the accesses by the sources that a search finds. If it finds none, by those that are
/// excluded.
fn judge_found(
    alloc: Global,
    most_branches: usize,
    count: usize,
    since: &[usize],
    accesses: &[Access],
    edge: Edge,
) -> Result<Outcome, AllocError>
    requires plain { ArePlain count accesses.now }
    requires timing { IsTiming count since.now }
    requires repeated { IsRepeated accesses.now (edge.key, edge.value) }
    ensures { IfOk result (IsOutcome count (since_in since.now) accesses.now) }
{
    match find_sources(alloc, most_branches, count, since, accesses)? {
        Some(sourced) => judge_sourced(alloc, count, since, &sourced),
        None => judge_excluding(alloc, count, since, accesses, edge),
    }
}

/// Judges the accesses by the sources that are excluded. If too few are, the outcome is that the
/// edge is ambiguous.
fn judge_excluding(
    alloc: Global,
    count: usize,
    since: &[usize],
    accesses: &[Access],
    edge: Edge,
) -> Result<Outcome, AllocError>
    requires plain { ArePlain count accesses.now }
    requires timing { IsTiming count since.now }
    requires repeated { IsRepeated accesses.now (edge.key, edge.value) }
    ensures { IfOk result (IsOutcome count (since_in since.now) accesses.now) }
{
    match find_impossible(alloc, count, since, accesses)? {
        Some(access) => Ok(Outcome::Impossible(access)),
        None => Ok(Outcome::Ambiguous(edge)),
    }
}

/// Judges the accesses by a graph.
fn judge_plain(
    alloc: Global,
    count: usize,
    since: &[usize],
    accesses: &[Access],
) -> Result<Outcome, AllocError>
    requires plain { ArePlain count accesses.now }
    requires timing { IsTiming count since.now }
    ensures { IfOk result (IsOutcome count (since_in since.now) accesses.now) }
{
    match choose_sources(alloc, accesses)? {
        Choice::Sourced(sourced) => judge_sourced(alloc, count, since, &sourced),
        Choice::Unwritten(access) => Ok(Outcome::Unwritten(access)),
    }
}

/// Judges accesses with their sources.
fn judge_sourced(
    alloc: Global,
    count: usize,
    since: &[usize],
    accesses: &[Access],
) -> Result<Outcome, AllocError>
    requires are { AreAccesses count accesses.now }
    requires timing { IsTiming count since.now }
    ensures { IfOk result (IsOutcome count (since_in since.now) accesses.now) }
{
    let replacers = make_replacers(alloc, accesses)?;
    let graph = make_graph(alloc, count, since, &replacers, accesses)?;
    match find_shortest(alloc, &graph, since)? {
        Found::Order(order) => Ok(Outcome::Order(order)),
        Found::Cycle(edges) => {
            let writers = make_writers(alloc, accesses)?;
            match first_repeated(accesses, &writers, &edges) {
                Some(edge) => {
                    let certain = keep_once(alloc, accesses, &writers, &graph)?;
                    match find_shortest(alloc, &certain, since)? {
                        Found::Cycle(edges) => {
                            Ok(Outcome::Cycle(edges_of(alloc, accesses, &edges)?))
                        }
                        Found::Order(_) => Ok(Outcome::Ambiguous(edge_of(accesses, &edge))),
                    }
                }
                None => Ok(Outcome::Cycle(edges_of(alloc, accesses, &edges)?)),
            }
        }
    }
}

/// The edges that hold in every order.
fn keep_once(
    alloc: Global,
    accesses: &[Access],
    writers: &HashMap<Version, Doer>,
    graph: &[Vec<Link>],
) -> Result<Vec<Vec<Link>>, AllocError>
    ensures { IfOk result (λ kept. AreCertain accesses.now writers.now graph.now kept.items) }
{
    let mut kept = Vec::with_capacity(alloc, graph.len())?;
    for row in graph {
        kept.push(keep_in(alloc, accesses, writers, row)?)?;
    }
    Ok(kept)
}

/// The edges of one transaction that hold in every order.
fn keep_in(
    alloc: Global,
    accesses: &[Access],
    writers: &HashMap<Version, Doer>,
    row: &[Link],
) -> Result<Vec<Link>, AllocError>
    ensures { IfOk result (λ kept. AreOnce accesses.now writers.now row.now kept.items) }
{
    let mut kept = Vec::new(alloc);
    for edge in row {
        if is_once(accesses, writers, edge) {
            kept.push(*edge)?;
        }
    }
    Ok(kept)
}

/// The first edge that need not hold in every order: its value comes more than once.
fn first_repeated(
    accesses: &[Access],
    writers: &HashMap<Version, Doer>,
    edges: &[Link],
) -> Option<Link>
    ensures none { IsNone result → All (IsOnce accesses.now writers.now) edges.now }
    ensures some { IfSome result (λ l. is_once accesses.now writers.now l ≡ false) }
{
    for edge in edges {
        if !is_once(accesses, writers, edge) {
            return Some(*edge);
        }
    }
    None
}

/// Whether the value of an edge comes only once, or it is an edge of real time. Then it holds in every
/// order.
fn is_once(accesses: &[Access], writers: &HashMap<Version, Doer>, edge: &Link) -> bool
    ensures { result ≡ is_once accesses.now writers.now edge.now }
{
    if let Kind::Began = edge.kind {
        return true;
    }
    let version = version_of(accesses, edge);
    match writers.get(&version) {
        Some(doer) => version.1.is_some() && doer.is_only,
        None => true,
    }
}
