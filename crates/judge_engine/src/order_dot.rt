//! The graph of a cycle, for Graphviz' `dot`. `specs/DotLines.antt` defines the text.
ghost use Rattle.std.specs.Prelude.{◌≡◌, ◌++◌, OnOk, slice_get, string_bytes};
ghost use Rattle.judge_engine.specs.DotLines.{arrow_line, class_line, cycle_dots, edge_dots};
ghost use Rattle.judge_engine.specs.DotLines.{node_line, reason_dots, verdict_dots};
ghost use Rattle.judge_engine.specs.OrderLines.{each_edge, from_or};

use crate::class::{TimeSuffix, class_of, has_time};
use crate::order_lines::{FirstDid, SecondDid, Which, from_at};
use crate::order_why::{Named, beginner_in};
use order_check::{Edge, Reason, Verdict};
use std::alloc::AllocError;
use txn_trace::SmallEntry;

/// Adds a transaction, as a node.
fn put_node(text: &mut String, entries: &[SmallEntry], txn: u64) -> Result<(), AllocError>
    ensures { OnOk result (string_bytes text.new
        ≡ string_bytes text.old ++ node_line entries.now txn) }
{
    let name = Named(txn, beginner_in(entries, txn));
    writeln!(text, "  {txn} [label=\"{name}\"];")
}

/// Adds an edge to the transaction `to`, with a label of two lines.
fn put_arrow(text: &mut String, edge: Edge, to: u64) -> Result<(), AllocError>
    ensures { OnOk result (string_bytes text.new
        ≡ string_bytes text.old ++ arrow_line edge to) }
{
    writeln!(
        text,
        "  {} -> {to} [label=\"{}{}\\n{}{to}{}\"];",
        edge.from,
        edge.from,
        FirstDid(edge),
        Which(edge.kind),
        SecondDid(edge.kind),
    )
}

/// Adds the transaction from which an edge comes, and the edge, which leads to `to`.
fn put_edge(
    text: &mut String,
    entries: &[SmallEntry],
    edge: Edge,
    to: u64,
) -> Result<(), AllocError>
    ensures { OnOk result (string_bytes text.new
        ≡ string_bytes text.old ++ edge_dots entries.now edge to) }
{
    put_node(text, entries, edge.from)?;
    put_arrow(text, edge, to)
}

/// Adds edges, each with the transaction from which it comes. Each edge leads to the transaction
/// from which the next one comes, and the last one leads to `end`.
fn put_edges(
    text: &mut String,
    entries: &[SmallEntry],
    edges: &[Edge],
    end: u64,
) -> Result<(), AllocError>
    ensures { OnOk result (string_bytes text.new
        ≡ string_bytes text.old ++ each_edge (edge_dots entries.now) edges.now end) }
{
    for (index, edge) in edges.iter().enumerate() {
        let to = from_at(edges, index + 1, end);
        put_edge(text, entries, *edge, to)?;
    }
    Ok(())
}

/// Adds the class of a cycle, and its edges.
fn put_cycle(text: &mut String, entries: &[SmallEntry], edges: &[Edge]) -> Result<(), AllocError>
    ensures { OnOk result (string_bytes text.new
        ≡ string_bytes text.old ++ cycle_dots entries.now edges.now) }
{
    let suffix = TimeSuffix(has_time(edges));
    writeln!(text, "  label=\"{}{suffix}\";", class_of(edges))?;
    put_edges(text, entries, edges, from_at(edges, 0, 0))
}

/// Adds the nodes and edges of a reason's graph.
fn put_reason(text: &mut String, entries: &[SmallEntry], reason: &Reason) -> Result<(), AllocError>
    ensures { OnOk result (string_bytes text.new
        ≡ string_bytes text.old ++ reason_dots entries.now reason.now) }
{
    match reason {
        Reason::Cycle(edges) => put_cycle(text, entries, edges),
        Reason::Shape(_) | Reason::Torn(_) | Reason::Unwritten(..) | Reason::Impossible(..) => {
            Ok(())
        }
    }
}

/// Adds the nodes and edges of a verdict's graph.
pub(crate) fn put_graph(
    text: &mut String,
    entries: &[SmallEntry],
    verdict: &Verdict,
) -> Result<(), AllocError>
    ensures { OnOk result (string_bytes text.new
        ≡ string_bytes text.old ++ verdict_dots entries.now verdict.now) }
{
    match verdict {
        Verdict::NotSerializable(reason) => put_reason(text, entries, reason),
        Verdict::Serializable(_) | Verdict::Undecided(..) => Ok(()),
    }
}
