//! The edges that accesses and real time give.
ghost use Rattle.std.specs.Prelude.{◌≡◌, ◌<◌, IfOk, OnOk, slice_get, Some, vec_len};
ghost use Rattle.order_check.specs.Joined.{EdgesOne, AreReplacers, AreSourced, source_in};
ghost use Rattle.order_check.specs.Outcomes.{AreAccesses};
ghost use Rattle.order_check.specs.Tables.{AreBelow};
ghost use Rattle.order_check.specs.Timing.{IsGraphOf, IsTiming, since_in};

use crate::access::Access;
use crate::edge::Kind;
use crate::graph::{add, no_edges};
use crate::link::Link;
use crate::replacers::Replacers;
use crate::timing::add_times;
use std::alloc::{AllocError, Global};

/// The edges of so many transactions. Those of real time come last. `since` says of each transaction
/// how many had committed when it began.
pub(crate) fn make_graph(
    alloc: Global,
    count: usize,
    since: &[usize],
    replacers: &Replacers,
    accesses: &[Access],
) -> Result<Vec<Vec<Link>>, AllocError>
    requires are { AreAccesses count accesses.now }
    requires timing { IsTiming count since.now }
    requires told { AreReplacers accesses.now replacers.now }
    ensures { IfOk result (λ graph. IsGraphOf count (since_in since.now) accesses.now
        replacers.now graph.items) }
{
    let rooms = count_edges(alloc, count, replacers, accesses)?;
    let mut graph = no_edges(alloc, count, &rooms)?;
    for index in 0..accesses.len() {
        let access = accesses[index];
        add_edges(&mut graph, accesses, replacers, index, &access)?;
    }
    add_times(alloc, &mut graph, since)?;
    Ok(graph)
}

/// How many edges `add_edges` adds to each of so many transactions. So a row is made with room for
/// all of its own, and does not grow.
fn count_edges(
    alloc: Global,
    count: usize,
    replacers: &Replacers,
    accesses: &[Access],
) -> Result<Vec<usize>, AllocError> {
    let mut rooms = vec![in alloc; 0; count]?;
    for access in accesses {
        if access.source.is_some() {
            count_up(&mut rooms, access.txn);
        }
        if let Some(first) = replacers.replacer(access)
            && first != access.txn
        {
            count_up(&mut rooms, first);
            if access.need != access.left {
                count_up(&mut rooms, access.txn);
            }
        }
    }
    Ok(rooms)
}

/// Counts one more edge of a transaction.
fn count_up(rooms: &mut Vec<usize>, txn: usize) {
    if let Some(room) = rooms.get_mut(txn) {
        *room = room.saturating_add(1);
    }
}

/// The transaction of an access's source.
fn source_txn(accesses: &[Access], access: &Access) -> Option<usize>
    ensures { result ≡ source_in accesses.now access.now.source }
{
    match accesses.get(access.source?) {
        Some(by) => Some(by.txn),
        None => None,
    }
}

/// Adds the edges that the access with this index gives.
fn add_edges(
    graph: &mut Vec<Vec<Link>>,
    accesses: &[Access],
    replacers: &Replacers,
    index: usize,
    access: &Access,
) -> Result<(), AllocError>
    requires here { slice_get accesses.now index ≡ Some access.now }
    requires range { access.now.txn < vec_len graph.old }
    requires doers { AreBelow replacers.now (vec_len graph.old) }
    ensures { OnOk result (AreReplacers accesses.now replacers.now → AreSourced accesses.now
        → EdgesOne accesses.now replacers.now access.now graph.old.items graph.new.items) }
{
    if let Some(source) = source_txn(accesses, access) {
        let edge = Link {
            from: source,
            kind: Kind::Read,
            index,
        };
        add(graph, access.txn, edge)?;
    }
    if let Some(first) = replacers.replacer(access) {
        if first != access.txn {
            let edge = Link {
                from: access.txn,
                kind: Kind::Replaced,
                index,
            };
            add(graph, first, edge)?;
            if access.need != access.left {
                let back = Link {
                    from: first,
                    kind: Kind::Replaced,
                    index,
                };
                add(graph, access.txn, back)?;
            }
        }
    }
    Ok(())
}
