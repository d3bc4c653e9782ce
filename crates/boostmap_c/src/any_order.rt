//! Judges an array of entries by any order of their transactions.
ghost use Rattle.std.specs.Prelude.{◌≡◌, ◌==◌, ◌<◌, not, Some, IfOk, IfErr, OnOk, map};
ghost use Rattle.std.specs.List.{All};
ghost use Rattle.txn_words.specs.Kinds.{caller_of};
ghost use Rattle.boostmap_c.specs.Entries.{IsUnreadable, judged_entry};
ghost use Rattle.boostmap_c.specs.AnyOrders.{JudgesAny, LaysLinks, finding, finding_of, link_of, links_of, number_of, placed};

use crate::c_entry::CEntry;
use crate::status::{DONE, NO_ENTRY, SHORT, refused};
use crate::striped_run::CReply;
use order_check::{Edge, Kind, Options, Reason, Verdict, check};
use std::alloc::Global;
use striped_map::ReplyForm;
use txn_trace::{Entry, Refusal};

/// A transaction of a serial order or of a cycle. In a cycle each must come before the next one, and
/// the last before the first.
#[repr(C)]
#[derive(Clone, Copy)]
pub struct CLink {
    /// The number of the transaction.
    pub transaction: u64,
    /// In a cycle, why it must come before the next one: 1 if that one read the value that it left, 2
    /// if that one replaced the value that it read. In an order 0, as the other members.
    pub kind: u64,
    /// The key of the value.
    pub key: u64,
    /// The value, or 0.
    pub value: u64,
    /// 0 if the key had no value, else 1.
    pub has: u64,
}

/// What the judge found.
#[repr(C)]
#[derive(Clone, Copy)]
pub struct CFinding {
    /// 0: the history is serializable. It is not: 1 by an entry of the wrong shape, 2 by replies of
    /// one transaction that contradict one another, 3 by a value that no committed transaction
    /// leaves, 4 by a value that no order gives, 5 by a cycle. 6: the judge does not know.
    pub kind: u64,
    /// For 1 the index of the entry, from 0. For 2, 3 and 4 the transaction. Else 0.
    pub number: u64,
    /// For 3, 4 and 6 the key, else 0.
    pub key: u64,
    /// For 3, 4 and 6 the value, or 0.
    pub value: u64,
    /// For 3, 4 and 6, 1 if there is a value. Else 0.
    pub has: u64,
    /// For 0 and 5, how many transactions the order or the cycle has. Else 0.
    pub count: u64,
}

/// A transaction of an order.
fn placed(transaction: u64) -> CLink
    ensures { result ≡ placed transaction }
{
    CLink {
        transaction,
        kind: 0,
        key: 0,
        value: 0,
        has: 0,
    }
}

/// A transaction of a cycle.
fn link_of(edge: Edge) -> CLink
    ensures { result ≡ link_of edge }
{
    let had = CReply::of(edge.value);
    let kind = match edge.kind {
        Kind::Read => 1,
        Kind::Replaced => 2,
        Kind::Began => 3,
    };
    CLink {
        transaction: edge.from,
        kind,
        key: edge.key,
        value: had.value,
        has: had.has,
    }
}

/// The numbers of a finding.
fn finding(kind: u64, number: u64, key: u64, value: Option<u64>, count: u64) -> CFinding
    ensures { result ≡ finding kind number key value count }
{
    let had = CReply::of(value);
    CFinding {
        kind,
        number,
        key,
        value: had.value,
        has: had.has,
        count,
    }
}

/// The finding of a verdict.
fn finding_of(verdict: &Verdict) -> CFinding
    ensures { result ≡ finding_of verdict.now }
{
    match verdict {
        Verdict::Serializable(order) => finding(0, 0, 0, None, order.len() as u64),
        Verdict::NotSerializable(Reason::Shape(entry)) => finding(1, *entry, 0, None, 0),
        Verdict::NotSerializable(Reason::Torn(txn)) => finding(2, *txn, 0, None, 0),
        Verdict::NotSerializable(Reason::Unwritten(txn, key, value)) => {
            finding(3, *txn, *key, *value, 0)
        }
        Verdict::NotSerializable(Reason::Impossible(txn, key, value)) => {
            finding(4, *txn, *key, *value, 0)
        }
        Verdict::NotSerializable(Reason::Cycle(edges)) => {
            finding(5, 0, 0, None, edges.len() as u64)
        }
        Verdict::Undecided(key, value, writers) => {
            finding(6, 0, *key, *value, writers.len() as u64)
        }
    }
}

/// If the array has room for the transactions of an order, writes them to its front. Returns the
/// status.
fn lay_order(order: &[u64], links: &mut [CLink]) -> u32
    ensures { LaysLinks (map placed order.now) result links.old links.new }
{
    if order.len() > links.len() {
        return SHORT;
    }
    'lays: for i in 0..order.len() {
        links[i] = placed(order[i]);
    }
    DONE
}

/// If the array has room for the transactions of a cycle, writes them to its front. Returns the
/// status.
fn lay_cycle(edges: &[Edge], links: &mut [CLink]) -> u32
    ensures { LaysLinks (map link_of edges.now) result links.old links.new }
{
    if edges.len() > links.len() {
        return SHORT;
    }
    'lays: for i in 0..edges.len() {
        links[i] = link_of(edges[i]);
    }
    DONE
}

/// If the array has room for the transactions that a verdict names, writes them to its front.
/// Returns the status.
fn lay_links(verdict: &Verdict, links: &mut [CLink]) -> u32
    ensures { LaysLinks (links_of verdict.now) result links.old links.new }
{
    match verdict {
        Verdict::Serializable(order) => lay_order(order, links),
        Verdict::NotSerializable(Reason::Cycle(edges)) => lay_cycle(edges, links),
        Verdict::Undecided(_, _, writers) => lay_order(writers, links),
        _ => DONE,
    }
}

/// The entries that C's numbers stand for. On an error, returns the status.
fn read_history(alloc: Global, entries: &[CEntry]) -> Result<Vec<Entry>, u32>
    ensures ok { IfOk result (λ history. map Some history.items ≡ map judged_entry entries.now) }
    ensures callers { IfOk result (λ history. All (λ entry. caller_of entry < 64) history.items) }
    ensures err { IfErr result (IsUnreadable judged_entry entries.now) }
{
    let mut history = Vec::new(alloc);
    if history.reserve(entries.len()).is_err() {
        return Err(refused(Refusal::NoMemory));
    }
    'reads: for i in 0..entries.len() {
        match entries[i].judged() {
            Some(entry) => history.push_reserved(entry),
            None => return Err(NO_ENTRY),
        }
    }
    Ok(history)
}

/// Judges whether the history of these entries is serializable, by any order of its transactions. If
/// `real_time` is not 0, a transaction must also come after all that had committed when it began. If
/// there is a serial order, writes it to the front of the array. If each order is excluded by a cycle,
/// writes the cycle. If it is undecided, writes the transactions that write the value.
///
/// # Errors
///
/// The status is one of these:
///
/// - 7 if the array has too few places for the transactions. The finding is written, and has
///   the number of places that are needed. The array is unchanged.
/// - 8 if the numbers of an entry stand for no entry of a caller below 64. Nothing is written.
/// - 30 (`NoMemory`) if memory is refused. Nothing is written.
///
/// # Cost
///
/// The cost of `order_check::check`, and memory for the entries while it runs.
#[unsafe(no_mangle)]
pub extern "C" fn boostmap_judge_any_order(
    alloc: Global,
    entries: &[CEntry],
    real_time: u32,
    links: &mut [CLink],
    finding: &mut CFinding,
) -> u32
    ensures { JudgesAny (not (real_time == 0)) entries.now result links.old links.new finding.old finding.new }
{
    let history = match read_history(alloc, entries) {
        Ok(history) => history,
        Err(status) => return status,
    };
    let options = Options::new(real_time != 0);
    let Ok(verdict) = check(alloc, options, &history) else {
        return refused(Refusal::NoMemory);
    };
    *finding = finding_of(&verdict);
    lay_links(&verdict, links)
}
