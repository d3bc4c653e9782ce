//! The judge by any order beside a plain judge that tries all orders. Its verdicts on worked
//! histories are in `verdicts`.
//!
//! The drawn store has no locks. Its transactions read what is committed when they ask, put the
//! same values again, take keys, go back to savepoints, and abort. To some it lies.
use super::generated::{self, Draws, Way};
use super::plain;
use order_check::{Options, Reason, Verdict, check};
use std::alloc::{AllocError, Global};
use std::collections::BTreeMap;
use std::process::Abort;
use std::test::Fail;
use txn_words::Entry;

/// A committed transaction: its number and its entries.
#[derive(Drop)]
struct Txn {
    number: u64,
    entries: Vec<Entry>,
}

/// The transaction that the caller began last, with the number of its Began entry.
fn last_of(alloc: Global, entries: &[Entry], caller: u64) -> Result<Txn, AllocError> {
    let entries = plain::last_of(alloc, caller, entries)?;
    let number = match entries.first() {
        Some(Entry::Began(_, number)) => *number,
        _ => 0,
    };
    Ok(Txn { number, entries })
}

/// The committed transactions.
fn committed_in(alloc: Global, entries: &[Entry]) -> Result<Vec<Txn>, AllocError> {
    let mut txns = Vec::new(alloc);
    for end in 0..entries.len() {
        if let Entry::Committed(caller, _) = entries[end] {
            txns.push(last_of(alloc, &entries[..end], caller)?)?;
        }
    }
    Ok(txns)
}

/// Whether this is an order of all transactions in which each has its replies.
fn is_serial(alloc: Global, txns: &[Txn], order: &[u64]) -> Result<bool, AllocError> {
    let mut values = BTreeMap::new(alloc);
    for number in order {
        let Some(txn) = txns.iter().find(|txn| txn.number == *number) else {
            return Ok(false);
        };
        match plain::run_alone(&values, &txn.entries, alloc)? {
            Some(left) => values = left,
            None => return Ok(false),
        }
    }
    Ok(order.len() == txns.len() && txns.iter().all(|txn| order.contains(&txn.number)))
}

/// An order of the transactions. Below the number of orders, each index has another one.
fn order_at(alloc: Global, txns: &[Txn], index: usize) -> Result<Vec<u64>, AllocError> {
    let mut left = Vec::new(alloc);
    for txn in txns {
        left.push(txn.number)?;
    }
    let mut index = index;
    let mut order = Vec::new(alloc);
    for _ in txns {
        let count = left.len();
        if count > 0 {
            order.push(left.remove(index % count))?;
            index /= count;
        }
    }
    Ok(order)
}

/// Whether one of all orders is serial, or one of 720 if there are more.
fn has_order(alloc: Global, txns: &[Txn]) -> Result<bool, AllocError> {
    let orders = match txns.len() {
        0 | 1 => 1,
        2 => 2,
        3 => 6,
        4 => 24,
        5 => 120,
        _ => 720,
    };
    for index in 0..orders {
        let order = order_at(alloc, txns, index)?;
        if is_serial(alloc, txns, &order)? {
            return Ok(true);
        }
    }
    Ok(false)
}

/// How many verdicts there were of each kind.
#[derive(Drop, Debug, Default)]
struct Tally {
    orders: u64,
    torn: u64,
    unwritten: u64,
    impossible: u64,
    cycles: u64,
    undecided: u64,
}

/// Adds one.
fn add_one(count: &mut u64) {
    *count = count.wrapping_add(1);
}

/// Checks the verdict on a history. It must not be against the plain judge.
fn judge_beside(
    rt: &impl Abort,
    alloc: Global,
    entries: &[Entry],
    tally: &mut Tally,
) -> Result<(), AllocError> {
    assert!(rt; entries.iter().all(|entry| entry.caller() < 64));
    let txns = committed_in(alloc, entries)?;
    match check(alloc, Options::new(false), entries)? {
        Verdict::Serializable(order) => {
            let is_right = is_serial(alloc, &txns, &order)?;
            assert!(rt; is_right, "{entries:?}: {order:?}");
            add_one(&mut tally.orders);
        }
        Verdict::NotSerializable(reason) => {
            let is_wrong = has_order(alloc, &txns)?;
            assert!(rt; !is_wrong, "{entries:?}: {reason:?}");
            match reason {
                Reason::Shape(_) => assert!(rt; false, "{entries:?}"),
                Reason::Torn(_) => add_one(&mut tally.torn),
                Reason::Unwritten(..) => add_one(&mut tally.unwritten),
                Reason::Impossible(..) => add_one(&mut tally.impossible),
                Reason::Cycle(_) => add_one(&mut tally.cycles),
            }
        }
        Verdict::Undecided(_key, _value, writers) => {
            assert!(rt; !writers.is_empty(), "{entries:?}");
            add_one(&mut tally.undecided);
        }
    }
    Ok(())
}

#[test]
fn drawn_histories_beside_all_orders(rt: HostRuntime) -> Result<(), Fail> {
    let alloc = rt.alloc();
    let mut tally = Tally::default();
    for seed in 0..256 {
        let lies = if seed % 4 == 0 { 12 } else { 0 };
        let entries = generated::history(alloc, &mut Draws(seed), Way::Unlocked(lies), 50)?;
        judge_beside(&rt, alloc, &entries, &mut tally)?;
    }
    let seen = [tally.orders, tally.torn, tally.unwritten, tally.cycles];
    assert!(rt; seen.iter().all(|count| *count > 0), "{tally:?}");
    // At most one verdict in 100 is undecided.
    assert!(rt; tally.undecided <= 2, "{tally:?}");
    Ok(())
}
