//! A search for a serial order, for histories in which several transactions may have written what
//! was read.
//!
//! It keeps the values of the keys, and places one transaction after another. A transaction *fits*
//! if the keys have what it needs. It is *safe* if no other one that is left needs what it
//! replaces: if those that are left have a serial order, they have one in which it comes first. So
//! one that fits and is safe is placed at once. Where there is none, the search tries each one that
//! fits, in the order of the commits, if what it replaces can come back. The keys' values depend
//! only on the set of the placed transactions, so no set is tried twice. A transaction fits only when
//! all that had committed when it began are placed.
//!
//! Nothing is proved of what is found, except that the search ends. The judge tests it.

use crate::access::Access;
use crate::placing::{Placing, Standing};
use std::alloc::{AllocError, Global};
use std::collections::HashSet;

/// The number of steps that a search may take in vain for each branch that it may take. A step places
/// a transaction, or goes back to the last choice.
const STEPS_OF_A_BRANCH: usize = 64;

/// The number of transactions among which a step looks.
const WINDOW: usize = 256;

/// A transaction that was placed.
#[derive(Clone, Copy)]
struct Choice {
    txn: usize,
    /// Whether it was safe. Then no other one need be tried in its place.
    is_safe: bool,
}

/// How far the search has come.
#[derive(Drop)]
struct Search {
    placing: Placing,
    /// The transactions that are placed, in their order.
    path: Vec<Choice>,
    /// The transaction after which the next one is looked for, or `Placing::head`.
    after: usize,
    /// The sum of the weights of the transactions that are placed.
    sum: u64,
    /// The sums that were met.
    met: HashSet<u64>,
    /// The number of branches that may still be taken.
    branches_left: usize,
}

/// Searches for an order, and returns for each access the index of the access that writes what it
/// needs there, or `None` if the key is as it was at the beginning. The whole is `None` if no order
/// is found. `since` says of each transaction how many had committed when it began.
///
/// A *branch* goes back to the last choice, to try the next one. The search ends after so many
/// branches, or after 64 steps in vain for each of them.
///
/// # Errors
///
/// `AllocError` if memory is refused.
///
/// # Cost
///
/// Time and memory in proportion to the number of transactions, accesses and branches.
pub(crate) fn find_writers(
    alloc: Global,
    most_branches: usize,
    count: usize,
    since: &[usize],
    accesses: &[Access],
) -> Result<Option<Vec<Option<usize>>>, AllocError> {
    let placing = Placing::new(alloc, count, since, accesses)?;
    let mut search = Search {
        after: placing.head(),
        placing,
        path: Vec::new(alloc),
        sum: 0,
        met: HashSet::new(alloc),
        branches_left: most_branches,
    };
    let vain = most_branches.saturating_mul(STEPS_OF_A_BRANCH);
    for _ in 0..count.saturating_add(vain).saturating_add(1) {
        if search.path.len() == count {
            return Ok(Some(search.writers(alloc, accesses)?));
        }
        if !search.step()? {
            return Ok(None);
        }
    }
    Ok(None)
}

impl Search {
    /// Places one more transaction, or goes back to the last choice. Returns false if no choice or no
    /// branch is left.
    fn step(&mut self) -> Result<bool, AllocError> {
        let Some(choice) = self.choose() else {
            return Ok(self.go_back());
        };
        self.path.push(choice)?;
        self.placing.place(choice.txn);
        self.after = self.placing.head();
        self.sum = self.sum.wrapping_add(weight(choice.txn));
        if self.met.insert(self.sum)? {
            return Ok(true);
        }
        Ok(self.go_back())
    }

    /// The transaction to place next.
    fn choose(&self) -> Option<Choice> {
        let is_new = self.after == self.placing.head();
        let mut found = None;
        let mut txn = self.placing.next(self.after);
        for _ in 0..WINDOW {
            if txn == self.placing.head() {
                return found;
            }
            match self.placing.standing(txn) {
                Standing::Safe if is_new => return Some(Choice { txn, is_safe: true }),
                Standing::Open if found.is_none() => found = Some(Choice {
                    txn,
                    is_safe: false,
                }),
                _ => {}
            }
            txn = self.placing.next(txn);
        }
        found
    }

    /// Goes back to the last choice among several, by a branch. Returns false if there is none.
    fn go_back(&mut self) -> bool {
        let Some(left) = self.branches_left.checked_sub(1) else {
            return false;
        };
        self.branches_left = left;
        while let Some(choice) = self.path.pop() {
            self.placing.take_back(choice.txn);
            self.sum = self.sum.wrapping_sub(weight(choice.txn));
            if !choice.is_safe {
                self.after = choice.txn;
                return true;
            }
        }
        false
    }

    /// For each access, the index of the access that writes what it needs.
    fn writers(
        &self,
        alloc: Global,
        accesses: &[Access],
    ) -> Result<Vec<Option<usize>>, AllocError> {
        let mut writers = vec![in alloc; None; accesses.len()]?;
        let mut latest = vec![in alloc; None; self.placing.values()]?;
        for choice in &self.path {
            self.placing.trace(choice.txn, &mut latest, &mut writers);
        }
        Ok(writers)
    }
}

/// A number that is not like those of other transactions.
fn weight(txn: usize) -> u64 {
    let x = (txn as u64)
        .wrapping_add(1)
        .wrapping_mul(0x9e37_79b9_7f4a_7c15);
    let y = (x ^ (x >> 30)).wrapping_mul(0xbf58_476d_1ce4_e5b9);
    y ^ (y >> 27)
}
