//! Which transactions come before which in every order.
ghost use Rattle.std.specs.Prelude.{◌≡◌, ℕ, List, IfOk, true, false, replicate, slice_index_or};
ghost use Rattle.order_check.specs.declared.access.Access.{Access};
ghost use Rattle.order_check.specs.Known.{AreKnown, Precedes, SetsAt, is_known};
ghost use Rattle.order_check.specs.Timing.{since_in};

use std::alloc::{AllocError, Global};

/// What is known of so many transactions.
#[derive(Drop)]
pub(crate) struct Known {
    /// For each transaction, whether it comes before each other one.
    pub(crate) rows: Vec<Vec<bool>>,
    /// Whether more is known than when this was last false.
    pub(crate) has_grown: bool,
}

impl Known {
    /// Nothing is known of so many transactions.
    pub(crate) fn new(alloc: Global, count: usize) -> Result<Known, AllocError>
        ensures { (n : ℕ) (since : ℕ → ℕ) (accesses : List Access)
            → IfOk result (AreKnown n since accesses) }
    {
        let mut rows = Vec::new(alloc);
        for _ in 0..count {
            rows.push(none_set(alloc, count)?)?;
        }
        Ok(Known {
            rows,
            has_grown: false,
        })
    }

    /// Whether it is known that the first transaction comes before the second one.
    pub(crate) fn is_before(&self, first: usize, second: usize) -> bool
        ensures { result ≡ is_known self.now.rows.items first second }
    {
        match self.rows.get(first) {
            Some(row) => is_set(row, second),
            None => false,
        }
    }

    /// Notes that the first transaction comes before the second one.
    pub(crate) fn learn(&mut self, first: usize, second: usize)
        ensures { (n : ℕ) (since : ℕ → ℕ) (accesses : List Access)
            → AreKnown n since accesses self.old
            → Precedes n since accesses first second → AreKnown n since accesses self.new }
    {
        if first < self.rows.len() && !self.is_before(first, second) {
            set(&mut self.rows[first], second);
            self.has_grown = true;
        }
    }

    /// Notes what real time says. `since` says of each transaction how many had committed when it
    /// began.
    pub(crate) fn learn_times(&mut self, since: &[usize])
        ensures { (n : ℕ) (accesses : List Access)
            → AreKnown n (since_in since.now) accesses self.old
            → AreKnown n (since_in since.now) accesses self.new }
    {
        for second in 0..since.len() {
            let end = since[second];
            self.learn_first(end, second);
        }
    }

    /// Notes that so many transactions, the first ones to commit, come before the second one.
    fn learn_first(&mut self, end: usize, second: usize)
        ensures { (n : ℕ) (since : ℕ → ℕ) (accesses : List Access) → end ≡ since second
            → AreKnown n since accesses self.old → AreKnown n since accesses self.new }
    {
        for first in 0..end {
            self.learn(first, second);
        }
    }

    /// Notes what follows from what is known.
    pub(crate) fn close(&mut self)
        ensures { (n : ℕ) (since : ℕ → ℕ) (accesses : List Access)
            → AreKnown n since accesses self.old
            → AreKnown n since accesses self.new }
    {
        for middle in 0..self.rows.len() {
            self.close_over(middle);
        }
    }

    /// Notes what follows by this transaction in the middle.
    fn close_over(&mut self, middle: usize)
        ensures { (n : ℕ) (since : ℕ → ℕ) (accesses : List Access)
            → AreKnown n since accesses self.old
            → AreKnown n since accesses self.new }
    {
        for first in 0..self.rows.len() {
            if self.is_before(first, middle) {
                self.follow(first, middle);
            }
        }
    }

    /// Notes that the first transaction comes before those that come after the one in the middle.
    fn follow(&mut self, first: usize, middle: usize)
        requires { is_known self.old.rows.items first middle ≡ true }
        ensures { (n : ℕ) (since : ℕ → ℕ) (accesses : List Access)
            → AreKnown n since accesses self.old
            → AreKnown n since accesses self.new }
    {
        for second in 0..self.rows.len() {
            if self.is_before(middle, second) {
                self.learn(first, second);
            }
        }
    }
}

/// A row of so many times false.
fn none_set(alloc: Global, count: usize) -> Result<Vec<bool>, AllocError>
    ensures { IfOk result (λ row. row.items ≡ replicate count false) }
{
    vec![in alloc; false; count]
}

/// Whether the row has true at this index.
fn is_set(row: &[bool], index: usize) -> bool
    ensures { result ≡ slice_index_or row.now index false }
{
    match row.get(index) {
        Some(is_set) => *is_set,
        None => false,
    }
}

/// Sets the row to true at this index.
fn set(row: &mut Vec<bool>, index: usize)
    ensures { SetsAt index row.old.items row.new.items }
{
    if index < row.len() {
        row[index] = true;
    }
}
