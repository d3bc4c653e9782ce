//! The values of the keys after the transactions that are placed, and the transactions that are
//! left.

use crate::access::Access;
use crate::table::Version;
use std::alloc::{AllocError, Global};
use std::collections::HashMap;

/// An access, with its key and its values by number.
#[derive(Clone, Copy)]
struct Step {
    /// The number of the key's absence, which stands for the key.
    key: usize,
    need: usize,
    left: usize,
    /// The index of the access.
    index: usize,
}

/// How many accesses of the transactions that are left need a value, and how many write it.
#[derive(Clone, Copy)]
struct Uses {
    needs: usize,
    writes: usize,
}

/// What may be done with a transaction.
#[derive(Clone, Copy)]
pub(crate) enum Standing {
    /// It fits and is safe.
    Safe,
    /// It fits, and what it replaces can come back.
    Open,
    /// It cannot come next.
    Shut,
}

/// The values of the keys, and the transactions that are left.
#[derive(Drop)]
pub(crate) struct Placing {
    /// The accesses of each transaction.
    steps: Vec<Vec<Step>>,
    /// The uses of each value.
    uses: Vec<Uses>,
    /// The value of each key.
    current: Vec<usize>,
    /// The transactions that are left, in a ring: the next one and the last one of each. The number
    /// of all transactions is the head of the ring.
    next: Vec<usize>,
    last: Vec<usize>,
    /// How many transactions had committed when each one began.
    since: Vec<usize>,
}

impl Placing {
    /// No transaction is placed.
    pub(crate) fn new(
        alloc: Global,
        count: usize,
        since: &[usize],
        accesses: &[Access],
    ) -> Result<Placing, AllocError> {
        let mut numbers = HashMap::new(alloc);
        let mut steps = Vec::with_capacity(alloc, count)?;
        let mut next = Vec::with_capacity(alloc, count.saturating_add(1))?;
        let mut last = Vec::with_capacity(alloc, count.saturating_add(1))?;
        for txn in 0..count {
            steps.push(Vec::new(alloc))?;
            next.push(txn + 1)?;
            last.push(txn.checked_sub(1).unwrap_or(count))?;
        }
        next.push(0)?;
        last.push(count.saturating_sub(1))?;
        for (index, access) in accesses.iter().enumerate() {
            add_step(&mut numbers, &mut steps, access, index)?;
        }
        let mut uses = vec![in alloc; Uses {
            needs: 0,
            writes: 0
        }; numbers.len()]?;
        let mut current = Vec::with_capacity(alloc, numbers.len())?;
        for number in 0..numbers.len() {
            current.push(number)?;
        }
        for row in &steps {
            count_up(&mut uses, row);
        }
        Ok(Placing {
            steps,
            uses,
            current,
            next,
            last,
            since: copied(alloc, since)?,
        })
    }

    /// The head of the ring.
    pub(crate) fn head(&self) -> usize {
        self.steps.len()
    }

    /// The number of values.
    pub(crate) fn values(&self) -> usize {
        self.uses.len()
    }

    /// The next transaction that is left, or the head.
    pub(crate) fn next(&self, txn: usize) -> usize {
        at(&self.next, txn)
    }

    /// What may be done with the transaction.
    pub(crate) fn standing(&self, txn: usize) -> Standing {
        let Some(steps) = self.steps.get(txn) else {
            return Standing::Shut;
        };
        if at(&self.since, txn) > self.next(self.head()) {
            return Standing::Shut;
        }
        let mut standing = Standing::Safe;
        for step in steps {
            if at(&self.current, step.key) != step.need {
                return Standing::Shut;
            }
            if step.need != step.left
                && let Some(uses) = self.uses.get(step.need)
                && uses.needs > 1
            {
                if uses.writes == 0 {
                    return Standing::Shut;
                }
                standing = Standing::Open;
            }
        }
        standing
    }

    /// Places the transaction.
    pub(crate) fn place(&mut self, txn: usize) {
        if let Some(steps) = self.steps.get(txn) {
            count_down(&mut self.uses, steps);
            for step in steps {
                set(&mut self.current, step.key, step.left);
            }
        }
        let next = at(&self.next, txn);
        let last = at(&self.last, txn);
        set(&mut self.next, last, next);
        set(&mut self.last, next, last);
    }

    /// Takes back the transaction, which is the one that was placed last.
    pub(crate) fn take_back(&mut self, txn: usize) {
        if let Some(steps) = self.steps.get(txn) {
            count_up(&mut self.uses, steps);
            for step in steps {
                set(&mut self.current, step.key, step.need);
            }
        }
        let next = at(&self.next, txn);
        let last = at(&self.last, txn);
        set(&mut self.next, last, txn);
        set(&mut self.last, next, txn);
    }

    /// Notes the writers of what the transaction needs, and what it writes.
    pub(crate) fn trace(
        &self,
        txn: usize,
        latest: &mut Vec<Option<usize>>,
        writers: &mut Vec<Option<usize>>,
    ) {
        let Some(steps) = self.steps.get(txn) else {
            return;
        };
        for step in steps {
            if let Some(writer) = latest.get_mut(step.key) {
                if let Some(place) = writers.get_mut(step.index) {
                    *place = *writer;
                }
                if step.need != step.left {
                    *writer = Some(step.index);
                }
            }
        }
    }
}

/// Adds an access to the steps of its transaction.
fn add_step(
    numbers: &mut HashMap<Version, usize>,
    steps: &mut Vec<Vec<Step>>,
    access: &Access,
    index: usize,
) -> Result<(), AllocError> {
    let step = Step {
        key: number(numbers, (access.key, None))?,
        need: number(numbers, (access.key, access.need))?,
        left: number(numbers, (access.key, access.left))?,
        index,
    };
    if let Some(row) = steps.get_mut(access.txn) {
        row.push(step)?;
    }
    Ok(())
}

/// The number of a value, which gets the next number if it has none.
fn number(numbers: &mut HashMap<Version, usize>, version: Version) -> Result<usize, AllocError> {
    if let Some(number) = numbers.get(&version) {
        return Ok(*number);
    }
    let number = numbers.len();
    numbers.insert(version, number)?;
    Ok(number)
}

/// The steps are those of a transaction that is left.
fn count_up(uses: &mut Vec<Uses>, steps: &[Step]) {
    for step in steps {
        if let Some(needed) = uses.get_mut(step.need) {
            needed.needs = needed.needs.saturating_add(1);
        }
        if step.need != step.left
            && let Some(written) = uses.get_mut(step.left)
        {
            written.writes = written.writes.saturating_add(1);
        }
    }
}

/// The steps are no longer those of a transaction that is left.
fn count_down(uses: &mut Vec<Uses>, steps: &[Step]) {
    for step in steps {
        if let Some(needed) = uses.get_mut(step.need) {
            needed.needs = needed.needs.saturating_sub(1);
        }
        if step.need != step.left
            && let Some(written) = uses.get_mut(step.left)
        {
            written.writes = written.writes.saturating_sub(1);
        }
    }
}

/// The same numbers.
fn copied(alloc: Global, numbers: &[usize]) -> Result<Vec<usize>, AllocError> {
    let mut copy = Vec::with_capacity(alloc, numbers.len())?;
    for number in numbers {
        copy.push(*number)?;
    }
    Ok(copy)
}

/// The number at an index, or 0 if there is none.
fn at(list: &[usize], index: usize) -> usize {
    match list.get(index) {
        Some(number) => *number,
        None => 0,
    }
}

/// Puts the number at an index.
fn set(list: &mut Vec<usize>, index: usize, number: usize) {
    if let Some(place) = list.get_mut(index) {
        *place = number;
    }
}
