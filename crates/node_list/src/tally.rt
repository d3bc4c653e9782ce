//! The number of marked nodes in each part of the order.
//!
//! The split keys are divided into 4,096 regions of 2^52 split keys each, and the regions into 64
//! groups of 64. Each region and each group has a count, and there is a total. So to find the first
//! region with a marked node, it is enough to read at most 64 counts of groups and 64 counts of
//! regions.
ghost use Rattle.std.specs.Prelude.{◌≡◌, ◌≢◌, ℕ, ◌+◌, ◌-◌, ◌*◌, ◌^◌, ◌<◌, ◌≤◌, ◌↔◌, IfOk, IfSome, None, length, replicate};
ghost use Rattle.node_list.specs.Tally.{IsFirstCounted, IsFirstOfRun, count_in, one_in, region_of, run_sum};

use std::alloc::{AllocError, Global};
use std::marker::Model;

/// A region has 2^52 split keys.
const REGION_BITS: u32 = 52;

/// The number of groups, and the number of regions in each group.
const WIDTH: usize = 64;

/// The counts of marked nodes: in total, in each group and in each region.
#[derive(Drop)]
pub struct Tally {
    total: u64,
    groups: Vec<u64>,
    regions: Vec<u64>,
}

impl Model for Tally {
    ghost use Rattle.node_list.specs.Tally.{TallyAt, IsSummed};

    ghost Value = { TallyAt };

    ghost view = { λ t. record { total = t.total; counts = t.regions.items } };

    ghost invariant = { λ t. IsSummed t.total t.groups.items t.regions.items };
}

/// A new vector of `count` zeros.
fn zeros(alloc: Global, count: usize) -> Result<Vec<u64>, AllocError>
    ensures { IfOk result (λ counts. counts.items ≡ replicate count 0) }
{
    vec![in alloc; 0; count]
}

/// The place of the first count other than 0 in the run of 64 counts that begins at `from`.
fn first_of_run(counts: &[u64], from: usize) -> usize
    requires within { from + 64 ≤ length counts.now }
    requires some { run_sum counts.now from 64 ≢ 0 }
    ensures { IsFirstOfRun counts.now from result }
{
    let mut place = from;
    'run: while place < from + WIDTH {
        if counts[place] != 0 {
            return place;
        }
        place += 1;
    }
    unreachable!()
}

impl Tally {
    /// A tally whose counts are 0.
    ///
    /// # Errors
    ///
    /// `AllocError` if memory is refused.
    ///
    /// # Cost
    ///
    /// Constant time, and two allocations, which take 33,280 bytes.
    pub fn new(alloc: Global) -> Result<Tally, AllocError>
        ensures total { IfOk result (λ tally. tally.total ≡ 0) }
        ensures counts { IfOk result (λ tally. (region : ℕ) → count_in tally region ≡ 0) }
    {
        let groups = zeros(alloc, WIDTH)?;
        let regions = zeros(alloc, WIDTH * WIDTH)?;
        Ok(Tally {
            total: 0,
            groups,
            regions,
        })
    }

    /// Adds one to the total and to the count of a split key's region.
    pub fn add(&mut self, split: u64)
        requires { self.old.total < 2 ^ 64 - 1 }
        ensures total { self.new.total ≡ self.old.total + 1 }
        ensures counts { (region : ℕ) →
            count_in self.new region ≡ count_in self.old region + one_in split region }
    {
        let region = (split >> REGION_BITS) as usize;
        self.regions[region] += 1;
        self.groups[region / WIDTH] += 1;
        self.total += 1;
    }

    /// Takes one away from the total and from the count of a split key's region.
    pub fn take_away(&mut self, split: u64)
        requires { count_in self.old (region_of split) ≢ 0 }
        ensures total { self.new.total + 1 ≡ self.old.total }
        ensures counts { (region : ℕ) →
            count_in self.new region + one_in split region ≡ count_in self.old region }
    {
        let region = (split >> REGION_BITS) as usize;
        self.regions[region] -= 1;
        self.groups[region / WIDTH] -= 1;
        self.total -= 1;
    }

    /// The count of all regions together.
    pub fn total(&self) -> u64
        ensures { result ≡ self.now.total }
    {
        self.total
    }

    /// The lowest split key of the first region whose count is not 0, or None if there is no such
    /// region. At most 64 counts of groups and 64 counts of regions are read.
    pub fn first(&self) -> Option<u64>
        ensures none { (result ≡ None) ↔ (self.now.total ≡ 0) }
        ensures first { IfSome result (λ split. IsFirstCounted self.now split) }
    {
        if self.total == 0 {
            return None;
        }
        let group = first_of_run(&self.groups, 0);
        let region = first_of_run(&self.regions, group * WIDTH);
        Some((region as u64) << REGION_BITS)
    }
}
