//! A list and its buckets, as one value. The invariant of a `Home` is what the calls of `Buckets`
//! require of the buckets and of the list, so a test that calls a `Home` has nothing to prove. The
//! content of a `Home` is hidden from contracts. The tests compare the answers of its calls with
//! expected answers.
ghost use Rattle.std.specs.Prelude.{◌≡◌};
ghost use Rattle.bucket_table.specs.Home.{IsHome};
ghost use Rattle.bucket_table.specs.Dummies.{IsKeyed};

use bucket_table::{Buckets, Double, InitLink, InitRefusal, InitSeek};
use list_steps::{link_at, look, seek};
use node_list::{Kind, NodeList, SpareFault};
use split_key::{Key, SortKey, bucket_of};
use std::alloc::Global;
use std::marker::Model;
use std::process::Abort;

/// A list and its buckets. Both are hidden from contracts.
#[derive(Drop)]
pub struct Home {
    list: NodeList,
    buckets: Buckets,
}

impl Model for Home {
    ghost use Rattle.std.specs.Prelude.{ℕ};
    ghost use Rattle.bucket_table.specs.Home.{IsHome};
    ghost use Rattle.bucket_table.specs.Dummies.{IsKeyed};

    ghost Value = { ℕ };

    ghost view = { λ _. 0 };

    ghost invariant = { λ home. IsHome home.buckets home.list × IsKeyed home.list.nodes };
}

/// One call on the buckets.
#[derive(Clone, Copy)]
pub enum Call {
    /// A seek by a helper for a bucket.
    Seek(u64, u64),
    /// A link by a helper.
    Link(u64),
    /// A store by a helper.
    Store(u64),
    /// A call to double the table, by a caller that has seen this size.
    Double(u64),
}

/// The answer to a call.
#[derive(Clone, Copy, PartialEq, Eq)]
pub enum Answer {
    Seek(Result<InitSeek, InitRefusal>),
    Link(Result<InitLink, InitRefusal>),
    Store(Result<(), InitRefusal>),
    Double(Double),
}

/// Makes one call.
fn made(list: &mut NodeList, buckets: &mut Buckets, call: Call) -> Answer
    requires home { IsHome buckets.old list.old }
    requires keyed { IsKeyed list.old.nodes }
    ensures home { IsHome buckets.new list.new }
    ensures keyed { IsKeyed list.new.nodes }
{
    match call {
        Call::Seek(helper, bucket) => Answer::Seek(buckets.init_seek(list, helper, bucket)),
        Call::Link(helper) => Answer::Link(buckets.init_link(list, helper)),
        Call::Store(helper) => Answer::Store(buckets.init_store(helper)),
        Call::Double(seen) => Answer::Double(buckets.double(list, seen)),
    }
}

/// Links a node for a key that the list does not have. The seek begins at the dummy of the key's
/// bucket. If the bucket is not stored, the seek begins at the dummy of its nearest stored
/// ancestor.
fn put(
    rt: &impl Abort,
    list: &mut NodeList,
    buckets: &Buckets,
    number: u64,
) -> Result<(), SpareFault>
    requires home { IsHome buckets.now list.old }
    requires keyed { IsKeyed list.old.nodes }
    ensures home { IsHome buckets.now list.new }
    ensures keyed { IsKeyed list.new.nodes }
{
    let key = Key::new(number);
    let from = buckets.nearest(bucket_of(key, buckets.size()));
    let mut spare = list.spare()?;
    spare.fill(SortKey::regular(key), Kind::Regular, 0);
    let cursor = seek(list, from, SortKey::regular(key));
    let Ok(None) = look(list, &cursor) else {
        panic!(rt; "key {number} was there");
    };
    let _ = link_at(list, cursor.pred(), spare);
    Ok(())
}

impl Home {
    /// Makes a list and two buckets on it. The first node of the list is the dummy of bucket 0, and
    /// has the stamp `first_stamp`. The number of buckets can grow to `max`. Returns `None` if
    /// memory is refused, if `first_stamp` is 2^64 - 1, or if `max` is neither 2 nor 8.
    pub fn new(alloc: Global, first_stamp: u64, max: u32, helpers: u32) -> Option<Home> {
        if first_stamp == u64::MAX {
            return None;
        }
        let list = NodeList::new(alloc, first_stamp).ok()?;
        match max {
            2 => {
                let buckets = Buckets::new(alloc, 2, helpers, &list).ok()?;
                Some(Home { list, buckets })
            }
            8 => {
                let buckets = Buckets::new(alloc, 8, helpers, &list).ok()?;
                Some(Home { list, buckets })
            }
            _ => None,
        }
    }

    /// Makes one call.
    pub fn make(&mut self, call: Call) -> Answer {
        made(&mut self.list, &mut self.buckets, call)
    }

    /// Puts a key that the list does not have.
    pub fn put(&mut self, rt: &impl Abort, number: u64) -> Result<(), SpareFault> {
        put(rt, &mut self.list, &self.buckets, number)
    }

    /// Takes a spare from the list and never gives it back, so the spare's place stays reserved.
    pub fn keep_spare(&mut self) -> Result<u64, SpareFault> {
        let spare = self.list.spare()?;
        Ok(spare.stamp())
    }

    /// The size of the table, the number of its keys, and the list's change number.
    pub fn figures(&self) -> (u32, u64, u64) {
        (self.buckets.size(), self.list.count(), self.list.changes())
    }

    /// The split key of the bucket's dummy. If the bucket is not stored, the dummy of its nearest
    /// stored ancestor is used instead.
    pub fn nearest(&self, bucket: u32) -> Option<u64> {
        let node = self.list.linked_node(self.buckets.nearest(bucket))?;
        match node.kind {
            Kind::Dummy => Some(node.at.split()),
            Kind::Regular => None,
        }
    }

    /// The split key, kind and key of the node with this rank in the list.
    pub fn node(&self, rank: usize) -> Option<(u64, Kind, u64)> {
        let mut place = self.list.head();
        for _ in 0..rank {
            place = self.list.linked_node(place)?.next()?;
        }
        let node = self.list.linked_node(place)?;
        Some((node.at.split(), node.kind, node.at.key()))
    }
}
