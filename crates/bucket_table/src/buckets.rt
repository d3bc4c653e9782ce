// PROMISES buckets: Buckets::init_seek, init_link, init_store, double
//! The buckets of a table: its size, the dummies of the stored buckets, and the helpers that store
//! more of them. Invariant (`IsSound`): the size is a power of two, and no bucket is stored before
//! its parent.
ghost use Rattle.std.specs.Prelude.{◌≡◌, ◌≢◌, ℕ, ◌%◌, ◌<◌, ◌≤◌, ◌^◌, Some, None, Ok, Err, true, length, replicate, IfOk, IfErr, OnErr};
ghost use Rattle.bucket_table.specs.Segments.{LacksSegment};
ghost use Rattle.node_list.specs.Nodes.{Listing, live_count};
ghost use Rattle.node_list.specs.Follow.{Follows};
ghost use Rattle.node_list.specs.Order.{IsVacant};
ghost use Rattle.list_steps.specs.Content.{pairs};
ghost use Rattle.list_steps.specs.Seek.{IsStart};
ghost use Rattle.split_key.specs.Split.{IsPowerOfTwo};
ghost use Rattle.split_key.specs.Sort.{dummy_at, regular_at};
ghost use Rattle.bucket_table.specs.Links.{IsUnlinked, LinksAt};
ghost use Rattle.bucket_table.specs.Dummies.{IsBeforeBucket, IsKeyed, has_dummy};

use crate::answer::{Double, InitLink, InitRefusal, InitSeek};
use crate::fill::vec_of;
use crate::helper::Helper;
use crate::segments::Segments;
use list_steps::{Again, Cursor, link_at, look, seek};
use node_list::{Kind, NodeList, NodeRef};
use split_key::{SortKey, parent};
use std::alloc::{AllocError, Global};
use std::marker::Model;

/// The buckets of a table: its size, the dummies of the stored buckets, and its helpers.
///
/// A contract sees them as a `Directory`. They belong to one list, which is lent to each call that
/// needs it.
#[derive(Drop)]
pub struct Buckets {
    size: u32,
    entries: Segments,
    helpers: Vec<Helper>,
}

impl Model for Buckets {
    ghost use Rattle.bucket_table.specs.Directory.{Directory, IsSound};

    ghost Value = { Directory };

    ghost view = { λ b. record { size = b.size; entries = b.entries; helpers = b.helpers.items } };

    ghost invariant = { λ b.
        IsSound (record { size = b.size; entries = b.entries; helpers = b.helpers.items }) };
}

impl Buckets {
    ghost use Rattle.bucket_table.specs.Directory.{beginning, dummy_of, helper_of, is_stored, limit_of, with_helper, with_dummy, IsSound as IsSoundDirectory, IsReadyHelper, MayBeStored, IsNearest};
    ghost use Rattle.bucket_table.specs.declared.helper.Helper.TheVariants.{Seeking};
    ghost use Rattle.bucket_table.specs.Helpers.{Dummy, help_at};
    ghost use Rattle.bucket_table.specs.Home.{IsHome};
    ghost use Rattle.bucket_table.specs.Answers.{seek_answer, link_answer_at, store_answer, double_answer};
    ghost use Rattle.bucket_table.specs.Changes.{SeekChanges, LinkChanges, StoreChanges, after_double};

    /// Makes a table of two buckets, with `helpers` idle helpers. Only bucket 0 is stored; its
    /// dummy is the list's first node. `max` is the largest size, in buckets.
    ///
    /// # Errors
    ///
    /// `AllocError` if memory is refused.
    ///
    /// # Cost
    ///
    /// Time and memory in proportion to the number of segments, `max / 64`, plus the number of
    /// helpers.
    pub fn new(alloc: Global, max: u32, helpers: u32, list: &NodeList) -> Result<Self, AllocError>
        requires power { IsPowerOfTwo max }
        requires least { 2 ≤ max }
        ensures ok { IfOk result (λ buckets. buckets ≡ beginning max helpers list.now.head) }
        ensures home { IfOk result (λ buckets. IsHome buckets list.now) }
    {
        Ok(Buckets {
            size: 2,
            entries: Segments::new(alloc, max, list.head())?,
            helpers: vec_of(alloc, helpers, Helper::Idle)?,
        })
    }

    /// The number of buckets that the table has now: a power of two, at least 2.
    pub fn size(&self) -> u32
        ensures size { result ≡ self.now.size }
        ensures sound { IsSoundDirectory self.now }
    {
        self.size
    }

    /// The dummy of a bucket, if the bucket is stored.
    fn dummy(&self, bucket: u32) -> Option<NodeRef>
        ensures dummy { result ≡ dummy_of self.now bucket }
        ensures sound { IsSoundDirectory self.now }
    {
        self.entries.get(bucket)
    }

    /// Returns the dummy of a bucket. If the bucket is not stored, returns the dummy of its nearest
    /// stored ancestor. A seek for any key of the bucket may begin at the returned dummy, since
    /// this dummy precedes all keys of the bucket.
    ///
    /// # Cost
    ///
    /// One step for each ancestor that is passed.
    pub fn nearest(&self, bucket: u32) -> NodeRef
        ensures nearest { IsNearest self.now bucket result }
        ensures before { (list : Listing) → IsHome self.now list
            → IsBeforeBucket list.nodes result bucket }
        ensures start { (list : Listing) (key : ℕ) → IsHome self.now list
            → key % self.now.size ≡ bucket → IsStart list.nodes result (regular_at key) }
    {
        let mut at = bucket;
        loop {
            if let Some(dummy) = self.dummy(at) {
                return dummy;
            }
            at = parent(at);
        }
    }

    /// The state of a helper, or `NoSuchHelper`.
    fn helper(&self, helper: u64) -> Result<&Helper, InitRefusal>
        ensures ok { IfOk result (λ had. helper_of self.now helper ≡ Some had.now) }
        ensures err { IfErr result (λ refusal. (refusal ≡ InitRefusal.NoSuchHelper)
            × (helper_of self.now helper ≡ None)) }
        ensures sound { IsSoundDirectory self.now }
    {
        self.helpers
            .get(helper as usize)
            .ok_or(InitRefusal::NoSuchHelper)
    }

    /// Stores a bucket with its dummy, or returns `NoMemory`.
    fn set_dummy(&mut self, bucket: u32, dummy: NodeRef) -> Result<(), InitRefusal>
        requires { MayBeStored self.old bucket }
        ensures ok { IfOk result (λ done. self.new ≡ with_dummy self.old bucket dummy) }
        ensures err { IfErr result (λ refusal. refusal ≡ InitRefusal.NoMemory) }
        ensures unchanged { OnErr result (self.new ≡ self.old) }
        ensures lacks { OnErr result (LacksSegment self.old.entries bucket) }
    {
        match self.entries.set(bucket, dummy) {
            Ok(()) => Ok(()),
            Err(_) => Err(InitRefusal::NoMemory),
        }
    }

    /// Sets a helper's state.
    fn set_helper(&mut self, helper: u64, now: Helper)
        requires there { helper < length self.old.helpers }
        requires order { IsReadyHelper self.old now }
        ensures { self.new ≡ with_helper self.old helper now }
    {
        self.helpers[helper as usize] = now;
    }

    /// Seeks the position of a bucket's dummy, beginning at the dummy of the bucket's parent, and
    /// gives the helper a cursor at this position. The cursor replaces whatever the helper had. If
    /// the bucket is stored already, returns `Ready` instead, and the helper is idle.
    ///
    /// The seek unlinks the marked nodes that it passes. The content of the list is unchanged.
    ///
    /// # Errors
    ///
    /// The first of these that applies:
    ///
    /// - `NoSuchHelper` if the helper's number is not below the number of helpers.
    /// - `NoSuchBucket` if the bucket is not below the size.
    /// - `ParentMissing` if neither the bucket nor its parent is stored.
    ///
    /// The helper, the buckets and the list are then unchanged.
    ///
    /// # Cost
    ///
    /// Time in proportion to the number of nodes from the parent's dummy to the position.
    pub fn init_seek(
        &mut self,
        list: &mut NodeList,
        helper: u64,
        bucket: u64,
    ) -> Result<InitSeek, InitRefusal>
        requires { IsHome self.old list.old }
        ensures answer { result
            ≡ seek_answer self.old.size (is_stored self.old) (help_at self.old helper) bucket }
        ensures changes { SeekChanges self.old self.new list.old list.new helper bucket result }
        ensures home { IsHome self.new list.new }
        ensures content { pairs list.new.nodes ≡ pairs list.old.nodes }
        ensures dummies { (other : ℕ)
            → has_dummy list.new.nodes other ≡ has_dummy list.old.nodes other }
        ensures keyed { IsKeyed list.old.nodes → IsKeyed list.new.nodes }
        ensures follows { Follows list.old list.new }
    {
        let _ = self.helper(helper)?;
        if bucket >= u64::from(self.size()) {
            return Err(InitRefusal::NoSuchBucket);
        }
        let bucket = bucket as u32;
        if self.dummy(bucket).is_some() {
            self.set_helper(helper, Helper::Idle);
            return Ok(InitSeek::Ready);
        }
        let parent = parent(bucket);
        let Some(from) = self.dummy(parent) else {
            return Err(InitRefusal::ParentMissing);
        };
        // By the contract of `changes` the list is sound, so no dummy is marked. The proof needs
        // this fact, because a seek unlinks marked nodes but must not unlink a dummy. The number
        // itself is not used.
        let _changes = list.changes();
        let cursor = seek(list, from, SortKey::dummy(bucket));
        self.set_helper(helper, Helper::Seeking(bucket, cursor));
        Ok(InitSeek::Placed)
    }

    /// Does `init_link` for a helper that has this bucket and this cursor.
    fn link_at(
        &mut self,
        list: &mut NodeList,
        helper: u64,
        bucket: u32,
        cursor: Cursor,
    ) -> Result<InitLink, InitRefusal>
        requires home { IsHome self.old list.old }
        requires keyed { IsKeyed list.old.nodes }
        requires had { helper_of self.old helper ≡ Some (Seeking bucket cursor) }
        requires ready { MayBeStored self.old bucket }
        ensures answer { result ≢ Err InitRefusal.NoMemory
            → result ≡ link_answer_at self.old list.old helper }
        ensures no_memory { result ≡ Err InitRefusal.NoMemory
            → link_answer_at self.old list.old helper ≡ Ok InitLink.Linked }
        ensures changes { LinkChanges self.old self.new list.old list.new helper result }
        ensures home { IsHome self.new list.new }
        ensures content { pairs list.new.nodes ≡ pairs list.old.nodes }
        ensures keyed { IsKeyed list.new.nodes }
        ensures follows { Follows list.old list.new }
    {
        match look(list, &cursor) {
            Err(Again) => {
                self.set_helper(helper, Helper::Idle);
                Ok(InitLink::Again)
            }
            Ok(Some(dummy)) => {
                self.set_helper(helper, Helper::Holding(bucket, dummy));
                Ok(InitLink::Present)
            }
            Ok(None) => {
                let dummy = link_dummy(list, cursor.pred(), bucket)?;
                self.set_helper(helper, Helper::Holding(bucket, dummy));
                Ok(InitLink::Linked)
            }
        }
    }

    /// Links the dummy of the helper's bucket at the helper's cursor, and gives the helper the
    /// dummy. If the cursor no longer fits, only drops the cursor, and the helper is then idle. If
    /// the cursor fits and the dummy is linked already, only gives the helper the dummy.
    ///
    /// The content of the list is unchanged.
    ///
    /// # Errors
    ///
    /// The first of these that applies:
    ///
    /// - `NoSuchHelper` if the helper's number is not below the number of helpers.
    /// - `HelperOutOfOrder` if the helper has no cursor.
    /// - `StampsUsedUp` if a dummy is to be linked and no stamp is left.
    /// - `NoMemory` if a dummy is to be linked, and memory is refused or the list has no place
    ///   left.
    ///
    /// The helper with its cursor, the buckets and the list are then unchanged.
    ///
    /// # Cost
    ///
    /// Amortized constant time; may take memory for a node.
    pub fn init_link(&mut self, list: &mut NodeList, helper: u64) -> Result<InitLink, InitRefusal>
        requires home { IsHome self.old list.old }
        requires keyed { IsKeyed list.old.nodes }
        ensures answer { result ≢ Err InitRefusal.NoMemory
            → result ≡ link_answer_at self.old list.old helper }
        ensures no_memory { result ≡ Err InitRefusal.NoMemory
            → link_answer_at self.old list.old helper ≡ Ok InitLink.Linked }
        ensures changes { LinkChanges self.old self.new list.old list.new helper result }
        ensures home { IsHome self.new list.new }
        ensures content { pairs list.new.nodes ≡ pairs list.old.nodes }
        ensures keyed { IsKeyed list.new.nodes }
        ensures follows { Follows list.old list.new }
        ensures sound { IsSoundDirectory self.old }
    {
        let (bucket, cursor) = self.helper(helper)?.seeking()?;
        self.link_at(list, helper, bucket, cursor)
    }

    /// Stores a helper's dummy as the dummy of the helper's bucket, even if the bucket was stored
    /// meanwhile. The helper is then idle.
    ///
    /// # Errors
    ///
    /// The first of these that applies:
    ///
    /// - `NoSuchHelper` if the helper's number is not below the number of helpers.
    /// - `HelperOutOfOrder` if the helper has no dummy.
    /// - `NoMemory` if memory is refused. Memory is needed only if no bucket of the bucket's
    ///   segment is stored.
    ///
    /// The helper with its dummy and the buckets are then unchanged.
    ///
    /// # Cost
    ///
    /// Constant time. Takes memory only if the bucket's segment does not exist yet.
    pub fn init_store(&mut self, helper: u64) -> Result<(), InitRefusal>
        ensures answer { result ≢ Err InitRefusal.NoMemory
            → result ≡ store_answer (help_at self.old helper) }
        ensures no_memory { result ≡ Err InitRefusal.NoMemory
            → store_answer (help_at self.old helper) ≡ Ok tt }
        ensures lacks { (bucket : ℕ) → help_at self.old helper ≡ Some (Dummy bucket)
            → result ≡ Err InitRefusal.NoMemory → LacksSegment self.old.entries bucket }
        ensures changes { StoreChanges self.old self.new helper result }
        ensures home { (list : Listing) → IsHome self.old list → IsHome self.new list }
    {
        let (bucket, dummy) = self.helper(helper)?.holding()?;
        self.set_dummy(bucket, dummy)?;
        self.set_helper(helper, Helper::Idle);
        Ok(())
    }

    /// Doubles the size if three conditions hold. They are tested in this order: the size is the
    /// one that the caller saw, the size is not the largest one, and the list has more than twice
    /// as many keys as there are buckets.
    ///
    /// Nothing else changes: no node moves, and the new buckets are not stored yet.
    pub fn double(&mut self, list: &NodeList, seen: u64) -> Double
        ensures answer { result
            ≡ double_answer self.old.size (limit_of self.old) (live_count list.now.nodes) seen }
        ensures size { self.new ≡ after_double self.old result }
        ensures home { (other : Listing) → IsHome self.old other → IsHome self.new other }
    {
        if u64::from(self.size) != seen {
            return Double::Moved(self.size);
        }
        if self.size == self.entries.limit() {
            return Double::AtLimit;
        }
        if list.count() <= 2 * u64::from(self.size) {
            return Double::Light;
        }
        self.size *= 2;
        Double::Doubled(self.size)
    }
}

/// Links the dummy of a bucket right after `pred`, the node before the dummy's position.
fn link_dummy(list: &mut NodeList, pred: NodeRef, bucket: u32) -> Result<NodeRef, InitRefusal>
    requires { IsVacant list.old.nodes pred (dummy_at bucket) }
    ensures ok { IfOk result (λ place. LinksAt list.old list.new pred bucket place) }
    ensures content { pairs list.new.nodes ≡ pairs list.old.nodes }
    ensures keyed { IsKeyed list.old.nodes → IsKeyed list.new.nodes }
    ensures follows { Follows list.old list.new }
    ensures err { IfErr result (λ refusal. IsUnlinked list.old list.new refusal) }
{
    let mut spare = list.spare()?;
    spare.fill(SortKey::dummy(bucket), Kind::Dummy, 0);
    Ok(link_at(list, pred, spare))
}
