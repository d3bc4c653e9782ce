// PROMISES each-change-has-an-inverse: Table::apply, act, take_back, undo, regular_list
// PROMISES buckets: Table::init_seek, init_link, init_store, double
//! The table: list and buckets in one value, and all calls on them. Invariant: the list is sound,
//! each node is at its position, each stored bucket names its linked dummy, and no bucket is stored
//! before its parent. The parts that change only the list are in `change.rt`.
ghost use Rattle.std.specs.Prelude.{◌≡◌, ◌≢◌, ℕ, ◌<◌, ◌≤◌, ◌-◌, ◌^◌, ◌↔◌, Ok, Err, Some, length, IfOk, IfErr, OnErr};
ghost use Rattle.std.specs.List.{slice_get};
ghost use Rattle.std.specs.BTreeMap.{get as value_at};
ghost use Rattle.std.specs.Ordering.{nat_cmp};
ghost use Rattle.txn_words.specs.Map.{count_of, get, key_of};
ghost use Rattle.txn_words.specs.Ordered.{ordered};
ghost use Rattle.bucket_table.specs.Home.{IsHome};
ghost use Rattle.list_steps.specs.Steps.{IsBeforeMarks};

use crate::act::{Act, Undo};
use crate::change::{change, find, give_up, plan, restore, seek_key};
use crate::job::MapJob;
use crate::listing::{map_of, pairs_of};
use crate::pending::Pending;
use crate::refusals::answer_for;
use bucket_table::{Buckets, Double, InitLink, InitSeek};
use list_steps::{Again, Cursor, SweepOutcome, sweep_from};
use node_list::{NodeList, NodeRef};
use split_key::bucket_at;
use std::alloc::{AllocError, Global};
use std::collections::BTreeMap;
use std::marker::Model;
use txn_words::{Op, Refusal, Reply};

/// The table: the nodes of its keys in one split-ordered list, and the buckets through which they
/// are found (Shalev and Shavit, "Split-Ordered Lists: Lock-Free Extensible Hash Tables", Journal
/// of the ACM 53, 2006).
///
/// Contracts see the list and the buckets, and use the definitions of `specs/TableAt.antt`:
/// `content` is a finite map, and `regular` is the list of its pairs in the order of their split
/// keys.
#[derive(Drop)]
pub struct Table {
    list: NodeList,
    buckets: Buckets,
}

impl Model for Table {
    ghost use Rattle.map_ops.specs.TableAt.{TableAt};
    ghost use Rattle.map_ops.specs.Sound.{IsSound};

    ghost Value = { TableAt };

    ghost view = { λ t. record { list = t.list; buckets = t.buckets } };

    ghost invariant = { λ t. IsSound t.list t.buckets };
}

impl Table {
    ghost use Rattle.map_ops.specs.TableAt.{HasParents, HasSoundList, Dummy, IsClean, IsNew, IsPlaced, IsSplitOrdered, Follows, KeepsTable, KeepsList, KeepsSpares, NamesDummies, Sought, content, regular, helps_of, largest_of, linked_of, size_of, stored_of, table_changes};
    ghost use Rattle.map_ops.specs.Jobs.{IsDue, key_of_job, spare_of_job};
    ghost use Rattle.map_ops.specs.Changes.{ActWrites, Acts, Applies, GivesBack, IsRefused, OwnsIf, Places, Prepares, SeeksAndUndoes, SeeksNear, Sweeps, TakesBack, UndoWrites, Undoes};
    ghost use Rattle.map_ops.specs.Buckets.{Doubles, LinkChanges, SeekChanges, StoreChanges, double_answer, link_answer_of, seek_answer, store_answer, LacksSegment};

    /// Returns an empty table of two buckets, the first of them initialised, with `callers` idle
    /// helpers. The table can grow to `max` buckets, a power of two.
    ///
    /// # Errors
    ///
    /// `AllocError` if memory is refused.
    ///
    /// # Cost
    ///
    /// Time and memory in proportion to the number of segments, which is `max / 64`, plus the
    /// number of helpers. The counts of marked nodes take another 33,280 bytes.
    pub fn new(alloc: Global, max: u32, callers: u32) -> Result<Table, AllocError>
        requires power { (exponent : ℕ) × (max ≡ 2 ^ exponent) }
        requires least { 2 ≤ max }
        ensures { IfOk result (λ table. IsNew table max callers) }
    {
        let list = NodeList::new(alloc, 0)?;
        let buckets = Buckets::new(alloc, max, callers, &list)?;
        Ok(Table { list, buckets })
    }

    /// Prepares an operation. Unless the operation is a get, this takes its spare, so that the
    /// operation needs no memory from here on. The content and the list of pairs are unchanged.
    ///
    /// # Errors
    ///
    /// A get is never refused. Any other operation may be refused. The table is then unchanged.
    ///
    /// - `StampsUsedUp` if no stamp is left. The last stamp is 2^64 - 2.
    /// - Otherwise `NoMemory` if memory is refused, or if the list has no place left.
    ///
    /// # Cost
    ///
    /// Amortized constant time. May take memory for a node.
    #[inline(always)]
    pub fn prepare(&mut self, op: Op) -> Result<Pending, Refusal>
        ensures ok { IfOk result (Prepares self.old self.new op) }
        ensures err { IfErr result (IsRefused self.old op) }
        ensures unchanged { OnErr result (self.new ≡ self.old) }
        ensures follows { Follows self.old self.new }
    {
        let plan = plan(&mut self.list, op)?;
        Ok(Pending::new(plan))
    }

    /// Seeks the key of an operation, and unlinks the marked nodes that the seek passes. The seek
    /// starts at the dummy of the key's bucket, or of the bucket's nearest initialised ancestor
    /// (Shalev and Shavit 2006, section 3.2). The content and the list of pairs are unchanged.
    ///
    /// The returned cursor fits as long as its two nodes stay neighbours and unmarked.
    ///
    /// # Cost
    ///
    /// Time in proportion to the number of nodes from that dummy to the key's position, plus the
    /// number of ancestors passed.
    #[inline(always)]
    pub fn place(&mut self, pending: &Pending) -> Cursor
        ensures places { Places self.old self.new (key_of pending.now.op) result }
        ensures near { SeeksNear self.old self.new (key_of pending.now.op) }
        ensures rises { table_changes self.old ≤ table_changes self.new }
        ensures follows { Follows self.old self.new }
    {
        seek_key(&mut self.list, &self.buckets, pending.key())
    }

    /// Does an operation at a cursor that was placed for the operation's key. Returns the reply
    /// and, if the operation is a change, the job that takes the change back. A put that takes
    /// effect links one node or writes one value, a take that takes effect marks one node, and an
    /// operation that is no change writes nothing. No node is unlinked.
    ///
    /// Returns `Again` exactly if the cursor no longer fits. Then nothing has changed, and the
    /// operation is returned. The cursor always fits while the change number is below 2^64 - 1 and
    /// is still the one that the cursor noted.
    #[inline(always)]
    pub fn act(&mut self, pending: Pending, cursor: Cursor) -> Act
        requires placed { IsPlaced self.old cursor (key_of pending.op) }
        requires owned { OwnsIf self.old pending.spare }
        ensures acts { Acts self.old self.new pending cursor result }
        ensures writes { ActWrites self.old self.new pending result }
        ensures rises { table_changes self.old ≤ table_changes self.new }
        ensures follows { Follows self.old self.new }
    {
        match find(&self.list, &cursor, pending.key()) {
            Ok(there) => {
                let plan = pending.into_plan();
                let (reply, job) = change(&mut self.list, plan, cursor.pred(), there);
                Act::Acted(reply, job)
            }
            Err(Again) => Act::Again(pending),
        }
    }

    /// Gives up an operation that is not done. Its spare, if it has one, goes back to the list, and
    /// all else is unchanged.
    pub fn withdraw(&mut self, pending: Pending)
        requires { OwnsIf self.old pending.spare }
        ensures back { GivesBack self.old self.new pending.spare }
        ensures follows { Follows self.old self.new }
    {
        give_up(&mut self.list, pending.into_spare());
    }

    /// Seeks the key of a job, just as `place` seeks the key of an operation, and at the same cost.
    pub fn place_job(&mut self, job: &MapJob) -> Cursor
        ensures places { Places self.old self.new (key_of_job job.now) result }
        ensures near { SeeksNear self.old self.new (key_of_job job.now) }
        ensures rises { table_changes self.old ≤ table_changes self.new }
        ensures follows { Follows self.old self.new }
    {
        seek_key(&mut self.list, &self.buckets, job.key())
    }

    /// Takes a job's change back at a cursor that was placed for the job's key. The key then has
    /// the value that it had before the change, or no value if it had none. Every other key keeps
    /// the value that it has now, even if it got that value after the change. One node is marked,
    /// written or linked, and none is unlinked.
    ///
    /// Returns `Again` exactly if the cursor no longer fits. Then nothing has changed, and the job
    /// is returned.
    pub fn undo(&mut self, job: MapJob, cursor: Cursor) -> Undo
        requires placed { IsPlaced self.old cursor (key_of_job job) }
        requires due { IsDue (content self.old) job }
        requires owned { OwnsIf self.old (spare_of_job job) }
        ensures undoes { Undoes self.old self.new job cursor result }
        ensures writes { UndoWrites self.old self.new job result }
        ensures rises { table_changes self.old ≤ table_changes self.new }
        ensures follows { Follows self.old self.new }
    {
        match find(&self.list, &cursor, job.key()) {
            Ok(there) => {
                restore(&mut self.list, job, cursor.pred(), there);
                Undo::Undone
            }
            Err(Again) => Undo::Again(job),
        }
    }

    /// Gives up a job whose change is to stay. The spare of a `Relink` goes back to the list, and
    /// all else is unchanged.
    pub fn discard(&mut self, job: MapJob)
        requires { OwnsIf self.old (spare_of_job job) }
        ensures back { GivesBack self.old self.new (spare_of_job job) }
        ensures follows { Follows self.old self.new }
    {
        give_up(&mut self.list, job.into_spare());
    }

    /// Does an operation in one call. Its reply and its effect are those of the same operation on a
    /// plain map. A job is returned exactly if the operation is a change.
    ///
    /// # Errors
    ///
    /// The errors of `prepare`, which leave the table unchanged.
    ///
    /// # Cost
    ///
    /// The cost of `prepare` plus the cost of `place`. May take memory for a node.
    pub fn apply(&mut self, op: Op) -> Result<(Reply, Option<MapJob>), Refusal>
        ensures ok { IfOk result (λ done. Applies self.old self.new op done.0 done.1) }
        ensures err { IfErr result (IsRefused self.old op) }
        ensures unchanged { OnErr result (self.new ≡ self.old) }
        ensures rises { table_changes self.old ≤ table_changes self.new }
        ensures follows { Follows self.old self.new }
    {
        let pending = self.prepare(op)?;
        let cursor = self.place(&pending);
        match self.act(pending, cursor) {
            Act::Acted(reply, job) => Ok((reply, job)),
            Act::Again(_) => unreachable!(),
        }
    }

    /// Takes a change back in one call. An operation followed by its job leaves the content and the
    /// list of pairs unchanged (`law::there_and_back`). Jobs of different keys may run in either
    /// order (`law::either_order`).
    ///
    /// # Cost
    ///
    /// The cost of `place_job`.
    pub fn take_back(&mut self, job: MapJob)
        requires due { IsDue (content self.old) job }
        requires owned { OwnsIf self.old (spare_of_job job) }
        ensures back { TakesBack self.old self.new job }
        ensures writes { SeeksAndUndoes self.old self.new job }
        ensures rises { table_changes self.old ≤ table_changes self.new }
        ensures follows { Follows self.old self.new }
    {
        let cursor = self.place_job(&job);
        match self.undo(job, cursor) {
            Undo::Undone => {}
            Undo::Again(_) => unreachable!(),
        }
    }

    /// Returns the keys with their values, as a map.
    ///
    /// # Errors
    ///
    /// `AllocError` if memory is refused.
    ///
    /// # Cost
    ///
    /// Time in proportion to the number of nodes, plus n log n for the map of n keys. While the
    /// call runs, the pairs are in memory twice: in a vector and in the map.
    pub fn content(&self, alloc: Global) -> Result<BTreeMap<u64, u64>, AllocError>
        ensures { IfOk result (λ map. (key : ℕ)
            → value_at nat_cmp map key ≡ get (content self.now) key) }
    {
        let pairs = pairs_of(alloc, &self.list)?;
        map_of(alloc, &pairs)
    }

    /// Returns the keys with their values, in the order of the list, which is the order of the
    /// split keys.
    ///
    /// # Errors
    ///
    /// `AllocError` if memory is refused.
    ///
    /// # Cost
    ///
    /// Time in proportion to the number of nodes, and memory in proportion to the number of pairs.
    pub fn regular_list(&self, alloc: Global) -> Result<Vec<(u64, u64)>, AllocError>
        ensures regular { IfOk result (λ pairs. pairs.items ≡ regular self.now) }
        ensures ordered { IfOk result (λ pairs. pairs.items ≡ ordered (content self.now)) }
    {
        pairs_of(alloc, &self.list)
    }

    /// Returns the size: the number of buckets now.
    ///
    /// The contract also states the invariants of every table: the sort keys of the linked nodes
    /// rise strictly, no two nodes share a place or a stamp, the list has the pairs of the content
    /// in their order, each initialised bucket names its linked dummy, and no bucket is initialised
    /// before its parent.
    pub fn size(&self) -> u32
        ensures size { result ≡ size_of self.now }
        ensures ordered { regular self.now ≡ ordered (content self.now) }
        ensures rising { IsSplitOrdered self.now }
        ensures list { HasSoundList self.now }
        ensures stored { NamesDummies self.now }
        ensures parents { HasParents self.now }
    {
        self.buckets.size()
    }

    /// Returns the change number: the number of links, marks, unlinks and writes so far, at most
    /// 2^64 - 1. No call lowers it.
    pub fn changes(&self) -> u64
        ensures { result ≡ table_changes self.now }
    {
        self.list.changes()
    }

    /// The number of keys.
    pub fn count(&self) -> u64
        ensures count { result ≡ count_of (content self.now) }
        ensures length { result ≡ length (regular self.now) }
    {
        self.list.count()
    }

    /// Unlinks the first marked node, and nothing else. Returns `Clean` exactly if no node is
    /// marked.
    ///
    /// The walk begins at the dummy of the bucket where the marked nodes begin
    /// (`NodeList::marks_begin`), or of that bucket's nearest initialised ancestor.
    ///
    /// # Cost
    ///
    /// Time in proportion to the number of nodes from that dummy to the first marked node, plus the
    /// number of ancestors passed. Constant time if no node is marked.
    pub fn sweep(&mut self) -> SweepOutcome
        ensures clean { (result ≡ SweepOutcome.Clean) ↔ IsClean self.old }
        ensures sweeps { Sweeps self.old self.new result }
        ensures keeps { KeepsTable self.old self.new }
        ensures spares { KeepsSpares self.old self.new }
        ensures changes { result ≡ SweepOutcome.Clean
            → table_changes self.new ≡ table_changes self.old }
        ensures rises { table_changes self.old ≤ table_changes self.new }
        ensures follows { Follows self.old self.new }
    {
        let start = sweep_start(&self.list, &self.buckets);
        sweep_from(&mut self.list, start)
    }

    /// Seeks the position of a bucket's dummy for a helper, from the dummy of the bucket's parent.
    /// The marked nodes that the seek passes are unlinked. The content and the list of pairs are
    /// unchanged.
    ///
    /// Returns `Ready` if the bucket is initialised already. The helper is then idle. Else returns
    /// `Placed`, and the helper has a cursor that fits, in place of whatever it had before.
    ///
    /// # Errors
    ///
    /// The first of these, in this order. Each leaves the table unchanged.
    ///
    /// - `NoSuchHelper` if the helper's number is not below the number of helpers.
    /// - `NoSuchBucket` if the bucket is not below the size.
    /// - `ParentMissing` if neither the bucket nor its parent is initialised.
    ///
    /// # Cost
    ///
    /// Time in proportion to the number of nodes from the parent's dummy to the position.
    pub fn init_seek(&mut self, helper: u64, bucket: u64) -> Result<InitSeek, Refusal>
        ensures answer { result
            ≡ seek_answer (size_of self.old) (stored_of self.old)
            (slice_get (helps_of self.old) helper) bucket }
        ensures changes { SeekChanges self.old self.new helper bucket result }
        ensures regular { regular self.new ≡ regular self.old }
        ensures linked { linked_of self.new ≡ linked_of self.old }
        ensures rises { table_changes self.old ≤ table_changes self.new }
        ensures follows { Follows self.old self.new }
    {
        answer_for(self.buckets.init_seek(&mut self.list, helper, bucket))
    }

    /// Links the dummy of a helper's bucket at the helper's cursor. The content and the list of
    /// pairs are unchanged.
    ///
    /// Returns `Again` if the cursor no longer fits. The cursor is then dropped, and the helper is
    /// idle. Else returns `Present` if that dummy was linked already, or `Linked` if this call has
    /// linked it. In both of these cases the helper now has the dummy.
    ///
    /// # Errors
    ///
    /// The first of these, in this order. Each leaves the table unchanged. The last two are
    /// possible only if the dummy is not linked yet.
    ///
    /// - `NoSuchHelper` if the helper's number is not below the number of helpers.
    /// - `HelperOutOfOrder` if the helper has no cursor.
    /// - `StampsUsedUp` if no stamp is left.
    /// - `NoMemory` if memory is refused or the list has no place left.
    ///
    /// # Cost
    ///
    /// Amortized constant time. May take memory for a node.
    pub fn init_link(&mut self, helper: u64) -> Result<InitLink, Refusal>
        ensures answer { result ≢ Err Refusal.NoMemory
            → result ≡ link_answer_of self.old helper }
        ensures no_memory { result ≡ Err Refusal.NoMemory
            → link_answer_of self.old helper ≡ Ok InitLink.Linked }
        ensures held { (bucket : ℕ)
            → slice_get (helps_of self.old) helper ≡ Some (Sought bucket (table_changes self.old))
            → table_changes self.old < 2 ^ 64 - 1 → result ≢ Ok InitLink.Again }
        ensures changes { LinkChanges self.old self.new helper result }
        ensures regular { regular self.new ≡ regular self.old }
        ensures rises { table_changes self.old ≤ table_changes self.new }
        ensures follows { Follows self.old self.new }
    {
        answer_for(self.buckets.init_link(&mut self.list, helper))
    }

    /// Stores a helper's dummy as the dummy of the helper's bucket. From then on the bucket is
    /// initialised, and the helper is idle.
    ///
    /// # Errors
    ///
    /// The first of these, in this order. Each leaves the table unchanged, so after `NoMemory` the
    /// helper still has its dummy.
    ///
    /// - `NoSuchHelper` if the helper's number is not below the number of helpers.
    /// - `HelperOutOfOrder` if the helper has no dummy.
    /// - `NoMemory` if memory is refused. This happens only if no bucket of the bucket's segment is
    ///   initialised.
    ///
    /// # Cost
    ///
    /// Constant time. Takes memory only for the bucket's segment, and only if no bucket of this
    /// segment is initialised.
    pub fn init_store(&mut self, helper: u64) -> Result<(), Refusal>
        ensures answer { result ≢ Err Refusal.NoMemory
            → result ≡ store_answer (slice_get (helps_of self.old) helper) }
        ensures no_memory { result ≡ Err Refusal.NoMemory
            → store_answer (slice_get (helps_of self.old) helper) ≡ Ok tt }
        ensures lacks { (bucket : ℕ) → slice_get (helps_of self.old) helper ≡ Some (Dummy bucket)
            → result ≡ Err Refusal.NoMemory → LacksSegment (stored_of self.old) bucket }
        ensures changes { StoreChanges self.old self.new helper result }
        ensures list { KeepsList self.old self.new }
        ensures follows { Follows self.old self.new }
    {
        answer_for(self.buckets.init_store(helper))
    }

    /// Doubles the size. No node moves.
    ///
    /// Three tests come first, in this order: the size is not `seen` (`Moved`); the size is the
    /// largest (`AtLimit`); there are at most twice as many keys as buckets (`Light`). If a test
    /// holds, the value in its parentheses is returned, and nothing changes.
    pub fn double(&mut self, seen: u64) -> Double
        ensures answer { result
            ≡ double_answer (size_of self.old) (largest_of self.old)
            (count_of (content self.old)) seen }
        ensures changes { Doubles self.old self.new result }
        ensures list { KeepsList self.old self.new }
        ensures follows { Follows self.old self.new }
    {
        self.buckets.double(&self.list, seen)
    }
}

/// Returns the node at which a sweep may begin: the dummy of the bucket where the marked nodes
/// begin, or of that bucket's nearest initialised ancestor. If no node is marked, returns the first
/// node.
fn sweep_start(list: &NodeList, buckets: &Buckets) -> NodeRef
    requires { IsHome buckets.now list.now }
    ensures { IsBeforeMarks list.now.nodes result }
{
    let size = buckets.size();
    match list.marks_begin() {
        Some(split) => buckets.nearest(bucket_at(split, size)),
        None => list.head(),
    }
}
