// PROMISES nodes-and-cursors: NodeList
//! The list: a slab of nodes that are chained by their places, and the counts of these nodes.
//! `slots.rt` changes single slots. A method of this module makes a whole change of the list and
//! keeps the invariant: the nodes are in strict order of their sort keys, and each counter has the
//! number of the nodes that it counts.
ghost use Rattle.std.specs.Prelude.{◌≡◌, ℕ, ◌+◌, ◌-◌, ◌<◌, ◌^◌, ◌↔◌, Some, None, Err, [], ◌∷◌, IfOk, OnErr, IfSome, IfNone, IsSomeAnd, false};
ghost use Rattle.std.specs.List.{AllByRecursion};
ghost use Rattle.node_list.specs.Follow.{Follows};
ghost use Rattle.node_list.specs.Nodes.{out_at, IsOut, filled, first_dummy, IsLinked, IsRegularAt, IsBeforeMarked, node_of, next_of, place_of, live_count, marked_count, one_more, linked_after, unlinked_after, marked_at, written_at, GivesOut, Becomes, UsesSpare, ReturnsSpare};
ghost use Rattle.node_list.specs.Order.{IsVacant};
ghost use Rattle.node_list.specs.Seen.{node_seen};
ghost use Rattle.node_list.specs.Sound.{IsSound};
ghost use Rattle.node_list.specs.Tally.{AreMarksFrom, first_marked};

use crate::node::{Kind, Node, NodeRef};
use crate::packed_ref::PackedRef;
use crate::slots::{Slot, linked_at, mark, node_at, replace_next, set_slot, set_value};
use crate::spare::{Spare, SpareFault};
use crate::tally::Tally;
use slab::Slab;
use split_key::SortKey;
use std::alloc::{AllocError, Global};
use std::marker::Model;

/// Linked nodes in the strict order of their sort keys, and the spares that are out. A spare is out
/// until it is linked or given back.
#[derive(Drop)]
pub struct NodeList {
    slab: Slab<Slot>,
    head: NodeRef,
    changes: u64,
    last: u64,
    count: u64,
    marks: Tally,
}

impl Model for NodeList {
    ghost use Rattle.node_list.specs.Nodes.{Listing};

    ghost Value = { Listing };

    ghost use Rattle.node_list.specs.Layout.{listing_of, IsWhole};

    ghost view = { λ f. listing_of f.slab f.head f.changes f.last };

    ghost invariant = { λ f. IsWhole f.slab f.head f.last f.count f.marks };
}

/// Counts one more change, up to 2^64 - 1.
fn advance(changes: &mut u64)
    ensures next { changes.new ≡ one_more changes.old }
    ensures fits { changes.old < 2 ^ 64 }
{
    *changes = changes.saturating_add(1);
}

impl NodeList {
    /// Makes a list that has only the dummy of bucket 0, with this stamp. The list's change number
    /// is 0.
    ///
    /// # Errors
    ///
    /// `AllocError` if memory is refused.
    ///
    /// # Cost
    ///
    /// Constant time, and three allocations: two for the counts of marked nodes, which take 33,280
    /// bytes, and one for the node.
    pub fn new(alloc: Global, first_stamp: u64) -> Result<Self, AllocError>
        requires { first_stamp < 2 ^ 64 - 1 }
        ensures nodes { IfOk result (λ list. list.nodes ≡ first_dummy list.head first_stamp ∷ []) }
        ensures out { IfOk result (λ list. (place : ℕ) → out_at list place ≡ None) }
        ensures changes { IfOk result (λ list. list.changes ≡ 0) }
        ensures last { IfOk result (λ list. list.last ≡ first_stamp) }
        ensures sound { IfOk result IsSound }
    {
        let marks = Tally::new(alloc)?;
        let mut slab = Slab::new(alloc);
        let node = Node::dummy(SortKey::dummy(0), first_stamp);
        match slab.insert(Slot::of_linked(node)) {
            // The first place of a slab is 0.
            Ok(_) => Ok(NodeList {
                slab,
                head: NodeRef::new(0),
                changes: 0,
                last: first_stamp,
                count: 0,
                marks,
            }),
            Err(_) => Err(AllocError),
        }
    }

    /// Reserves a place for a node, and returns the spare that keeps the place. The spare's stamp
    /// is one more than the last stamp. The spare is filled as the dummy of bucket 0.
    ///
    /// # Errors
    ///
    /// `Worn` exactly if the last stamp was 2^64 - 2. Otherwise `NoMemory` if memory is refused, or
    /// if all 2^32 - 1 places are in use. After either error the list is unchanged.
    ///
    /// # Cost
    ///
    /// Amortized constant time; takes memory only if the slab has to grow.
    #[inline(always)]
    pub fn spare(&mut self) -> Result<Spare, SpareFault>
        ensures worn { (result ≡ Err SpareFault.Worn) ↔ (self.old.last ≡ 2 ^ 64 - 2) }
        ensures stamp { IfOk result (λ spare. spare.stamp ≡ self.old.last + 1) }
        ensures filled { IfOk result (λ spare.
            filled spare ≡ first_dummy spare.place spare.stamp) }
        ensures ok { IfOk result (λ spare. GivesOut self.old self.new spare.place spare.stamp) }
        ensures unchanged { OnErr result (self.new ≡ self.old) }
        ensures follows { Follows self.old self.new }
    {
        if self.last >= u64::MAX - 1 {
            return Err(SpareFault::Worn);
        }
        let stamp = self.last + 1;
        let node = Node::dummy(SortKey::dummy(0), stamp);
        let Ok(place) = u32::try_from(self.slab.vacant_key()) else {
            return Err(SpareFault::NoMemory);
        };
        if place == u32::MAX {
            return Err(SpareFault::NoMemory);
        }
        match self.slab.insert(Slot::out(&node)).ok() {
            Some(_) => {
                self.last = stamp;
                Ok(Spare::of(NodeRef::new(place), node))
            }
            None => Err(SpareFault::NoMemory),
        }
    }

    /// Takes back a spare that was not linked, and frees its place. The spare's stamp is never
    /// given again.
    pub fn give_back(&mut self, spare: Spare)
        requires { IsOut self.old spare }
        ensures back { ReturnsSpare self.old self.new spare.place }
        ensures follows { Follows self.old self.new }
    {
        let _ = self.slab.try_remove(spare.node().place());
    }

    /// Links the node of a spare right after the linked node `pred`, where the spare's sort key
    /// belongs. The spare is then no longer out.
    pub fn link_after(&mut self, pred: NodeRef, spare: Spare)
        requires vacant { IsVacant self.old.nodes pred spare.at }
        requires out { IsOut self.old spare }
        ensures linked { UsesSpare self.old self.new
            (linked_after self.old.nodes pred (filled spare)) spare.place }
        ensures node { node_of self.new.nodes spare.place ≡ Some (filled spare) }
        ensures follows { Follows self.old self.new }
    {
        let place = spare.node();
        let next = replace_next(&mut self.slab, pred.place(), PackedRef::of(place));
        let node = spare.into_node(next);
        let weight = node.kind.weight();
        set_slot(&mut self.slab, place.place(), Slot::of_linked(node));
        // There are at most as many counted nodes as places in use, so no counter overflows.
        let _places = self.slab.len();
        self.count += weight;
        advance(&mut self.changes);
    }

    /// Unlinks the marked node right after the linked node `pred`, and frees its place.
    // This is a separate function, so that a seek is small enough to be inlined into its callers.
    #[inline(never)]
    pub fn unlink_after(&mut self, pred: NodeRef)
        requires { IsBeforeMarked self.old.nodes pred }
        ensures unlinked { Becomes self.old self.new (unlinked_after self.old.nodes pred) }
        ensures follows { Follows self.old self.new }
    {
        if let Some(node) = node_at(&self.slab, pred.place()).next() {
            let behind = *node_at(&self.slab, node.place());
            let _ = replace_next(&mut self.slab, pred.place(), behind.next);
            let _ = self.slab.try_remove(node.place());
            self.marks.take_away(behind.at.split());
            advance(&mut self.changes);
        }
    }

    /// Marks an unmarked regular node. The node stays linked, but `count` no longer counts it.
    pub fn set_mark(&mut self, node: NodeRef)
        requires { IsRegularAt self.old.nodes node }
        ensures marked { Becomes self.old self.new (marked_at self.old.nodes node) }
        ensures follows { Follows self.old self.new }
    {
        let split = node_at(&self.slab, node.place()).at.split();
        mark(&mut self.slab, node.place());
        // There are at most as many counted nodes as places in use, so no counter overflows.
        let _places = self.slab.len();
        self.count -= 1;
        self.marks.add(split);
        advance(&mut self.changes);
    }

    /// Writes the value of a linked node.
    pub fn write(&mut self, node: NodeRef, value: u64)
        requires { IsLinked self.old.nodes node }
        ensures written { Becomes self.old self.new (written_at self.old.nodes node value) }
        ensures follows { Follows self.old self.new }
    {
        set_value(&mut self.slab, node.place(), value);
        advance(&mut self.changes);
    }

    /// The node that is linked at a place.
    pub fn node(&self, node: NodeRef) -> &Node
        requires { IsLinked self.now.nodes node }
        ensures node { node_of self.now.nodes node ≡ Some (node_seen node result.now) }
        ensures next { place_of (next_of self.now.nodes node) ≡ result.now.next }
        ensures sound { IsSound self.now }
    {
        node_at(&self.slab, node.place())
    }

    /// The node that is linked at a place now, or None if no node is linked there.
    pub fn linked_node(&self, node: NodeRef) -> Option<&Node>
        ensures absent { IfNone result (node_of self.now.nodes node ≡ None) }
        ensures node { IfSome result (λ n. node_of self.now.nodes node
            ≡ Some (node_seen node n.now)) }
        ensures next { IfSome result (λ n. place_of (next_of self.now.nodes node) ≡ n.now.next) }
        ensures sound { IsSound self.now }
    {
        match linked_at(&self.slab, node.place()) {
            Some(node) => Some(node),
            None => None,
        }
    }

    /// The dummy of bucket 0, which is the first node.
    pub fn head(&self) -> NodeRef
        ensures place { result ≡ self.now.head }
        ensures sound { IsSound self.now }
    {
        self.head
    }

    /// The change number: how many links, marks, unlinks and writes there were, at most 2^64 - 1.
    pub fn changes(&self) -> u64
        ensures changes { result ≡ self.now.changes }
        ensures sound { IsSound self.now }
    {
        self.changes
    }

    /// How many regular nodes are linked and unmarked.
    pub fn count(&self) -> u64
        ensures { result ≡ live_count self.now.nodes }
    {
        self.count
    }

    /// How many linked nodes are marked.
    pub fn marked_count(&self) -> u64
        ensures count { result ≡ marked_count self.now.nodes }
        ensures none { (result ≡ 0) ↔ AllByRecursion (λ n. n.marked ≡ false) self.now.nodes }
    {
        self.marks.total()
    }

    /// A split key at or shortly before the first marked node: no marked node has a lower split
    /// key, and the split key of the first marked node is less than 2^52 higher. Returns `None`
    /// exactly if no node is marked.
    ///
    /// # Cost
    ///
    /// Constant time: it reads the total and at most 64 + 64 counts.
    pub fn marks_begin(&self) -> Option<u64>
        ensures none { (result ≡ None) ↔ AllByRecursion (λ n. n.marked ≡ false) self.now.nodes }
        ensures from { IfSome result (λ split. AreMarksFrom split self.now.nodes) }
        ensures near { IfSome result (λ split. IsSomeAnd (first_marked self.now.nodes)
            (λ n. n.at.split < split + 2 ^ 52)) }
        ensures sound { IsSound self.now }
    {
        self.marks.first()
    }
}
