//! The slots of the slab. A slot has a linked node, or its place is kept for a spare. The node's
//! flag `is_linked` tells the two cases apart, so a slot is only as large as a node: 32 bytes. Only
//! this module reads this flag. For the list and for each contract, a slot is one of these two
//! cases.
ghost use Rattle.std.specs.Prelude.{◌≡◌, Some, true, option_copied};
ghost use Rattle.slab.specs.Slab.{get, with_value, ContainsKey};
ghost use Rattle.node_list.specs.declared.node.Node.{Node};
ghost use Rattle.node_list.specs.Slots.{Linked, Out, node_in};

use crate::node::Node;
use crate::packed_ref::PackedRef;
use slab::Slab;
use std::marker::Model;
use std::mem::size_of;

/// A linked node, or the stamp of a spare for which the place is kept. The node's flag `is_linked`,
/// a byte beside its mark, tells the two cases apart. An enum would take one more word for each
/// slot.
#[derive(Drop)]
pub struct Slot {
    node: Node,
}

const _: () = prove!(size_of::<Slot>() == 32);

impl Model for Slot {
    ghost use Rattle.node_list.specs.Slots.{SlotAt, slot_of};

    ghost Value = { SlotAt };

    ghost view = { λ s. slot_of s.node };
}

impl Slot {
    /// A slot that has this linked node.
    pub fn of_linked(node: Node) -> Self
        requires { node.is_linked ≡ true }
        ensures { result ≡ Linked node }
    {
        Slot { node }
    }

    /// A slot whose place is kept for a spare with the stamp of this node.
    pub fn out(node: &Node) -> Self
        ensures { result ≡ Out node.now.stamp }
    {
        let mut node = *node;
        node.is_linked = false;
        Slot { node }
    }

    /// The linked node, if there is one.
    fn node(&self) -> Option<&Node>
        ensures { option_copied result ≡ node_in (Some self.now) }
    {
        if self.node.is_linked {
            Some(&self.node)
        } else {
            None
        }
    }

    /// The linked node in the slot.
    fn linked_node(&self) -> &Node
        requires { (node : Node) × (self.now ≡ Linked node) }
        ensures { self.now ≡ Linked result.now }
    {
        &self.node
    }

    /// Replaces the reference to the next node in the linked node, and returns the old reference.
    fn replace_next(&mut self, next: PackedRef) -> PackedRef
        ensures was { (node : Node) → self.old ≡ Linked node → result ≡ node.next }
        ensures now { (node : Node) → self.old ≡ Linked node →
            self.new ≡ Linked (record node { next = next }) }
    {
        let was = self.node.next;
        self.node.next = next;
        was
    }

    fn mark(&mut self)
        ensures { (node : Node) → self.old ≡ Linked node →
            self.new ≡ Linked (record node { marked = true }) }
    {
        self.node.marked = true;
    }

    fn set_value(&mut self, value: u64)
        ensures { (node : Node) → self.old ≡ Linked node →
            self.new ≡ Linked (record node { value = value }) }
    {
        self.node.value = value;
    }
}

/// The linked node at a place.
pub fn node_at(slab: &Slab<Slot>, place: usize) -> &Node
    requires { (node : Node) × (get slab.now place ≡ Some (Linked node)) }
    ensures { get slab.now place ≡ Some (Linked result.now) }
{
    match slab.get(place) {
        Some(slot) => slot.linked_node(),
        None => unreachable!(),
    }
}

/// The linked node at a place, if there is one.
pub fn linked_at(slab: &Slab<Slot>, place: usize) -> Option<&Node>
    ensures { option_copied result ≡ node_in (get slab.now place) }
{
    match slab.get(place) {
        Some(slot) => slot.node(),
        None => None,
    }
}

/// Writes the slot of a place that is in use.
pub fn set_slot(slab: &mut Slab<Slot>, place: usize, slot: Slot)
    requires { ContainsKey slab.old place }
    ensures { slab.new ≡ with_value slab.old place slot }
{
    if let Some(there) = slab.get_mut(place) {
        *there = slot;
    }
}

/// Replaces the reference to the next node in a linked node, and returns the old reference.
pub fn replace_next(slab: &mut Slab<Slot>, place: usize, next: PackedRef) -> PackedRef
    requires { (node : Node) × (get slab.old place ≡ Some (Linked node)) }
    ensures was { (node : Node) → get slab.old place ≡ Some (Linked node) → result ≡ node.next }
    ensures now { (node : Node) → get slab.old place ≡ Some (Linked node) →
        slab.new ≡ with_value slab.old place (Linked (record node { next = next })) }
{
    match slab.get_mut(place) {
        Some(slot) => slot.replace_next(next),
        None => unreachable!(),
    }
}

/// Marks a linked node.
pub fn mark(slab: &mut Slab<Slot>, place: usize)
    requires { (node : Node) × (get slab.old place ≡ Some (Linked node)) }
    ensures { (node : Node) → get slab.old place ≡ Some (Linked node) →
        slab.new ≡ with_value slab.old place (Linked (record node { marked = true })) }
{
    if let Some(slot) = slab.get_mut(place) {
        slot.mark();
    }
}

/// Writes the value of a linked node.
pub fn set_value(slab: &mut Slab<Slot>, place: usize, value: u64)
    requires { (node : Node) × (get slab.old place ≡ Some (Linked node)) }
    ensures { (node : Node) → get slab.old place ≡ Some (Linked node) →
        slab.new ≡ with_value slab.old place (Linked (record node { value = value })) }
{
    if let Some(slot) = slab.get_mut(place) {
        slot.set_value(value);
    }
}
