// PROMISES a-verdict-by-any-order-is-right: by_commits, in_time
//! The laws of serializable histories and of footprints. Each law is the contract of a function
//! that does nothing. The first two laws are about histories. The others are about any transactions
//! with footprints, so they say why the judge is right.
ghost use Rattle.std.specs.Prelude.{◌≡◌, ℕ, ◌<◌, None, Some, List};
ghost use Rattle.txn_words.specs.declared.entry.Entry.{Entry};
ghost use Rattle.txn_words.specs.declared.holder.Holder.{Holder};
ghost use Rattle.txn_trace.specs.History.{commits};
ghost use Rattle.txn_trace.specs.Legal.{IsLegal};
ghost use Rattle.serial_check.specs.Serializable.{IsSerializableByCommits};
ghost use Rattle.order_check.specs.declared.edge.Edge.{Edge};
ghost use Rattle.order_check.specs.Dependencies.{Needs, Writes};
ghost use Rattle.order_check.specs.Footprints.{Footprint, no_values, RunsFrom};
ghost use Rattle.order_check.specs.Forces.{Forces, OnlyThese};
ghost use Rattle.order_check.specs.Graphs.{IsCycle};
ghost use Rattle.order_check.specs.Lists.{AreApart, IsIn, place};
ghost use Rattle.order_check.specs.Orders.{IsOrderOf, HasNoOrder};
ghost use Rattle.order_check.specs.RealTime.{IsStrictlySerializable};
ghost use Rattle.order_check.specs.Serializable.{IsSerialOrder, IsSerializable};
ghost use Rattle.order_check.specs.Sources.{Sources, KeepsSources};

/// If a history is serializable in the order of its commits, this order is a serial order. So the
/// history is serializable. A history that is legal by locks is serializable too.
pub fn by_commits()
    ensures order { (h : List Entry) → IsSerializableByCommits h → IsSerialOrder h (commits h) }
    ensures commits { (h : List Entry) → IsSerializableByCommits h → IsSerializable h }
    ensures legal { (holder : Holder) (stripes : ℕ) (h : List Entry) → IsLegal holder stripes h
        → IsSerializable h }
{}

/// A history that is serializable in the order of its commits is strictly serializable. A history
/// that is strictly serializable is serializable.
pub fn in_time()
    ensures commits { (h : List Entry) → IsSerializableByCommits h → IsStrictlySerializable h }
    ensures plain { (h : List Entry) → IsStrictlySerializable h → IsSerializable h }
{}

/// If an edge's value comes only once, or if it is one of real time, the edge goes forward in every
/// order in which all transactions find what they need, and that keeps real time.
pub fn edges_forced()
    ensures { (all : List ℕ) (footprints : ℕ → Footprint) (since : ℕ → ℕ)
        → OnlyThese (λ t. IsIn t all) footprints → (edge : Edge) (to : ℕ)
        → Forces footprints since edge to → (order : List ℕ)
        → IsOrderOf (λ t. IsIn t all) footprints since order
        → place edge.from order < place to order }
{}

/// What shows that transactions have no order: a value that one of them needs and none of them
/// writes, or edges in a circle that are all forced.
pub fn no_order()
    ensures writer { (all : List ℕ) (footprints : ℕ → Footprint) (since : ℕ → ℕ) (t key value : ℕ)
        → IsIn t all → Needs (footprints t) key (Some value)
        → ((u : ℕ) → Writes (footprints u) key (Some value) → ⊥)
        → HasNoOrder (λ t. IsIn t all) footprints since }
    ensures cycle { (all : List ℕ) (footprints : ℕ → Footprint) (since : ℕ → ℕ)
        → OnlyThese (λ t. IsIn t all) footprints → (edges : List Edge)
        → IsCycle (Forces footprints since) edges → HasNoOrder (λ t. IsIn t all) footprints since }
{}

/// If each transaction comes after the sources of what it needs, and before all others that replace
/// what it needs from these sources, then each transaction finds what it needs. No value need be
/// written only once.
pub fn sources_suffice()
    ensures { (footprints : ℕ → Footprint) (source : Sources) (order : List ℕ) → AreApart order
        → KeepsSources footprints source order → RunsFrom footprints no_values order }
{}
