//! The class of a cycle (`specs/Classes.antt`).
ghost use Rattle.std.specs.Prelude.{◌≡◌, ◌==◌, count_by};
ghost use Rattle.std.specs.List.{list_any};
ghost use Rattle.judge_engine.specs.Classes.{class_of, is_anti, is_lost_update, is_time};

use order_check::{Edge, Kind};
use std::fmt;

/// The class of a cycle, by Adya's names. An anti-dependency is an edge whose second transaction
/// replaced what the first one read.
#[derive(Clone, Copy)]
pub(crate) enum Class {
    /// Two transactions read one value of one key, and each replaced it.
    LostUpdate,
    /// No edge is an anti-dependency.
    G1c,
    /// One edge is an anti-dependency.
    GSingle,
    /// Several edges are anti-dependencies, as in a write skew.
    G2Item,
}

impl fmt::Display for Class {
    ghost use Rattle.std.specs.Prelude.{Some};
    ghost use Rattle.judge_engine.specs.Classes.{class_words};

    ghost output = { λ class. Some (class_words class) };

    fn fmt<W: fmt::Write>(&self, f: &mut fmt::Formatter<W>) -> fmt::Result {
        match *self {
            Class::LostUpdate => f.write_str("lost update"),
            Class::G1c => f.write_str("G1c"),
            Class::GSingle => f.write_str("G-single"),
            Class::G2Item => f.write_str("G2-item"),
        }
    }
}

/// Whether edges of this kind are anti-dependencies. Constant time.
fn is_anti(kind: Kind) -> bool
    ensures { result ≡ is_anti kind }
{
    match kind {
        Kind::Read => false,
        Kind::Replaced => true,
        Kind::Began => false,
    }
}

/// Whether edges of this kind are those of real time. Constant time.
fn is_time(kind: Kind) -> bool
    ensures { result ≡ is_time kind }
{
    match kind {
        Kind::Read => false,
        Kind::Replaced => false,
        Kind::Began => true,
    }
}

/// What the name of a class ends with, if an edge of the cycle is one of real time.
#[derive(Clone, Copy)]
pub(crate) struct TimeSuffix(pub(crate) bool);

impl fmt::Display for TimeSuffix {
    ghost use Rattle.std.specs.Prelude.{Some};
    ghost use Rattle.judge_engine.specs.Classes.{time_suffix};

    ghost output = { λ suffix. Some (time_suffix suffix.0) };

    fn fmt<W: fmt::Write>(&self, f: &mut fmt::Formatter<W>) -> fmt::Result {
        if self.0 {
            f.write_str("-realtime")
        } else {
            Ok(())
        }
    }
}

/// Whether one of the edges is one of real time.
pub(crate) fn has_time(edges: &[Edge]) -> bool
    ensures { result ≡ list_any (λ edge. is_time edge.kind) edges.now }
{
    edges.iter().any(|edge| is_time(edge.kind))
}

/// How many edges are anti-dependencies.
fn antis_in(edges: &[Edge]) -> usize
    ensures { result ≡ count_by (λ edge. is_anti edge.kind) edges.now }
{
    edges.iter().filter(|edge| is_anti(edge.kind)).count()
}

/// Whether these are two edges of transactions that read one value of one key and replaced it.
fn is_lost_update(edges: &[Edge]) -> bool
    ensures { result ≡ is_lost_update edges.now }
{
    match edges {
        [a, b] => is_anti(a.kind) && is_anti(b.kind) && a.key == b.key && a.value == b.value,
        _ => false,
    }
}

/// The class of a cycle of these edges.
pub(crate) fn class_of(edges: &[Edge]) -> Class
    ensures { result ≡ class_of edges.now }
{
    if is_lost_update(edges) {
        return Class::LostUpdate;
    }
    match antis_in(edges) {
        0 => Class::G1c,
        1 => Class::GSingle,
        _ => Class::G2Item,
    }
}
