// PROMISES callers-in-threads: SharedMap::close
//! Closing a map: the map's history is compared with what the callers saw. Unlike the other calls,
//! `close` takes the map and its callers by value, so it waits for no lock, and no entry is added
//! meanwhile. The ledger has counted the entries that the callers saw. So if each caller's own
//! entries are right, the history has no other entries.
ghost use Rattle.std.specs.Prelude.{◌≡◌, ◌==◌, ◌↔◌, All, IsTrue, IfOk, IfErr, length};
ghost use Rattle.std.specs.List.{list_any};
ghost use Rattle.txn_words.specs.declared.holder.Holder.TheVariants.{Begun};
ghost use Rattle.txn_trace.specs.Legal.{IsLegal};
ghost use Rattle.txn_words.specs.Shape.{own};
ghost use Rattle.locked_map.specs.Tokens.{AreCounted};
ghost use Rattle.locked_map.specs.Closes.{IsAllHere, IsBeside, IsCounted, IsOwn, IsWhy, back_of};

use crate::caller::Caller;
use crate::closed::Closed;
use crate::shared_map::SharedMap;
use crate::unclosed::Unclosed;
use boost_core::Core;
use std::sync::ledger::Ledger;
use txn_trace::{Limits, SmallEntry};
use undo_log::Side;

impl<L: Ledger> SharedMap<L> {
    /// Closes the map: takes the core out, and compares the core's history with the entries that
    /// the callers saw. Exactly one caller with each number must be passed in.
    ///
    /// If this returns `Ok`, the core has the map's limits. Its history is legal by the rule that a
    /// Busy entry may name any other caller that has begun a transaction. Each caller's own entries
    /// in the history are exactly those that the caller saw, and the history has no others. `Ok`
    /// and both errors return the callers unchanged, in their order.
    ///
    /// # Errors
    ///
    /// - `Missing` exactly if a number is missing or was passed in twice.
    /// - Otherwise `Differs` exactly if the core has other limits, or if some caller's entries in
    ///   the history are not those that the caller saw. Even then the history has as many entries
    ///   as all callers saw.
    ///
    /// # Cost
    ///
    /// For each caller, time in proportion to the length of the history and the number of callers.
    /// Takes no memory.
    pub fn close<S: Side>(self, callers: Vec<Caller<L, S>>) -> Result<Closed<L, S>, Unclosed<L, S>>
        requires { self.limits.callers ≡ L.parts }
        ensures callers { IfOk result (λ c. c.callers.items ≡ callers.items) }
        ensures limits { IfOk result (λ c. c.core.limits ≡ self.limits) }
        ensures legal { IfOk result (λ c. IsLegal Begun c.core.limits.stripes c.core.history) }
        ensures own { IfOk result (λ c. All (λ k. IsOwn c.core.history k) callers.items) }
        ensures here { IfOk result (λ c. IsAllHere self.limits.callers callers.items) }
        ensures counted { IfOk result (λ c. AreCounted c.core.history callers.items) }
        ensures back { IfErr result (λ why. back_of why ≡ callers.items) }
        ensures why { IfErr result (λ why. IsWhy self.limits callers.items why) }
        ensures beside { IfErr result (λ why. IsBeside self.limits callers.items why) }
        ensures counted_too { IfErr result (λ why. IsCounted callers.items why) }
    {
        if !self.has_all(callers.as_slice()) {
            return Err(Unclosed::Missing(self, callers));
        }
        let mut callers = callers;
        let (core, is_seen) = self.into_core(callers.as_mut_slice());
        if is_seen {
            Ok(Closed { core, callers })
        } else {
            Err(Unclosed::Differs(core, callers))
        }
    }

    /// Returns true if there is exactly one caller with each number of the map.
    fn has_all<S: Side>(&self, callers: &[Caller<L, S>]) -> bool
        ensures { IsTrue result ↔ IsAllHere self.now.limits.callers callers.now }
    {
        has_all(callers, u64::from(self.limits().callers()))
    }

    /// Takes the core out, and says whether it is as expected: the core has the map's limits, and
    /// each caller's entries in the core's history are those that the caller saw. All callers are
    /// passed in, so the history has as many entries as they saw.
    fn into_core<S: Side>(self, callers: &mut [Caller<L, S>]) -> (Core, bool)
        requires parts { length callers.old ≡ L.parts }
        ensures callers { callers.new ≡ callers.old }
        ensures legal { IsLegal Begun result.0.limits.stripes result.0.history }
        ensures counted { AreCounted result.0.history callers.old }
        ensures seen { IsTrue result.1 ↔ ((result.0.limits ≡ self.limits)
            × All (λ k. IsOwn result.0.history k) callers.old) }
    {
        let limits = self.limits();
        let booked = self.into_booked();
        let is_seen = is_seen(&booked.core, limits, callers);
        (booked.into_core(callers), is_seen)
    }
}

/// Returns true if there is exactly one caller with each number below `count`.
fn has_all<L: Ledger, S: Side>(callers: &[Caller<L, S>], count: u64) -> bool
    ensures { IsTrue result ↔ IsAllHere count callers.now }
{
    if callers.len() as u64 != count {
        return false;
    }
    for number in 0..count {
        if !has(callers, number) {
            return false;
        }
    }
    true
}

/// Returns true if a caller has this number.
fn has<L: Ledger, S: Side>(callers: &[Caller<L, S>], number: u64) -> bool
    ensures { result ≡ list_any (λ k. k.number == number) callers.now }
{
    callers.iter().any(|k| k.number() == number)
}

/// Returns true if a core has these limits and each caller's entries in the core's history are
/// those that the caller saw.
fn is_seen<L: Ledger, S: Side>(core: &Core, limits: Limits, callers: &[Caller<L, S>]) -> bool
    ensures { IsTrue result ↔ ((core.now.limits ≡ limits)
        × All (λ k. IsOwn core.now.history k) callers.now) }
{
    core.limits() == limits && is_all_own(core, callers)
}

/// Returns true if each caller's entries in the core's history are those that the caller saw.
fn is_all_own<L: Ledger, S: Side>(core: &Core, callers: &[Caller<L, S>]) -> bool
    ensures { IsTrue result ↔ All (λ k. IsOwn core.now.history k) callers.now }
{
    callers
        .iter()
        .all(|k| is_own(core.trace(), k.number(), k.seen()))
}

/// Returns true if the caller's entries in the history are exactly `seen`.
fn is_own(trace: &[SmallEntry], caller: u64, seen: &[SmallEntry]) -> bool
    ensures { IsTrue result ↔ (own caller trace.now ≡ seen.now) }
{
    let mut rest = seen;
    for entry in trace {
        if entry.caller() == caller {
            let Some((first, more)) = rest.split_first() else {
                return false;
            };
            if !first.is_same(entry) {
                return false;
            }
            rest = more;
        }
    }
    rest.is_empty()
}
