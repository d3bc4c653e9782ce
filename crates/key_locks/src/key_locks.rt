// PROMISES one-holder-for-each-stripe: KeyLocks::lock, release_all
//! The holders of the stripes, for use by one thread at a time. Each stripe has a byte for its
//! holder, and the stripes of each caller form a chain. So `release_all` takes time only in
//! proportion to the stripes that it frees. Invariant: each chain has exactly the stripes that its
//! caller holds.
ghost use Rattle.std.specs.Prelude.{◌≡◌, ℕ, ◌<◌, List, Option, None, length, replicate, IfOk};
ghost use Rattle.key_locks.specs.Chains.{AreChained};

use crate::lock_answer::LockAnswer;
use crate::packed::{Holder, Link};
use std::alloc::{AllocError, Global};
use std::marker::Model;

/// The number of callers: each caller's number is below it.
pub const CALLERS: usize = 64;

/// Abstract locks: stripes of keys, each with at most one holder. A caller has a number below
/// `CALLERS`, and a stripe has a number from 0. A contract sees the list of the stripes' holders.
#[derive(Drop)]
pub struct KeyLocks {
    // For each stripe, the caller that holds it.
    holders: Vec<Holder>,
    // For each held stripe, the stripe that its holder took just before it, if any.
    older: Vec<Link>,
    // For each caller, the stripe that it took last.
    newest: Vec<Link>,
}

impl Model for KeyLocks {
    ghost Value = { List (Option ℕ) };

    ghost view = { λ locks. locks.holders.items };

    ghost invariant = { λ locks.
        AreChained locks.holders.items locks.older.items locks.newest.items };
}

fn free_stripes(alloc: Global, count: usize) -> Result<Vec<Holder>, AllocError>
    ensures { IfOk result (λ holders. holders.items ≡ replicate count None) }
{
    vec![in alloc; Holder::none(); count]
}

fn no_links(alloc: Global, count: usize) -> Result<Vec<Link>, AllocError>
    ensures { IfOk result (λ links. links.items ≡ replicate count None) }
{
    vec![in alloc; Link::none(); count]
}

impl KeyLocks {
    ghost use Rattle.key_locks.specs.Locks.{Locks, Releases, holder_of};

    /// Makes locks for this number of stripes, none of them held, and takes all the memory that
    /// they will ever need.
    ///
    /// # Errors
    ///
    /// `AllocError` if memory is refused.
    ///
    /// # Cost
    ///
    /// Time and memory in proportion to the number of stripes.
    pub fn new(alloc: Global, stripes: usize) -> Result<KeyLocks, AllocError>
        ensures { IfOk result (λ locks. locks ≡ replicate stripes None) }
    {
        let holders = free_stripes(alloc, stripes)?;
        let older = no_links(alloc, stripes)?;
        let newest = no_links(alloc, CALLERS)?;
        Ok(KeyLocks {
            holders,
            older,
            newest,
        })
    }

    /// The caller that holds the stripe, or None if the stripe is free or there is no such stripe.
    pub fn holder(&self, stripe: usize) -> Option<usize>
        ensures { result ≡ holder_of self.now stripe }
    {
        self.holders.get(stripe)?.caller()
    }

    /// Makes the caller the holder of the stripe, unless another caller holds it. If another caller
    /// does, nothing changes, and the result names that caller. A stripe that the caller already
    /// holds is granted again. No other stripe changes.
    pub fn lock(&mut self, caller: usize, stripe: usize) -> LockAnswer
        requires caller { caller < CALLERS }
        requires stripe { stripe < length self.old }
        ensures { Locks caller stripe self.old result self.new }
    {
        match self.holders[stripe].caller() {
            Some(holder) if holder == caller => LockAnswer::Granted,
            Some(holder) => LockAnswer::Busy(holder),
            None => {
                self.holders[stripe] = Holder::of(caller);
                self.older[stripe] = self.newest[caller];
                self.newest[caller] = Link::to(stripe);
                LockAnswer::Granted
            }
        }
    }

    /// Frees all stripes that the caller holds, and no other stripe. If the caller's number is
    /// `CALLERS` or more, frees no stripe.
    ///
    /// # Cost
    ///
    /// Time in proportion to the number of stripes that it frees; takes no memory.
    pub fn release_all(&mut self, caller: usize)
        ensures { Releases caller self.old self.new }
    {
        if caller >= self.newest.len() {
            return;
        }
        while let Some(stripe) = self.newest[caller].stripe() {
            self.holders[stripe] = Holder::none();
            self.newest[caller] = self.older[stripe];
        }
    }
}
