//! The public type `Shard`: a map, and how many changes can be taken back. The type's invariant: for
//! each of these changes the map has room for one more key, so that taking back needs no memory. The
//! functions on the two fields are in `change.rt`.
ghost use Rattle.std.specs.Prelude.{◌≡◌, ℕ, ◌<◌, IfOk, IfErr, OnErr};
ghost use Rattle.txn_words.specs.Map.{count_of};
ghost use Rattle.stripe_shard.specs.ShardAt.{nothing};
ghost use Rattle.stripe_shard.specs.Calls.{Does, IsRefused, TakesBack};

use crate::change::{apply, take_back};
use crate::map::ProbeMap;
use std::alloc::{AllocError, Global};
use std::marker::Model;
use txn_words::{Op, Refusal, Reply};

/// The map of one stripe. It can take changes of the open transaction back.
///
/// A contract sees a `ShardAt`. Its `content` is a finite map, and `owed` is the number of changes
/// that can be taken back without memory. The user of the shard keeps the changes themselves.
///
/// # Cost
///
/// A shard has 64 bytes. It takes memory for its array at the first operation that may be a change,
/// or at the start if it is to have room.
// The fields that each operation touches come first, and are in one cache line wherever a list of
// shards begins 0 or 16 bytes past the begin of a line.
#[derive(Drop)]
pub struct Shard {
    owed: usize,
    map: ProbeMap,
}

impl Model for Shard {
    ghost use Rattle.std.specs.Prelude.{◌≤◌};
    ghost use Rattle.stripe_shard.specs.ShardAt.{ShardAt, shard_code};
    ghost use Rattle.stripe_shard.specs.Stored.{shard_of};

    ghost Value = { ShardAt };

    ghost coded = { shard_code };

    ghost view = { λ p. shard_of p.map.content p.owed };

    ghost invariant = { λ p. p.owed ≤ p.map.spare };
}

impl Shard {
    /// An empty shard with no change to take back and with room for `keys` keys. The hash of its keys
    /// has this seed, on which only the time of the calls depends.
    ///
    /// Let `n` be the number of keys that were put plus the number of changes that are owed. A key
    /// that was put and later taken out still counts. As long as `n` is below `keys`, `apply` takes
    /// no memory. For instance, if the shard settles after each new key, the first `keys` new keys
    /// take no memory.
    ///
    /// # Errors
    ///
    /// `AllocError` if memory is refused, or if this number of keys cannot fit in any memory.
    ///
    /// # Cost
    ///
    /// Time and memory in proportion to `keys`. If `keys` is 0, constant time and no memory.
    pub fn with_capacity_and_seed(
        alloc: Global,
        keys: usize,
        seed: u64,
    ) -> Result<Shard, AllocError>
        ensures { IfOk result (λ shard. shard ≡ nothing) }
    {
        if keys == 0 {
            return Ok(Shard {
                owed: 0,
                map: ProbeMap::with_seed(alloc, seed),
            });
        }
        // `apply` reserves room for two keys when it puts one: for the key, and for taking the
        // change back.
        Ok(Shard {
            owed: 0,
            map: ProbeMap::with_capacity_and_seed(alloc, keys.saturating_add(1), seed)?,
        })
    }

    /// Does an operation. The reply and the new content are those of the operation on a plain map.
    /// If the operation is a change, one more change is owed. The shard's user then notes the key
    /// and the reply, which is the key's old value.
    ///
    /// # Errors
    ///
    /// `NoMemory` if memory is refused, which cannot happen for a get. Then the shard is unchanged.
    ///
    /// # Cost
    ///
    /// Amortized constant time, except for keys whose hashes collide (`ProbeMap::get`). A get takes
    /// no memory; other operations may.
    #[inline(always)]
    pub fn apply(&mut self, op: Op) -> Result<Reply, Refusal>
        ensures ok { IfOk result (Does self.old self.new op) }
        ensures err { IfErr result (IsRefused op) }
        ensures unchanged { OnErr result (self.new ≡ self.old) }
    {
        apply(&mut self.map, &mut self.owed, op)
    }

    /// Takes a change back: the change's key gets the value that it had before, and all other keys
    /// are unchanged. One change fewer is owed; `changes` must be above 0. If the changes of a
    /// transaction are all taken back, newest first, the content is then the same as before the
    /// transaction.
    ///
    /// # Cost
    ///
    /// The time of `apply`. Takes no memory.
    pub fn take_back(&mut self, key: u64, before: Option<u64>)
        requires { 0 < self.old.owed }
        ensures { TakesBack self.old self.new key before }
    {
        take_back(&mut self.map, &mut self.owed, key, before);
    }

    /// Keeps all changes: they can no longer be taken back.
    ///
    /// # Cost
    ///
    /// Constant time; takes no memory.
    #[inline(always)]
    pub fn settle(&mut self)
        ensures content { self.new.content ≡ self.old.content }
        ensures owed { self.new.owed ≡ 0 }
    {
        self.owed = 0;
    }

    /// How many changes can be taken back. Constant time.
    pub fn changes(&self) -> usize
        ensures { result ≡ self.now.owed }
    {
        self.owed
    }

    /// How many keys there are. Constant time.
    pub fn len(&self) -> u64
        ensures { result ≡ count_of self.now.content }
    {
        self.map.len() as u64
    }

    /// The keys with their values, in rising order of keys.
    ///
    /// # Errors
    ///
    /// `AllocError` if memory is refused.
    ///
    /// # Cost
    ///
    /// Goes over all slots of the map and sorts the keys. Takes memory in proportion to the number
    /// of keys.
    pub fn pairs(&self, alloc: Global) -> Result<Vec<(u64, u64)>, AllocError>
        ensures { IfOk result (λ pairs. pairs.items ≡ self.now.content.rows) }
    {
        let mut pairs = self.map.pairs(alloc)?;
        pairs.sort()?;
        Ok(pairs)
    }
}
