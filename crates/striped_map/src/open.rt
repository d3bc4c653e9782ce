//! Opens striped maps. This uses `map`, `host` and `caller`, so it belongs to none of these
//! modules. Each caller gets a seat that is split off the first seat, which the host keeps. Later
//! callers are made by callers (`Caller::another`).
ghost use Rattle.std.specs.Prelude.{◌≡◌, ℕ, IfOk, IfErr, None, replicate};
ghost use Rattle.striped_map.specs.declared.keep.Keep.TheVariants.{Nothing, Entries};
ghost use Rattle.striped_map.specs.Hosts.{IsNotOpened, IsOpened, may_open};

use crate::caller::Caller;
use crate::host::Host;
use crate::keep::Keep;
use crate::map::StripedMap;
use crate::record::Records;
use crate::rule::Start;
use std::alloc::{AllocError, Global};
use std::sync::Arc;
use txn_trace::Refusal;

/// The largest number of stripes that a map may have, and also the largest number of callers that
/// it may have at first.
pub const MOST: usize = 4096;

/// How to open a striped map.
#[derive(Clone, Copy, Debug, PartialEq, Eq)]
pub struct Opening {
    /// How many stripes the map has, at least one and at most 4,096. Callers that use different
    /// stripes do not meet.
    pub stripes: usize,
    /// How many callers the map has at first, at most 4,096.
    pub callers: usize,
    /// For how many keys the stripes have room. The stripes take no memory for the first keys, up
    /// to this number, if two conditions hold. The keys must be spread evenly over the stripes,
    /// which is so for consecutive keys. And each transaction must do at most one operation in each
    /// stripe, not counting gets.
    pub keys: usize,
    /// What the map keeps of its history.
    pub keep: Keep,
    /// The seed of the hash that the stripes' maps use. Only the time of the calls depends on it.
    /// If a user can choose keys, a random seed makes it harder to choose keys that collide. With a
    /// seed of 2^32 or more, the homes of consecutive keys may be close.
    /// The stripe of a key does not depend on the seed.
    pub seed: u64,
}

/// Whether a map may have this many stripes and callers.
fn may_open(stripes: usize, callers: usize) -> bool
    ensures { result ≡ may_open stripes callers }
{
    1 <= stripes && stripes <= MOST && callers <= MOST
}

/// `count` empty places for records.
fn empty_records(alloc: Global, count: usize) -> Result<Vec<Option<Records>>, AllocError>
    ensures { IfOk result (λ theirs. theirs.items ≡ replicate count None) }
{
    let mut theirs = Vec::with_capacity(alloc, count)?;
    for _ in 0..count {
        theirs.push(None)?;
    }
    Ok(theirs)
}

/// A place for the records of each caller that there may ever be, if the map keeps its entries.
fn new_records(alloc: Global, keep: Keep) -> Result<Vec<Option<Records>>, AllocError>
    ensures { IfOk result (λ theirs. (count : ℕ) × (theirs.items ≡ replicate count None)
        × (keep ≡ Entries → count ≡ 65535)) }
{
    match keep {
        Keep::Entries => empty_records(alloc, (1 << 16) - 1),
        _ => empty_records(alloc, 0),
    }
}

impl Opening {
    /// A map with this many stripes and callers, which has no room for keys from the start, keeps
    /// nothing of its history, and has the seed 0.
    pub fn new(stripes: usize, callers: usize) -> Opening
        ensures stripes { result.stripes ≡ stripes }
        ensures callers { result.callers ≡ callers }
        ensures keys { result.keys ≡ 0 }
        ensures keep { result.keep ≡ Nothing }
        ensures seed { result.seed ≡ 0 }
    {
        Opening {
            stripes,
            callers,
            keys: 0,
            keep: Keep::Nothing,
            seed: 0,
        }
    }

    /// Opens a map with no keys. Returns its host, and its callers, numbered from 1.
    ///
    /// # Errors
    ///
    /// - `Limit` if there are no stripes, more than 4,096 stripes, or more than 4,096 callers.
    /// - `NoMemory` if memory is refused, or if no memory can have room for the keys.
    ///
    /// # Cost
    ///
    /// Time and memory in proportion to the stripes, the callers and the keys. Without room for
    /// keys, the shard of a stripe takes memory with its first change. If the map keeps its entries,
    /// also 5.8 megabytes, for the records of all callers that there may be and for the shelf, which
    /// took 5 to 8 milliseconds on a busy machine.
    pub fn open(&self, alloc: Global) -> Result<(Host, Vec<Caller>), Refusal>
        ensures ok { IfOk result (λ made. IsOpened self.now made.0 made.1.items) }
        ensures err { IfErr result (IsNotOpened self.now) }
    {
        let Opening {
            stripes,
            callers,
            keys,
            keep,
            seed,
        } = *self;
        if !may_open(stripes, callers) {
            return Err(Refusal::Limit);
        }
        let start = Start { keep, callers };
        let (map, mut first) = StripedMap::new(alloc, start, stripes, keys, seed)?;
        let Ok(map) = Arc::new(alloc, map) else {
            return Err(Refusal::NoMemory);
        };
        let mut all = Vec::with_capacity(alloc, callers)?;
        for place in 0..callers {
            let Ok(owned) = Arc::try_clone(&map) else {
                return Err(Refusal::NoMemory);
            };
            let seat = map.seat(alloc, &mut first, place as u64 + 1);
            all.push_reserved(Caller::new(alloc, owned, seat));
        }
        let theirs = new_records(alloc, keep)?;
        Ok((Host::new(alloc, map, first, theirs), all))
    }
}
