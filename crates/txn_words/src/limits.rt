//! The limits of a map: how many callers, stripes and buckets it has, and whether it allows keys of
//! 2^63 or more. Files, cores and the C library share this type, so the same ranges hold for all of
//! them; only a striped map has other ranges. A `Limits` is always in range, so no call tests it
//! again.
ghost use Rattle.std.specs.Prelude.{◌≡◌, true, IsTrue};
ghost use Rattle.txn_words.specs.Sizes.{Sizes, are_limits, is_bad_key, limits_of};

use crate::refusal::Refusal;
use split_key::Key;
use std::marker::Model;

/// How many callers and how many stripes a map has, how many buckets its table may have at most,
/// and whether the map allows every key or only half keys. A half key is a key below 2^63.
#[derive(Clone, Copy, Debug, PartialEq, Eq)]
pub struct Limits {
    callers: u32,
    stripes: u32,
    buckets: u32,
    half_keys: bool,
}

impl Model for Limits {
    ghost Value = { Sizes };

    ghost view = { λ l. record {
      callers = l.callers;
      stripes = l.stripes;
      buckets = l.buckets;
      half = l.half_keys;
    } };

    ghost invariant = { λ l. IsTrue (are_limits l.callers l.stripes l.buckets) };

    ghost inverse = { λ s. record {
      callers = s.callers;
      stripes = s.stripes;
      buckets = s.buckets;
      half_keys = s.half;
    } };
}

impl Limits {
    /// The greatest number of callers.
    pub const MAX_CALLERS: u64 = 64;

    /// The greatest number of stripes.
    pub const MAX_STRIPES: u64 = 4096;

    /// The greatest number of buckets, a power of two.
    pub const MAX_BUCKETS: u64 = 65536;

    /// The limits with these numbers, which allow every key. There may be 1 to `MAX_CALLERS`
    /// callers and 1 to `MAX_STRIPES` stripes. `buckets`, the largest size of the table, must be a
    /// power of two from 2 to `MAX_BUCKETS`.
    ///
    /// # Errors
    ///
    /// `Refusal::Limit` if a number is out of range.
    pub fn new(callers: u64, stripes: u64, buckets: u64) -> Result<Limits, Refusal>
        ensures { result ≡ limits_of callers stripes buckets }
    {
        let are_in_range = (1 <= callers && callers <= Limits::MAX_CALLERS)
            && (1 <= stripes && stripes <= Limits::MAX_STRIPES)
            && (2 <= buckets && buckets <= Limits::MAX_BUCKETS)
            && buckets.is_power_of_two();
        if !are_in_range {
            return Err(Refusal::Limit);
        }
        Ok(Limits {
            callers: callers as u32,
            stripes: stripes as u32,
            buckets: buckets as u32,
            half_keys: false,
        })
    }

    /// The number of callers.
    pub fn callers(self) -> u32
        ensures value { result ≡ self.callers }
        ensures limits { IsTrue (are_limits self.callers self.stripes self.buckets) }
    {
        self.callers
    }

    /// The number of stripes over which the keys are distributed.
    pub fn stripes(self) -> u32
        ensures value { result ≡ self.stripes }
        ensures limits { IsTrue (are_limits self.callers self.stripes self.buckets) }
    {
        self.stripes
    }

    /// The largest size of the table, in buckets.
    pub fn buckets(self) -> u32
        ensures value { result ≡ self.buckets }
        ensures limits { IsTrue (are_limits self.callers self.stripes self.buckets) }
    {
        self.buckets
    }

    /// These limits, restricted to half keys.
    pub fn half_keys(self) -> Limits
        ensures { result ≡ record self { half = true } }
    {
        Limits {
            half_keys: true,
            ..self
        }
    }

    /// Returns true if these limits allow only half keys.
    pub fn has_half_keys(self) -> bool
        ensures { result ≡ self.half }
    {
        self.half_keys
    }

    /// Returns true if these limits refuse the key: they allow only half keys, and the key is 2^63
    /// or more.
    pub fn is_bad_key(self, key: u64) -> bool
        ensures { result ≡ is_bad_key self.half key }
    {
        self.half_keys && Key::half(key).is_err()
    }
}
