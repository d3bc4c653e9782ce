//! How often a transaction is begun again, and how long a thread waits before each further try.
//!
//! The contracts give the number of tries and the longest sleep that is asked for. No contract says
//! how long a thread waits, since none is about time.
ghost use Rattle.std.specs.Prelude.{◌≡◌, ◌≤◌, ◌+◌, ◌-◌, ◌/◌, ◌^◌, min};
ghost use Rattle.std.specs.Duration.{as_nanos};

use std::sync::Wait;
use std::thread;
use std::thread::Parker;
use std::time::Duration;

/// The number of rounds in which a thread yields before it sleeps.
const YIELDING: u64 = 6;
/// The first sleep, in microseconds.
const FIRST_SLEEP: u64 = 16;
/// The greatest number of times that the first sleep is doubled.
const DOUBLINGS: u64 = 40;

/// How often a transaction is begun again if another caller holds a stripe, and how long the thread
/// waits before each further try. At first the thread yields: once, then twice, four times and so
/// on, up to 32 times in a row. Then it sleeps: 16 microseconds, then twice as long and so on, up
/// to the longest sleep. The longest sleep is a millisecond unless `sleeping_at_most` sets it. Up to
/// half of each sleep is left out, by a draw from the caller's number and the round, so callers that
/// met at a stripe do not wake together. The system may wake a thread a little later.
#[derive(Clone, Copy, Debug, PartialEq, Eq)]
pub struct Retry {
    pub(crate) times: u64,
    // In microseconds.
    longest: u64,
}

impl Retry {
    /// 2^64 - 1 further tries, with sleeps of at most a millisecond.
    pub const FOREVER: Retry = Retry {
        times: u64::MAX,
        longest: 1000,
    };

    /// At most `times` further tries after the first, with sleeps of at most a millisecond.
    /// Constant time.
    pub fn times_at_most(times: u64) -> Retry
        ensures times { result.times ≡ times }
        ensures longest { result.longest ≡ 1_000 }
    {
        Retry {
            times,
            ..Retry::FOREVER
        }
    }

    /// Limits each sleep to `longest`, and leaves the number of tries unchanged. If `longest` is
    /// below a microsecond, the thread never sleeps, but yields 32 times in a row instead. Constant
    /// time.
    pub fn sleeping_at_most(self, longest: Duration) -> Retry
        ensures times { result.times ≡ self.times }
        ensures longest { result.longest ≡ min (as_nanos longest / 1_000) (2 ^ 64 - 1) }
    {
        let longest = longest.as_micros().min(u128::from(u64::MAX)) as u64;
        Retry { longest, ..self }
    }

    /// The greatest number of further tries after the first. Constant time.
    pub fn times(self) -> u64
        ensures { result ≡ self.times }
    {
        self.times
    }

    /// Waits after a try of the caller with this number. The tries are counted from 0, and this one
    /// has the number `round`.
    pub(crate) fn wait<R: Wait>(self, rt: &R, caller: u64, round: u64) {
        if round < YIELDING || self.longest == 0 {
            for _ in 0..1u64 << round.min(YIELDING - 1) {
                thread::yield_now();
            }
        } else {
            let doublings = (round - YIELDING).min(DOUBLINGS);
            let sleep = (FIRST_SLEEP << doublings).min(self.longest);
            let sleep = shortened(sleep, drawn(caller, round));
            Parker::new().park_timeout(rt, Duration::from_micros(sleep));
        }
    }
}

/// The sleep without a part of it, which the draw decides: at most half.
fn shortened(sleep: u64, draw: u64) -> u64
    ensures most { result ≤ sleep }
    ensures least { sleep ≤ result + result }
{
    let most = sleep / 2;
    sleep - draw % (most + 1)
}

/// A draw from two numbers, by the mixer of splitmix64 (Steele, Lea and Flood, OOPSLA 2014).
fn drawn(caller: u64, round: u64) -> u64 {
    let z = (caller << 32)
        .wrapping_add(round)
        .wrapping_mul(0x9E37_79B9_7F4A_7C15);
    let z = (z ^ (z >> 30)).wrapping_mul(0xBF58_476D_1CE4_E5B9);
    let z = (z ^ (z >> 27)).wrapping_mul(0x94D0_49BB_1331_11EB);
    z ^ (z >> 31)
}

/// `FOREVER`: 2^64 - 1 further tries, with sleeps of at most a millisecond.
impl Default for Retry {
    ghost is_default = { λ retry. (retry.times ≡ 2 ^ 64 - 1) × (retry.longest ≡ 1_000) };

    fn default() -> Retry {
        Retry::FOREVER
    }
}

/// The draws of caller 0 are the numbers that splitmix64 gives from the seed 0.
#[test]
fn draws_of_splitmix64(rt: HostRuntime) {
    assert!(rt; drawn(0, 1) == 0xE220_A839_7B1D_CDAF);
    assert!(rt; drawn(0, 2) == 0x6E78_9E6A_A1B9_65F4);
}

/// Two callers that met do not sleep alike.
#[test]
fn callers_sleep_apart(rt: HostRuntime) {
    for round in 6..14u64 {
        assert!(rt; shortened(1000, drawn(1, round)) != shortened(1000, drawn(2, round)));
    }
}
