//! The statuses of all exports. The numbers are in one module because the calls of maps, striped
//! maps and judges share them.
ghost use Rattle.std.specs.Prelude.{◌≡◌};
ghost use Rattle.boostmap_c.specs.Replies.{refused, status_of_result};

use txn_trace::Refusal;

/// The call is done. Its word is a value, a number or a count. Some calls have no word.
pub(crate) const DONE: u32 = 0;

/// The call is done, and the key had no value.
pub(crate) const ABSENT: u32 = 1;

/// Another caller holds the key's stripe, or one of the stripes that the call takes. The word is
/// the number of that caller.
pub(crate) const BUSY: u32 = 2;

/// The handle owns nothing.
pub(crate) const EMPTY: u32 = 3;

/// The handle owns something already.
pub(crate) const FULL: u32 = 4;

/// The array has too few places.
pub(crate) const SHORT: u32 = 7;

/// C's numbers stand for no entry, or for an entry whose caller is not below 64.
pub(crate) const NO_ENTRY: u32 = 8;

/// The handle does not have the map's host.
pub(crate) const NO_HOST: u32 = 10;

/// The map does not keep its entries.
pub(crate) const NOT_KEPT: u32 = 11;

/// A caller of the map has not ended. The word is the number of that caller.
pub(crate) const MISSING: u32 = 12;

/// A `PutIf` found another value than it expects, and the run was to end there.
pub(crate) const MISSED: u32 = 13;

/// The status of a refusal is this number plus the refusal's number.
const REFUSED: u32 = 16;

/// The status of a refusal.
pub(crate) fn refused(refusal: Refusal) -> u32
    ensures { result ≡ refused refusal }
{
    REFUSED + refusal.number() as u32
}

/// The status of a call that either succeeds or is refused.
pub(crate) fn status_of(outcome: Result<(), Refusal>) -> u32
    ensures { result ≡ status_of_result outcome }
{
    match outcome {
        Ok(()) => DONE,
        Err(refusal) => refused(refusal),
    }
}
