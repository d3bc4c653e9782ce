//! Converts the refusals of calls on buckets to those of steps, since `bucket_table` does not use
//! `txn_words`, and this crate uses both. Each refusal becomes the refusal of the same name, so
//! different refusals stay different. A result that is no refusal stays unchanged.
ghost use Rattle.std.specs.Prelude.{◌≡◌};
ghost use Rattle.map_ops.specs.Buckets.{answer_for, refusal_for};

use bucket_table::InitRefusal;
use txn_words::Refusal;

/// Converts a refusal of a call on buckets to the refusal of a step with the same name.
fn refusal_for(refusal: InitRefusal) -> Refusal
    ensures { result ≡ refusal_for refusal }
{
    match refusal {
        InitRefusal::NoSuchBucket => Refusal::NoSuchBucket,
        InitRefusal::ParentMissing => Refusal::ParentMissing,
        InitRefusal::NoSuchHelper => Refusal::NoSuchHelper,
        InitRefusal::HelperOutOfOrder => Refusal::HelperOutOfOrder,
        InitRefusal::NoMemory => Refusal::NoMemory,
        InitRefusal::StampsUsedUp => Refusal::StampsUsedUp,
    }
}

/// Converts what a call on buckets returns: a refusal becomes the refusal of a step with the same
/// name.
pub(crate) fn answer_for<T>(outcome: Result<T, InitRefusal>) -> Result<T, Refusal>
    ensures { result ≡ answer_for outcome }
{
    match outcome {
        Ok(done) => Ok(done),
        Err(refusal) => Err(refusal_for(refusal)),
    }
}
