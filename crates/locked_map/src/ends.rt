//! The ends that a call may have. Any other end shows that the core and the token are out of step,
//! and breaks the token. The functions here take values, but no core and no token. If a token has
//! not refused a commit or an abort, the core must not refuse it either.
ghost use Rattle.std.specs.Prelude.{◌≡◌, ◌||◌, not};
ghost use Rattle.locked_map.specs.Suits.{is_odd, may_refuse};
ghost use Rattle.locked_map.specs.Holds.{end_in, odd_if};

use boost_core::{Call, End};
use txn_trace::Refusal;

/// Returns true if a token breaks after a turn: if the rule of shape does not allow an entry that
/// the token saw (`is_whole` is false), or if the token's call must not have this end.
pub(crate) fn breaks(is_whole: bool, call: Call, end: Option<End>) -> bool
    ensures { result ≡ (not is_whole || odd_if call end) }
{
    !is_whole || odd_if(call, end)
}

/// What a hold returns after its turn. If the token is broken, this is the refusal `OutOfStep`.
/// Otherwise it is the drive's end, or `None` if the drive has not ended.
pub(crate) fn end_in(is_broken: bool, end: Option<End>) -> Option<End>
    ensures { result ≡ end_in is_broken end }
{
    if is_broken {
        return Some(End::Refused(Refusal::OutOfStep));
    }
    end
}

/// Whether a call has ended with an end that it must not have.
fn odd_if(call: Call, end: Option<End>) -> bool
    ensures { result ≡ odd_if call end }
{
    match end {
        Some(end) => is_odd(call, end),
        None => false,
    }
}

/// Whether a call must not have this end.
fn is_odd(call: Call, end: End) -> bool
    ensures { result ≡ is_odd call end }
{
    match end {
        End::Refused(refusal) => !may_refuse(call, refusal),
        _ => false,
    }
}

/// Whether a call that its token has not refused may end with this refusal.
fn may_refuse(call: Call, refusal: Refusal) -> bool
    ensures { result ≡ may_refuse call refusal }
{
    match call {
        Call::Begin | Call::Save | Call::Back(_) => matches!(refusal, Refusal::NoMemory),
        Call::Op(_) => matches!(
            refusal,
            Refusal::NoMemory | Refusal::StampsUsedUp | Refusal::StaleWord
        ),
        Call::Help(_) => matches!(refusal, Refusal::NoMemory | Refusal::StampsUsedUp),
        Call::Commit | Call::Abort => false,
    }
}
