//! How an operation can claim the stripe of its key: with the core's lock, with a right that the
//! caller has, or with a word that names a holder. One enum has all kinds, so an ask is the same
//! step whether the core or others keep the stripes. A claim is never stored. A claim with a word
//! takes no spare and reserves no room: the room for its Busy entry was reserved when the
//! transaction began.
ghost use Rattle.std.specs.Prelude.{◌≡◌};

use txn_trace::Step;

/// The claim of an operation to the stripe of its key.
#[derive(Clone, Copy, Debug, PartialEq, Eq)]
pub enum Claim {
    /// The operation locks the stripe, or is busy if another caller holds it.
    Lock,
    /// The caller has the stripe's right, so the operation locks the stripe. If another caller
    /// holds the stripe, the word that gave the right was stale.
    Right,
    /// The stripe's word names this holder, so the operation is busy.
    Held(u64),
    /// The stripe's word names no caller that may hold it: the word is stale.
    Stale,
}

impl Claim {
    ghost use Rattle.boost_core.specs.Words.{reserved_by};

    /// The number of entries for which the history makes room before a step with this claim is
    /// taken. A claim with a word needs no room, since there is room for its Busy entry already.
    #[inline(always)]
    pub(crate) fn entry_room(self, step: Step) -> u64
        ensures { result ≡ reserved_by self step }
    {
        match self {
            Claim::Lock | Claim::Right => step.entry_room(),
            Claim::Held(_) | Claim::Stale => 0,
        }
    }
}
