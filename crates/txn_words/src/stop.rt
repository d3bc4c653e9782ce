//! The reason why a call of a transaction was not done, as one error for all maps: another caller
//! held a stripe, or the call was refused. Each map says what then happens to the transaction.
//! Neither a `Stop` nor its text takes memory, so a `Stop` can be returned when memory is refused.
ghost use Rattle.std.specs.Prelude.{◌≡◌};
ghost use Rattle.txn_words.specs.declared.refusal.Refusal.TheVariants.{NoMemory};
ghost use Rattle.txn_words.specs.declared.stop.Stop.TheVariants.{Refused};

use crate::refusal::Refusal;
use std::alloc::AllocError;
use std::error::Error;
use std::fmt;

/// The reason why a call of a transaction was not done. It is an error with a text, so `?` can
/// return it as it is or as an `anyhow::Error`.
#[derive(Clone, Copy, Debug, PartialEq, Eq)]
pub enum Stop {
    /// Another caller held the stripe of the key, or one of the stripes that the call takes. This
    /// transaction cannot continue. Each map says who takes the transaction back.
    Busy {
        /// The caller that held the stripe.
        holder: u64,
    },
    /// The call was refused. Each map says what then happens to the transaction.
    Refused(Refusal),
}

/// Prints a sentence without a full stop. It names the holder or states the refusal.
impl fmt::Display for Stop {
    ghost use Rattle.std.specs.Prelude.{Some};
    ghost use Rattle.txn_words.specs.Sentences.{stop_text};

    ghost output = { λ stop. Some (stop_text stop) };

    fn fmt<W: fmt::Write>(&self, f: &mut fmt::Formatter<W>) -> fmt::Result {
        match *self {
            Stop::Busy { holder } => write!(f, "caller {holder} held the stripe of the key"),
            Stop::Refused(refusal) => f.write_str(refusal.text()),
        }
    }
}

impl Error for Stop {}

/// A refusal becomes `Refused`, so that `?` converts it.
impl From<Refusal> for Stop {
    ghost from_gives = { λ refusal stop. stop ≡ Refused refusal };

    fn from(refusal: Refusal) -> Stop {
        Stop::Refused(refusal)
    }
}

/// An `AllocError` becomes `Refused` with `NoMemory`, so that `?` converts it.
impl From<AllocError> for Stop {
    ghost from_gives = { λ _ stop. stop ≡ Refused NoMemory };

    fn from(_: AllocError) -> Stop {
        Stop::Refused(Refusal::NoMemory)
    }
}
