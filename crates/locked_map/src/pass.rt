//! A pass: the right to be the caller with a certain number. The pass has the number's part of the
//! ledger and the number's seat at the words. A core has one pass for each caller's number, and
//! `Booked::into_core` needs the callers of all passes to return the core.
ghost use Rattle.std.specs.Prelude.{◌≡◌, false, [], ◌∷◌, IfErr, IfOk, map};
ghost use Rattle.std.specs.List.{range_with_len};
ghost use Rattle.key_words.specs.Seats.{AreSeats, stripes_of};
ghost use Rattle.locked_map.specs.Tokens.{new_ticket};

use crate::caller::Caller;
use crate::claims::Claims;
use key_words::{KeySeat, KeyWords, StripeRight};
use std::alloc::{AllocError, Global};
use std::marker::Model;
use std::sync::Arc;
use std::sync::ledger::{Ledger, Share};
use txn_trace::{Limits, Refusal};
use undo_log::Side;

/// The right to be the caller with a certain number. It cannot be cloned.
///
/// A contract sees the pass's number, the limits of its map and which words the map has. The pass
/// has one part of the map's ledger, and the number's seat at these words.
#[derive(Drop)]
pub struct Pass<L: Ledger> {
    number: u64,
    limits: Limits,
    share: Share<L>,
    claims: Claims,
}

impl<L: Ledger> Model for Pass<L> {
    ghost use Rattle.std.specs.Prelude.{◌≡◌};
    ghost use Rattle.locked_map.specs.Tokens.{IsUnused, Ticket};

    ghost Value = { Ticket };

    ghost view = { λ p. record {
      number = p.number;
      limits = p.limits;
      words = p.claims.words;
    } };

    ghost invariant = { λ p. (p.share.parts ≡ 1) × (p.share.amount ≡ 0)
        × IsUnused p.number p.limits p.claims };
}

impl<L: Ledger> Pass<L> {
    ghost use Rattle.locked_map.specs.Claims.{IsIdle};
    ghost use Rattle.locked_map.specs.Tokens.{IsUnused};

    /// Makes the pass of the caller with this number. The pass has the caller's seat, and a share
    /// of the ledger. The share has one part, and has counted nothing yet.
    pub(crate) fn new(number: u64, limits: Limits, share: Share<L>, claims: Claims) -> Pass<L>
        requires parts { share.parts ≡ 1 }
        requires amount { share.amount ≡ 0 }
        requires unused { IsUnused number limits claims }
        ensures { result ≡ new_ticket limits claims.words number }
    {
        Pass {
            number,
            limits,
            share,
            claims,
        }
    }

    /// The number of the caller that this pass makes.
    pub fn number(&self) -> u64
        ensures { result ≡ self.now.number }
    {
        self.number
    }

    /// Makes the caller with the pass's number. The caller has seen no entries, and `side` is level
    /// 0 of its side value.
    pub fn caller<S: Side>(self, alloc: Global, side: S) -> Caller<L, S>
        ensures number { result.number ≡ self.number }
        ensures limits { result.limits ≡ self.limits }
        ensures seen { result.seen ≡ [] }
        ensures words { result.claims.words ≡ self.words }
        ensures idle { IsIdle result.claims }
        ensures broken { result.broken ≡ false }
        ensures value { result.side.value ≡ side }
        ensures levels { result.side.levels ≡ S.words_of side ∷ [] }
        ensures changes { result.side.changes ≡ 0 }
        ensures kept { result.side.kept ≡ 0 ∷ [] }
    {
        let Pass {
            number,
            limits,
            share,
            claims,
        } = self;
        Caller::new(alloc, number, limits, share, claims, side)
    }
}

/// The words of a core with these limits, all of them free, and a seat for each caller.
///
/// # Errors
///
/// `NoMemory` if memory is refused.
pub(crate) fn words_of(
    alloc: Global,
    limits: Limits,
) -> Result<(Arc<KeyWords, Global>, Vec<KeySeat>), Refusal>
    ensures words { IfOk result (λ r. stripes_of r.0.value ≡ limits.stripes) }
    ensures seats { IfOk result (λ r. AreSeats r.0.value limits.callers r.1.items) }
    ensures err { IfErr result (λ refusal. refusal ≡ Refusal.NoMemory) }
{
    let rights = StripeRight::all(alloc, limits.stripes() as usize)?;
    let Ok((words, seats)) = KeyWords::new(alloc, rights, limits.callers() as usize) else {
        return Err(Refusal::NoMemory);
    };
    let Ok(words) = Arc::new(alloc, words) else {
        return Err(Refusal::NoMemory);
    };
    Ok((words, seats))
}

/// A pass for each seat, in rising order of the seats' numbers. Each pass gets one part of the
/// share. The seats are taken out of their list, the last one first.
pub(crate) fn passes_of<L: Ledger>(
    alloc: Global,
    limits: Limits,
    words: Arc<KeyWords, Global>,
    mut seats: Vec<KeySeat>,
    all: &mut Share<L>,
) -> Result<Vec<Pass<L>>, AllocError>
    requires stripes { stripes_of words.value ≡ limits.stripes }
    requires seats { AreSeats words.value limits.callers seats.items }
    requires parts { all.old.parts ≡ limits.callers }
    requires amount { all.old.amount ≡ 0 }
    ensures { IfOk result (λ passes. passes.items
        ≡ map (new_ticket limits words.value.table.shared.table_id)
        (range_with_len 0 limits.callers)) }
{
    let mut passes = Vec::with_capacity(alloc, seats.len())?;
    while let Some(seat) = seats.pop() {
        let number = seats.len() as u64;
        let share = all.split_off(1, 0);
        let claims = Claims::new(alloc, Arc::try_clone(&words)?, seat);
        passes.insert(0, Pass::new(number, limits, share, claims))?;
    }
    Ok(passes)
}
