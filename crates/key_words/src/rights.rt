// PROMISES stripes-as-atomic-words: Rights::take, give_back
//! A seat, and the rights of the stripes that it holds, in one value, so that no call can separate
//! them. Invariant: there is exactly one right for each stripe that the seat holds. The list of
//! rights has no index, so a take searches it before it tries a word.
ghost use Rattle.std.specs.Prelude.{◌≡◌, ◌<◌, [], reverse, vec_len, slice_get, Some, IfErr, IfOk, IfSome, IfNone};
ghost use Rattle.key_words.specs.Rule.{Holds};
ghost use Rattle.key_words.specs.Seats.{IsOf, known, stripes_of};

use crate::seat::KeySeat;
use crate::taken::{Taken, Tried};
use crate::words::KeyWords;
use key_locks::StripeRight;
use std::alloc::{AllocError, Global};

/// A caller's seat, and the rights of the stripes that the seat holds, the newest last.
///
/// The type guarantees that there is exactly one right for each stripe that the seat holds, and no
/// other right. So no call loses a right. Rights are lost only if the whole value is dropped.
#[derive(Drop)]
pub struct Rights {
    pub(crate) seat: KeySeat,
    pub(crate) rights: Vec<StripeRight>,
    ghost kept: { (known seat).held ≡ reverse rights.items },
}

impl Rights {
    ghost use Rattle.key_words.specs.Kept.{IsSame, Tries, none_held};

    /// Makes a `Rights` from a seat that holds no stripe. Its list of rights is empty.
    pub fn new(alloc: Global, seat: KeySeat) -> Rights
        requires { (known seat).held ≡ [] }
        ensures { (result.seat ≡ seat) × (result.rights.items ≡ []) }
    {
        Rights {
            seat,
            rights: Vec::new(alloc),
        }
    }

    /// The position of the stripe's right in the list of rights, if it is there.
    fn place(&self, stripe: usize) -> Option<usize>
        ensures some { IfSome result (λ place.
            slice_get self.now.rights.items place ≡ Some stripe) }
        ensures held { IfSome result (λ _. Holds (known self.now.seat) stripe) }
        ensures none { IfNone result (¬ Holds (known self.now.seat) stripe) }
    {
        for (place, right) in self.rights.iter().enumerate() {
            if right.stripe() == stripe {
                return Some(place);
            }
        }
        None
    }

    /// Tries once to take the stripe, unless its right is in the list already. Room for one more
    /// right is made before the stripe's word is tried.
    ///
    /// # Errors
    ///
    /// `AllocError` if memory is refused. In that case no word was tried, and the seat and the
    /// rights are unchanged.
    ///
    /// # Cost
    ///
    /// Time in proportion to the number of rights, and at most one try of one word. Takes memory
    /// only if the list has no room for one more right.
    pub fn take(&mut self, words: &KeyWords, stripe: usize) -> Result<Tried, AllocError>
        requires seat { IsOf self.old.seat words.now }
        requires stripe { stripe < stripes_of words.now }
        ensures seat { IsOf self.new.seat words.now }
        ensures tries { IfOk result (λ tried. Tries self.old stripe tried self.new) }
        ensures refused { IfErr result (λ _. IsSame self.old self.new) }
    {
        if let Some(place) = self.place(stripe) {
            return Ok(Tried::Mine(place));
        }
        self.rights.reserve(1)?;
        match words.take(&mut self.seat, stripe) {
            Taken::Granted(right) => {
                self.rights.push_reserved(right);
                Ok(Tried::Mine(self.rights.len() - 1))
            }
            Taken::Held(word) => Ok(Tried::Another(word)),
        }
    }

    /// The right at a position in the list.
    pub fn right(&self, place: usize) -> &StripeRight
        requires { place < vec_len self.now.rights }
        ensures { Some result.now ≡ slice_get self.now.rights.items place }
    {
        &self.rights[place]
    }

    /// Gives back all rights, the newest first.
    ///
    /// # Cost
    ///
    /// Time in proportion to the number of rights; takes no memory.
    pub fn give_back(&mut self, words: &KeyWords)
        requires { IsOf self.old.seat words.now }
        ensures seat { IsOf self.new.seat words.now }
        ensures rights { self.new.rights.items ≡ [] }
        ensures given { known self.new.seat ≡ none_held (known self.old.seat) }
    {
        while let Some(right) = self.rights.pop() {
            words.give(&mut self.seat, right);
        }
    }
}
