//! The rights to stripes that a caller has, and the word that it tried last. An operation asks with
//! one of the rights or with the word. Rights and word are kept apart from `seen`, since they
//! change only between holds, and `seen` changes only in holds. Invariant: a right that the last
//! trial found is at the position that the trial names, so asking with this right takes constant
//! time.
ghost use Rattle.std.specs.Prelude.{◌≡◌, ◌<◌, [], true, None, IfErr, OnOk};
ghost use Rattle.txn_trace.specs.Locks.{stripe_of};
ghost use Rattle.txn_words.specs.Map.{key_of};
ghost use Rattle.boost_core.specs.Words.{Goes, ListsBy};
ghost use Rattle.locked_map.specs.Claims.{HasTriedAt, HasTriedStep, IsIdle, Tries, claim_in};
ghost use Rattle.locked_map.specs.Claims.{claims_at};

use boost_core::{Core, End};
use key_words::{KeySeat, KeyWords, Rights, Tried};
use std::alloc::{AllocError, Global};
use std::marker::Model;
use std::sync::Arc;
use txn_trace::{Answer, Op, Step};

/// A caller's claims to stripes: its seat at the map's words, its rights to the stripes that it
/// holds, and what it found at the last word that it tried.
///
/// If the claims are dropped, the rights are lost, and their stripes stay held.
#[derive(Drop)]
pub(crate) struct Claims {
    words: Arc<KeyWords, Global>,
    rights: Rights,
    stripe: u64,
    tried: Option<Tried>,
}

impl Model for Claims {
    ghost use Rattle.key_words.specs.Seats.{known, stripes_of};
    ghost use Rattle.locked_map.specs.Claims.{Claimed, IsClaimed, trial_of};

    ghost Value = { Claimed };

    ghost view = { λ c. record {
      words = c.words.value.table.shared.table_id;
      stripes = stripes_of c.words.value;
      seat = known c.rights.seat;
      held = c.rights.rights.items;
      tried = trial_of c.stripe c.tried;
    } };

    ghost invariant = { λ c. IsClaimed c.words.value c.rights c.stripe c.tried };
}

impl Claims {
    ghost use Rattle.key_words.specs.Seats.{IsOf, known, stripes_of};

    /// The claims of a caller with this seat, which has tried no word yet. Takes no memory.
    pub(crate) fn new(alloc: Global, words: Arc<KeyWords, Global>, seat: KeySeat) -> Claims
        requires seat { IsOf seat words.value }
        requires held { (known seat).held ≡ [] }
        requires notes { (known seat).notes ≡ [] }
        ensures words { result.words ≡ words.value.table.shared.table_id }
        ensures stripes { result.stripes ≡ stripes_of words.value }
        ensures number { result.seat.number ≡ (known seat).number }
        ensures idle { IsIdle result }
    {
        Claims {
            words,
            rights: Rights::new(alloc, seat),
            stripe: 0,
            tried: None,
        }
    }

    /// Tries the word of a stripe, unless the caller has the right to the stripe.
    ///
    /// The transaction of the caller that the word names may have ended just before, since only
    /// `follow` gives its rights back. So a Busy entry may name a caller that is in no transaction.
    ///
    /// # Errors
    ///
    /// `AllocError` if memory is refused for one more right. Then nothing has changed.
    pub(crate) fn try_word(&mut self, stripe: u64) -> Result<(), AllocError>
        requires { stripe < self.old.stripes }
        ensures tries { OnOk result (Tries self.old stripe self.new) }
        ensures err { IfErr result (λ _. self.new ≡ self.old) }
    {
        let tried = self.rights.take(&*self.words, stripe as usize)?;
        self.stripe = stripe;
        self.tried = Some(tried);
        Ok(())
    }

    /// Takes a step of the caller on a core. A step that asks for an operation uses the right that
    /// the last trial found. If the trial found a word instead, the step uses this word.
    #[inline(always)]
    pub(crate) fn step(&self, core: &mut Core, step: Step) -> Answer
        requires words { core.old.words ≡ true }
        requires stripes { core.old.limits.stripes ≡ self.now.stripes }
        requires tried { HasTriedStep self.now.tried self.now.stripes step }
        ensures goes { Goes (claim_in self.now.tried core.old step) core.old step result core.new }
        ensures lists { ListsBy (claim_in self.now.tried core.old step) core.old step result
            core.new }
        ensures words { core.new.words ≡ true }
        ensures limits { core.new.limits ≡ core.old.limits }
    {
        match step {
            Step::Ask(caller, op) => in_parts(self.ask(core, caller, op)),
            _ => in_parts(core.step(step)),
        }
    }

    /// Asks for an operation. If the last trial took the stripe's right, asks with this right. If
    /// the trial found a word instead, asks with the word.
    fn ask(&self, core: &mut Core, caller: u64, op: Op) -> Answer
        requires words { core.old.words ≡ true }
        requires stripes { core.old.limits.stripes ≡ self.now.stripes }
        requires tried { HasTriedAt self.now.tried (stripe_of self.now.stripes (key_of op)) }
        ensures goes { Goes (claim_in self.now.tried core.old (Step.Ask caller op)) core.old
            (Step.Ask caller op) result core.new }
        ensures lists { ListsBy (claim_in self.now.tried core.old (Step.Ask caller op)) core.old
            (Step.Ask caller op) result core.new }
    {
        match self.tried {
            Some(Tried::Mine(place)) => core.ask_with(caller, op, self.rights.right(place)),
            Some(Tried::Another(word)) => core.ask_held(caller, op, word),
            None => unreachable!(),
        }
    }

    /// If a call has ended its transaction, gives back all rights, in time in proportion to their
    /// number.
    pub(crate) fn follow(&mut self, end: End)
        ensures { self.new ≡ claims_at end self.old }
    {
        match end {
            End::Answered(Answer::Committed(_) | Answer::Aborted) | End::Busy(_) => {
                self.tried = None;
                self.rights.give_back(&*self.words);
            }
            _ => {}
        }
    }
}

/// The same answer, read part by part. A core writes the bytes of an answer one by one, and a read
/// of two bytes at once would wait until both are written.
#[inline(always)]
fn in_parts(answer: Answer) -> Answer
    ensures { result ≡ answer }
{
    match answer {
        Answer::Asked => Answer::Asked,
        Answer::Placed => Answer::Placed,
        Answer::Done(Some(value)) => Answer::Done(Some(value)),
        Answer::Done(None) => Answer::Done(None),
        answer => answer,
    }
}
