//! `NoSide`, the side value of callers that need none. With it, the calls of `Caller` are written
//! only once, for callers with and without a side value. It is defined here, since `undo_log` has
//! only the trait. Invariant: the four words of `NoSide` are 0 before and after each job, so no
//! return to a level changes them.
use undo_log::Side;

/// The side value of callers that keep nothing beside the map. Its words never change.
#[derive(Drop)]
pub struct NoSide;

/// The job of a change that changes no words.
#[derive(Drop)]
pub struct NoJob;

impl Side for NoSide {
    type Job = NoJob;

    ghost use Rattle.std.specs.Prelude.{[], ◌∷◌};

    ghost words_of = { λ s. 0 ∷ 0 ∷ 0 ∷ 0 ∷ [] };

    ghost before = { λ j. 0 ∷ 0 ∷ 0 ∷ 0 ∷ [] };

    ghost after = { λ j. 0 ∷ 0 ∷ 0 ∷ 0 ∷ [] };

    fn words(&self) -> [u64; 4] {
        [0, 0, 0, 0]
    }

    fn undo(self, _job: NoJob) -> NoSide {
        self
    }
}
