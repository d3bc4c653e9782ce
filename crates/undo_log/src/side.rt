//! A value that belongs to the caller of a transaction, and the job that takes back one change of
//! the value. `SideJob` makes this job an `UndoJob`, so that one kind of log serves callers and the
//! map. The library sees four words of the value, and the words that each job names.
use crate::job::UndoJob;

/// A value that belongs to the caller, kept beside a transaction. A job can take back each change
/// of the value.
///
/// The library does not make the value and does not look into it. The library sees four words of
/// the value. A job names the words before its change and the words after its change.
pub trait Side: Drop + Send {
    /// The inverse of one change, used at most once.
    type Job: Drop + Send;

    ghost use Rattle.std.specs.Prelude.{◌≡◌, ℕ, List};

    /// The words of a value.
    ghost words_of: { Self → List ℕ };

    /// The value's words before the change, as the job names them.
    ghost before: { Self.Job → List ℕ };

    /// The value's words after the change, as the job names them.
    ghost after: { Self.Job → List ℕ };

    /// The four words of the value. The side type determines the cost.
    fn words(&self) -> [u64; 4]
        ensures { result ≡ words_of self.now };

    /// Takes back the job's change with the data that the job stores, and returns the value without
    /// the change. The side type determines the cost.
    fn undo(self, job: Self::Job) -> Self
        requires { words_of self ≡ after job }
        ensures { words_of result ≡ before job };
}

/// A side value's job as an `UndoJob`, whose world is the side value.
#[derive(Drop)]
pub struct SideJob<S: Side> {
    /// The inverse of one change.
    pub job: S::Job,
}

impl<S: Side> UndoJob for SideJob<S> {
    type World = S;

    ghost use Rattle.std.specs.Prelude.{◌≡◌};

    ghost shows_after = { λ side world. S.words_of world ≡ S.after side.job };

    ghost shows_before = { λ side world. S.words_of world ≡ S.before side.job };

    ghost takes_back = { λ side old new. S.words_of new ≡ S.before side.job };

    fn run(self, world: S) -> S {
        let SideJob { job } = self;
        world.undo(job)
    }
}
