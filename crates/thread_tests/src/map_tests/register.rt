//! The tests' side value is a register of four words. The job that takes back one change of the
//! register runs a boxed closure. The ghost fields of the job say that the closure restores the
//! words. The test is in `side`, which makes the closures.
ghost use Rattle.std.specs.Prelude.{◌≡◌};
ghost use Rattle.thread_tests.specs.declared.map_tests.register.Register.{Register as Value};

use undo_log::Side;

/// The tests' side value: four words.
#[derive(Drop)]
pub(super) struct Register {
    pub(super) words: [u64; 4],
}

/// The words before and after a change, and a closure that takes the change back when it is run.
#[derive(Drop)]
pub(super) struct RegisterJob {
    pub(super) before: [u64; 4],
    pub(super) after: [u64; 4],
    pub(super) run: Box<dyn FnOnce(Register) -> Register + Send + Drop>,
    pub(super) ghost ready: { (value : Value) → value.words ≡ after → pre run value },
    pub(super) ghost returns: { (value left : Value) → value.words ≡ after
        → post run value left → left.words ≡ before },
}

impl Side for Register {
    type Job = RegisterJob;

    ghost words_of = { λ register. register.words };

    ghost before = { λ job. job.before };

    ghost after = { λ job. job.after };

    fn words(&self) -> [u64; 4]
        ensures { result ≡ self.now.words }
    {
        self.words
    }

    fn undo(self, job: RegisterJob) -> Register {
        let RegisterJob {
            before: _,
            after: _,
            run,
        } = job;
        run(self)
    }
}

/// A side value that can be made of any words.
pub(super) trait OfWords: Side {
    ghost use Rattle.std.specs.Prelude.{◌≡◌};

    /// The value with these words.
    fn of_words(words: [u64; 4]) -> Self
        ensures { Self.words_of result ≡ words };
}

impl OfWords for Register {
    fn of_words(words: [u64; 4]) -> Register
        ensures { result.words ≡ words }
    {
        Register { words }
    }
}
