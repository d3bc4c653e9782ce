//! The terms of a run. A type names them, so that the promise of a worker's thread can refer to
//! them. `Runs` and `Orders` are in two modules, and both have this type as a parameter. So the
//! trait of the type is in a module of its own. Invariant of `Orders`: its fields are these terms.
//! The terms exist only in the proof, and cost nothing at run time.
use std::marker::Brand;

/// The number of workers of a run, how often each tries a script again, and the scripts. A type
/// names them, so that the promises of the run's threads are about the same values as the run's
/// contract. Each run picks its own type.
pub(crate) trait Terms {
    ghost use Rattle.std.specs.Prelude.{ℕ, List};
    ghost use Rattle.txn_words.specs.declared.action.Action.{Action};

    ghost workers: { ℕ };

    ghost tries: { ℕ };

    ghost scripts: { List (List Action) };
}

impl Terms for Brand {
    ghost use Rattle.std.specs.Prelude.{[]};

    ghost workers = { 0 };

    ghost tries = { 0 };

    ghost scripts = { [] };
}
