// PROMISES what-became-of-each-script: committed_plays, commits_are_counted
//! Laws of outcomes. Each law is the contract of a function that does nothing when it runs. The
//! laws say what an outcome means for the history, and that no commit is missed in a history that
//! `mix` prints. They hold of histories of the right shape; `outcomes` does not test the shape.

ghost use Rattle.std.specs.Prelude.{◌≡◌, ℕ, ◌<◌, true, List, [], ◌∷◌, ◌++◌, length};
ghost use Rattle.txn_trace.specs.History.{is_committed, of};
ghost use Rattle.txn_trace.specs.Plays.{PlayScripts, Plays};
ghost use Rattle.txn_words.specs.Shape.{IsShaped};
ghost use Rattle.txn_words.specs.declared.action.Action.{Action};
ghost use Rattle.txn_words.specs.declared.entry.Entry.{Entry};
ghost use Rattle.txn_words.specs.declared.entry.Entry.TheVariants as entries;
ghost use Rattle.script_worker.specs.declared.outcome.Outcome.{Outcome};
ghost use Rattle.script_worker.specs.Outcomes.{CommitsCounted, AreOutcomes, CommitsScript};

/// Let the history have the right shape, which each legal history has. If a script then has the
/// outcome committed, a committed transaction plays the script (`Plays` of `txn_trace`). The last
/// entry of this transaction is a Committed entry with the script's caller and the outcome's place.
///
/// The law is the contract of this function.
///
/// # Cost
///
/// None: it does nothing when it runs.
pub fn committed_plays()
    ensures { (c place entry : ℕ) (script : List Action) (h : List Entry) → IsShaped h
        → CommitsScript c script place entry h
        → (t : ℕ) × (before : List Entry) × (of t h ≡ before ++ entries.Committed c place ∷ [])
        × Plays t script h × (is_committed t h ≡ true) }
{}

/// If the history has the right shape, and each caller's committed transactions play its scripts in
/// order (`PlayScripts` of `txn_trace`), then every commit is counted: for each Committed entry,
/// one of the caller's scripts has the outcome committed, with the place and the index of this
/// entry. A history that `mix` prints meets both conditions.
///
/// The law is the contract of this function.
///
/// # Cost
///
/// None: it does nothing when it runs.
pub fn commits_are_counted()
    ensures { (callers : ℕ) (scripts : List (List Action)) (h : List Entry)
        (outcomes : List Outcome) → IsShaped h → PlayScripts callers scripts h
        → AreOutcomes callers scripts h outcomes
        → (c : ℕ) → c < callers → CommitsCounted callers c (length h) h outcomes }
{}
