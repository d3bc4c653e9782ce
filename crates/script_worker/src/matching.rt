//! Compares one transaction with one script, to find out whether the transaction's entries are
//! those of the script. This module knows no workers and no outcomes: `way.rt` decides which
//! scripts a transaction is compared with. A comparison takes one step for each action that agrees,
//! and no memory.
ghost use Rattle.std.specs.Prelude.{◌≡◌, true, false, IfSome, IsNone, List};
ghost use Rattle.txn_words.specs.declared.entry.Entry.{Entry as AnEntry};
ghost use Rattle.txn_trace.specs.Plays.{IsPlayed};
ghost use Rattle.script_worker.specs.Matches.{AbortsItself, PlaysAction};
ghost use Rattle.script_worker.specs.Ways.{StartsWithBegan, IsLoneCommit, IsLeft, SaysItself};

use txn_trace::{Action, Entry, PackedAction};

/// How far an aborted transaction follows a script.
#[derive(Clone, Copy, Debug, PartialEq, Eq)]
pub(crate) enum Fit {
    /// The transaction did the script's actions up to the script's own abort.
    Itself,
    /// The transaction did none, some or all of the script's actions, and its next call was
    /// refused.
    Refused,
    /// The transaction did something else.
    Other,
}

/// If the entries begin with those of the action, returns the entries after these. Constant time.
fn after<'a>(action: Action, entries: &'a [Entry]) -> Option<&'a [Entry]>
    ensures does { IfSome result (λ rest. PlaysAction action entries.now rest.now) }
    ensures other { IsNone result →
        (rest : List AnEntry) → PlaysAction action entries.now rest → ⊥ }
{
    match action {
        Action::Op(op) => match entries {
            [Entry::Asked(_, asked), Entry::Did(..), rest @ ..] if *asked == op => Some(rest),
            _ => None,
        },
        Action::Save => match entries {
            [Entry::Saved(_), rest @ ..] => Some(rest),
            _ => None,
        },
        Action::Back(to) => match entries {
            [
                Entry::Leave(_, Some(level)),
                Entry::Returned(_, reached),
                rest @ ..,
            ] if *level == to && *reached == to => { Some(rest) }
            _ => None,
        },
        Action::Help(_) => Some(entries),
        Action::Abort => None,
    }
}

/// If the entries begin with a Began, returns the entries after it. Constant time.
fn after_began(entries: &[Entry]) -> Option<&[Entry]>
    ensures begun { IfSome result (λ rest. StartsWithBegan entries.now rest.now) }
    ensures other { IsNone result → (rest : List AnEntry) → StartsWithBegan entries.now rest → ⊥ }
{
    match entries {
        [Entry::Began(..), rest @ ..] => Some(rest),
        _ => None,
    }
}

/// Whether the only entry is a Committed. Constant time.
fn is_commit(entries: &[Entry]) -> bool
    ensures yes { result ≡ true → IsLoneCommit entries.now }
    ensures no { result ≡ false → IsLoneCommit entries.now → ⊥ }
{
    matches!(entries, [Entry::Committed(..)])
}

/// Whether the entries are those of an abort. Constant time.
fn is_abort(entries: &[Entry]) -> bool
    ensures { result ≡ true → IsLeft entries.now }
{
    matches!(entries, [Entry::Leave(_, None), Entry::Aborted(_)])
}

/// Whether a transaction with these entries plays the script.
pub(crate) fn plays(script: &[PackedAction], part: &[Entry]) -> bool
    ensures yes { result ≡ true → IsPlayed script.now part.now }
    ensures no { result ≡ false → IsPlayed script.now part.now → ⊥ }
{
    let Some(entries) = after_began(part) else {
        return false;
    };
    let mut rest = entries;
    for packed in script {
        let Some(more) = after(packed.action(), rest) else {
            return false;
        };
        rest = more;
    }
    is_commit(rest)
}

/// How far an aborted transaction with these entries follows the script.
pub(crate) fn compare(script: &[PackedAction], part: &[Entry]) -> Fit
    ensures { SaysItself result (AbortsItself script.now part.now) }
{
    let Some(entries) = after_began(part) else {
        return Fit::Other;
    };
    let mut rest = entries;
    for packed in script {
        let action = packed.action();
        let is_left = is_abort(rest);
        match (action, after(action, rest)) {
            (Action::Abort, _) => return if is_left { Fit::Itself } else { Fit::Other },
            (_, Some(more)) => rest = more,
            (_, None) => return if is_left { Fit::Refused } else { Fit::Other },
        }
    }
    if is_abort(rest) {
        Fit::Refused
    } else {
        Fit::Other
    }
}
