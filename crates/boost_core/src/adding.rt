//! The end of a caller's step. If the step has an entry, this entry is added to the caller's stance
//! and to the history, in room that was reserved before. No other code adds an entry, so the stances,
//! the history and the number of entries owed always agree. Takes amortized constant time and no
//! memory.
ghost use Rattle.std.specs.Prelude.{◌≡◌, ◌-◌, ◌+◌, ◌++◌, option_to_list, vec_len, vec_capacity, length};
ghost use Rattle.txn_words.specs.Owed.{owed_in};
ghost use Rattle.boost_core.specs.Adding.{CanAdd, Enters};

use txn_trace::{Entry, SmallEntry, Stance};

/// If the step has an entry, adds it to the caller's stance and to the history, in reserved room.
/// Returns the number of entries that all callers owe after that.
#[inline(always)]
pub(crate) fn add(
    stance: &mut Stance,
    history: &mut Vec<SmallEntry>,
    owed: usize,
    entry: Option<Entry>,
) -> usize
    requires { CanAdd stance.old (vec_len history.old) (vec_capacity history.old) owed entry }
    ensures stance { Enters stance.old (option_to_list entry) stance.new }
    ensures items { history.new.items ≡ history.old.items ++ option_to_list entry }
    ensures len { vec_len history.new ≡ vec_len history.old + length (option_to_list entry) }
    ensures capacity { vec_capacity history.new ≡ vec_capacity history.old }
    ensures owed { result
        ≡ owed - owed_in stance.old.stance.standing stance.old.stance.phase
        + owed_in stance.new.stance.standing stance.new.stance.phase }
{
    let Some(entry) = entry else {
        return owed;
    };
    let packed = SmallEntry::new(entry).unwrap();
    let before = stance.owed() as usize;
    stance.enter(entry);
    history.push_reserved(packed);
    owed - before + stance.owed() as usize
}
