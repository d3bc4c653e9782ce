//! Opens a striped map with options that may become more. C passes them as words, and how many it
//! passes: so a program that knows fewer options than the archive can be linked with it, and one
//! that knows more is refused. A word that is 0, or that is not passed, stands for the default.
ghost use Rattle.std.specs.Prelude.{◌≡◌};
ghost use Rattle.boostmap_c.specs.Options.{OpensBy, TellsOption, number_of_keep, option_at, or_default, word_at};

use crate::member_handle::CallerHandle;
use crate::status::{DONE, EMPTY, FULL, refused};
use crate::striped::open_first;
use std::alloc::Global;
use striped_map::{Keep, Opening};
use txn_trace::Refusal;

/// The number of options.
const OPTIONS: usize = 5;

/// The number of callers of a map, if C gives none.
const CALLERS: u64 = 1;

/// The number of stripes of a map, if C gives none.
const STRIPES: u64 = 1024;

/// Opens a striped map as `boostmap_striped_open` does. The words are, in this order, the number of
/// callers (1 by default), the number of stripes (1,024 by default), the number of keys for which
/// there is room, what is kept, and the seed.
///
/// # Errors
///
/// Those of `boostmap_striped_open`, and 38 (`Limit`) if there are more words than these.
///
/// # Cost
///
/// The cost of `boostmap_striped_open`.
#[unsafe(no_mangle)]
pub extern "C" fn boostmap_striped_open_words(
    alloc: Global,
    caller: &mut CallerHandle,
    words: &[u64],
    word: &mut u64,
) -> u32
    ensures { OpensBy caller.old.held.member words.now result word.old word.new
        caller.new.held.member }
{
    if words.len() > OPTIONS {
        return if caller.is_live() {
            FULL
        } else {
            refused(Refusal::Limit)
        };
    }
    let callers = or_default(word_at(words, 0), CALLERS);
    let stripes = or_default(word_at(words, 1), STRIPES);
    let (keys, keep, seed) = (word_at(words, 2), word_at(words, 3), word_at(words, 4));
    open_first(alloc, caller, callers, stripes, keys, keep, seed, word)
}

/// Writes an option of the map, as it was opened: 0 the number of callers, 1 of stripes, 2 of keys, 3
/// what is kept, 4 the seed.
///
/// # Errors
///
/// The status is 3 if the handle has no caller, and 38 (`Limit`) if there is no option with this
/// number.
#[unsafe(no_mangle)]
pub extern "C" fn boostmap_striped_option(
    caller: &mut CallerHandle,
    option: u64,
    word: &mut u64,
) -> u32
    ensures { TellsOption option caller.old.held.member result word.old word.new
        caller.new.held.member }
{
    if !caller.is_live() {
        return EMPTY;
    }
    let member = caller.held.get_mut();
    match option_at(member.group.opening, option) {
        Some(value) => {
            *word = value;
            DONE
        }
        None => refused(Refusal::Limit),
    }
}

/// The word with this index, or 0 if there are fewer words.
fn word_at(words: &[u64], index: usize) -> u64
    ensures { result ≡ word_at words.now index }
{
    match words.get(index) {
        Some(word) => *word,
        None => 0,
    }
}

/// A word, or the default if the word is 0.
fn or_default(word: u64, default: u64) -> u64
    ensures { result ≡ or_default word default }
{
    if word == 0 { default } else { word }
}

/// The option with this number, if there is one.
fn option_at(opening: Opening, option: u64) -> Option<u64>
    ensures { result ≡ option_at opening option }
{
    match option {
        0 => Some(opening.callers as u64),
        1 => Some(opening.stripes as u64),
        2 => Some(opening.keys as u64),
        3 => Some(number_of_keep(opening.keep)),
        4 => Some(opening.seed),
        _ => None,
    }
}

/// The number in C of what a map keeps.
fn number_of_keep(keep: Keep) -> u64
    ensures { result ≡ number_of_keep keep }
{
    match keep {
        Keep::Nothing => 0,
        Keep::Commits => 1,
        Keep::Entries => 2,
    }
}
