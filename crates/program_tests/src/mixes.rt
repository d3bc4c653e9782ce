//! Mixes of scripts, in which a seed decides which worker takes the next turn. The history of each
//! mix is compared with the turns of its workers, which were written by hand. These tests draw the
//! worker of each turn themselves, with the same generator.
use boostmap_engine::{draw, mix_scripts};
use rand_core::SeedableRng;
use rand_core::utils::NextWord;
use rand_pcg::Pcg32;
use std::alloc::Global;
use std::process::Abort;
use std::test::Fail;
use txn_files::read_scripts;
use txn_words::{Entry, Unpacked};

/// The generator with this seed.
fn generator_of(seed: u64) -> Pcg32 {
    Pcg32::seed_from_u64(seed)
}

/// The generator's next word modulo a number.
fn next_word_below(words: &mut Pcg32, live: u64) -> u64 {
    u64::from(words.next_word()).checked_rem(live).unwrap_or(0)
}

/// Draws a place below `live`. Fails if `live` is 0.
fn drawn(places: &mut Pcg32, live: u64) -> Result<u64, Fail> {
    if live == 0 {
        return Err("nobody is live".into());
    }
    Ok(draw(places, live))
}

#[test]
fn draw_is_the_next_word(rt: HostRuntime) -> Result<(), Fail> {
    for live in [1, 2, 3, 64] {
        let mut words = generator_of(7);
        let mut places = generator_of(7);
        for _ in 0..100 {
            let word = next_word_below(&mut words, live);
            assert_eq!(rt; drawn(&mut places, live)?, word, "below {live}");
        }
    }
    Ok(())
}

/// A worker's turns in their order. Each turn is a letter for the entry that the turn adds to the
/// history (`caller_and_letter`), or `-` if the turn adds no entry.
type Turns = &'static [u8];

/// The turns of two empty scripts and of one. Each script has the turns begin and commit.
const TWO_EMPTY: Turns = b"bcbc";

const ONE_EMPTY: Turns = b"bc";

/// The turns of two scripts that begin with a `help` action whose key is bad. This action takes no
/// turn. The turns of each script are begin, abort, seek and act.
const BAD_HELPS: Turns = b"bl-xbl-x";

/// The turns of two scripts. The first script begins with a `help` action whose key is bad. The
/// second script is one put, whose turns are begin, ask, seek, act and commit.
const BAD_HELP_AND_PUT: Turns = b"bl-xba-dc";

/// An entry's caller, and the letter for the entry.
fn caller_and_letter(entry: &Entry) -> (u64, u8) {
    match *entry {
        Entry::Began(caller, _) => (caller, b'b'),
        Entry::Asked(caller, _) => (caller, b'a'),
        Entry::Did(caller, _) => (caller, b'd'),
        Entry::Leave(caller, None) => (caller, b'l'),
        Entry::Committed(caller, _) => (caller, b'c'),
        Entry::Aborted(caller) => (caller, b'x'),
        _ => (64, b'?'),
    }
}

/// Draws one of the workers that still have turns, and takes its next turn. Returns the worker's
/// number, and the letter of the turn.
fn take_turn(words: &mut Pcg32, live: &mut Vec<(u64, Turns)>) -> Result<(u64, u8), Fail> {
    let place = next_word_below(words, live.len() as u64) as usize;
    if live.len() <= place {
        return Err("no worker is left".into());
    }
    let (worker, turns) = live.remove(place);
    let (letter, later) = turns.split_first().ok_or("no turn is left")?;
    if !later.is_empty() {
        live.insert(place, (worker, later))?;
    }
    Ok((worker, *letter))
}

/// Reads scripts from this text of a script file, mixes them with the seed, and returns the
/// history.
fn mixed_history(alloc: Global, seed: u64, scripts: &str) -> Result<Vec<Entry>, Fail> {
    let Ok(work) = read_scripts(alloc, scripts.as_bytes()) else {
        return Err("no scripts".into());
    };
    let trace = mix_scripts(alloc, seed, &work)?.into_trace();
    Ok(Unpacked::new(trace.as_slice()).collect(alloc)?)
}

/// Takes turns until no worker has a turn left. For each turn, draws a place in the list of the
/// workers that still have turns. The list is in the order of the workers' numbers. The worker at
/// the drawn place takes its next turn. Checks that the turns add exactly the entries of the
/// history.
fn take_turns(
    rt: &impl Abort,
    history: &[Entry],
    words: &mut Pcg32,
    live: &mut Vec<(u64, Turns)>,
) -> Result<(), Fail> {
    let mut entries = history.iter();
    for _turn in 0..20 {
        if live.is_empty() {
            break;
        }
        let turn = take_turn(words, live)?;
        if turn.1 != b'-' {
            let entry = entries.next().ok_or("a short history")?;
            assert!(rt; caller_and_letter(entry) == turn, "{entry:?}");
        }
    }
    assert!(rt; live.is_empty() && entries.next().is_none());
    Ok(())
}

/// Mixes the scripts with this seed, and checks that the history has exactly the turns of these
/// workers.
fn mixes_so(
    rt: &impl Abort,
    alloc: Global,
    seed: u64,
    scripts: &str,
    workers: &[(u64, Turns)],
) -> Result<(), Fail> {
    let history = mixed_history(alloc, seed, scripts)?;
    let mut live = workers.to_vec(alloc)?;
    take_turns(rt, &history, &mut generator_of(seed), &mut live)
}

/// Scripts, the number of seeds with which they are mixed, and each worker with its turns.
#[derive(Drop)]
struct Mix {
    scripts: &'static str,
    seeds: u64,
    workers: &'static [(u64, Turns)],
}

/// The last of three workers has one script fewer than the others. With most seeds this worker ends
/// first, and with some seeds it ends later.
const THREE_WORKERS: Mix = Mix {
    scripts: "{\"version\":1,\"workers\":3,\"stripes\":1,\"buckets\":2,\"tries\":0,\
        \"scripts\":[[],[],[],[],[]]}",
    seeds: 50,
    workers: &[(0, TWO_EMPTY), (1, TWO_EMPTY), (2, ONE_EMPTY)],
};

/// A `help` action whose key is bad takes no turn. Worker 0 has only such actions. Its eight turns
/// begin and abort the transactions of its two scripts. Worker 1 also puts, and takes nine turns.
const BAD_HELPS_BESIDE_A_PUT: Mix = Mix {
    scripts: "{\"version\":1,\"workers\":2,\"stripes\":1,\"buckets\":2,\"tries\":0,\
        \"scripts\":[[[\"help\",9223372036854775808]],[[\"help\",9223372036854775808],\
        [\"help\",9223372036854775808],[\"help\",9223372036854775808],[\"put\",1,10]],\
        [[\"help\",9223372036854775808],[\"help\",18446744073709551615]],[[\"put\",1,10]]]}",
    seeds: 20,
    workers: &[(0, BAD_HELPS), (1, BAD_HELP_AND_PUT)],
};

/// Mixes the scripts with each seed below `mix.seeds`, and checks the turns of the workers.
fn mixes_by_each_seed(rt: &impl Abort, alloc: Global, mix: &Mix) -> Result<(), Fail> {
    for seed in 0..mix.seeds {
        mixes_so(rt, alloc, seed, mix.scripts, mix.workers)?;
    }
    Ok(())
}

#[test]
fn the_worker_drawn_goes(rt: HostRuntime) -> Result<(), Fail> {
    let alloc = rt.alloc();
    mixes_by_each_seed(&rt, alloc, &THREE_WORKERS)?;
    mixes_by_each_seed(&rt, alloc, &BAD_HELPS_BESIDE_A_PUT)
}
