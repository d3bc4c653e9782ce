//! Tests of `key_words`: atomic words of stripes, with the rights to the stripes. On one thread,
//! the answers were worked out by hand. With eight threads, the answers depend on the threads. Only
//! the end is then known: all words are free.
ghost use Rattle.std.specs.Prelude.{◌≡◌, [], length};
ghost use Rattle.key_words.specs.Seats.{AreSeats, IsOf, known, stripes_of};

use key_words::{KeySeat, KeyWords, Rights, StripeRight, Taken, Tried};
use std::alloc::{AllocError, Global};
use std::process::Abort;
use std::sync::{Arc, Wait};
use std::test::Fail;
use std::thread;
use std::thread::Threads;

/// A seat that has taken no stripe, with its words, the number of stripes of these words, and the
/// number of the seat.
#[derive(Drop)]
struct Fresh {
    words: Arc<KeyWords, Global>,
    stripes: usize,
    number: u64,
    seat: KeySeat,
    ghost of: { IsOf seat words.value },
    ghost sized: { stripes_of words.value ≡ stripes },
    ghost numbered: { (known seat).number ≡ number },
    ghost empty: { (known seat).held ≡ [] },
}

/// A seat with its words. `right` is the right that the seat was granted last. It is `None` if the
/// seat has given this right back.
#[derive(Drop)]
struct Seated {
    words: Arc<KeyWords, Global>,
    stripes: usize,
    number: u64,
    seat: KeySeat,
    right: Option<StripeRight>,
    ghost of: { IsOf seat words.value },
    ghost sized: { stripes_of words.value ≡ stripes },
    ghost numbered: { (known seat).number ≡ number },
}

/// The rights of a caller, with the words that they belong to.
#[derive(Drop)]
struct Keeping {
    words: Arc<KeyWords, Global>,
    stripes: usize,
    rights: Rights,
    ghost of: { IsOf rights.seat words.value },
    ghost sized: { stripes_of words.value ≡ stripes },
}

/// Makes words for this number of stripes, with `count` seats. Returns the seats, the last one
/// first.
fn fresh_seats(alloc: Global, stripes: usize, count: usize) -> Result<Vec<Fresh>, Fail> {
    if stripes == 0 || count == 0 || count > 64 {
        return Err("no seats".into());
    }
    let rights = StripeRight::all(alloc, stripes)?;
    let Ok((words, seats)) = KeyWords::new(alloc, rights, count) else {
        return Err("memory".into());
    };
    Ok(at_words(alloc, Arc::new(alloc, words)?, stripes, seats)?)
}

/// Returns each seat of the list with its words and its number, the last seat first.
fn at_words(
    alloc: Global,
    words: Arc<KeyWords, Global>,
    stripes: usize,
    mut seats: Vec<KeySeat>,
) -> Result<Vec<Fresh>, AllocError>
    requires sized { stripes_of words.value ≡ stripes }
    requires seats { AreSeats words.value (length seats.items) seats.items }
{
    let mut all = Vec::new(alloc);
    while let Some(seat) = seats.pop() {
        all.push(Fresh {
            words: Arc::try_clone(&words)?,
            stripes,
            number: seats.len() as u64,
            seat,
        })?;
    }
    Ok(all)
}

/// The seats of `fresh_seats`, in the order of their numbers.
fn seats_of(alloc: Global, stripes: usize, count: usize) -> Result<Vec<Seated>, Fail> {
    let mut all = Vec::new(alloc);
    for fresh in fresh_seats(alloc, stripes, count)? {
        let Fresh {
            words,
            stripes,
            number,
            seat,
        } = fresh;
        all.push(Seated {
            words,
            stripes,
            number,
            seat,
            right: None,
        })?;
    }
    all.reverse();
    Ok(all)
}

/// The caller with this seat.
fn keeper_of(alloc: Global, fresh: Fresh) -> Keeping {
    let Fresh {
        words,
        stripes,
        number: _,
        seat,
    } = fresh;
    Keeping {
        words,
        stripes,
        rights: Rights::new(alloc, seat),
    }
}

/// Takes a stripe, and keeps the right if the stripe is granted. Returns the word that was found,
/// which is 0 if the stripe was free. Returns `None` if there is no such stripe, or if the granted
/// right is that of another stripe.
fn take(seated: &mut Seated, stripe: usize) -> Option<u64> {
    if stripe >= seated.stripes {
        return None;
    }
    match seated.words.take(&mut seated.seat, stripe) {
        Taken::Granted(right) => {
            let is_own = right.stripe() == stripe;
            seated.right = Some(right);
            is_own.then_some(0)
        }
        Taken::Held(word) => Some(word),
    }
}

/// Gives back the right that was granted last. Does this only if there is such a right and the
/// stripe's word is that of the seat. Returns true if the right was given back.
fn give(seated: &mut Seated) -> bool {
    let Some(right) = seated.right.take() else {
        return false;
    };
    let stripe = right.stripe();
    if stripe >= seated.stripes {
        return false;
    }
    match seated.words.take(&mut seated.seat, stripe) {
        Taken::Held(word) if word == seated.number + 1 => {
            seated.words.give(&mut seated.seat, right);
            true
        }
        _ => false,
    }
}

/// Seat 0 takes stripe 1, which gives the stripe the word 1. Until seat 0 gives the stripe back,
/// both seats find this word.
#[test]
fn words_of_stripes(rt: HostRuntime) -> Result<(), Fail> {
    let mut seats = seats_of(rt.alloc(), 8, 2)?;
    for (number, stripe, found) in [
        (0, 1, Some(0)),
        (0, 1, Some(1)),
        (1, 1, Some(1)),
        (1, 2, Some(0)),
        (0, 1, None),
        (1, 1, Some(0)),
        (0, 1, Some(2)),
    ] {
        let seated = seats.get_mut(number).ok_or("a seat")?;
        match found {
            Some(word) => assert_eq!(rt; take(seated, stripe), Some(word)),
            None => assert!(rt; give(seated)),
        }
    }
    Ok(())
}

/// Takes a stripe. Returns false if the answer is another one than `wanted`. If the answer is the
/// position of a right, also returns false if the right at that position is for another stripe.
fn is_answered(caller: &mut Keeping, stripe: usize, wanted: Tried) -> Result<bool, AllocError> {
    if stripe >= caller.stripes {
        return Ok(false);
    }
    let tried = caller.rights.take(&*caller.words, stripe)?;
    Ok(match tried {
        Tried::Mine(place) => tried == wanted && caller.rights.right(place).stripe() == stripe,
        Tried::Another(_) => tried == wanted,
    })
}

/// The caller takes each of these stripes, and must get its answer.
fn take_each<R: Abort>(
    rt: &R,
    caller: &mut Keeping,
    rows: &[(usize, Tried)],
) -> Result<(), AllocError> {
    for &(stripe, wanted) in rows {
        assert!(rt; is_answered(caller, stripe, wanted)?, "stripe {stripe}");
    }
    Ok(())
}

/// Gives back all rights of a caller.
fn give_back(caller: &mut Keeping) {
    caller.rights.give_back(&*caller.words);
}

/// If the caller already has the stripe, a take returns the position of the right. If the stripe is
/// free, it returns the next position. If the other caller has the stripe, it returns that caller's
/// number plus 1.
#[test]
fn rights_of_two_callers(rt: HostRuntime) -> Result<(), Fail> {
    let mut seats = fresh_seats(rt.alloc(), 8, 2)?;
    let mut one = keeper_of(rt.alloc(), seats.pop().ok_or("seat 0")?);
    let mut other = keeper_of(rt.alloc(), seats.pop().ok_or("seat 1")?);
    take_each(
        &rt,
        &mut one,
        &[
            (3, Tried::Mine(0)),
            (5, Tried::Mine(1)),
            (3, Tried::Mine(0)),
        ],
    )?;
    take_each(
        &rt,
        &mut other,
        &[(3, Tried::Another(1)), (4, Tried::Mine(0))],
    )?;
    give_back(&mut one);
    take_each(&rt, &mut other, &[(3, Tried::Mine(1))])?;
    take_each(
        &rt,
        &mut one,
        &[(4, Tried::Another(2)), (5, Tried::Mine(0))],
    )?;
    Ok(())
}

/// How often each thread tries to take a stripe.
const TRIES: usize = 100_000;

/// Takes the 64 stripes in turn, and gives back each that is granted.
fn take_and_give_back<R: Abort>(rt: &R, seated: &mut Seated) {
    for tried in 0..TRIES {
        if take(seated, tried % 64) == Some(0) {
            assert!(rt; give(seated));
        }
    }
}

/// Runs `take_and_give_back` for each seat in its own thread. All seats begin at the same stripe.
fn take_and_give_back_by_all<R: Threads + Wait + Abort + Sync>(rt: &R, seats: &mut [Seated]) {
    thread::scope(thread::scope_env(), rt, |scope| {
        for seated in seats {
            let started = scope.spawn(move || take_and_give_back(rt, seated));
            assert!(rt; started.is_ok(), "a thread");
        }
    });
}

/// After eight threads have taken stripes and given them back, the first seat is granted each
/// stripe.
#[test]
fn eight_threads_leave_all_words_free(rt: HostRuntime) -> Result<(), Fail> {
    let mut seats = seats_of(rt.alloc(), 64, 8)?;
    assert_eq!(rt; seats.len(), 8);
    take_and_give_back_by_all(&rt, seats.as_mut_slice());
    let seated = seats.first_mut().ok_or("seat 0")?;
    for stripe in 0..64 {
        assert_eq!(rt; take(seated, stripe), Some(0), "stripe {stripe}");
    }
    Ok(())
}
