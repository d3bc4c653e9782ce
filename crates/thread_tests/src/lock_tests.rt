//! Tests of `key_locks`: holders of stripes, and the rights to stripes. The contracts say what a
//! lock answers. They do not say that stripes and rights get memory as long as memory is free. The
//! callers take turns on one thread. The answers were worked out by hand.
ghost use Rattle.std.specs.Prelude.{◌≡◌, length};

use key_locks::{CALLERS, KeyLocks, LockAnswer, StripeRight};
use std::alloc::{AllocError, Global};
use std::process::Abort;
use std::test::Fail;

/// A caller's turn.
#[derive(Clone, Copy, Debug)]
enum Turn {
    /// The caller locks a stripe, and must get this answer.
    Lock(usize, LockAnswer),
    /// The caller releases all its stripes.
    Release,
}

/// Stripes, and their number.
#[derive(Drop)]
struct Stripes {
    locks: KeyLocks,
    count: usize,
    ghost sized: { length locks ≡ count },
}

/// Makes `count` free stripes. If memory is refused, asks for it once more.
fn free_stripes(alloc: Global, count: usize) -> Result<Stripes, AllocError> {
    if let Ok(locks) = KeyLocks::new(alloc, count) {
        return Ok(Stripes { locks, count });
    }
    let locks = KeyLocks::new(alloc, count)?;
    Ok(Stripes { locks, count })
}

/// Takes a caller's turn. Returns false if the turn locks a stripe and gets another answer than the
/// one that the turn wants.
fn is_answered(stripes: &mut Stripes, caller: usize, turn: Turn) -> bool {
    if caller >= CALLERS {
        return false;
    }
    match turn {
        Turn::Lock(stripe, wanted) => {
            stripe < stripes.count && stripes.locks.lock(caller, stripe) == wanted
        }
        Turn::Release => {
            stripes.locks.release_all(caller);
            true
        }
    }
}

/// Makes `count` free stripes, and takes turns on them. Each row has the number of a caller and the
/// turn that this caller takes.
fn take_turns<R: Abort>(
    rt: &R,
    alloc: Global,
    count: usize,
    turns: &[(usize, Turn)],
) -> Result<(), AllocError> {
    let mut stripes = free_stripes(alloc, count)?;
    for &(caller, turn) in turns {
        assert!(rt;
            is_answered(&mut stripes, caller, turn),
            "caller {caller}: {turn:?}"
        );
    }
    Ok(())
}

/// Each row has a caller and the caller's turn. The callers share eight stripes.
static ON_EIGHT: [(usize, Turn); 16] = [
    (0, Turn::Lock(1, LockAnswer::Granted)),
    (1, Turn::Lock(2, LockAnswer::Granted)),
    (0, Turn::Lock(4, LockAnswer::Granted)),
    (0, Turn::Lock(1, LockAnswer::Granted)),
    (0, Turn::Lock(6, LockAnswer::Granted)),
    (1, Turn::Lock(4, LockAnswer::Busy(0))),
    (63, Turn::Lock(2, LockAnswer::Busy(1))),
    (0, Turn::Release),
    (63, Turn::Lock(6, LockAnswer::Granted)),
    (1, Turn::Lock(4, LockAnswer::Granted)),
    (0, Turn::Lock(2, LockAnswer::Busy(1))),
    (0, Turn::Lock(1, LockAnswer::Granted)),
    (1, Turn::Release),
    (0, Turn::Lock(2, LockAnswer::Granted)),
    (0, Turn::Lock(4, LockAnswer::Granted)),
    (0, Turn::Lock(6, LockAnswer::Busy(63))),
];

/// Each row has a caller and the caller's turn. The callers share one stripe.
static ON_ONE: [(usize, Turn); 3] = [
    (5, Turn::Lock(0, LockAnswer::Granted)),
    (6, Turn::Release),
    (6, Turn::Lock(0, LockAnswer::Busy(5))),
];

/// If a caller locks a stripe that it already holds, the stripe is granted again. A caller that
/// holds no stripe releases no stripe.
#[test]
fn a_stripe_is_held_until_its_holder_releases(rt: HostRuntime) -> Result<(), Fail> {
    take_turns(&rt, rt.alloc(), 8, ON_EIGHT.as_slice())?;
    take_turns(&rt, rt.alloc(), 1, ON_ONE.as_slice())?;
    Ok(())
}

/// Makes three rights: they are for the stripes 0, 1 and 2. Rights for `usize::MAX` stripes are
/// refused, since there is no memory for so many.
#[test]
fn each_stripe_has_a_right(rt: HostRuntime) -> Result<(), Fail> {
    let rights = match StripeRight::all(rt.alloc(), 3) {
        Ok(rights) => rights,
        Err(_) => StripeRight::all(rt.alloc(), 3)?,
    };
    assert!(rt; rights.iter().map(|right| right.stripe()).eq([0, 1, 2]));
    assert!(rt; free_stripes(rt.alloc(), usize::MAX).is_err());
    Ok(())
}
