//! The shared map: the core under its lock, and the turns of a drive, each under one hold of the
//! lock. Between two holds only the invariants of the core's type are known.
ghost use Rattle.std.specs.Prelude.{◌≡◌, true, IfOk, IfErr};
ghost use Rattle.txn_words.specs.Shape.{stance_after};
ghost use Rattle.txn_drive.specs.Drives.{first_phase};
ghost use Rattle.locked_map.specs.Holds.{FitsIf, HasRun, is_out};
ghost use Rattle.locked_map.specs.Tokens.{AreTickets, HasTried, IsSameCaller, IsSameClaims};
ghost use Rattle.locked_map.specs.Calls.{Ended, EndsCall, IsDone, IsHeld, Ran};
ghost use Rattle.txn_words.specs.declared.holder.Holder.TheVariants.{Begun};
ghost use Rattle.txn_trace.specs.Legal.{IsLegal};

use crate::booked::Booked;
use crate::caller::Caller;
use crate::pass::Pass;
use boost_core::{Call, Drive, End};
use std::alloc::{AllocError, Global};
use std::sync::ledger::{Blank, Ledger};
use std::sync::{Mutex, Wait};
use txn_trace::{Limits, Refusal};
use txn_words::Stop;
use undo_log::Side;

/// A map that callers in several threads share: a core under a lock, and the words of its stripes,
/// which are outside the lock.
///
/// A contract sees the map's limits. Each hold of the lock takes one turn of a call, which is one
/// step or two. So other callers may take steps between any two turns.
///
/// One caller counts in the map; `R` is the type of the runtime:
///
/// ```text
/// fn count<L: Ledger, S: Side, R: Wait>(rt: &R, map: &SharedMap<L>, me: &mut Caller<L, S>)
///     -> Result<Receipt, Stop>
/// {
///     map.begin(rt, me)?;
///     let before = map.get(rt, me, 7)?;
///     map.put(rt, me, 7, before.unwrap_or(0).saturating_add(1))?;
///     map.commit(rt, me)
/// }
/// ```
#[derive(Drop)]
pub struct SharedMap<L: Ledger> {
    booked: Mutex<Booked<L>>,
    limits: Limits,
}

/// An observer that is called after each hold of the lock.
pub trait OnRelease {
    /// Called after a hold, by the thread that has just freed the lock. The cost depends on the
    /// observer.
    fn on_release(&self);
}

/// The observer that does nothing.
pub(crate) struct Unheard;

impl OnRelease for Unheard {
    fn on_release(&self) {}
}

impl<L: Ledger> SharedMap<L> {
    /// Makes a map, and one pass for each caller, in rising order of the callers' numbers. The
    /// callers of all passes share the words of the map's stripes, and all these words are free.
    /// The blank ledger must be named `L` and have one part for each caller.
    ///
    /// # Errors
    ///
    /// `NoMemory` if memory is refused.
    ///
    /// # Cost
    ///
    /// Time and memory in proportion to the callers, the stripes and the largest number of buckets.
    pub fn new(
        alloc: Global,
        blank: Blank,
        limits: Limits,
    ) -> Result<(SharedMap<L>, Vec<Pass<L>>), Refusal>
        requires name { blank.name ≡ L.name }
        requires parts { blank.parts ≡ L.parts }
        requires one_each { blank.parts ≡ limits.callers }
        ensures map { IfOk result (λ r. r.0.limits ≡ limits) }
        ensures passes { IfOk result (λ r. AreTickets limits r.1.items) }
        ensures err { IfErr result (λ refusal. refusal ≡ Refusal.NoMemory) }
    {
        let (booked, passes) = Booked::new(alloc, blank, limits)?;
        let booked = Mutex::new(booked);
        Ok((SharedMap { booked, limits }, passes))
    }

    /// Makes room in the history for this many more entries, before callers share the map. The
    /// history then need not grow under the lock until more than this many entries are added or
    /// newly owed.
    ///
    /// # Errors
    ///
    /// `AllocError` if memory is refused. The map is then unchanged.
    ///
    /// # Cost
    ///
    /// At most one allocation, with which the history is copied.
    pub fn reserve(&mut self, entries: usize) -> Result<(), AllocError>
        ensures { self.new.limits ≡ self.old.limits }
    {
        self.booked.get_mut().core.reserve(entries)
    }

    /// The map's limits.
    pub fn limits(&self) -> Limits
        ensures { result ≡ self.now.limits }
    {
        self.limits
    }

    /// Takes the contents out of the lock, for code that calls `Caller::hold` itself. The contents
    /// are a core whose stripes are words and whose history is legal. The map is consumed, so it
    /// can no longer be closed.
    pub fn into_booked(self) -> Booked<L>
        ensures words { result.core.words ≡ true }
        ensures legal { IsLegal Begun result.core.limits.stripes result.core.history }
    {
        let SharedMap { booked, limits: _ } = self;
        let booked = booked.into_inner();
        // By the contract of `trace` the history is legal.
        let _legal = booked.core.trace();
        booked
    }

    /// Takes the turns of a call, each under one hold, until the call has ended.
    #[tactic(auto, using(crate::proofs::Calling::new_quiet))]
    fn drive<S: Side, H: OnRelease, R: Wait>(
        &self,
        rt: &R,
        me: &mut Caller<L, S>,
        call: Call,
        hears: &H,
    ) -> End
        requires fits { FitsIf (stance_after me.old.seen) call
            (first_phase me.old.limits.half call) }
        requires tried { HasTried me.old call }
        ensures side { me.new.side ≡ me.old.side }
        ensures caller { IsSameCaller me.old me.new }
        ensures claims { IsSameClaims me.old me.new }
        ensures broken { me.new.broken ≡ is_out result }
        ensures run { HasRun me.old.seen me.new.seen me.old.number call result }
        ensures held { IsHeld me.old call result me.new }
    {
        let mut drive = Drive::new(me.number(), call, me.limits());
        for _ in rt.forever() {
            let end = me.hold(&mut *self.booked.lock(rt), &mut drive);
            hears.on_release();
            if let Some(end) = end {
                return end;
            }
        }
        unreachable!()
    }

    /// Makes a call that is given as a value: does the same as the method with the call's name.
    /// Also calls `hears` after each hold of the lock. Returns the end of the call.
    ///
    /// # Errors
    ///
    /// The end is `Refused` or `Busy` if the method with that name returns this error.
    ///
    /// # Cost
    ///
    /// The cost of the method with that name, and one call of `on_release` for each hold.
    pub fn run<S: Side, H: OnRelease, R: Wait>(
        &self,
        rt: &R,
        me: &mut Caller<L, S>,
        call: Call,
        hears: &H,
    ) -> End
        ensures { Ended S.words_of me.old call result me.new }
    {
        if let Err(refusal) = me.make_ready(call) {
            return End::Refused(refusal);
        }
        let end = self.drive(rt, me, call, hears);
        me.follow(end);
        end
    }

    /// Makes a call. Returns its end, but returns the ends `Busy` and `Refused` as errors.
    pub(crate) fn call<S: Side, R: Wait>(
        &self,
        rt: &R,
        me: &mut Caller<L, S>,
        call: Call,
    ) -> Result<End, Stop>
        ensures done { IfOk result IsDone }
        ensures ok { IfOk result (λ outcome. Ran S.words_of me.old call outcome me.new) }
        ensures leaves { EndsCall S.words_of me.old call result me.new }
    {
        match self.run(rt, me, call, &Unheard) {
            End::Busy(holder) => Err(Stop::Busy { holder }),
            End::Refused(refusal) => Err(Stop::Refused(refusal)),
            end => Ok(end),
        }
    }
}
