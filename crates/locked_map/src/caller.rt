// PROMISES stripes-as-atomic-words: Caller::make_ready, hold, follow
// PROMISES callers-in-threads: Caller::make_ready, hold, follow
//! A caller's token: the entries that its calls added, its rights to stripes and its side value.
//! Each of these three has a type with its own invariant. A call of `Caller` changes them together,
//! and only such a call breaks a token. Invariant: the token has a word for each stripe of its map.
//! Unless the token is broken, the rule of shape allows each entry that it saw.
ghost use Rattle.std.specs.Prelude.{◌≡◌, ◌≢◌, ◌<◌, true, false, is_some, length, Some};
ghost use Rattle.std.specs.Prelude.{None, [], ◌∷◌, List, ◌+◌, IfSome, IfNone, IfErr, OnOk, OnErr};
ghost use Rattle.txn_words.specs.declared.entry.Entry.{Entry};
ghost use Rattle.txn_words.specs.declared.refusal.Refusal.{Refusal};
ghost use Rattle.txn_words.specs.Shape.{Stance, stance_after};
ghost use Rattle.txn_drive.specs.declared.«end».End.{End};
ghost use Rattle.txn_drive.specs.Drives.{first_step};
ghost use Rattle.locked_map.specs.Claims.{IsIdle, Readies, claims_at};
ghost use Rattle.locked_map.specs.Holds.{Held, InStep, IsGoing, GoesTo, out_if};
ghost use Rattle.locked_map.specs.Noted.{last_txn};
ghost use Rattle.locked_map.specs.Ready.{IsUnready, refused_by, refusal_of_help, refused_side};
ghost use Rattle.locked_map.specs.Ready.{CanFollow, MovesSide, IsReadyFor};
ghost use Rattle.undo_log.specs.Sides.{IsSameSide};
ghost use Rattle.locked_map.specs.Tokens.{HasTried, HasTriedNext, IsSameButSide, IsSameCaller};
ghost use Rattle.locked_map.specs.Tokens.{IsSameClaims, IsSameSeen, IsNumbered};

use crate::booked::Booked;
use crate::claims::Claims;
use crate::ends::{breaks, end_in};
use crate::seen::Seen;
use crate::turns::take_turn;
use boost_core::{Call, Drive, End};
use std::alloc::{AllocError, Global};
use std::marker::Model;
use std::sync::ledger::{Ledger, Share};
use txn_trace::{Answer, Limits, Op, Refusal, SmallEntry, Step};
use undo_log::{Side, SideJob, SideValue};

/// The token of one caller of a shared map. It cannot be cloned, so each caller's number has at
/// most one token.
///
/// A contract sees the token's number, the limits of its map, its side value, and whether it is
/// `broken`. A call breaks the token if it finds that the token does not agree with the core or
/// with its side value. From then on each call is refused with `Refusal::OutOfStep`. In `seen` a
/// contract sees the entries that the token's calls have added. In `claims` it sees the stripes to
/// which the token has the right, and all words that the token has tried.
///
/// The token keeps its rights until its transaction has committed or aborted. A broken token keeps
/// them permanently. If the token is dropped, its rights are lost, and their stripes stay held.
#[derive(Drop)]
pub struct Caller<L: Ledger, S: Side> {
    number: u64,
    limits: Limits,
    side: SideValue<S>,
    pub(crate) seen: Seen<L>,
    claims: Claims,
    is_broken: bool,
}

impl<L: Ledger, S: Side> Model for Caller<L, S> {
    ghost use Rattle.std.specs.Prelude.{◌≡◌, true, false, is_some};
    ghost use Rattle.txn_words.specs.Shape.{stance_after};
    ghost use Rattle.locked_map.specs.Tokens.{IsNumbered, Token};

    ghost Value = { Token S };

    ghost view = { λ c. record {
      number = c.number;
      limits = c.limits;
      side = c.side;
      seen = c.seen.entries;
      claims = c.claims;
      broken = c.is_broken;
    } };

    ghost invariant = { λ c. IsNumbered c.number c.limits c.claims
        × (c.is_broken ≡ false → is_some (stance_after c.seen.entries) ≡ true) };
}

impl<L: Ledger, S: Side> Caller<L, S> {
    /// A caller that has seen no entries.
    pub(crate) fn new(
        alloc: Global,
        number: u64,
        limits: Limits,
        share: Share<L>,
        claims: Claims,
        side: S,
    ) -> Caller<L, S>
        requires parts { share.parts ≡ 1 }
        requires amount { share.amount ≡ 0 }
        requires seat { IsNumbered number limits claims }
        ensures number { result.number ≡ number }
        ensures limits { result.limits ≡ limits }
        ensures seen { result.seen ≡ [] }
        ensures claims { result.claims ≡ claims }
        ensures broken { result.broken ≡ false }
        ensures value { result.side.value ≡ side }
        ensures levels { result.side.levels ≡ S.words_of side ∷ [] }
        ensures changes { result.side.changes ≡ 0 }
        ensures kept { result.side.kept ≡ 0 ∷ [] }
    {
        Caller {
            number,
            limits,
            side: SideValue::new(alloc, side),
            seen: Seen::new(alloc, share),
            claims,
            is_broken: false,
        }
    }

    /// The caller's number.
    pub fn number(&self) -> u64
        ensures { result ≡ self.now.number }
    {
        self.number
    }

    /// The limits of the caller's map.
    pub fn limits(&self) -> Limits
        ensures { result ≡ self.now.limits }
    {
        self.limits
    }

    /// The entries that the caller's calls have added, in order. Unless the token is broken, the
    /// rule of shape allows each of them. The entries are packed; iterate over them with
    /// `txn_trace::Unpacked` to read them as values of `Entry`.
    pub fn seen(&self) -> &[SmallEntry]
        ensures seen { result.now ≡ self.now.seen }
        ensures rows { self.now.broken ≡ false → is_some (stance_after self.now.seen) ≡ true }
    {
        self.seen.entries()
    }

    /// Makes room in `seen` for `entries` more entries, so that `seen` need not grow while they are
    /// added. The token is unchanged.
    ///
    /// # Errors
    ///
    /// `AllocError` if memory is refused. The token is then unchanged too.
    ///
    /// # Cost
    ///
    /// At most one allocation, and a copy of the entries that are there.
    pub fn reserve(&mut self, entries: usize) -> Result<(), AllocError>
        ensures { self.new ≡ self.old }
    {
        self.seen.reserve_entries(entries)
    }

    /// The four words of the side value.
    ///
    /// # Cost
    ///
    /// One call of the side type's `words`.
    pub fn words(&self) -> [u64; 4]
        ensures { result ≡ S.words_of self.now.side.value }
    {
        self.side.words()
    }

    /// Takes the drive's next turn on the core. If the drive has ended, with this turn or before
    /// it, returns the end of the call. Nobody else has the core during the turn.
    ///
    /// The core takes only the steps of the turn, and `seen` gains only their entries. An operation
    /// asks with the right to its stripe, or with the word that was tried last. So call
    /// `make_ready` once before the first turn of an operation. The side value and the rights are
    /// unchanged: `follow` changes them as the end of the call requires.
    ///
    /// # Errors
    ///
    /// The end is `Refused` with one of these refusals:
    /// - `OutOfStep` if the token is broken. No step is taken.
    /// - `OutOfStep` if the core does not have as many stripes as the map has words. No step is
    ///   taken, and the token breaks.
    /// - `NoMemory` if memory is refused for room in `seen`. No step is taken.
    /// - `NoMemory`, `StampsUsedUp` or `StaleWord` if the core gives this refusal to the step.
    /// - `OutOfStep` if the core's answer is impossible in the token's state. The token breaks.
    /// - `OutOfStep` if the token would have refused the call, for instance help with a bad key.
    ///   The token breaks.
    ///
    /// If the core and the token are in step, they stay in step, and the end is never `OutOfStep`.
    ///
    /// # Cost
    ///
    /// The cost of the one or two steps, and otherwise amortized constant time. May take memory for
    /// the steps and for `seen`.
    pub fn hold(&mut self, booked: &mut Booked<L>, drive: &mut Drive) -> Option<End>
        requires caller { drive.old.caller ≡ self.old.number }
        requires tried { HasTriedNext self.old drive.old }
        ensures held { Held booked.old.core self.old drive.old result
            booked.new.core self.new drive.new }
        ensures same { self.new.side ≡ self.old.side }
        ensures caller { IsSameCaller self.old self.new }
        ensures claims { IsSameClaims self.old self.new }
        ensures drive { (drive.new.caller ≡ drive.old.caller) × (drive.new.call ≡ drive.old.call) }
        ensures broken { self.new.broken ≡ out_if result }
        ensures in_step { InStep booked.old.core self.old drive.old
            → InStep booked.new.core self.new drive.new
            × IfSome result (λ e. e ≢ End.Refused Refusal.OutOfStep) }
        ensures goes { (base : List Entry) → IsGoing base self.old.seen drive.old
            → GoesTo base self.new.seen drive.new result }
    {
        let turn = drive.turn(booked.core.size());
        if self.is_broken {
            return Some(End::Refused(Refusal::OutOfStep));
        }
        if booked.core.limits().stripes() != self.limits.stripes() {
            self.is_broken = true;
            return Some(End::Refused(Refusal::OutOfStep));
        }
        if !take_turn(&mut self.seen, &self.claims, booked, drive, turn) {
            return Some(End::Refused(Refusal::NoMemory));
        }
        // This call is made only for its contract, which says that the history is legal.
        let _core = booked.core.trace();
        let end = drive.ended();
        self.is_broken = breaks(self.seen.is_whole(), drive.call, end);
        end_in(self.is_broken, end)
    }

    /// The token's refusal of a call before any step, or `None` if the token does not refuse the
    /// call.
    fn refusal(&self, call: Call) -> Option<Refusal>
        ensures refusal { result ≡ refused_by self.now call }
        ensures sound { IfNone result (self.now.broken ≡ false) }
    {
        if self.is_broken {
            return Some(Refusal::OutOfStep);
        }
        let by_stance = self.seen.refusal(self.limits, first_step(call));
        by_stance.or(help_refusal(self.limits, call))
    }

    /// The number of the last transaction that the caller began, or 0 if the caller has begun none.
    pub fn txn(&self) -> u64
        ensures { result ≡ last_txn self.now.seen }
    {
        self.seen.txn()
    }

    /// The number of savepoints of the caller's transaction. A broken token may have seen entries
    /// that its phase does not allow. Such entries do not change the result.
    pub fn levels(&self) -> u64
        ensures { (s : Stance) → stance_after self.now.seen ≡ Some s → length s.kept ≡ result + 1 }
    {
        self.seen.levels()
    }

    /// Tries the word of the stripe to which the operation's key belongs, unless the token has the
    /// right to this stripe.
    fn try_stripe(&mut self, op: Op) -> Result<(), Refusal>
        ensures same { IsSameSeen self.old self.new }
        ensures side { self.new.side ≡ self.old.side }
        ensures tried { OnOk result (HasTried self.new (Call.Op op)) }
        ensures readied { OnOk result (Readies self.old.claims (Call.Op op) self.new.claims) }
        ensures err { IfErr result (λ refusal. (refusal ≡ Refusal.NoMemory)
            × (self.new ≡ self.old)) }
    {
        let stripe = op.key() % u64::from(self.limits.stripes());
        self.claims.try_word(stripe)?;
        Ok(())
    }

    /// Makes the token ready for the holds of a call, if the token does not refuse the call. For an
    /// operation, tries the word of its key's stripe, unless the token has the right to this stripe.
    /// If the word was free, the token has the right now, and keeps it until its transaction has
    /// committed or aborted. If not, the token remembers the word and asks with it. For a save, makes
    /// room for the level that it adds to the side value. For a return to a level, tests that this
    /// level exists. No step is taken, and `seen` and the side value with its levels are unchanged.
    ///
    /// # Errors
    ///
    /// The first of these that applies. In all cases but the last, the token is unchanged.
    /// - `OutOfStep` if the token is broken.
    /// - The first refusal of the call that follows from the entries in `seen`, for instance
    ///   `NotOpen`.
    /// - `BadKey` for help with a bad key.
    /// - `NoMemory` if memory is refused for one more right or for the level of a save. No word was
    ///   tried.
    /// - `OutOfStep` if the side value does not have the level to which the call returns. The token
    ///   breaks, and all else is unchanged.
    ///
    /// # Cost
    ///
    /// For an operation, time in proportion to the number of rights that the token has, and at most
    /// one try of one word. Otherwise amortized constant time. Takes memory only if there is no room
    /// for one more right or for the level of a save.
    pub fn make_ready(&mut self, call: Call) -> Result<(), Refusal>
        ensures free { OnOk result (refused_by self.old call ≡ None) }
        ensures same { OnOk result (IsSameSeen self.old self.new) }
        ensures side { OnOk result (IsSameSide self.old.side self.new.side) }
        ensures ready { OnOk result (IsReadyFor call self.new.side) }
        ensures tried { OnOk result (HasTried self.new call) }
        ensures readied { OnOk result (Readies self.old.claims call self.new.claims) }
        ensures err { IfErr result (λ refusal. IsUnready self.old call refusal self.new) }
    {
        if let Some(refusal) = self.refusal(call) {
            return Err(refusal);
        }
        match call {
            Call::Op(op) => self.try_stripe(op),
            Call::Save => match self.side.save_room() {
                Ok(()) => Ok(()),
                Err(AllocError) => Err(Refusal::NoMemory),
            },
            Call::Back(level) => {
                if self.side.level() < level as usize {
                    self.is_broken = true;
                    return Err(Refusal::OutOfStep);
                }
                Ok(())
            }
            _ => Ok(()),
        }
    }

    /// Changes the side value as the end of a call requires. Gives back all rights if the call has
    /// ended its transaction. `seen` is unchanged. The side value may change only if a begin, a
    /// commit, an abort, a save or a return was answered, or if an operation was busy.
    ///
    /// Pass the end that the last hold of the call has returned. After any other end, the side
    /// value and the rights do not agree with the token's entries.
    ///
    /// # Cost
    ///
    /// Takes a step for each right that is given back, and for each savepoint and each side job
    /// that is dropped. Runs each side job that takes a change back. Takes no memory except what
    /// these runs take.
    pub fn follow(&mut self, end: End)
        requires { CanFollow end self.old.side }
        ensures same { IsSameSeen self.old self.new }
        ensures side { MovesSide S.words_of end self.old.side self.new.side }
        ensures claims { self.new.claims ≡ claims_at end self.old.claims }
    {
        self.claims.follow(end);
        // By the contract of `level`, the side value has level 0.
        let _levels = self.side.level();
        match end {
            End::Answered(Answer::Began(_) | Answer::Committed(_)) => self.side.settle(),
            End::Answered(Answer::Saved(_)) => {
                let _ = self.side.save();
            }
            End::Answered(Answer::Returned(level)) => self.side.back(level as usize),
            End::Answered(Answer::Aborted) | End::Busy(_) => self.side.back(0),
            _ => {}
        }
    }

    /// Changes the side value, and logs the job that takes the change back.
    ///
    /// The words of the present side value must be the job's `before`. The words of the value that
    /// `change` returns must be the job's `after`. No transaction is needed, but a change made
    /// outside of a transaction is never taken back. Nothing is added to `seen`.
    ///
    /// # Errors
    ///
    /// In both cases `change` was not called, nothing has changed, and `change` and `job` are
    /// returned with the error:
    /// - `OutOfStep` if the token is broken.
    /// - `NoMemory` if memory is refused.
    ///
    /// # Cost
    ///
    /// One call of `change`, and otherwise amortized constant time. Takes memory only if there is
    /// no room to log one more change.
    pub fn change<F: FnOnce(S) -> S>(
        &mut self,
        change: F,
        job: SideJob<S>,
    ) -> Result<(), (Refusal, F, SideJob<S>)>
        requires before { S.words_of self.old.side.value ≡ S.before job.job }
        requires callable { F.pre change self.old.side.value }
        requires after { (value : S) → F.post change self.old.side.value value
            → S.words_of value ≡ S.after job.job }
        ensures same { IsSameButSide self.old self.new }
        ensures sound { OnOk result (self.old.broken ≡ false) }
        ensures changed { OnOk result (F.post change self.old.side.value self.new.side.value) }
        ensures levels { self.new.side.levels ≡ self.old.side.levels }
        ensures changes { OnOk result (self.new.side.changes ≡ self.old.side.changes + 1) }
        ensures kept { self.new.side.kept ≡ self.old.side.kept }
        ensures err { IfErr result (λ e. (e.0 ≡ refused_side self.old.broken)
            × (e.1 ≡ change) × (e.2 ≡ job) × (self.new ≡ self.old)) }
    {
        if self.is_broken {
            return Err((Refusal::OutOfStep, change, job));
        }
        match self.side.change(change, job) {
            Ok(()) => Ok(()),
            Err(refused) => {
                let (change, job) = refused.value;
                Err((Refusal::NoMemory, change, job))
            }
        }
    }
}

/// The first step of a call. The caller's stance refuses the call if it refuses this first step.
fn first_step(call: Call) -> Step
    ensures { result ≡ first_step 0 call }
{
    match call {
        Call::Begin => Step::Begin(0),
        Call::Op(op) => Step::Ask(0, op),
        Call::Save => Step::Save(0),
        Call::Back(level) => Step::Back(0, level),
        Call::Commit => Step::Commit(0),
        Call::Abort => Step::Abort(0),
        Call::Help(_) => Step::Double(0),
    }
}

/// `BadKey` for a call for help with a bad key, and `None` for any other call.
fn help_refusal(limits: Limits, call: Call) -> Option<Refusal>
    ensures { result ≡ refusal_of_help limits.half call }
{
    match call {
        Call::Help(key) if limits.is_bad_key(key) => Some(Refusal::BadKey),
        _ => None,
    }
}
