//! Runs one script to its outcome: call after call on the shared map, by the rules of `Attempt`
//! (`script_worker`). The invariant of the loop is about the entries that the caller has added
//! since the script began. When the script ends, these entries are the account of its outcome
//! (`IsAccount` of `script_worker`).
ghost use Rattle.std.specs.Prelude.{◌≡◌, ◌-◌, true, false, is_some, vec_len, vec_capacity};
ghost use Rattle.txn_words.specs.declared.refusal.Refusal.{Refusal};
ghost use Rattle.txn_words.specs.declared.stance.Phase.{Phase};
ghost use Rattle.txn_words.specs.Shape.{stance_after};
ghost use Rattle.locked_map.specs.Suits.{may_refuse};
ghost use Rattle.locked_map.specs.Tokens.{IsSameCaller};
ghost use Rattle.thread_runs.specs.Possible.{MayCome};
ghost use Rattle.script_worker.specs.Chunks.{first_heard, heard_then, outcome_by};
ghost use Rattle.thread_runs.specs.Runs.{Adds, HasEnded, IsIn, HasRoomAt, HasRoomFor, HasRunTo};
ghost use Rattle.thread_runs.specs.Runs.{heard_of, outcome_told};

use crate::gate::Gate;
use crate::growth::Growth;
use crate::outcome::Outcome;
use boost_core::{Call, End};
use locked_map::{Caller, NoSide, OnRelease, SharedMap};
use script_worker::{Attempt, Finish, Progress, Stage};
use std::alloc::Global;
use std::sync::Wait;
use std::sync::ledger::Ledger;
use std::thread::yield_now;
use txn_trace::{Answer, PackedAction, Refusal, Reply};

/// Calls the gate after each release of the lock.
#[derive(Drop)]
struct Freed<'a, G: Gate> {
    gate: &'a G,
    worker: usize,
}

impl<G: Gate> OnRelease for Freed<'_, G> {
    fn on_release(&self) {
        self.gate.freed(self.worker);
    }
}

/// An attempt at a script, with the results of its calls so far: the number of its transaction, and
/// the replies of its operations.
#[derive(Drop)]
pub(crate) struct Heard {
    attempt: Attempt,
    txn: u64,
    replies: Vec<Reply>,
}

impl Heard {
    /// The first attempt at a script of this many actions, before its first call. This makes room
    /// for all replies at once. If that room is refused, each call makes room for its own reply.
    fn new(alloc: Global, actions: usize) -> Heard
        ensures { heard_of result ≡ first_heard }
    {
        let mut replies = Vec::new(alloc);
        let _room = replies.reserve(actions);
        Heard {
            attempt: Attempt::first(),
            txn: 0,
            replies,
        }
    }

    /// Makes room for the reply of a call, if the call has one. Returns false if there is no room
    /// for it.
    fn has_room(&mut self, call: Call) -> bool
        ensures heard { heard_of self.new ≡ heard_of self.old }
        ensures is_op { result ≡ false → may_refuse call Refusal.NoMemory ≡ true }
        ensures room { result ≡ true
            → HasRoomFor call (vec_capacity self.new.replies - vec_len self.new.replies) }
    {
        match call {
            Call::Op(_) => self.replies.reserve(1).is_ok(),
            _ => true,
        }
    }

    /// Replaces the attempt by `next`, which is the next attempt or the next stage of this attempt.
    /// Stores what the end of the call gives: the number of a new transaction, or a reply. If the
    /// call has a reply, there is room for it.
    fn go_on(&mut self, next: Attempt, end: End)
        requires { HasRoomAt end (vec_capacity self.old.replies - vec_len self.old.replies) }
        ensures { heard_of self.new ≡ heard_then (heard_of self.old) end next }
    {
        self.attempt = next;
        match end {
            End::Answered(Answer::Began(txn)) => {
                self.txn = txn;
                self.replies.clear();
            }
            End::Answered(Answer::Done(reply)) => self.replies.push_reserved(reply),
            _ => {}
        }
    }

    /// The outcome of the script, given its finish and the end of its last call.
    fn outcome(self, finish: Finish, end: End) -> Outcome
        ensures { outcome_told result ≡ outcome_by finish end (heard_of self) }
    {
        let Heard { txn, replies, .. } = self;
        match finish {
            Finish::Committed => match end {
                End::Answered(Answer::Committed(place)) => Outcome::Committed {
                    txn,
                    place,
                    replies,
                },
                _ => Outcome::Refused(Refusal::OutOfStep),
            },
            Finish::Aborted => Outcome::Aborted,
            Finish::Busy => Outcome::Busy,
            Finish::Refused(refusal) => Outcome::Refused(refusal),
        }
    }

    /// Makes a call if there is room for its reply. Otherwise the call's end is the refusal
    /// `NoMemory`.
    #[tactic(auto, using(crate::proofs::Adding::adds_of, crate::proofs::Adding::room_at))]
    fn hear<L: Ledger, H: OnRelease, R: Wait>(
        &mut self,
        rt: &R,
        map: &SharedMap<L>,
        me: &mut Caller<L, NoSide>,
        call: Call,
        hears: &H,
    ) -> End
        ensures adds { Adds me.old.number call result me.old.seen me.new.seen }
        ensures ended { HasEnded me.old call result me.new }
        ensures rows { me.new.broken ≡ false → is_some (stance_after me.new.seen) ≡ true }
        ensures same { IsSameCaller me.old me.new }
        ensures heard { heard_of self.new ≡ heard_of self.old }
        ensures room { HasRoomAt result
            (vec_capacity self.new.replies - vec_len self.new.replies) }
    {
        if !self.has_room(call) {
            let _seen = me.seen();
            return End::Refused(Refusal::NoMemory);
        }
        let end = map.run(rt, me, call, hears);
        // By the contract of `seen`, if the token is not broken, its entries have rows in the
        // table.
        let _seen = me.seen();
        end
    }
}

/// If a call found its stripe held, lets other threads run. So the holder's transaction can end
/// before this script asks for the stripe again.
fn give_way(end: End) {
    if let End::Busy(_) = end {
        yield_now();
    }
}

/// Runs a script to its outcome, with at most `tries` attempts after the first. If all entries that
/// the caller has seen have rows in the table, the entries that the script added are the account of
/// that outcome.
pub(crate) fn run_script<L: Ledger, G: Gate, R: Wait>(
    rt: &R,
    alloc: Global,
    map: &SharedMap<L>,
    me: &mut Caller<L, NoSide>,
    number: usize,
    script: &[PackedAction],
    tries: u64,
    gate: &G,
    growth: &mut Growth,
) -> Outcome
    requires closed { IsIn Phase.Closed me.old.broken me.old.seen }
    ensures same { IsSameCaller me.old me.new }
    ensures may { MayCome me.old.limits.half script.now (outcome_told result) }
    ensures closed { IsIn Phase.Closed me.new.broken me.new.seen }
    ensures told { HasRunTo me.old.number tries script.now (outcome_told result)
        me.old.seen me.new.seen }
{
    let worker = me.number() as usize;
    let freed = Freed { gate, worker };
    let mut heard = Heard::new(alloc, script.len());
    for _ in rt.forever() {
        if let Stage::Acting(action) = heard.attempt.stage {
            gate.before(worker, number, action);
        }
        let call = heard.attempt.call(script);
        let end = heard.hear(rt, map, me, call, &freed);
        if !growth.grow(rt, map, me, call, end, &freed) {
            return Outcome::Refused(Refusal::OutOfStep);
        }
        give_way(end);
        match heard.attempt.progress(script, tries, end) {
            Progress::Next(next) => heard.go_on(next, end),
            Progress::Over(finish) => return heard.outcome(finish, end),
        }
    }
    unreachable!()
}
