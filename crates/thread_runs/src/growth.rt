//! The growth of the table while scripts run. After some puts or put-ifs of new keys, a worker
//! helps the table to grow without being asked. The growth is a module of its own, apart from the
//! running of a script, since a help adds no entry to the history. A worker counts only its own new
//! keys, and helps at most once for every seven of them.
ghost use Rattle.std.specs.Prelude.{◌≡◌, IfSome, None};
ghost use Rattle.txn_words.specs.declared.answer.Answer.{Answer};
ghost use Rattle.txn_drive.specs.declared.«end».End.{End};
ghost use Rattle.locked_map.specs.Holds.{is_out};
ghost use Rattle.locked_map.specs.Tokens.{IsSameCaller};
ghost use Rattle.thread_runs.specs.Runs.{IsAfterHelp};

use boost_core::{Call, End};
use locked_map::{Caller, NoSide, OnRelease, SharedMap};
use std::sync::Wait;
use std::sync::ledger::Ledger;
use txn_trace::{Answer, Op, Refusal};

/// The number of new keys after which a worker helps the table to grow. In a large table a help
/// takes about ten holds: one to double the table, and one for each ancestor of the key's bucket.
/// An operation takes three holds. So a help for each new key would make the other workers wait.
/// The number is odd, and the number of buckets is a power of two. So if the keys are consecutive
/// numbers, in time each bucket gets a help.
const EVERY: u8 = 7;

/// The number of calls with a new key (`new_key`) that a worker has made since its last help.
#[derive(Drop)]
pub(crate) struct Growth {
    new_keys: u8,
}

impl Growth {
    /// The count before a worker's first new key.
    pub(crate) fn new() -> Growth {
        Growth { new_keys: 0 }
    }

    /// If the call with this end has a new key (`new_key`), counts the key. If the worker has to
    /// help now, returns the key to help for. A call for help sets the count back to 0.
    fn key_due(&mut self, call: Call, end: End) -> Option<u64>
        ensures { IfSome result (λ key. end ≡ End.Answered (Answer.Done None)) }
    {
        if let Call::Help(_) = call {
            self.new_keys = 0;
            return None;
        }
        let key = new_key(call, end)?;
        self.new_keys = self.new_keys.saturating_add(1);
        if self.new_keys < EVERY {
            return None;
        }
        self.new_keys = 0;
        Some(key)
    }

    /// If a call has put a new key and a help is due, helps the table to grow: doubles the table if
    /// it is full, and initialises the key's bucket. If memory for this is refused or no stamp is
    /// left, the table stays smaller. Returns false exactly if the help ends with `OutOfStep`.
    pub(crate) fn grow<L: Ledger, H: OnRelease, R: Wait>(
        &mut self,
        rt: &R,
        map: &SharedMap<L>,
        me: &mut Caller<L, NoSide>,
        call: Call,
        end: End,
        hears: &H,
    ) -> bool
        ensures same { IsSameCaller me.old me.new }
        ensures grown { IsAfterHelp me.old end result me.new }
    {
        let Some(key) = self.key_due(call, end) else {
            return true;
        };
        let helped = map.run(rt, me, Call::Help(key), hears);
        !is_out(helped)
    }
}

/// Whether a call ended with the refusal `OutOfStep`.
fn is_out(end: End) -> bool
    ensures { result ≡ is_out end }
{
    matches!(end, End::Refused(Refusal::OutOfStep))
}

/// The key of a put or a put-if that found no value at the key. This includes a put-if that
/// expected a value, although such a call puts nothing.
fn new_key(call: Call, end: End) -> Option<u64>
    ensures { IfSome result (λ key. end ≡ End.Answered (Answer.Done None)) }
{
    let End::Answered(Answer::Done(None)) = end else {
        return None;
    };
    match call {
        Call::Op(Op::Put(key, _)) => Some(key),
        Call::Op(Op::PutIf(key, _, _)) => Some(key),
        _ => None,
    }
}
