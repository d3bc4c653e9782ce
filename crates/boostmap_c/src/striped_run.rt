//! Runs a whole transaction of a striped map's caller by one call. C passes the operations as
//! entries, as the judge reads them, and gets the replies.
ghost use Rattle.std.specs.Prelude.{◌≡◌, Some, None, IfSome, map};
ghost use Rattle.boostmap_c.specs.Entries.{op_of};
ghost use Rattle.boostmap_c.specs.StripedRuns.{IsUnnamed, TellsRun, ops_in};

use crate::c_entry::CEntry;
use crate::member_handle::CallerHandle;
use crate::status::{EMPTY, NO_ENTRY, SHORT};
use crate::stops::tell_run;
use striped_map::{Operations, ReplyForm};
use txn_trace::{Op, Reply};

/// The reply to an operation.
#[repr(C)]
#[derive(Clone, Copy)]
pub struct CReply {
    /// The value that the key had, or 0.
    pub value: u64,
    /// 0 if the key had no value, else 1.
    pub has: u64,
}

impl ReplyForm for CReply {
    ghost use Rattle.boostmap_c.specs.StripedRuns.{c_reply_of};

    ghost form = { c_reply_of };

    #[inline(always)]
    fn of(reply: Reply) -> CReply {
        match reply {
            None => CReply { value: 0, has: 0 },
            Some(value) => CReply { value, has: 1 },
        }
    }
}

/// Entries that each name an operation.
#[derive(Drop)]
pub(crate) struct Named<'a> {
    entries: &'a [CEntry],
    ghost all: { map Some (ops_in entries.now) ≡ map op_of entries.now },
}

impl Operations for Named<'_> {
    ghost use Rattle.boostmap_c.specs.StripedRuns.{ops_in};

    ghost ops_of = { λ named. ops_in named.entries.now };

    fn count(&self) -> usize {
        self.entries.len()
    }

    #[inline(always)]
    fn at(&self, place: usize) -> Op {
        self.entries[place].op_or_get()
    }
}

/// The entries, if each names an operation.
fn read_all(entries: &[CEntry]) -> Option<Named<'_>>
    ensures some { IfSome result (λ named. named.entries.now ≡ entries.now) }
    ensures none { result ≡ None → IsUnnamed entries.now }
{
    'tests: for i in 0..entries.len() {
        if !entries[i].has_op() {
            return None;
        }
    }
    Some(Named { entries })
}

/// Runs a whole transaction: begins it, does the operations that these entries name, one after the
/// other, and commits. Of each entry only the members of its operation are read. If `strict` is not
/// 0, a `put if` that finds another value than it expects ends the run. `done` is the number of the
/// operations that were done, whose replies are then at the front of the array. If the map keeps its
/// commits, the word is the commit number, else it is 0.
///
/// # Errors
///
/// The status is one of these. After the first three, the transaction has been taken back.
///
/// - 13 if a `put if` ended the run. The last reply is its own.
/// - 2 if another caller held the stripe of an operation's key. The word is that caller's number.
/// - 30 (`NoMemory`) if an operation is refused memory, or if the beginning is, so that there was no
///   transaction.
/// - 20 (`AlreadyOpen`) if the caller is in a transaction, which then continues.
/// - 7 if the array has fewer places than there are operations, and 8 if the entry of an operation
///   names none. Nothing was run.
/// - 3 if the handle has no caller. `done` is unchanged.
///
/// # Cost
///
/// The cost of `striped_map::Caller::run_each`, and a step for each operation.
#[unsafe(no_mangle)]
pub extern "C" fn boostmap_striped_run(
    caller: &mut CallerHandle,
    operations: &[CEntry],
    strict: u32,
    replies: &mut [CReply],
    done: &mut u64,
    word: &mut u64,
) -> u32
    ensures { TellsRun operations.now strict caller.old.held.member result replies.old replies.new
        done.old done.new word.old word.new caller.new.held.member }
{
    if !caller.is_live() {
        return EMPTY;
    }
    *done = 0;
    if replies.len() < operations.len() {
        return SHORT;
    }
    let Some(ops) = read_all(operations) else {
        return NO_ENTRY;
    };
    let member = caller.held.get_mut();
    let mut count = 0;
    let answer = member.run(&ops, strict != 0, replies, &mut count);
    *done = count as u64;
    tell_run(answer, word)
}
