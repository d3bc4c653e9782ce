//! A handle of a striped map owns a member. A member has one caller of the map, and a group: what
//! the members of a map have in common, and what only the first one has, which are the callers that
//! wait for their handles and the map's host. Every member has a group, since the pointers of all
//! handles must name the same type.
//!
//! A join takes a caller from the list of those that wait, and makes a member of it. If there is no
//! memory for the member, the caller goes back to the list. This takes no memory, since the list
//! has kept the room for the caller.
ghost use Rattle.std.specs.Prelude.{◌≡◌, ◌≤◌, ℕ, List, Option, length};

use crate::counts::Counts;
use crate::striped_run::{CReply, Named};
use std::alloc::Global;
use striped_map::{Caller, Host, Opening, RunEnd, Stop};

/// What a member has besides its caller.
#[derive(Drop)]
pub struct Group {
    /// The callers that wait for their handles. Only the first member has some.
    pub(crate) waiting: Vec<Caller>,
    /// The map's host, until C gets a handle of it. Only the first member has it.
    pub(crate) host: Option<Host>,
    /// How the map was opened.
    pub(crate) opening: Opening,
}

/// A caller of a striped map, the counts of its transactions, and its group.
///
/// A call also writes to the counts. In front of them lies the caller, whose own fields lie apart
/// from all others. Behind them lie the group, which few calls write to, and 128 bytes that no call
/// reads or writes.
#[repr(C)]
#[derive(Drop)]
pub struct Member {
    pub(crate) caller: Caller,
    pub(crate) counts: Counts,
    pub(crate) group: Group,
    behind: [u64; 16],
}

impl Member {
    ghost use Rattle.boostmap_c.specs.Counting.{counted_run, none_ended};
    ghost use Rattle.striped_map.specs.Runs.{LieIn, Runs};
    ghost use Rattle.boostmap_c.specs.StripedRuns.{c_reply_of, ops_in};

    /// A member with this caller and this group.
    pub(crate) fn new(caller: Caller, group: Group) -> Member
        ensures caller { result.caller ≡ caller }
        ensures group { result.group ≡ group }
        ensures counts { result.counts ≡ none_ended }
    {
        Member {
            caller,
            counts: Counts::none(),
            group,
            behind: [0; 16],
        }
    }

    /// Has the caller run a transaction of these operations, and counts its end. The replies then
    /// lie at the front of the array, and `done` is their number.
    pub(crate) fn run(
        &mut self,
        ops: &Named<'_>,
        strict: bool,
        replies: &mut [CReply],
        done: &mut usize,
    ) -> Result<RunEnd, Stop>
        requires room { length (ops_in ops.now.entries.now) ≤ length replies.old }
        ensures group { self.new.group ≡ self.old.group }
        ensures runs { (told : List (Option ℕ)) × LieIn c_reply_of told replies.old replies.new
            done.new × Runs strict (ops_in ops.now.entries.now) told self.old.caller result
            self.new.caller }
        ensures counts { self.new.counts ≡ counted_run self.old.counts result }
    {
        let answer = self.caller.run_each(ops, strict, replies, done);
        self.counts.see_run(&answer);
        answer
    }

    /// The caller, without the group and the room.
    pub(crate) fn into_caller(self) -> Caller
        ensures { result ≡ self.caller }
    {
        let Member {
            caller,
            counts: _,
            group: _,
            behind: _,
        } = self;
        caller
    }
}
