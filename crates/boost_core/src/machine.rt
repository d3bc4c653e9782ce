// PROMISES each-transaction-as-if-alone: Core::trace, step, run
// PROMISES the-present-map: Core::map, regular_list, count
// PROMISES each-step-is-a-move-of-the-machine: Core::step, run, owed
//! The core: its fields, its invariant, and how it takes a step. `step` divides the steps into two
//! types (`steps.rt`). For a caller's step, `call` tests the refusals, reserves room, lets the
//! session take the step, and adds the step's entry. A step that belongs to no caller goes straight
//! to the table (`serve`), and adds no entry. The steps themselves are in `session.rt`,
//! `operations.rt`, `transactions.rt` and `buckets.rt`.
ghost use Rattle.std.specs.Prelude.{◌≡◌, ℕ, ◌<◌, true, false, is_some, IfOk, IfErr, OnErr, length};
ghost use Rattle.std.specs.List.{All};
ghost use Rattle.txn_words.specs.Map.{count_of};
ghost use Rattle.txn_words.specs.Kinds.{caller_of};
ghost use Rattle.txn_trace.specs.Now.{now};
ghost use Rattle.txn_trace.specs.Legal.{IsLegal};
ghost use Rattle.txn_words.specs.Owed.{owed};
ghost use Rattle.boost_core.specs.Machine.{State, start, holder_by};

use crate::adding::add;
use crate::begun::{none_begun, note_begun};
use crate::buckets::serve;
use crate::claim::Claim;
use crate::counts::Counts;
use crate::owner::{Owner, placed_after};
use crate::session::Session;
use crate::sessions::idle_sessions;
use crate::steps::{CallerStep, HelperStep};
use key_locks::KeyLocks;
use map_ops::Table;
use std::alloc::{AllocError, Global};
use std::collections::BTreeMap;
use std::marker::Model;
use txn_trace::{Answer, Limits, Refusal, SmallEntry, Step, entry_of};

/// A transactional map for 1 to 64 callers, with its history and the state of each caller. It runs
/// boosted transactions (Herlihy and Koskinen, PPoPP 2008, rules 2 and 3) over a split-ordered hash
/// table (Shalev and Shavit, Journal of the ACM 53(3), 2006, section 2).
///
/// Contracts see a core as a state of the machine, which `specs/State.antt` defines. Every core has
/// these properties: the history is legal, the content of the table is the map that the history
/// gives now, the list is that map in order, each stripe has the holder that the history names,
/// each caller's log takes back exactly the caller's standing changes, and the history has room for
/// all entries that the callers owe.
#[derive(Drop)]
pub struct Core {
    pub(crate) limits: Limits,
    pub(crate) history: Vec<SmallEntry>,
    pub(crate) counts: Counts,
    pub(crate) table: Table,
    pub(crate) sessions: Vec<Session>,
    // The number of entries that the callers may still add without a new reservation.
    pub(crate) owed: usize,
    pub(crate) locks: KeyLocks,
    // The owner of the cursor that the last step placed, if it placed one. A refused step does not
    // count.
    pub(crate) placed: Option<Owner>,
    // Whether the stripes are atomic words that others keep.
    pub(crate) words: bool,
    // For each caller, whether it has begun a transaction.
    pub(crate) begun: Vec<bool>,
}

impl Model for Core {
    ghost use Rattle.boost_core.specs.Machine.{State};

    ghost Value = { State };

    ghost use Rattle.boost_core.specs.Core.{state_of, world_of, IsAccounted};

    ghost view = { λ c. state_of
        (world_of c.limits c.history c.counts c.table c.sessions c.locks c.placed c.words) };

    ghost invariant = { λ c. IsAccounted
        (world_of c.limits c.history c.counts c.table c.sessions c.locks c.placed c.words)
        c.history c.owed c.begun.items };
}

impl Core {
    ghost use Rattle.boost_core.specs.Shape.{HasShape};
    ghost use Rattle.boost_core.specs.Locks.{KeepsLocks};
    ghost use Rattle.boost_core.specs.Replies.{KeepsReplies};
    ghost use Rattle.boost_core.specs.Content.{IsContent, IsRegular};
    ghost use Rattle.boost_core.specs.Whole.{IsWhole};
    ghost use Rattle.boost_core.specs.Machine.{Cursors, Happens, Moves};
    ghost use Rattle.boost_core.specs.Nodes.{IsInOrder};
    ghost use Rattle.boost_core.specs.Words.{Goes, IsClaim, ListsBy, is_ask};
    ghost use Rattle.boost_core.specs.Refusals.{refusal_of};
    ghost use Rattle.boost_core.specs.State.{caller_changes};
    ghost use Rattle.boost_core.specs.Steps.{claim_in, step_by, step_from};

    /// A new core: no caller has a transaction, and the table has two buckets, the first of them
    /// initialised.
    ///
    /// # Errors
    ///
    /// `Refusal::NoMemory` if memory is refused.
    ///
    /// # Cost
    ///
    /// Time and memory in proportion to the callers, the stripes and the largest number of buckets.
    pub fn new(alloc: Global, limits: Limits) -> Result<Core, Refusal>
        ensures ok { IfOk result (λ core. core ≡ start limits) }
        ensures err { IfErr result (λ refusal. refusal ≡ Refusal.NoMemory) }
    {
        Core::make(alloc, limits, false)
    }

    /// A new core. `words` says whether its stripes are atomic words that others keep.
    pub(crate) fn make(alloc: Global, limits: Limits, words: bool) -> Result<Core, Refusal>
        ensures ok { IfOk result (λ core. core ≡ record (start limits) { words = words }) }
        ensures err { IfErr result (λ refusal. refusal ≡ Refusal.NoMemory) }
    {
        let (max, callers) = (limits.buckets(), limits.callers());
        let table = Table::new(alloc, max, callers)?;
        let sessions = idle_sessions(alloc, callers as usize)?;
        let locks = KeyLocks::new(alloc, limits.stripes() as usize)?;
        let begun = none_begun(alloc, callers as usize)?;
        Ok(Core {
            limits,
            history: Vec::new(alloc),
            counts: Counts {
                began: 0,
                committed: 0,
            },
            table,
            sessions,
            owed: 0,
            locks,
            placed: None,
            words,
            begun,
        })
    }

    /// Takes one step, which makes a move of the machine. `specs/Machine.antt` says which answers
    /// are allowed, and what the state is after each. `specs/Rows.antt` says what a step does to
    /// the linked nodes and to the cursors of callers and helpers.
    ///
    /// If tests refuse the step, the first refusal is the answer, and the state is unchanged. Only
    /// `Begin`, `Ask`, `Save`, `Back`, `InitLink` and `InitStore` may be refused with `NoMemory`,
    /// after all tests; so no caller needs memory to seek, to act, to commit or to abort.
    /// `InitStore` is refused memory only if no bucket of its segment of 64 is stored.
    ///
    /// `Again` means that the cursor of the caller or helper no longer fits, and was dropped. As
    /// long as the cursor's two nodes stay neighbours and unmarked, the answer is never `Again`,
    /// whatever happens elsewhere in the list.
    ///
    /// If stripes are words, no step may be an `Ask`: use `ask_with` and `ask_held`.
    ///
    /// # Cost
    ///
    /// A `Seek` walks to the key's position from the dummy of the key's bucket, or of that bucket's
    /// nearest initialised ancestor. An `InitSeek` walks from the dummy of the bucket's parent. A
    /// `Sweep` walks up to the first marked node. A `Commit` takes time in proportion to the jobs,
    /// savepoints and stripes of the transaction. The end of an abort takes time in proportion to
    /// the savepoints and stripes. The end of a return takes time in proportion to the savepoints
    /// that it drops. Each other step takes amortized constant time. Only the steps that may be
    /// refused with `NoMemory` take memory.
    pub fn step(&mut self, step: Step) -> Answer
        requires { self.old.words ≡ true → is_ask step ≡ false }
        ensures event { Happens self.old step result self.new }
        ensures words { self.new.words ≡ self.old.words }
    {
        // One arm for each kind of step, so that `call` is compiled for each.
        match step {
            Step::Begin(caller) => self.call(caller, CallerStep::Begin),
            Step::Ask(caller, op) => self.call(caller, CallerStep::Ask(op, Claim::Lock)),
            Step::Seek(caller) => self.call(caller, CallerStep::Seek),
            Step::Act(caller) => self.call(caller, CallerStep::Act),
            Step::Save(caller) => self.call(caller, CallerStep::Save),
            Step::Back(caller, level) => self.call(caller, CallerStep::Back(level)),
            Step::Commit(caller) => self.call(caller, CallerStep::Commit),
            Step::Abort(caller) => self.call(caller, CallerStep::Abort),
            Step::Sweep => self.serve(HelperStep::Sweep),
            Step::InitSeek(helper, bucket) => self.serve(HelperStep::InitSeek(helper, bucket)),
            Step::InitLink(helper) => self.serve(HelperStep::InitLink(helper)),
            Step::InitStore(helper) => self.serve(HelperStep::InitStore(helper)),
            Step::Double(seen) => self.serve(HelperStep::Double(seen)),
        }
    }

    /// Takes a caller's step. Tests the refusals, reserves room, lets the session take the step,
    /// adds the entry, and notes whose cursor was placed.
    #[inline(always)]
    pub(crate) fn call(&mut self, caller: u64, step: CallerStep) -> Answer
        requires { IsClaim (claim_in step) self.old (step_by caller step) }
        ensures moves { Goes (claim_in step) self.old (step_by caller step) result self.new }
        ensures lists { ListsBy (claim_in step) self.old (step_by caller step) result self.new }
        ensures cursors { Cursors self.old (step_by caller step) result self.new }
        ensures limits { self.new.limits ≡ self.old.limits }
        ensures words { self.new.words ≡ self.old.words }
        ensures cursor { result ≡ Answer.Placed
            → is_some (caller_changes self.new.cursors caller) ≡ true }
    {
        if let Some(refusal) = self.refusal(caller, step) {
            return Answer::Refused(refusal);
        }
        let whole = step.by(caller);
        let room = step.claim().entry_room(whole) as usize;
        if self.history.reserve(self.owed + room).is_err() {
            return Answer::Refused(Refusal::NoMemory);
        }
        let stripes = u64::from(self.limits.stripes());
        // By the contract of `size` the invariants of the table hold.
        let _size = Table::size(&self.table);
        let session = &mut self.sessions[caller as usize];
        let answer = session.answer(
            caller,
            step,
            stripes,
            self.counts,
            &mut self.table,
            &mut self.locks,
        );
        let entry = entry_of(whole, answer);
        self.owed = add(&mut session.stance, &mut self.history, self.owed, entry);
        note_begun(&mut self.begun, entry);
        self.counts = self.counts.after(answer);
        self.placed = placed_after(self.placed, whole, answer);
        answer
    }

    /// Takes a step that belongs to no caller, and notes whose cursor was placed.
    #[inline(always)]
    fn serve(&mut self, step: HelperStep) -> Answer
        ensures event { Happens self.old (step_from step) result self.new }
        ensures words { self.new.words ≡ self.old.words }
    {
        // By the contract of `size` the invariants of the table hold.
        let _size = Table::size(&self.table);
        let answer = serve(step, &mut self.table);
        self.placed = placed_after(self.placed, step.to_step(), answer);
        answer
    }

    /// Takes these steps in a row, and gives the answer to each. Room for all answers is made
    /// first. If stripes are words, none of the steps may be an `Ask`.
    ///
    /// # Errors
    ///
    /// `AllocError` if that room is refused. Then no step is taken.
    ///
    /// # Cost
    ///
    /// The cost of each step, and memory for the answers.
    pub fn run(&mut self, alloc: Global, steps: &[Step]) -> Result<Vec<Answer>, AllocError>
        requires { self.old.words ≡ true → All (λ step. is_ask step ≡ false) steps.now }
        ensures ok { IfOk result (λ answers. Moves self.old steps.now answers.items self.new) }
        ensures err { OnErr result (self.new ≡ self.old) }
    {
        let mut answers = Vec::with_capacity(alloc, steps.len())?;
        for step in steps {
            let answer = self.step(*step);
            answers.push(answer).unwrap();
        }
        Ok(answers)
    }

    /// The history: an entry for each step that changed a transaction, oldest first. It is legal:
    /// it has the shape of transactions, no stripe had two holders, and every transaction has the
    /// same replies as if it ran alone. The entries are packed: `txn_trace::Unpacked` goes over
    /// them as values of `Entry`.
    pub fn trace(&self) -> &[SmallEntry]
        ensures value { result.now ≡ self.now.history }
        ensures shape { HasShape self.now }
        ensures locks { KeepsLocks self.now }
        ensures replies { KeepsReplies self.now }
        ensures legal { IsLegal (holder_by self.now.words) self.now.limits.stripes
            self.now.history }
        ensures callers { All (λ entry. caller_of entry < self.now.limits.callers)
            self.now.history }
        ensures whole { IsWhole self.now }
        ensures order { IsInOrder self.now.nodes }
    {
        // By the contract of `size` the invariants of the table hold.
        let _size = Table::size(&self.table);
        &self.history
    }

    /// Makes room in the history for this many more entries, besides those that callers owe now.
    /// The history then need not grow until more than this many entries are added or newly owed.
    /// The core is unchanged.
    ///
    /// # Errors
    ///
    /// `AllocError` if memory is refused; the core is unchanged.
    ///
    /// # Cost
    ///
    /// At most one allocation, with which the history is copied.
    pub fn reserve(&mut self, entries: usize) -> Result<(), AllocError>
        ensures { self.new ≡ self.old }
    {
        self.history.reserve(self.owed.saturating_add(entries))
    }

    /// The map now: what the committed transactions left, with the standing changes of the open
    /// transactions.
    ///
    /// # Errors
    ///
    /// `AllocError` if memory is refused.
    ///
    /// # Cost
    ///
    /// Time in proportion to the number of nodes, plus n log n for a map of n keys. While the call
    /// runs, it needs memory for two copies of the pairs.
    pub fn map(&self, alloc: Global) -> Result<BTreeMap<u64, u64>, AllocError>
        ensures { IfOk result (IsContent self.now) }
    {
        self.table.content(alloc)
    }

    /// The key and the value of each pair of the map now, in the order of the list. The list is
    /// ordered by the keys with their bits reversed.
    ///
    /// # Errors
    ///
    /// `AllocError` if memory is refused.
    ///
    /// # Cost
    ///
    /// Time in proportion to the nodes, and memory in proportion to the pairs.
    pub fn regular_list(&self, alloc: Global) -> Result<Vec<(u64, u64)>, AllocError>
        ensures { IfOk result (λ pairs. IsRegular self.now pairs.items) }
    {
        self.table.regular_list(alloc)
    }

    /// The limits with which the core was made. No step changes them.
    pub fn limits(&self) -> Limits
        ensures { result ≡ self.now.limits }
    {
        self.limits
    }

    /// The size: the number of buckets now.
    pub fn size(&self) -> u32
        ensures { result ≡ self.now.size }
    {
        self.table.size()
    }

    /// The number of keys of the map now.
    pub fn count(&self) -> u64
        ensures { result ≡ count_of (now self.now.history) }
    {
        self.table.count()
    }

    /// The number of entries for which the history keeps room. With this room, each open
    /// transaction can take back all its changes and end, without taking memory.
    pub fn owed(&self) -> usize
        ensures { result ≡ owed self.now.limits.callers self.now.history }
    {
        self.owed
    }

    /// The refusal of the first test that refuses the step, or `None` if no test refuses it. Memory
    /// and stamps are not tested here.
    #[inline(always)]
    pub(crate) fn refusal(&self, caller: u64, step: CallerStep) -> Option<Refusal>
        ensures { result ≡ refusal_of self.now (step_by caller step) }
    {
        if caller >= u64::from(self.limits.callers()) {
            return Some(Refusal::NoSuchCaller);
        }
        let session = &self.sessions[caller as usize];
        let whole = step.by(caller);
        let refusal = session.stance.refusal(self.limits, whole);
        if refusal.is_some() {
            return refusal;
        }
        if session.lacks_cursor(whole) {
            return Some(Refusal::Unplaced);
        }
        None
    }
}
