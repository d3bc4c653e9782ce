// PROMISES what-leads-to-a-bad-entry: by_locks, by_commits
//! Finds the reason of an illegal verdict, by the rule that the bad entry breaks. Only this module
//! knows the rules. The modules `change`, `due` and `held` answer single questions. Each question
//! is a separate pass over the entries, so a reason costs a few passes.
ghost use Rattle.std.specs.Prelude.{◌≡◌, ℕ, ◌<◌, ◌%◌, List, Option, IfOk};
ghost use Rattle.std.specs.List.{All};
ghost use Rattle.txn_words.specs.Kinds.{caller_of, is_began};
ghost use Rattle.txn_trace.specs.Legal.{IsLegal};
ghost use Rattle.txn_words.specs.Shape.{how_many};
ghost use Rattle.txn_words.specs.declared.entry.Entry.{Entry};
ghost use Rattle.txn_words.specs.declared.holder.Holder.{Holder};
ghost use Rattle.txn_words.specs.declared.op.Op.{Op};
ghost use Rattle.history_check.specs.Callers.{HaveEntered};
ghost use Rattle.serial_check.specs.Serializable.{IsSerializableByCommits};
ghost use Rattle.bad_entry.specs.Desks.{waiting_in};
ghost use Rattle.bad_entry.specs.Reasons.{IsLockReason, IsReplyReason, IsReasonByCommits};
ghost use Rattle.bad_entry.specs.Reasons.{IsCommitReason, IsReasonByLocks, IsShapeReason};

use crate::change::{Change, Fate, last_with_fate};
use crate::desks::Desks;
use crate::due::{fed_by_commits, fed_by_locks, last_commit, torn_since, value_now};
use crate::held::{Held, held_by, txn_of};
use history_check::{Callers, Rule};
use std::alloc::{AllocError, Global};
use txn_trace::{Entry, Holder, Op, Phase, Reply, SmallEntry};

/// The reason why an entry is bad.
#[derive(Clone, Copy, Debug, PartialEq, Eq)]
pub enum Reason {
    /// If judged by locks: the reply differs from the reply that the present map gives.
    Reply {
        /// The operation that the caller waits for.
        op: Op,
        /// The reply that would have been right.
        due: Reply,
        /// The last change of the key, and the fate of this change.
        last: Option<(Change, Fate)>,
    },
    /// If judged by the order of commits: for some key, the committing transaction read a value
    /// that differs from the key's value in the committed map.
    Misread {
        /// The key.
        key: u64,
        /// The first reply that the transaction got at this key.
        read: Reply,
        /// The value of the key in the committed map, which the reply should have been.
        due: Reply,
        /// The last commit that changed the key's value in the committed map: the index of the
        /// Committed entry, and the commit's caller.
        commit: Option<(u64, u64)>,
    },
    /// If judged by the order of commits: the replies of the committing transaction contradict one
    /// another, so no map gives the transaction all of its replies.
    Torn {
        /// The index of the first reply that contradicts those before it.
        since: Option<u64>,
    },
    /// Another caller holds the lock of the operation's key, or the entry is a Busy entry and names
    /// a caller that it must not name.
    Lock {
        /// The stripe of the key.
        stripe: u64,
        /// The holder of the stripe, or `None` if the stripe is free.
        holder: Option<Held>,
    },
    /// The entry is not allowed after the earlier entries of its caller, or does not have the next
    /// number.
    Shape {
        /// The caller's phase, which determines the kinds of entries that are allowed instead.
        phase: Phase,
        /// The caller's newest change that is not taken back: the change's key, and the value
        /// before the change.
        newest: Option<(u64, Reply)>,
        /// The number of transactions that began.
        began: u64,
        /// The number of transactions that committed.
        committed: u64,
    },
    /// No reason can be given: entries of this kind do not break this rule, or the entry is a Did
    /// entry whose caller waits for no operation.
    Nothing,
}

/// The operation whose reply a caller waits for at the end of a history.
fn waiting_in(alloc: Global, entries: &[SmallEntry], caller: u64) -> Result<Option<Op>, AllocError>
    requires caller { caller < 64 }
    requires callers { All (λ entry. caller_of entry < 64) entries.now }
    ensures { IfOk result (λ op. op ≡ waiting_in entries.now caller) }
{
    let mut desks = Desks::new(alloc)?;
    for packed in entries {
        desks.enter(packed.entry());
    }
    Ok(desks.at(caller).waiting)
}

/// Returns the reason why a reply to this caller is wrong by the rules of locks.
fn reply_reason(
    alloc: Global,
    entries: &[SmallEntry],
    stripes: u64,
    holder: Holder,
    caller: u64,
) -> Result<Reason, AllocError>
    requires stripes { 0 < stripes }
    requires caller { caller < 64 }
    requires callers { All (λ entry. caller_of entry < 64) entries.now }
    ensures { IfOk result (λ reason. IsLegal holder stripes entries.now →
        IsReplyReason entries.now caller reason) }
{
    let Some(op) = waiting_in(alloc, entries, caller)? else {
        return Ok(Reason::Nothing);
    };
    let due = value_now(alloc, entries, stripes, holder, op.key())?;
    let last = last_with_fate(alloc, entries, op.key())?;
    Ok(Reason::Reply { op, due, last })
}

/// Returns the reason for an entry that breaks the rule of locks: the stripe of the operation's
/// key, and the holder of this stripe.
fn lock_reason(
    alloc: Global,
    entries: &[SmallEntry],
    stripes: u64,
    op: Op,
) -> Result<Reason, AllocError>
    requires stripes { 0 < stripes }
    requires callers { All (λ entry. caller_of entry < 64) entries.now }
    ensures { IfOk result (λ reason. (holder : Holder) → IsLegal holder stripes entries.now →
        IsLockReason stripes op entries.now reason) }
{
    let stripe = op.key() % stripes;
    let holder = held_by(alloc, entries, stripes, stripe)?;
    Ok(Reason::Lock { stripe, holder })
}

/// How many transactions began in a history.
fn began_in(entries: &[SmallEntry]) -> u64
    ensures { result ≡ how_many is_began entries.now }
{
    entries
        .iter()
        .filter(|packed| matches!(packed.entry(), Entry::Began(..)))
        .count() as u64
}

/// Returns the reason for an entry that breaks the rule of shape: the caller's phase, its newest
/// change and the counts. Together they determine which entries are allowed in place of the bad
/// entry.
fn shape_reason(callers: &Callers, began: u64, caller: u64) -> Reason
    requires { caller < 64 }
    ensures { (h : List Entry) → HaveEntered h callers.now → began ≡ how_many is_began h →
        IsShapeReason h caller result }
{
    Reason::Shape {
        phase: callers.phase(caller),
        newest: callers.newest_change(caller),
        began,
        committed: callers.committed(),
    }
}

/// Returns the reason why the entry `bad` breaks the rule `rule` after the legal history `entries`.
/// The history is judged by locks.
///
/// # Errors
///
/// `AllocError` if memory is refused.
///
/// # Cost
///
/// The cost of making `history_check`'s checker and of feeding it each entry, plus a few passes
/// over the entries.
pub fn by_locks(
    alloc: Global,
    entries: &[SmallEntry],
    bad: &Entry,
    rule: Rule,
    stripes: u64,
    holder: Holder,
) -> Result<Reason, AllocError>
    requires stripes { 0 < stripes }
    requires caller { caller_of bad.now < 64 }
    requires callers { All (λ entry. caller_of entry < 64) entries.now }
    ensures { IfOk result (λ reason. IsLegal holder stripes entries.now →
        IsReasonByLocks rule stripes entries.now bad.now reason) }
{
    match rule {
        Rule::Replies => match *bad {
            Entry::Did(caller, _) => reply_reason(alloc, entries, stripes, holder, caller),
            _ => Ok(Reason::Nothing),
        },
        Rule::Locks => match *bad {
            Entry::Asked(_, op) => lock_reason(alloc, entries, stripes, op),
            Entry::Busy(_, op, _) => lock_reason(alloc, entries, stripes, op),
            _ => Ok(Reason::Nothing),
        },
        Rule::Shape => {
            let checker = fed_by_locks(alloc, entries, stripes, holder)?;
            Ok(shape_reason(checker.callers(), began_in(entries), bad.caller()))
        }
    }
}

/// The reason why this caller's transaction must not commit.
fn commit_reason(alloc: Global, entries: &[SmallEntry], caller: u64) -> Result<Reason, AllocError>
    requires caller { caller < 64 }
    requires callers { All (λ entry. caller_of entry < 64) entries.now }
    ensures { IfOk result (λ reason. IsSerializableByCommits entries.now →
        IsCommitReason entries.now caller reason) }
{
    let checker = fed_by_commits(alloc, entries)?;
    let Some(miss) = checker.misread(caller) else {
        let since = torn_since(alloc, entries, caller)?;
        return Ok(Reason::Torn { since });
    };
    let commit = last_commit(alloc, entries, miss.key)?;
    Ok(Reason::Misread {
        key: miss.key,
        read: miss.read,
        due: miss.due,
        commit,
    })
}

/// Returns the reason why the entry `bad` breaks the rule `rule` after the serializable history
/// `entries`. The history is judged by the order of commits.
///
/// # Errors
///
/// `AllocError` if memory is refused.
///
/// # Cost
///
/// For each entry, at most twice the cost of `serial_check`'s checker, and two look-ups of a key.
pub fn by_commits(
    alloc: Global,
    entries: &[SmallEntry],
    bad: &Entry,
    rule: Rule,
) -> Result<Reason, AllocError>
    requires caller { caller_of bad.now < 64 }
    requires callers { All (λ entry. caller_of entry < 64) entries.now }
    ensures { IfOk result (λ reason. IsSerializableByCommits entries.now →
        IsReasonByCommits rule entries.now bad.now reason) }
{
    match rule {
        Rule::Replies => match *bad {
            Entry::Committed(caller, _) => commit_reason(alloc, entries, caller),
            _ => Ok(Reason::Nothing),
        },
        Rule::Locks => Ok(Reason::Nothing),
        Rule::Shape => {
            let checker = fed_by_commits(alloc, entries)?;
            Ok(shape_reason(checker.callers(), began_in(entries), bad.caller()))
        }
    }
}
