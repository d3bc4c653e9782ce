//! Visits to one striped map that keeps its entries (`Keep::Entries`), each in its own thread. In
//! one transaction, a visitor puts a value at a key and gets the value at this key. Each visit
//! promises that if it got a reply, its caller's own entries end with those of the visit
//! (`HasVisited`). What `visit_all` ensures about the history follows from these promises.
ghost use Rattle.std.specs.Prelude.{◌≡◌, ◌⊎◌, ℕ, ◌∷◌, IfOk, IfErr, All, false, length, map, Some, slice_get};
ghost use Rattle.txn_words.specs.declared.refusal.Refusal.TheVariants.{Limit, NoMemory};
ghost use Rattle.std.specs.List.{fold};
ghost use Rattle.txn_words.specs.declared.holder.Holder.TheVariants.{Begun};
ghost use Rattle.txn_trace.specs.Legal.{IsLegal};
ghost use Rattle.striped_map.specs.declared.keep.Keep.TheVariants.{Entries};
ghost use Rattle.striped_map.specs.Callers.{has_made};
ghost use Rattle.striped_map.specs.Hosts.{IsWhole, have_made, kept_by, may_open, numbers, seen_by, taken};
ghost use Rattle.striped_map.specs.Keeps.{Keeps};
ghost use Rattle.samples.specs.Visits.{ended, AreAnswered, HasDone, HasMade, IsHistoryOf};

use std::alloc::{AllocError, Global};
use std::thread;
use std::thread::Threads;
use striped_map::{Caller, Host, Keep, NoHistory, Opening, Stop, Transaction};
use txn_trace::{Entry, Refusal, Reply};

/// The key and the value that a visitor puts.
#[derive(Clone, Copy)]
pub struct Visit {
    /// The key.
    pub key: u64,
    /// The value.
    pub value: u64,
}

/// The reply that a visitor got, or why it got none.
pub type Answer = Result<Reply, Stop>;

impl Visit {
    /// Puts the value at the key, then gets the key's value, and returns what it got.
    ///
    /// # Errors
    ///
    /// The first `Stop` that one of these two calls returns.
    #[tactic(auto, using(striped_map::proofs::CallSpans::keeps_on, crate::proofs::Whole::has_done))]
    fn put_and_get(self, t: &mut Transaction<'_>) -> Result<Reply, Stop>
        ensures keeps { Keeps t.old t.new }
        ensures done { IfOk result (λ reply. HasDone self reply t.old.me.now t.new.me.now) }
    {
        t.put(self.key, self.value)?;
        t.get(self.key)
    }

    /// Makes the visit in a transaction, and begins again as long as another visitor holds the
    /// key's stripe.
    ///
    /// # Errors
    ///
    /// The first refusal that a call of the transaction returns.
    fn make(self, me: &mut Caller) -> Answer
        ensures { HasMade self result me.old me.new }
    {
        let (reply, _) = me.transact(u64::MAX, |t: &mut Transaction<'_>| self.put_and_get(t))?;
        Ok(reply)
    }
}

/// A visit, with the caller that makes it.
#[derive(Drop)]
struct Visitor {
    visit: Visit,
    me: Caller,
}

/// A visit that was made: its answer, and its caller.
#[derive(Drop)]
struct Visited {
    answer: Answer,
    me: Caller,
}

impl Visitor {
    /// Makes the visit.
    fn go(self) -> Visited
        ensures { HasMade self.visit result.answer self.me result.me }
    {
        let Visitor { visit, mut me } = self;
        let answer = visit.make(&mut me);
        Visited { answer, me }
    }
}

/// Gives each visit a caller.
///
/// # Errors
///
/// `AllocError` if memory is refused.
fn seat_all(
    alloc: Global,
    callers: Vec<Caller>,
    visits: &[Visit],
) -> Result<Vec<Visitor>, AllocError>
    requires { length callers.items ≡ length visits.now }
    ensures callers { IfOk result (λ visitors. map (λ v. v.me) visitors.items ≡ callers.items) }
    ensures visits { IfOk result (λ visitors. map (λ v. v.visit) visitors.items ≡ visits.now) }
{
    let mut visitors = Vec::new(alloc);
    for me in callers {
        let visit = visits[visitors.len()];
        visitors.push(Visitor { visit, me })?;
    }
    Ok(visitors)
}

/// Makes each visit in its own thread.
///
/// # Errors
///
/// `AllocError` if memory is refused.
fn go_all<R: Threads + Sync>(rt: &R, visitors: Vec<Visitor>) -> Result<Vec<Visited>, AllocError>
    ensures len { IfOk result (λ done. length done.items ≡ length visitors.items) }
    ensures each { IfOk result (λ done. (i : ℕ) (v : _) (d : _)
        → slice_get visitors.items i ≡ Some v → slice_get done.items i ≡ Some d
        → HasMade v.visit d.answer v.me d.me) }
{
    let done = thread::map_vec(rt, visitors, &|visitor: Visitor| visitor.go())?;
    Ok(done)
}

/// Merges the callers of all visits into the host. Returns the answers, in the order of the visits.
///
/// # Errors
///
/// `AllocError` if memory is refused.
fn merge_all(alloc: Global, host: &mut Host, done: Vec<Visited>) -> Result<Vec<Answer>, AllocError>
    requires same_map { All (λ d. d.me.map.value ≡ host.old.map.value) done.items }
    requires closed { All (λ d. d.me.is_open ≡ false) done.items }
    requires childless { All (λ d. has_made d.me ≡ false) done.items }
    requires none_made { have_made host.old ≡ false }
    ensures map { host.new.map ≡ host.old.map }
    ensures made { have_made host.new ≡ false }
    ensures numbers { numbers host.new ≡ numbers host.old }
    ensures seen { seen_by host.new ≡ seen_by host.old }
    ensures taken { IfOk result (λ answers.
        taken host.new ≡ fold (λ all d. ended d.me ∷ all) (taken host.old) done.items) }
    ensures answers { IfOk result (λ answers. answers.items ≡ map (λ d. d.answer) done.items) }
{
    let mut answers = Vec::new(alloc);
    for Visited { answer, me } in done {
        let Ok(()) = host.take_in(me) else {
            unreachable!()
        };
        answers.push(answer)?;
    }
    Ok(answers)
}

/// Hands out the history of a map whose callers were all merged. None of them made another.
///
/// # Errors
///
/// `NoMemory` if memory is refused.
#[tactic(auto, using(striped_map::proofs::Collecting::none_left))]
fn hand_out(host: &mut Host) -> Result<Vec<Entry>, Refusal>
    requires keeps { kept_by host.old ≡ Entries }
    requires whole { IsWhole host.old }
    ensures ok { IfOk result (λ h. IsHistoryOf host.old h.items) }
    ensures err { IfErr result (λ refusal. refusal ≡ NoMemory) }
{
    match host.history() {
        Ok(history) => Ok(history),
        Err(NoHistory::NoMemory) => Err(Refusal::NoMemory),
        Err(NoHistory::NotKept) => unreachable!(),
        Err(NoHistory::Missing(_)) => unreachable!(),
    }
}

/// Opens a map with a caller for each visit, makes each visit in its own thread, and merges the
/// callers, which are numbered from 1 in the order of the visits. Returns the history of the map,
/// and an answer for each visit, in this order. The history is legal. Each visitor with a reply got
/// the value that it had put, whatever the other visitors did, and its transaction is committed in
/// the history.
///
/// # Errors
///
/// - `Limit` if there are no stripes, more than 4,096 stripes, or more than 4,096 visits.
/// - `NoMemory` if memory is refused.
///
/// # Cost
///
/// For each visit, a thread, and a transaction that is begun again as long as its stripe is held.
/// Also the cost of `Opening::open` and of `Host::history`.
pub fn visit_all<R: Threads + Sync>(
    rt: &R,
    alloc: Global,
    stripes: usize,
    visits: &[Visit],
) -> Result<(Vec<Entry>, Vec<Answer>), Refusal>
    ensures legal { IfOk result (λ r. IsLegal Begun stripes r.0.items) }
    ensures answered { IfOk result (λ r. AreAnswered r.0.items visits.now r.1.items) }
    ensures err { IfErr result (λ refusal. (refusal ≡ NoMemory)
        ⊎ ((refusal ≡ Limit) × (may_open stripes (length visits.now) ≡ false))) }
{
    let opening = Opening {
        stripes,
        callers: visits.len(),
        keys: 0,
        keep: Keep::Entries,
        seed: 0,
    };
    let (mut host, callers) = opening.open(alloc)?;
    let visitors = seat_all(alloc, callers, visits)?;
    let done = go_all(rt, visitors)?;
    let answers = merge_all(alloc, &mut host, done)?;
    let history = hand_out(&mut host)?;
    Ok((history, answers))
}
