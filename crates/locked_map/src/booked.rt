// PROMISES callers-in-threads: Booked::new, into_core
//! A core with the book that counts its entries. The core is made together with the passes of its
//! callers. `Booked` is a type of its own, since `boost_core` knows no ledger. Invariant: the
//! book's total is the length of the history, so no entry can be added without a caller's share of
//! the ledger.
ghost use Rattle.std.specs.Prelude.{◌≡◌, ◌+◌, true, length, IfErr, IfOk};
ghost use Rattle.std.specs.List.{sum_by};
ghost use Rattle.boost_core.specs.State.{start_with_words};
ghost use Rattle.locked_map.specs.Tokens.{AreCounted, AreTickets};

use crate::caller::Caller;
use crate::pass::{Pass, passes_of, words_of};
use boost_core::Core;
use std::alloc::Global;
use std::sync::ledger::{Blank, Book, Ledger, Share};
use txn_trace::{Limits, Refusal};
use undo_log::Side;

/// A core that callers share, and the book that counts the entries of its history. A map of threads
/// keeps both under its lock.
///
/// A contract sees the core as `core`. The type guarantees that the core's stripes are words, and
/// that the book's total is the length of the history. So without the callers' shares, nobody can
/// put a core with another number of entries here. `L` names the ledger of this book.
#[derive(Drop)]
pub struct Booked<L: Ledger> {
    /// The core that the callers share.
    pub core: Core,
    pub(crate) book: Book<L>,
    pub(crate) none: Share<L>,
    pub(crate) ghost counted: { book.total ≡ length core.history },
    pub ghost of_words: { core.words ≡ true },
    pub(crate) ghost no_parts: { none.parts ≡ 0 },
    pub(crate) ghost no_amount: { none.amount ≡ 0 },
}

impl<L: Ledger> Booked<L> {
    /// Makes a core with these limits, a book that has counted nothing, and one pass for each
    /// caller, in rising order of the callers' numbers. The callers of all passes share the words
    /// of the core's stripes, and all these words are free. The blank ledger must be named `L` and
    /// have one part for each caller.
    ///
    /// # Errors
    ///
    /// `NoMemory` if memory is refused.
    ///
    /// # Cost
    ///
    /// Time and memory in proportion to the number of callers, the number of stripes and the
    /// largest number of buckets.
    pub fn new(
        alloc: Global,
        blank: Blank,
        limits: Limits,
    ) -> Result<(Booked<L>, Vec<Pass<L>>), Refusal>
        requires name { blank.name ≡ L.name }
        requires parts { blank.parts ≡ L.parts }
        requires one_each { blank.parts ≡ limits.callers }
        ensures core { IfOk result (λ r. r.0.core ≡ start_with_words limits) }
        ensures passes { IfOk result (λ r. AreTickets limits r.1.items) }
        ensures err { IfErr result (λ refusal. refusal ≡ Refusal.NoMemory) }
    {
        let (book, mut all) = blank.open::<L>();
        let none = all.empty();
        let core = Core::with_words(alloc, limits)?;
        let booked = Booked { core, book, none };
        let (words, seats) = words_of(alloc, limits)?;
        let passes = passes_of(alloc, limits, words, seats, &mut all)?;
        Ok((booked, passes))
    }

    /// Returns the core. `callers` must be the callers of all passes. The core's history has as
    /// many entries as these callers have seen together. The core and the callers are unchanged.
    ///
    /// # Cost
    ///
    /// Time in proportion to the number of callers; takes no memory.
    pub fn into_core<S: Side>(self, callers: &mut [Caller<L, S>]) -> Core
        requires { length callers.old ≡ L.parts }
        ensures core { result ≡ self.core }
        ensures callers { callers.new ≡ callers.old }
        ensures counted { AreCounted result.history callers.old }
    {
        let Booked {
            core,
            mut book,
            mut none,
        } = self;
        gather(callers, &mut none, &mut book);
        core
    }
}

/// Moves the shares of all callers into `all`, and then gives each caller its share back. In
/// between, `all` shows that the shares together count everything in the book.
fn gather<L: Ledger, S: Side>(callers: &mut [Caller<L, S>], all: &mut Share<L>, book: &mut Book<L>)
    requires { all.old.parts + length callers.old ≡ L.parts }
    ensures total { all.old.amount + sum_by (λ k. length k.seen) callers.old ≡ book.old.total }
    ensures callers { callers.new ≡ callers.old }
    ensures parts { all.new.parts ≡ all.old.parts }
    ensures amount { all.new.amount ≡ all.old.amount }
    ensures book { book.new.total ≡ book.old.total }
{
    book.audit(all);
    let Some((first, rest)) = callers.split_first_mut() else {
        return;
    };
    let count = first.seen.entries().len() as u64;
    first.seen.share.give(all, 1, count);
    gather(rest, all, book);
    all.give(&mut first.seen.share, 1, count);
}
