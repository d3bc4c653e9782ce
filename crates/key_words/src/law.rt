// PROMISES stripes-as-atomic-words: held_once
//! States a law of the words as the contract of a function that does nothing. A crate that uses
//! this one can then cite the law without naming a lemma. The contract of a call cannot state the
//! law, because such a contract is about one seat, and the law compares the views of two seats.
ghost use Rattle.key_words.specs.Laws.{HeldOnce};

/// Each stripe is listed as held in at most one seat's view.
///
/// This law is the contract of this function, which does nothing. The law follows from the rule of
/// the words.
#[tactic(auto, using(crate::proofs::WordSteps::held_once))]
pub fn held_once()
    ensures { HeldOnce }
{}
