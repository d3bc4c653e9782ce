//! The meaning of a history of transactions.
//!
//! A history is a list of entries of one or more callers. Their types are from `txn_words`, and
//! this crate exports them too. The definitions in `specs/` say:
//!
//! - which transaction an entry belongs to;
//! - what a transaction does when it runs alone;
//! - which map the committed transactions leave if they run in commit order (`serial`);
//! - which map there is when the changes of the open transactions are added (`now`);
//! - which histories are legal, by the rules of replies, of locks and of shape.
//!
//! The definition of legal histories follows the "serialisable" of Herlihy and Koskinen,
//! "Transactional Boosting" (2008).
//!
//! Proved: the laws of histories in `proofs/`, for each kind of entry. The crates that use this one
//! cite them. By `laws::erased`, aborted transactions leave nothing behind.
#![tactic(auto)]

pub mod laws;

pub use txn_words::{
    Action, Answer, Entry, Holder, Limits, Op, PackedAction, PackedStep, Phase, Refusal, Reply,
    Script, Scripts, SmallEntry, Stance, Step, Unpacked, answer_text, entry_of,
};
