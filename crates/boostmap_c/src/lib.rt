// PROMISES from-c: all exports
//! Transactional maps for C, and the judge of their histories: `owned_map`'s `OwnedMap`,
//! `striped_map`'s `Caller` and `Host`, and the checkers of `history_check` and `serial_check`, each
//! behind a handle that C keeps, with its exports. `order_check` judges an array.
//!
//! C cannot name a type that holds a `Vec`. So a handle is two words: a tag, and a pointer whose
//! type is erased. A ghost field says what it owns. In a caller's handle this is a member: the
//! caller, those that wait for a handle, and the shared map.
//!
//! A call borrows the object through the pointer and makes the library's call; a judge is taken out
//! and put back instead. Each call returns a status (`status.rt`) and writes at most one word. Some
//! also write an array or a struct.
//!
//! No export has a `requires`. What C must do is in the header. Calls on different handles of one
//! striped map may run at once; none takes a lock or waits.
//!
//! Proved of each export:
//!
//! - The contract of the library's call holds for the handle's object before and after, and for the
//!   result.
//! - Status and word are those of this result. If it has no word, none is written.
//! - A handle that owns an object still does after every call but a `free`.
//! - A judge's verdict is that of the definition for the entries that C's numbers stand for.
//!
//! Calls take constant time and no memory unless they say otherwise.
//!
//! Only tested: headers and bindings (`tests/bindings.sh`).
#![tactic(auto)]

mod any_order;
mod c_entry;
mod counts;
mod handle;
mod held_map;
mod history;
mod host_calls;
mod host_handle;
mod judge;
mod keeper;
mod keeper_pointer;
mod map;
mod map_pointer;
mod member;
mod member_handle;
mod member_pointer;
mod operations;
mod options;
mod owned_pointer;
mod read;
mod referee;
mod referee_pointer;
mod status;
mod stops;
mod striped;
mod striped_calls;
mod striped_read;
mod striped_run;
mod transactions;
