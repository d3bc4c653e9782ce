//! The command line of `boostmap`.
//!
//! `request_in` reads the words by the rules of `clap`. It returns the request that the words make:
//! a command and the name of its file. If the words make no request, it returns an error (`asked`,
//! `specs/Words.antt`). The requests are `replay FILE`, `run FILE`, `mix --seed N FILE` and
//! `check FILE`.
//!
//! Reading the words needs none of the proofs about engines and threads.
#![tactic(auto)]

mod no_request;
mod words;

pub use no_request::NoRequest;
pub use words::{Command, Request, request_in};
