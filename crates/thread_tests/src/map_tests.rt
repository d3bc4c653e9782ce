//! Tests of `locked_map`. Callers make calls of one map: from tables, by hand, in threads, and with
//! memory refused. This file only names the modules. What the modules share with other tests is in
//! `devices`.
mod by_hand;
mod cores;
mod refused;
mod register;
mod releases;
mod rows;
mod side;
mod threads;
