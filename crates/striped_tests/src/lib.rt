//! Worked runs of every map (`runs`), and tests of `striped_map` and of `transfer` of
//! `samples::accounts`. They test what no contract says: as long as there is memory, each call
//! succeeds. A run lists each request with the answer that is due.
//!
//! Most functions that make calls have no contract; `worked` says why.
#![tactic(auto)]

#[cfg(test)]
mod another;
#[cfg(test)]
mod at_once;
#[cfg(test)]
mod calls;
#[cfg(test)]
mod drops;
#[cfg(test)]
mod histories;
#[cfg(test)]
mod kept;
#[cfg(test)]
mod limits;
#[cfg(test)]
mod meets;
#[cfg(test)]
mod other_maps;
#[cfg(test)]
mod refused;
#[cfg(test)]
mod runs;
#[cfg(test)]
mod threads;
#[cfg(test)]
mod transfers;
#[cfg(test)]
mod values;
#[cfg(test)]
mod worked;
