//! The tests of plans and their runs: what no clause says. Each calls what is public, so the crates
//! below are proved once.
//!
//! - `plans`: which obligations a plan has.
//! - `runs`: accepted plans run on threads of the caller's, and where each leg of a worker ends.
//! - `gates`: workers run beside one another, by fork and join and over shared words.
#![tactic(auto)]

#[cfg(test)]
mod gates;
#[cfg(test)]
mod plans;
#[cfg(test)]
mod runs;
