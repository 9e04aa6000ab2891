//! The tests of the house: what no clause says. Each calls what is public, so the crates below
//! are proved once. Those of plans and their runs are in `run_tests`.
//!
//! - `streams`: sources and sinks, by their traits.
//! - `lines`: what a source lists, or which line of it is refused.
//! - `systems`: certificates, and what elimination says.
//! - `word_steps`: two processors of a straight line, step by step on the words that they share.
//! - `examples`: those on the pages of the crates that serve alone.
#![tactic(auto)]

#[cfg(test)]
mod examples;
#[cfg(test)]
mod lines;
#[cfg(test)]
mod straight_line;
#[cfg(test)]
mod streams;
#[cfg(test)]
mod systems;
#[cfg(test)]
mod word_steps;
