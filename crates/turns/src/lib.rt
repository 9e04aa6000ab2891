//! What a processor does under a plan, turn by turn, where it has cells of its own for the own
//! scalars of phases, and passes barriers by counters alone or by signals.
//!
//! - [`turns`]: the turns that a processor has left.
//! - [`laws`]: what turns have to do with acts.
#![tactic(auto)]

mod counters;
pub mod laws;
mod pending;
pub mod turns;

pub use counters::Boundary;
pub use spmd_model::rounds;
pub use turns::{Next, NextOrPhase, Turns};
