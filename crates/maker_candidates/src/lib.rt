//! What may stand in front of a phase of a made plan, from the weakest on.
//!
//! - [`candidates`]: the candidates in front of each phase.
//! - `producers`: the owners that a phase may wait for.
//! - [`same`]: anchors that name the same processor.
//! - `site`: a phase of a plan.
#![tactic(auto)]

pub mod candidates;
mod producers;
pub mod same;
mod site;

pub use candidates::all_candidates;
