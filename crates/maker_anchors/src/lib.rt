//! Who owns what in a made plan: the anchors of the static phases under a cut.
//!
//! - [`anchors`]: the anchor of each phase.
//! - [`places`]: places along a distributed dimension, and how they are dealt.
//! - `scope`: where the anchor of a phase is looked for.
#![tactic(auto)]

pub mod anchors;
pub mod places;
mod scope;

pub use anchors::{anchors_of, element_owner};
