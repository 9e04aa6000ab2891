//! The text of a made plan's reasons: why each loop that isn't dealt out is barred from it, and why
//! no weaker kind stands in front of a phase.
#![tactic(auto)]

mod laws;
mod write;

pub use laws::made_text;
pub use write::push_reasons;
