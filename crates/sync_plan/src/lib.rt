//! Plans of a parallel run, and who waits for whom under them.
//!
//! - [`plan`]: plans, their kinds and their conditions.
//! - [`barriers`]: the plan with a barrier in front of each phase.
//! - `laws`: who owns what under a plan that fits, and that barriers order it.
//! - [`waiting`]: whom a processor waits for in front of a phase, and who posts there.
#![tactic(auto)]

pub mod barriers;
mod laws;
pub mod plan;
pub mod waiting;

pub use barriers::all_barrier;
pub use laws::{barriers_order_phases, owners_are_processors};
pub use plan::{ConditionRow, Conditions, Kind, Plan, Version};
pub use waiting::{awaited, is_awaited};
