//! The program of the source that bytes begin with, and the plan for it that is asked for: the one that
//! is made, the same with barriers, or the one that stands behind the source.
#![tactic(auto)]

pub mod planned;

pub use planned::{Asked, Planned, given_plan, plan_behind, plan_for, plan_program};
