//! The words of the program that tells of plans, read with `clap` by its stated rule.
//!
//! `read_plan_words` gives the request that the words stand for: what is to be told, of which plan,
//! for how many processors, and the settings as they are written.
#![tactic(auto)]

mod commands;
mod read;
mod request;

pub use crate::read::read_plan_words;
pub use crate::request::{PlanRequest, Subject};
