//! The rules of conflicts: which two accesses conflict, and which boundaries stand certainly between
//! two instances of two static phases.
//!
//! - [`reference`]: the accesses of a phase.
//! - [`conflict`]: which two conflict.
//! - [`producer`], [`level`]: producers that are waited for, and two static phases at a level with
//!   the boundaries that are certain there.
#![tactic(auto)]

pub mod conflict;
pub mod level;
pub mod producer;
pub mod reference;
