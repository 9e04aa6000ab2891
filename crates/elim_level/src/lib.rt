//! A level of elimination.
//!
//! - [`level`]: level 0, and each level from the one before it.
//! - [`forming`]: the candidates of the next level.
//! - [`pairs`]: how many pairs of opposite sign there are, and the search for one whose least combination
//!   is wide.
#![tactic(auto)]

pub mod forming;
pub mod level;
pub mod pairs;
