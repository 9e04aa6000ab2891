//! The own scalars of a phase, as a processor looks them up.
//!
//! - [`cells`]: the place of a cell among those of the own scalars, and the sum scalar that a
//!   statement assigns.
//! - [`final_trip`]: whether a loop is in its last trip.
#![tactic(auto)]

pub mod cells;
pub mod final_trip;

pub use cells::{OWN_PLACES, OwnCells, is_sum_place};
pub use final_trip::is_final;
