//! Whether every subscript of a program is in range.
//!
//! [`check_ranges`] names the first access whose subscript is past one of its bounds. It goes
//! through the instances of those statements alone for whose subscripts there are no certificates;
//! [`range_proof`] gives the two of a subscript and a dimension.
//!
//! - [`outside`]: a subscript out of range.
//! - [`check`]: the check.
//! - [`proof`]: certificates.
//! - [`laws`]: what they are good for.
#![tactic(auto)]

mod accesses;
mod certified;
pub mod check;
mod cost;
mod effort;
pub mod laws;
pub mod outside;
pub mod proof;
mod systems;

pub use check::check_ranges;
pub use laws::certified_subscripts_are_in_range;
pub use outside::OutOfRange;
pub use proof::range_proof;
