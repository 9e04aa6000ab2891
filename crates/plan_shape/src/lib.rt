//! Whether a plan has the shape of one for a program.
//!
//! - [`shape`]: the least field of its shape that is wrong.
//! - [`anchors`]: what the anchors of phases and of kinds may name.
//! - [`conditions`]: its rows of conditions on named constants, and the first that isn't met.
//! - `marks`, `own`: the marks of loops; their sum scalars and private scalars.
#![tactic(auto)]

pub mod anchors;
pub mod conditions;
mod marks;
mod own;
pub mod shape;

pub use anchors::{is_good_anchor, own_loop};
pub use conditions::unmet;
pub use shape::wrong_field;
