//! Inequalities over the loops round an access: where its instances stand.
//!
//! The unknowns of a system are numbered from 1: first the program's named constants, then, for
//! each loop round the access from the outermost, the value of its DO variable and the number of
//! its trip, from 0.
//!
//! - [`constraint`]: sums of unknowns that are at most a number.
//! - [`terms`]: the terms of a form inside loops.
//! - [`in_common`]: the loops that two places have in common.
//! - [`nested`]: the pieces of work of a program, each with the loops round it.
//! - [`laws`]: that each instance's values solve what holds of it.
#![tactic(auto)]

pub mod constraint;
pub mod in_common;
pub mod laws;
pub mod nested;
pub mod terms;

pub use constraint::{Constraint, Sign};
pub use in_common::{common, is_prefix};
pub use laws::instances_are_at_trips;
pub use nested::{Nested, nested_works};
pub use terms::Around;
