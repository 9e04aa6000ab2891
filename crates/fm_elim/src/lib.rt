//! The decision of systems of linear inequalities by Fourier's elimination, with rounding.
//!
//! [`decide`] removes the variables of a system one by one, in an order that the caller gives. Level 0
//! has the system's rows in their lowest terms; level k has the rows of level k - 1 without the k-th
//! variable, and the least combinations of its pairs of opposite sign. It answers with a certificate
//! that the system has no whole solution, or by what the system is kept: no level has a contradiction,
//! so that it has a rational solution; or a number gets too large, or a level has too many rows.
//! [`Level`] is the same in steps.
//!
//! [`whole_solutions_keep_levels_clear`] is a law: where there is a whole solution no level of any
//! order has a contradiction.
//!
//! - `answer`: the answers.
//! - `elimination`: levels, and the decision over them.
//! - `extension`: a level with further rows.
//! - `refutation`: contradictions, and rows that clash.
//! - `certificate`: the certificate that ends in a row.
//!
//! The crate `elim_level` forms a level from the one before it, and `elim_rows` has its rows.
#![tactic(auto)]

mod answer;
mod certificate;
mod elimination;
mod extension;
mod law;
mod refutation;

pub use answer::{Answer, NoMemory};
pub use elimination::{Advance, Level, decide};
pub use law::whole_solutions_keep_levels_clear;
