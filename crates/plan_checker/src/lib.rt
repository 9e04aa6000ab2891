//! Whether a plan may be run on a program.
//!
//! - [`refusal`]: why a plan is refused, with the lines that are printed.
//! - [`fit`]: whether a plan fits a program.
//! - [`accept`]: whether a plan is accepted for a program.
//! - [`proven`]: a plan that is proved on one program, for all that agree and meet its conditions.
//! - [`laws`]: a plan is accepted exactly where it has no failure, accepted plans are ordered, and
//!   a plan that is proved on one program is accepted for each that it fits.
//! - `certificates`: certificates, each against its obligation, side by side.
//! - `places`: where its anchors lie, and who prints.
#![tactic(auto)]

pub mod accept;
mod certificates;
pub mod fit;
pub mod laws;
mod places;
pub mod proven;
pub mod refusal;

pub use accept::check;
pub use fit::check_fit;
pub use plan_shape::{is_good_anchor, own_loop};
pub use proven::{Proven, prove};
pub use refusal::PlanRefusal;
