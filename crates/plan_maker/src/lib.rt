//! The plan of a program: which loops are what, who owns what, and the weakest waits with which
//! every access that conflicts is ordered, each with its certificate.
//!
//! - [`make`]: the plan with its reasons.
//! - [`reasons`], [`cause`]: why loops aren't dealt out, and why nothing weaker stands in front of a
//!   phase.
//! - [`tries`], [`cut`]: how a loop may be dealt out, and the cut of a program by how its loops are;
//!   both are those of `maker_marks`.
//! - [`anchors`]: the anchors of the static phases under a cut, those of `maker_anchors`.
#![tactic(auto)]

mod beginnings;
mod cache;
mod candidates;
pub mod cause;
mod dealt;
mod decided;
mod findings;
mod judge;
mod loops;
mod maker;
mod numbers;
mod orders;
mod partners;
mod plan_work;
mod problem;
pub mod reasons;
mod search;
mod verdict;

pub use maker::{make, make_barrier};
pub use maker_anchors::{anchors, anchors_of};
pub use maker_marks::{cut, cut_of, cut_of_try, tries};
