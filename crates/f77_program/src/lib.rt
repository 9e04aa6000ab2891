//! What is known at a statement of a source, and the statement's first fault.
#![tactic(auto)]

mod arrays;
mod constants;
mod declared;
mod fault;
mod judge;
mod known;
mod laws;
mod limits;
pub mod linear;
mod marks;
mod measure;
pub mod measures;
mod names;
mod numbers;
mod opened;
mod parts;
mod pass;
mod pieces;
mod reach;
mod reaches;
mod refusal;
pub mod stack;
mod statements;
mod sums;
mod survey;
mod tested;
mod value;
mod whole;

pub use constants::Constants;
pub use judge::fault_in;
pub use known::Known;
pub use laws::passed_is_behind;
pub use limits::value_of;
pub use measure::Measure;
pub use names::Names;
pub use parts::parts_of;
pub use pass::pass_statement;
pub use refusal::{Fault, Refusal};
pub use whole::Whole;
