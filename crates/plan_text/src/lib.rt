//! The text of a plan, written and read.
#![tactic(auto)]

mod item;
mod laws;
mod line;
mod lines;
mod loose;
mod part;
mod read;
pub mod syntax;
mod write;

pub use laws::{no_front, one_refusal, one_text, read_back};
pub use line::{put_kind, put_natural, put_word};
pub use lines::MOST_BYTES;
pub use read::read_plan;
pub use syntax::PlanSyntax;
pub use write::write_plan;
