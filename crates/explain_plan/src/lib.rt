//! What is told of a plan, in words or as JSON: why loops aren't dealt out, and why nothing weaker
//! stands in front of a phase, each by two iterations that meet.
#![tactic(auto)]

mod awaited;
mod given;
mod json;
mod last;
mod names;
mod page;
mod text;

pub use given::account_of;
pub use page::{Form, write_account};
