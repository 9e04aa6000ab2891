//! From the bytes of a source in fixed form to its statements (ANSI X3.9-1978, section 3).
//!
//! [`statements`] lists the statements and directives up to the END line, each with its line, its
//! label and its text without blanks, or refuses the bytes with the first fault by line.
//! `specs/Listing.antt` says which list bytes stand for and which fault they have; the laws are
//! that they have exactly one of the two. [`first_behind`] finds the first line behind END that
//! is no comment.
#![tactic(auto)]

mod behind;
mod faults;
mod laws;
mod line;
mod list;
mod refusal;
mod row;
mod texts;

pub use behind::first_behind;
pub use laws::{end_is_listed_last, listing_or_fault, one_listing};
pub use line::Line;
pub use list::statements;
pub use refusal::{LineRefusal, MOST_BYTES};
