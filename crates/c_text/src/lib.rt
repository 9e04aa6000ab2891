//! The text of a program under a plan as one C11 file, from the tree of what each processor does.
//! What is done is in the tree; here it is laid out.
//!
//! - [`file`]: the whole file.
//! - [`runtime`]: the parts that are the same in each file.
#![tactic(auto)]

pub mod file;
mod own;
mod phases;
pub mod runtime;
mod source;
mod text;

pub use file::{Emitted, write_c};
