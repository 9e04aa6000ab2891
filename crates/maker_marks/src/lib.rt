//! The cut of a program, by how its loops are dealt out.
//!
//! - [`tries`]: how a loop may be dealt out, and what is tried of it.
//! - [`cut`]: the cut by how loops are dealt out.
//! - [`nests`]: the loops of a program by number.
//! - `marks`, `privates`: the marks of loops; their private scalars.
#![tactic(auto)]

pub mod cut;
mod marks;
pub mod nests;
mod privates;
pub mod tries;

pub use cut::{cut_alone, cut_of, cut_of_try};
pub use privates::DealtBy;
