//! Whether two programs agree: they are equal in all but the values of named constants and the
//! bounds of arrays, and equal in the bounds of arrays that are printed whole.
#![tactic(auto)]

pub mod agree;
mod expressions;
mod forms;
mod statements;

pub use agree::agrees;
