//! Systems without rows and columns that play no part (presolve), and what is found of them told of
//! the whole system (postsolve).
#![tactic(auto)]

pub mod laws;
pub mod presolved;
mod renumbering;

pub use presolved::{Checked, Presolved};
