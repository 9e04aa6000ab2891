//! Which scalars of a loop each processor may have a cell of its own for.
//!
//! - [`scalars`]: sum scalars, which a loop only adds to, and private ones, which it stores first.
//! - [`adds_once`]: whether an expression is a scalar with more added to it or subtracted from it.
//! - [`laws`]: the lists have all of them, and no scalar is both.
#![tactic(auto)]

mod expressions;
pub mod laws;
pub mod scalars;
mod works;

pub use expressions::adds_once;
pub use scalars::{
    MOST_OWN, has_few_sums, is_private, is_sum, path_length, private_scalars, sum_scalars,
};
