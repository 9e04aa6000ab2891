//! The sequential meaning of a program: its last memory and its output.
//!
//! [`run_sequential`] executes the instances one by one, in sequential order.
//!
//! - [`value`]: what the items of a PRINT are evaluated from.
//! - [`output`]: the bytes of the lines that a run prints.
//! - `line`, `load`: the line of a PRINT, and what loads give.
//! - [`run`]: the run.
#![tactic(auto)]

pub mod laws;
mod line;
mod load;
pub mod output;
pub mod run;
pub mod value;

pub use output::Output;
pub use run::run_sequential;
pub use value::Given;
