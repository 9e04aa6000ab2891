//! The machine that runs a program under a plan, one act of one processor at a time.
//!
//! - [`machine`]: the machine, its step and its runs.
//! - [`answer`]: what a step answers.
//! - [`receipt`]: that a run has come to its end.
//! - `parts`: the parts of a machine, and what its calls do with them.
//! - `processor`: a processor of the machine.
#![tactic(auto)]

pub mod answer;
pub mod machine;
mod parts;
mod processor;
pub mod receipt;

pub use answer::StepAnswer;
pub use machine::Machine;
pub use receipt::Receipt;
