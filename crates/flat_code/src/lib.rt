//! Expressions as lists of steps over numbered registers, and cells as lines along a loop.
//!
//! The loads come first, in text order; each step appends one register, and none is overwritten.
#![tactic(auto)]

pub mod code;
pub mod compile;
pub mod lines;
pub mod table;

pub use code::{Code, Step, registers_needed, run_code, value_of_code};
pub use compile::code_of;
pub use lines::{Line, lay_lines, line_of, line_of_load};
pub use table::CodeTable;
