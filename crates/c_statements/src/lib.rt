//! The statements of emitted C inside a phase: what is written for a loop, an assignment or a PRINT,
//! with the expressions of c_expressions.
//!
//! - [`body`]: statements, and heads of loops.
//! - [`lines`]: lines of code.
#![tactic(auto)]

pub mod body;
pub mod lines;
pub mod loops;
pub mod prints;

pub use body::Body;
pub use lines::{put_code, put_indent, put_line};
pub use loops::{put_begun, put_compared, put_ended, put_loop_head, put_stepped};
pub use prints::element_count;
