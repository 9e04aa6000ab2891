//! The expressions of emitted C: what is written for an expression, an access, a comparison or a form
//! of a program reads, by C's ranks, as what it stands for.
//!
//! - [`Scope`]: what names stand for, and the writers.
//! - [`Sum`]: sums of multiples of named values and of a constant, as C has them.
#![tactic(auto)]

mod forms;
mod laws;
pub mod place;
pub mod scope;
pub mod sum;
pub mod sums;
pub mod text;
mod values;

pub use laws::{forms_are_the_programs, one_reading, read_back};
pub use place::Place;
pub use scope::Scope;
pub use sum::{Sum, Term};
pub use sums::put_sum;
pub use text::{put_literal, put_loop, put_natural, put_number, put_text};
