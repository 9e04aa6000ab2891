//! The text of one statement of a source, and its form.
//!
//! A text is a statement's characters without blanks and in capitals, but for what stands in
//! character constants. `read_statement` gives the statement that prints as the text, or the
//! fault for which there is none. Names stay as they are written: what is an array, a function,
//! a named constant or a DO variable is for those to say who know the whole program.
#![tactic(auto)]

mod characters;
mod fault;
mod form;
mod laws;
mod mark;
mod number;
mod reader;
mod state;
mod statement;
mod text;

pub use fault::TextFault;
pub use form::{
    Assignment, Bound, Compare, Comparison, Declarator, Definition, DoStatement, Expression,
    Operator, Printed, Sign, Statement, Target,
};
pub use laws::{form_or_fault, one_form};
pub use number::Number;
pub use text::read_statement;
