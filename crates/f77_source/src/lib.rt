//! From the statements and directives of a source to its program.
#![tactic(auto)]

mod body;
mod check;
mod form;
mod item;
mod laws;
mod placing;
mod reader;
mod source;
mod tree;
mod variable;
mod walk;

pub use laws::{
    constants_are_values, programs_are_well_formed, statements_are_few, variables_are_good,
};
pub use reader::read_program;
pub use source::Setting;
