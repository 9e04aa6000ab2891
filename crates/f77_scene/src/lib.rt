//! Which program a source in fixed form stands for, and its first fault: definitions, and what
//! holds of them.
//!
//! `specs/Reading.antt` has `Reads`, the program of bytes and settings, and `first_fault`.
//! Statements are gone over in the order of the text with what is known in front of each
//! (`specs/Scene.antt`).
#![tactic(auto)]

mod laws;

pub use laws::{form_is_its_own, one_program, program_or_fault};
