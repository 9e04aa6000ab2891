//! What a program means: its instances in sequential order, the cells that each loads and
//! stores, memory in front of each and behind the last, and the output.
//!
//! The definitions are in `specs/`. They speak of the tree as plain data of `nest_tree`; whatever
//! runs a program is proved against them. `laws` has what holds of them in every program.
#![tactic(auto)]

pub mod laws;
