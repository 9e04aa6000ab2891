//! A plan's obligations as text, for a reader or for another solver: a line
//! `system O{number}:{line}-{line}:V{variable}:L{level}:P{piece}:{below}:{above} VARS ROWS` for each,
//! and then a line `c1 .. cVARS <= bound` for each of its rows.
#![tactic(auto)]

mod lines;

pub use lines::write_systems;
