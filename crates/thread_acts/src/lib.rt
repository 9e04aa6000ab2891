//! Thread code does the machine's acts: laws alone.
#![tactic(auto)]

pub mod laws;
