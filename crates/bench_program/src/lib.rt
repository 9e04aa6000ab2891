//! The program that `bench` makes for itself is never refused. There is nothing to call.
//!
//! Its text is defined in `spmd_answer` (`specs/Bench.antt`), and so is what is due with a source
//! that is refused.
#![tactic(auto)]

mod laws;

pub use laws::bench_is_never_refused;
