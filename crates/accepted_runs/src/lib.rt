//! What an accepted plan is good for: every interleaving of its processors' loads, stores,
//! additions and steps of counters and signals is sequential. There is nothing to call.
//!
//! Plans that are accepted are defined in `plan_checker`, interleavings (runs of a schedule of the
//! machine of a program under a plan) in `spmd_model`, what the program computes in `nest_model`.
#![tactic(auto)]

mod laws;

pub use laws::accepted_plans_run_in_styles;
