//! What the obligations of a plan are good for: which slots a kind's change changes, what solves the
//! systems, and that where nothing does, the plan is ordered. There is nothing to call.
//!
//! Obligations are defined in `comm_system`, ordered plans in `sync_plan`.
#![tactic(auto)]

mod laws;

pub use laws::{
    groups_make_obligations, meeting_owners_solve, meeting_trips_solve, obligations_order,
    slots_see_certain_boundaries,
};
