//! What a run of several processors is, and what holds of every run: definitions and laws. All that
//! there is to call are the rounds of a barrier by signals.
//!
//! - `specs/Cells.antt`: what an act leaves in a cell.
//! - `specs/Timelines.antt`: what stands on the timeline of a run, and each processor's acts.
//! - `specs/States.antt`: the machine's states, its step, and the run of a schedule.
//! - `specs/Sequential.antt`: what one processor alone would compute.
//! - `specs/Ordered.antt`: ordered timelines, by chains of waits.
//! - `specs/Lawful.antt`: what holds of memory wherever the processors have come to.
//! - `specs/Free.antt`: who doesn't wait in vain; `specs/Fair.antt`: fair orders of steps.
//! - `specs/Rounds.antt`: a barrier by signals, round by round.
//! - `specs/Quiet.antt`: acts on a processor's own cells, and runs by turns.
//! - `specs/Shared.antt`: lawful shared cells, with own cells behind them.
//! - `specs/OwnPhases.antt`, `specs/Trips.antt`: phases in which each processor has cells of its
//!   own for some scalars, and their closings.
//! - `specs/Planned.antt`: an instance as a job, and the boundary in front of a phase.
//! - `specs/Deeds.antt`: what acts do, phase by phase.
//! - `specs/Closings.antt`, `specs/Machines.antt`, `specs/MachineDeeds.antt`: the machine of a program
//!   under a plan, where processors have cells of their own for a phase's scalars, and pass barriers
//!   in either style.
//! - `specs/Protocols.antt`, `specs/Laws.antt`, `specs/Viewed.antt`, `specs/PlanProtocols.antt`: what
//!   words that threads share may cite of a run: what each processor does, act by act, what its words
//!   show, what holds of it, and that of a program under a plan.
//! - [`style`]: the two styles.
//! - [`rounds`]: how many rounds a barrier by signals has, and whom a processor awaits in one.
//! - `laws`: no state is stuck, and runs of ordered plans are sequential.
//! - `protocols`: the laws that shared words cite hold of every ordered plan.
#![tactic(auto)]

mod laws;
mod protocols;
pub mod rounds;
pub mod style;

pub use laws::{
    acts_are_steps, acts_by_their_deeds, every_load_is_sequential, fair_runs_end,
    no_state_is_stuck, own_cells_follow, rounds_go_on, rounds_lead_to_all, runs_are_sequential,
    stored_values, timelines_in_styles, trips_keep_privates, turns_are_runs,
};
pub use protocols::{
    arrivals_in_styles, laws_in_styles, loads_in_styles, own_cells_in_styles,
    shared_cells_in_styles, values_in_styles,
};
pub use style::Style;
