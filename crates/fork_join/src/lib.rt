//! A program run by fork and join: for each phase of a plan the workers are forked, each executes
//! its own instances over memory as it was and its own stores, and after the join their stores are
//! laid in, and their own cells of own scalars closed, worker by worker.
//!
//! - [`run_join`]: the run.
//! - [`Receipt`]: that a run has come to its end.
//! - `worker`: one worker, phase by phase.
//! - `walk`: the instances of a phase, one behind another.
//! - `cursor`: the turns that a worker has left.
//! - `overlay`, `phase_overlay`: the cells as a worker and its instances see them in a phase.
//! - [`Places`]: where an instance looks for the own scalars of its phase.
//! - `stores`: a worker's stores since the phase began.
#![tactic(auto)]

mod cursor;
mod overlay;
mod phase_overlay;
mod places;
mod receipt;
mod run;
mod stores;
mod walk;
mod worker;

pub use places::{NoOwn, Places, SomeOwn};
pub use receipt::Receipt;
pub use run::run_join;
