//! Workers that run a program under a plan on threads, over words that all of them share, and cells
//! of their own for own scalars; barriers are passed in either style.
//!
//! - [`worker`]: one processor's worker, which runs leg by leg.
//! - [`run`]: all workers of a plan, on threads.
//! - [`tables`]: what all workers of a program look up.
//! - `walk`: the turns of a worker, one after another.
//! - `deeds`: loads, stores and PRINTs over the shared words and own cells.
//! - `laws`: what holds of the processors of a table.
//! - `polls`, `patience`: waits, and how long a worker polls.
#![tactic(auto)]

mod deeds;
mod laws;
mod patience;
mod polls;
pub mod run;
pub mod tables;
mod walk;
pub mod worker;

pub use fork_join::run_join;
pub use run::{run_spmd, run_spmd_with};
pub use tables::Tables;
pub use worker::{Leg, Worker, WorkerRefused};
