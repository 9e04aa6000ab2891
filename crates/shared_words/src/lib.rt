//! The words that the processors of a plan share on threads, in either style of its barriers: the
//! program's cells, a counter and a signal for each processor, and one word on which all arrive at
//! barriers.
//!
//! - `cells`: the table, its seats and the calls, each of which is one atomic step.
//! - `closed`: what a table leaves.
//! - `poll`: what a poll answers.
//! - `rule`, `view`: the table's rule and what seats know, as `atomic_table` takes them.
//! - `roles`: how far the main seat has come with a processor's, and whose seat one is.
//! - `laws`: what each kind of step does to words and seats, and what it is in the machine's run.
//! - `shown`: what the words show has a schedule, which each step goes on with.
#![tactic(auto)]

mod cells;
mod closed;
mod laws;
mod poll;
mod roles;
mod rule;
mod shown;
mod view;

pub use cells::{CellSeat, Cells, CloseRefused, MainSeat};
pub use closed::{Closed, Receipt};
pub use laws::{
    misses_are_in_vain, rounds_leave_less, steps_are_the_machines, steps_show_the_machine,
};
pub use poll::Poll;
pub use roles::{Role, Stage};
pub use shown::words_show_a_run;
