//! What is due for a request: the status and the text, from the request, its settings and the
//! bytes of the source alone.
//!
//! - [`answer`]: what is due; the others are its parts.
//! - [`bench`]: the program that `bench` runs, and what it writes.
//! - [`due`]: an answer, and the one with which something is refused.
//! - [`laws`]: laws of what is due.
//! - [`source`]: what may stand behind a source's END line.
//! - [`host`]: what a run is given by its caller.
//! - [`run`]: what a program's run writes, by each engine.
//! - [`receipt`]: that a program was run by a plan.
//! - [`sweep`]: a plan that is proved once, for the values of a named constant.
#![tactic(auto)]

pub mod answer;
pub mod bench;
pub mod due;
pub mod host;
pub mod laws;
pub mod receipt;
pub mod run;
pub mod source;
pub mod sweep;

pub use crate::answer::{answer_on, answer_to};
pub use crate::bench::{bench_head, bench_run, bench_source};
pub use crate::due::{Answer, refusal, told_as};
pub use crate::host::Host;
pub use crate::laws::{four_statuses_are_due, never_none, one_due};
pub use crate::receipt::Receipt;
pub use crate::run::{output_by, sequential_output, text_of_plan, text_of_run};
pub use crate::source::{Behind, behind_of};
