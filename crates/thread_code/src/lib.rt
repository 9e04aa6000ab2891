//! What each processor does under a plan, as a tree: the loops that all processors run, the
//! boundaries between phases, and in each phase how a processor finds its own trips of a loop, in
//! closed form. Statements inside a phase are the program's own.
//!
//! - [`code`]: the tree.
//! - [`making`]: the tree of a program under a plan.
//! - [`turnings`]: congruences, solved once for each step that places in turn may have.
#![tactic(auto)]

pub mod code;
pub mod making;
pub mod turnings;

pub use code::{Code, OwnTrips, Part, Place, ThreadCode, Trips};
pub use making::code_of;
pub use turnings::{Turning, Turnings};
