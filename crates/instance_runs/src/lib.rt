//! How an instance of a program is run by a processor: whole, over whatever keeps the cells, or load
//! by load.
//!
//! - [`deeds`], [`execute`]: an instance run whole, over whatever keeps the cells.
//! - [`progress`]: how many deeds are done, for proofs.
//! - [`loads`], [`load_place`]: the values that a piece of work loads, one by one.
//! - [`room`]: how much room a run needs.
#![tactic(auto)]

pub mod deeds;
pub mod execute;
pub mod load_place;
pub mod loads;
pub mod progress;
pub mod room;

pub use deeds::Deeds;
pub use execute::Executor;
pub use load_place::LoadPlace;
pub use loads::width;
pub use progress::Progress;
pub use room::{longest_output, most_loads, open_printing};
