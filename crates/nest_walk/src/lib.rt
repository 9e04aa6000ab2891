//! What every walk of a program shares.
//!
//! A [`Cursor`] goes through a program's statements in sequential order: into each loop that isn't
//! marked, in each trip, and it stops at every other statement but a CONTINUE. It takes no memory,
//! and a stop in the innermost loop costs the same however long the program is.
//!
//! - [`cursor`]: the walk, stop by stop.
//! - [`instances`]: the instances, one by one.
//! - [`strip`]: the trips of a loop round one assignment, at once.
//! - [`laws`]: the instances as stops.
//! - [`path`]: the loops round a stop with the values of their DO variables, by depth.
//! - [`by_number`]: the values of DO variables by the loops' numbers.
//! - [`trips`]: the values of a loop's trips, as a progression.
//! - [`cells`]: the cell of an access as a form of the loops' values by depth.
//! - [`table`]: the cells of all accesses of a program, made once.
//! - [`frame`]: the loops that a walk is in.
#![tactic(auto)]

pub mod by_number;
pub mod cells;
mod count;
pub mod cursor;
mod form;
pub mod frame;
pub mod instances;
pub mod laws;
pub mod path;
pub mod strip;
pub mod table;
pub mod trips;

pub use cells::CellForm;
pub use cursor::{Cursor, Stop};
pub use form::value_at;
pub use instances::Instances;
pub use path::{MOST_LOOPS, Path};
pub use strip::Strip;
pub use table::{CellTable, LoadCells, WorkCells};
pub use trips::{Trips, small_value, trip_count};
