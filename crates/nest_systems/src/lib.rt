//! Systems of inequalities over the loops round an access.
//!
//! - [`constraint_system`]: systems as constraints, before rows are made of them.
//! - [`growing`]: systems to whose end constraints come and go.
//! - [`groups`]: what holds of an instance: its loops, its comparison.
//! - [`kept`]: the rows and columns of a system that play a part.
//! - [`rows`]: constraints as rows.
#![tactic(auto)]

pub mod constraint_system;
pub mod groups;
pub mod growing;
pub mod kept;
pub mod rows;

pub use constraint_system::ConstraintSystem;
pub use growing::GrowingSystem;
