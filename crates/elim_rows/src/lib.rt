//! Rows of inequalities, as elimination keeps them.
//!
//! - [`reduction`] and [`combination`]: rows in their lowest terms, and the least combination of two.
//! - [`derivation`]: how a row is made.
//! - [`candidate`]: rows that a level may keep, and where they come from.
//! - [`table`] and [`chains`]: rows that are found by a hash of their coefficients; of equal ones
//!   the least bound stays.
#![tactic(auto)]

pub mod candidate;
pub mod chains;
pub mod combination;
pub mod derivation;
pub mod reduction;
pub mod table;
