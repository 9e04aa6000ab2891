//! The obligations of a plan: systems of inequalities, each of which says that two accesses to one
//! element happen in an order that nothing of the plan keeps. Where each of them has no whole
//! solution the plan orders all accesses that conflict.
//!
//! - [`obligation`]: an obligation with what it speaks of.
//! - [`phases`], [`phase`], [`reference`]: the static phases with their accesses.
//! - [`level`], [`slot`], [`slot_list`], [`boundary`], [`signature`], [`waits`], [`producer`]: two
//!   phases at a level, the boundaries that are certain there, and what they see of a plan's kinds.
//! - [`pair_systems`], [`in_place`]: the obligation of a pair of accesses in two trips of a phase;
//!   those in two phases one at a time, in the same memory.
//! - [`path_loop`], [`paths`]: the loops round the first store of a private scalar, and the
//!   obligation that one of them makes no trip.
//! - [`group`], [`groups`], [`obligations`]: the obligations of a plan, and in groups, each of which
//!   can be made without the others.
//!
//! The definitions are in `specs/`: the accesses of a phase (`References`), which two conflict
//! (`Pairs`), levels and the boundaries that are certain at one (`Levels`, `Boundaries`), what a
//! slot sees of a plan's kinds (`Signatures`), the rows group by group (`PairRows`, `OwnerRows`),
//! and the list (`Obligations`).
#![tactic(auto)]

pub mod boundary;
pub mod group;
pub mod groups;
pub mod in_place;
pub mod obligation;
pub mod obligations;
pub mod own;
mod owner_rows;
pub mod pair_systems;
pub mod path_loop;
pub mod paths;
pub mod phase;
pub mod phases;
mod pieces;
mod place;
mod references;
mod rows;
pub mod signature;
pub mod slot;
pub mod slot_list;
pub mod subject;
pub mod waits;

pub use conflict_rules::{conflict, level, producer, reference};
pub use obligation::{Obligation, Topic};
pub use owner_rows::owner_unknowns;
