//! Who owns what in a parallel run: which loops are what, the phases, and the processor that an
//! anchor names.
//!
//! - [`cut`]: the marks of a program's loops.
//! - [`anchor`]: anchors, and the owner that one names.
//! - [`placement`]: whether each block anchor keeps within its blocks.
//! - [`phases`]: the phases of a program, one by one.
//! - [`own_cursor`]: the instances of a phase that a processor owns.
//! - [`own`]: the same as stops of a walk.
//! - [`static_phase`], [`outer_loops`]: the static phases in the text, with the Outer loops round
//!   them.
//! - [`laws`]: the phases' instances are the program's.
#![tactic(auto)]

pub mod anchor;
pub mod cut;
mod exact;
pub mod laws;
pub mod outer_loops;
pub mod own;
pub mod own_cursor;
mod own_trips;
pub mod phases;
pub mod placement;
mod site;
pub mod static_phase;

pub use anchor::{Anchor, Dist, owner};
pub use cut::{Cut, Mark, Privates, is_closed_at, mark_in};
pub use outer_loops::OuterLoops;
pub use own::OwnStops;
pub use own_cursor::{Instance, OwnCursor, own_iterations};
pub use own_trips::divisor_and_factor;
pub use phases::{Phase, PhaseCursor};
pub use placement::{Placement, check_anchor, check_placement};
pub use static_phase::StaticPhase;
