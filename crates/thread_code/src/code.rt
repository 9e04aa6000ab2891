// The tree.

use crate::turnings::{Turning, Turnings};
use nest_tree::{Item, Nest, Pairs};
use owner_partition::Anchor;
use sync_plan::Kind;

/// A place as a sum: a constant and coefficients of loops and of named constants, by their numbers. A
/// loop or a named constant may stand in several pairs.
#[derive(Drop)]
pub struct Place {
    pub constant: i64,
    pub loops: Pairs,
    pub params: Pairs,
}

/// How a processor finds its own trips of a loop.
#[derive(Drop)]
pub enum Trips {
    /// It makes all of them, where this anchor names it, which doesn't name the loop.
    All(Anchor),
    /// Those of its block, which has so many places: a trip's place is the rest and, for each value
    /// of the loop, so much, which isn't 0.
    Block(u32, Place, i64),
    /// Those of one congruence: the place of the first trip, but for multiples of the number of
    /// processors, below which each of its numbers is, and what is known of the turns.
    Turn(Place, Turning),
}

/// A processor's own trips of a loop.
#[derive(Drop)]
pub struct OwnTrips<'p> {
    /// The loop's trips are dealt by this anchor.
    pub anchor: Anchor,
    /// How the processor finds its own.
    pub trips: Trips,
    pub nest: &'p Nest,
    /// The scalars of which it has cells of its own, by their numbers from 1: the owner of the last trip
    /// stores these to the cells that all share,
    pub privates: Vec<u32>,
    /// and what it has summed up of these it adds to them, where it has assigned them.
    pub sums: Vec<u32>,
}

/// A processor's part of a phase.
#[derive(Drop)]
pub enum Part<'p> {
    /// Its own trips of a loop.
    Trips(OwnTrips<'p>),
    /// A statement, where the anchor names it.
    Work(Anchor, &'p Item),
    /// Nothing: the plan has no anchor for the phase.
    Nothing,
}

/// A statement of the program outside of all phases, or a phase.
#[derive(Drop)]
pub enum Code<'p> {
    /// An Outer loop: each processor makes each trip.
    Each(&'p Nest, Vec<Code<'p>>),
    /// A phase: what stands in front of it, and a processor's part.
    Phase(Option<Kind>, Part<'p>),
    /// A CONTINUE.
    Nothing,
}

/// What each processor does.
#[derive(Drop)]
pub struct ThreadCode<'p> {
    pub turnings: Turnings,
    pub codes: Vec<Code<'p>>,
}
