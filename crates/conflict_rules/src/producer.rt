// Producers that are waited for.

ghost use Rattle.std.specs.Prelude.{IsTrue};
ghost use Rattle.owner_partition.specs.Owners.{has_places};

use owner_partition::Anchor;

/// At the Outer values of which instance a boundary stands.
#[derive(Clone, Copy, Debug, PartialEq, Eq)]
pub enum Side {
    First,
    Second,
}

/// A producer that is waited for.
#[derive(Clone, Copy)]
pub struct Producer<'p> {
    pub anchor: &'p Anchor,
    pub side: Side,
    ghost places: { IsTrue (has_places anchor.now.dist) },
}
