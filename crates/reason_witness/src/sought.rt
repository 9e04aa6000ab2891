// Of what reasons are looked for.

ghost use Rattle.std.specs.Prelude.{IsTrue};
ghost use Rattle.comm_system.specs.Signatures.{has_places_in};

use crate::found::Wanted;
use plan_maker::tries::Tried;
use sync_plan::Kind;

/// A loop that isn't dealt out by a try, by its number from 1, and what is looked for.
#[derive(Clone, Copy)]
pub(crate) struct Serial {
    pub(crate) number: u32,
    pub(crate) tried: Tried,
    pub(crate) wanted: Wanted,
}

/// A weaker kind in front of a static phase, by its number from 1, and what is looked for.
#[derive(Drop)]
pub(crate) struct Candidate {
    pub(crate) phase: u32,
    pub(crate) kind: Kind,
    pub(crate) wanted: Wanted,
    ghost places: { IsTrue (has_places_in kind) },
}

/// Of what reasons are looked for.
#[derive(Drop)]
pub(crate) struct Asked {
    pub(crate) loops: Vec<Serial>,
    pub(crate) phases: Vec<Candidate>,
}
