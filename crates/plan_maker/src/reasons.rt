// Why loops aren't dealt out, and why no weaker kind stands in front of a phase.

use crate::cause::Cause;
use maker_marks::tries::Tried;
use sync_plan::Kind;

/// Why a loop isn't dealt out by a try.
#[derive(Clone, Copy, Debug, PartialEq, Eq)]
pub enum Bar {
    /// A PRINT stands in it.
    Print,
    /// Two trips of it may access one element, one of them storing; or a loop round the first store of
    /// a private scalar may make no trip.
    Meeting(Cause),
}

/// A loop that is Outer or Single, by its number from 1, and why it isn't dealt out by this try.
#[derive(Clone, Copy, Debug, PartialEq, Eq)]
pub struct LoopReason {
    pub number: u32,
    pub tried: Tried,
    pub bar: Bar,
}

/// A kind that is weaker than the one in front of a static phase, by its number from 1, and the
/// first system of the plan with that kind there that is kept.
#[derive(Drop)]
pub struct PhaseReason {
    pub phase: u32,
    pub kind: Kind,
    pub cause: Cause,
}

/// The reasons of a plan: of each loop that is Outer or Single, rising, one for each try in order;
/// then one for each static phase and each candidate that is weaker than its kind, from the weakest
/// on.
#[derive(Drop)]
pub struct Reasons {
    pub loops: Vec<LoopReason>,
    pub phases: Vec<PhaseReason>,
}
