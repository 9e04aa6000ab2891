// The work that the systems of a plan took, counted in pairs of rows.

ghost use Rattle.std.specs.Prelude.{◌≡◌, IsTrue};
ghost use Rattle.plan_maker.specs.PlanWork.{IsLevelWork, IsPieceOf, IsUsedUp, PlanWorks, pairs_of_look};

use farkas_cert::System;
use fm_elim::Answer;

/// Past so many pairs no system of a plan is decided anew.
const MOST_PAIRS: u128 = 800_000;

/// An elimination with a number too large, or too many rows, counts as so many.
const GIVEN_UP: u128 = 65_536;

/// A quick look that settles nothing counts so many times as one that settles its system: it tries 200
/// orders, some of which end early.
const UNSETTLED: u128 = 100;

/// How many numbers in a system's rows count for one pair.
const NUMBERS: u128 = 4;

/// The work that the systems of a plan took so far.
#[derive(Drop)]
pub(crate) struct PlanWork {
    pairs: u128,
    ghost taken: { PlanWorks pairs },
}

// For how many pairs a quick look counts that settles its system: a quarter of the system's rows times its
// unknowns.
fn pairs_of_look(system: &System) -> u128
    ensures { result ≡ pairs_of_look system.now }
{
    system.rows().len() as u128 * u128::from(system.vars()) / NUMBERS
}

impl PlanWork {
    /// None yet.
    pub(crate) fn none() -> Self {
        PlanWork { pairs: 0 }
    }

    /// Whether it is more than the systems of a plan may take.
    pub(crate) fn is_used_up(&self) -> bool
        ensures { IsTrue result → IsUsedUp }
    {
        self.pairs > MOST_PAIRS
    }

    // One piece of work more, of so many pairs. At its type's end the count stands still.
    fn add(&mut self, pairs: u128)
        requires { IsPieceOf pairs }
    {
        if let Some(pairs) = self.pairs.checked_add(pairs) {
            *self = PlanWork { pairs };
        }
    }

    /// One elimination more, with this answer: it came to a level up to which the levels are formed of
    /// so many pairs.
    pub(crate) fn add_elimination(&mut self, pairs: u128, answer: &Answer)
        requires { IsLevelWork pairs }
    {
        match answer {
            Answer::Infeasible(_) | Answer::Open | Answer::Work { .. } => self.add(pairs),
            Answer::Wide { .. } | Answer::Many { .. } => self.add(GIVEN_UP),
        }
    }

    /// One quick look at a system more, which settles it or doesn't.
    pub(crate) fn add_look(&mut self, system: &System, settles: bool) {
        let look = pairs_of_look(system);
        if settles {
            self.add(look);
        } else if let Some(pairs) = look.checked_mul(UNSETTLED) {
            self.add(pairs);
        }
    }
}
