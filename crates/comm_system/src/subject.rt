// What groups of systems speak of.

ghost use Rattle.std.specs.Prelude.{◌≡◌, ◌<◌, IfOk, length};
ghost use Rattle.comm_system.specs.OwnerRows.{pieces};
ghost use Rattle.comm_system.specs.Seen.{pair_of};
ghost use Rattle.comm_system.specs.Subjects.{count_about};
ghost use Rattle.comm_system.specs.SubjectViews.{subject_at, subject_seen};

use crate::path_loop::PathLoop;
use crate::phase::Phase;
use crate::slot::Slot as PhasePair;
use crate::waits::Waits;
use conflict_rules::reference::Reference;
use std::alloc::{AllocError, Global};

/// What the systems of a group speak of: two accesses that conflict, or a loop round the first store
/// of a private scalar.
#[derive(Drop)]
pub enum Subject<'b, 'a, 'p> {
    /// In two trips of a Doall phase.
    Trips(&'b Phase<'a>, &'b Reference<'a>, &'b Reference<'a>),
    /// In the phases of a slot, with what the second waits for.
    Slot(PhasePair<'b, 'a>, Waits<'p>, &'b Reference<'a>, &'b Reference<'a>),
    /// That this loop makes no trip.
    ZeroTrip(PathLoop<'b, 'a>),
}

impl Subject<'_, '_, '_> {
    /// How many systems it has.
    pub fn count(&self) -> u64
        ensures { result ≡ count_about (subject_seen self.now) }
    {
        match self {
            Subject::Trips(..) | Subject::ZeroTrip(..) => 1,
            Subject::Slot(_, waits, ..) => piece_count(waits),
        }
    }
}

// How many pieces a pair has.
fn piece_count(waits: &Waits) -> u64
    ensures { result ≡ length (pieces (length waits.now.producers.items)) }
{
    match waits.producers.len() {
        0 => 2,
        1 => 4,
        2 => 8,
        _ => 16,
    }
}

// Where two accesses stand: in two trips of a phase, or in the phases of a slot.
#[derive(Clone, Copy)]
pub(crate) enum Scene<'x, 'b, 'a, 'p> {
    Trips(&'b Phase<'a>),
    Slot(PhasePair<'b, 'a>, &'x Waits<'p>),
}

impl<'b, 'a, 'p> Scene<'_, 'b, 'a, 'p> {
    // Two accesses there.
    pub(crate) fn subject(
        self,
        alloc: Global,
        a: &'b Reference<'a>,
        b: &'b Reference<'a>,
    ) -> Result<Subject<'b, 'a, 'p>, AllocError>
        ensures { IfOk result (λ s. subject_seen s
            ≡ subject_at self.entry (pair_of a.entry.now b.entry.now)) }
    {
        match self {
            Scene::Trips(phase) => Ok(Subject::Trips(phase, a, b)),
            Scene::Slot(slot, waits) => {
                let waits = Waits {
                    left: waits.left,
                    right: waits.right,
                    producers: Vec::from_slice(alloc, waits.producers.as_slice())?,
                };
                Ok(Subject::Slot(slot, waits, a, b))
            }
        }
    }
}
