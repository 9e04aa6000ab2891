// The systems of one pair of accesses, or that of a loop without a trip.

ghost use Rattle.std.specs.Prelude.{◌+◌, ◌<◌, ◌^◌};
ghost use Rattle.comm_system.specs.Subjects.{count_about};
ghost use Rattle.comm_system.specs.SubjectViews.{subject_seen};

use crate::in_place::pair_obligations;
use crate::obligation::Obligation;
use crate::pair_systems::trips_obligation;
use crate::subject::Subject;
use nest_tree::Program;
use std::alloc::{AllocError, Global};
use sync_plan::Plan;

/// The systems of one pair of accesses, or that of a loop without a trip, with the number of the
/// first, from 1.
#[derive(Drop)]
pub struct Group<'b, 'a, 'p> {
    pub number: u64,
    pub subject: Subject<'b, 'a, 'p>,
    ghost room: { number + count_about (subject_seen subject) < 2 ^ 64 },
}

impl Group<'_, '_, '_> {
    ghost use Rattle.std.specs.Prelude.{◌≡◌, IfOk, None};
    ghost use Rattle.nest_tree.specs.View.{tree_of};
    ghost use Rattle.sync_plan.specs.Shape.{wrong_field};
    ghost use Rattle.comm_system.specs.Subjects.{obligations_in};
    ghost use Rattle.comm_system.specs.GroupViews.{group_seen};

    /// The obligations of this group, in order.
    pub fn obligations(
        &self,
        alloc: Global,
        program: &Program,
        plan: &Plan,
    ) -> Result<Vec<Obligation>, AllocError>
        requires { wrong_field (tree_of program.now) plan.now ≡ None }
        ensures { IfOk result (λ found. found.items ≡ obligations_in (tree_of program.now) plan.now
            (group_seen self.now)) }
    {
        match &self.subject {
            Subject::Trips(phase, a, b) => {
                let mut found = Vec::new(alloc);
                let number = self.number;
                found.push(trips_obligation(alloc, program, plan, phase, a, b, number)?)?;
                Ok(found)
            }
            Subject::Slot(slot, waits, a, b) => {
                pair_obligations(alloc, program, plan, slot, waits, a, b, self.number)
            }
            Subject::ZeroTrip(inside) => {
                let mut found = Vec::new(alloc);
                found.push(inside.obligation(alloc, program, plan, self.number)?)?;
                Ok(found)
            }
        }
    }
}
