// The loops round the first stores of private scalars, in groups.

ghost use Rattle.std.specs.Prelude.{◌≡◌, ◌-◌, ◌^◌, [], IfOk, OnOk, map};
ghost use Rattle.std.specs.List.{flat_map};
ghost use Rattle.std.specs.Option.{option_copied, option_map};
ghost use Rattle.conflict_rules.specs.Seen.{reference_seen};
ghost use Rattle.comm_system.specs.GroupViews.{listed_seen};
ghost use Rattle.comm_system.specs.Paths.{first_access};
ghost use Rattle.comm_system.specs.PhaseViews.{phase_seen};
ghost use Rattle.comm_system.specs.Subjects.{path_subjects, paths_subjects, with_subjects};

use crate::groups::Groups;
use crate::own::privates_in;
use crate::path_loop::PathLoop;
use crate::phase::Phase;
use crate::subject::Subject;
use conflict_rules::reference::Reference;
use owner_partition::Cut;
use std::alloc::{AllocError, Global};

// The first access of a variable in a phase, in text order, if there is one.
fn first_access<'b, 'a>(phase: &'b Phase<'a>, variable: u32) -> Option<&'b Reference<'a>>
    ensures { option_map reference_seen (option_copied result)
        ≡ first_access (phase_seen phase.entry.now) variable }
{
    let references = phase.references.as_slice();
    for reference in references {
        if reference.target.variable() == variable {
            return Some(reference);
        }
    }
    None
}

impl<'b, 'a> Groups<'b, 'a, '_> {
    // The loops of a scalar's path in a phase.
    fn add_path(&mut self, most: u64, phase: &'b Phase<'a>, scalar: u32) -> Result<(), AllocError>
        ensures { OnOk result (listed_seen self.new ≡ with_subjects most (listed_seen self.old)
            (path_subjects (phase_seen phase.entry.now) scalar)) }
    {
        let Some(store) = first_access(phase, scalar) else {
            return Ok(());
        };
        for outside in phase.text.outer.as_slice().len() + 1..store.around.len() {
            self.add(most, Subject::ZeroTrip(PathLoop { store, outside }))?;
        }
        Ok(())
    }

    // The paths of the private scalars of a phase.
    fn add_paths(&mut self, cut: &Cut, most: u64, phase: &'b Phase<'a>) -> Result<(), AllocError>
        ensures { OnOk result (listed_seen self.new ≡ with_subjects most (listed_seen self.old)
            (paths_subjects cut.now (phase_seen phase.entry.now))) }
    {
        let scalars = privates_in(cut, phase.text.item);
        for &scalar in scalars {
            self.add_path(most, phase, scalar)?;
        }
        Ok(())
    }

    // Those of all phases.
    pub(crate) fn add_all_paths(
        &mut self,
        cut: &Cut,
        most: u64,
        phases: &'b [Phase<'a>],
    ) -> Result<(), AllocError>
        ensures { OnOk result (listed_seen self.new ≡ with_subjects most (listed_seen self.old)
            (flat_map (paths_subjects cut.now) (map phase_seen phases.entry.now))) }
    {
        for phase in phases {
            self.add_paths(cut, most, phase)?;
        }
        Ok(())
    }
}

/// The groups of the paths of a phase's private scalars, from number 1 on.
pub fn path_groups<'b, 'a, 'p>(
    alloc: Global,
    cut: &Cut,
    phase: &'b Phase<'a>,
) -> Result<Groups<'b, 'a, 'p>, AllocError>
    ensures { IfOk result (λ found. listed_seen found
        ≡ with_subjects (2 ^ 64 - 1) (record { groups = []; next = 1 })
        (paths_subjects cut.now (phase_seen phase.entry.now))) }
{
    let mut found = Groups {
        items: Vec::new(alloc),
        next: 1,
    };
    found.add_paths(cut, u64::MAX, phase)?;
    Ok(found)
}
