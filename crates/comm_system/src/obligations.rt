// The obligations of a plan.

ghost use Rattle.std.specs.Prelude.{◌≡◌, ◌++◌, IfOk, None, OnOk, map};
ghost use Rattle.std.specs.List.{flat_map};
ghost use Rattle.nest_tree.specs.View.{tree_of};
ghost use Rattle.sync_plan.specs.Shape.{wrong_field};
ghost use Rattle.comm_system.specs.GroupViews.{group_seen};
ghost use Rattle.comm_system.specs.Obligations.{obligations_of};
ghost use Rattle.comm_system.specs.Subjects.{obligations_in};

use crate::group::Group;
use crate::groups::list_groups;
use crate::obligation::Obligation;
use crate::phases::phases;
use nest_tree::Program;
use std::alloc::{AllocError, Global};
use sync_plan::Plan;

// The obligations of a group, behind the others.
fn push_group(
    alloc: Global,
    program: &Program,
    plan: &Plan,
    group: &Group,
    found: &mut Vec<Obligation>,
) -> Result<(), AllocError>
    requires { wrong_field (tree_of program.now) plan.now ≡ None }
    ensures { OnOk result (found.new.items ≡ found.old.items
        ++ obligations_in (tree_of program.now) plan.now (group_seen group.now)) }
{
    let mut more = group.obligations(alloc, program, plan)?;
    found.append(&mut more)?;
    Ok(())
}

// The obligations of groups, one behind another.
fn obligations_in_groups(
    alloc: Global,
    program: &Program,
    plan: &Plan,
    groups: &[Group],
) -> Result<Vec<Obligation>, AllocError>
    requires { wrong_field (tree_of program.now) plan.now ≡ None }
    ensures { IfOk result (λ found. found.items
        ≡ flat_map (obligations_in (tree_of program.now) plan.now) (map group_seen groups.now)) }
{
    let mut found = Vec::new(alloc);
    for group in groups {
        push_group(alloc, program, plan, group, &mut found)?;
    }
    Ok(found)
}

/// The obligations of a plan, in order: that with number n, from 1, stands at n - 1.
pub fn obligations(
    alloc: Global,
    program: &Program,
    plan: &Plan,
) -> Result<Vec<Obligation>, AllocError>
    requires shape { wrong_field (tree_of program.now) plan.now ≡ None }
    ensures { IfOk result (λ found. found.items ≡ obligations_of (tree_of program.now) plan.now) }
{
    let phases = phases(alloc, program, &plan.cut)?;
    let groups = list_groups(alloc, program, plan, phases.as_slice(), u64::MAX)?;
    obligations_in_groups(alloc, program, plan, groups.items.as_slice())
}
