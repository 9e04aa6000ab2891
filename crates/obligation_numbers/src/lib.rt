//! How many obligations a plan has, in no memory; and the obligation that has a number, without
//! those before it.
//!
//! The count walks the static phases in the text. The place of a number is found by counting the
//! groups of `comm_system`, and the systems of one pair of accesses alone are made.
#![tactic(auto)]

ghost use Rattle.std.specs.Prelude.{◌≡◌, ◌-◌, ◌≤◌, IfOk, None, slice_get};
ghost use Rattle.nest_tree.specs.View.{tree_of};
ghost use Rattle.sync_plan.specs.Shape.{wrong_field};
ghost use Rattle.comm_system.specs.GroupViews.{group_seen};
ghost use Rattle.comm_system.specs.Obligations.{obligation_numbered, obligations_of};
ghost use Rattle.comm_system.specs.Subjects.{obligations_in};

mod accesses;
mod boundaries;
mod conflicts;
pub mod count;
mod phases;
mod scene;
mod slots;

use comm_system::Obligation;
use comm_system::group::Group;
use comm_system::groups::list_groups;
use comm_system::phases::phases as static_phases;
pub use count::obligation_count;
use nest_tree::Program;
use std::alloc::{AllocError, Global};
use sync_plan::Plan;

// The obligation of a group with a number from its first on; none behind its last.
fn obligation_in(
    alloc: Global,
    program: &Program,
    plan: &Plan,
    group: &Group,
    number: u64,
) -> Result<Option<Obligation>, AllocError>
    requires shape { wrong_field (tree_of program.now) plan.now ≡ None }
    requires reached { group.now.number ≤ number }
    ensures { IfOk result (λ found. found
        ≡ slice_get (obligations_in (tree_of program.now) plan.now (group_seen group.now))
        (number - group.now.number)) }
{
    let mut made = group.obligations(alloc, program, plan)?;
    let place = (number - group.number) as usize;
    if place >= made.len() {
        return Ok(None);
    }
    Ok(Some(made.swap_remove(place)))
}

/// The obligation of a plan with this number, from 1; none where the number is 0 or past the last.
pub fn obligation_at(
    alloc: Global,
    program: &Program,
    plan: &Plan,
    number: u64,
) -> Result<Option<Obligation>, AllocError>
    requires shape { wrong_field (tree_of program.now) plan.now ≡ None }
    ensures { IfOk result (λ found. found
        ≡ obligation_numbered number (obligations_of (tree_of program.now) plan.now)) }
{
    if number == 0 {
        return Ok(None);
    }
    let phases = static_phases(alloc, program, &plan.cut)?;
    let mut groups = list_groups(alloc, program, plan, phases.as_slice(), number)?;
    match groups.items.pop() {
        Some(group) => obligation_in(alloc, program, plan, &group, number),
        None => Ok(None),
    }
}
