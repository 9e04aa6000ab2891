// Whether a plan is accepted.

ghost use Rattle.std.specs.Prelude.{◌≡◌, ◌≢◌, IfErr, IfOk, None, OnOk, Some};
ghost use Rattle.nest_tree.specs.View.{tree_of};
ghost use Rattle.sync_plan.specs.Shape.{wrong_field};
ghost use Rattle.plan_checker.specs.Accepted.{IsAccepted};
ghost use Rattle.plan_checker.specs.Failures.{failure_with, first_failure};
ghost use Rattle.plan_checker.specs.declared.refusal.PlanRefusal.TheVariants.{NoMemory};

use crate::certificates::first_fault;
use crate::fit::check_shaped;
use crate::refusal::PlanRefusal;
use comm_system::groups::list_groups;
use comm_system::phases::phases;
use nest_tree::Program;
use plan_shape::wrong_field;
use std::alloc::{AllocError, Global};
use std::thread::Threads;
use sync_plan::Plan;

/// Whether a plan is accepted for a program; else its first failure, by the order in which
/// failures are told. Certificates are checked side by side, and the refusal is the same however
/// many threads there are. `NoMemory` says nothing of the plan.
pub fn check<R: Threads + Sync>(
    rt: &R,
    alloc: Global,
    program: &Program,
    plan: &Plan,
) -> Result<(), PlanRefusal>
    ensures accepted { OnOk result (IsAccepted (tree_of program.now) plan.now) }
    ensures refused { IfErr result (λ refusal. refusal ≢ NoMemory
        → first_failure (tree_of program.now) plan.now ≡ Some refusal) }
{
    if let Some(field) = wrong_field(program, plan) {
        return Err(PlanRefusal::Shape(field));
    }
    let misfit = check_shaped(program, plan).err();
    match failure(rt, alloc, program, plan, misfit)? {
        None => Ok(()),
        Some(refusal) => Err(refusal),
    }
}

// The first failure of a plan whose shape is right but for certificates too many, where this one
// stands between its shape and its obligations. Of these no more are made than it takes to find the
// first one without a certificate.
pub(crate) fn failure<R: Threads + Sync>(
    rt: &R,
    alloc: Global,
    program: &Program,
    plan: &Plan,
    misfit: Option<PlanRefusal>,
) -> Result<Option<PlanRefusal>, AllocError>
    requires shape { wrong_field (tree_of program.now) plan.now ≡ None }
    ensures { IfOk result (λ found. found ≡ failure_with misfit (tree_of program.now) plan.now) }
{
    let certificates = plan.certificates.as_slice().len() as u64;
    let phases = phases(alloc, program, &plan.cut)?;
    let groups = list_groups(alloc, program, plan, phases.as_slice(), certificates + 1)?;
    if groups.next <= certificates {
        return Ok(Some(PlanRefusal::Shape(7)));
    }
    if let Some(refusal) = misfit {
        return Ok(Some(refusal));
    }
    first_fault(rt, alloc, program, plan, groups.items.as_slice())
}
