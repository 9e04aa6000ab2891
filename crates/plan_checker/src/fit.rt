// Whether a plan fits a program.

ghost use Rattle.std.specs.Prelude.{◌≡◌, ◌<◌, ◌^◌, None, length};
ghost use Rattle.std.specs.Result.{result_err};
ghost use Rattle.nest_tree.specs.View.{tree_of};
ghost use Rattle.sync_plan.specs.Shape.{wrong_field};
ghost use Rattle.plan_checker.specs.Refusals.{first_refusal};

use crate::places::{check_places, misplaced_print};
use crate::refusal::PlanRefusal;
use nest_tree::Program;
use owner_partition::Placement;
use plan_shape::{unmet, wrong_field};
use sync_plan::Plan;

/// Whether a plan fits a program; else the first reason why not: its shape, then the placement of
/// its block anchors, then its phases with a PRINT, then its conditions. It takes no memory.
pub fn check_fit(program: &Program, plan: &Plan) -> Result<(), PlanRefusal>
    ensures { result_err result ≡ first_refusal (tree_of program.now) plan.now }
{
    if let Some(field) = wrong_field(program, plan) {
        return Err(PlanRefusal::Shape(field));
    }
    check_shaped(program, plan)
}

/// The same of a plan whose shape is right.
pub(crate) fn check_shaped(program: &Program, plan: &Plan) -> Result<(), PlanRefusal>
    requires shape { wrong_field (tree_of program.now) plan.now ≡ None }
    requires anchors { length plan.now.anchors < 2 ^ 32 }
    requires kinds { length plan.now.kinds < 2 ^ 32 }
    ensures { result_err result ≡ first_refusal (tree_of program.now) plan.now }
{
    if let Err(Placement { phase, low, high }) = check_places(program, plan) {
        return Err(PlanRefusal::Placement { phase, low, high });
    }
    if let Some(phase) = misplaced_print(program, &plan.cut, plan.anchors.as_slice()) {
        return Err(PlanRefusal::PrintPlace(phase));
    }
    match unmet(&program.params, &plan.conditions) {
        Some(row) => Err(PlanRefusal::Condition(row)),
        None => Ok(()),
    }
}
