// What is told of a plan that is given.

ghost use Rattle.std.specs.Prelude.{◌≡◌, ◌≢◌, IfErr, IfOk, Some};
ghost use Rattle.nest_tree.specs.View.{tree_of};
ghost use Rattle.sync_plan.specs.Fit.{IsFit};
ghost use Rattle.plan_checker.specs.Failures.{first_failure};
ghost use Rattle.plan_checker.specs.declared.refusal.PlanRefusal.TheVariants.{NoMemory};
ghost use Rattle.reason_witness.specs.Reasons.{AreReasons};
ghost use Rattle.explain_plan.specs.Untold.{IsUntold};

use nest_tree::Program;
use plan_checker::{PlanRefusal, check};
use reason_witness::account::{Account, given_account, refused_account};
use std::alloc::Global;
use std::thread::Threads;
use sync_plan::Plan;

/// What is told of a plan that fits the program: where it is accepted why it waits and which loops it
/// doesn't deal out, and where it is refused for an obligation that one. The error is another first
/// reason against it, or that memory ran out.
pub fn account_of<R: Threads + Sync>(
    rt: &R,
    alloc: Global,
    program: &Program,
    plan: Plan,
) -> Result<Account, PlanRefusal>
    requires fits { IsFit (tree_of program.now) plan }
    ensures plan { IfOk result (λ a. a.plan ≡ plan) }
    ensures reasons { IfOk result (AreReasons (tree_of program.now)) }
    ensures refused { IfErr result (IsUntold (tree_of program.now) plan) }
{
    match check(rt, alloc, program, &plan) {
        Ok(()) => Ok(given_account(alloc, program, plan)?),
        Err(refusal) => account_of_refused(alloc, program, plan, refusal),
    }
}

// What is told of a plan that is given and refused so.
fn account_of_refused(
    alloc: Global,
    program: &Program,
    plan: Plan,
    refusal: PlanRefusal,
) -> Result<Account, PlanRefusal>
    requires fits { IsFit (tree_of program.now) plan }
    requires first { refusal ≢ NoMemory → first_failure (tree_of program.now) plan ≡ Some refusal }
    ensures plan { IfOk result (λ a. a.plan ≡ plan) }
    ensures reasons { IfOk result (AreReasons (tree_of program.now)) }
    ensures refused { IfErr result (IsUntold (tree_of program.now) plan) }
{
    match refusal {
        PlanRefusal::Missing(number) | PlanRefusal::Bad(number, _) => {
            Ok(refused_account(alloc, program, plan, number)?)
        }
        PlanRefusal::Shape(_)
        | PlanRefusal::Placement { .. }
        | PlanRefusal::PrintPlace(_)
        | PlanRefusal::Condition(_)
        | PlanRefusal::Differs
        | PlanRefusal::NoMemory => Err(refusal),
    }
}
