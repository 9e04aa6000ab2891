// What is timed on threads: runs of a source by an accepted plan whose text stands behind it.

ghost use Rattle.std.specs.Prelude.{◌≤◌, IfOk, length};
ghost use Rattle.nest_model.specs.Ranges.{IsInRange};
ghost use Rattle.nest_tree.specs.View.{tree_of};
ghost use Rattle.sync_plan.specs.Fit.{IsFit};
ghost use Rattle.sync_plan.specs.Ordered.{IsOrdered};

use crate::measure::{Measure, measured, now};
use crate::parts::read_inside;
use f77_lines::MOST_BYTES;
use fork_join::run_join;
use nest_tree::Program;
use plan_checker::check;
use plan_checker::laws::accepted_plans_are_ordered;
use plan_input::{InputError, read_fitting};
use spmd_model::Style;
use spmd_ports::NoGate;
use spmd_workers::run_spmd_with;
use std::alloc::Global;
use std::thread::Threads;
use sync_plan::Plan;

// The program of a source, whose subscripts are in range, and the plan behind it, which is accepted.
fn case_of<R: Threads + Sync>(
    threads: &R,
    alloc: Global,
    bytes: &[u8],
) -> Result<(Program, Plan), InputError>
    requires { length bytes.now ≤ MOST_BYTES }
    ensures ranges { IfOk result (λ r. IsInRange (tree_of r.0)) }
    ensures fits { IfOk result (λ r. IsFit (tree_of r.0) r.1) }
    ensures ordered { IfOk result (λ r. IsOrdered (tree_of r.0) r.1) }
{
    let (program, rest) = read_inside(alloc, bytes)?;
    let plan = read_accepted(threads, alloc, &program, &bytes[rest..])?;
    Ok((program, plan))
}

// The plan whose text the bytes are, which is accepted and so is ordered.
fn read_accepted<R: Threads + Sync>(
    threads: &R,
    alloc: Global,
    program: &Program,
    bytes: &[u8],
) -> Result<Plan, InputError>
    requires short { length bytes.now ≤ MOST_BYTES }
    requires ranges { IsInRange (tree_of program.now) }
    ensures fits { IfOk result (IsFit (tree_of program.now)) }
    ensures ordered { IfOk result (IsOrdered (tree_of program.now)) }
{
    let plan = read_fitting(alloc, program, bytes)?;
    if let Err(refusal) = check(threads, alloc, program, &plan) {
        return Err(InputError::from(refusal));
    }
    accepted_plans_are_ordered();
    Ok(plan)
}

/// The run by fork and join, which writes the output.
pub(crate) fn join<R: Threads + Sync>(
    rt: &HostRuntime,
    threads: &R,
    bytes: &[u8],
) -> Result<Measure, InputError>
    requires { length bytes.now ≤ MOST_BYTES }
{
    let (program, plan) = case_of(threads, rt.alloc(), bytes)?;
    let begun = now(rt)?;
    let (_receipt, output) = run_join(threads, rt.alloc(), &program, &plan, &NoGate)?;
    measured(rt, "join", &begun, output.as_slice())
}

/// The run over shared words in a style of barriers, which writes the output.
pub(crate) fn spmd<R: Threads + Sync>(
    rt: &HostRuntime,
    threads: &R,
    bytes: &[u8],
    style: Style,
) -> Result<Measure, InputError>
    requires { length bytes.now ≤ MOST_BYTES }
{
    let (program, plan) = case_of(threads, rt.alloc(), bytes)?;
    let begun = now(rt)?;
    let (_closed, output) = run_spmd_with(threads, rt.alloc(), &program, &plan, &NoGate, style)?;
    measured(rt, "spmd", &begun, output.as_slice())
}
