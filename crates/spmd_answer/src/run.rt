// What a run by a plan writes, and what a sequential one does.

ghost use Rattle.std.specs.Prelude.{◌≡◌, ◌++◌, IfOk};
ghost use Rattle.nest_tree.specs.View.{tree_of};
ghost use Rattle.nest_model.specs.Memory.{output_of};
ghost use Rattle.nest_model.specs.Ranges.{IsInRange};
ghost use Rattle.plan_text.specs.PlanText.{HasCounts, plan_text};
ghost use Rattle.reason_text.specs.ReasonText.{reason_text};
ghost use Rattle.sync_plan.specs.Fit.{IsFit};
ghost use Rattle.sync_plan.specs.Ordered.{IsOrdered};
ghost use Rattle.spmd_answer.specs.Receipts.{IsLeftBy};
ghost use Rattle.command_words.specs.declared.request.Engine.TheVariants.{Core, Join, Spmd};

use crate::host::Host;
use crate::receipt::Receipt;
use command_words::Engine;
use fork_join::run_join;
use nest_tree::Program;
use plan_maker::reasons::Reasons;
use plan_text::write_plan;
use reason_text::push_reasons;
use seq_meaning::run_sequential;
use spmd_machine::{Machine, Receipt as CoreReceipt};
use spmd_model::Style;
use spmd_ports::Gate;
use spmd_workers::run_spmd_with;
use std::alloc::{AllocError, Global};
use std::thread::Threads;
use sync_plan::Plan;

/// What a program prints. The error is that memory ran out.
pub fn sequential_output(alloc: Global, program: &Program) -> Result<Vec<u8>, AllocError>
    requires ranges { IsInRange (tree_of program.now) }
    ensures { IfOk result (λ text. text.items ≡ output_of (tree_of program.now)) }
{
    let (_, output) = run_sequential(alloc, program)?;
    Ok(output.into_bytes())
}

/// The text of a plan, and then the output of the run by it, which is the sequential one; and the
/// run's receipt. A run by join or by spmd passes the gate. The error is that memory ran out.
pub fn text_of_run<R: Threads + Sync, G: Gate + Sync>(
    host: &Host<'_, R, G>,
    program: &Program,
    plan: &Plan,
    engine: Engine,
) -> Result<(Vec<u8>, Receipt), AllocError>
    requires ranges { IsInRange (tree_of program.now) }
    requires fits { IsFit (tree_of program.now) plan.now }
    requires ordered { IsOrdered (tree_of program.now) plan.now }
    requires counts { HasCounts plan.now }
    ensures text { IfOk result (λ r. r.0.items ≡ plan_text plan.now
        ++ output_of (tree_of program.now)) }
    ensures receipt { IfOk result (λ r. IsLeftBy engine (tree_of program.now) plan.now r.1) }
{
    let text = write_plan(host.alloc, plan)?;
    let (output, receipt) = output_by(host, program, plan, engine)?;
    Ok((joined(text, &output)?, receipt))
}

/// One text and then another. The error is that memory ran out.
pub fn joined(mut front: Vec<u8>, behind: &[u8]) -> Result<Vec<u8>, AllocError>
    ensures { IfOk result (λ text. text.items ≡ front.items ++ behind.now) }
{
    front.extend_from_slice(behind)?;
    Ok(front)
}

/// The output of the run by an ordered plan, and the run's receipt. The error is that memory ran
/// out.
#[tactic(auto, using(crate::proofs::Left::by_engine))]
pub fn output_by<R: Threads + Sync, G: Gate + Sync>(
    host: &Host<'_, R, G>,
    program: &Program,
    plan: &Plan,
    engine: Engine,
) -> Result<(Vec<u8>, Receipt), AllocError>
    requires ranges { IsInRange (tree_of program.now) }
    requires fits { IsFit (tree_of program.now) plan.now }
    requires ordered { IsOrdered (tree_of program.now) plan.now }
    ensures output { IfOk result (λ r. r.0.items ≡ output_of (tree_of program.now)) }
    ensures receipt { IfOk result (λ r. IsLeftBy engine (tree_of program.now) plan.now r.1) }
{
    match engine {
        Engine::Core(style) => core_run(host.alloc, program, plan, style),
        Engine::Join => join_run(host, program, plan),
        Engine::Spmd(style) => spmd_run(host, program, plan, style),
    }
}

/// The text of a plan, and then that of its reasons. The error is that memory ran out.
pub fn text_of_plan(
    alloc: Global,
    program: &Program,
    plan: &Plan,
    reasons: &Reasons,
) -> Result<Vec<u8>, AllocError>
    requires { HasCounts plan.now }
    ensures { IfOk result (λ text. text.items ≡ plan_text plan.now
        ++ reason_text (tree_of program.now) reasons.now) }
{
    let mut text = write_plan(alloc, plan)?;
    push_reasons(&mut text, program, reasons)?;
    Ok(text)
}

// The output and the receipt of a run by an ordered plan on the machine, in rounds of one step per
// processor, which pass barriers in this style.
fn core_run(
    alloc: Global,
    program: &Program,
    plan: &Plan,
    style: Style,
) -> Result<(Vec<u8>, Receipt), AllocError>
    requires ranges { IsInRange (tree_of program.now) }
    requires fits { IsFit (tree_of program.now) plan.now }
    requires ordered { IsOrdered (tree_of program.now) plan.now }
    ensures output { IfOk result (λ r. r.0.items ≡ output_of (tree_of program.now)) }
    ensures receipt { IfOk result (λ r. IsLeftBy (Core style) (tree_of program.now) plan.now r.1) }
{
    let mut machine = Machine::new(alloc, program, plan, style)?;
    machine.round_robin();
    let (receipt, output) = CoreReceipt::of(machine);
    Ok((output.into_bytes(), Receipt::Core(receipt)))
}

// The same by fork and join, whose workers pass the gate.
fn join_run<R: Threads + Sync, G: Gate + Sync>(
    host: &Host<'_, R, G>,
    program: &Program,
    plan: &Plan,
) -> Result<(Vec<u8>, Receipt), AllocError>
    requires ranges { IsInRange (tree_of program.now) }
    requires fits { IsFit (tree_of program.now) plan.now }
    requires ordered { IsOrdered (tree_of program.now) plan.now }
    ensures output { IfOk result (λ r. r.0.items ≡ output_of (tree_of program.now)) }
    ensures receipt { IfOk result (λ r. IsLeftBy Join (tree_of program.now) plan.now r.1) }
{
    let (receipt, output) = run_join(host.rt, host.alloc, program, plan, host.gate)?;
    Ok((output.into_bytes(), Receipt::Join(receipt)))
}

// The same by workers that share words, pass barriers in this style, and pass the gate.
fn spmd_run<R: Threads + Sync, G: Gate + Sync>(
    host: &Host<'_, R, G>,
    program: &Program,
    plan: &Plan,
    style: Style,
) -> Result<(Vec<u8>, Receipt), AllocError>
    requires ranges { IsInRange (tree_of program.now) }
    requires fits { IsFit (tree_of program.now) plan.now }
    requires ordered { IsOrdered (tree_of program.now) plan.now }
    ensures output { IfOk result (λ r. r.0.items ≡ output_of (tree_of program.now)) }
    ensures receipt { IfOk result (λ r. IsLeftBy (Spmd style) (tree_of program.now) plan.now r.1) }
{
    let (closed, output) = run_spmd_with(host.rt, host.alloc, program, plan, host.gate, style)?;
    let receipt = Receipt::Spmd(closed.into_receipt());
    Ok((output.into_bytes(), receipt))
}
