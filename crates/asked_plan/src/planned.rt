// A program and the plan of it that is asked for.

ghost use Rattle.std.specs.Prelude.{◌≡◌, ◌≢◌, ◌≤◌, Some, IfErr, IfOk, OnOk, length, map};
ghost use Rattle.f77_source.specs.Sources.{setting_of};
ghost use Rattle.nest_tree.specs.View.{tree_of};
ghost use Rattle.plan_checker.specs.Accepted.{IsAccepted};
ghost use Rattle.plan_checker.specs.declared.refusal.PlanRefusal.TheVariants as reasons;
ghost use Rattle.plan_text.specs.PlanText.{HasCounts};
ghost use Rattle.sync_plan.specs.Fit.{IsFit};
ghost use Rattle.asked_plan.specs.Plans.{HasWorkers, IsBehind, IsPlanFor, IsPlanned, IsPlanErrorFor, IsRefused, IsError, IsErrorBehind, IsTaken, first_reason, stands_alone};

use command_words::PlanChoice;
use f77_lines::MOST_BYTES;
use f77_source::Setting;
use nest_tree::Program;
use plan_checker::{PlanRefusal, check};
use plan_input::{InputError, read_fitting, read_inside};
use plan_maker::{make, make_barrier};
use plan_text::read_plan;
use std::alloc::Global;
use std::thread::Threads;
use sync_plan::Plan;

/// Which plan of a source's program is asked for.
#[derive(Clone, Copy, Debug)]
pub struct Asked<'a> {
    /// For so many processors, 1 to 64,
    pub workers: u32,
    /// this one,
    pub choice: PlanChoice,
    /// with these settings of named constants.
    pub settings: &'a [Setting],
}

/// A program and a plan for it.
#[derive(Drop)]
pub struct Planned {
    pub program: Program,
    pub plan: Plan,
}

/// The program of the source that the bytes begin with, and the plan that is asked for. The error is
/// the first reason why there is none, or that memory ran out.
pub fn plan_program<R: Threads + Sync>(
    rt: &R,
    alloc: Global,
    asked: &Asked,
    bytes: &[u8],
) -> Result<Planned, InputError>
    requires short { length bytes.now ≤ MOST_BYTES }
    requires some { 1 ≤ asked.now.workers }
    requires few { asked.now.workers ≤ 64 }
    ensures planned { IfOk result (λ p. IsPlanned asked.now.workers asked.now.choice bytes.now
        (map setting_of asked.now.settings.now) (tree_of p.program) p.plan) }
    ensures accepted { IfOk result (λ p. IsAccepted (tree_of p.program) p.plan) }
    ensures fits { IfOk result (λ p. IsFit (tree_of p.program) p.plan) }
    ensures workers { IfOk result (λ p. p.plan.workers ≡ asked.now.workers) }
    ensures counts { IfOk result (λ p. HasCounts p.plan) }
    ensures refused { IfErr result (IsError asked.now.workers asked.now.choice bytes.now
        (map setting_of asked.now.settings.now)) }
{
    let alone = stands_alone(asked.choice);
    let (program, rest) = read_inside(alloc, bytes, asked.settings, alone)?;
    let plan = plan_for(rt, alloc, &program, asked, &bytes[rest..])?;
    Ok(Planned { program, plan })
}

/// The program of the source that the bytes begin with, and the plan whose text stands behind its END
/// line, where it fits, accepted or not. The error is the first reason why there is none, or that
/// memory ran out.
pub fn plan_behind(alloc: Global, settings: &[Setting], bytes: &[u8]) -> Result<Planned, InputError>
    requires { length bytes.now ≤ MOST_BYTES }
    ensures behind { IfOk result (λ p. IsBehind bytes.now (map setting_of settings.now)
        (tree_of p.program) p.plan) }
    ensures refused { IfErr result (IsErrorBehind bytes.now (map setting_of settings.now)) }
{
    let (program, rest) = read_inside(alloc, bytes, settings, false)?;
    let plan = read_fitting(alloc, &program, &bytes[rest..])?;
    Ok(Planned { program, plan })
}

// Whether only comments may stand behind END, where no plan does.
fn stands_alone(choice: PlanChoice) -> bool
    ensures { result ≡ stands_alone choice }
{
    match choice {
        PlanChoice::Made | PlanChoice::Barrier => true,
        PlanChoice::Given => false,
    }
}

/// The plan of a program that is asked for: the one that is made, the one with barriers, or the one
/// whose text these bytes are. The error is the first reason why there is none, or that memory ran
/// out.
pub fn plan_for<R: Threads + Sync>(
    rt: &R,
    alloc: Global,
    program: &Program,
    asked: &Asked,
    bytes: &[u8],
) -> Result<Plan, InputError>
    requires short { length bytes.now ≤ MOST_BYTES }
    requires some { 1 ≤ asked.now.workers }
    requires few { asked.now.workers ≤ 64 }
    ensures plan { IfOk result (IsPlanFor asked.now.choice asked.now.workers
        (tree_of program.now) bytes.now) }
    ensures accepted { IfOk result (IsAccepted (tree_of program.now)) }
    ensures workers { IfOk result (λ plan. plan.workers ≡ asked.now.workers) }
    ensures counts { IfOk result HasCounts }
    ensures refused { IfErr result (IsPlanErrorFor asked.now.choice asked.now.workers
        (tree_of program.now) bytes.now) }
{
    match asked.choice {
        PlanChoice::Made => {
            let (plan, _) = make(alloc, program, asked.workers)?;
            Ok(plan)
        }
        PlanChoice::Barrier => Ok(make_barrier(alloc, program, asked.workers)?),
        PlanChoice::Given => given_plan(rt, alloc, program, bytes, Some(asked.workers)),
    }
}

/// The plan whose text the bytes are, where it has the workers that are asked for and is accepted.
/// `asked` is a number of workers, or none where a plan may have any. The error is the first reason
/// why there is none, or that memory ran out.
pub fn given_plan<R: Threads + Sync>(
    rt: &R,
    alloc: Global,
    program: &Program,
    bytes: &[u8],
    asked: Option<u32>,
) -> Result<Plan, InputError>
    requires short { length bytes.now ≤ MOST_BYTES }
    ensures taken { IfOk result (IsTaken asked (tree_of program.now) bytes.now) }
    ensures refused { IfErr result (IsRefused asked (tree_of program.now) bytes.now) }
{
    let plan = read_plan(alloc, bytes)?;
    check_asked(rt, alloc, program, &plan, asked)?;
    Ok(plan)
}

// Whether a plan has the workers that are asked for and is accepted; else the first reason why not.
fn check_asked<R: Threads + Sync>(
    rt: &R,
    alloc: Global,
    program: &Program,
    plan: &Plan,
    asked: Option<u32>,
) -> Result<(), PlanRefusal>
    ensures workers { OnOk result (HasWorkers asked plan.now) }
    ensures accepted { OnOk result (IsAccepted (tree_of program.now) plan.now) }
    ensures refused { IfErr result (λ reason. reason ≢ reasons.NoMemory
        → first_reason asked (tree_of program.now) plan.now ≡ Some reason) }
{
    match asked {
        Some(workers) if workers != plan.workers => Err(PlanRefusal::Shape(1)),
        _ => check(rt, alloc, program, plan),
    }
}
