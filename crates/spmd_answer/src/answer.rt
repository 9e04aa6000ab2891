// What is due for a request.

ghost use Rattle.std.specs.Prelude.{◌≡◌, ◌≤◌, ℕ, List, IfOk, codes, drop, length, map};
ghost use Rattle.clap.specs.Words.{Text};
ghost use Rattle.nest_tree.specs.View.{tree_of};
ghost use Rattle.nest_model.specs.Ranges.{IsInRange};
ghost use Rattle.command_words.specs.Wanted.{IsCounted, bench, planned, run as by_plan, sequential, verify, wanted};
ghost use Rattle.f77_source.specs.Sources.{setting_of};
ghost use Rattle.spmd_answer.specs.Answers.{due_in};
ghost use Rattle.spmd_answer.specs.Due as due;
ghost use Rattle.spmd_answer.specs.Due.{IsDueOf, IsDueOn, Readings};
ghost use Rattle.spmd_answer.specs.Receipts.{HasReceipt, HasReceiptOf};
ghost use Rattle.spmd_answer.specs.Inputs.{readings_of};

use crate::bench::bench_run;
use crate::due::{Answer, done, refusal, told_as};
use crate::host::Host;
use crate::receipt::Receipt;
use crate::run::{sequential_output, text_of_plan, text_of_run};
use crate::source::behind_of;
use crate::sweep::{Input, settings_for, swept};
use asked_plan::{Asked, given_plan, plan_for};
use command_words::{Bench, Request, Run};
use f77_lines::MOST_BYTES;
use f77_source::Setting;
use nest_tree::Program;
use plan_input::read_inside;
use plan_maker::make;
use spmd_ports::Gate;
use std::alloc::{AllocError, Global};
use std::thread::Threads;

/// What is due for a request with these settings and the bytes of a source: of a source that is
/// refused the line that says so; else of a plan that is given and refused the line that says so;
/// else what its program's run writes, or that the plan is accepted; and the receipt of a run by a
/// plan. Workers pass the gate. The error is that memory ran out.
pub fn answer_to<R: Threads + Sync, G: Gate + Sync>(
    host: &Host<'_, R, G>,
    request: &Request,
    settings: &[Setting],
    bytes: &[u8],
) -> Result<(Answer, Option<Receipt>), AllocError>
    requires short { length bytes.now ≤ MOST_BYTES }
    requires counted { IsCounted (wanted request.now) }
    ensures due { IfOk result
        (λ r. IsDueOf (wanted request.now) (map setting_of settings.now) bytes.now (due_in r.0)) }
    ensures receipt { IfOk result (λ r. HasReceiptOf (wanted request.now)
        (map setting_of settings.now) bytes.now (due_in r.0) r.1) }
{
    let given = settings_for(host.alloc, request, settings)?;
    let stands = behind_of(request);
    match read_inside(host.alloc, bytes, &given, stands.is_alone()) {
        Ok(read) => {
            let behind = from_place(bytes, read.1);
            let input = Input {
                settings,
                bytes,
                behind,
            };
            answer_on(host, request, &read.0, &input)
        }
        Err(error) => Ok((refusal(host.alloc, told_as(stands, error))?, None)),
    }
}

// The bytes from a place on.
fn from_place(bytes: &[u8], place: usize) -> &[u8]
    requires within { place ≤ length bytes.now }
    ensures rest { result.now ≡ drop place bytes.now }
    ensures short { length result.now ≤ length bytes.now }
{
    let (_, rest) = bytes.split_at(place);
    rest
}

/// What is due for a request on a program, which was read from this input, and the receipt of a run
/// by a plan. Workers pass the gate. The error is that memory ran out.
pub fn answer_on<R: Threads + Sync, G: Gate + Sync>(
    host: &Host<'_, R, G>,
    request: &Request,
    program: &Program,
    input: &Input,
) -> Result<(Answer, Option<Receipt>), AllocError>
    requires short { length input.now.bytes.now ≤ MOST_BYTES }
    requires behind { length input.now.behind.now ≤ MOST_BYTES }
    requires counted { IsCounted (wanted request.now) }
    requires ranges { IsInRange (tree_of program.now) }
    ensures due { IfOk result (λ r. IsDueOn (wanted request.now) (tree_of program.now)
        (readings_of input.now) input.now.behind.now (due_in r.0)) }
    ensures receipt { IfOk result (λ r. HasReceipt (wanted request.now)
        (tree_of program.now) input.now.behind.now (due_in r.0) r.1) }
{
    match request {
        Request::Sequential(_) => sequential_run(host.alloc, program),
        Request::Verify(_) => verified(host.rt, host.alloc, program, input.behind),
        Request::Sweep(sweep, _) => Ok((swept(host, program, sweep, input)?, None)),
        Request::Plan(workers, _) => made_plan(host.alloc, program, *workers),
        Request::Run(run, _) => planned_run(host, program, input, *run),
        Request::Bench(bench) => benched(host, program, *bench),
    }
}

// The run by a plan.
fn planned_run<R: Threads + Sync, G: Gate + Sync>(
    host: &Host<'_, R, G>,
    program: &Program,
    input: &Input,
    run: Run,
) -> Result<(Answer, Option<Receipt>), AllocError>
    requires short { length input.now.behind.now ≤ MOST_BYTES }
    requires some { 1 ≤ run.workers }
    requires few { run.workers ≤ 64 }
    requires ranges { IsInRange (tree_of program.now) }
    ensures due { (settings : List Text) (at : Readings)
        → IfOk result (λ r. IsDueOn (by_plan run.workers run.choice run.engine settings)
        (tree_of program.now) at input.now.behind.now (due_in r.0)) }
    ensures receipt { (settings : List Text)
        → IfOk result (λ r. HasReceipt (by_plan run.workers run.choice run.engine settings)
        (tree_of program.now) input.now.behind.now (due_in r.0) r.1) }
{
    let asked = Asked {
        workers: run.workers,
        choice: run.choice,
        settings: input.settings,
    };
    match plan_for(host.rt, host.alloc, program, &asked, input.behind) {
        Ok(plan) => {
            let (text, receipt) = text_of_run(host, program, &plan, run.engine)?;
            Ok((done(text), Some(receipt)))
        }
        Err(error) => Ok((refusal(host.alloc, error)?, None)),
    }
}

// The run of the program of `bench`, by spmd.
fn benched<R: Threads + Sync, G: Gate + Sync>(
    host: &Host<'_, R, G>,
    program: &Program,
    sizes: Bench,
) -> Result<(Answer, Option<Receipt>), AllocError>
    requires some { 1 ≤ sizes.workers }
    requires few { sizes.workers ≤ 64 }
    requires ranges { IsInRange (tree_of program.now) }
    ensures due { (at : Readings) (bytes : List ℕ)
        → IfOk result (λ r. IsDueOn (bench sizes.workers sizes.points sizes.sweeps)
        (tree_of program.now) at bytes (due_in r.0)) }
    ensures receipt { (bytes : List ℕ)
        → IfOk result (λ r. HasReceipt (bench sizes.workers sizes.points sizes.sweeps)
        (tree_of program.now) bytes (due_in r.0) r.1) }
{
    let (text, receipt) = bench_run(host, program, sizes)?;
    Ok((done(text), Some(receipt)))
}

fn sequential_run(alloc: Global, program: &Program) -> Result<(Answer, Option<Receipt>), AllocError>
    requires ranges { IsInRange (tree_of program.now) }
    ensures due { (settings : List Text) (at : Readings) (bytes : List ℕ)
        → IfOk result (λ r. IsDueOn (sequential settings) (tree_of program.now) at bytes
        (due_in r.0)) }
    ensures receipt { (settings : List Text) (bytes : List ℕ)
        → IfOk result (λ r. HasReceipt (sequential settings) (tree_of program.now) bytes
        (due_in r.0) r.1) }
{
    Ok((done(sequential_output(alloc, program)?), None))
}

// Whether the plan that is given is accepted.
fn verified<R: Threads + Sync>(
    rt: &R,
    alloc: Global,
    program: &Program,
    bytes: &[u8],
) -> Result<(Answer, Option<Receipt>), AllocError>
    requires short { length bytes.now ≤ MOST_BYTES }
    ensures due { (settings : List Text) (at : Readings)
        → IfOk result (λ r. IsDueOn (verify settings) (tree_of program.now) at bytes.now
        (due_in r.0)) }
    ensures receipt { (settings : List Text)
        → IfOk result (λ r. HasReceipt (verify settings) (tree_of program.now) bytes.now
        (due_in r.0) r.1) }
{
    match given_plan(rt, alloc, program, bytes, None) {
        Ok(_) => Ok((accepted(alloc)?, None)),
        Err(error) => Ok((refusal(alloc, error)?, None)),
    }
}

fn accepted(alloc: Global) -> Result<Answer, AllocError>
    ensures { IfOk result (λ a. due_in a ≡ due.done (due.line (codes "ACCEPTED"))) }
{
    Ok(done(b"ACCEPTED\n".to_vec(alloc)?))
}

// The plan that is made, with its reasons.
fn made_plan(
    alloc: Global,
    program: &Program,
    workers: u32,
) -> Result<(Answer, Option<Receipt>), AllocError>
    requires some { 1 ≤ workers }
    requires few { workers ≤ 64 }
    ensures due { (settings : List Text) (at : Readings) (bytes : List ℕ)
        → IfOk result (λ r. IsDueOn (planned workers settings) (tree_of program.now) at bytes
        (due_in r.0)) }
    ensures receipt { (settings : List Text) (bytes : List ℕ)
        → IfOk result (λ r. HasReceipt (planned workers settings) (tree_of program.now) bytes
        (due_in r.0) r.1) }
{
    let (plan, reasons) = make(alloc, program, workers)?;
    Ok((done(text_of_plan(alloc, program, &plan, &reasons)?), None))
}
