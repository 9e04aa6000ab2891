// What is timed over a text: a source, a plan's text, or a source with a plan's text behind it.

ghost use Rattle.std.specs.Prelude.{◌≤◌, IfOk, length};
ghost use Rattle.nest_model.specs.Ranges.{IsInRange};
ghost use Rattle.nest_tree.specs.View.{tree_of};

use crate::measure::{Measure, measured, micros_since, now};
use crate::own;
use f77_lines::{MOST_BYTES, statements};
use f77_source::read_program;
use nest_tree::{Draft, Program};
use plan_input::{InputError, read_fitting, read_source};
use plan_text::{read_plan, write_plan};
use range_check::check_ranges;
use seq_meaning::run_sequential;
use spmd_machine::Machine;
use spmd_model::Style;
use std::alloc::{AllocError, Global};

/// The program of the source that the bytes begin with, all of whose subscripts are in range, and
/// where the rest begins.
pub(crate) fn read_inside(alloc: Global, bytes: &[u8]) -> Result<(Program, usize), InputError>
    requires { length bytes.now ≤ MOST_BYTES }
    ensures ranges { IfOk result (λ read. IsInRange (tree_of read.0)) }
    ensures within { IfOk result (λ read. read.1 ≤ length bytes.now) }
{
    let (program, rest) = read_source(alloc, bytes)?;
    match check_ranges(alloc, &program) {
        Ok(()) => Ok((program, rest)),
        Err(outside) => Err(InputError::Range(outside)),
    }
}

/// The lines of a source and its program: how many outermost statements, named constants and
/// variables this has.
pub(crate) fn source(rt: &HostRuntime, bytes: &[u8]) -> Result<Measure, InputError>
    requires { length bytes.now ≤ MOST_BYTES }
{
    let alloc = rt.alloc();
    let begun = now(rt)?;
    let (lines, _) = statements(alloc, bytes)?;
    let listed = micros_since(rt, &begun)?;
    let begun = now(rt)?;
    let draft = read_program(alloc, &lines, &[])?;
    let took = micros_since(rt, &begun)?;
    Ok(Measure {
        times: format!(in alloc; "lines {listed} program {took}")?,
        text: counts(alloc, &draft)?,
    })
}

fn counts(alloc: Global, draft: &Draft) -> Result<Vec<u8>, AllocError> {
    let items = draft.items.len();
    let params = draft.params.len();
    let variables = draft.variables.len();
    let line = format!(in alloc; "{items} {params} {variables}\n")?;
    Ok(line.into_bytes())
}

/// The reading and the writing of a plan's text, which is written again.
pub(crate) fn plan(rt: &HostRuntime, bytes: &[u8]) -> Result<Measure, InputError>
    requires { length bytes.now ≤ MOST_BYTES }
{
    let alloc = rt.alloc();
    let begun = now(rt)?;
    let answer = read_plan(alloc, bytes);
    let read = micros_since(rt, &begun)?;
    let plan = match answer {
        Ok(plan) => plan,
        Err(refusal) => return Err(InputError::from(refusal)),
    };
    let begun = now(rt)?;
    let text = write_plan(alloc, &plan)?;
    let written = micros_since(rt, &begun)?;
    let times = format!(in alloc; "read {read} written {written}")?;
    Ok(Measure { times, text })
}

/// The check of a source's subscripts, which writes nothing.
pub(crate) fn ranges(rt: &HostRuntime, bytes: &[u8]) -> Result<Measure, InputError>
    requires { length bytes.now ≤ MOST_BYTES }
{
    let (program, _) = read_source(rt.alloc(), bytes)?;
    let begun = now(rt)?;
    match check_ranges(rt.alloc(), &program) {
        Ok(()) => measured(rt, "ranges", &begun, &[]),
        Err(outside) => Err(InputError::Range(outside)),
    }
}

/// The sequential run of a source, which writes its output.
pub(crate) fn run(rt: &HostRuntime, bytes: &[u8]) -> Result<Measure, InputError>
    requires { length bytes.now ≤ MOST_BYTES }
{
    let (program, _) = read_inside(rt.alloc(), bytes)?;
    let begun = now(rt)?;
    let (_memory, output) = run_sequential(rt.alloc(), &program)?;
    measured(rt, "run", &begun, output.as_slice())
}

/// The round robin of a source by the plan behind it, which has to fit alone; it writes the output.
pub(crate) fn machine(rt: &HostRuntime, bytes: &[u8]) -> Result<Measure, InputError>
    requires { length bytes.now ≤ MOST_BYTES }
{
    let (program, rest) = read_inside(rt.alloc(), bytes)?;
    round_robin(rt, &program, &bytes[rest..])
}

fn round_robin(rt: &HostRuntime, program: &Program, text: &[u8]) -> Result<Measure, InputError>
    requires ranges { IsInRange (tree_of program.now) }
    requires short { length text.now ≤ MOST_BYTES }
{
    let plan = read_fitting(rt.alloc(), program, text)?;
    let mut machine = Machine::new(rt.alloc(), program, &plan, Style::Arrive)?;
    let begun = now(rt)?;
    machine.round_robin();
    measured(rt, "round robin", &begun, machine.output().as_slice())
}

/// The instances of all phases of a source by the cut of the plan behind it, each given to the one
/// processor that owns it: how many there are.
pub(crate) fn own(rt: &HostRuntime, bytes: &[u8]) -> Result<Measure, InputError>
    requires { length bytes.now ≤ MOST_BYTES }
{
    let alloc = rt.alloc();
    let (program, rest) = read_source(alloc, bytes)?;
    let plan = read_plan(alloc, &bytes[rest..])?;
    let begun = now(rt)?;
    let instances = own::count(alloc, &program, &plan.cut);
    let took = micros_since(rt, &begun)?;
    Ok(Measure {
        times: format!(in alloc; "own {took}")?,
        text: format!(in alloc; "{instances}\n")?.into_bytes(),
    })
}
