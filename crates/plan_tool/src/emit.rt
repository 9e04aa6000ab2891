// A program under a plan as one C file.

ghost use Rattle.std.specs.Prelude.{◌≤◌, IfErr, IfOk, length, map};
ghost use Rattle.c_text.specs.Files.{EndsWithPlan};
ghost use Rattle.f77_source.specs.Sources.{setting_of};
ghost use Rattle.plan_text.specs.PlanText.{HasCounts, plan_text};
ghost use Rattle.plan_tool.specs.Files.{IsEmitted};
ghost use Rattle.asked_plan.specs.Plans.{IsError};

use asked_plan::{Asked, Planned, plan_program};
use c_text::{Emitted, write_c};
use f77_lines::MOST_BYTES;
use plan_input::InputError;
use plan_text::write_plan;
use std::alloc::{AllocError, Global};
use std::thread::Threads;
use thread_code::code_of;

/// The C file of the program of a source under the plan that is asked for, with its settings as they
/// are written. The error is the first reason why there is none, or that memory ran out.
pub(crate) fn emitted<R: Threads + Sync>(
    rt: &R,
    alloc: Global,
    asked: &Asked,
    words: &[&str],
    bytes: &[u8],
) -> Result<Vec<u8>, InputError>
    requires short { length bytes.now ≤ MOST_BYTES }
    requires some { 1 ≤ asked.now.workers }
    requires few { asked.now.workers ≤ 64 }
    ensures emitted { IfOk result (λ file. IsEmitted asked.now.workers asked.now.choice bytes.now
        (map setting_of asked.now.settings.now) file.items) }
    ensures refused { IfErr result (IsError asked.now.workers asked.now.choice bytes.now
        (map setting_of asked.now.settings.now)) }
{
    let found = plan_program(rt, alloc, asked, bytes)?;
    match text_of(alloc, words, bytes, &found) {
        Ok(file) => Ok(file),
        Err(_) => Err(InputError::NoMemory),
    }
}

// The C file of a program under a plan, whose text it ends with. The error is that memory ran out.
fn text_of(
    alloc: Global,
    words: &[&str],
    bytes: &[u8],
    found: &Planned,
) -> Result<Vec<u8>, AllocError>
    requires some { 1 ≤ found.now.plan.workers }
    requires few { found.now.plan.workers ≤ 64 }
    requires counts { HasCounts found.now.plan }
    ensures { IfOk result (λ file. EndsWithPlan (plan_text found.now.plan) file.items) }
{
    let code = code_of(alloc, &found.program, &found.plan)?;
    let plan_text = write_plan(alloc, &found.plan)?;
    write_c(
        alloc,
        Emitted {
            source: bytes,
            settings: words,
            program: &found.program,
            plan: &found.plan,
            plan_text: &plan_text,
            code: &code,
        },
    )
}
