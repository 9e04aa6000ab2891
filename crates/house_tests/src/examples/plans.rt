// Plans: one that is made, what the checker says of a text, and texts.

ghost use Rattle.std.specs.Prelude.{◌≡◌, ◌≤◌, IfOk, length};

use nest_tree::Program;
use plan_checker::check;
use plan_maker::make;
use plan_text::{MOST_BYTES, PlanSyntax, read_plan, write_plan};
use std::alloc::{AllocError, Global};
use std::thread::Threads;

/// The text of the plan that is made of a program for two processors.
pub(crate) fn made(alloc: Global, program: &Program) -> Result<Vec<u8>, AllocError> {
    let (plan, _reasons) = make(alloc, program, 2)?;
    write_plan(alloc, &plan)
}

/// What is said of a plan's text for a program: that its plan is accepted, or why not.
pub(crate) fn verdict<R: Threads + Sync>(
    rt: &R,
    alloc: Global,
    program: &Program,
    text: &[u8],
) -> Result<String, AllocError>
    requires short { length text.now ≤ MOST_BYTES }
{
    let plan = match read_plan(alloc, text) {
        Ok(plan) => plan,
        Err(refusal) => return format!(in alloc; "{refusal}"),
    };
    match check(rt, alloc, program, &plan) {
        Ok(()) => String::from_str(alloc, "ACCEPTED"),
        Err(refusal) => format!(in alloc; "{refusal}"),
    }
}

/// A plan's text, read and written again.
pub(crate) fn written(alloc: Global, text: &[u8]) -> Result<Vec<u8>, PlanSyntax>
    requires { length text.now ≤ MOST_BYTES }
    ensures { IfOk result (λ again. again.items ≡ text.now) }
{
    let plan = read_plan(alloc, text)?;
    Ok(write_plan(alloc, &plan)?)
}
