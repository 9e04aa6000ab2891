// A program and a plan that fits it, read from bytes.

ghost use Rattle.std.specs.Prelude.{◌≡◌, ◌≤◌, ℕ, List, [], IfErr, IfOk, None, OnOk, length, map};
ghost use Rattle.f77_lines.specs.Columns as columns;
ghost use Rattle.f77_lines.specs.Listing.{Lists, entry_of, size_to_end};
ghost use Rattle.f77_scene.specs.Reading.{Reads};
ghost use Rattle.f77_source.specs.Answers as answers;
ghost use Rattle.f77_source.specs.Sources.{setting_of};
ghost use Rattle.nest_model.specs.Ranges.{IsInRange};
ghost use Rattle.nest_tree.specs.View.{tree_of};
ghost use Rattle.sync_plan.specs.Fit.{IsFit};
ghost use Rattle.sync_plan.specs.Shape.{wrong_field};
ghost use Rattle.plan_input.specs.Sources.{HasProgramWith};
ghost use Rattle.plan_input.specs.Errors.{IsClear, IsFirst, IsPlanError, IsSourceError, IsError, IsTextOf, first_error, first_stray, error_of_lines, error_of_listed};

use crate::error::InputError;
use f77_lines::{Line, LineRefusal, MOST_BYTES, first_behind, statements};
use f77_source::{Setting, read_program};
use nest_tree::Program;
use plan_checker::check_fit;
use plan_text::read_plan;
use range_check::check_ranges;
use std::alloc::Global;
use sync_plan::Plan;

/// The program of the source that the bytes begin with, and where the rest begins, behind the line
/// end of END. The error is the first reason why there is none, or that memory ran out.
pub fn read_source(alloc: Global, bytes: &[u8]) -> Result<(Program, usize), InputError>
    requires { length bytes.now ≤ MOST_BYTES }
    ensures program { IfOk result (λ read. Reads bytes.now [] (tree_of read.0)) }
    ensures rest { IfOk result (λ read. read.1 ≡ size_to_end (columns.lines_of bytes.now)) }
    ensures within { IfOk result (λ read. read.1 ≤ length bytes.now) }
    ensures refused { IfErr result (IsSourceError bytes.now) }
{
    let (lines, rest) = lines_of(alloc, bytes, false)?;
    let program = program_of(alloc, &lines, &[])?;
    Ok((program, rest))
}

// The program of what is listed, within its limits.
fn program_of(alloc: Global, lines: &[Line], settings: &[Setting]) -> Result<Program, InputError>
    requires { (bytes : List ℕ) × (rest : ℕ) × Lists bytes (map entry_of lines.now) rest }
    ensures program { IfOk result (λ p. answers.IsProgram (map entry_of lines.now)
        (map setting_of settings.now) (tree_of p)) }
    ensures refused { IfErr result (IsFirst (error_of_listed (map entry_of lines.now)
        (map setting_of settings.now))) }
{
    let draft = read_program(alloc, lines, settings)?;
    match draft.limited() {
        Ok(program) => Ok(program),
        Err(limit) => Err(InputError::Limit(limit)),
    }
}

/// The program of the source that the bytes begin with, with these settings, all of whose subscripts
/// are in range, and where the rest begins, behind the line end of END; where `alone` says so, only
/// comments may stand there. The error is the first reason why there is none, or that memory ran out.
pub fn read_inside(
    alloc: Global,
    bytes: &[u8],
    settings: &[Setting],
    alone: bool,
) -> Result<(Program, usize), InputError>
    requires { length bytes.now ≤ MOST_BYTES }
    ensures program { IfOk result (λ read. HasProgramWith (map setting_of settings.now) bytes.now
        (tree_of read.0)) }
    ensures inside { IfOk result (λ read. IsInRange (tree_of read.0)) }
    ensures clear { OnOk result (IsClear alone bytes.now) }
    ensures none { OnOk result (first_error alone bytes.now (map setting_of settings.now) ≡ None) }
    ensures rest { IfOk result (λ read. read.1 ≡ size_to_end (columns.lines_of bytes.now)) }
    ensures within { IfOk result (λ read. read.1 ≤ length bytes.now) }
    ensures refused { IfErr result (IsError alone bytes.now (map setting_of settings.now)) }
{
    let (lines, rest) = lines_of(alloc, bytes, alone)?;
    let program = program_of(alloc, &lines, settings)?;
    match check_ranges(alloc, &program) {
        Ok(()) => Ok((program, rest)),
        Err(outside) => Err(InputError::Range(outside)),
    }
}

// The statements and directives of the bytes, and where the rest begins; where `alone` says so, only
// comments may stand there.
fn lines_of(alloc: Global, bytes: &[u8], alone: bool) -> Result<(Vec<Line>, usize), InputError>
    requires { length bytes.now ≤ MOST_BYTES }
    ensures lists { IfOk result (λ read. Lists bytes.now (map entry_of read.0.items) read.1) }
    ensures within { IfOk result (λ read. read.1 ≤ length bytes.now) }
    ensures none { OnOk result (error_of_lines alone bytes.now ≡ None) }
    ensures refused { IfErr result (IsFirst (error_of_lines alone bytes.now)) }
{
    let (lines, rest) = statements(alloc, bytes)?;
    match first_stray(bytes, rest, alone) {
        None => Ok((lines, rest)),
        Some(line) => Err(InputError::Line(LineRefusal::AfterEnd(line))),
    }
}

// The first line behind END, at the place `rest`, that is no comment, where `alone` says that only
// comments may stand there.
fn first_stray(bytes: &[u8], rest: usize, alone: bool) -> Option<u32>
    requires short { length bytes.now ≤ MOST_BYTES }
    requires within { rest ≤ length bytes.now }
    requires behind { rest ≡ size_to_end (columns.lines_of bytes.now) }
    ensures { result ≡ first_stray alone bytes.now }
{
    if alone {
        first_behind(bytes, rest)
    } else {
        None
    }
}

/// The plan whose text the bytes are, where it fits the program. The error is the first reason why
/// there is none, or that memory ran out.
pub fn read_fitting(alloc: Global, program: &Program, bytes: &[u8]) -> Result<Plan, InputError>
    requires short { length bytes.now ≤ MOST_BYTES }
    ensures plan { IfOk result (λ plan. IsTextOf plan bytes.now) }
    ensures fits { IfOk result (IsFit (tree_of program.now)) }
    ensures shape { IfOk result (λ plan. wrong_field (tree_of program.now) plan ≡ None) }
    ensures refused { IfErr result (IsPlanError (tree_of program.now) bytes.now) }
{
    let plan = read_plan(alloc, bytes)?;
    match check_fit(program, &plan) {
        Ok(()) => Ok(plan),
        Err(refusal) => Err(InputError::from(refusal)),
    }
}
