// The first fault of a statement.

ghost use Rattle.std.specs.Prelude.{◌≡◌, ◌+◌, ◌<◌, ◌^◌, ℕ, length, map, IfOk, OnOk};
ghost use Rattle.std.specs.List.{flat_map, list_any};
ghost use Rattle.std.specs.Option.{option_map};
ghost use Rattle.f77_forms.specs.View as view;
ghost use Rattle.f77_scene.specs.Limits as limits;
ghost use Rattle.f77_scene.specs.Reading.{fault_of_form};
ghost use Rattle.f77_scene.specs.Statements as statements;
ghost use Rattle.f77_scene.specs.Tests as tests;
ghost use Rattle.f77_scene.specs.Scene.{Given, Scene};
ghost use Rattle.f77_program.specs.Faults as faults;
ghost use Rattle.f77_program.specs.Firsts as numbers;
ghost use Rattle.f77_program.specs.Refusals.{fault_of};
ghost use Rattle.f77_program.specs.Judged as spec;
ghost use Rattle.f77_program.specs.Pieces as piece_forms;
ghost use Rattle.f77_program.specs.Surveys as surveys;
ghost use Rattle.f77_program.specs.Wholes.{given_of};

use crate::declared::declares_again;
use crate::fault::{first_formed, first_limit, first_named};
use crate::known::Known;
use crate::limits::declarators_past;
use crate::pieces::{Piece, expressions_in, names_in, pieces_in};
use crate::reaches::{reach_in, step_in};
use crate::refusal::Fault;
use crate::statements::{
    has_bad_label, has_bad_target, has_badly_subscripted_target, has_other_type, is_bad_loop,
    is_in_order, stores_to_loop_variable,
};
use crate::survey::{Survey, define, survey_at};
use crate::tested::Tested;
use crate::whole::Whole;
use f77_forms::Statement;
use std::alloc::{AllocError, Global};

/// The first fault of a statement with this label and so many statements behind it. The names of a
/// PARAMETER statement are known behind it.
pub fn fault_in(
    alloc: Global,
    whole: &Whole,
    known: &mut Known,
    behind: usize,
    label: u32,
    statement: &Statement,
) -> Result<Option<Fault>, AllocError>
    requires count { known.old.count < 2 ^ 62 }
    requires depth { length known.old.opened < 2 ^ 62 }
    ensures fault { IfOk result (λ o. option_map fault_of o
        ≡ fault_of_form (given_of whole.now) known.old behind label
        (view.statement_of statement.now)) }
    ensures known { OnOk result (known.new ≡ spec.evaluated (given_of whole.now) known.old
        (view.statement_of statement.now)) }
{
    let count = known.count();
    let depth = known.depth();
    let pieces = pieces_in(alloc, statement)?;
    let tested = tests_of(alloc, whole, known, behind, label, statement, &pieces)?;
    let survey = evaluate(alloc, whole, known, statement, &pieces)?;
    Ok(first_fault(statement, &tested, &survey, count, depth))
}

/// The first fault of a statement, by what its tests and its expressions come to.
fn first_fault(
    statement: &Statement,
    tested: &Tested,
    survey: &Survey,
    count: usize,
    depth: usize,
) -> Option<Fault>
    requires count { count < 2 ^ 62 }
    requires depth { depth < 2 ^ 62 }
    ensures { (given : Given) (s : Scene) (behind label : ℕ) → tested.now
        ≡ spec.tested_of given s behind label (view.statement_of statement.now)
        → surveys.survey_view survey.now ≡ surveys.survey_of (statements.spots_in given s
        (view.statement_of statement.now)) → count ≡ s.count → depth ≡ length s.opened
        → option_map fault_of result ≡ fault_of_form given s behind label
        (view.statement_of statement.now) }
{
    if let Some(fault) = first_named(tested, survey, is_declaration(statement)) {
        return Some(fault);
    }
    let reach = reach_in(statement, &survey.measures);
    let step = step_in(statement, &survey.measures);
    if let Some(fault) = first_formed(tested, survey, reach, step) {
        return Some(fault);
    }
    match first_limit(tested, count, loops_round(statement, depth), reach, step) {
        Some(number) => Some(Fault::Count(number)),
        None => None,
    }
}

/// How many loops are open round a DO statement.
fn loops_round(statement: &Statement, depth: usize) -> Option<usize>
    requires { depth < 2 ^ 62 }
    ensures loops { faults.loop_numbers result ≡ flat_map (λ d. limits.counted 6 (depth + 1))
        (statements.loops_in (view.statement_of statement.now)) }
    ensures few { faults.IsFew result }
{
    match statement {
        Statement::Do(_) => Some(depth),
        _ => None,
    }
}

fn is_declaration(statement: &Statement) -> bool
    ensures { result ≡ tests.is_declaration (view.statement_of statement.now) }
{
    matches!(
        statement,
        Statement::Integer(_) | Statement::Dimension(_) | Statement::Parameter(_)
    )
}

/// What the tests of a statement come to that look at no expression.
pub fn tests_of(
    alloc: Global,
    whole: &Whole,
    known: &Known,
    behind: usize,
    label: u32,
    statement: &Statement,
    pieces: &[Piece],
) -> Result<Tested, AllocError>
    requires { piece_forms.pieces_view pieces.now ≡ piece_forms.pieces_in
        (view.statement_of statement.now) }
    ensures { IfOk result (λ t. t ≡ spec.tested_of (given_of whole.now) known.now behind label
        (view.statement_of statement.now)) }
{
    let names = names_in(alloc, known, pieces)?;
    Ok(Tested {
        misplaced: !is_in_order(known, behind, statement),
        bad_target: has_bad_target(known, statement),
        again: declares_again(alloc, known, statement)?,
        other_type: has_other_type(&whole.integers, &names),
        stores_to_loop: stores_to_loop_variable(known, statement),
        bad_loop: has_bad_loop(alloc, known, statement)?,
        bad_rank: has_badly_subscripted_target(known, statement),
        bad_label: has_bad_label(known, label, statement),
        past: declared_past(alloc, known, statement)?,
    })
}

fn has_bad_loop(alloc: Global, known: &Known, statement: &Statement) -> Result<bool, AllocError>
    ensures { IfOk result (λ bad. bad ≡ list_any (tests.is_bad_loop known.now) (statements.loops_in
        (view.statement_of statement.now))) }
{
    match statement {
        Statement::Do(statement) => {
            let bad = is_bad_loop(alloc, known, statement)?;
            Ok(bad)
        }
        _ => Ok(false),
    }
}

/// The first number of a statement's declarators that passes a limit.
fn declared_past(
    alloc: Global,
    known: &Known,
    statement: &Statement,
) -> Result<Option<i64>, AllocError>
    ensures { IfOk result (λ past. past ≡ numbers.first_of
        (flat_map (limits.declarator_past known.now) (statements.declarators_in
        (view.statement_of statement.now)))) }
{
    match statement {
        Statement::Integer(declarators) => {
            let past = declarators_past(alloc, known, declarators.as_slice())?;
            Ok(past)
        }
        Statement::Dimension(declarators) => {
            let past = declarators_past(alloc, known, declarators.as_slice())?;
            Ok(past)
        }
        _ => Ok(None),
    }
}

/// What the expressions of a statement come to; the names of a PARAMETER statement are known
/// behind it.
pub fn evaluate(
    alloc: Global,
    whole: &Whole,
    known: &mut Known,
    statement: &Statement,
    pieces: &[Piece],
) -> Result<Survey, AllocError>
    requires { piece_forms.pieces_view pieces.now ≡ piece_forms.pieces_in
        (view.statement_of statement.now) }
    ensures survey { IfOk result (λ survey. surveys.survey_view survey
        ≡ surveys.survey_of (statements.spots_in (given_of whole.now) known.old
        (view.statement_of statement.now))) }
    ensures known { OnOk result (known.new ≡ spec.evaluated (given_of whole.now) known.old
        (view.statement_of statement.now)) }
{
    match statement {
        Statement::Parameter(definitions) => {
            let survey = define(alloc, whole, known, definitions.as_slice())?;
            Ok(survey)
        }
        _ => {
            let survey = evaluate_here(alloc, known, statement, pieces)?;
            Ok(survey)
        }
    }
}

/// What the expressions of a statement come to where it stands.
fn evaluate_here(
    alloc: Global,
    known: &Known,
    statement: &Statement,
    pieces: &[Piece],
) -> Result<Survey, AllocError>
    requires { piece_forms.pieces_view pieces.now ≡ piece_forms.pieces_in
        (view.statement_of statement.now) }
    ensures { IfOk result (λ survey. surveys.survey_view survey
        ≡ surveys.survey_of (map (λ e. (known.now, e)) (statements.expressions_in known.now
        (view.statement_of statement.now)))) }
{
    let expressions = expressions_in(alloc, known, is_print(statement), pieces)?;
    let survey = survey_at(alloc, known, &expressions)?;
    Ok(survey)
}

fn is_print(statement: &Statement) -> bool
    ensures { result ≡ spec.is_print (view.statement_of statement.now) }
{
    matches!(statement, Statement::Print(_))
}
