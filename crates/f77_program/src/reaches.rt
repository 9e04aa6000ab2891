// What the expressions of a statement are that have to be affine, and its step.

ghost use Rattle.std.specs.Prelude.{◌≡◌, [], ◌∷◌, map, MatchOption};
ghost use Rattle.f77_forms.specs.View as view;
ghost use Rattle.f77_scene.specs.Scene.{Given, Scene};
ghost use Rattle.f77_scene.specs.Statements.{spots_in};
ghost use Rattle.f77_scene.specs.Tests as tests;
ghost use Rattle.f77_program.specs.Counts as spec;
ghost use Rattle.f77_program.specs.Measures.{measure_of};
ghost use Rattle.f77_program.specs.Measures as measures;
ghost use Rattle.f77_program.specs.Reaches.{also, reach_of};
ghost use Rattle.f77_program.specs.Surveys.{measures_of};

use crate::measure::Measure;
use crate::measures::{inner_reaches, linear_reaches};
use crate::reach::Reach;
use f77_forms::Statement;

/// What the expressions of a statement are that have to be affine, where its expressions come to
/// these.
pub fn reach_in(statement: &Statement, measures: &[Measure]) -> Reach
    ensures { (given : Given) (s : Scene) → measures.now
        ≡ measures_of (spots_in given s (view.statement_of statement.now)) → result
        ≡ reach_of s (tests.affine_in s (view.statement_of statement.now)) }
{
    let (affine, others) = measures.split_at(affine_count(statement).min(measures.len()));
    match statement {
        Statement::Do(_) => linear_reaches(affine),
        Statement::Assign(_) => with_subscripts(affine, others),
        Statement::If(..) => with_subscripts(affine, others),
        Statement::Print(_) => with_subscripts(affine, others),
        _ => Reach::Within,
    }
}

/// Of expressions that have to be affine, and of the subscripts in others.
fn with_subscripts(affine: &[Measure], others: &[Measure]) -> Reach
    ensures { result ≡ also (measures.linear_reaches affine.now) (measures.inner_reaches
        others.now) }
{
    linear_reaches(affine).also(inner_reaches(others))
}

/// How many of a statement's first expressions have to be affine.
fn affine_count(statement: &Statement) -> usize
    ensures { result ≡ spec.affine_count (view.statement_of statement.now) }
{
    match statement {
        Statement::Do(_) => 2,
        Statement::Assign(assignment) => assignment.target.arguments.len(),
        Statement::If(_, assignment) => 2 + assignment.target.arguments.len(),
        _ => 0,
    }
}

/// The step of a DO statement, if it has one.
pub fn step_in<'a>(statement: &Statement, measures: &'a [Measure]) -> Option<&'a Measure>
    ensures { (given : Given) (s : Scene) → measures.now
        ≡ measures_of (spots_in given s (view.statement_of statement.now))
        → MatchOption result (tests.steps_in (view.statement_of statement.now)
        ≡ []) (λ m. map (measure_of s) (tests.steps_in (view.statement_of statement.now)) ≡ m.now
        ∷ []) }
{
    match statement {
        Statement::Do(_) => measures.get(2),
        _ => None,
    }
}
