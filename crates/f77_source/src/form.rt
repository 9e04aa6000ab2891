// Affine forms of expressions.

ghost use Rattle.std.specs.Prelude.{◌≡◌, [], ◌∷◌, map, reverse, IfOk};
ghost use Rattle.f77_forms.specs.View.{expression_of};
ghost use Rattle.f77_program.specs.Measures.{linear_reaches};
ghost use Rattle.f77_program.specs.Reaches.{reach_of};
ghost use Rattle.f77_program.specs.declared.reach.Reach.TheVariants.{Within};
ghost use Rattle.f77_scene.specs.Affine as affine;
ghost use Rattle.f77_source.specs.Forms as spec;

use f77_forms::Expression;
use f77_program::linear::Linear;
use f77_program::measures::measure;
use f77_program::{Known, Measure, parts_of};
use nest_tree::{Affine, Listed};
use std::alloc::{AllocError, Global};

/// The form that an affine expression stands for.
pub fn form_of(alloc: Global, known: &Known, e: &Expression) -> Result<Affine, AllocError>
    requires { reach_of known.now (expression_of e.now ∷ []) ≡ Within }
    ensures { IfOk result (λ f. f ≡ affine.form_of known.now (expression_of e.now)) }
{
    let parts = parts_of(alloc, e)?;
    let measure = measure(alloc, known, &parts)?;
    let form = form_in(alloc, &measure)?;
    Ok(form)
}

/// The forms that affine expressions stand for.
pub fn forms_of(
    alloc: Global,
    known: &Known,
    expressions: &[Expression],
) -> Result<Listed<Affine>, AllocError>
    requires { reach_of known.now (map expression_of expressions.now) ≡ Within }
    ensures { IfOk result (λ fs. fs ≡ map (affine.form_of known.now)
        (map expression_of expressions.now)) }
{
    let mut forms = Listed::new(alloc);
    for e in expressions {
        forms.push(form_of(alloc, known, e)?)?;
    }
    Ok(forms)
}

/// The forms of subscripts that come to these, the first one last.
pub fn forms_in(alloc: Global, measures: &[Measure]) -> Result<Listed<Affine>, AllocError>
    requires { linear_reaches (reverse measures.now) ≡ Within }
    ensures { IfOk result (λ fs. fs ≡ map spec.form_at (reverse measures.now)) }
{
    let mut forms = Listed::new(alloc);
    for place in (0..measures.len()).rev() {
        forms.push(form_in(alloc, &measures[place])?)?;
    }
    Ok(forms)
}

/// The form of an affine expression that comes to this.
fn form_in(alloc: Global, measure: &Measure) -> Result<Affine, AllocError>
    requires { linear_reaches (measure.now ∷ []) ≡ Within }
    ensures { IfOk result (λ f. f ≡ spec.form_at measure.now) }
{
    match &measure.linear {
        Linear::Within(form) => form.copy(alloc),
        Linear::NotAffine | Linear::Past(_) => unreachable!(),
    }
}
