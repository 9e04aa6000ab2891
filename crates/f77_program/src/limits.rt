// The limits of a statement, with the number that passes one.

ghost use Rattle.std.specs.Prelude.{◌≡◌, map, IfOk};
ghost use Rattle.std.specs.List.{flat_map};
ghost use Rattle.f77_forms.specs.View as view;
ghost use Rattle.f77_forms.specs.View.{expression_of};
ghost use Rattle.f77_scene.specs.Limits as limits;
ghost use Rattle.f77_program.specs.Firsts.{first_of};
ghost use Rattle.f77_program.specs.Firsts as spec;

use crate::known::Known;
use crate::measures::measure;
use crate::parts::parts_of;
use f77_forms::{Bound, Declarator, Expression};
use nest_tree::is_small;
use std::alloc::{AllocError, Global};

/// The value of an expression: sums, differences and products wrap, and what is no constant has
/// some value too.
pub fn value_of(alloc: Global, known: &Known, e: &Expression) -> Result<i64, AllocError>
    ensures { IfOk result (λ z. z ≡ spec.value_of known.now (expression_of e.now)) }
{
    let parts = parts_of(alloc, e)?;
    let measure = measure(alloc, known, &parts)?;
    Ok(measure.value)
}

/// The bounds of a dimension.
pub fn bounds_of(alloc: Global, known: &Known, bound: &Bound) -> Result<(i64, i64), AllocError>
    ensures { IfOk result (λ b. b ≡ limits.bounds_of known.now (view.bound_of bound.now)) }
{
    let lower = match &bound.lower {
        Some(e) => value_of(alloc, known, e)?,
        None => 1,
    };
    let upper = value_of(alloc, known, &bound.upper)?;
    Ok((lower, upper))
}

/// The first number of a dimension's bounds that passes a limit.
fn bounds_past(bounds: (i64, i64)) -> Option<i64>
    ensures { result ≡ first_of (spec.bounds_past bounds) }
{
    if !is_small(bounds.0) {
        return Some(bounds.0);
    }
    if !is_small(bounds.1) {
        return Some(bounds.1);
    }
    if bounds.1 < bounds.0 {
        return Some(bounds.1 - bounds.0 + 1);
    }
    None
}

/// The first number of a declarator that passes a limit.
fn declarator_past(
    alloc: Global,
    known: &Known,
    declarator: &Declarator,
) -> Result<Option<i64>, AllocError>
    ensures { IfOk result (λ o. o ≡ first_of (limits.declarator_past known.now (view.declarator_of
        declarator.now))) }
{
    if declarator.bounds.len() > 3 {
        return Ok(Some(declarator.bounds.len() as i64));
    }
    for bound in &declarator.bounds {
        let bounds = bounds_of(alloc, known, bound)?;
        if let Some(number) = bounds_past(bounds) {
            return Ok(Some(number));
        }
    }
    Ok(None)
}

/// The first number of declarators that passes a limit.
pub fn declarators_past(
    alloc: Global,
    known: &Known,
    declarators: &[Declarator],
) -> Result<Option<i64>, AllocError>
    ensures { IfOk result (λ o. o ≡ first_of (flat_map (limits.declarator_past known.now)
        (map view.declarator_of declarators.now))) }
{
    for declarator in declarators {
        if let Some(number) = declarator_past(alloc, known, declarator)? {
            return Ok(Some(number));
        }
    }
    Ok(None)
}
