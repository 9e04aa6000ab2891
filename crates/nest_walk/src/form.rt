// The value of a form on a path.

ghost use Rattle.std.specs.Prelude.{◌≡◌, ◌-◌, ℤ, ◌+ℤ◌, map};
ghost use Rattle.nest_tree.specs.Form.{IsForm, dot, numbered};
ghost use Rattle.nest_tree.specs.Values.{wrapped};
ghost use Rattle.nest_tree.specs.declared.tree.Parameter.{Parameter};
ghost use Rattle.nest_walk.specs.Paths.{dot_among, form_among};
ghost use Rattle.nest_walk.specs.RoundsOf.{rounds_of};

use crate::path::Path;
use nest_tree::arithmetic::with_product;
use nest_tree::{Affine, Parameter};

/// The value of a form where the loops of a path and the named constants have their values, modulo
/// 2^64; a loop that isn't on the path is at 0.
pub fn value_at(form: &Affine, path: &Path, params: &[Parameter]) -> i64
    ensures form { IsForm form.now }
    ensures value { result
        ≡ wrapped (form_among form.now (rounds_of path.now)
        (map (λ (p : Parameter). p.value) params.now)) }
{
    let sum = with_loops(form.constant(), form.loops(), path);
    with_params(sum, form.params(), params)
}

// A sum and coefficients times loops' values.
fn with_loops(sum: i64, pairs: &[(u32, i64)], path: &Path) -> i64
    ensures { result ≡ wrapped (sum +ℤ dot_among pairs.now (rounds_of path.now)) }
{
    let mut total = sum;
    for (number, coefficient) in pairs {
        total = with_product(total, *coefficient, path.value_of(*number));
    }
    total
}

// A sum and coefficients times named constants.
fn with_params(sum: i64, pairs: &[(u32, i64)], params: &[Parameter]) -> i64
    ensures { result
        ≡ wrapped (sum +ℤ dot pairs.now (map (λ (p : Parameter). p.value) params.now)) }
{
    let mut total = sum;
    for (number, coefficient) in pairs {
        total = with_product(total, *coefficient, param_value(params, *number));
    }
    total
}

// The value of the named constant with this number, 0 where there is none.
fn param_value(params: &[Parameter], number: u32) -> i64
    ensures { result ≡ numbered (map (λ (p : Parameter). p.value) params.now) number }
{
    let place = (number as usize).saturating_sub(1);
    if place < params.len() {
        params[place].value
    } else {
        0
    }
}
