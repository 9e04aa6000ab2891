// The value of a form on a path, however far it is from 0.

ghost use Rattle.std.specs.Prelude.{◌≡◌, ◌+◌, ◌-◌, ◌^◌, ◌≤◌, ◌+ℤ◌, IsTrue, length, map, unsigned_abs};
ghost use Rattle.nest_tree.specs.Form.{IsForm, reach_within, rises_above};
ghost use Rattle.nest_tree.specs.declared.tree.Parameter.{Parameter};
ghost use Rattle.nest_walk.specs.Paths.{dot_among, form_among};
ghost use Rattle.nest_walk.specs.RoundsOf.{rounds_of};

use nest_tree::{Affine, Parameter, constant_sum, product};
use nest_walk::Path;

// The value of a form where the loops of a path and the named constants have their values; a loop
// that isn't on the path is at 0.
pub(crate) fn exact_on(form: &Affine, path: &Path, constants: &[Parameter]) -> i128
    requires { IsTrue (reach_within (length constants.now) form.now.params) }
    ensures form { IsForm form.now }
    ensures value { result ≡ form_among form.now (rounds_of path.now)
        (map (λ (p : Parameter). p.value) constants.now) }
    ensures near { unsigned_abs result ≤ 2 ^ 127 - 2 ^ 94 }
{
    let varying = loops_sum(i128::from(form.constant()), form.loops(), path);
    constant_sum(varying, form.params(), constants)
}

// The sum of a start and of coefficients times loops' values.
fn loops_sum(start: i128, pairs: &[(u32, i64)], path: &Path) -> i128
    requires rising { IsTrue (rises_above 0 pairs.now) }
    requires start { unsigned_abs start ≤ 2 ^ 32 }
    ensures value { result ≡ start +ℤ dot_among pairs.now (rounds_of path.now) }
    ensures near { unsigned_abs result ≤ 2 ^ 126 }
{
    let mut sum = start;
    for &(number, coefficient) in pairs {
        sum += product(coefficient, path.value_of(number));
    }
    sum
}
