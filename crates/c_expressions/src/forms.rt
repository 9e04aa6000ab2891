// Forms, places of elements and comparisons.

ghost use Rattle.std.specs.Prelude.{◌≡◌, ◌+ℤ◌, ◌-ℤ◌, ◌*ℤ◌, pos, IfOk, OnOk, string_bytes};
ghost use Rattle.nest_tree.specs.Form.{dot};
ghost use Rattle.nest_tree.specs.Tree.{param_values};
ghost use Rattle.nest_tree.specs.Values.{wrapped};
ghost use Rattle.nest_tree.specs.View.{tree_of};
ghost use Rattle.c_expressions.specs.Grammar.{sign_of};
ghost use Rattle.c_expressions.specs.Sums.{Adds, AppendsNumber, SumsUp, form_at, loops_at, place_at};
ghost use Rattle.c_expressions.specs.Told.{AppendsComparison};

use crate::scope::Scope;
use crate::sum::{Sum, Term};
use crate::sums::put_sum;
use crate::text::put_text;
use nest_tree::{Affine, Compare, Guard};
use std::alloc::AllocError;

impl Scope<'_> {
    /// Adds a multiple of a form to a sum.
    pub fn add_form(&self, form: &Affine, times: i64, sum: &mut Sum) -> Result<(), AllocError>
        ensures { OnOk result (Adds sum.old sum.new
            (λ v. times *ℤ form_at (param_values (tree_of self.now.program.now)) form.now v)) }
    {
        sum.add(form.constant(), times);
        self.add_params(form.params(), times, sum);
        self.add_loops(form.loops(), times, sum)
    }

    /// Adds a multiple of named constants, with their coefficients.
    pub fn add_params(&self, params: &[(u32, i64)], times: i64, sum: &mut Sum)
        ensures { Adds sum.old sum.new
            (λ v. times *ℤ dot params.now (param_values (tree_of self.now.program.now))) }
    {
        for &(number, coefficient) in params {
            sum.add_product(coefficient, times, self.parameter(number));
        }
    }

    /// Adds a multiple of loops, with their coefficients.
    pub fn add_loops(
        &self,
        loops: &[(u32, i64)],
        times: i64,
        sum: &mut Sum,
    ) -> Result<(), AllocError>
        ensures { OnOk result (Adds sum.old sum.new (λ v. times *ℤ loops_at v loops.now)) }
    {
        for &(number, coefficient) in loops {
            sum.add_term(Term::Loop(number), coefficient, times)?;
        }
        Ok(())
    }

    /// The sum that a form is.
    pub fn sum_of(&self, form: &Affine) -> Result<Sum, AllocError>
        ensures { IfOk result (λ sum. SumsUp sum
            (form_at (param_values (tree_of self.now.program.now)) form.now)) }
    {
        let mut sum = Sum::new(self.alloc);
        self.add_form(form, 1, &mut sum)?;
        Ok(sum)
    }

    /// Appends a form.
    pub fn put_form(&self, out: &mut String, form: &Affine) -> Result<(), AllocError>
        ensures { OnOk result (AppendsNumber (string_bytes out.old) (string_bytes out.new)
            (form_at (param_values (tree_of self.now.program.now)) form.now)) }
    {
        let sum = self.sum_of(form)?;
        put_sum(out, &sum)
    }

    /// Appends a comparison.
    pub fn put_comparison(&self, out: &mut String, guard: &Guard) -> Result<(), AllocError>
        ensures { OnOk result (AppendsComparison (tree_of self.now.program.now) guard.now
            (string_bytes out.old) (string_bytes out.new)) }
    {
        self.put_form(out, &guard.left)?;
        put_text(out, sign_of(guard.op))?;
        self.put_form(out, &guard.right)
    }

    // The place of an element in its array, in column-major order.
    pub(crate) fn element(
        &self,
        subscripts: &[Affine],
        bounds: &[(i64, i64)],
    ) -> Result<Sum, AllocError>
        ensures { IfOk result
            (λ sum. SumsUp sum (place_at (param_values (tree_of self.now.program.now))
            (pos 1) subscripts.now bounds.now)) }
    {
        let mut place = Sum::new(self.alloc);
        let mut stride = 1i64;
        for (dimension, subscript) in subscripts.iter().enumerate() {
            let Some(&(low, high)) = bounds.get(dimension) else {
                return Ok(place);
            };
            self.add_form(subscript, stride, &mut place)?;
            place.add_product(low, stride, -1);
            stride = next_stride(stride, low, high);
        }
        Ok(place)
    }
}

fn sign_of(op: Compare) -> &'static str
    ensures { result.now ≡ sign_of op }
{
    match op {
        Compare::Lt => " < ",
        Compare::Le => " <= ",
        Compare::Eq => " == ",
        Compare::Ge => " >= ",
        Compare::Gt => " > ",
    }
}

// How far apart elements lie whose subscripts in the next dimension are neighbours.
fn next_stride(stride: i64, low: i64, high: i64) -> i64
    ensures { result ≡ wrapped (stride *ℤ wrapped (high -ℤ low +ℤ pos 1)) }
{
    stride.wrapping_mul(extent(low, high))
}

fn extent(low: i64, high: i64) -> i64
    ensures { result ≡ wrapped (high -ℤ low +ℤ pos 1) }
{
    high.wrapping_sub(low).wrapping_add(1)
}
