// What expressions are as affine forms.

ghost use Rattle.std.specs.Prelude.{◌≡◌, ◌≤◌, negsuc, IfOk, IsTrue, [], ◌∷◌};
ghost use Rattle.nest_tree.specs.Form.{is_small};
ghost use Rattle.f77_scene.specs.Affine.{fixed, times};
ghost use Rattle.f77_program.specs.Linear as linear;
ghost use Rattle.f77_program.specs.Sums.{Ascends};

use crate::sums::{pairs_multiple, pairs_sum, small_product, small_sum};
use nest_tree::{Affine, Pairs, is_small};
use std::alloc::{AllocError, Global};

/// What an expression is as an affine form.
#[derive(Drop)]
pub enum Linear {
    /// It is not affine.
    NotAffine,
    /// It is affine, and this is the first number past plus or minus 2147483647 on the way to its
    /// form.
    Past(i64),
    /// It has this form, and no number on the way is past the limit.
    Within(Affine),
}

/// A number of 64 bits as a form.
pub fn number(alloc: Global, value: i64) -> Linear
    ensures { result ≡ linear.linear_with (linear.past (value ∷ [])) (fixed value) }
{
    if is_small(value) {
        Linear::Within(Affine::new(value, Pairs::new(alloc), Pairs::new(alloc)))
    } else {
        Linear::Past(value)
    }
}

/// The variable of the loop with this number.
pub fn loop_variable(alloc: Global, number: u32) -> Result<Linear, AllocError>
    requires { 1 ≤ number }
    ensures { IfOk result (λ l. l ≡ linear.loop_linear number) }
{
    let mut loops = Pairs::new(alloc);
    loops.push(number, 1)?;
    Ok(Linear::Within(Affine::new(0, loops, Pairs::new(alloc))))
}

/// The named constant with this number.
pub fn constant(alloc: Global, number: u32) -> Result<Linear, AllocError>
    requires { 1 ≤ number }
    ensures { IfOk result (λ l. l ≡ linear.constant_linear number) }
{
    let mut params = Pairs::new(alloc);
    params.push(number, 1)?;
    Ok(Linear::Within(Affine::new(0, Pairs::new(alloc), params)))
}

/// The negative of an expression.
pub fn negated(alloc: Global, a: Linear) -> Result<Linear, AllocError>
    ensures { IfOk result (λ l. l ≡ linear.negated a) }
{
    match a {
        Linear::NotAffine => Ok(Linear::NotAffine),
        Linear::Past(number) => Ok(Linear::Past(number)),
        Linear::Within(form) => Ok(Linear::Within(negative(alloc, &form)?)),
    }
}

/// The sum of two expressions.
pub fn sum(alloc: Global, a: Linear, b: Linear) -> Result<Linear, AllocError>
    ensures { IfOk result (λ l. l ≡ linear.added a b) }
{
    match (a, b) {
        (Linear::NotAffine, _) | (_, Linear::NotAffine) => Ok(Linear::NotAffine),
        (Linear::Past(number), _) | (_, Linear::Past(number)) => Ok(Linear::Past(number)),
        (Linear::Within(a), Linear::Within(b)) => sum_of_forms(alloc, &a, &b),
    }
}

/// An expression times a number that another one has.
pub fn product(alloc: Global, factor: i64, a: &Affine) -> Result<Linear, AllocError>
    ensures { IfOk result (λ l. l ≡ linear.times_value factor a.now) }
{
    if is_small(factor) {
        multiple(alloc, factor, a)
    } else {
        Ok(Linear::Past(factor))
    }
}

fn negative(alloc: Global, a: &Affine) -> Result<Affine, AllocError>
    ensures { IfOk result (λ f. f ≡ times (negsuc 0) a.now) }
{
    let constant = small_product(-1, a.constant());
    let loops = pairs_multiple(alloc, -1, a.loops())?;
    let params = pairs_multiple(alloc, -1, a.params())?;
    Ok(Affine::new(constant, loops, params))
}

fn sum_of_forms(alloc: Global, a: &Affine, b: &Affine) -> Result<Linear, AllocError>
    ensures { IfOk result (λ l. l ≡ linear.sum_of_forms a.now b.now) }
{
    let constant = small_sum(a.constant(), b.constant());
    let loops = pairs_sum(alloc, a.loops(), b.loops())?;
    let params = pairs_sum(alloc, a.params(), b.params())?;
    Ok(limited(constant, loops, params))
}

fn multiple(alloc: Global, factor: i64, a: &Affine) -> Result<Linear, AllocError>
    requires { IsTrue (is_small factor) }
    ensures { IfOk result (λ l. l ≡ linear.multiple factor a.now) }
{
    let constant = small_product(factor, a.constant());
    let loops = pairs_multiple(alloc, factor, a.loops())?;
    let params = pairs_multiple(alloc, factor, a.params())?;
    Ok(limited(constant, loops, params))
}

/// A form of these parts, if none of its numbers is past the limit.
fn limited(constant: i64, loops: Pairs, params: Pairs) -> Linear
    requires loops { Ascends 0 loops }
    requires params { Ascends 0 params }
    ensures { result ≡ linear.limited (record {
      constant = constant;
      loops = loops;
      params = params;
    }) }
{
    if !is_small(constant) {
        return Linear::Past(constant);
    }
    if let Some(number) = first_past(loops.as_slice()) {
        return Linear::Past(number);
    }
    if let Some(number) = first_past(params.as_slice()) {
        return Linear::Past(number);
    }
    Linear::Within(Affine::new(constant, loops, params))
}

/// The first coefficient past the limit.
fn first_past(pairs: &[(u32, i64)]) -> Option<i64>
    ensures { result ≡ linear.first_past pairs.now }
{
    for &(_, coefficient) in pairs {
        if !is_small(coefficient) {
            return Some(coefficient);
        }
    }
    None
}
