// From an expression to its code.

ghost use Rattle.std.specs.Prelude.{◌≡◌, ◌+◌, ◌≤◌, ◌<◌, ◌++◌, [], ◌∷◌, IfOk, length};
ghost use Rattle.nest_tree.specs.Loads.{loads_among, loads_in};
ghost use Rattle.nest_tree.specs.Tree.{least_of, greatest_of};
ghost use Rattle.nest_tree.specs.View.{expression_of, expressions_from};
ghost use Rattle.flat_code.specs.Codes.{Compiled, IsCodeOf};

use crate::code::{Code, Step, small};
use nest_tree::Expr;
use std::alloc::{AllocError, Global};

/// The code of an expression. One of more than 2^32 registers counts as one that memory has no
/// room for.
pub fn code_of(alloc: Global, e: &Expr) -> Result<Code, AllocError>
    ensures { IfOk result (λ code. IsCodeOf (expression_of e.now) code) }
{
    let loads = load_count(e)?;
    let mut steps = Vec::new(alloc);
    let mut at = 0;
    let result = push_code(e, loads, &mut at, &mut steps)?;
    Ok(Code {
        steps,
        loads,
        result,
    })
}

// The sum of two numbers of loads.
fn plus(a: u32, b: u32) -> Result<u32, AllocError>
    ensures { IfOk result (λ n. n ≡ a + b) }
{
    small(u128::from(a) + u128::from(b))
}

// How many loads an expression has.
#[cycle(count)]
fn load_count(e: &Expr) -> Result<u32, AllocError>
    ensures { IfOk result (λ n. n ≡ length (loads_in (expression_of e.now))) }
{
    match e {
        Expr::Number(_) | Expr::LoopValue(_) | Expr::Param(_) => Ok(0),
        Expr::Load(_) => Ok(1),
        Expr::Neg(a) | Expr::Div(a, _) => load_count(a),
        Expr::Add(a, b) | Expr::Sub(a, b) | Expr::Mul(a, b) => {
            let left = load_count(a)?;
            let right = load_count(b)?;
            plus(left, right)
        }
        Expr::Min(arguments) => load_count_among(arguments),
        Expr::Max(arguments) => load_count_among(arguments),
    }
}

// How many loads arguments have.
#[cycle(count)]
fn load_count_among(arguments: &[Expr]) -> Result<u32, AllocError>
    ensures { IfOk result (λ n. n ≡ length (loads_among (expressions_from arguments.now))) }
{
    let mut count = 0;
    for argument in arguments {
        let more = load_count(argument)?;
        count = plus(count, more)?;
    }
    Ok(count)
}

// One more step, and the register that it fills.
fn push_step(loads: u32, steps: &mut Vec<Step>, step: Step) -> Result<u32, AllocError>
    ensures { IfOk result (λ r. (r ≡ loads + length steps.old.items)
        × (steps.new.items ≡ steps.old.items ++ step ∷ [])) }
{
    let register = small(u128::from(loads) + steps.len() as u128)?;
    steps.push(step)?;
    Ok(register)
}

// The register that has the value of an expression whose loads have the numbers from `at` on, which
// moves past them.
#[cycle(code)]
fn push_code(e: &Expr, loads: u32, at: &mut u32, steps: &mut Vec<Step>) -> Result<u32, AllocError>
    requires { at.old + length (loads_in (expression_of e.now)) ≤ loads }
    ensures code { IfOk result
        (λ r. Compiled (expression_of e.now) at.old loads steps.old.items steps.new.items r) }
    ensures at { IfOk result (λ r. at.new ≡ at.old + length (loads_in (expression_of e.now))) }
{
    match e {
        Expr::Number(n) => push_step(loads, steps, Step::Number(*n)),
        Expr::LoopValue(l) => push_step(loads, steps, Step::Loop(*l)),
        Expr::Param(p) => push_step(loads, steps, Step::Param(*p)),
        Expr::Load(_) => {
            let register = *at;
            *at += 1;
            Ok(register)
        }
        Expr::Neg(a) => {
            let x = push_code(a, loads, at, steps)?;
            push_step(loads, steps, Step::Neg(x))
        }
        Expr::Add(a, b) => {
            let x = push_code(a, loads, at, steps)?;
            let y = push_code(b, loads, at, steps)?;
            push_step(loads, steps, Step::Add(x, y))
        }
        Expr::Sub(a, b) => {
            let x = push_code(a, loads, at, steps)?;
            let y = push_code(b, loads, at, steps)?;
            push_step(loads, steps, Step::Sub(x, y))
        }
        Expr::Mul(a, b) => {
            let x = push_code(a, loads, at, steps)?;
            let y = push_code(b, loads, at, steps)?;
            push_step(loads, steps, Step::Mul(x, y))
        }
        Expr::Div(a, divisor) => {
            let x = push_code(a, loads, at, steps)?;
            push_step(loads, steps, Step::Div(x, *divisor))
        }
        Expr::Min(arguments) => push_least(arguments, loads, at, steps),
        Expr::Max(arguments) => push_greatest(arguments, loads, at, steps),
    }
}

// The register that has the least of the arguments' values.
#[cycle(code)]
fn push_least(
    arguments: &[Expr],
    loads: u32,
    at: &mut u32,
    steps: &mut Vec<Step>,
) -> Result<u32, AllocError>
    requires { at.old + length (loads_among (expressions_from arguments.now)) ≤ loads }
    ensures code { IfOk result
        (λ r. Compiled (least_of (expressions_from arguments.now)) at.old loads steps.old.items
        steps.new.items r) }
    ensures at { IfOk result (λ r. at.new
        ≡ at.old + length (loads_among (expressions_from arguments.now))) }
{
    let Some((first, rest)) = arguments.split_first() else {
        return push_step(loads, steps, Step::Number(0));
    };
    let mut best = push_code(first, loads, at, steps)?;
    for e in rest {
        let other = push_code(e, loads, at, steps)?;
        best = push_step(loads, steps, Step::Min(best, other))?;
    }
    Ok(best)
}

// The register that has the greatest of the arguments' values.
#[cycle(code)]
fn push_greatest(
    arguments: &[Expr],
    loads: u32,
    at: &mut u32,
    steps: &mut Vec<Step>,
) -> Result<u32, AllocError>
    requires { at.old + length (loads_among (expressions_from arguments.now)) ≤ loads }
    ensures code { IfOk result
        (λ r. Compiled (greatest_of (expressions_from arguments.now)) at.old loads steps.old.items
        steps.new.items r) }
    ensures at { IfOk result (λ r. at.new
        ≡ at.old + length (loads_among (expressions_from arguments.now))) }
{
    let Some((first, rest)) = arguments.split_first() else {
        return push_step(loads, steps, Step::Number(0));
    };
    let mut best = push_code(first, loads, at, steps)?;
    for e in rest {
        let other = push_code(e, loads, at, steps)?;
        best = push_step(loads, steps, Step::Max(best, other))?;
    }
    Ok(best)
}
