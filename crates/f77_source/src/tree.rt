// The trees of expressions.

ghost use Rattle.std.specs.Prelude.{◌≡◌, ◌<◌, ◌≤◌, ◌++◌, true, List, [], ◌∷◌, map, reverse, length, IfOk, OnOk};
ghost use Rattle.f77_forms.specs.View as forms;
ghost use Rattle.f77_program.specs.Measures.{measure_of, linear_reaches};
ghost use Rattle.f77_program.specs.Operands.{operands_of};
ghost use Rattle.f77_program.specs.Reaches.{reach_of};
ghost use Rattle.f77_program.specs.declared.measure.Measure.{Measure};
ghost use Rattle.f77_program.specs.declared.reach.Reach.TheVariants.{Within};
ghost use Rattle.f77_scene.specs.Scene.{is_array, number_among};
ghost use Rattle.f77_scene.specs.Tests.{subscripts_at, subscripts_in};
ghost use Rattle.f77_scene.specs.Trees as scene;
ghost use Rattle.nest_tree.specs.Tree.{Expression};
ghost use Rattle.nest_tree.specs.View.{expression_of};
ghost use Rattle.f77_source.specs.Grown as spec;

use crate::form::forms_in;
use f77_forms as forms;
use f77_forms::{Operator, Sign};
use f77_program::measures::apply;
use f77_program::stack::{popped, push, taken};
use f77_program::{Known, Measure, Names, parts_of};
use nest_tree::{Access, Affine, Expr, Listed};
use std::alloc::{AllocError, Global};

/// The tree of an expression whose subscripts are affine. Its parts are gone over from the last to
/// the first, with what each comes to beside its tree.
pub fn tree_of(
    alloc: Global,
    known: &Known,
    variables: &Names,
    e: &forms::Expression,
) -> Result<Expr, AllocError>
    requires few { length variables.now < 4294967295 }
    requires affine { reach_of known.now (subscripts_in known.now (forms.expression_of e.now))
        ≡ Within }
    ensures { IfOk result (λ tree. expression_of tree ≡ scene.tree_of variables.now known.now
        (forms.expression_of e.now)) }
{
    let parts = parts_of(alloc, e)?;
    let mut measures = Vec::new(alloc);
    let mut trees = Vec::new(alloc);
    for place in (0..parts.len()).rev() {
        let part = parts[place];
        grow(alloc, known, variables, part, &measures, &mut trees)?;
        apply(alloc, known, part, &mut measures)?;
    }
    Ok(popped(&mut trees))
}

/// The tree of a part, in place of the trees of its operands, which lie on the stack, the first of
/// them on top; beside them lies what the operands come to.
fn grow(
    alloc: Global,
    known: &Known,
    variables: &Names,
    part: &forms::Expression,
    measures: &[Measure],
    trees: &mut Vec<Expr>,
) -> Result<(), AllocError>
    requires few { length variables.now < 4294967295 }
    requires measures { (front : List Measure) × (measures.now ≡ front
        ++ reverse (map (measure_of known.now) (operands_of (forms.expression_of part.now)))) }
    requires trees { (front : List Expression) × (map expression_of trees.old.items ≡ front
        ++ reverse (map (scene.tree_of variables.now known.now)
        (operands_of (forms.expression_of part.now)))) }
    requires affine { reach_of known.now (subscripts_at known.now (forms.expression_of part.now))
        ≡ Within }
    ensures { OnOk result ((front : List Expression) → map expression_of trees.old.items ≡ front
        ++ reverse (map (scene.tree_of variables.now known.now)
        (operands_of (forms.expression_of part.now))) → map expression_of trees.new.items ≡ front
        ++ scene.tree_of variables.now known.now (forms.expression_of part.now) ∷ []) }
{
    match part {
        forms::Expression::Number(number) => push(trees, Expr::Number(number.value() as i64)),
        forms::Expression::Name(name) => push(trees, name_tree(alloc, known, variables, name)),
        forms::Expression::Call(name, arguments) => {
            let operands = taken(trees, arguments.len())?;
            let subscripts = &measures[measures.len() - arguments.len()..];
            let tree = call_tree(alloc, known, variables, name, operands, subscripts)?;
            push(trees, tree)
        }
        forms::Expression::Parenthesized(_) => Ok(()),
        forms::Expression::Signed(sign, _) => {
            let term = popped(trees);
            push(trees, signed_tree(alloc, *sign, term)?)
        }
        forms::Expression::Binary(operator, _, _) => {
            let divisor = second_value(measures);
            let left = popped(trees);
            let right = popped(trees);
            push(trees, binary_tree(alloc, *operator, left, right, divisor)?)
        }
    }
}

/// The value of the second of two operands, which lies below the first.
fn second_value(measures: &[Measure]) -> i64
    requires { 2 ≤ length measures.now }
    ensures { (front : List Measure) (a b : Measure) → measures.now ≡ front ++ b ∷ a ∷ [] → result
        ≡ b.value }
{
    measures[measures.len() - 2].value
}

/// The variable of a loop round this place, a named constant, or a scalar.
fn name_tree(alloc: Global, known: &Known, variables: &Names, name: &[u8]) -> Expr
    requires { length variables.now < 4294967295 }
    ensures { expression_of result ≡ scene.name_tree variables.now known.now name.now }
{
    if let Some(number) = known.loop_number(name) {
        return Expr::LoopValue(number);
    }
    match known.constant_number(name) {
        Some(number) => Expr::Param(number),
        None => Expr::Load(access(variables, name, Listed::new(alloc))),
    }
}

/// A scalar, or an element of an array.
pub fn access(variables: &Names, name: &[u8], subscripts: Listed<Affine>) -> Access
    requires { length variables.now < 4294967295 }
    ensures { result ≡ record {
      variable = number_among variables.now name.now;
      subscripts =
          subscripts;
    } }
{
    Access {
        variable: variable_number(variables, name),
        subscripts,
    }
}

/// The number of a variable, from 1; one more than all where it is none of them.
pub fn variable_number(variables: &Names, name: &[u8]) -> u32
    requires { length variables.now < 4294967295 }
    ensures { result ≡ number_among variables.now name.now }
{
    match variables.number(name) {
        Some(number) => number,
        None => variables.as_slice().len() as u32 + 1,
    }
}

/// An element of an array, or MIN or MAX of these.
fn call_tree(
    alloc: Global,
    known: &Known,
    variables: &Names,
    name: &[u8],
    operands: Vec<Expr>,
    subscripts: &[Measure],
) -> Result<Expr, AllocError>
    requires few { length variables.now < 4294967295 }
    requires affine { is_array known.now name.now ≡ true → linear_reaches (reverse subscripts.now)
        ≡ Within }
    ensures { IfOk result (λ tree. expression_of tree ≡ spec.call_tree variables.now known.now
        name.now operands.items (reverse subscripts.now)) }
{
    if known.is_array(name) {
        let subscripts = forms_in(alloc, subscripts)?;
        return Ok(Expr::Load(access(variables, name, subscripts)));
    }
    if name == b"MIN".as_slice() {
        Ok(Expr::Min(operands))
    } else {
        Ok(Expr::Max(operands))
    }
}

/// A term behind a leading sign.
fn signed_tree(alloc: Global, sign: Sign, term: Expr) -> Result<Expr, AllocError>
    ensures { IfOk result (λ tree. expression_of tree ≡ scene.sign_tree sign (expression_of term)) }
{
    match sign {
        Sign::Plus => Ok(term),
        Sign::Minus => Ok(Expr::Neg(Box::new(alloc, term)?)),
    }
}

/// An operator between two operands; a divisor is its value.
fn binary_tree(
    alloc: Global,
    operator: Operator,
    left: Expr,
    right: Expr,
    divisor: i64,
) -> Result<Expr, AllocError>
    ensures { IfOk result (λ tree. expression_of tree ≡ spec.binary_tree operator
        (expression_of left) (expression_of right) divisor) }
{
    let left = Box::new(alloc, left)?;
    match operator {
        Operator::Add => Ok(Expr::Add(left, Box::new(alloc, right)?)),
        Operator::Subtract => Ok(Expr::Sub(left, Box::new(alloc, right)?)),
        Operator::Multiply => Ok(Expr::Mul(left, Box::new(alloc, right)?)),
        Operator::Divide => Ok(Expr::Div(left, divisor)),
    }
}
